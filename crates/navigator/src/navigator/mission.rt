//! Looks in mode Mission.

ghost use Rattle.std.specs.Prelude.{◌≡◌, ◌<◌, ◌≤◌, List, true};
ghost use Rattle.mission_model.specs.declared.plan.Item.{Item as ItemValue};
ghost use Rattle.mission_model.specs.declared.plan.PlanType.TheVariants as kind;
ghost use Rattle.mission_model.specs.declared.request.Client.TheVariants as client;
ghost use Rattle.request_board.specs.BoardState.{outstanding};
ghost use Rattle.client_cache.specs.CacheState.{count_of, known_at, in_window};
ghost use Rattle.client_cache.specs.Wants.{looked, Asks};
ghost use Rattle.navigator.specs.Taking.{cache_past};
ghost use Rattle.navigator.specs.NavState.{with_taken, HasShown, own_cache, with_own_cache};
ghost use Rattle.navigator.specs.OnMission.{WaitsFor, StepsOn, FliesOn, LooksOn, uses_of, standing, can_stand, mode_after, entry_of, AnswersBy, KeepsTaken, TakesPlans};

use crate::navigator::Navigator;
use crate::verdict::take_plans;
use leg_machine::LegOut;
use mission_model::command::NAV_RETURN_TO_LAUNCH;
use mission_model::{Item, Mode, NavWhat, PlanType};
use request_board::Board;

impl Navigator {
    /// A look in mode Mission.
    pub(crate) fn look_on(&mut self, board: &mut Board) -> NavWhat
        ensures answers { (items : List ItemValue) → HasShown self.old items → AnswersBy LooksOn self.old items board.old result self.new board.new }
        ensures marks { self.new.flight.marks ≡ self.old.flight.marks }
        ensures grows { outstanding board.old client.Nav ≤ outstanding board.new client.Nav }
    {
        if self.mission.count() == 0 {
            return NavWhat::HoldEmpty;
        }
        if let Some((kind, seq)) = self.take_plans() {
            return self.wait_for(board, kind, seq);
        }
        match self.mission.first_broken() {
            Some((rule, seq)) => NavWhat::Hold {
                rule,
                seq,
                mission: self.mission.id(),
                fence: self.fence.id(),
            },
            None => self.fly(board),
        }
    }

    /// Takes fence and mission on, and answers the first item that is lacking still.
    pub(crate) fn take_plans(&mut self) -> Option<(PlanType, u16)>
        ensures takes { (items : List ItemValue) → HasShown self.old items → TakesPlans self.old items result self.new }
        ensures way { self.new.way ≡ self.old.way }
        ensures flight { self.new.flight ≡ self.old.flight }
    {
        let uses = self.flight.uses();
        take_plans(
            self.params,
            self.home,
            &mut self.fence,
            &mut self.mission,
            &uses,
        )
    }

    /// Flies a feasible mission on.
    fn fly(&mut self, board: &mut Board) -> NavWhat
        ensures flies { (items : List ItemValue) → HasShown self.old items → KeepsTaken FliesOn self.old items board.old result self.new board.new }
        ensures marks { self.new.flight.marks ≡ self.old.flight.marks }
        ensures grows { outstanding board.old client.Nav ≤ outstanding board.new client.Nav }
    {
        let seq = self.flight.index();
        if seq == self.mission.count() {
            return NavWhat::Done {
                mission: self.mission.id(),
                fence: self.fence.id(),
            };
        }
        match self.found_at(seq) {
            Some(item) => self.step(board, &item),
            None => self.wait_for(board, PlanType::Mission, seq),
        }
    }

    /// The mission's item at a seq, where it is known and can stand there. One that is known and cannot is forgotten.
    pub(crate) fn found_at(&mut self, seq: u16) -> Option<Item>
        ensures found { result ≡ standing (uses_of self.old.flight) (count_of self.old.mission.cache.head) seq (known_at self.old.mission.cache seq) }
        ensures rest { self.new ≡ with_own_cache kind.Mission (cache_past self.old.mission.cache seq result) self.old }
    {
        let item = self.mission.known(seq)?;
        if self
            .flight
            .uses()
            .can_stand(self.mission.count(), seq, &item)
        {
            return Some(item);
        }
        self.mission.forget(seq);
        None
    }

    /// One step at the item of the index.
    fn step(&mut self, board: &mut Board, item: &Item) -> NavWhat
        requires index { self.old.flight.legs.index < count_of self.old.mission.cache.head }
        requires stands { can_stand (uses_of self.old.flight) (count_of self.old.mission.cache.head) self.old.flight.legs.index item.now ≡ true }
        ensures steps { (items : List ItemValue) → StepsOn (with_taken self.old items) board.old item.now result (with_taken self.new items) board.new }
        ensures shown { (items : List ItemValue) → HasShown self.old items → HasShown self.new items }
        ensures marks { self.new.flight.marks ≡ self.old.flight.marks }
        ensures grows { outstanding board.old client.Nav ≤ outstanding board.new client.Nav }
    {
        let index = self.flight.index();
        self.mission.look(board, index);
        let out = self.flight.step(item);
        self.mode = mode_after(self.mode, out, item);
        entry_of(out, item, self.mission.id(), self.fence.id())
    }

    /// Waits for an item that is lacking: looks at it, and owes a drop where it is outside the window.
    pub(crate) fn wait_for(&mut self, board: &mut Board, kind: PlanType, seq: u16) -> NavWhat
        ensures waits { (items : List ItemValue) → WaitsFor kind seq (with_taken self.old items) board.old result (with_taken self.new items) board.new }
        ensures shown { (items : List ItemValue) → HasShown self.old items → HasShown self.new items }
        ensures way { self.new.way ≡ self.old.way }
        ensures flight { self.new.flight ≡ self.old.flight }
        ensures grows { outstanding board.old client.Nav ≤ outstanding board.new client.Nav }
    {
        if !self.look_for(board, kind, seq) {
            self.owed = Some((kind, seq));
        }
        NavWhat::Pending { kind, seq }
    }

    /// Looks at an item, and tells whether it is in its window.
    pub(crate) fn look_for(&mut self, board: &mut Board, kind: PlanType, seq: u16) -> bool
        ensures covers { result ≡ in_window (own_cache kind self.old) seq }
        ensures asks { Asks (own_cache kind self.old) board.old (looked (own_cache kind self.old) board.old seq) (own_cache kind self.new) board.new }
        ensures rest { self.new ≡ with_own_cache kind (own_cache kind self.new) self.old }
        ensures grows { outstanding board.old client.Nav ≤ outstanding board.new client.Nav }
    {
        match kind {
            PlanType::Mission => {
                let covers = self.mission.covers(seq);
                self.mission.look(board, seq);
                covers
            }
            PlanType::Fence => {
                let covers = self.fence.covers(seq);
                self.fence.look(board, seq);
                covers
            }
            PlanType::Safe => {
                let covers = self.safe.covers(seq);
                self.safe.look(board, seq);
                covers
            }
        }
    }
}

/// The mode after a step.
fn mode_after(before: Mode, out: LegOut, item: &Item) -> Mode
    ensures { result ≡ mode_after before out item.now }
{
    match out {
        LegOut::Action(_) if item.command == NAV_RETURN_TO_LAUNCH => Mode::Return,
        _ => before,
    }
}

/// The entry of a step at an item. It names both plans.
fn entry_of(out: LegOut, item: &Item, mission: u32, fence: u32) -> NavWhat
    ensures { result ≡ entry_of out item.now mission fence }
{
    let item = *item;
    match out {
        LegOut::Leg(seq) => NavWhat::Leg {
            seq,
            mission,
            fence,
            item,
        },
        LegOut::Action(seq) => NavWhat::Action {
            seq,
            mission,
            fence,
            item,
        },
        LegOut::Jump { seq, to, used } => NavWhat::Jump {
            seq,
            to,
            used,
            mission,
            fence,
        },
        LegOut::JumpSpent(seq) => NavWhat::JumpSpent {
            seq,
            mission,
            fence,
        },
        LegOut::Done => NavWhat::Done { mission, fence },
        LegOut::Pending => NavWhat::Idle,
    }
}
