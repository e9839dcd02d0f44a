//! The steps of an event: heads, index, line, mark.

ghost use Rattle.std.specs.Prelude.{◌≡◌, ◌<◌, ◌≤◌, length, List, true, IfSome};
ghost use Rattle.mission_model.specs.declared.plan.Item.{Item as ItemValue};
ghost use Rattle.mission_model.specs.declared.plan.PlanType.{PlanType as KindValue};
ghost use Rattle.mission_model.specs.declared.plan.PlanType.TheVariants as kind;
ghost use Rattle.mission_model.specs.declared.request.Client.TheVariants as client;
ghost use Rattle.mission_model.specs.PlanTypes.{limit_of, head_of};
ghost use Rattle.client_cache.specs.CacheState.{has_id, id_of, count_of};
ghost use Rattle.request_board.specs.BoardState.{outstanding};
ghost use Rattle.leg_machine.specs.MachineState.{after_reached};
ghost use Rattle.navigator.specs.NavState.{with_taken, HasShown};
ghost use Rattle.navigator.specs.OnMission.{AnswersBy};
ghost use Rattle.navigator.specs.Meeting.{HeadsMet, index_taken, AsksMark};
ghost use Rattle.navigator.specs.EventLaw.{ActsOn, LooksBy, Reaches, ReachesBack, leg_reached, target_reached, mode_taken};

use crate::navigator::{Navigator, still_owed};
use mission_model::{Mode, NavWhat, PlanHead, PlanType, VehicleLine, head_of};
use request_board::Board;

impl Navigator {
    /// Meets the published heads. A new mission or a new fence begins both plans anew, and any new head drops a return.
    pub(crate) fn meet(&mut self, heads: [PlanHead; 3])
        requires counts { (type : KindValue) → (head_of heads type).count ≤ limit_of type }
        requires same { has_id self.old.mission.cache.head (head_of heads kind.Mission).id ≡ true → (head_of heads kind.Mission).count ≡ count_of self.old.mission.cache.head }
        ensures meets { (items : List ItemValue) → HasShown self.old items → HeadsMet self.old items heads self.new }
        ensures id { has_id self.new.mission.cache.head (head_of heads kind.Mission).id ≡ true }
        ensures count { count_of self.new.mission.cache.head ≡ (head_of heads kind.Mission).count }
        ensures marks { length self.new.flight.marks.asked ≤ length self.old.flight.marks.asked }
    {
        let mission = head_of(&heads, PlanType::Mission);
        let fence = head_of(&heads, PlanType::Fence);
        let safe = head_of(&heads, PlanType::Safe);
        let new_mission = !self.mission.has_id(mission.id);
        let new_fence = !self.fence.has_id(fence.id);
        let new_safe = !self.safe.has_id(safe.id);
        let anew = new_mission || new_fence;
        self.fence.meet(fence, anew);
        self.mission.meet(mission, anew, self.params, self.home);
        self.safe.meet(safe, new_safe);
        self.flight.meet(mission, new_mission);
        self.owed = still_owed(self.owed, new_mission, new_fence, new_safe);
        if anew || new_safe {
            self.way = None;
        }
    }

    /// Takes the index that the board keeps: it is set where it was asked for the adopted mission, and dropped otherwise.
    pub(crate) fn take_index(&mut self, board: &mut Board)
        requires { IfSome board.old.index (λ at. has_id self.old.mission.cache.head at.0 ≡ true → at.1 < count_of self.old.mission.cache.head) }
        ensures board { board.new ≡ record board.old { index = None } }
        ensures state { self.new ≡ index_taken self.old board.old.index }
    {
        if let Some((id, seq)) = board.take_index() {
            if self.mission.has_id(id) {
                self.flight.set_index(seq);
            }
        }
    }

    /// Asks the mark of the place, where it is not the last standing one and the board has room.
    pub(crate) fn ask_mark(&mut self, board: &mut Board)
        requires { length self.old.flight.marks.asked ≤ outstanding board.old client.Nav }
        ensures mark { AsksMark (id_of self.old.mission.cache.head) self.old.flight board.old self.new.flight board.new }
        ensures rest { self.new ≡ record self.old { flight = self.new.flight } }
    {
        let id = self.mission.id();
        self.flight.ask_mark(board, id);
    }

    /// Acts on the line.
    pub(crate) fn act_on(&mut self, board: &mut Board, line: &VehicleLine) -> NavWhat
        ensures acts { (items : List ItemValue) → HasShown self.old items → AnswersBy (ActsOn line.now) self.old items board.old result self.new board.new }
        ensures marks { length self.new.flight.marks.asked ≡ length self.old.flight.marks.asked }
        ensures grows { outstanding board.old client.Nav ≤ outstanding board.new client.Nav }
    {
        match *line {
            VehicleLine::Tick => self.look(board),
            VehicleLine::Go => self.look(board),
            VehicleLine::Reached => self.reached(),
            VehicleLine::Mode(mode) => {
                self.enter_mode(mode);
                NavWhat::Taken
            }
            VehicleLine::Position { x, y } => {
                self.position = Some((x, y));
                NavWhat::Taken
            }
        }
    }

    /// Looks, by the mode.
    fn look(&mut self, board: &mut Board) -> NavWhat
        ensures looks { (items : List ItemValue) → HasShown self.old items → AnswersBy (LooksBy self.old.mode) self.old items board.old result self.new board.new }
        ensures marks { self.new.flight.marks ≡ self.old.flight.marks }
        ensures grows { outstanding board.old client.Nav ≤ outstanding board.new client.Nav }
    {
        match self.mode {
            Mode::Hold => NavWhat::Idle,
            Mode::Mission => self.look_on(board),
            Mode::Return => self.look_back(board),
        }
    }

    /// The vehicle reached its target.
    fn reached(&mut self) -> NavWhat
        ensures reaches { (items : List ItemValue) → Reaches self.old.mode (with_taken self.old items) result (with_taken self.new items) }
        ensures shown { (items : List ItemValue) → HasShown self.old items → HasShown self.new items }
        ensures marks { self.new.flight.marks ≡ self.old.flight.marks }
    {
        match self.mode {
            Mode::Return => self.reach_target(),
            Mode::Hold => self.reach_leg(),
            Mode::Mission => self.reach_leg(),
        }
    }

    /// The leg at the index is reached, where one was shown.
    fn reach_leg(&mut self) -> NavWhat
        ensures what { result ≡ leg_reached self.old.flight.legs.at_leg self.old.flight.legs.index }
        ensures state { self.new ≡ record self.old { flight = record self.old.flight { legs = after_reached self.old.flight.legs } } }
    {
        match self.flight.reached() {
            Some(index) => NavWhat::Next(index),
            None => NavWhat::Ignored,
        }
    }

    /// The present target of the return is reached, where it was shown.
    fn reach_target(&mut self) -> NavWhat
        ensures reaches { (items : List ItemValue) → ReachesBack self.old.way (with_taken self.old items) result (with_taken self.new items) }
        ensures shown { (items : List ItemValue) → HasShown self.old items → HasShown self.new items }
        ensures flight { self.new.flight ≡ self.old.flight }
    {
        let Some(mut way) = self.way.take() else {
            return NavWhat::Ignored;
        };
        let reached = way.reached();
        self.way = Some(way);
        target_reached(reached)
    }

    /// Enters a mode, which drops a return.
    fn enter_mode(&mut self, mode: Mode)
        ensures state { (items : List ItemValue) → with_taken self.new items ≡ mode_taken (with_taken self.old items) mode }
        ensures shown { (items : List ItemValue) → HasShown self.old items → HasShown self.new items }
        ensures marks { self.new.flight.marks ≡ self.old.flight.marks }
    {
        self.mode = mode;
        self.way = None;
        self.flight.enter(mode, self.mission.count());
    }
}

/// The entry of a target that was shown and is reached, or was not.
fn target_reached(shown: bool) -> NavWhat
    ensures { result ≡ target_reached shown }
{
    if shown {
        NavWhat::NextReturn
    } else {
        NavWhat::Ignored
    }
}
