//! Looks in mode Return.

ghost use Rattle.std.specs.Prelude.{◌≡◌, ◌<◌, ◌≤◌, List, length, Some, None, IsSome};
ghost use Rattle.mission_model.specs.declared.plan.Item.{Item as ItemValue};
ghost use Rattle.mission_model.specs.declared.request.Client.TheVariants as client;
ghost use Rattle.request_board.specs.BoardState.{outstanding};
ghost use Rattle.return_mode.specs.There.{AreThere};
ghost use Rattle.navigator.specs.NavState.{with_taken, HasShown, places};
ghost use Rattle.navigator.specs.OnMission.{AnswersBy};
ghost use Rattle.navigator.specs.OnReturn.{LooksBack, GoesAlong, SetsOut, ShowsPresent, TakesReturn, return_lacking, return_chosen, choice_kept, IsEntry, HasEntry};

use crate::navigator::Navigator;
use crate::verdict::take_points;
use mission_model::{Item, Look, NavWhat, PlanType};
use request_board::Board;
use return_mode::{ReturnOut, ReturnPlan, choose};

impl Navigator {
    /// A look in mode Return.
    pub(crate) fn look_back(&mut self, board: &mut Board) -> NavWhat
        ensures answers { (items : List ItemValue) → HasShown self.old items → AnswersBy LooksBack self.old items board.old result self.new board.new }
        ensures marks { self.new.flight.marks ≡ self.old.flight.marks }
        ensures grows { outstanding board.old client.Nav ≤ outstanding board.new client.Nav }
    {
        if let Some(way) = self.way.take() {
            return self.go_along(board, way);
        }
        match self.take_for_return() {
            Some((kind, seq)) => self.wait_for(board, kind, seq),
            None => self.set_out(board),
        }
    }

    /// Goes along a return that was chosen before.
    fn go_along(&mut self, board: &mut Board, mut way: ReturnPlan) -> NavWhat
        requires { self.old.way ≡ None }
        ensures goes { (items : List ItemValue) → AreThere (places self.old.home self.old.flight self.old.safe) way.left → GoesAlong way (with_taken self.old items) board.old result (with_taken self.new items) board.new }
        ensures shown { (items : List ItemValue) → AreThere (places self.old.home self.old.flight self.old.safe) way.left → HasShown self.old items → HasShown self.new items }
        ensures marks { self.new.flight.marks ≡ self.old.flight.marks }
        ensures grows { outstanding board.old client.Nav ≤ outstanding board.new client.Nav }
    {
        let what = self.show(board, &mut way);
        self.way = Some(way);
        what
    }

    /// Chooses a return, and keeps the choice unless its first target is waited for.
    fn set_out(&mut self, board: &mut Board) -> NavWhat
        requires { self.old.way ≡ None }
        ensures goes { (items : List ItemValue) → HasShown self.old items → return_lacking (with_taken self.old items) ≡ None → SetsOut (with_taken self.old items) board.old result (with_taken self.new items) board.new }
        ensures shown { (items : List ItemValue) → HasShown self.old items → return_lacking (with_taken self.old items) ≡ None → HasShown self.new items }
        ensures marks { self.new.flight.marks ≡ self.old.flight.marks }
        ensures grows { outstanding board.old client.Nav ≤ outstanding board.new client.Nav }
    {
        let mut way = self.choose();
        let what = self.show(board, &mut way);
        self.way = choice_kept(&what, way);
        what
    }

    /// Takes on what a choice looks at, and answers the first item that is lacking still.
    fn take_for_return(&mut self) -> Option<(PlanType, u16)>
        requires { self.old.way ≡ None }
        ensures takes { (items : List ItemValue) → HasShown self.old items → TakesReturn self.old items result self.new }
        ensures way { self.new.way ≡ None }
        ensures flight { self.new.flight ≡ self.old.flight }
    {
        if self.params.rtl_type != 0 {
            return self.take_plans();
        }
        take_points(
            self.params,
            self.home,
            &mut self.fence,
            &mut self.mission,
            &mut self.safe,
        )
    }

    /// The return that is chosen over plans that were taken.
    fn choose(&self) -> ReturnPlan
        ensures chosen { (items : List ItemValue) → HasShown self.now items → return_lacking (with_taken self.now items) ≡ None → result ≡ return_chosen (with_taken self.now items) }
        ensures there { (items : List ItemValue) → HasShown self.now items → return_lacking (with_taken self.now items) ≡ None → AreThere (places self.now.home self.now.flight self.now.safe) result.left }
    {
        let (feasible, landing) = self.mission.for_return();
        choose(
            self.params,
            self.home,
            self.position,
            self.mission.fence(),
            self.safe.points(),
            landing,
            feasible,
            self.flight.index(),
        )
    }

    /// Shows the present target of a return.
    fn show(&mut self, board: &mut Board, way: &mut ReturnPlan) -> NavWhat
        requires { self.old.way ≡ None }
        ensures shows { (items : List ItemValue) → AreThere (places self.old.home self.old.flight self.old.safe) way.old.left → ShowsPresent way.old (with_taken self.old items) board.old result (with_taken self.new items) board.new way.new }
        ensures there { AreThere (places self.old.home self.old.flight self.old.safe) way.old.left → AreThere (places self.new.home self.new.flight self.new.safe) way.new.left }
        ensures shown { (items : List ItemValue) → HasShown self.old items → HasShown self.new items }
        ensures none { self.new.way ≡ None }
        ensures marks { self.new.flight.marks ≡ self.old.flight.marks }
        ensures grows { outstanding board.old client.Nav ≤ outstanding board.new client.Nav }
    {
        let Some(seq) = way.seq() else {
            let out = way.next(Look::Pending);
            return self.return_entry(out, None);
        };
        match self.found_at(seq) {
            Some(item) => {
                let out = way.next(Look::Here(item));
                let what = self.return_entry(out, Some(item));
                let _ = self.look_for(board, PlanType::Mission, seq);
                what
            }
            None => self.wait_for(board, PlanType::Mission, seq),
        }
    }

    /// The entry that shows a target; `item` is the mission's item, where the target is one. A target without an entry is never
    /// shown.
    fn return_entry(&self, out: ReturnOut, item: Option<Item>) -> NavWhat
        ensures { (items : List ItemValue) → HasEntry (places self.now.home self.now.flight self.now.safe) out item → IsEntry out item (with_taken self.now items) result }
    {
        match out {
            ReturnOut::Leg(seq) => self.item_entry(seq, item),
            ReturnOut::Skip(seq) => NavWhat::ReturnSkip {
                seq,
                mission: self.mission.id(),
                fence: self.fence.id(),
            },
            ReturnOut::Home => self.home_entry(),
            ReturnOut::Safe(seq) => self.point_entry(seq),
            ReturnOut::None => NavWhat::ReturnNone,
            ReturnOut::Done => NavWhat::ReturnDone,
            ReturnOut::Pending => NavWhat::Idle,
        }
    }

    /// The entry of a leg of the mission.
    fn item_entry(&self, seq: u16, item: Option<Item>) -> NavWhat
        ensures { (items : List ItemValue) → IsSome item → IsEntry (ReturnOut.Leg seq) item (with_taken self.now items) result }
    {
        match item {
            Some(item) => NavWhat::ReturnLeg {
                seq,
                mission: self.mission.id(),
                fence: self.fence.id(),
                item,
            },
            None => NavWhat::Idle,
        }
    }

    /// The entry of the home.
    fn home_entry(&self) -> NavWhat
        ensures { (items : List ItemValue) → IsSome self.now.home → IsEntry ReturnOut.Home None (with_taken self.now items) result }
    {
        match self.home {
            Some(home) => NavWhat::ReturnHome(home),
            None => NavWhat::ReturnNone,
        }
    }

    /// The entry of a safe point.
    fn point_entry(&self, seq: u16) -> NavWhat
        ensures { (items : List ItemValue) → seq < length self.now.safe.taken → IsEntry (ReturnOut.Safe seq) None (with_taken self.now items) result }
    {
        match self.safe.points().get(seq as usize) {
            Some(item) => NavWhat::ReturnSafe {
                seq,
                safe: self.safe.id(),
                fence: self.fence.id(),
                item: *item,
            },
            None => NavWhat::ReturnNone,
        }
    }
}

/// What is kept of a choice.
fn choice_kept(what: &NavWhat, way: ReturnPlan) -> Option<ReturnPlan>
    ensures { result ≡ choice_kept what.now way }
{
    match what {
        NavWhat::Pending { .. } => None,
        _ => Some(way),
    }
}
