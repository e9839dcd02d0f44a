//! The Navigator of one boot, and what the core calls of it.

ghost use Rattle.std.specs.Prelude.{◌≡◌, ◌≤◌, [], length, List, Some};
ghost use Rattle.mission_model.specs.declared.plan.Item.{Item as ItemValue};
ghost use Rattle.mission_model.specs.BootStates.{StateInLimits};
ghost use Rattle.client_cache.specs.Moves.{moved};
ghost use Rattle.navigator.specs.NavState.{with_taken, HasShown, own_cache, with_own_cache};
ghost use Rattle.navigator.specs.Meeting.{after_reply, drop_owed, after_drop, still_owed};
ghost use Rattle.navigator.specs.EventLaw.{nav_at_boot, Obeys, CanTick};
ghost use Rattle.navigator.specs.NavCalls.{reply_taken, drop_taken};

mod events;
mod mission;
mod returns;

use crate::flight::Flight;
use crate::taken_list::TakenList;
use crate::taken_mission::TakenMission;
use crate::windows::{MISSION_PLACES, OTHER_PLACES, window};
use mission_model::{
    Asked, BootMark, Client, Home, Mode, NavEntry, Params, PlanType, Reply, VehicleLine, head_of,
};
use request_board::Board;
use return_mode::ReturnPlan;
use std::alloc::{AllocError, Global};
use std::marker::Model;

/// The Navigator. It takes memory in `new` alone, and holds no disk and no store.
#[derive(Drop)]
pub struct Navigator {
    params: Params,
    home: Option<Home>,
    mode: Mode,
    position: Option<(i32, i32)>,
    mission: TakenMission,
    fence: TakenList,
    safe: TakenList,
    flight: Flight,
    owed: Option<(PlanType, u16)>,
    way: Option<ReturnPlan>,
}

impl Model for Navigator {
    ghost use Rattle.navigator.specs.NavState.{NavState};

    ghost Value = { NavState };

    ghost use Rattle.navigator.specs.NavState.{IsFlown};

    ghost view = { λ a. record { params = a.params; home = a.home; mode = a.mode; position = a.position; mission = a.mission; fence = a.fence; safe = a.safe; flight = a.flight; owed = a.owed; way = a.way } };

    ghost invariant = { λ a. IsFlown a.mission a.fence a.safe a.flight };
}

impl Navigator {
    ghost use Rattle.std.specs.Prelude.{IsSome, IfOk};

    /// The Navigator of a boot, in mode Hold at the boot's mark. It knows and has taken nothing of any plan.
    pub fn new(
        alloc: Global,
        params: Params,
        home: Option<Home>,
        boot: &BootMark,
    ) -> Result<Navigator, AllocError>
        requires { StateInLimits boot.now }
        ensures begun { IfOk result (λ navigator. with_taken navigator [] ≡ nav_at_boot params home boot.now) }
        ensures shown { IfOk result (λ navigator. HasShown navigator []) }
    {
        let mission = head_of(&boot.heads, PlanType::Mission);
        let fence = head_of(&boot.heads, PlanType::Fence);
        let safe = head_of(&boot.heads, PlanType::Safe);
        let mission_window = window(alloc, PlanType::Mission, MISSION_PLACES, mission)?;
        let fence_window = window(alloc, PlanType::Fence, OTHER_PLACES, fence)?;
        let safe_window = window(alloc, PlanType::Safe, OTHER_PLACES, safe)?;
        Ok(Navigator {
            params,
            home,
            mode: Mode::Hold,
            position: None,
            mission: TakenMission::begin(mission_window, params, home),
            fence: TakenList::begin(PlanType::Fence, fence_window),
            safe: TakenList::begin(PlanType::Safe, safe_window),
            flight: Flight::begin(alloc, mission.count, boot.mark)?,
            owed: None,
            way: None,
        })
    }

    /// One event of the vehicle: published heads are met, an asked index is taken, the line is acted on, and the mark is asked.
    /// The entry says what was done, and how many requests were asked.
    pub fn tick(&mut self, board: &mut Board, line: &VehicleLine) -> NavEntry
        requires { CanTick self.old board.old }
        ensures { (items : List ItemValue) → HasShown self.old items → Obeys self.old items board.old line.now result self.new board.new }
    {
        let before = board.room(Client::Nav);
        self.meet(board.published());
        self.take_index(board);
        let what = self.act_on(board, line);
        self.ask_mark(board);
        let asked = before - board.room(Client::Nav);
        NavEntry { what, asked }
    }

    /// Takes the reply to the first of its requests whose reply it was not given yet.
    pub fn got(&mut self, asked: &Asked, reply: &Reply)
        ensures state { self.new ≡ after_reply self.old asked.now reply.now }
        ensures told { (items : List ItemValue) → with_taken self.new items ≡ reply_taken (with_taken self.old items) asked.now reply.now }
        ensures shown { (items : List ItemValue) → HasShown self.old items → HasShown self.new items }
    {
        match *asked {
            Asked::Read { .. } => {
                self.mission.got(asked, reply);
                self.fence.got(asked, reply);
                self.safe.got(asked, reply);
            }
            Asked::SetMark(mark) => {
                if self.mission.has_id(mark.id) {
                    self.flight.mark_answered(matches!(reply, Reply::Done));
                }
            }
            _ => {}
        }
    }

    /// The drop that is owed, if any: the type of the plan whose window is to be moved, and the seq where it is to begin.
    pub fn owed(&self, board: &Board) -> Option<(PlanType, u16)>
        ensures { result ≡ drop_owed self.now board.now.published }
    {
        let heads = board.published();
        still_owed(
            self.owed,
            !self.mission.has_id(head_of(&heads, PlanType::Mission).id),
            !self.fence.has_id(head_of(&heads, PlanType::Fence).id),
            !self.safe.has_id(head_of(&heads, PlanType::Safe).id),
        )
    }

    /// Moves the window for which a drop is owed, and answers the drop.
    pub fn drop_window(&mut self, board: &Board) -> (PlanType, u16)
        requires { IsSome (drop_owed self.old board.now.published) }
        ensures drop { Some result ≡ drop_owed self.old board.now.published }
        ensures state { self.new ≡ after_drop self.old result }
        ensures told { (items : List ItemValue) → with_taken self.new items ≡ drop_taken (with_taken self.old items) result.0 result.1 }
        ensures shown { (items : List ItemValue) → HasShown self.old items → HasShown self.new items }
    {
        match self.owed(board) {
            Some((kind, seq)) => {
                self.aim(kind, seq);
                self.owed = None;
                (kind, seq)
            }
            None => unreachable!(),
        }
    }

    /// Lets the window of a type begin at a seq.
    fn aim(&mut self, kind: PlanType, seq: u16)
        ensures { self.new ≡ with_own_cache kind (moved (own_cache kind self.old) seq (length (own_cache kind self.old).known)) self.old }
    {
        match kind {
            PlanType::Mission => self.mission.aim(seq),
            PlanType::Fence => self.fence.aim(seq),
            PlanType::Safe => self.safe.aim(seq),
        }
    }
}

/// What stays owed beside heads that are new or not.
fn still_owed(
    owed: Option<(PlanType, u16)>,
    new_mission: bool,
    new_fence: bool,
    new_safe: bool,
) -> Option<(PlanType, u16)>
    ensures { result ≡ still_owed owed new_mission new_fence new_safe }
{
    let (kind, seq) = owed?;
    let is_new = match kind {
        PlanType::Mission => new_mission,
        PlanType::Fence => new_fence,
        PlanType::Safe => new_safe,
    };
    if is_new { None } else { Some((kind, seq)) }
}

#[cfg(test)]
mod tests;
