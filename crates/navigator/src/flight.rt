//! The flight: the legs of the mission, the uses of its jumps, and the marks of its place.

ghost use Rattle.std.specs.Prelude.{◌≡◌, ◌<◌, ◌≤◌, ◌⊎◌, ◌↔◌, ◌+◌, IsTrue, IfOk, IfSome, IfNone, length, [], true, false};
ghost use Rattle.mission_model.specs.declared.limits.TheConstants.{MAX_MISSION_ITEMS};
ghost use Rattle.mission_model.specs.declared.request.Client.TheVariants as client;
ghost use Rattle.mission_model.specs.CountsList.{pairs_of};
ghost use Rattle.request_board.specs.BoardState.{outstanding};
ghost use Rattle.leg_machine.specs.MachineState.{made, set_to, after_reached};
ghost use Rattle.navigator.specs.Standing.{mark_answered};
ghost use Rattle.navigator.specs.OnMission.{can_stand, uses_of, LegSteps};
ghost use Rattle.navigator.specs.Meeting.{FlightMet, AsksMark};
ghost use Rattle.navigator.specs.EventLaw.{legs_entering};

use crate::marks::{Marks, is_same_place};
use crate::uses::JumpUses;
use leg_machine::{LegMachine, LegOut};
use mission_model::{Client, Counts, Item, Look, Mark, Mode, PlanHead, Request};
use request_board::Board;
use std::alloc::{AllocError, Global};
use std::marker::Model;

/// How the mission is flown.
#[derive(Drop)]
pub struct Flight {
    legs: LegMachine,
    boot: Counts,
    marks: Marks,
}

impl Model for Flight {
    ghost use Rattle.mission_model.specs.CountsList.{pairs_of};
    ghost use Rattle.navigator.specs.NavState.{FlightState};

    ghost Value = { FlightState };

    ghost view = { λ a. record { legs = a.legs; boot = pairs_of a.boot; marks = a.marks } };
}

impl Flight {
    /// The flight of a boot: a mission of so many items at the boot's mark.
    pub fn begin(alloc: Global, count: u16, mark: Mark) -> Result<Flight, AllocError>
        requires { mark.index ≤ count }
        ensures { IfOk result (λ flight. flight ≡ record { legs = made count mark.index (pairs_of mark.counts); boot = pairs_of mark.counts; marks = record { stood = mark; asked = [] } }) }
    {
        Ok(Flight {
            legs: LegMachine::new(count, mark.index, mark.counts),
            boot: mark.counts,
            marks: Marks::new(alloc, mark)?,
        })
    }

    /// The index.
    pub fn index(&self) -> u16
        ensures index { result ≡ self.now.legs.index }
        ensures within { result ≤ self.now.legs.count }
    {
        self.legs.index()
    }

    /// The uses that the mission's items are to go with.
    pub fn uses(&self) -> JumpUses
        ensures { result ≡ uses_of self.now }
    {
        JumpUses::of(self.boot, self.legs.counts())
    }

    /// Meets the published mission, which is a new one or the same.
    pub fn meet(&mut self, head: PlanHead, is_new: bool)
        ensures { FlightMet is_new head self.old self.new }
    {
        if is_new {
            self.legs = LegMachine::new(head.count, 0, Counts::new());
            self.boot = Counts::new();
            self.marks.begin(head.id);
        }
    }

    /// Goes to an item.
    pub fn set_index(&mut self, seq: u16)
        requires { (seq ≡ 0) ⊎ (seq < self.old.legs.count) }
        ensures { self.new ≡ record self.old { legs = set_to self.old.legs seq } }
    {
        self.legs.set_index(seq);
    }

    /// Enters a mode; `count` is the mission's. At its end mode Mission begins the mission again.
    pub fn enter(&mut self, mode: Mode, count: u16)
        requires { self.old.legs.count ≡ count }
        ensures { self.new ≡ record self.old { legs = legs_entering mode self.old.legs } }
    {
        match mode {
            Mode::Mission => {
                if self.legs.index() == count {
                    self.legs.set_index(0);
                }
            }
            _ => {}
        }
    }

    /// The vehicle reached its target: the new index, where a leg was shown that can be reached.
    pub fn reached(&mut self) -> Option<u16>
        ensures next { IfSome result (λ index. (self.old.legs.at_leg ≡ true) × (index ≡ self.old.legs.index + 1)) }
        ensures ignored { IfNone result (self.old.legs.at_leg ≡ false) }
        ensures state { self.new ≡ record self.old { legs = after_reached self.old.legs } }
    {
        if self.legs.reached() {
            Some(self.legs.index())
        } else {
            None
        }
    }

    /// Asks the mark of the place, in the mission of this id, where it is not the last standing one and the board has room.
    pub fn ask_mark(&mut self, board: &mut Board, id: u32)
        requires { length self.old.marks.asked ≤ outstanding board.old client.Nav }
        ensures { AsksMark id self.old board.old self.new board.new }
    {
        let mark = Mark {
            id,
            index: self.legs.index(),
            counts: self.legs.counts(),
        };
        if is_same_place(self.marks.last(), &mark) {
            return;
        }
        if board.room(Client::Nav) == 0 {
            return;
        }
        let _ = board.ask(Client::Nav, Request::SetMark(mark));
        self.marks.push(mark);
    }

    /// Whether each mark that was asked has its reply.
    #[cfg(test)]
    pub fn is_quiet(&self) -> bool
        ensures { IsTrue result ↔ (length self.now.marks.asked ≡ 0) }
    {
        self.marks.is_quiet()
    }

    /// The mark that was asked first has its reply.
    pub fn mark_answered(&mut self, done: bool)
        ensures { self.new ≡ record self.old { marks = mark_answered self.old.marks done } }
    {
        self.marks.answered(done);
    }

    /// One step of the legs at the item of the index, which can stand there.
    #[tactic(auto, using(crate::proofs::CanStand::stands))]
    pub fn step(&mut self, item: &Item) -> LegOut
        requires index { self.old.legs.index < self.old.legs.count }
        requires limit { self.old.legs.count ≤ MAX_MISSION_ITEMS }
        requires stands { can_stand (uses_of self.old) self.old.legs.count self.old.legs.index item.now ≡ true }
        ensures steps { LegSteps self.old.legs item.now result self.new.legs }
        ensures rest { self.new ≡ record self.old { legs = self.new.legs } }
    {
        self.legs.step(Look::Here(*item))
    }
}
