//! The machine. A leg stays at its index until it is reached; all else moves on at once.

ghost use Rattle.std.specs.Prelude.{◌≡◌, ◌<◌, ◌≤◌, ◌↔◌, ◌⊎◌, ◌+◌, true, IsTrue, List};
ghost use Rattle.mission_model.specs.declared.plan.Item.{Item as ItemValue};
ghost use Rattle.mission_model.specs.CountsList.{pairs_of};
ghost use Rattle.mission_model.specs.Pairs.{Takes};
ghost use Rattle.leg_machine.specs.MachineState.{made, set_to, after_reached};
ghost use Rattle.leg_machine.specs.Stepping.{ShowsItem, HasRoom, ShowsOf, Steps, at_leg_after};
ghost use Rattle.leg_machine.specs.AtItem.{LeadsWithin, StepsAt, Jumps};

use jump_counts::{JumpAnswer, take_jump};
use mission_model::command::{Jump, NAV_LOITER_UNLIM, is_leg, jump_of};
use mission_model::{Counts, Item, Look};
use std::marker::Model;

/// What a step did, by the seq of the item that it was shown.
#[derive(Clone, Copy, Debug, PartialEq, Eq)]
pub enum LegOut {
    /// A leg, at which the machine stays until it is reached.
    Leg(u16),
    /// An action, which is done at once.
    Action(u16),
    /// A jump to another seq, of whose repeats so many are used now.
    Jump { seq: u16, to: u16, used: u16 },
    /// A jump whose repeats are all used.
    JumpSpent(u16),
    /// The mission has no further item.
    Done,
    /// The item is not known yet.
    Pending,
}

/// Where a mission is, and how often its jumps were taken.
#[derive(Drop)]
pub struct LegMachine {
    count: u16,
    index: u16,
    counts: Counts,
    /// The leg at the index was shown, and may be reached.
    at_leg: bool,
}

impl Model for LegMachine {
    ghost use Rattle.std.specs.Prelude.{◌≡◌, ◌<◌, ◌≤◌, true};
    ghost use Rattle.mission_model.specs.CountsList.{pairs_of};
    ghost use Rattle.leg_machine.specs.MachineState.{MachineState};

    ghost Value = { MachineState };

    ghost view = { λ m. record { count = m.count; index = m.index; pairs = pairs_of m.counts; at_leg = m.at_leg } };

    ghost invariant = { λ m. (m.index ≤ m.count) × (m.at_leg ≡ true → m.index < m.count) };
}

impl LegMachine {
    /// A machine of a mission of so many items, at an index, with the counts of its jumps.
    pub fn new(count: u16, index: u16, counts: Counts) -> LegMachine
        requires { index ≤ count }
        ensures { result ≡ made count index (pairs_of counts) }
    {
        LegMachine {
            count,
            index,
            counts,
            at_leg: false,
        }
    }

    /// The seq of the item that is next; the number of items at the mission's end.
    pub fn index(&self) -> u16
        ensures index { result ≡ self.now.index }
        ensures within { result ≤ self.now.count }
    {
        self.index
    }

    /// How often each jump was taken.
    pub fn counts(&self) -> Counts
        ensures { pairs_of result ≡ self.now.pairs }
    {
        self.counts
    }

    /// Goes to an item. At the first one the jumps count anew.
    pub fn set_index(&mut self, seq: u16)
        requires { (seq ≡ 0) ⊎ (seq < self.old.count) }
        ensures { self.new ≡ set_to self.old seq }
    {
        if seq == 0 {
            self.counts = Counts::new();
        }
        self.move_to(seq);
    }

    /// The vehicle reached its target: goes one on from a leg that was shown, and tells whether it did. An unlimited
    /// loiter is never reached.
    pub fn reached(&mut self) -> bool
        ensures answer { IsTrue result ↔ (self.old.at_leg ≡ true) }
        ensures machine { self.new ≡ after_reached self.old }
    {
        if !self.at_leg {
            return false;
        }
        self.move_on();
        true
    }

    /// One step of the mission, with what is known of the item at the index.
    pub fn step(&mut self, look: Look) -> LegOut
        requires item { ShowsItem self.old look }
        requires room { HasRoom self.old look }
        ensures done { (result ≡ LegOut.Done) ↔ (self.old.index ≡ self.old.count) }
        ensures pending { (result ≡ LegOut.Pending) ↔ ((look ≡ Look.Pending) × (self.old.index < self.old.count)) }
        ensures stays { (result ≡ LegOut.Done) ⊎ (result ≡ LegOut.Pending) → self.new ≡ self.old }
        ensures step { (items : List ItemValue) → ShowsOf items self.old look → Steps items self.old result self.new }
        ensures at_leg { self.new.at_leg ≡ at_leg_after self.old look result }
        ensures count { self.new.count ≡ self.old.count }
    {
        if self.index == self.count {
            return LegOut::Done;
        }
        match look {
            Look::Here(item) => self.step_at(&item),
            Look::Pending => LegOut::Pending,
        }
    }

    /// One step at the item at the index.
    fn step_at(&mut self, item: &Item) -> LegOut
        requires within { self.old.index < self.old.count }
        requires target { LeadsWithin self.old.count item.now }
        requires room { HasRoom self.old (Look.Here item.now) }
        ensures { StepsAt item.now self.old result self.new }
    {
        if is_leg(item.command) {
            self.at_leg = item.command != NAV_LOITER_UNLIM;
            return LegOut::Leg(self.index);
        }
        match jump_of(item) {
            Some(jump) => self.jump(jump),
            None => LegOut::Action(self.move_on()),
        }
    }

    /// The jump at the index: to its target while some of its repeats are left, and else one on.
    fn jump(&mut self, jump: Jump) -> LegOut
        requires within { self.old.index < self.old.count }
        requires target { jump.target < self.old.count }
        requires room { Takes self.old.pairs self.old.index }
        ensures { Jumps jump self.old result self.new }
    {
        let seq = self.index;
        match take_jump(&mut self.counts, seq, jump.repeats) {
            JumpAnswer::Taken(used) => {
                self.move_to(jump.target);
                LegOut::Jump {
                    seq,
                    to: jump.target,
                    used,
                }
            }
            JumpAnswer::Spent => LegOut::JumpSpent(self.move_on()),
        }
    }

    /// Moves one on, and tells which item is left behind.
    fn move_on(&mut self) -> u16
        requires { self.old.index < self.old.count }
        ensures item { result ≡ self.old.index }
        ensures machine { self.new ≡ made self.old.count (self.old.index + 1) self.old.pairs }
    {
        let seq = self.index;
        self.move_to(seq + 1);
        seq
    }

    /// Moves to an index, at which no leg was shown yet.
    fn move_to(&mut self, index: u16)
        requires { index ≤ self.old.count }
        ensures { self.new ≡ made self.old.count index self.old.pairs }
    {
        self.index = index;
        self.at_leg = false;
    }
}

#[cfg(test)]
mod tests;
