//! Events in the modes Hold and Mission: how the vehicle goes along its mission.

ghost use Rattle.std.specs.Prelude.{◌≡◌, ◌+◌, ◌<◌, IfOk, IsTrue, ◌↔◌, true, false, MatchOption};
ghost use Rattle.mission_model.specs.Legs.{is_action};
ghost use Rattle.mission_model.specs.Pairs.{Takes, used_of, with_pair};
ghost use Rattle.mission_model.specs.declared.vehicle.NavWhat.TheVariants as what;
ghost use Rattle.plan_vehicle.specs.PlanState.{told_at};
ghost use Rattle.plan_vehicle.specs.VehicleState.{VehicleState};
ghost use Rattle.plan_vehicle.specs.MissionEvents.{IsJudged, broken_rule, Holds, moved, mode_after, LooksOn, can_go_on, ReachesOn};
ghost use Rattle.plan_vehicle.specs.Looked.{IsAt, jump_told};

use crate::vehicle::Vehicle;
use jump_counts::{JumpAnswer, take_jump};
use mission_model::command::{
    DO_CHANGE_SPEED, DO_LAND_START, Jump, NAV_LOITER_UNLIM, NAV_RETURN_TO_LAUNCH, is_leg, jump_of,
};
use mission_model::{Item, Mode, NavWhat, is_same_item};
use std::alloc::{AllocError, Global};

impl Vehicle {
    /// A look in mode Mission.
    pub(crate) fn looks_on(&mut self, alloc: Global, what: NavWhat) -> Result<bool, AllocError>
        ensures yes { IfOk result (λ yes. IsTrue yes → LooksOn self.old what self.new) }
        ensures no { IfOk result (λ yes. yes ≡ false → (v : VehicleState) → LooksOn self.old what v → ⊥) }
    {
        match what {
            NavWhat::HoldEmpty => Ok(self.plans.mission().count() == 0),
            NavWhat::Pending { .. } => Ok(self.plans.mission().count() > 0),
            NavWhat::Hold {
                rule,
                seq,
                mission,
                fence,
            } => self.holds(alloc, rule, seq, mission, fence),
            NavWhat::Leg {
                seq,
                mission,
                fence,
                item,
            } => self.shows_leg(alloc, seq, mission, fence, item),
            NavWhat::Action {
                seq,
                mission,
                fence,
                item,
            } => self.does_action(alloc, seq, mission, fence, item),
            NavWhat::Jump {
                seq,
                to,
                used,
                mission,
                fence,
            } => self.jumps(alloc, seq, to, used, mission, fence),
            NavWhat::JumpSpent {
                seq,
                mission,
                fence,
            } => self.passes_jump(alloc, seq, mission, fence),
            NavWhat::Done { mission, fence } => self.is_over(alloc, mission, fence),
            _ => Ok(false),
        }
    }

    /// The first broken rule, where the mission can be judged; the line names both plans.
    fn judged(
        &mut self,
        alloc: Global,
        mission: u32,
        fence: u32,
    ) -> Result<Option<Option<(u8, u16)>>, AllocError>
        ensures keeps { self.new ≡ self.old }
        ensures judged { IfOk result (λ found. MatchOption found (IsJudged self.old mission fence → ⊥) (λ broken. IsJudged self.old mission fence × (broken ≡ broken_rule self.old))) }
    {
        if self.plans.mission().count() == 0
            || mission != self.plans.mission().id()
            || fence != self.plans.fence().id()
        {
            return Ok(None);
        }
        match self.plans.found(alloc)? {
            Some(found) => Ok(Some(found.broken)),
            None => Ok(None),
        }
    }

    fn holds(
        &mut self,
        alloc: Global,
        rule: u8,
        seq: u16,
        mission: u32,
        fence: u32,
    ) -> Result<bool, AllocError>
        ensures keeps { self.new ≡ self.old }
        ensures holds { IfOk result (λ yes. IsTrue yes ↔ Holds self.old rule seq mission fence) }
    {
        match self.judged(alloc, mission, fence)? {
            Some(Some((broken, at))) => Ok(rule == broken && seq == at),
            Some(None) => Ok(false),
            None => Ok(false),
        }
    }

    /// Whether the mission can be judged and is feasible; the line names both plans.
    fn is_feasible(&mut self, alloc: Global, mission: u32, fence: u32) -> Result<bool, AllocError>
        ensures keeps { self.new ≡ self.old }
        ensures feasible { IfOk result (λ yes. IsTrue yes ↔ (IsJudged self.old mission fence × (broken_rule self.old ≡ None))) }
    {
        match self.judged(alloc, mission, fence)? {
            Some(Some(_)) => Ok(false),
            Some(None) => Ok(true),
            None => Ok(false),
        }
    }

    /// Whether a feasible mission is at this seq; the line names both plans.
    fn is_at(
        &mut self,
        alloc: Global,
        seq: u16,
        mission: u32,
        fence: u32,
    ) -> Result<bool, AllocError>
        ensures keeps { self.new ≡ self.old }
        ensures at { IfOk result (λ yes. IsTrue yes ↔ IsAt self.old seq mission fence) }
    {
        if seq != self.index {
            return Ok(false);
        }
        self.is_feasible(alloc, mission, fence)
    }

    fn shows_leg(
        &mut self,
        alloc: Global,
        seq: u16,
        mission: u32,
        fence: u32,
        item: Item,
    ) -> Result<bool, AllocError>
        ensures yes { IfOk result (λ yes. IsTrue yes → LooksOn self.old (what.Leg seq mission fence item) self.new) }
        ensures no { IfOk result (λ yes. yes ≡ false → (v : VehicleState) → LooksOn self.old (what.Leg seq mission fence item) v → ⊥) }
    {
        if !self.is_at(alloc, seq, mission, fence)? {
            return Ok(false);
        }
        if !self.has_item(seq, &item) || !is_leg(item.command) {
            return Ok(false);
        }
        self.show_leg();
        Ok(true)
    }

    fn does_action(
        &mut self,
        alloc: Global,
        seq: u16,
        mission: u32,
        fence: u32,
        item: Item,
    ) -> Result<bool, AllocError>
        ensures yes { IfOk result (λ yes. IsTrue yes → LooksOn self.old (what.Action seq mission fence item) self.new) }
        ensures no { IfOk result (λ yes. yes ≡ false → (v : VehicleState) → LooksOn self.old (what.Action seq mission fence item) v → ⊥) }
    {
        if !self.is_at(alloc, seq, mission, fence)? {
            return Ok(false);
        }
        if !self.has_item(seq, &item) || !is_action(item.command) {
            return Ok(false);
        }
        self.go_to(seq + 1);
        self.take_mode(&item);
        Ok(true)
    }

    fn jumps(
        &mut self,
        alloc: Global,
        seq: u16,
        to: u16,
        used: u16,
        mission: u32,
        fence: u32,
    ) -> Result<bool, AllocError>
        ensures yes { IfOk result (λ yes. IsTrue yes → LooksOn self.old (what.Jump seq to used mission fence) self.new) }
        ensures no { IfOk result (λ yes. yes ≡ false → (v : VehicleState) → LooksOn self.old (what.Jump seq to used mission fence) v → ⊥) }
    {
        if !self.is_at(alloc, seq, mission, fence)? {
            return Ok(false);
        }
        let Some(jump) = self.jump_at(seq) else {
            return Ok(false);
        };
        if jump.target != to
            || !self.counts.takes(seq)
            || !self.takes_jump(seq, jump.repeats, used)
        {
            return Ok(false);
        }
        self.go_to(to);
        Ok(true)
    }

    /// Uses a jump once more, and tells whether it is used this often then.
    fn takes_jump(&mut self, seq: u16, repeats: u16, used: u16) -> bool
        requires { Takes self.old.counts seq }
        ensures yes { IsTrue result → (used_of self.old.counts seq < repeats) × (used ≡ used_of self.old.counts seq + 1) × (self.new ≡ record self.old { counts = with_pair self.old.counts seq used }) }
        ensures no { result ≡ false → used_of self.old.counts seq < repeats → used ≡ used_of self.old.counts seq + 1 → ⊥ }
    {
        match take_jump(&mut self.counts, seq, repeats) {
            JumpAnswer::Taken(count) => count == used,
            JumpAnswer::Spent => false,
        }
    }

    fn passes_jump(
        &mut self,
        alloc: Global,
        seq: u16,
        mission: u32,
        fence: u32,
    ) -> Result<bool, AllocError>
        ensures yes { IfOk result (λ yes. IsTrue yes → LooksOn self.old (what.JumpSpent seq mission fence) self.new) }
        ensures no { IfOk result (λ yes. yes ≡ false → (v : VehicleState) → LooksOn self.old (what.JumpSpent seq mission fence) v → ⊥) }
    {
        if !self.is_at(alloc, seq, mission, fence)? {
            return Ok(false);
        }
        let Some(jump) = self.jump_at(seq) else {
            return Ok(false);
        };
        if self.counts.used(seq) < jump.repeats {
            return Ok(false);
        }
        self.go_to(seq + 1);
        Ok(true)
    }

    fn is_over(&mut self, alloc: Global, mission: u32, fence: u32) -> Result<bool, AllocError>
        ensures yes { IfOk result (λ yes. IsTrue yes → LooksOn self.old (what.Done mission fence) self.new) }
        ensures no { IfOk result (λ yes. yes ≡ false → (v : VehicleState) → LooksOn self.old (what.Done mission fence) v → ⊥) }
    {
        if usize::from(self.index) != self.plans.mission().count() {
            return Ok(false);
        }
        self.is_feasible(alloc, mission, fence)
    }

    /// The item of the mission at a seq, where it is told.
    pub(crate) fn item(&self, seq: u16) -> Option<Item>
        ensures { result ≡ told_at self.now.mission seq }
    {
        self.plans.mission().item(seq)
    }

    /// Whether this is the item of the mission at a seq.
    pub(crate) fn has_item(&self, seq: u16, item: &Item) -> bool
        ensures { IsTrue result ↔ (told_at self.now.mission seq ≡ Some item.now) }
    {
        match self.item(seq) {
            Some(told) => is_same_item(&told, item),
            None => false,
        }
    }

    /// The jump of the mission at a seq.
    fn jump_at(&self, seq: u16) -> Option<Jump>
        ensures { result ≡ jump_told (told_at self.now.mission seq) }
    {
        match self.item(seq) {
            Some(item) => jump_of(&item),
            None => None,
        }
    }

    /// A leg of the index was shown.
    fn show_leg(&mut self)
        ensures { self.new ≡ record self.old { at_leg = true } }
    {
        self.at_leg = true;
    }

    /// Takes the mode after an action.
    fn take_mode(&mut self, item: &Item)
        ensures { self.new ≡ record self.old { mode = mode_after self.old.mode item.now } }
    {
        self.mode = mode_after(self.mode, item);
    }

    /// Goes to another index.
    fn go_to(&mut self, index: u16)
        ensures { self.new ≡ moved self.old index self.old.counts }
    {
        self.index = index;
        self.at_leg = false;
    }

    /// The vehicle is where it was going along its mission.
    pub(crate) fn reaches_on(&mut self, what: NavWhat) -> bool
        ensures yes { IsTrue result → ReachesOn self.old what self.new }
        ensures no { result ≡ false → (v : VehicleState) → ReachesOn self.old what v → ⊥ }
    {
        let can_go_on = self.can_go_on();
        match what {
            NavWhat::Next(index) => {
                if !can_go_on || u32::from(index) != u32::from(self.index) + 1 {
                    return false;
                }
                self.go_to(index);
                true
            }
            NavWhat::Ignored => !can_go_on,
            _ => false,
        }
    }

    /// Whether a leg of the index was shown and its item can be reached.
    fn can_go_on(&self) -> bool
        ensures { result ≡ can_go_on self.now }
    {
        self.at_leg
            && match self.item(self.index) {
                Some(item) => item.command != NAV_LOITER_UNLIM,
                None => true,
            }
    }
}

/// Whether a command is an action, which is done at once.
fn is_action(command: u16) -> bool
    ensures { result ≡ is_action command }
{
    ACTIONS.contains(&command)
}

/// The actions.
const ACTIONS: [u16; 3] = [NAV_RETURN_TO_LAUNCH, DO_CHANGE_SPEED, DO_LAND_START];

/// The mode after an action.
fn mode_after(mode: Mode, item: &Item) -> Mode
    ensures { result ≡ mode_after mode item.now }
{
    if item.command == NAV_RETURN_TO_LAUNCH {
        Mode::Return
    } else {
        mode
    }
}
