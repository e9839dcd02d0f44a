//! Events in mode Return: how the vehicle goes along a return.

ghost use Rattle.std.specs.Prelude.{◌≡◌, IfOk, IsTrue, ◌↔◌, true, false};
ghost use Rattle.std.specs.Option.{option_map};
ghost use Rattle.mission_model.specs.declared.vehicle.NavWhat.TheVariants as what;
ghost use Rattle.return_mode.specs.ReturnState.{ReturnState, after_reached};
ghost use Rattle.plan_vehicle.specs.PlanState.{told_at};
ghost use Rattle.plan_vehicle.specs.VehicleState.{VehicleState};
ghost use Rattle.plan_vehicle.specs.ReturnEvents.{CanChoose, chosen, IsWay, Shows, InForce, LooksBack, has_target, ReachesBack};
ghost use Rattle.plan_vehicle.specs.Looked.{SetsOut, NextIs};

use crate::vehicle::Vehicle;
use mission_model::{Home, Item, Look, NavWhat, is_same_item};
use return_mode::ReturnOut;
use std::alloc::{AllocError, Global};

impl Vehicle {
    /// A look in mode Return.
    pub(crate) fn looks_back(&mut self, alloc: Global, what: NavWhat) -> Result<bool, AllocError>
        ensures yes { IfOk result (λ yes. IsTrue yes → LooksBack self.old what self.new) }
        ensures no { IfOk result (λ yes. yes ≡ false → (v : VehicleState) → LooksBack self.old what v → ⊥) }
    {
        match what {
            NavWhat::Pending { .. } => Ok(true),
            NavWhat::ReturnLeg {
                seq,
                mission,
                fence,
                item,
            } => self.leads_to_leg(alloc, seq, mission, fence, item),
            NavWhat::ReturnSkip {
                seq,
                mission,
                fence,
            } => self.skips(alloc, seq, mission, fence),
            NavWhat::ReturnHome(home) => self.leads_home(alloc, home),
            NavWhat::ReturnSafe {
                seq,
                safe,
                fence,
                item,
            } => self.leads_to_safe_point(alloc, seq, safe, fence, item),
            NavWhat::ReturnNone => self.shows(alloc, Look::Pending, ReturnOut::None),
            NavWhat::ReturnDone => self.shows(alloc, Look::Pending, ReturnOut::Done),
            _ => Ok(false),
        }
    }

    fn leads_to_leg(
        &mut self,
        alloc: Global,
        seq: u16,
        mission: u32,
        fence: u32,
        item: Item,
    ) -> Result<bool, AllocError>
        ensures yes { IfOk result (λ yes. IsTrue yes → LooksBack self.old (what.ReturnLeg seq mission fence item) self.new) }
        ensures no { IfOk result (λ yes. yes ≡ false → (v : VehicleState) → LooksBack self.old (what.ReturnLeg seq mission fence item) v → ⊥) }
    {
        if !self.are_in_force(mission, fence) || !self.has_item(seq, &item) {
            return Ok(false);
        }
        self.shows(alloc, Look::Here(item), ReturnOut::Leg(seq))
    }

    fn leads_home(&mut self, alloc: Global, home: Home) -> Result<bool, AllocError>
        ensures yes { IfOk result (λ yes. IsTrue yes → LooksBack self.old (what.ReturnHome home) self.new) }
        ensures no { IfOk result (λ yes. yes ≡ false → (v : VehicleState) → LooksBack self.old (what.ReturnHome home) v → ⊥) }
    {
        if !self.has_home(home) {
            return Ok(false);
        }
        self.shows(alloc, Look::Pending, ReturnOut::Home)
    }

    fn leads_to_safe_point(
        &mut self,
        alloc: Global,
        seq: u16,
        safe: u32,
        fence: u32,
        item: Item,
    ) -> Result<bool, AllocError>
        ensures yes { IfOk result (λ yes. IsTrue yes → LooksBack self.old (what.ReturnSafe seq safe fence item) self.new) }
        ensures no { IfOk result (λ yes. yes ≡ false → (v : VehicleState) → LooksBack self.old (what.ReturnSafe seq safe fence item) v → ⊥) }
    {
        if safe != self.plans.safe().id()
            || fence != self.plans.fence().id()
            || !self.has_safe_point(seq, &item)
        {
            return Ok(false);
        }
        self.shows(alloc, Look::Pending, ReturnOut::Safe(seq))
    }

    fn skips(
        &mut self,
        alloc: Global,
        seq: u16,
        mission: u32,
        fence: u32,
    ) -> Result<bool, AllocError>
        ensures yes { IfOk result (λ yes. IsTrue yes → LooksBack self.old (what.ReturnSkip seq mission fence) self.new) }
        ensures no { IfOk result (λ yes. yes ≡ false → (v : VehicleState) → LooksBack self.old (what.ReturnSkip seq mission fence) v → ⊥) }
    {
        if !self.are_in_force(mission, fence) {
            return Ok(false);
        }
        match self.item(seq) {
            Some(item) => self.shows(alloc, Look::Here(item), ReturnOut::Skip(seq)),
            None => Ok(false),
        }
    }

    /// The return shows this of its present target, of which so much is known.
    fn shows(&mut self, alloc: Global, look: Look, out: ReturnOut) -> Result<bool, AllocError>
        ensures yes { IfOk result (λ yes. IsTrue yes → Shows self.old look out self.new) }
        ensures no { IfOk result (λ yes. yes ≡ false → (v : VehicleState) → Shows self.old look out v → ⊥) }
    {
        if !self.sets_out(alloc)? {
            return Ok(false);
        }
        Ok(self.next_is(look, out))
    }

    /// Chooses a return where none was chosen, and tells whether there is one then.
    fn sets_out(&mut self, alloc: Global) -> Result<bool, AllocError>
        ensures yes { IfOk result (λ yes. IsTrue yes → SetsOut self.old self.new) }
        ensures no { IfOk result (λ yes. yes ≡ false → (way : ReturnState) → IsWay self.old self.old.way way → ⊥) }
    {
        match self.way {
            Some(_) => Ok(true),
            None => self.choose(alloc),
        }
    }

    /// Chooses a return, where none was chosen.
    fn choose(&mut self, alloc: Global) -> Result<bool, AllocError>
        ensures yes { IfOk result (λ yes. IsTrue yes → CanChoose self.old × (self.new ≡ record self.old { way = Some (chosen self.old) })) }
        ensures no { IfOk result (λ yes. yes ≡ false → CanChoose self.old → ⊥) }
    {
        match self.plans.return_from(alloc, self.position, self.index)? {
            Some(way) => {
                self.way = Some(way);
                Ok(true)
            }
            None => Ok(false),
        }
    }

    /// Whether the return shows this of its present target.
    fn next_is(&mut self, look: Look, out: ReturnOut) -> bool
        ensures { NextIs self.old look out result self.new }
    {
        match &mut self.way {
            Some(way) => way.next(look) == out,
            None => false,
        }
    }

    /// Whether the line names the plans in force.
    fn are_in_force(&self, mission: u32, fence: u32) -> bool
        ensures { IsTrue result ↔ InForce self.now mission fence }
    {
        mission == self.plans.mission().id() && fence == self.plans.fence().id()
    }

    /// Whether this is the safe point at a seq.
    fn has_safe_point(&self, seq: u16, item: &Item) -> bool
        ensures { IsTrue result ↔ (told_at self.now.safe seq ≡ Some item.now) }
    {
        match self.plans.safe().item(seq) {
            Some(told) => is_same_item(&told, item),
            None => false,
        }
    }

    /// The vehicle is where it was going along its return.
    pub(crate) fn reaches_back(&mut self, what: NavWhat) -> bool
        ensures yes { IsTrue result → ReachesBack self.old what self.new }
        ensures no { result ≡ false → (v : VehicleState) → ReachesBack self.old what v → ⊥ }
    {
        let was_shown = self.reach_target();
        match what {
            NavWhat::NextReturn => was_shown,
            NavWhat::Ignored => !was_shown,
            _ => false,
        }
    }

    /// Passes the present target where it was shown, and tells whether it was.
    fn reach_target(&mut self) -> bool
        ensures shown { result ≡ has_target self.old.way }
        ensures passed { self.new ≡ record self.old { way = option_map after_reached self.old.way } }
    {
        match &mut self.way {
            Some(way) => way.reached(),
            None => false,
        }
    }

    /// Whether this is the home.
    fn has_home(&self, home: Home) -> bool
        ensures { IsTrue result ↔ (self.now.home ≡ Some home) }
    {
        match self.plans.home() {
            Some(own) => own.x == home.x && own.y == home.y && own.z == home.z,
            None => false,
        }
    }
}
