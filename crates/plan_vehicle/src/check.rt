//! The check of a record: it follows the abstract vehicle line by line.

ghost use Rattle.std.specs.Prelude.{◌≡◌, [], ◌≤◌, IfOk, OnErr, IsTrue, true, false};
ghost use Rattle.mission_model.specs.declared.limits.TheConstants.{MAX_TKO_LAND, MAX_RTL_TYPE};
ghost use Rattle.plan_vehicle.specs.VehicleState.{VehicleState};
ghost use Rattle.plan_vehicle.specs.CheckState.{CheckState, HasRead, Reads};

use crate::vehicle::Vehicle;
use mission_model::{Home, Line, Params};
use std::alloc::{AllocError, Global};
use std::marker::Model;

/// Reads a record line by line, and says whether it is a run of one vehicle so far. Most lines take constant time: a mission
/// is judged once with a fence, a return is chosen once, and memory is taken as plans, drafts and passed places come.
#[derive(Drop)]
pub struct VehicleCheck {
    alloc: Global,
    right: bool,
    vehicle: Vehicle,
}

impl Model for VehicleCheck {
    ghost use Rattle.plan_vehicle.specs.CheckState.{CheckState};

    ghost Value = { CheckState };

    ghost view = { λ a. record { right = a.right; vehicle = a.vehicle } };
}

impl VehicleCheck {
    /// A check of a record of a vehicle with these parameters and this home.
    pub fn new(
        alloc: Global,
        params: Params,
        home: Option<Home>,
    ) -> Result<VehicleCheck, AllocError>
        requires tko_land { params.tko_land ≤ MAX_TKO_LAND }
        requires rtl_type { params.rtl_type ≤ MAX_RTL_TYPE }
        ensures { IfOk result (λ check. HasRead params home check []) }
    {
        Ok(VehicleCheck {
            alloc,
            right: true,
            vehicle: Vehicle::new(alloc, params, home),
        })
    }

    /// Reads the next line. The answer is true exactly where the lines so far are a run of one vehicle, false from
    /// then on, and after a refusal.
    pub fn feed(&mut self, line: &Line) -> Result<bool, AllocError>
        ensures reads { IfOk result (λ yes. Reads self.old line.now yes self.new) }
        ensures right { IfOk result (λ yes. yes ≡ self.new.right) }
        ensures refused { OnErr result (self.new.right ≡ false) }
        ensures ended { self.old.right ≡ false → (result ≡ Ok false) × (self.new ≡ self.old) }
    {
        if !self.right {
            return Ok(false);
        }
        self.right = false;
        self.right = self.vehicle.follow(self.alloc, line)?;
        Ok(self.right)
    }
}
