//! The check of a record: it follows the abstract vehicle line by line.

ghost use Rattle.std.specs.Prelude.{◌≡◌, ◌++◌, ◌∷◌, [], ◌≤◌, ◌↔◌, List, Option, IfOk, OnOk, OnErr, IsTrue, true, false};
ghost use Rattle.first_model.specs.declared.flight_line.Line.{Line};
ghost use Rattle.first_vehicle.specs.VehicleState.{VehicleState, booted};
ghost use Rattle.first_vehicle.specs.VehicleStep.{VehicleStep, Boots, Begins};
ghost use Rattle.first_vehicle.specs.VehicleRun.{VehicleRun};
ghost use Rattle.first_vehicle.specs.CheckState.{CheckState, HasRead, IsStep};

use crate::vehicle::Vehicle;
use first_model::{Home, Line, Mark, Params, PlanHead};
use std::alloc::{AllocError, Global};
use std::marker::Model;

/// Reads a record line by line, and says whether it is a run of one vehicle so far.
#[derive(Drop)]
pub struct VehicleCheck {
    alloc: Global,
    right: bool,
    vehicle: Option<Vehicle>,
}

impl Model for VehicleCheck {
    ghost use Rattle.first_vehicle.specs.CheckState.{CheckState};

    ghost Value = { CheckState };

    ghost view = { λ a. record { right = a.right; vehicle = a.vehicle } };
}

impl VehicleCheck {
    /// A check of a record of a vehicle with these parameters and this home. No line that comes today depends on
    /// them: they are what missions and returns will be judged by.
    pub fn new(
        alloc: Global,
        params: Params,
        home: Option<Home>,
    ) -> Result<VehicleCheck, AllocError>
        requires tko_land { params.tko_land ≤ 4 }
        requires rtl_type { params.rtl_type ≤ 2 }
        ensures { IfOk result (λ check. HasRead check []) }
    {
        let _ = (params, home);
        Ok(VehicleCheck {
            alloc,
            right: true,
            vehicle: None,
        })
    }

    /// Reads the next line. The answer is true exactly where the lines so far are a run of one vehicle, false from
    /// then on, and after a refusal.
    pub fn feed(&mut self, line: &Line) -> Result<bool, AllocError>
        ensures answer { IfOk result (λ yes. (lines : List Line) → HasRead self.old lines → (IsTrue yes ↔ VehicleRun (lines ++ line.now ∷ []))) }
        ensures reads { OnOk result ((lines : List Line) → HasRead self.old lines → HasRead self.new (lines ++ line.now ∷ [])) }
        ensures right { IfOk result (λ yes. yes ≡ self.new.right) }
        ensures refused { OnErr result (self.new.right ≡ false) }
        ensures ended { self.old.right ≡ false → (result ≡ Ok false) × (self.new ≡ self.old) }
    {
        if !self.right {
            return Ok(false);
        }
        self.right = false;
        self.right = self.follow(line)?;
        Ok(self.right)
    }

    /// Follows a line, where all was right so far.
    fn follow(&mut self, line: &Line) -> Result<bool, AllocError>
        ensures yes { IfOk result (λ yes. IsTrue yes → VehicleStep self.old.vehicle line.now self.new.vehicle) }
        ensures no { IfOk result (λ yes. yes ≡ false → (v : Option VehicleState) → VehicleStep self.old.vehicle line.now v → ⊥) }
        ensures right { self.new.right ≡ self.old.right }
    {
        match &mut self.vehicle {
            Some(vehicle) => vehicle.follow(self.alloc, line),
            None => self.begin(line),
        }
    }

    /// Follows a line before the first boot is up.
    fn begin(&mut self, line: &Line) -> Result<bool, AllocError>
        requires { self.old.vehicle ≡ None }
        ensures yes { IfOk result (λ yes. IsTrue yes → Begins line.now self.new.vehicle) }
        ensures no { IfOk result (λ yes. yes ≡ false → (v : Option VehicleState) → Begins line.now v → ⊥) }
        ensures right { self.new.right ≡ self.old.right }
    {
        match *line {
            Line::Boot {
                number,
                heads,
                mark,
            } => {
                if !is_first_boot(number, heads, mark) {
                    return Ok(false);
                }
                self.vehicle = Some(Vehicle::booted(self.alloc, heads, mark)?);
                Ok(true)
            }
            Line::BootCut { .. }
            | Line::Took { .. }
            | Line::Served { .. }
            | Line::Sent { .. }
            | Line::Heard { .. }
            | Line::Nav { .. } => Ok(false),
            _ => Ok(true),
        }
    }
}

/// Whether a record may begin with this boot: its mark is on the mission, at most at its end.
fn is_first_boot(number: u16, heads: [PlanHead; 3], mark: Mark) -> bool
    ensures yes { IsTrue result → (v : VehicleState) → v ≡ booted heads mark → Boots number heads mark v }
    ensures no { result ≡ false → (v : VehicleState) → Boots number heads mark v → ⊥ }
{
    number == 1 && mark.id == heads[0].id && mark.index <= heads[0].count
}
