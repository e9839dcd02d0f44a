//! Events: an event takes an index that a link asked for, acts, and passes the place where the vehicle then is.

ghost use Rattle.std.specs.Prelude.{◌≡◌, IfOk, IsTrue, ◌↔◌, true, false};
ghost use Rattle.plan_vehicle.specs.VehicleState.{VehicleState};
ghost use Rattle.plan_vehicle.specs.MissionEvents.{index_taken};
ghost use Rattle.plan_vehicle.specs.VehicleStep.{Looks, Reaches, rewound, in_mode, Acts, passing, Happens};

use crate::vehicle::Vehicle;
use mission_model::{Counts, Mark, Mode, NavWhat, VehicleLine};
use std::alloc::{AllocError, Global};

impl Vehicle {
    /// An event happens, and shows this.
    pub(crate) fn happens(
        &mut self,
        alloc: Global,
        event: VehicleLine,
        what: NavWhat,
    ) -> Result<bool, AllocError>
        ensures yes { IfOk result (λ yes. IsTrue yes → Happens self.old event what self.new) }
        ensures no { IfOk result (λ yes. yes ≡ false → (v : VehicleState) → Happens self.old event what v → ⊥) }
    {
        if !self.is_up {
            return Ok(false);
        }
        self.take_index();
        if !self.acts(alloc, event, what)? {
            return Ok(false);
        }
        self.pass()?;
        Ok(true)
    }

    /// Takes the index that a link asked for.
    fn take_index(&mut self)
        ensures { self.new ≡ index_taken self.old self.old.wanted }
    {
        let Some(index) = self.wanted else {
            return;
        };
        if index == 0 {
            self.counts = Counts::new();
        }
        self.index = index;
        self.at_leg = false;
        self.wanted = None;
    }

    /// Passes the place where the vehicle is.
    fn pass(&mut self) -> Result<(), AllocError>
        ensures { IfOk result (λ _. self.new ≡ passing self.old) }
    {
        let mark = Mark {
            id: self.plans.mission().id(),
            index: self.index,
            counts: self.counts,
        };
        self.passed.push(mark)
    }

    fn acts(&mut self, alloc: Global, event: VehicleLine, what: NavWhat) -> Result<bool, AllocError>
        ensures yes { IfOk result (λ yes. IsTrue yes → Acts self.old event what self.new) }
        ensures no { IfOk result (λ yes. yes ≡ false → (v : VehicleState) → Acts self.old event what v → ⊥) }
    {
        match (event, what) {
            (VehicleLine::Tick, _) => self.looks(alloc, what),
            (VehicleLine::Go, _) => self.looks(alloc, what),
            (VehicleLine::Reached, _) => Ok(self.reaches(what)),
            (VehicleLine::Mode(mode), NavWhat::Taken) => {
                self.switch(mode);
                Ok(true)
            }
            (VehicleLine::Position { x, y }, NavWhat::Taken) => {
                self.position = Some((x, y));
                Ok(true)
            }
            _ => Ok(false),
        }
    }

    fn looks(&mut self, alloc: Global, what: NavWhat) -> Result<bool, AllocError>
        ensures yes { IfOk result (λ yes. IsTrue yes → Looks self.old.mode self.old what self.new) }
        ensures no { IfOk result (λ yes. yes ≡ false → (v : VehicleState) → Looks self.old.mode self.old what v → ⊥) }
    {
        match self.mode {
            Mode::Hold => Ok(matches!(what, NavWhat::Idle)),
            Mode::Mission => self.looks_on(alloc, what),
            Mode::Return => self.looks_back(alloc, what),
        }
    }

    fn reaches(&mut self, what: NavWhat) -> bool
        ensures yes { IsTrue result → Reaches self.old.mode self.old what self.new }
        ensures no { result ≡ false → (v : VehicleState) → Reaches self.old.mode self.old what v → ⊥ }
    {
        match self.mode {
            Mode::Hold => self.reaches_on(what),
            Mode::Mission => self.reaches_on(what),
            Mode::Return => self.reaches_back(what),
        }
    }

    /// Takes a mode, and drops the return that was chosen.
    fn switch(&mut self, mode: Mode)
        ensures { self.new ≡ in_mode self.old mode }
    {
        if mode == Mode::Mission {
            self.rewind();
        }
        self.mode = mode;
        self.way = None;
    }

    /// Begins the mission again where it is at its end.
    fn rewind(&mut self)
        ensures { self.new ≡ rewound self.old }
    {
        if usize::from(self.index) == self.plans.mission().count() {
            self.index = 0;
            self.counts = Counts::new();
            self.at_leg = false;
        }
    }
}
