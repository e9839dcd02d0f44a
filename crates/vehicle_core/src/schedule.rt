//! The rest of an actor's schedule: the inputs that are left, and how far the current one is.

ghost use Rattle.std.specs.Prelude.{◌≡◌, [], ◌∷◌, ◌↔◌, IfNone, IfSome, IsTrue, OnOk, drop};
ghost use Rattle.vehicle_core.specs.ScheduleState.{fresh, begun_on, advanced, requesting};
ghost use Rattle.vehicle_core.specs.Seats.{pushed};

use mission_model::InputLine;
use std::alloc::{AllocError, Global};
use std::collections::VecDeque;
use std::marker::Model;

/// An actor's inputs, of which the first ones are done.
#[derive(Drop)]
pub struct Schedule {
    inputs: VecDeque<InputLine>,
    begun: bool,
    requested: u16,
}

impl Model for Schedule {
    ghost use Rattle.vehicle_core.specs.ScheduleState.{ScheduleState};

    ghost Value = { ScheduleState };

    ghost view = { λ a. record { inputs = a.inputs.items; begun = a.begun; requested = a.requested } };
}

impl Schedule {
    /// A schedule without an input.
    pub fn empty(alloc: Global) -> Schedule
        ensures { result ≡ fresh [] }
    {
        Schedule {
            inputs: VecDeque::new(alloc),
            begun: false,
            requested: 0,
        }
    }

    /// Puts an input behind the others.
    pub fn push(&mut self, input: InputLine) -> Result<(), AllocError>
        ensures { OnOk result (self.new ≡ pushed self.old input) }
    {
        self.inputs.push_back(input)?;
        Ok(())
    }

    /// The current input; none is left where there is none.
    pub fn current(&self) -> Option<&InputLine>
        ensures some { IfSome result (λ input. self.now.inputs ≡ input.now ∷ drop 1 self.now.inputs) }
        ensures none { IfNone result (self.now.inputs ≡ []) }
    {
        self.inputs.front()
    }

    /// Whether the current input has had its first step.
    pub fn has_begun(&self) -> bool
        ensures { result ≡ self.now.begun }
    {
        self.begun
    }

    /// The seq that was requested of the current upload last.
    pub fn requested(&self) -> u16
        ensures { result ≡ self.now.requested }
    {
        self.requested
    }

    /// Whether no input is left.
    pub fn is_finished(&self) -> bool
        ensures { IsTrue result ↔ (self.now.inputs ≡ []) }
    {
        self.inputs.is_empty()
    }

    /// The current input has had its first step.
    pub fn begin(&mut self)
        ensures { self.new ≡ begun_on self.old }
    {
        self.begun = true;
    }

    /// The current upload goes on with this seq.
    pub fn request(&mut self, seq: u16)
        ensures { self.new ≡ requesting (begun_on self.old) seq }
    {
        self.begun = true;
        self.requested = seq;
    }

    /// The current input is done.
    pub fn advance(&mut self)
        ensures { self.new ≡ advanced self.old }
    {
        self.inputs.pop_front();
        self.begun = false;
        self.requested = 0;
    }
}
