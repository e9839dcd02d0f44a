//! The rest of an actor's schedule: the inputs that are left, and whether the current one has begun.

ghost use Rattle.std.specs.Prelude.{◌≡◌, [], ◌∷◌, IfSome, IfNone, IsTrue, ◌↔◌, drop};
ghost use Rattle.first_core.specs.ScheduleState.{fresh, begun_on, advanced};

use first_model::InputLine;
use std::collections::VecDeque;
use std::marker::Model;

/// An actor's inputs, of which the first ones are done.
#[derive(Drop)]
pub struct Schedule {
    inputs: VecDeque<InputLine>,
    begun: bool,
}

impl Model for Schedule {
    ghost use Rattle.first_core.specs.ScheduleState.{ScheduleState};

    ghost Value = { ScheduleState };

    ghost view = { λ a. record { inputs = a.inputs.items; begun = a.begun } };
}

impl Schedule {
    /// A schedule of which nothing is done.
    pub fn new(inputs: VecDeque<InputLine>) -> Schedule
        ensures { result ≡ fresh inputs.items }
    {
        Schedule {
            inputs,
            begun: false,
        }
    }

    /// The current input; none is left where there is none.
    pub fn current(&self) -> Option<&InputLine>
        ensures some { IfSome result (λ input. self.now.inputs ≡ input.now ∷ drop 1 self.now.inputs) }
        ensures none { IfNone result (self.now.inputs ≡ []) }
    {
        self.inputs.front()
    }

    /// Whether the current input has had its first step.
    pub fn has_begun(&self) -> bool
        ensures { result ≡ self.now.begun }
    {
        self.begun
    }

    /// Whether no input is left.
    pub fn is_finished(&self) -> bool
        ensures { IsTrue result ↔ (self.now.inputs ≡ []) }
    {
        self.inputs.is_empty()
    }

    /// The current input has had its first step.
    pub fn begin(&mut self)
        ensures { self.new ≡ begun_on self.old }
    {
        self.begun = true;
    }

    /// The current input is done.
    pub fn advance(&mut self)
        ensures { self.new ≡ advanced self.old }
    {
        self.inputs.pop_front();
        self.begun = false;
    }
}
