//! The inputs that the lines have stated so far, counted.

ghost use Rattle.std.specs.Prelude.{◌≡◌, ◌∷◌, ◌++◌, [], length, count_by, OnOk};
ghost use Rattle.first_script.specs.Uploads.{is_upload};

use first_model::{Actor, InputLine, Inputs};
use std::alloc::{AllocError, Global};
use std::marker::Model;

pub(crate) fn is_upload(input: &(Actor, InputLine)) -> bool
    ensures { result ≡ is_upload input.now }
{
    matches!(input.1, InputLine::Upload { .. })
}

/// How many of the inputs and this one are whole uploads, where so many of the inputs are.
fn uploads_with(inputs: &[(Actor, InputLine)], uploads: usize, input: &(Actor, InputLine)) -> usize
    requires { uploads ≡ count_by is_upload inputs.now }
    ensures { result ≡ count_by is_upload (inputs.now ++ input.now ∷ []) }
{
    if is_upload(input) {
        uploads + 1
    } else {
        uploads
    }
}

/// Inputs, and how many of them are whole uploads.
#[derive(Drop)]
pub struct Schedule {
    inputs: Vec<(Actor, InputLine)>,
    uploads: usize,
}

impl Model for Schedule {
    ghost use Rattle.std.specs.Prelude.{◌≡◌, List, count_by};
    ghost use Rattle.first_model.specs.declared.flight_line.Actor.{Actor};
    ghost use Rattle.first_model.specs.declared.schedule.InputLine.{InputLine};
    ghost use Rattle.first_script.specs.Uploads.{is_upload};

    ghost Value = { List (Actor × InputLine) };

    ghost view = { λ s. s.inputs.items };

    ghost invariant = { λ s. s.uploads ≡ count_by is_upload s.inputs.items };
}

impl Schedule {
    pub fn new(alloc: Global) -> Schedule
        ensures { result ≡ [] }
    {
        Schedule {
            inputs: Vec::new(alloc),
            uploads: 0,
        }
    }

    pub fn as_slice(&self) -> &[(Actor, InputLine)]
        ensures { result.now ≡ self.now }
    {
        &self.inputs
    }

    /// How many inputs are whole uploads.
    pub fn uploads(&self) -> usize
        ensures { result ≡ count_by is_upload self.now }
    {
        self.uploads
    }

    pub fn push(&mut self, input: (Actor, InputLine)) -> Result<(), AllocError>
        ensures { OnOk result (self.new ≡ self.old ++ input ∷ []) }
    {
        let uploads = uploads_with(&self.inputs, self.uploads, &input);
        self.inputs.push(input)?;
        self.uploads = uploads;
        Ok(())
    }

    pub fn into_inputs(self) -> Inputs
        ensures { result ≡ self }
    {
        Inputs::from_vec(self.inputs)
    }
}
