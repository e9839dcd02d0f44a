//! What the lines of a script have stated so far.

ghost use Rattle.std.specs.Prelude.{◌≡◌};

use crate::schedule::Schedule;
use first_model::{Home, Params, Plans, Turns};
use std::marker::Model;

/// One flag for each plan.
#[derive(Drop)]
pub struct Flags {
    list: Vec<bool>,
}

impl Model for Flags {
    ghost use Rattle.std.specs.Prelude.{List, Bool};

    ghost Value = { List Bool };

    ghost view = { λ a. a.list.items };
}

impl Flags {
    pub fn from_vec(list: Vec<bool>) -> Flags
        ensures { result ≡ list.items }
    {
        Flags { list }
    }

    pub fn as_slice(&self) -> &[bool]
        ensures { result.now ≡ self.now }
    {
        &self.list
    }

    pub fn into_vec(self) -> Vec<bool>
        ensures { result.items ≡ self }
    {
        self.list
    }
}

/// A script in the making.
#[derive(Drop)]
pub struct Draft {
    pub params: Params,
    pub home: Option<Home>,
    pub plans: Plans,
    /// Which of the plans are plain: a mission of waypoints alone that a vehicle accepts.
    pub plain: Flags,
    /// Whether a parameter was set.
    pub has_param: bool,
    /// Whether the boot has begun.
    pub booted: bool,
    pub inputs: Schedule,
    pub turns: Turns,
}
