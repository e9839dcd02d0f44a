//! The actors of a vehicle as steps: worker, links and Navigator. Each is one function of the part that all share
//! and of the actor's own local; `Core` holds them together for one boot.
#![tactic(auto)]

mod boot_core;
mod boot_inputs;
mod link;
mod nav;
mod parts;
mod schedule;
mod shared;
mod worker;

/// What a step gives: a line of the record, or nothing where the actor was not ready.
#[derive(Clone, Copy, Debug, PartialEq, Eq)]
pub enum StepOut<L> {
    Made(L),
    Idle,
}

pub use boot_core::Core;
pub use first_model::Actor;
pub use parts::parts_fit;
