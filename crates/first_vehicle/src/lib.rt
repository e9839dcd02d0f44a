//! The abstract vehicle that a record must be explained by, and the check that follows it line by line.
#![tactic(auto)]

mod check;
mod drafts;
mod plan;
mod served;
mod vehicle;

pub use check::VehicleCheck;
pub use first_model::Line;
