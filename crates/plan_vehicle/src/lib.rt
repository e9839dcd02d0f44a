//! The abstract vehicle that a record must be explained by, and the check that follows it line by line. The vehicle has
//! one plan of each type, a mark and a place in its mission, and knows nothing of how they are kept.
#![tactic(auto)]

mod check;
mod drafts;
mod found;
mod marks;
mod plan;
mod plans;
mod served;
mod vehicle;

pub use check::VehicleCheck;
pub use mission_model::Line;

#[cfg(test)]
mod tests;
