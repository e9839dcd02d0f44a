//! Returns: where a return leads is chosen once, by rules and a measure that are this project's own, and is then gone
//! through target by target. A return is kept as a short rule for its targets, never as a list.
#![tactic(auto)]

mod choice;
mod leg;
mod measure;
mod plan;
mod route;

pub use choice::choose;
pub use plan::{ReturnOut, ReturnPlan};
