//! The legs of a mission, one step at a time: what the item at the index asks of the vehicle, and where the mission
//! goes from there. The machine holds no items; each step is shown the one at the index.
#![tactic(auto)]

mod machine;

pub use machine::{LegMachine, LegOut};
