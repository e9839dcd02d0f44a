//! A straight leg against a fence: whether its ends are allowed, and which edge it meets first, by the signs of cross
//! products. That each place between two allowed ends is allowed is not said.
#![tactic(auto)]

mod leg;
mod segment;

pub use leg::{LegSight, leg_of};
