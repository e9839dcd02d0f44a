//! Whether a mission is feasible by ten rules, which are this project's own: its items are shown one after another, and
//! each rule keeps what it needs of them. The answer is the first rule that is broken, and the first item that breaks it.
#![tactic(auto)]

mod faults;
mod item_rules;
mod judge;
mod jumps;
mod land_starts;
mod loiters;
mod seen;

pub use judge::{Judge, Verdict};
