//! A ticket lock with its history. Threads take turns at one shared part, each with a local of its own; the steps that made a line form
//! one legal history, and what a thread has seen of it is its beginning.
#![tactic(auto)]

pub mod cell;
pub mod closing;
pub mod machine;
pub mod pass;
pub mod rule;
pub mod seat_view;
#[cfg(test)]
mod tests;
pub mod turn;

pub use cell::TurnCell;
pub use machine::{Machine, StepOut};
pub use pass::Pass;
pub use turn::TurnOut;
