//! The survey of a script's plans: what is told of the straight legs of each mission over the script's first fence.
#![tactic(auto)]

mod judge;
mod legs;
mod survey;
mod text;

pub use judge::judgement;
pub use survey::survey_text;

#[cfg(test)]
mod tests;
