//! The commands of the program: `replay` reads a script, flies it over plans in memory in its stated order of actors,
//! and gives the record; `check` reads a plan text, and gives its judgement and its items' own text. Each outcome says
//! what was read, what was flown and what was given.
#![tactic(auto)]

mod checking;
mod command;
mod fly;
mod judgement;
mod law;
mod print;
mod run;
mod status;
#[cfg(test)]
mod tests;
mod words;

pub use checking::check;
pub use command::{flight, replay};
pub use first_script::ScriptFault;
pub use first_wpl::WplFault;
pub use law::{actors_run, one_vehicle};
pub use status::{Outcome, Status};
