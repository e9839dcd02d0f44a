//! Reads a script: parameters, the home and plans, one boot, and the inputs and turns of its actors. A line is judged
//! by what the lines before it state and by its own words; a plan's text is judged at the line that begins it.
#![tactic(auto)]

mod actors;
pub mod bounds;
mod draft;
mod entries;
mod fault;
mod flight;
mod form;
mod measures;
mod numbers;
mod place;
mod plans;
mod read;
mod schedule;
mod select;
#[cfg(test)]
mod tests;
mod words;

pub use fault::ScriptFault;
pub use first_model::{
    BootScript, Boots, CutSpec, InputLine, Inputs, Items, Name, NamedPlan, Plans, Script, TearKind,
    Turns,
};
pub use read::read_script;
