//! Reads a script: parameters, the home and plans, and boots with the inputs and turns of their actors. The forms of a
//! line stand in one table; a line is judged by its row and by what the lines before it state.
#![tactic(auto)]

mod actors;
mod choices;
mod draft;
mod fault;
mod forms;
mod lines;
mod numbers;
mod plans;
mod read;
mod rows;
mod table;
#[cfg(test)]
mod tests;
mod value;
mod words;

pub use fault::ScriptFault;
pub use mission_model::{
    BootScript, Boots, CutSpec, InputLine, Inputs, Items, Name, NamedPlan, Plans, Script, TearKind,
    Turns,
};
pub use read::read_script;
