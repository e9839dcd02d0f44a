//! The words of the command line, read as one command of the program: a command's name, its value, and the path of a
//! store. `clap` says what words it takes and what they give; the table of the commands says which of that is one.
#![tactic(auto)]

mod command;
mod program;
mod row;
#[cfg(test)]
mod tests;

pub use command::{Command, WordsFault, read_words};
