//! The watcher that the program runs: a download and a breach watch, each with the inputs of its own code.
#![tactic(auto)]

pub mod code;
mod watch;

pub use watch::FlightWatch;
