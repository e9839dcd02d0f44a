//! The board on which the vehicle's clients ask the dataman worker, and on which it replies. Requests are served
//! in the order in which they were asked, and each client has its replies in that order. Watchers are the clients that
//! only read.
#![tactic(auto)]

mod board;
mod replies;
mod watcher;

pub use board::{Board, Full};
pub use mission_model::{Note, WatchInput, WatchOut};
pub use watcher::{NoWatch, Watcher};

#[cfg(test)]
mod tests;
