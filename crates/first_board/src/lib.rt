//! The board on which the vehicle's clients ask the dataman worker, and on which it replies. Requests are served
//! in the order in which they were asked, and each client has its replies in that order.
#![tactic(auto)]

mod board;
mod replies;

pub use board::{Board, Full, asked_of};
