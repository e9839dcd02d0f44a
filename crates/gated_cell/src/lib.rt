//! A payload on a disk that is replaced whole or not at all: it has two slots, each behind a gate of one byte.
//! A change goes behind the closed gate of the spare slot, and the one byte of that gate puts it in force.
#![tactic(auto)]

mod cell;
mod fault;
mod place;
mod reading;
mod slot;

pub use cell::GatedCell;
pub use fault::CellFault;
pub use place::CellPlace;

#[cfg(test)]
mod tests;
