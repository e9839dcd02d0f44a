//! The one transfer that all links share: while a link uploads or clears plans it holds the only grant, and each plan
//! that it brings gets an id above all ids before it.
#![tactic(auto)]

mod transfer;

pub use transfer::{Busy, Grant, Transfer, one_transfer_at_a_time};

#[cfg(test)]
mod tests;
