//! The store's plans and mark on a disk: two banks a plan type, the cells that name the bank in force, and the mark's
//! cell. A bank in force is never written, so that at each moment an image stands for a whole store, the old one or the
//! new.
#![tactic(auto)]

mod banks;
mod laws;
mod parts;
mod records;
pub mod swap;

pub use banks::Banks;
pub use laws::an_image_stands_for_one_store;
pub use parts::{Doubt, Parts, PlanBanks};

#[cfg(test)]
mod tests;
