//! How a store begins: an empty one is made, and at each boot what a store holds is found by one pass over its disk.
//! Over a store of layout 2 a boot writes nothing; one of layout 1 it migrates, so that each moment leaves a whole store of
//! the one layout or the other. So it may be cut at any call and begun again.
#![tactic(auto)]

mod cells;
mod fault;
mod finding;
mod init;
mod jumps;
mod migration;
mod pass;
mod plans;

pub use fault::BootFault;
pub use init::init_store;
pub use migration::migrate;
pub use pass::{boot, no_fault_exactly};

#[cfg(test)]
mod tests;
