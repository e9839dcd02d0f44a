//! What a store of plans replies to a request and what is left of it then, told for every store by `specs/Serve.antt`,
//! and a store in memory that does so: of each kind the plan in force and what was written for the next one, which a
//! commit puts in force, whole.
#![tactic(auto)]

mod kind_store;
mod laws;
mod map_store;
mod places;

pub use laws::plans_change_whole;
pub use map_store::MapStore;
pub use places::Written;
