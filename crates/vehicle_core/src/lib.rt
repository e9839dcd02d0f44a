//! The actors of a vehicle as steps: worker, links, Navigator and watchers over the part that they share. `Core` holds them
//! together for one boot.
#![tactic(auto)]

mod boot_core;
mod client;
mod crew;
mod laws;
mod link;
mod local;
mod machine;
mod nav;
mod schedule;
mod seats;
mod shared;
#[cfg(test)]
mod tests;
mod watch;
mod watch_turn;
mod worker;

pub use boot_core::Core;
pub use laws::{
    actors_keep_their_places, histories_are_runs, reads_name_published_items, runs_compose,
    the_power_ends_a_run, turns_of_the_core_are_a_run,
};
pub use link::Link;
pub use local::{Local, Role};
pub use machine::Flight;
pub use mission_model::Actor;
pub use nav::NavActor;
pub use schedule::Schedule;
pub use shared::Shared;
pub use turn_cell::{Machine, StepOut};
pub use watch::WatchActor;
