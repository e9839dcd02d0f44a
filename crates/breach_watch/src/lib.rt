//! Positions watched against the geofence: a watcher that reads the published fence once, keeps it whole with its id, and
//! says of each position whether that fence allows it.
#![tactic(auto)]

pub mod note;
mod reading;
mod watch;

pub use watch::BreachWatch;
