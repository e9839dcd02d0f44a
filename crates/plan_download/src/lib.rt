//! A plan downloaded to a link, after the MAVLink mission protocol: a watcher that reads one committed plan item by item,
//! from the first one to the last, and ends where another plan is published.
#![tactic(auto)]

mod download;
pub mod note;

pub use download::Download;
