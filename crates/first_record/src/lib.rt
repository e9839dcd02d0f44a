//! The text of the flight record: one line of words for each line of the record.
#![tactic(auto)]

mod messages;
mod plans;
mod record;
mod requests;
mod text;
mod vehicle;
mod watch;

pub use messages::{ALL_PLANS, FENCE, MISSION, SAFE};
pub use record::{first_record, is_printable, line_text};
