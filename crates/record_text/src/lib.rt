//! The text of the flight record, both ways: one line of words for each line of the record, and the lines that a text
//! is of. A text is read leniently, and what was read is printed and compared, so that just the printed form is read.
#![tactic(auto)]

mod cursor;
mod fault;
mod line_cursor;
mod mark_cursor;
mod message_cursor;
mod messages;
mod plan_cursor;
mod plans;
mod reading;
mod record;
mod request_cursor;
mod requests;
mod text;
mod typed;
mod vehicle;
mod vehicle_cursor;
mod watch;

pub use fault::RecordFault;
pub use messages::{ALL_PLANS, FENCE, MISSION, SAFE};
pub use reading::{read_record, texts_differ};
pub use record::{append_line, is_printable, line_text, record_text};
pub use typed::line_is_typed;

#[cfg(test)]
mod tests;
