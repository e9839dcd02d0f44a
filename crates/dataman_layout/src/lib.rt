//! The records of the store as bytes, and the places where they stand. A record and its bytes correspond one to one:
//! what is no record's bytes is read as none.
#![tactic(auto)]

mod compat;
mod fields;
mod item;
mod layout;
mod mark;
pub mod places;
mod state;

pub use compat::{decode_compat, encode_compat, version_in};
pub use item::{Record, decode_item, encode_item};
pub use layout::{Layout, layout_of, limit_in, version_of};
pub use mark::{decode_mark, decode_mark_one, encode_mark};
pub use state::{decode_state, decode_state_one, encode_state};

#[cfg(test)]
mod tests;
