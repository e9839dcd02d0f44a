//! Plan texts as ground stations write them (`QGC WPL 110`), read as mission items and written.
//! A text is one relation between its lines and the items: reading finds it, writing makes it.
#![tactic(auto)]

mod fault;
mod fields;
mod home;
mod lines;
mod reading;
mod rows;
mod writing;

pub use fault::WplFault;
pub use home::drop_home;
pub use reading::{read_wpl, read_wpl_lines};
pub use writing::write_wpl;

#[cfg(test)]
mod tests;
