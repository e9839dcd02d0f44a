//! Lines and words of a text, told by spans of its bytes.
//! The spans are exactly the text's lines and a line's words: nothing is lost, nothing is added.
#![tactic(auto)]

mod cursor;
mod fault;
mod joining;
mod lines;
mod span;
mod words;

pub use cursor::{WordCursor, is_blank};
pub use fault::TextFault;
pub use joining::join_text;
pub use lines::{MAX_LINE_BYTES, MAX_TEXT_BYTES, split_lines};
pub use span::Span;
pub use words::{first_words, words_of};

#[cfg(test)]
mod tests;
