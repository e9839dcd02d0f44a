//! Where a line or a word lies in a text.

/// The bytes of a text from place `from`, and before place `to`.
#[derive(Clone, Copy, Debug, PartialEq, Eq)]
pub struct Span {
    pub from: u32,
    pub to: u32,
}
