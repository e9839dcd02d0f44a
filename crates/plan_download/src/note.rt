//! The codes of a download's notes, each with what its first and its second number are. The places are 0.

/// The download begins: the plan's id, and its number of items.
pub const BEGINS: u16 = 100;

/// An item was given, and the next one is read: the plan's id, and the item's seq.
pub const GIVES: u16 = 101;

/// The plan was given whole: its id, and its number of items.
pub const WHOLE: u16 = 102;

/// Another plan is published: the id of the one that was read, and the id of the other.
pub const REPLACED: u16 = 103;

/// The device failed in the read: the plan's id, and the item's seq.
pub const FAILED: u16 = 104;
