//! The codes of a breach watch's notes, each with what its first and its second number are. The place is the position that is
//! watched, latitude and longitude in 1e-7 degree.

/// The fence allows the position: the fence's id, and 0.
pub const ALLOWED: u16 = 200;

/// The fence does not allow the position: the fence's id, and 0.
pub const BREACH: u16 = 201;

/// A vertex is read: the fence's id, and the vertex's seq.
pub const READS: u16 = 202;

/// Another fence is published: the id of the one that was read, and the id of the other.
pub const REPLACED: u16 = 203;

/// The device failed in the read, or what was read is no vertex of a valid fence: the fence's id, and the vertex's seq.
pub const FAILED: u16 = 204;
