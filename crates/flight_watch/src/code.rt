//! The codes of the inputs, as they stand in a script behind `watch W do`.

/// A plan is downloaded: the number of its type, and 0.
pub const DOWNLOAD: u16 = 1;

/// A position is watched: its latitude and its longitude, in 1e-7 degree.
pub const BREACH: u16 = 2;
