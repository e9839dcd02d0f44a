//! Why a token does not read as a number.

use thiserror::Error;

/// The first reason why a token does not read as a scaled number or as a whole one.
#[derive(Clone, Copy, Debug, PartialEq, Eq, Error)]
pub enum NumFault {
    /// The token has no byte.
    #[error("no number")]
    Empty,
    /// The token has more than 64 bytes, or as a whole number more than 10.
    #[error("number too long")]
    TooLong,
    /// Up to this byte, counted from 0, a token could still have come, and with it no more; if the
    /// bytes end there a further one is missing.
    #[error("bad digit at byte {0}")]
    BadDigit(u8),
    /// The scaled number is outside `i32`, or the whole one outside its range.
    #[error("number out of range")]
    OutOfRange,
}
