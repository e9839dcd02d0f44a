//! Why a token does not read as a scaled number.

use thiserror::Error;

/// The first reason why a token does not read as a scaled number.
#[derive(Clone, Copy, Debug, PartialEq, Eq, Error)]
pub enum NumFault {
    /// The token has no byte.
    #[error("no number")]
    Empty,
    /// The token has more than 64 bytes.
    #[error("number too long")]
    TooLong,
    /// Up to this byte, counted from 0, a token could still have come, and with it no more; if the
    /// bytes end there a further one is missing.
    #[error("bad digit at byte {0}")]
    BadDigit(u8),
    /// The scaled number is outside `i32`.
    #[error("number out of range")]
    OutOfRange,
}
