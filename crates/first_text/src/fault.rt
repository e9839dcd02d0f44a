//! Why a text is refused.

ghost use Rattle.std.specs.Prelude.{◌≡◌, alloc_error};
ghost use Rattle.first_text.specs.declared.fault.TextFault.TheVariants.{Memory};

use std::alloc::{AllocError, AllocFailed};
use thiserror::Error;

/// The first fault of a text.
#[derive(Clone, Copy, Debug, PartialEq, Eq, Error)]
pub enum TextFault {
    /// The byte at this place, counted from 0, is above 127.
    #[error("byte {0} is no ASCII")]
    NotAscii(u32),
    /// The line of this number, counted from 1, has more than 512 bytes without its line end.
    #[error("line {0} is too long")]
    LongLine(u32),
    /// Memory ran out.
    #[error("out of memory")]
    Memory(AllocError),
}

impl From<AllocError> for TextFault {
    ghost from_gives = { λ source fault. fault ≡ Memory source };

    fn from(source: AllocError) -> TextFault {
        TextFault::Memory(source)
    }
}

impl<T: Drop> From<AllocFailed<T>> for TextFault {
    ghost from_gives = { λ _ fault. fault ≡ Memory alloc_error };

    fn from(_source: AllocFailed<T>) -> TextFault {
        TextFault::Memory(AllocError)
    }
}
