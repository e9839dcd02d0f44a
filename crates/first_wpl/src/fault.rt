//! Why a text is no plan text.

ghost use Rattle.std.specs.Prelude.{◌≡◌, alloc_error};
ghost use Rattle.first_wpl.specs.declared.fault.WplFault.TheVariants.{Memory};
ghost use Rattle.first_wpl.specs.Told.{told_of_text};

use first_num::NumFault;
use first_text::TextFault;
use std::alloc::{AllocError, AllocFailed};
use thiserror::Error;

/// Why a text is no plan text, and where: `(2, 1)` is the first word of the row behind the header.
#[derive(Clone, Copy, Debug, PartialEq, Eq, Error)]
pub enum WplFault {
    /// The text can not be split into lines.
    #[error("plan text: {0}")]
    Text(TextFault),
    /// The first line is not `QGC WPL 110`.
    #[error("no plan header")]
    Header,
    /// The row in this line is one too many.
    #[error("line {0}: too many rows")]
    TooMany(u32),
    /// The row in this line has not twelve fields.
    #[error("line {0}: not twelve fields")]
    FieldCount(u32),
    /// In this line this field is no whole number of one to ten digits, or is too large.
    #[error("line {0}: field {1} is no such whole number")]
    BadWhole(u32, u8),
    /// In this line the index is not the row's place, counted from 0.
    #[error("line {0}: not the row's index")]
    BadIndex(u32),
    /// In this line this field can not be read as a number.
    #[error("line {0}: field {1}: {2}")]
    Num(u32, u8, NumFault),
    /// Memory ran out.
    #[error("out of memory")]
    Memory(AllocError),
}

impl From<TextFault> for WplFault {
    ghost from_gives = { λ source fault. fault ≡ told_of_text source };

    fn from(source: TextFault) -> WplFault {
        match source {
            TextFault::Memory(source) => WplFault::Memory(source),
            TextFault::NotAscii(place) => WplFault::Text(TextFault::NotAscii(place)),
            TextFault::LongLine(number) => WplFault::Text(TextFault::LongLine(number)),
        }
    }
}

impl From<AllocError> for WplFault {
    ghost from_gives = { λ source fault. fault ≡ Memory source };

    fn from(source: AllocError) -> WplFault {
        WplFault::Memory(source)
    }
}

impl<T: Drop> From<AllocFailed<T>> for WplFault {
    ghost from_gives = { λ _ fault. fault ≡ Memory alloc_error };

    fn from(_source: AllocFailed<T>) -> WplFault {
        WplFault::Memory(AllocError)
    }
}
