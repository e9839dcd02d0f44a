//! Why bytes are no record's text.

ghost use Rattle.std.specs.Prelude.{◌≡◌, alloc_error};
ghost use Rattle.record_text.specs.declared.fault.RecordFault.TheVariants.{Memory};

use std::alloc::{AllocError, AllocFailed};
use thiserror::Error;

/// The first fault of a record's text.
#[derive(Clone, Copy, Debug, PartialEq, Eq, Error)]
pub enum RecordFault {
    /// The line of this number, counted from 1, is no line's text.
    #[error("line {0} is no line of a record")]
    BadLine(u32),
    /// Memory ran out.
    #[error("out of memory")]
    Memory(AllocError),
}

impl From<AllocError> for RecordFault {
    ghost from_gives = { λ source fault. fault ≡ Memory source };

    fn from(source: AllocError) -> RecordFault {
        RecordFault::Memory(source)
    }
}

impl<T: Drop> From<AllocFailed<T>> for RecordFault {
    ghost from_gives = { λ _ fault. fault ≡ Memory alloc_error };

    fn from(_source: AllocFailed<T>) -> RecordFault {
        RecordFault::Memory(AllocError)
    }
}
