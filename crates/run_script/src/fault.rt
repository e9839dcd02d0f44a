//! Why a text is no script.

ghost use Rattle.std.specs.Prelude.{◌≡◌, alloc_error};
ghost use Rattle.run_script.specs.declared.fault.Stop.TheVariants.{Memory};

use nav_text::TextFault;
use std::alloc::{AllocError, AllocFailed};
use thiserror::Error;
use wpl_items::WplFault;

/// The fault of a script's line. Where a line has several, the earlier variant is told; a fault of the text comes before
/// that of any line.
#[derive(Clone, Copy, Debug, PartialEq, Eq, Error)]
pub enum ScriptFault {
    /// The script can not be split into lines.
    #[error("{0}")]
    Text(TextFault),
    /// A word that would have to say what the line is says nothing that may stand there.
    #[error("unknown line")]
    Unknown,
    /// Words are missing, or there are too many.
    #[error("wrong number of words")]
    Words,
    /// The word of this place, from 1, is not the number that is wanted there.
    #[error("word {0} is no such number")]
    Number(u8),
    /// A distance between waypoints is asked for: only 0, which asks nothing, is served.
    #[error("distance is not 0")]
    Distance,
    /// A plan's name is malformed, taken, or that of no plan, or a row is none of its plan.
    #[error("bad name")]
    Name,
    /// The line goes past a limit of the script.
    #[error("too many")]
    TooMany,
    /// The text of the plan that this line begins is faulty. Its lines are counted from its own header.
    #[error("{0}")]
    Plan(WplFault),
    /// The script ends within a plan, or without a boot.
    #[error("unfinished")]
    Unfinished,
    /// Memory ran out.
    #[error("out of memory")]
    Memory(AllocError),
}

/// Why a part of the reader gave up.
#[derive(Clone, Copy)]
pub(crate) enum Stop {
    Memory(AllocError),
    Fault(ScriptFault),
}

impl From<AllocError> for Stop {
    ghost from_gives = { λ source stop. stop ≡ Memory source };

    fn from(source: AllocError) -> Stop {
        Stop::Memory(source)
    }
}

impl<T: Drop> From<AllocFailed<T>> for Stop {
    ghost from_gives = { λ _ stop. stop ≡ Memory alloc_error };

    fn from(_source: AllocFailed<T>) -> Stop {
        Stop::Memory(AllocError)
    }
}
