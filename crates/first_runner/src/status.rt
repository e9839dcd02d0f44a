//! How a command ends: its status, with the number that the process ends with and the text that it prints.

ghost use Rattle.std.specs.Prelude.{◌≡◌};
ghost use Rattle.first_runner.specs.Outcome.{number_of};

use first_model::Line;
use first_script::ScriptFault;
use first_wpl::WplFault;
use std::fmt;

/// How a command ended.
#[derive(Debug, Drop)]
pub enum Status {
    Ok,
    /// The words are no command.
    Usage,
    /// The script has its first fault at this line, from 1.
    Script(u32, ScriptFault),
    /// The plan text has this first fault.
    Plan(WplFault),
    /// The source failed.
    ReadFault,
    /// The sink failed.
    WriteFault,
    /// There was no memory.
    Memory,
    /// The source gave more than a script may have.
    TooLong,
}

impl Status {
    /// The number with which the process ends.
    pub fn number(&self) -> u8
        ensures { result ≡ number_of self.now }
    {
        match self {
            Status::Ok => 0,
            Status::Usage => 2,
            Status::Script(_, _) | Status::Plan(_) => 3,
            Status::ReadFault => 4,
            Status::WriteFault => 5,
            Status::Memory => 6,
            Status::TooLong => 7,
        }
    }
}

/// What is printed where the status is not 0.
impl fmt::Display for Status {
    fn fmt<W: fmt::Write>(&self, f: &mut fmt::Formatter<W>) -> fmt::Result {
        match self {
            Status::Ok => write!(f, "ok"),
            Status::Usage => write!(
                f,
                "usage: px4_flight fly [--store P], replay [--store P], check KIND, init --store P, case N"
            ),
            Status::Script(line, fault) => {
                let name = fault_name(fault);
                write!(f, "script line {line}: {name}")
            }
            Status::Plan(fault) => {
                let name = plan_fault_name(fault);
                write!(f, "plan: {name}")
            }
            Status::ReadFault => write!(f, "read fault"),
            Status::WriteFault => write!(f, "write fault"),
            Status::Memory => write!(f, "out of memory"),
            Status::TooLong => write!(f, "input too long"),
        }
    }
}

/// The name of a fault's variant.
fn fault_name(fault: &ScriptFault) -> &'static str {
    match fault {
        ScriptFault::Text(_) => "Text",
        ScriptFault::Unknown => "Unknown",
        ScriptFault::NotYet => "NotYet",
        ScriptFault::Words => "Words",
        ScriptFault::Number(_) => "Number",
        ScriptFault::Distance => "Distance",
        ScriptFault::Name => "Name",
        ScriptFault::TooMany => "TooMany",
        ScriptFault::Plan(_) => "Plan",
        ScriptFault::Unfinished => "Unfinished",
        ScriptFault::Memory(_) => "Memory",
    }
}

/// The name of a fault's variant.
fn plan_fault_name(fault: &WplFault) -> &'static str {
    match fault {
        WplFault::Text(_) => "Text",
        WplFault::Header => "Header",
        WplFault::TooMany(_) => "TooMany",
        WplFault::FieldCount(_) => "FieldCount",
        WplFault::BadWhole(_, _) => "BadWhole",
        WplFault::BadIndex(_) => "BadIndex",
        WplFault::Num(_, _, _) => "Num",
        WplFault::Memory(_) => "Memory",
    }
}

/// What a run leaves: its status and the lines of its record.
#[derive(Drop)]
pub struct Outcome {
    pub status: Status,
    pub lines: Vec<Line>,
}
