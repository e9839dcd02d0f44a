//! The record is given to the sink line by line, after the run.

ghost use Rattle.std.specs.Prelude.{◌≤◌, All, IfErr, OnOk};
ghost use Rattle.std.specs.Io.KnownBytes.{Appends};
ghost use Rattle.first_record.specs.Record.{IsPrintable, record_text_of};
ghost use Rattle.first_runner.specs.Outcome.{IsUngiven};

use first_model::Line;
use first_record::line_text;
use io_edges::{Sink, give_all};
use std::alloc::Global;

/// Why a record was not given whole.
#[derive(Clone, Copy, Debug, PartialEq, Eq)]
pub enum Ungiven {
    /// The sink failed.
    Failed,
    /// There was no memory for a line's text.
    Memory,
}

/// Gives the record's text line by line: each call has what is left of one line.
pub fn give_lines<K: Sink>(alloc: Global, lines: &[Line], output: &mut K) -> Result<(), Ungiven>
    requires { All IsPrintable lines.now }
    ensures ok { OnOk result (Appends (K.held output.old) (K.held output.new) (record_text_of lines.now)) }
    ensures err { IfErr result (IsUngiven (record_text_of lines.now) (K.faults output.old) (K.faults output.new) (K.held output.old) (K.held output.new)) }
    ensures never_falls { K.faults output.old ≤ K.faults output.new }
{
    for line in lines {
        let Ok(text) = line_text(alloc, line) else {
            return Err(Ungiven::Memory);
        };
        if give_all(output, text.as_slice()).is_err() {
            return Err(Ungiven::Failed);
        }
    }
    Ok(())
}
