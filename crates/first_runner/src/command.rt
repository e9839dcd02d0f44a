//! The commands, and `replay`: a script is read to its end, flown, and its record given.

ghost use Rattle.std.specs.Prelude.{◌≡◌, ◌≤◌, ℕ, List, length, All};
ghost use Rattle.first_record.specs.Record.{IsPrintable};
ghost use Rattle.first_vehicle.specs.VehicleRun.{VehicleRun};
ghost use Rattle.first_script.specs.declared.bounds.TheConstants.{MAX_SCRIPT_BYTES};
ghost use Rattle.first_runner.specs.Outcome.{IsFlown, TextCause, Cause, IsGiven, Completes, CompletesText};
ghost use Rattle.first_runner.specs.Commands.{IsCommand, Ran, RanNothing, CompletesBy};

use crate::checking::check;
use crate::fly::{fly, only_boot};
use crate::print::{Ungiven, give_lines};
use crate::status::{Outcome, Status};
use crate::words::{Command, command_of};
use first_model::Line;
use first_script::bounds::MAX_SCRIPT_BYTES;
use first_script::{ScriptFault, read_script};
use io_edges::{ReadFault, Sink, Source, read_to_end};
use std::alloc::Global;

/// Runs the command that the words name, which are those after the program's name: `replay`, or `check` and one of
/// `mission`, `fence` and `safe`.
pub fn flight<S: Source, K: Sink>(
    alloc: Global,
    words: &[&str],
    input: &mut S,
    output: &mut K,
) -> Outcome
    ensures ran { (command : Command) → IsCommand words.now command → Ran command result.status result.lines.items (S.faults input.old) (S.faults input.new) (S.left input.old) (S.left input.new) (K.faults output.old) (K.faults output.new) (K.held output.old) (K.held output.new) }
    ensures usage { ((command : Command) → IsCommand words.now command → ⊥) → RanNothing result.status result.lines.items (S.faults input.old) (S.faults input.new) (S.left input.old) (S.left input.new) (K.faults output.old) (K.faults output.new) (K.held output.old) (K.held output.new) }
    ensures source_never_falls { S.faults input.old ≤ S.faults input.new }
    ensures sink_never_falls { K.faults output.old ≤ K.faults output.new }
    ensures complete { (command : Command) → IsCommand words.now command → CompletesBy command (S.left input.old) (S.faults input.old) (S.faults input.new) (K.faults output.old) (K.faults output.new) result.status }
    ensures vehicle { VehicleRun result.lines.items }
{
    match command_of(words) {
        Some(command) => run(alloc, command, input, output),
        None => Outcome {
            status: Status::Usage,
            lines: Vec::new(alloc),
        },
    }
}

/// Runs a command.
fn run<S: Source, K: Sink>(
    alloc: Global,
    command: Command,
    input: &mut S,
    output: &mut K,
) -> Outcome
    ensures ran { Ran command result.status result.lines.items (S.faults input.old) (S.faults input.new) (S.left input.old) (S.left input.new) (K.faults output.old) (K.faults output.new) (K.held output.old) (K.held output.new) }
    ensures source_never_falls { S.faults input.old ≤ S.faults input.new }
    ensures sink_never_falls { K.faults output.old ≤ K.faults output.new }
    ensures complete { CompletesBy command (S.left input.old) (S.faults input.old) (S.faults input.new) (K.faults output.old) (K.faults output.new) result.status }
    ensures vehicle { VehicleRun result.lines.items }
{
    match command {
        Command::Replay => replay(alloc, input, output),
        Command::Check(kind) => Outcome {
            status: check(alloc, kind, input, output),
            lines: Vec::new(alloc),
        },
    }
}

/// Flies the script that the source gives, in its stated order, and gives the record.
pub fn replay<S: Source, K: Sink>(alloc: Global, input: &mut S, output: &mut K) -> Outcome
    ensures cause { Cause result.status result.lines.items (S.faults input.old) (S.faults input.new) (S.left input.old) (S.left input.new) }
    ensures given { IsGiven result.status result.lines.items (K.faults output.old) (K.faults output.new) (K.held output.old) (K.held output.new) }
    ensures source_never_falls { S.faults input.old ≤ S.faults input.new }
    ensures sink_never_falls { K.faults output.old ≤ K.faults output.new }
    ensures complete { Completes (S.left input.old) (S.faults input.old) (S.faults input.new) (K.faults output.old) (K.faults output.new) result.status }
    ensures vehicle { VehicleRun result.lines.items }
{
    match read_to_end(alloc, input, MAX_SCRIPT_BYTES) {
        Ok(text) => fly_text(alloc, text.as_slice(), output),
        Err(ReadFault::Failed) => Outcome {
            status: Status::ReadFault,
            lines: Vec::new(alloc),
        },
        Err(ReadFault::TooLong) => Outcome {
            status: Status::TooLong,
            lines: Vec::new(alloc),
        },
        Err(ReadFault::Memory) => Outcome {
            status: Status::Memory,
            lines: Vec::new(alloc),
        },
    }
}

/// Flies the script that a text is.
fn fly_text<K: Sink>(alloc: Global, text: &[u8], output: &mut K) -> Outcome
    requires { length text.now ≤ MAX_SCRIPT_BYTES }
    ensures cause { TextCause text.now result.status result.lines.items }
    ensures given { IsGiven result.status result.lines.items (K.faults output.old) (K.faults output.new) (K.held output.old) (K.held output.new) }
    ensures never_falls { K.faults output.old ≤ K.faults output.new }
    ensures vehicle { VehicleRun result.lines.items }
    ensures complete { CompletesText text.now (K.faults output.old) (K.faults output.new) result.status }
{
    let script = match read_script(alloc, text) {
        Ok(script) => script,
        Err((_, ScriptFault::Memory(_))) => {
            return Outcome {
                status: Status::Memory,
                lines: Vec::new(alloc),
            };
        }
        Err((line, fault)) => {
            return Outcome {
                status: Status::Script(line, fault),
                lines: Vec::new(alloc),
            };
        }
    };
    let (lines, flown) = fly(alloc, only_boot(script));
    if flown.is_err() {
        return Outcome {
            status: Status::Memory,
            lines,
        };
    }
    give_record(alloc, lines, output)
}

/// Gives the record of a flight that came to its end.
fn give_record<K: Sink>(alloc: Global, lines: Vec<Line>, output: &mut K) -> Outcome
    requires printable { All IsPrintable lines.items }
    requires vehicle { VehicleRun lines.items }
    ensures cause { (text : List ℕ) → IsFlown text lines.items → TextCause text result.status result.lines.items }
    ensures given { IsGiven result.status result.lines.items (K.faults output.old) (K.faults output.new) (K.held output.old) (K.held output.new) }
    ensures never_falls { K.faults output.old ≤ K.faults output.new }
    ensures vehicle { VehicleRun result.lines.items }
    ensures complete { (text : List ℕ) → CompletesText text (K.faults output.old) (K.faults output.new) result.status }
{
    match give_lines(alloc, lines.as_slice(), output) {
        Ok(()) => Outcome {
            status: Status::Ok,
            lines,
        },
        Err(Ungiven::Failed) => Outcome {
            status: Status::WriteFault,
            lines,
        },
        Err(Ungiven::Memory) => Outcome {
            status: Status::Memory,
            lines,
        },
    }
}
