//! The command `check`: a plan text is read to its end, and what is told of it is given.

ghost use Rattle.std.specs.Prelude.{◌≤◌, length};
ghost use Rattle.first_script.specs.declared.bounds.TheConstants.{MAX_SCRIPT_BYTES};
ghost use Rattle.first_runner.specs.Checked.{Checks, TextChecked, CompletesCheck, CompletesPlan};

use crate::judgement::told_of;
use crate::status::Status;
use first_model::PlanType;
use first_script::bounds::MAX_SCRIPT_BYTES;
use first_wpl::{WplFault, read_wpl};
use io_edges::{ReadFault, Sink, Source, give_all, read_to_end};
use std::alloc::Global;

/// Reads the plan text that the source gives, `QGC WPL 110`, and gives the line `plan KIND N accepted` or
/// `plan KIND N refused SEQ CODE`, and behind it the text of the N items as it is written here. SEQ is the first refused
/// place, from 0, and CODE its MAV_MISSION_RESULT. A plan that is refused is no fault.
pub fn check<S: Source, K: Sink>(
    alloc: Global,
    kind: PlanType,
    input: &mut S,
    output: &mut K,
) -> Status
    ensures checks { Checks kind result (S.faults input.old) (S.faults input.new) (S.left input.old) (S.left input.new) (K.faults output.old) (K.faults output.new) (K.held output.old) (K.held output.new) }
    ensures source_never_falls { S.faults input.old ≤ S.faults input.new }
    ensures sink_never_falls { K.faults output.old ≤ K.faults output.new }
    ensures complete { CompletesCheck (S.left input.old) (S.faults input.old) (S.faults input.new) (K.faults output.old) (K.faults output.new) result }
{
    match read_to_end(alloc, input, MAX_SCRIPT_BYTES) {
        Ok(text) => check_text(alloc, kind, text.as_slice(), output),
        Err(ReadFault::Failed) => Status::ReadFault,
        Err(ReadFault::TooLong) => Status::TooLong,
        Err(ReadFault::Memory) => Status::Memory,
    }
}

/// Gives what is told of a plan text.
fn check_text<K: Sink>(alloc: Global, kind: PlanType, text: &[u8], output: &mut K) -> Status
    requires { length text.now ≤ MAX_SCRIPT_BYTES }
    ensures checked { TextChecked kind text.now result (K.faults output.old) (K.faults output.new) (K.held output.old) (K.held output.new) }
    ensures never_falls { K.faults output.old ≤ K.faults output.new }
    ensures complete { CompletesPlan text.now (K.faults output.old) (K.faults output.new) result }
{
    let items = match read_wpl(alloc, text) {
        Ok(items) => items,
        Err(WplFault::Memory(_)) => return Status::Memory,
        Err(fault) => return Status::Plan(fault),
    };
    let Ok(told) = told_of(alloc, kind, items.as_slice()) else {
        return Status::Memory;
    };
    if give_all(output, told.as_slice()).is_err() {
        return Status::WriteFault;
    }
    Status::Ok
}
