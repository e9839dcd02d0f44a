//! A watcher's inputs and notes, as text.

ghost use Rattle.std.specs.Prelude.{◌≡◌, ◌++◌, OnOk};
ghost use Rattle.first_record.specs.Watch.{watch_input_text, spot_text, note_text};

use crate::text::Text;
use first_model::{Note, WatchInput};
use std::alloc::AllocError;

pub(crate) fn push_watch_input(out: &mut Text, input: &WatchInput) -> Result<(), AllocError>
    ensures { OnOk result (out.new ≡ out.old ++ watch_input_text input.now) }
{
    out.push_number(input.code as u64)?;
    out.push(b" ")?;
    out.push_signed(&input.a)?;
    out.push(b" ")?;
    out.push_signed(&input.b)
}

fn push_spot(out: &mut Text, note: &Note) -> Result<(), AllocError>
    ensures { OnOk result (out.new ≡ out.old ++ spot_text note.now) }
{
    out.push_signed(&note.x)?;
    out.push(b" ")?;
    out.push_signed(&note.y)
}

pub(crate) fn push_note(out: &mut Text, note: &Note) -> Result<(), AllocError>
    ensures { OnOk result (out.new ≡ out.old ++ note_text note.now) }
{
    out.push_number(note.code as u64)?;
    out.push(b" ")?;
    out.push_number(note.a as u64)?;
    out.push(b" ")?;
    out.push_number(note.b as u64)?;
    out.push(b" ")?;
    push_spot(out, note)
}
