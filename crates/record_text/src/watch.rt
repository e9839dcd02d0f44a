//! A watcher's inputs and notes, as text.

ghost use Rattle.std.specs.Prelude.{◌≡◌, ◌++◌, OnOk};
ghost use Rattle.record_text.specs.Watch.{watch_input_text, spot_text, note_text};

use crate::text::{push_number, push_signed, push_word};
use mission_model::{Note, WatchInput};
use std::alloc::AllocError;

pub(crate) fn push_watch_input(out: &mut Vec<u8>, input: &WatchInput) -> Result<(), AllocError>
    ensures { OnOk result (out.new.items ≡ out.old.items ++ watch_input_text input.now) }
{
    push_number(out, input.code as u64)?;
    push_word(out, b" ")?;
    push_signed(out, &input.a)?;
    push_word(out, b" ")?;
    push_signed(out, &input.b)
}

fn push_spot(out: &mut Vec<u8>, note: &Note) -> Result<(), AllocError>
    ensures { OnOk result (out.new.items ≡ out.old.items ++ spot_text note.now) }
{
    push_signed(out, &note.x)?;
    push_word(out, b" ")?;
    push_signed(out, &note.y)
}

pub(crate) fn push_note(out: &mut Vec<u8>, note: &Note) -> Result<(), AllocError>
    ensures { OnOk result (out.new.items ≡ out.old.items ++ note_text note.now) }
{
    push_number(out, note.code as u64)?;
    push_word(out, b" ")?;
    push_number(out, note.a as u64)?;
    push_word(out, b" ")?;
    push_number(out, note.b as u64)?;
    push_word(out, b" ")?;
    push_spot(out, note)
}
