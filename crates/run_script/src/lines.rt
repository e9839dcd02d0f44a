//! A line of a script, judged by its row and by what the lines before it state.

ghost use Rattle.std.specs.Prelude.{◌≡◌, ◌≤◌, ◌==◌, length, get_or, All};
ghost use Rattle.nav_text.specs.Spans.{text_of, IsInside};
ghost use Rattle.nav_text.specs.Words.{words_in};
ghost use Rattle.run_script.specs.Gathered.{known, Leads};
ghost use Rattle.run_script.specs.Told.{is_skipped, begins_plan, is_header, is_turns, HeaderStates, IsHeaderFault, row_of, FormStates, IsFormFault, RowStates, IsRowFault, BodyStates, IsBodyFault, LineStates, IsLineFault};
ghost use Rattle.run_script.specs.Steps.{StepIs};

use crate::draft::Draft;
use crate::fault::{ScriptFault, Stop};
use crate::forms::kind_of;
use crate::plans::{is_end, take_plan};
use crate::rows::{read_row, row_among};
use crate::table::{Form, rows_of};
use crate::value::Values;
use crate::words::Line;
use nav_text::{MAX_TEXT_BYTES, Span};
use std::alloc::Global;

/// Whether a line is skipped: it has no word, or its first one begins with `#`.
fn is_skipped(line: &Line<'_>) -> bool
    ensures { result ≡ is_skipped line.now }
{
    line.count() == 0 || begins_comment(line.word(1))
}

fn begins_comment(word: &[u8]) -> bool
    ensures { result ≡ (get_or word.now 0 0 == 35) }
{
    match word {
        [] => false,
        [first, ..] => *first == b'#',
    }
}

/// Whether a line begins a plan.
fn begins_plan(line: &Line<'_>) -> bool
    ensures { result ≡ begins_plan line.now }
{
    line.word(1) == b"plan".as_slice()
}

/// Whether a line is the first one of a script.
fn is_header(line: &Line<'_>) -> bool
    ensures { result ≡ is_header line.now }
{
    line.count() == 3
        && line.word(1) == b"px4".as_slice()
        && line.word(2) == b"script".as_slice()
        && line.word(3) == b"1".as_slice()
}

/// What a line of a form states.
fn take_form(
    draft: &mut Draft,
    alloc: Global,
    text: &[u8],
    behind: &[Span],
    form: Form,
    values: &Values,
    line: &Line<'_>,
) -> Result<(), Stop>
    requires inside { All (IsInside text.now) behind.now }
    requires room { length text.now ≤ MAX_TEXT_BYTES }
    ensures { Leads (FormStates text.now behind.now (known draft.old) line.now form values.now) (IsFormFault text.now behind.now (known draft.old) line.now form values.now) draft.old result draft.new }
{
    match form {
        Form::Plan => {
            let kind = kind_of(values.third.byte());
            take_plan(draft, alloc, text, behind, kind, false, line.word(2))
        }
        Form::PlanHomeFirst => {
            let kind = kind_of(values.third.byte());
            take_plan(draft, alloc, text, behind, kind, true, line.word(2))
        }
        _ => draft.state(alloc, form, values, line),
    }
}

/// What a line of a row states.
fn take_row(
    draft: &mut Draft,
    alloc: Global,
    text: &[u8],
    behind: &[Span],
    line: &Line<'_>,
) -> Result<(), Stop>
    requires inside { All (IsInside text.now) behind.now }
    requires room { length text.now ≤ MAX_TEXT_BYTES }
    ensures { Leads (RowStates text.now behind.now (known draft.old) line.now (row_of (known draft.old) line.now)) (IsRowFault text.now behind.now (known draft.old) line.now (row_of (known draft.old) line.now)) draft.old result draft.new }
{
    let row = match row_among(rows_of(draft.is_booted(), line.word(1)), line) {
        Ok(row) => row,
        Err(fault) => return Err(Stop::Fault(fault)),
    };
    let values = match read_row(row, line) {
        Ok(values) => values,
        Err(fault) => return Err(Stop::Fault(fault)),
    };
    take_form(draft, alloc, text, behind, row.form, &values, line)
}

fn is_turns(draft: &Draft, line: &Line<'_>) -> bool
    ensures { result ≡ is_turns (known draft.now) line.now }
{
    draft.is_booted() && line.word(1) == b"turns".as_slice()
}

/// What a line behind the first states.
fn take_body(
    draft: &mut Draft,
    alloc: Global,
    text: &[u8],
    behind: &[Span],
    span: Span,
    line: &Line<'_>,
) -> Result<(), Stop>
    requires inside { All (IsInside text.now) behind.now }
    requires room { length text.now ≤ MAX_TEXT_BYTES }
    requires same { line.now ≡ words_in (text_of text.now span) }
    ensures { Leads (BodyStates (is_turns (known draft.old) line.now) text.now behind.now (known draft.old) line.now) (IsBodyFault (is_turns (known draft.old) line.now) text.now behind.now (known draft.old) line.now) draft.old result draft.new }
{
    if is_turns(draft, line) {
        draft.take_turns(text, span, line)
    } else {
        take_row(draft, alloc, text, behind, line)
    }
}

/// What the first line states.
fn take_header(draft: &mut Draft, line: &Line<'_>) -> Result<(), Stop>
    ensures { Leads (HeaderStates line.now) (IsHeaderFault line.now) draft.old result draft.new }
{
    if is_header(line) {
        draft.begin();
        Ok(())
    } else {
        Err(Stop::Fault(ScriptFault::Unknown))
    }
}

/// What a line states.
fn take_line(
    draft: &mut Draft,
    alloc: Global,
    text: &[u8],
    behind: &[Span],
    span: Span,
    line: &Line<'_>,
) -> Result<(), Stop>
    requires inside { All (IsInside text.now) behind.now }
    requires room { length text.now ≤ MAX_TEXT_BYTES }
    requires same { line.now ≡ words_in (text_of text.now span) }
    ensures { Leads (LineStates draft.old.begun text.now behind.now (known draft.old) line.now) (IsLineFault draft.old.begun text.now behind.now (known draft.old) line.now) draft.old result draft.new }
{
    if draft.is_begun() {
        take_body(draft, alloc, text, behind, span, line)
    } else {
        take_header(draft, line)
    }
}

/// Goes over a line, which is within a plan's text or not: whether the next one is.
pub(crate) fn step(
    draft: &mut Draft,
    alloc: Global,
    text: &[u8],
    behind: &[Span],
    span: Span,
    within: bool,
) -> Result<bool, Stop>
    requires line { IsInside text.now span }
    requires inside { All (IsInside text.now) behind.now }
    requires room { length text.now ≤ MAX_TEXT_BYTES }
    ensures { StepIs text.now behind.now (text_of text.now span) within draft.old result draft.new }
{
    if within {
        return Ok(!is_end(text, span));
    }
    let line = Line::new(text, span);
    if is_skipped(&line) {
        return Ok(false);
    }
    take_line(draft, alloc, text, behind, span, &line)?;
    Ok(begins_plan(&line))
}
