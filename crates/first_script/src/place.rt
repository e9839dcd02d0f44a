//! The places among the lines of a script, and how each line leads from one to the next.

ghost use Rattle.std.specs.Prelude.{◌≡◌, ◌≤◌, length, All};
ghost use Rattle.first_text.specs.Spans.{IsInside};
ghost use Rattle.first_text.specs.Words.{words_in};
ghost use Rattle.first_script.specs.Words.{word};
ghost use Rattle.first_script.specs.Reads.{Gives, Answers};
ghost use Rattle.first_script.specs.Entries.{empty_draft};
ghost use Rattle.first_script.specs.Places.{after_top, after_within, States, IsFaultOf, StatesBy, IsFaultBy, Leads, IsLineFault};
ghost use Rattle.first_script.specs.Forms.{form_of};

use crate::bounds::MAX_SCRIPT_BYTES;
use crate::draft::{Draft, Flags};
use crate::entries::after_entry;
use crate::fault::{ScriptFault, Stop};
use crate::form::Form;
use crate::measures::after_measure;
use crate::plans::{fill, new_name, plan_text};
use crate::schedule::Schedule;
use crate::select::form_of;
use crate::words::{is_skipped, says, word};
use first_model::{Params, PlanType, Plans, Turns};
use first_text::Span;
use std::alloc::Global;

/// A place among the lines of a script, with all that its lines stated so far.
#[derive(Drop)]
pub enum Place {
    /// In front of the first line.
    Top,
    /// Behind a line of the script.
    Among(Draft),
    /// Within a plan, whose text was read at its first line.
    Within(Draft),
}

fn empty_draft(alloc: Global) -> Draft
    ensures { result ≡ empty_draft }
{
    Draft {
        params: Params {
            tko_land: 0,
            takeoff_min: 0,
            max_alt: 0,
            rtl_type: 0,
        },
        home: None,
        plans: Plans::from_vec(Vec::new(alloc)),
        plain: Flags::from_vec(Vec::new(alloc)),
        has_param: false,
        booted: false,
        inputs: Schedule::new(alloc),
        turns: Turns::from_vec(Vec::new(alloc)),
    }
}

#[tactic(auto, unfolding(crate::specs::Places::after_top))]
fn after_top(alloc: Global, line: &[u8]) -> Result<Place, Stop>
    ensures { Gives result (after_top (words_in line.now)) }
{
    if is_skipped(line) {
        Ok(Place::Top)
    } else if says(line, b"px4 script 1") {
        Ok(Place::Among(empty_draft(alloc)))
    } else {
        Err(Stop::Fault(ScriptFault::Unknown))
    }
}

#[tactic(auto, unfolding(crate::specs::Places::after_within))]
fn after_within(draft: Draft, line: &[u8]) -> Place
    ensures { result ≡ after_within draft (words_in line.now) }
{
    if says(line, b"end") {
        Place::Among(draft)
    } else {
        Place::Within(draft)
    }
}

/// The place behind the first line of a plan.
fn after_plan(
    alloc: Global,
    text: &[u8],
    behind: &[Span],
    draft: Draft,
    kind: PlanType,
    home_first: bool,
    line: &[u8],
) -> Result<Place, Stop>
    requires inside { All (IsInside text.now) behind.now }
    requires room { length text.now ≤ MAX_SCRIPT_BYTES }
    ensures { Answers result (States text.now behind.now draft (Form.Plan kind home_first) (words_in line.now)) (IsFaultOf text.now behind.now draft (Form.Plan kind home_first) (words_in line.now)) }
{
    let name = new_name(alloc, draft.plans.as_slice(), word(1, line))?;
    let Some(plan) = plan_text(text, behind) else {
        return Ok(Place::Within(draft));
    };
    let draft = fill(alloc, draft, name, kind, home_first, plan)?;
    Ok(Place::Within(draft))
}

/// The place behind a line of a form.
fn after_form(
    alloc: Global,
    text: &[u8],
    behind: &[Span],
    draft: Draft,
    form: Form,
    line: &[u8],
) -> Result<Place, Stop>
    requires inside { All (IsInside text.now) behind.now }
    requires room { length text.now ≤ MAX_SCRIPT_BYTES }
    ensures { Answers result (States text.now behind.now draft form (words_in line.now)) (IsFaultOf text.now behind.now draft form (words_in line.now)) }
{
    match form {
        Form::Measure(measure) => {
            let draft = after_measure(draft, measure, line)?;
            Ok(Place::Among(draft))
        }
        Form::Entry(entry) => {
            let draft = after_entry(alloc, draft, entry, line)?;
            Ok(Place::Among(draft))
        }
        Form::Plan { kind, home_first } => {
            after_plan(alloc, text, behind, draft, kind, home_first, line)
        }
    }
}

/// The place behind a line that is not skipped.
fn after_told(
    alloc: Global,
    text: &[u8],
    behind: &[Span],
    draft: Draft,
    line: &[u8],
) -> Result<Place, Stop>
    requires inside { All (IsInside text.now) behind.now }
    requires room { length text.now ≤ MAX_SCRIPT_BYTES }
    ensures { Answers result (StatesBy text.now behind.now draft (form_of draft (words_in line.now)) (words_in line.now)) (IsFaultBy text.now behind.now draft (form_of draft (words_in line.now)) (words_in line.now)) }
{
    let form = form_of(&draft, line)?;
    after_form(alloc, text, behind, draft, form, line)
}

/// The place behind a line, which has these lines behind it.
pub(crate) fn after(
    alloc: Global,
    text: &[u8],
    behind: &[Span],
    place: Place,
    line: &[u8],
) -> Result<Place, Stop>
    requires inside { All (IsInside text.now) behind.now }
    requires room { length text.now ≤ MAX_SCRIPT_BYTES }
    ensures { Answers result (Leads text.now behind.now place (words_in line.now)) (IsLineFault text.now behind.now place (words_in line.now)) }
{
    match place {
        Place::Top => after_top(alloc, line),
        Place::Within(draft) => Ok(after_within(draft, line)),
        Place::Among(draft) => {
            if is_skipped(line) {
                Ok(Place::Among(draft))
            } else {
                after_told(alloc, text, behind, draft, line)
            }
        }
    }
}
