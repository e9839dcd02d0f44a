//! The form of a line, by the words that select it. A word that stands there and selects nothing comes first, then a
//! form that is not built, then a wrong number of words.

ghost use Rattle.std.specs.Prelude.{◌≡◌, ◌<◌, ◌≤◌, length, Err};
ghost use Rattle.first_text.specs.Words.{words_in};
ghost use Rattle.first_script.specs.Reads.{Gives};
ghost use Rattle.first_script.specs.Words.{word};
ghost use Rattle.first_script.specs.Forms.{sized, unlisted, param_form, kind_of, plan_of, plan_form, is_tear, boot_form, head_form, form_of};

use crate::draft::Draft;
use crate::fault::{ScriptFault, Stop};
use crate::flight::flight_form;
use crate::form::{Entry, Form, Measure};
use crate::words::{count_words, is, word};
use first_model::PlanType;

pub(crate) fn unknown() -> Result<Form, Stop>
    ensures { result ≡ Err (Stop.Fault ScriptFault.Unknown) }
{
    Err(Stop::Fault(ScriptFault::Unknown))
}

pub(crate) fn not_yet() -> Result<Form, Stop>
    ensures { result ≡ Err (Stop.Fault ScriptFault.NotYet) }
{
    Err(Stop::Fault(ScriptFault::NotYet))
}

/// The form, where its line has so many words.
fn sized(count: usize, form: Form, line: &[u8]) -> Result<Form, Stop>
    ensures { Gives result (sized count form (words_in line.now)) }
{
    if count_words(line) == count {
        Ok(form)
    } else {
        Err(Stop::Fault(ScriptFault::Words))
    }
}

fn unlisted(place: usize, line: &[u8]) -> Result<Form, Stop>
    ensures { Gives result (unlisted place (words_in line.now)) }
{
    if place < count_words(line) {
        unknown()
    } else {
        Err(Stop::Fault(ScriptFault::Words))
    }
}

#[tactic(auto, unfolding(crate::specs::Forms::param_form))]
fn param_form(line: &[u8]) -> Result<Form, Stop>
    ensures { Gives result (param_form (words_in line.now)) }
{
    if is(1, line, b"TKO_LAND") {
        sized(3, Form::Entry(Entry::Landing), line)
    } else if is(1, line, b"TAKEOFF_MIN") {
        sized(3, Form::Measure(Measure::Takeoff), line)
    } else if is(1, line, b"MAX_ALT") {
        sized(3, Form::Measure(Measure::Ceiling), line)
    } else if is(1, line, b"RTL_TYPE") {
        sized(3, Form::Entry(Entry::Return), line)
    } else if is(1, line, b"DIST_1WP") || is(1, line, b"DIST_WPS") {
        sized(3, Form::Measure(Measure::Distance), line)
    } else {
        unlisted(1, line)
    }
}

#[tactic(auto, unfolding(crate::specs::Forms::kind_of))]
fn kind_of(name: &[u8]) -> Option<PlanType>
    ensures { result ≡ kind_of name.now }
{
    if name == b"mission".as_slice() {
        Some(PlanType::Mission)
    } else if name == b"fence".as_slice() {
        Some(PlanType::Fence)
    } else if name == b"safe".as_slice() {
        Some(PlanType::Safe)
    } else {
        None
    }
}

#[tactic(auto, unfolding(crate::specs::Forms::plan_form))]
fn plan_form(line: &[u8]) -> Result<Form, Stop>
    ensures { Gives result (plan_form (words_in line.now)) }
{
    let Some(kind) = kind_of(word(2, line)) else {
        return unlisted(2, line);
    };
    if count_words(line) == 3 {
        return Ok(Form::Plan {
            kind,
            home_first: false,
        });
    }
    if is(3, line, b"home-first") {
        let home_first = true;
        sized(4, Form::Plan { kind, home_first }, line)
    } else {
        unknown()
    }
}

#[tactic(auto, unfolding(crate::specs::Forms::is_tear))]
fn is_tear(name: &[u8]) -> bool
    ensures { result ≡ is_tear name.now }
{
    name == b"old".as_slice()
        || name == b"new".as_slice()
        || name == b"front".as_slice()
        || name == b"fill".as_slice()
}

#[tactic(auto, unfolding(crate::specs::Forms::boot_form))]
fn boot_form(booted: bool, line: &[u8]) -> Result<Form, Stop>
    ensures { Gives result (boot_form booted (words_in line.now)) }
{
    if count_words(line) == 1 {
        if booted {
            not_yet()
        } else {
            Ok(Form::Entry(Entry::Boot))
        }
    } else if is(1, line, b"cut") || is(1, line, b"cut-read") {
        if count_words(line) <= 3 || is_tear(word(3, line)) {
            not_yet()
        } else {
            unknown()
        }
    } else {
        unknown()
    }
}

#[tactic(auto, unfolding(crate::specs::Forms::head_form))]
fn head_form(line: &[u8]) -> Result<Form, Stop>
    ensures { Gives result (head_form (words_in line.now)) }
{
    if is(0, line, b"param") {
        param_form(line)
    } else if is(0, line, b"home") {
        sized(4, Form::Measure(Measure::Home), line)
    } else if is(0, line, b"plan") {
        plan_form(line)
    } else {
        unknown()
    }
}

/// The form of a line behind what the lines before it state.
#[tactic(auto, unfolding(crate::specs::Forms::form_of))]
pub(crate) fn form_of(draft: &Draft, line: &[u8]) -> Result<Form, Stop>
    ensures { Gives result (form_of draft.now (words_in line.now)) }
{
    if is(0, line, b"boot") {
        boot_form(draft.booted, line)
    } else if draft.booted {
        flight_form(draft, line)
    } else {
        head_form(line)
    }
}
