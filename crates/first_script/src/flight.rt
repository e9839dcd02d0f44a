//! The form of a line behind `boot`: inputs of links and of the Navigator, watchers and turns.

ghost use Rattle.std.specs.Prelude.{◌≡◌, ◌<◌, ◌≤◌, length};
ghost use Rattle.std.specs.List.{list_all};
ghost use Rattle.first_text.specs.Words.{words_in};
ghost use Rattle.first_script.specs.Reads.{Gives};
ghost use Rattle.first_script.specs.Words.{word};
ghost use Rattle.first_script.specs.Forms.{link_size, is_type, is_unlisted_link, is_built, names_unplain, is_later_link, link_entry, link_form, nav_size, is_mode, is_unlisted_nav, are_events_built, is_later_nav, nav_entry, nav_form, watch_form, turns_form, flight_form};

use crate::actors::{are_actors, are_built_actors, behind_first};
use crate::draft::Draft;
use crate::fault::{ScriptFault, Stop};
use crate::form::{Entry, Form};
use crate::numbers::is_within;
use crate::select::{not_yet, unknown};
use crate::words::{count_words, is, word};
use first_model::{Mode, NamedPlan, VehicleLine};

#[tactic(auto, unfolding(crate::specs::Forms::link_size))]
fn link_size(input: &[u8]) -> usize
    ensures { result ≡ link_size input.now }
{
    if input == b"wait".as_slice()
        || input == b"cancel".as_slice()
        || input == b"timeout".as_slice()
    {
        3
    } else if input == b"upload".as_slice()
        || input == b"clear".as_slice()
        || input == b"set-current".as_slice()
    {
        4
    } else if input == b"meet".as_slice() || input == b"count".as_slice() {
        5
    } else if input == b"item".as_slice() {
        6
    } else {
        0
    }
}

#[tactic(auto, unfolding(crate::specs::Forms::is_type))]
fn is_type(name: &[u8]) -> bool
    ensures { result ≡ is_type name.now }
{
    name == b"mission".as_slice()
        || name == b"fence".as_slice()
        || name == b"safe".as_slice()
        || name == b"all".as_slice()
}

#[tactic(auto, unfolding(crate::specs::Forms::is_unlisted_link))]
fn is_unlisted_link(line: &[u8]) -> bool
    ensures { result ≡ is_unlisted_link (words_in line.now) }
{
    let count = count_words(line);
    let unlisted = count > 2 && link_size(word(2, line)) == 0;
    let typed = is(2, line, b"count") || is(2, line, b"clear");
    unlisted || (count > 3 && typed && !is_type(word(3, line)))
}

#[tactic(auto, unfolding(crate::specs::Forms::is_built))]
fn is_built(input: &[u8]) -> bool
    ensures { result ≡ is_built input.now }
{
    input == b"wait".as_slice() || input == b"meet".as_slice() || input == b"upload".as_slice()
}

/// Whether a name is that of a plan that is not plain.
#[tactic(auto, unfolding(crate::specs::Forms::names_unplain))]
fn names_unplain(plans: &[NamedPlan], plain: &[bool], name: &[u8]) -> bool
    ensures { result ≡ names_unplain plans.now plain.now name.now }
{
    match plans {
        [plan, more @ ..] => match plain {
            [flag, flags @ ..] => {
                if plan.name.as_slice() == name {
                    !*flag
                } else {
                    names_unplain(more, flags, name)
                }
            }
            [] => false,
        },
        [] => false,
    }
}

#[tactic(auto, unfolding(crate::specs::Forms::is_later_link))]
fn is_later_link(draft: &Draft, line: &[u8]) -> bool
    ensures { result ≡ is_later_link draft.now (words_in line.now) }
{
    let plans = draft.plans.as_slice();
    let unplain = is(2, line, b"upload")
        && names_unplain(plans, draft.plain.as_slice(), word(3, line));
    let later = link_size(word(2, line)) > 0 && !is_built(word(2, line));
    is_within(1, 7, word(1, line)) || (is_within(0, 0, word(1, line)) && (later || unplain))
}

#[tactic(auto, unfolding(crate::specs::Forms::link_entry))]
fn link_entry(input: &[u8]) -> Entry
    ensures { result ≡ link_entry input.now }
{
    if input == b"upload".as_slice() {
        Entry::Upload
    } else if input == b"meet".as_slice() {
        Entry::LinkMeet
    } else {
        Entry::LinkWait
    }
}

#[tactic(auto, unfolding(crate::specs::Forms::link_form))]
fn link_form(draft: &Draft, line: &[u8]) -> Result<Form, Stop>
    ensures { Gives result (link_form draft.now (words_in line.now)) }
{
    if is_unlisted_link(line) {
        unknown()
    } else if is_later_link(draft, line) {
        not_yet()
    } else if count_words(line) != link_size(word(2, line)) {
        Err(Stop::Fault(ScriptFault::Words))
    } else if is_within(0, 0, word(1, line)) {
        Ok(Form::Entry(link_entry(word(2, line))))
    } else {
        Err(Stop::Fault(ScriptFault::Number(2)))
    }
}

#[tactic(auto, unfolding(crate::specs::Forms::nav_size))]
fn nav_size(input: &[u8]) -> usize
    ensures { result ≡ nav_size input.now }
{
    if input == b"tick".as_slice()
        || input == b"go".as_slice()
        || input == b"reached".as_slice()
        || input == b"wait".as_slice()
    {
        2
    } else if input == b"mode".as_slice() {
        3
    } else if input == b"meet".as_slice() || input == b"position".as_slice() {
        4
    } else {
        0
    }
}

#[tactic(auto, unfolding(crate::specs::Forms::is_mode))]
fn is_mode(name: &[u8]) -> bool
    ensures { result ≡ is_mode name.now }
{
    name == b"hold".as_slice() || name == b"mission".as_slice() || name == b"return".as_slice()
}

#[tactic(auto, unfolding(crate::specs::Forms::is_unlisted_nav))]
fn is_unlisted_nav(line: &[u8]) -> bool
    ensures { result ≡ is_unlisted_nav (words_in line.now) }
{
    let unlisted_mode = count_words(line) > 2 && is(1, line, b"mode") && !is_mode(word(2, line));
    nav_size(word(1, line)) == 0 || unlisted_mode
}

fn are_plain(plain: &[bool]) -> bool
    ensures { result ≡ list_all (λ plain. plain) plain.now }
{
    plain.iter().all(|plain| *plain)
}

/// Whether events are built for what is stated: no parameter is set and all plans are plain.
fn are_events_built(draft: &Draft) -> bool
    ensures { result ≡ are_events_built draft.now }
{
    !draft.has_param && are_plain(draft.plain.as_slice())
}

#[tactic(auto, unfolding(crate::specs::Forms::is_later_nav))]
fn is_later_nav(events_built: bool, line: &[u8]) -> bool
    ensures { result ≡ is_later_nav events_built (words_in line.now) }
{
    let turns_back = is(1, line, b"mode") && is(2, line, b"return");
    let no_event = is(1, line, b"wait") || is(1, line, b"meet");
    is(1, line, b"position") || turns_back || (!events_built && !no_event)
}

#[tactic(auto, unfolding(crate::specs::Forms::nav_entry))]
fn nav_entry(line: &[u8]) -> Entry
    ensures { result ≡ nav_entry (words_in line.now) }
{
    if is(1, line, b"wait") {
        Entry::NavWait
    } else if is(1, line, b"meet") {
        Entry::NavMeet
    } else if is(1, line, b"tick") {
        Entry::Event(VehicleLine::Tick)
    } else if is(1, line, b"go") {
        Entry::Event(VehicleLine::Go)
    } else if is(1, line, b"reached") {
        Entry::Event(VehicleLine::Reached)
    } else if is(2, line, b"hold") {
        Entry::Event(VehicleLine::Mode(Mode::Hold))
    } else {
        Entry::Event(VehicleLine::Mode(Mode::Mission))
    }
}

#[tactic(auto, unfolding(crate::specs::Forms::nav_form))]
fn nav_form(events_built: bool, line: &[u8]) -> Result<Form, Stop>
    ensures { Gives result (nav_form events_built (words_in line.now)) }
{
    if count_words(line) <= 1 {
        Err(Stop::Fault(ScriptFault::Words))
    } else if is_unlisted_nav(line) {
        unknown()
    } else if is_later_nav(events_built, line) {
        not_yet()
    } else if count_words(line) == nav_size(word(1, line)) {
        Ok(Form::Entry(nav_entry(line)))
    } else {
        Err(Stop::Fault(ScriptFault::Words))
    }
}

#[tactic(auto, unfolding(crate::specs::Forms::watch_form))]
fn watch_form(line: &[u8]) -> Result<Form, Stop>
    ensures { Gives result (watch_form (words_in line.now)) }
{
    if count_words(line) > 2 && !is(2, line, b"do") {
        unknown()
    } else {
        not_yet()
    }
}

#[tactic(auto, unfolding(crate::specs::Forms::turns_form))]
fn turns_form(line: &[u8]) -> Result<Form, Stop>
    ensures { Gives result (turns_form (words_in line.now)) }
{
    let names = behind_first(line);
    if !are_actors(names) {
        unknown()
    } else if !are_built_actors(names) {
        not_yet()
    } else if count_words(line) == 1 {
        Err(Stop::Fault(ScriptFault::Words))
    } else {
        Ok(Form::Entry(Entry::Turns))
    }
}

/// The form of a line behind `boot`.
#[tactic(auto, unfolding(crate::specs::Forms::flight_form))]
pub(crate) fn flight_form(draft: &Draft, line: &[u8]) -> Result<Form, Stop>
    ensures { Gives result (flight_form draft.now (words_in line.now)) }
{
    if is(0, line, b"link") {
        link_form(draft, line)
    } else if is(0, line, b"nav") {
        nav_form(are_events_built(draft), line)
    } else if is(0, line, b"watch") {
        watch_form(line)
    } else if is(0, line, b"turns") {
        turns_form(line)
    } else {
        unknown()
    }
}
