//! What lines of whole numbers and names state, behind what the lines before them stated.

ghost use Rattle.std.specs.Prelude.{◌≡◌, ◌<◌, ◌≤◌, ◌++◌, [], MatchOption, OnOk, None, Some, drop};
ghost use Rattle.first_text.specs.Words.{words_in};
ghost use Rattle.first_script.specs.Words.{word};
ghost use Rattle.first_script.specs.Actors.{actor_of};
ghost use Rattle.first_script.specs.Reads.{Gives};
ghost use Rattle.first_script.specs.Entries.{with_params, meeting, plan_named, upload, has_room, with_input, actors_more, actors_of, with_turns, after_landing, after_return, after_upload, after_meeting, after_entry};

use crate::actors::{actor_of, behind_first};
use crate::draft::Draft;
use crate::fault::{ScriptFault, Stop};
use crate::form::Entry;
use crate::numbers::number_in;
use crate::schedule::{Schedule, is_upload};
use crate::words::{count_words, next_word, word};
use first_model::limits::{MAX_PLACES, MAX_SCHEDULE_LINES, MAX_TURN_WORDS, MAX_UPLOAD_LINES};
use first_model::{Actor, InputLine, Items, NamedPlan, Params, Turns};
use std::alloc::{AllocError, Global};

/// The draft with other parameters.
pub(crate) fn with_params(draft: Draft, params: Params) -> Draft
    ensures { result ≡ with_params draft params }
{
    Draft {
        params,
        has_param: true,
        ..draft
    }
}

#[tactic(auto, unfolding(crate::specs::Entries::meeting))]
fn meeting(field: u8, line: &[u8]) -> Result<InputLine, Stop>
    requires above { 0 < field }
    requires below { field < 255 }
    ensures { Gives result (meeting field (words_in line.now)) }
{
    let place = number_in(field, 0, u64::from(MAX_PLACES - 1), line)?;
    let count = number_in(field + 1, 1, u64::from(u8::MAX), line)?;
    Ok(InputLine::Meet {
        place: place as u8,
        count: count as u8,
    })
}

/// The plan of a name.
#[tactic(auto, unfolding(crate::specs::Entries::plan_named))]
pub(crate) fn plan_named<'a>(plans: &'a [NamedPlan], name: &[u8]) -> Option<&'a NamedPlan>
    ensures { MatchOption result (plan_named plans.now name.now ≡ None) (λ plan. plan_named plans.now name.now ≡ Some plan.now) }
{
    match plans {
        [plan, more @ ..] => {
            if plan.name.as_slice() == name {
                Some(plan)
            } else {
                plan_named(more, name)
            }
        }
        [] => None,
    }
}

#[tactic(auto, unfolding(crate::specs::Entries::upload))]
fn upload(alloc: Global, plans: &[NamedPlan], name: &[u8]) -> Result<InputLine, Stop>
    ensures { Gives result (upload plans.now name.now) }
{
    match plan_named(plans, name) {
        Some(plan) => {
            let items = Vec::from_slice(alloc, plan.items.as_slice())?;
            Ok(InputLine::Upload {
                kind: plan.kind,
                items: Items::from_vec(items),
            })
        }
        None => Err(Stop::Fault(ScriptFault::Name)),
    }
}

/// Whether the limits of the schedule let one more input in.
#[tactic(auto, unfolding(crate::specs::Entries::has_room))]
fn has_room(inputs: &Schedule, input: &(Actor, InputLine)) -> bool
    ensures { result ≡ has_room inputs.now input.now }
{
    inputs.as_slice().len() < MAX_SCHEDULE_LINES
        && (!is_upload(input) || inputs.uploads() < MAX_UPLOAD_LINES)
}

#[tactic(auto, unfolding(crate::specs::Entries::with_input))]
fn with_input(draft: Draft, input: (Actor, InputLine)) -> Result<Draft, Stop>
    ensures { Gives result (with_input draft input) }
{
    if !has_room(&draft.inputs, &input) {
        return Err(Stop::Fault(ScriptFault::TooMany));
    }
    let mut inputs = draft.inputs;
    inputs.push(input)?;
    Ok(Draft { inputs, ..draft })
}

/// Appends the actor of a name.
fn push_actor(turns: &mut Vec<Actor>, name: &[u8]) -> Result<(), AllocError>
    ensures { OnOk result (turns.new.items ≡ turns.old.items ++ actors_more (actor_of name.now) []) }
{
    if let Some(actor) = actor_of(name) {
        turns.push(actor)?;
    }
    Ok(())
}

/// Appends the actors of names.
#[tactic(auto, using(crate::proofs::ActorLists::actors_behind))]
fn push_actors(turns: &mut Vec<Actor>, names: &[u8]) -> Result<(), AllocError>
    ensures { OnOk result (turns.new.items ≡ turns.old.items ++ actors_of (words_in names.now)) }
{
    match next_word(names) {
        Some((name, behind)) => {
            push_actor(turns, name)?;
            push_actors(turns, behind)
        }
        None => Ok(()),
    }
}

#[tactic(auto, unfolding(crate::specs::Entries::with_turns))]
fn with_turns(draft: Draft, names: &[u8]) -> Result<Draft, Stop>
    ensures { Gives result (with_turns draft (words_in names.now)) }
{
    let count = count_words(names);
    let mut turns = draft.turns.into_vec();
    if count > MAX_TURN_WORDS || turns.len() > MAX_TURN_WORDS - count {
        return Err(Stop::Fault(ScriptFault::TooMany));
    }
    push_actors(&mut turns, names)?;
    Ok(Draft {
        turns: Turns::from_vec(turns),
        ..draft
    })
}

fn after_landing(draft: Draft, line: &[u8]) -> Result<Draft, Stop>
    ensures { Gives result (after_landing draft (words_in line.now)) }
{
    let choice = number_in(3, 0, 4, line)?;
    let params = Params {
        tko_land: choice as u8,
        ..draft.params
    };
    Ok(with_params(draft, params))
}

fn after_return(draft: Draft, line: &[u8]) -> Result<Draft, Stop>
    ensures { Gives result (after_return draft (words_in line.now)) }
{
    let choice = number_in(3, 0, 2, line)?;
    let params = Params {
        rtl_type: choice as u8,
        ..draft.params
    };
    Ok(with_params(draft, params))
}

fn after_upload(alloc: Global, draft: Draft, line: &[u8]) -> Result<Draft, Stop>
    ensures { Gives result (after_upload draft (words_in line.now)) }
{
    let input = upload(alloc, draft.plans.as_slice(), word(3, line))?;
    with_input(draft, (Actor::Link(0), input))
}

fn after_meeting(actor: Actor, field: u8, draft: Draft, line: &[u8]) -> Result<Draft, Stop>
    requires above { 0 < field }
    requires below { field < 255 }
    ensures { Gives result (after_meeting actor field draft (words_in line.now)) }
{
    let input = meeting(field, line)?;
    with_input(draft, (actor, input))
}

/// What the lines up to this one state, of which this is an entry.
#[tactic(auto, unfolding(crate::specs::Entries::after_entry))]
pub(crate) fn after_entry(
    alloc: Global,
    draft: Draft,
    entry: Entry,
    line: &[u8],
) -> Result<Draft, Stop>
    ensures { Gives result (after_entry draft entry (words_in line.now)) }
{
    match entry {
        Entry::Landing => after_landing(draft, line),
        Entry::Return => after_return(draft, line),
        Entry::Boot => Ok(Draft {
            booted: true,
            ..draft
        }),
        Entry::Upload => after_upload(alloc, draft, line),
        Entry::LinkWait => with_input(draft, (Actor::Link(0), InputLine::Wait)),
        Entry::LinkMeet => after_meeting(Actor::Link(0), 4, draft, line),
        Entry::NavWait => with_input(draft, (Actor::Nav, InputLine::Wait)),
        Entry::NavMeet => after_meeting(Actor::Nav, 3, draft, line),
        Entry::Event(event) => with_input(draft, (Actor::Nav, InputLine::Vehicle(event))),
        Entry::Turns => with_turns(draft, behind_first(line)),
    }
}
