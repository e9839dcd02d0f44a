//! Plans in a script: a line `plan ..`, and the text up to the next line `end`.

ghost use Rattle.std.specs.Prelude.{◌≡◌, ◌≤◌, ◌↔◌, length, All, IsTrue, IfOk, IfErr, IfSome, MatchOption, None, Some, position, ◌<◌};
ghost use Rattle.std.specs.List.{list_all};
ghost use Rattle.first_text.specs.Spans.{text_of, IsInside};
ghost use Rattle.first_text.specs.Words.{words_in};
ghost use Rattle.first_wpl.specs.Wpl.{Wpl};
ghost use Rattle.first_script.specs.Reads.{Gives, Answers, IsMemory};
ghost use Rattle.first_script.specs.Plain.{IsWaypoint, IsPlain};
ghost use Rattle.first_script.specs.Plans.{is_name_byte, is_name, new_name, is_end, plan_text, kept_items, with_plan, Fills, IsTextFaultOf};

use crate::bounds::MAX_SCRIPT_BYTES;
use crate::draft::{Draft, Flags};
use crate::entries::plan_named;
use crate::fault::{ScriptFault, Stop};
use crate::words::{bytes_of, says};
use first_model::command::{FRAME_GLOBAL, NAV_WAYPOINT};
use first_model::limits::{MAX_NAME_BYTES, MAX_PLANS};
use first_model::{Item, Items, Name, NamedPlan, PlanType, Plans, check_plan};
use first_text::Span;
use first_wpl::{WplFault, drop_home, read_wpl};
use std::alloc::Global;

fn is_name_byte(byte: u8) -> bool
    ensures { result ≡ is_name_byte byte }
{
    byte.is_ascii_lowercase() || byte.is_ascii_digit()
}

fn are_name_bytes(name: &[u8]) -> bool
    ensures { result ≡ list_all is_name_byte name.now }
{
    name.iter().all(|byte| is_name_byte(*byte))
}

fn is_name(name: &[u8]) -> bool
    ensures { result ≡ is_name name.now }
{
    !name.is_empty() && name.len() <= MAX_NAME_BYTES && are_name_bytes(name)
}

/// The name of a plan that is new among these.
#[tactic(auto, unfolding(crate::specs::Plans::new_name))]
pub(crate) fn new_name(alloc: Global, plans: &[NamedPlan], name: &[u8]) -> Result<Name, Stop>
    ensures { Gives result (new_name plans.now name.now) }
{
    if !is_name(name) || plan_named(plans, name).is_some() {
        return Err(Stop::Fault(ScriptFault::Name));
    }
    if plans.len() >= MAX_PLANS {
        return Err(Stop::Fault(ScriptFault::TooMany));
    }
    Ok(Name::from_vec(Vec::from_slice(alloc, name)?))
}

/// Whether a line ends a plan.
fn is_end(line: &[u8]) -> bool
    ensures { result ≡ is_end line.now }
{
    says(line, b"end")
}

/// The place of the first line that ends a plan.
fn end_among(text: &[u8], lines: &[Span]) -> Option<usize>
    requires { All (IsInside text.now) lines.now }
    ensures place { result ≡ position (λ line. is_end (text_of text.now line)) lines.now }
    ensures within { IfSome result (λ place. place < length lines.now) }
{
    for (place, line) in lines.iter().enumerate() {
        if is_end(bytes_of(text, *line)) {
            return Some(place);
        }
    }
    None
}

/// The text of a plan that one of the lines ends.
#[tactic(auto, unfolding(crate::specs::Plans::plan_text))]
pub(crate) fn plan_text<'a>(text: &'a [u8], lines: &[Span]) -> Option<&'a [u8]>
    requires { All (IsInside text.now) lines.now }
    ensures text { MatchOption result (plan_text text.now lines.now ≡ None) (λ plan. plan_text text.now lines.now ≡ Some plan.now) }
    ensures short { IfSome result (λ plan. length plan.now ≤ length text.now) }
{
    let place = end_among(text, lines)?;
    let to = lines[place].from as usize;
    let from = (lines[0].from as usize).min(to);
    Some(&text[from..to])
}

fn is_waypoint(item: &Item) -> bool
    ensures { IsTrue result ↔ IsWaypoint item.now }
{
    item.frame == FRAME_GLOBAL && item.command == NAV_WAYPOINT
}

fn are_waypoints(items: &[Item]) -> bool
    ensures { IsTrue result ↔ All IsWaypoint items.now }
{
    items.iter().all(|item| is_waypoint(item))
}

/// Whether a plan is plain.
fn is_plain(kind: PlanType, items: &[Item]) -> bool
    ensures { IsTrue result ↔ IsPlain kind items.now }
{
    kind == PlanType::Mission
        && !items.is_empty()
        && are_waypoints(items)
        && check_plan(kind, items).is_ok()
}

/// The items of a plan's text.
fn read_items(alloc: Global, text: &[u8]) -> Result<Items, Stop>
    requires { length text.now ≤ MAX_SCRIPT_BYTES }
    ensures { Answers result (Wpl text.now) (IsTextFaultOf text.now) }
{
    match read_wpl(alloc, text) {
        Ok(items) => Ok(Items::from_vec(items)),
        Err(WplFault::Memory(source)) => Err(Stop::Memory(source)),
        Err(fault) => Err(Stop::Fault(ScriptFault::Plan(fault))),
    }
}

/// The items without the home, if the first row is the home.
fn kept_items(home_first: bool, items: Items) -> Items
    ensures { result ≡ kept_items home_first items }
{
    if !home_first {
        return items;
    }
    let mut rows = items.into_vec();
    drop_home(&mut rows);
    Items::from_vec(rows)
}

/// The draft with one more plan.
fn with_plan(draft: Draft, plan: NamedPlan, plain: bool) -> Result<Draft, Stop>
    ensures next { IfOk result (λ next. next ≡ with_plan draft plan.name plan.kind plan.items plain) }
    ensures memory { IfErr result IsMemory }
{
    let mut plans = draft.plans.into_vec();
    plans.push(plan)?;
    let mut flags = draft.plain.into_vec();
    flags.push(plain)?;
    Ok(Draft {
        plans: Plans::from_vec(plans),
        plain: Flags::from_vec(flags),
        ..draft
    })
}

/// The draft behind the first line of a plan of this text.
pub(crate) fn fill(
    alloc: Global,
    draft: Draft,
    name: Name,
    kind: PlanType,
    home_first: bool,
    text: &[u8],
) -> Result<Draft, Stop>
    requires { length text.now ≤ MAX_SCRIPT_BYTES }
    ensures { Answers result (Fills draft name kind home_first (Some text.now)) (IsTextFaultOf text.now) }
{
    let items = kept_items(home_first, read_items(alloc, text)?);
    let plain = is_plain(kind, items.as_slice());
    with_plan(draft, NamedPlan { name, kind, items }, plain)
}
