//! Plans in a script: a line `plan ..`, and the text up to the next line `end`.

ghost use Rattle.std.specs.Prelude.{◌≡◌, ◌≤◌, ◌<◌, length, All, IfOk, IfErr, IfSome, MatchOption, MatchResult, None, Some, Ok, Err, position, map};
ghost use Rattle.std.specs.List.{list_all};
ghost use Rattle.nav_text.specs.Spans.{text_of, IsInside};
ghost use Rattle.run_script.specs.Lines.{word};
ghost use Rattle.run_script.specs.Plans.{is_name_byte, is_name, new_name, is_end, plan_lines, kept_items, PlanStated, IsPlanFault, NamedStated, IsNamedFault, ReadsLines, IsLinesStop};
ghost use Rattle.run_script.specs.Gathered.{Leads};

use crate::draft::Draft;
use crate::fault::{ScriptFault, Stop};
use crate::forms::plan_named;
use crate::words::Line;
use mission_model::limits::{MAX_NAME_BYTES, MAX_PLANS};
use mission_model::{Items, Name, NamedPlan, PlanType};
use nav_text::{MAX_TEXT_BYTES, Span, WordCursor};
use std::alloc::Global;
use wpl_items::{WplFault, drop_home, read_wpl_lines};

fn is_name_byte(byte: u8) -> bool
    ensures { result ≡ is_name_byte byte }
{
    byte.is_ascii_lowercase() || byte.is_ascii_digit()
}

fn are_name_bytes(name: &[u8]) -> bool
    ensures { result ≡ list_all is_name_byte name.now }
{
    name.iter().all(|byte| is_name_byte(*byte))
}

fn is_name(name: &[u8]) -> bool
    ensures { result ≡ is_name name.now }
{
    !name.is_empty() && name.len() <= MAX_NAME_BYTES && are_name_bytes(name)
}

/// Whether a name is new among these plans, and one more has room.
#[tactic(auto, unfolding(crate::specs::Plans::new_name))]
fn new_name(plans: &[NamedPlan], name: &[u8]) -> Result<(), ScriptFault>
    ensures { MatchResult result (λ _. new_name plans.now name.now ≡ Ok name.now) (λ fault. new_name plans.now name.now ≡ Err fault) }
{
    if !is_name(name) || plan_named(plans, name).is_some() {
        return Err(ScriptFault::Name);
    }
    if plans.len() >= MAX_PLANS {
        return Err(ScriptFault::TooMany);
    }
    Ok(())
}

/// Whether a line ends a plan: its only word is `end`.
pub(crate) fn is_end(text: &[u8], line: Span) -> bool
    requires { IsInside text.now line }
    ensures { result ≡ is_end (text_of text.now line) }
{
    let mut words = WordCursor::new(text, line);
    match words.next(text) {
        Some(word) => {
            if &text[word.from as usize..word.to as usize] != b"end".as_slice() {
                return false;
            }
            match words.next(text) {
                Some(_) => false,
                None => true,
            }
        }
        None => false,
    }
}

/// The place of the first line that ends a plan.
fn end_among(text: &[u8], lines: &[Span]) -> Option<usize>
    requires { All (IsInside text.now) lines.now }
    ensures place { result ≡ position (λ line. is_end (text_of text.now line)) lines.now }
    ensures within { IfSome result (λ place. place < length lines.now) }
{
    for (place, line) in lines.iter().enumerate() {
        if is_end(text, *line) {
            return Some(place);
        }
    }
    None
}

/// The lines of a plan that one of these lines ends.
#[tactic(auto, unfolding(crate::specs::Plans::plan_lines))]
fn plan_lines<'a>(text: &[u8], lines: &'a [Span]) -> Option<&'a [Span]>
    requires { All (IsInside text.now) lines.now }
    ensures lines { MatchOption result (plan_lines text.now lines.now ≡ None) (λ plan. plan_lines text.now lines.now ≡ Some (map (text_of text.now) plan.now)) }
    ensures inside { IfSome result (λ plan. All (IsInside text.now) plan.now) }
{
    let place = end_among(text, lines)?;
    Some(&lines[..place])
}

/// The items of a plan's lines.
fn read_items(alloc: Global, text: &[u8], lines: &[Span]) -> Result<Items, Stop>
    requires room { length text.now ≤ MAX_TEXT_BYTES }
    requires inside { All (IsInside text.now) lines.now }
    ensures good { IfOk result (λ items. ReadsLines (map (text_of text.now) lines.now) items) }
    ensures bad { IfErr result (IsLinesStop (map (text_of text.now) lines.now)) }
{
    match read_wpl_lines(alloc, text, lines) {
        Ok(items) => Ok(Items::from_vec(items)),
        Err(WplFault::Memory(source)) => Err(Stop::Memory(source)),
        Err(fault) => Err(Stop::Fault(ScriptFault::Plan(fault))),
    }
}

/// The items without the home, if the first row is the home.
fn kept_items(home_first: bool, items: Items) -> Items
    ensures { result ≡ kept_items home_first items }
{
    if !home_first {
        return items;
    }
    let mut rows = items.into_vec();
    drop_home(&mut rows);
    Items::from_vec(rows)
}

/// The plan of these lines.
fn fill(
    draft: &mut Draft,
    alloc: Global,
    name: &[u8],
    kind: PlanType,
    home_first: bool,
    text: &[u8],
    lines: &[Span],
) -> Result<(), Stop>
    requires room { length text.now ≤ MAX_TEXT_BYTES }
    requires inside { All (IsInside text.now) lines.now }
    ensures { Leads (PlanStated home_first kind name.now (Some (map (text_of text.now) lines.now))) (IsPlanFault (Some (map (text_of text.now) lines.now))) draft.old result draft.new }
{
    let items = kept_items(home_first, read_items(alloc, text, lines)?);
    let name = Name::from_vec(Vec::from_slice(alloc, name)?);
    draft.add_plan(NamedPlan { name, kind, items })
}

/// A line `plan ..`, with these lines behind it.
pub(crate) fn take_plan(
    draft: &mut Draft,
    alloc: Global,
    text: &[u8],
    behind: &[Span],
    kind: PlanType,
    home_first: bool,
    name: &[u8],
) -> Result<(), Stop>
    requires inside { All (IsInside text.now) behind.now }
    requires room { length text.now ≤ MAX_TEXT_BYTES }
    ensures { Leads (NamedStated home_first kind (new_name draft.old.plans name.now) (plan_lines text.now behind.now)) (IsNamedFault (new_name draft.old.plans name.now) (plan_lines text.now behind.now)) draft.old result draft.new }
{
    match new_name(draft.plans(), name) {
        Ok(()) => {}
        Err(fault) => return Err(Stop::Fault(fault)),
    }
    match plan_lines(text, behind) {
        Some(plan) => fill(draft, alloc, name, kind, home_first, text, plan),
        None => {
            draft.leave_open();
            Ok(())
        }
    }
}
