//! A plan text read as items: its lines, its header and its rows, span by span.

ghost use Rattle.std.specs.Prelude.{◌≡◌, ◌≤◌, List, length, drop, All, true, false, IfOk, IfErr, MatchOption};
ghost use Rattle.nav_text.specs.Spans.{IsInside};
ghost use Rattle.mission_model.specs.declared.plan.Item.{Item};
ghost use Rattle.wpl_items.specs.Fields.{named};
ghost use Rattle.wpl_items.specs.Rows.{RowsAre};
ghost use Rattle.wpl_items.specs.Faults.{FirstRowFault, GivesItems};
ghost use Rattle.wpl_items.specs.Wpl.{Wpl, IsWplFault, WplLines, IsLinesFault, is_headed, without_blank_end};

use crate::fault::WplFault;
use crate::lines::{header_line, rows_before_end};
use crate::rows::read_row;
use mission_model::Item;
use mission_model::limits::MAX_PLAN_ROWS;
use nav_text::{MAX_TEXT_BYTES, Span, split_lines};
use std::alloc::Global;

/// The lines behind the header, without the blank ones at the end.
fn rows_behind_header<'a>(text: &[u8], lines: &'a [Span]) -> Option<&'a [Span]>
    requires { All (IsInside text.now) lines.now }
    ensures cases { MatchOption result (is_headed (named text.now lines.now) ≡ false) (λ rows. (is_headed (named text.now lines.now) ≡ true) × (named text.now rows.now ≡ without_blank_end (drop 1 (named text.now lines.now))) × All (IsInside text.now) rows.now) }
{
    if lines.is_empty() {
        return None;
    }
    let first = lines[0];
    if !header_line(&text[first.from as usize..first.to as usize]) {
        return None;
    }
    let rest = &lines[1..];
    let count = rows_before_end(text, rest);
    Some(&rest[..count])
}

/// Rows, the first of which is at place 0.
fn read_rows(alloc: Global, text: &[u8], rows: &[Span]) -> Result<Vec<Item>, WplFault>
    requires room { length text.now ≤ MAX_TEXT_BYTES }
    requires inside { All (IsInside text.now) rows.now }
    ensures limit { IfOk result (λ items. length items.items ≤ MAX_PLAN_ROWS) }
    ensures good { IfOk result (λ items. RowsAre 0 (named text.now rows.now) items.items) }
    ensures only { (items : List Item) → length items ≤ MAX_PLAN_ROWS → RowsAre 0 (named text.now rows.now) items → GivesItems result items }
    ensures bad { IfErr result (FirstRowFault 0 (named text.now rows.now)) }
{
    let mut items = Vec::new(alloc);
    for row in rows {
        let item = read_row(text, *row, items.len() as u32)?;
        items.push(item)?;
    }
    Ok(items)
}

/// Reads the lines of a plan text that stands within another text, as [`read_wpl`] does its own: the lines are those
/// that the spans name, and the first of them is line 1.
pub fn read_wpl_lines(alloc: Global, text: &[u8], lines: &[Span]) -> Result<Vec<Item>, WplFault>
    requires room { length text.now ≤ MAX_TEXT_BYTES }
    requires inside { All (IsInside text.now) lines.now }
    // What is read are the lines of a plan text of these items, and those of every plan text are read.
    ensures good { IfOk result (λ items. WplLines (named text.now lines.now) items.items) }
    ensures only { (items : List Item) → WplLines (named text.now lines.now) items → GivesItems result items }
    // Other lines are refused with their first fault.
    ensures fault { IfErr result (IsLinesFault (named text.now lines.now)) }
{
    match rows_behind_header(text, lines) {
        Some(rows) => read_rows(alloc, text, rows),
        None => Err(WplFault::Header),
    }
}

/// Reads a plan text: the header `QGC WPL 110`, then a row of twelve fields for each item, then
/// maybe blank lines. Blanks may stand behind the header, and fields are parted by spaces or tabs.
pub fn read_wpl(alloc: Global, text: &[u8]) -> Result<Vec<Item>, WplFault>
    requires { length text.now ≤ MAX_TEXT_BYTES }
    // What is read is a plan text of these items, and every plan text is read.
    ensures good { IfOk result (λ items. Wpl text.now items.items) }
    ensures only { (items : List Item) → Wpl text.now items → GivesItems result items }
    // Any other text is refused with its first fault.
    ensures fault { IfErr result (IsWplFault text.now) }
{
    let lines = split_lines(alloc, text)?;
    read_wpl_lines(alloc, text, &lines)
}
