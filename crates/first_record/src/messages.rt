//! A link's messages and their answers, as text.

ghost use Rattle.std.specs.Prelude.{◌≡◌, ◌++◌, ◌↔◌, IsTrue, OnOk};
ghost use Rattle.first_record.specs.Messages.{IsTypeNumber, IsPrintableSaid, type_text, said_text, code_number, answer_text};

use crate::plans::push_item;
use crate::requests::push_place_in_plan;
use crate::text::Text;
use first_model::{AckCode, Answer, Said};
use std::alloc::AllocError;

/// MAV_MISSION_TYPE_MISSION.
pub const MISSION: u8 = 0;
/// MAV_MISSION_TYPE_FENCE.
pub const FENCE: u8 = 1;
/// MAV_MISSION_TYPE_RALLY.
pub const SAFE: u8 = 2;
/// MAV_MISSION_TYPE_ALL.
pub const ALL_PLANS: u8 = 255;

fn is_type_number(kind: u8) -> bool
    ensures { IsTrue result ↔ IsTypeNumber kind }
{
    kind == MISSION || kind == FENCE || kind == SAFE || kind == ALL_PLANS
}

pub(crate) fn is_printable_said(said: &Said) -> bool
    ensures { IsTrue result ↔ IsPrintableSaid said.now }
{
    match said {
        Said::Count { kind, .. } => is_type_number(*kind),
        Said::ClearAll(kind) => is_type_number(*kind),
        _ => true,
    }
}

fn push_type(out: &mut Text, kind: u8) -> Result<(), AllocError>
    requires { IsTypeNumber kind }
    ensures { OnOk result (out.new ≡ out.old ++ type_text kind) }
{
    match kind {
        MISSION => out.push(b"mission"),
        FENCE => out.push(b"fence"),
        SAFE => out.push(b"safe"),
        ALL_PLANS => out.push(b"all"),
        _ => unreachable!(),
    }
}

pub(crate) fn push_said(out: &mut Text, said: &Said) -> Result<(), AllocError>
    requires { IsPrintableSaid said.now }
    ensures { OnOk result (out.new ≡ out.old ++ said_text said.now) }
{
    match said {
        Said::Count { kind, count } => {
            out.push(b"count ")?;
            push_type(out, *kind)?;
            out.push(b" ")?;
            out.push_number(*count as u64)
        }
        Said::Item(seq) => {
            out.push(b"item ")?;
            out.push_number(*seq as u64)
        }
        Said::ClearAll(kind) => {
            out.push(b"clear ")?;
            push_type(out, *kind)
        }
        Said::SetCurrent(seq) => {
            out.push(b"set-current ")?;
            out.push_number(*seq as u64)
        }
        Said::Cancel => out.push(b"cancel"),
        Said::Timeout => out.push(b"timeout"),
    }
}

fn number_of(code: AckCode) -> u64
    ensures { result ≡ code_number code }
{
    code as u64
}

pub(crate) fn push_answer(out: &mut Text, answer: &Answer) -> Result<(), AllocError>
    ensures { OnOk result (out.new ≡ out.old ++ answer_text answer.now) }
{
    match answer {
        Answer::RequestInt(seq) => {
            out.push(b"request ")?;
            out.push_number(*seq as u64)
        }
        Answer::Ack(code) => {
            out.push(b"ack ")?;
            out.push_number(number_of(*code))
        }
        Answer::CurrentIs(seq) => {
            out.push(b"current ")?;
            out.push_number(*seq as u64)
        }
        Answer::Writes {
            kind,
            id,
            seq,
            item,
        } => {
            out.push(b"write ")?;
            push_place_in_plan(out, *kind, *id, *seq)?;
            out.push(b" ")?;
            push_item(out, item)
        }
        Answer::Commits { kind, id, count } => {
            out.push(b"commit ")?;
            push_place_in_plan(out, *kind, *id, *count)
        }
        Answer::Nothing => out.push(b"none"),
    }
}
