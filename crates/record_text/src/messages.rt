//! A link's messages and their answers, as text.

ghost use Rattle.std.specs.Prelude.{◌≡◌, ◌++◌, ◌↔◌, IsTrue, OnOk};
ghost use Rattle.record_text.specs.Messages.{IsTypeNumber, IsPrintableSaid, type_text, said_text, code_number, answer_text};

use crate::plans::push_item;
use crate::requests::push_place_in_plan;
use crate::text::{push_number, push_signed, push_word};
use mission_model::{AckCode, Answer, Said};
use std::alloc::AllocError;

/// MAV_MISSION_TYPE_MISSION.
pub const MISSION: u8 = 0;
/// MAV_MISSION_TYPE_FENCE.
pub const FENCE: u8 = 1;
/// MAV_MISSION_TYPE_RALLY.
pub const SAFE: u8 = 2;
/// MAV_MISSION_TYPE_ALL.
pub const ALL_PLANS: u8 = 255;

fn is_type_number(kind: u8) -> bool
    ensures { IsTrue result ↔ IsTypeNumber kind }
{
    kind == MISSION || kind == FENCE || kind == SAFE || kind == ALL_PLANS
}

pub(crate) fn is_printable_said(said: &Said) -> bool
    ensures { IsTrue result ↔ IsPrintableSaid said.now }
{
    match said {
        Said::Count { kind, .. } => is_type_number(*kind),
        Said::ClearAll(kind) => is_type_number(*kind),
        _ => true,
    }
}

fn push_type(out: &mut Vec<u8>, kind: u8) -> Result<(), AllocError>
    requires { IsTypeNumber kind }
    ensures { OnOk result (out.new.items ≡ out.old.items ++ type_text kind) }
{
    match kind {
        MISSION => push_word(out, b"mission"),
        FENCE => push_word(out, b"fence"),
        SAFE => push_word(out, b"safe"),
        ALL_PLANS => push_word(out, b"all"),
        _ => unreachable!(),
    }
}

pub(crate) fn push_said(out: &mut Vec<u8>, said: &Said) -> Result<(), AllocError>
    requires { IsPrintableSaid said.now }
    ensures { OnOk result (out.new.items ≡ out.old.items ++ said_text said.now) }
{
    match said {
        Said::Count { kind, count } => {
            push_word(out, b"count ")?;
            push_type(out, *kind)?;
            push_word(out, b" ")?;
            push_number(out, *count as u64)
        }
        Said::Item(seq) => {
            push_word(out, b"item ")?;
            push_number(out, *seq as u64)
        }
        Said::ClearAll(kind) => {
            push_word(out, b"clear ")?;
            push_type(out, *kind)
        }
        Said::SetCurrent(seq) => {
            push_word(out, b"set-current ")?;
            push_number(out, *seq as u64)
        }
        Said::Cancel => push_word(out, b"cancel"),
        Said::Timeout => push_word(out, b"timeout"),
    }
}

fn number_of(code: AckCode) -> u64
    ensures { result ≡ code_number code }
{
    code as u64
}

pub(crate) fn push_answer(out: &mut Vec<u8>, answer: &Answer) -> Result<(), AllocError>
    ensures { OnOk result (out.new.items ≡ out.old.items ++ answer_text answer.now) }
{
    match answer {
        Answer::RequestInt(seq) => {
            push_word(out, b"request ")?;
            push_number(out, *seq as u64)
        }
        Answer::Ack(code) => {
            push_word(out, b"ack ")?;
            push_number(out, number_of(*code))
        }
        Answer::CurrentIs(seq) => {
            push_word(out, b"current ")?;
            push_number(out, *seq as u64)
        }
        Answer::Writes {
            kind,
            id,
            seq,
            item,
        } => {
            push_word(out, b"write ")?;
            push_place_in_plan(out, *kind, *id, *seq)?;
            push_word(out, b" ")?;
            push_item(out, item)
        }
        Answer::Commits { kind, id, count } => {
            push_word(out, b"commit ")?;
            push_place_in_plan(out, *kind, *id, *count)
        }
        Answer::Nothing => push_word(out, b"none"),
    }
}
