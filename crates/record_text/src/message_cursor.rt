//! A link's messages and their answers at the front of bytes.

ghost use Rattle.std.specs.Prelude.{◌≡◌};
ghost use Rattle.record_text.specs.MessageReading.{type_at, count_at, said_c_at, said_at, high_code_of, code_of, current_at, writes_at, answer_at};

use crate::cursor::{byte, number_u8, number_u16, skip};
use crate::messages::{ALL_PLANS, FENCE, MISSION, SAFE};
use crate::plan_cursor::read_item;
use crate::request_cursor::read_place_in_plan;
use mission_model::{AckCode, Answer, Said};

/// The number of a plan type, or of all of them.
#[tactic(auto, unfolding(crate::specs::MessageReading::type_at))]
fn read_type(bytes: &[u8]) -> (u8, &[u8])
    ensures value { result.0 ≡ (type_at bytes.now).0 }
    ensures rest { result.1.now ≡ (type_at bytes.now).1 }
{
    match byte(bytes, 0) {
        b'm' => (MISSION, skip(bytes, 7)),
        b'f' => (FENCE, skip(bytes, 5)),
        b's' => (SAFE, skip(bytes, 4)),
        _ => (ALL_PLANS, skip(bytes, 3)),
    }
}

/// A count.
#[tactic(auto, unfolding(crate::specs::MessageReading::count_at))]
fn read_count(bytes: &[u8]) -> (Said, &[u8])
    ensures value { result.0 ≡ (count_at bytes.now).0 }
    ensures rest { result.1.now ≡ (count_at bytes.now).1 }
{
    let (kind, rest) = read_type(bytes);
    let (count, rest) = number_u16(skip(rest, 1));
    (Said::Count { kind, count }, rest)
}

/// A count, a clear or a cancel.
#[tactic(auto, unfolding(crate::specs::MessageReading::said_c_at))]
fn read_said_c(bytes: &[u8]) -> (Said, &[u8])
    ensures value { result.0 ≡ (said_c_at bytes.now).0 }
    ensures rest { result.1.now ≡ (said_c_at bytes.now).1 }
{
    match byte(bytes, 1) {
        b'o' => read_count(skip(bytes, 6)),
        b'l' => {
            let (kind, rest) = read_type(skip(bytes, 6));
            (Said::ClearAll(kind), rest)
        }
        _ => (Said::Cancel, skip(bytes, 6)),
    }
}

/// A message.
#[tactic(auto, unfolding(crate::specs::MessageReading::said_at))]
pub(crate) fn read_said(bytes: &[u8]) -> (Said, &[u8])
    ensures value { result.0 ≡ (said_at bytes.now).0 }
    ensures rest { result.1.now ≡ (said_at bytes.now).1 }
{
    match byte(bytes, 0) {
        b'c' => read_said_c(bytes),
        b'i' => {
            let (seq, rest) = number_u16(skip(bytes, 5));
            (Said::Item(seq), rest)
        }
        b's' => {
            let (seq, rest) = number_u16(skip(bytes, 12));
            (Said::SetCurrent(seq), rest)
        }
        _ => (Said::Timeout, skip(bytes, 7)),
    }
}

/// A result from 8 on.
#[tactic(auto, unfolding(crate::specs::MessageReading::high_code_of))]
fn high_code(number: u8) -> AckCode
    ensures { result ≡ high_code_of number }
{
    match number {
        8 => AckCode::InvalidParam3,
        9 => AckCode::InvalidParam4,
        10 => AckCode::InvalidParam5X,
        11 => AckCode::InvalidParam6Y,
        12 => AckCode::InvalidParam7,
        13 => AckCode::InvalidSequence,
        14 => AckCode::Denied,
        _ => AckCode::OperationCancelled,
    }
}

/// The result of a number.
#[tactic(auto, unfolding(crate::specs::MessageReading::code_of))]
fn code(number: u8) -> AckCode
    ensures { result ≡ code_of number }
{
    match number {
        0 => AckCode::Accepted,
        1 => AckCode::Error,
        2 => AckCode::UnsupportedFrame,
        3 => AckCode::Unsupported,
        4 => AckCode::NoSpace,
        5 => AckCode::Invalid,
        6 => AckCode::InvalidParam1,
        7 => AckCode::InvalidParam2,
        _ => high_code(number),
    }
}

/// A set index, or a commit that was asked.
#[tactic(auto, unfolding(crate::specs::MessageReading::current_at))]
fn read_current(bytes: &[u8]) -> (Answer, &[u8])
    ensures value { result.0 ≡ (current_at bytes.now).0 }
    ensures rest { result.1.now ≡ (current_at bytes.now).1 }
{
    if byte(bytes, 1) == b'u' {
        let (seq, rest) = number_u16(skip(bytes, 8));
        return (Answer::CurrentIs(seq), rest);
    }
    let ((kind, id, count), rest) = read_place_in_plan(skip(bytes, 7));
    (Answer::Commits { kind, id, count }, rest)
}

/// A write that was asked.
#[tactic(auto, unfolding(crate::specs::MessageReading::writes_at))]
fn read_writes(bytes: &[u8]) -> (Answer, &[u8])
    ensures value { result.0 ≡ (writes_at bytes.now).0 }
    ensures rest { result.1.now ≡ (writes_at bytes.now).1 }
{
    let ((kind, id, seq), rest) = read_place_in_plan(bytes);
    let (item, rest) = read_item(skip(rest, 1));
    let answer = Answer::Writes {
        kind,
        id,
        seq,
        item,
    };
    (answer, rest)
}

/// An answer.
#[tactic(auto, unfolding(crate::specs::MessageReading::answer_at))]
pub(crate) fn read_answer(bytes: &[u8]) -> (Answer, &[u8])
    ensures value { result.0 ≡ (answer_at bytes.now).0 }
    ensures rest { result.1.now ≡ (answer_at bytes.now).1 }
{
    match byte(bytes, 0) {
        b'r' => {
            let (seq, rest) = number_u16(skip(bytes, 8));
            (Answer::RequestInt(seq), rest)
        }
        b'a' => {
            let (number, rest) = number_u8(skip(bytes, 4));
            (Answer::Ack(code(number)), rest)
        }
        b'c' => read_current(bytes),
        b'w' => read_writes(skip(bytes, 6)),
        _ => (Answer::Nothing, skip(bytes, 4)),
    }
}
