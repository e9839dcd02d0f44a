//! Clients, what they ask of the worker and what it replies, at the front of bytes.

ghost use Rattle.std.specs.Prelude.{◌≡◌};
ghost use Rattle.record_text.specs.RequestReading.{client_at, place_in_plan_at, asked_at, stale_at, reply_at};

use crate::cursor::{byte, number, number_u8, number_u16, number_u32, skip};
use crate::mark_cursor::read_mark;
use crate::plan_cursor::{read_item, read_kind};
use mission_model::{Asked, Client, PlanType, Reply};

/// A client.
#[tactic(auto, unfolding(crate::specs::RequestReading::client_at))]
pub(crate) fn read_client(bytes: &[u8]) -> (Client, &[u8])
    ensures value { result.0 ≡ (client_at bytes.now).0 }
    ensures rest { result.1.now ≡ (client_at bytes.now).1 }
{
    match byte(bytes, 0) {
        b'n' => (Client::Nav, skip(bytes, 3)),
        b'l' => {
            let (link, rest) = number_u8(skip(bytes, 5));
            (Client::Link(link), rest)
        }
        _ => {
            let (watch, rest) = number_u8(skip(bytes, 6));
            (Client::Watch(watch), rest)
        }
    }
}

/// A place in a plan, or its number of items.
#[tactic(auto, unfolding(crate::specs::RequestReading::place_in_plan_at))]
pub(crate) fn read_place_in_plan(bytes: &[u8]) -> ((PlanType, u32, u16), &[u8])
    ensures value { result.0 ≡ (place_in_plan_at bytes.now).0 }
    ensures rest { result.1.now ≡ (place_in_plan_at bytes.now).1 }
{
    let (kind, rest) = read_kind(bytes);
    let (id, rest) = number_u32(skip(rest, 1));
    let (number, rest) = number_u16(skip(rest, 1));
    ((kind, id, number), rest)
}

/// A request.
#[tactic(auto, unfolding(crate::specs::RequestReading::asked_at))]
pub(crate) fn read_asked(bytes: &[u8]) -> (Asked, &[u8])
    ensures value { result.0 ≡ (asked_at bytes.now).0 }
    ensures rest { result.1.now ≡ (asked_at bytes.now).1 }
{
    match byte(bytes, 0) {
        b'r' => {
            let ((kind, id, seq), rest) = read_place_in_plan(skip(bytes, 5));
            (Asked::Read { kind, id, seq }, rest)
        }
        b'w' => {
            let ((kind, id, seq), rest) = read_place_in_plan(skip(bytes, 6));
            (Asked::Write { kind, id, seq }, rest)
        }
        b'c' => {
            let ((kind, id, count), rest) = read_place_in_plan(skip(bytes, 7));
            (Asked::Commit { kind, id, count }, rest)
        }
        _ => {
            let (mark, rest) = read_mark(skip(bytes, 5));
            (Asked::SetMark(mark), rest)
        }
    }
}

/// A reply of a number.
#[tactic(auto, unfolding(crate::specs::RequestReading::stale_at))]
fn read_stale(bytes: &[u8]) -> (Reply, &[u8])
    ensures value { result.0 ≡ (stale_at bytes.now).0 }
    ensures rest { result.1.now ≡ (stale_at bytes.now).1 }
{
    if byte(bytes, 1) == b't' {
        let (id, rest) = number_u32(skip(bytes, 6));
        return (Reply::Stale(id), rest);
    }
    let (generation, rest) = number(skip(bytes, 6));
    (Reply::Spent(generation), rest)
}

/// A reply.
#[tactic(auto, unfolding(crate::specs::RequestReading::reply_at))]
pub(crate) fn read_reply(bytes: &[u8]) -> (Reply, &[u8])
    ensures value { result.0 ≡ (reply_at bytes.now).0 }
    ensures rest { result.1.now ≡ (reply_at bytes.now).1 }
{
    match byte(bytes, 0) {
        b'i' => {
            let (item, rest) = read_item(skip(bytes, 5));
            (Reply::Item(item), rest)
        }
        b's' => read_stale(bytes),
        b'd' => (Reply::Done, skip(bytes, 4)),
        b'f' => (Reply::DiskFailed, skip(bytes, 6)),
        _ => (Reply::PowerOff, skip(bytes, 3)),
    }
}
