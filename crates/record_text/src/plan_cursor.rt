//! Plan types, heads, items and pairs at the front of bytes.

ghost use Rattle.std.specs.Prelude.{◌≡◌};
ghost use Rattle.mission_model.specs.CountsList.{pairs_of};
ghost use Rattle.record_text.specs.PlanReading.{kind_at, head_at, param_at, flag_at, place_at, params_at, item_at, begins_pair, pair_at, pairs_at};

use crate::cursor::{byte, is_digit_at, number_u16, number_u32, signed, skip};
use mission_model::limits::MAX_JUMPS;
use mission_model::{Counts, Item, Param, PlanHead, PlanType};

/// A plan type.
#[tactic(auto, unfolding(crate::specs::PlanReading::kind_at))]
pub(crate) fn read_kind(bytes: &[u8]) -> (PlanType, &[u8])
    ensures value { result.0 ≡ (kind_at bytes.now).0 }
    ensures rest { result.1.now ≡ (kind_at bytes.now).1 }
{
    match byte(bytes, 0) {
        b'm' => (PlanType::Mission, skip(bytes, 7)),
        b'f' => (PlanType::Fence, skip(bytes, 5)),
        _ => (PlanType::Safe, skip(bytes, 4)),
    }
}

/// A plan's head.
#[tactic(auto, unfolding(crate::specs::PlanReading::head_at))]
pub(crate) fn read_head(bytes: &[u8]) -> (PlanHead, &[u8])
    ensures value { result.0 ≡ (head_at bytes.now).0 }
    ensures rest { result.1.now ≡ (head_at bytes.now).1 }
{
    let (id, rest) = number_u32(bytes);
    let (count, rest) = number_u16(skip(rest, 1));
    (PlanHead { id, count }, rest)
}

/// A parameter.
#[tactic(auto, unfolding(crate::specs::PlanReading::param_at))]
fn read_param(bytes: &[u8]) -> (Param, &[u8])
    ensures value { result.0 ≡ (param_at bytes.now).0 }
    ensures rest { result.1.now ≡ (param_at bytes.now).1 }
{
    if byte(bytes, 0) == b'-' && !is_digit_at(bytes, 1) {
        return (Param::Unset, skip(bytes, 1));
    }
    let (thousandths, rest) = signed(bytes);
    (Param::Milli(thousandths), rest)
}

/// A flag.
#[tactic(auto, unfolding(crate::specs::PlanReading::flag_at))]
fn read_flag(bytes: &[u8]) -> (bool, &[u8])
    ensures value { result.0 ≡ (flag_at bytes.now).0 }
    ensures rest { result.1.now ≡ (flag_at bytes.now).1 }
{
    (byte(bytes, 0) == b'1', skip(bytes, 1))
}

/// A place, in the units of an item's.
#[tactic(auto, unfolding(crate::specs::PlanReading::place_at))]
pub(crate) fn read_place(bytes: &[u8]) -> ((i32, i32, i32), &[u8])
    ensures value { result.0 ≡ (place_at bytes.now).0 }
    ensures rest { result.1.now ≡ (place_at bytes.now).1 }
{
    let (x, rest) = signed(bytes);
    let (y, rest) = signed(skip(rest, 1));
    let (z, rest) = signed(skip(rest, 1));
    ((x, y, z), rest)
}

/// An item's parameters.
#[tactic(auto, unfolding(crate::specs::PlanReading::params_at))]
fn read_params(bytes: &[u8]) -> ((Param, Param, Param, Param), &[u8])
    ensures value { result.0 ≡ (params_at bytes.now).0 }
    ensures rest { result.1.now ≡ (params_at bytes.now).1 }
{
    let (p1, rest) = read_param(bytes);
    let (p2, rest) = read_param(skip(rest, 1));
    let (p3, rest) = read_param(skip(rest, 1));
    let (p4, rest) = read_param(skip(rest, 1));
    ((p1, p2, p3, p4), rest)
}

/// An item.
#[tactic(auto, unfolding(crate::specs::PlanReading::item_at))]
pub(crate) fn read_item(bytes: &[u8]) -> (Item, &[u8])
    ensures value { result.0 ≡ (item_at bytes.now).0 }
    ensures rest { result.1.now ≡ (item_at bytes.now).1 }
{
    let (frame, rest) = number_u16(bytes);
    let (command, rest) = number_u16(skip(rest, 1));
    let ((p1, p2, p3, p4), rest) = read_params(skip(rest, 1));
    let ((x, y, z), rest) = read_place(skip(rest, 1));
    let (auto, rest) = read_flag(skip(rest, 1));
    let item = Item {
        frame,
        command,
        p1,
        p2,
        p3,
        p4,
        x,
        y,
        z,
        auto,
    };
    (item, rest)
}

/// Whether a pair stands at the front.
fn is_pair(bytes: &[u8]) -> bool
    ensures { result ≡ begins_pair bytes.now }
{
    byte(bytes, 0) == b' ' && is_digit_at(bytes, 1)
}

/// A pair behind its space.
#[tactic(auto, unfolding(crate::specs::PlanReading::pair_at))]
fn read_pair(bytes: &[u8]) -> ((u16, u16), &[u8])
    ensures value { result.0 ≡ (pair_at bytes.now).0 }
    ensures rest { result.1.now ≡ (pair_at bytes.now).1 }
{
    let (seq, rest) = number_u16(skip(bytes, 1));
    let (used, rest) = number_u16(skip(rest, 1));
    ((seq, used), rest)
}

/// Pairs, as many as counts hold at most.
pub(crate) fn read_pairs(bytes: &[u8]) -> (Counts, &[u8])
    ensures value { pairs_of result.0 ≡ (pairs_at bytes.now).0 }
    ensures rest { result.1.now ≡ (pairs_at bytes.now).1 }
{
    let mut counts = Counts::new();
    let mut rest = bytes;
    for _ in 0..MAX_JUMPS {
        if !is_pair(rest) {
            return (counts, rest);
        }
        let ((seq, used), after) = read_pair(rest);
        counts.put(seq, used.max(1));
        rest = after;
    }
    (counts, rest)
}
