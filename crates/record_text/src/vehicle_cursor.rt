//! The vehicle's events, what the Navigator does at them, and a watcher's inputs and notes, at the front of bytes.

ghost use Rattle.std.specs.Prelude.{◌≡◌};
ghost use Rattle.record_text.specs.VehicleReading.{mode_at, spot_at, event_at, flown_at, seq_flown_at, target_at, taken_at, jump_at, hold_at, next_at, pending_at, safe_at, return_s_at, return_at, other_at, what_at, watch_input_at, note_at};

use crate::cursor::{byte, number_u8, number_u16, number_u32, signed, skip};
use crate::plan_cursor::{read_item, read_kind, read_place};
use mission_model::{Home, Item, Mode, NavWhat, Note, VehicleLine, WatchInput};

/// A mode.
#[tactic(auto, unfolding(crate::specs::VehicleReading::mode_at))]
fn read_mode(bytes: &[u8]) -> (Mode, &[u8])
    ensures value { result.0 ≡ (mode_at bytes.now).0 }
    ensures rest { result.1.now ≡ (mode_at bytes.now).1 }
{
    match byte(bytes, 0) {
        b'h' => (Mode::Hold, skip(bytes, 4)),
        b'm' => (Mode::Mission, skip(bytes, 7)),
        _ => (Mode::Return, skip(bytes, 6)),
    }
}

/// Two signed numbers.
#[tactic(auto, unfolding(crate::specs::VehicleReading::spot_at))]
fn read_spot(bytes: &[u8]) -> ((i32, i32), &[u8])
    ensures value { result.0 ≡ (spot_at bytes.now).0 }
    ensures rest { result.1.now ≡ (spot_at bytes.now).1 }
{
    let (x, rest) = signed(bytes);
    let (y, rest) = signed(skip(rest, 1));
    ((x, y), rest)
}

/// An event.
#[tactic(auto, unfolding(crate::specs::VehicleReading::event_at))]
pub(crate) fn read_event(bytes: &[u8]) -> (VehicleLine, &[u8])
    ensures value { result.0 ≡ (event_at bytes.now).0 }
    ensures rest { result.1.now ≡ (event_at bytes.now).1 }
{
    match byte(bytes, 0) {
        b't' => (VehicleLine::Tick, skip(bytes, 4)),
        b'g' => (VehicleLine::Go, skip(bytes, 2)),
        b'r' => (VehicleLine::Reached, skip(bytes, 7)),
        b'm' => {
            let (mode, rest) = read_mode(skip(bytes, 5));
            (VehicleLine::Mode(mode), rest)
        }
        _ => {
            let ((x, y), rest) = read_spot(skip(bytes, 9));
            (VehicleLine::Position { x, y }, rest)
        }
    }
}

/// The plans that are flown.
#[tactic(auto, unfolding(crate::specs::VehicleReading::flown_at))]
fn read_flown(bytes: &[u8]) -> ((u32, u32), &[u8])
    ensures value { result.0 ≡ (flown_at bytes.now).0 }
    ensures rest { result.1.now ≡ (flown_at bytes.now).1 }
{
    let (mission, rest) = number_u32(skip(bytes, 8));
    let (fence, rest) = number_u32(skip(rest, 7));
    ((mission, fence), rest)
}

/// A place in a mission and the plans that are flown.
#[tactic(auto, unfolding(crate::specs::VehicleReading::seq_flown_at))]
fn read_seq_flown(bytes: &[u8]) -> ((u16, u32, u32), &[u8])
    ensures value { result.0 ≡ (seq_flown_at bytes.now).0 }
    ensures rest { result.1.now ≡ (seq_flown_at bytes.now).1 }
{
    let (seq, rest) = number_u16(bytes);
    let ((mission, fence), rest) = read_flown(skip(rest, 1));
    ((seq, mission, fence), rest)
}

/// A target of a mission.
#[tactic(auto, unfolding(crate::specs::VehicleReading::target_at))]
fn read_target(bytes: &[u8]) -> ((u16, u32, u32, Item), &[u8])
    ensures value { result.0 ≡ (target_at bytes.now).0 }
    ensures rest { result.1.now ≡ (target_at bytes.now).1 }
{
    let ((seq, mission, fence), rest) = read_seq_flown(bytes);
    let (item, rest) = read_item(skip(rest, 1));
    ((seq, mission, fence, item), rest)
}

/// A jump that is taken.
#[tactic(auto, unfolding(crate::specs::VehicleReading::taken_at))]
fn read_taken(seq: u16, bytes: &[u8]) -> (NavWhat, &[u8])
    ensures value { result.0 ≡ (taken_at seq bytes.now).0 }
    ensures rest { result.1.now ≡ (taken_at seq bytes.now).1 }
{
    let (to, rest) = number_u16(skip(bytes, 4));
    let (used, rest) = number_u16(skip(rest, 6));
    let ((mission, fence), rest) = read_flown(skip(rest, 1));
    let what = NavWhat::Jump {
        seq,
        to,
        used,
        mission,
        fence,
    };
    (what, rest)
}

/// A jump.
#[tactic(auto, unfolding(crate::specs::VehicleReading::jump_at))]
fn read_jump(bytes: &[u8]) -> (NavWhat, &[u8])
    ensures value { result.0 ≡ (jump_at bytes.now).0 }
    ensures rest { result.1.now ≡ (jump_at bytes.now).1 }
{
    let (seq, rest) = number_u16(bytes);
    if byte(rest, 1) == b't' {
        return read_taken(seq, rest);
    }
    let ((mission, fence), rest) = read_flown(skip(rest, 7));
    let what = NavWhat::JumpSpent {
        seq,
        mission,
        fence,
    };
    (what, rest)
}

/// A hold.
#[tactic(auto, unfolding(crate::specs::VehicleReading::hold_at))]
fn read_hold(bytes: &[u8]) -> (NavWhat, &[u8])
    ensures value { result.0 ≡ (hold_at bytes.now).0 }
    ensures rest { result.1.now ≡ (hold_at bytes.now).1 }
{
    if byte(bytes, 0) == b'e' {
        return (NavWhat::HoldEmpty, skip(bytes, 5));
    }
    let (rule, rest) = number_u8(bytes);
    let ((seq, mission, fence), rest) = read_seq_flown(skip(rest, 1));
    let what = NavWhat::Hold {
        rule,
        seq,
        mission,
        fence,
    };
    (what, rest)
}

/// A new index, or the next place of a return.
#[tactic(auto, unfolding(crate::specs::VehicleReading::next_at))]
fn read_next(bytes: &[u8]) -> (NavWhat, &[u8])
    ensures value { result.0 ≡ (next_at bytes.now).0 }
    ensures rest { result.1.now ≡ (next_at bytes.now).1 }
{
    if byte(bytes, 0) == b'r' {
        return (NavWhat::NextReturn, skip(bytes, 6));
    }
    let (seq, rest) = number_u16(bytes);
    (NavWhat::Next(seq), rest)
}

/// An item that is not known yet.
#[tactic(auto, unfolding(crate::specs::VehicleReading::pending_at))]
fn read_pending(bytes: &[u8]) -> (NavWhat, &[u8])
    ensures value { result.0 ≡ (pending_at bytes.now).0 }
    ensures rest { result.1.now ≡ (pending_at bytes.now).1 }
{
    let (kind, rest) = read_kind(bytes);
    let (seq, rest) = number_u16(skip(rest, 1));
    (NavWhat::Pending { kind, seq }, rest)
}

/// A safe point that is returned to.
#[tactic(auto, unfolding(crate::specs::VehicleReading::safe_at))]
fn read_safe(bytes: &[u8]) -> (NavWhat, &[u8])
    ensures value { result.0 ≡ (safe_at bytes.now).0 }
    ensures rest { result.1.now ≡ (safe_at bytes.now).1 }
{
    let (seq, rest) = number_u16(bytes);
    let (safe, rest) = number_u32(skip(rest, 6));
    let (fence, rest) = number_u32(skip(rest, 7));
    let (item, rest) = read_item(skip(rest, 1));
    let what = NavWhat::ReturnSafe {
        seq,
        safe,
        fence,
        item,
    };
    (what, rest)
}

/// A return that skips a place, or one to a safe point.
#[tactic(auto, unfolding(crate::specs::VehicleReading::return_s_at))]
fn read_return_s(bytes: &[u8]) -> (NavWhat, &[u8])
    ensures value { result.0 ≡ (return_s_at bytes.now).0 }
    ensures rest { result.1.now ≡ (return_s_at bytes.now).1 }
{
    if byte(bytes, 1) == b'k' {
        let ((seq, mission, fence), rest) = read_seq_flown(skip(bytes, 5));
        let what = NavWhat::ReturnSkip {
            seq,
            mission,
            fence,
        };
        return (what, rest);
    }
    read_safe(skip(bytes, 5))
}

/// A step of the way home.
#[tactic(auto, unfolding(crate::specs::VehicleReading::return_at))]
fn read_return(bytes: &[u8]) -> (NavWhat, &[u8])
    ensures value { result.0 ≡ (return_at bytes.now).0 }
    ensures rest { result.1.now ≡ (return_at bytes.now).1 }
{
    match byte(bytes, 0) {
        b'l' => {
            let ((seq, mission, fence, item), rest) = read_target(skip(bytes, 4));
            let what = NavWhat::ReturnLeg {
                seq,
                mission,
                fence,
                item,
            };
            (what, rest)
        }
        b's' => read_return_s(bytes),
        b'h' => {
            let ((x, y, z), rest) = read_place(skip(bytes, 5));
            (NavWhat::ReturnHome(Home { x, y, z }), rest)
        }
        b'n' => (NavWhat::ReturnNone, skip(bytes, 4)),
        _ => (NavWhat::ReturnDone, skip(bytes, 4)),
    }
}

/// An entry that is no step of a mission or of the way home.
#[tactic(auto, unfolding(crate::specs::VehicleReading::other_at))]
fn read_other(bytes: &[u8]) -> (NavWhat, &[u8])
    ensures value { result.0 ≡ (other_at bytes.now).0 }
    ensures rest { result.1.now ≡ (other_at bytes.now).1 }
{
    match byte(bytes, 0) {
        b'p' => read_pending(skip(bytes, 8)),
        b'h' => read_hold(skip(bytes, 5)),
        b't' => (NavWhat::Taken, skip(bytes, 5)),
        b'n' => read_next(skip(bytes, 5)),
        _ => {
            if byte(bytes, 1) == b'd' {
                (NavWhat::Idle, skip(bytes, 4))
            } else {
                (NavWhat::Ignored, skip(bytes, 7))
            }
        }
    }
}

/// What the Navigator does.
#[tactic(auto, unfolding(crate::specs::VehicleReading::what_at))]
pub(crate) fn read_what(bytes: &[u8]) -> (NavWhat, &[u8])
    ensures value { result.0 ≡ (what_at bytes.now).0 }
    ensures rest { result.1.now ≡ (what_at bytes.now).1 }
{
    match byte(bytes, 0) {
        b'l' => {
            let ((seq, mission, fence, item), rest) = read_target(skip(bytes, 4));
            let what = NavWhat::Leg {
                seq,
                mission,
                fence,
                item,
            };
            (what, rest)
        }
        b'a' => {
            let ((seq, mission, fence, item), rest) = read_target(skip(bytes, 7));
            let what = NavWhat::Action {
                seq,
                mission,
                fence,
                item,
            };
            (what, rest)
        }
        b'j' => read_jump(skip(bytes, 5)),
        b'd' => {
            let ((mission, fence), rest) = read_flown(skip(bytes, 5));
            (NavWhat::Done { mission, fence }, rest)
        }
        b'r' => read_return(skip(bytes, 7)),
        _ => read_other(bytes),
    }
}

/// What a watcher is to do.
#[tactic(auto, unfolding(crate::specs::VehicleReading::watch_input_at))]
pub(crate) fn read_watch_input(bytes: &[u8]) -> (WatchInput, &[u8])
    ensures value { result.0 ≡ (watch_input_at bytes.now).0 }
    ensures rest { result.1.now ≡ (watch_input_at bytes.now).1 }
{
    let (code, rest) = number_u16(bytes);
    let ((a, b), rest) = read_spot(skip(rest, 1));
    (WatchInput { code, a, b }, rest)
}

/// What a watcher tells.
#[tactic(auto, unfolding(crate::specs::VehicleReading::note_at))]
pub(crate) fn read_note(bytes: &[u8]) -> (Note, &[u8])
    ensures value { result.0 ≡ (note_at bytes.now).0 }
    ensures rest { result.1.now ≡ (note_at bytes.now).1 }
{
    let (code, rest) = number_u16(bytes);
    let (a, rest) = number_u32(skip(rest, 1));
    let (b, rest) = number_u32(skip(rest, 1));
    let ((x, y), rest) = read_spot(skip(rest, 1));
    (Note { code, a, b, x, y }, rest)
}
