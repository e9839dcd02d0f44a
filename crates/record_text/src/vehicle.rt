//! The vehicle's events and what the Navigator does at them, as text.

ghost use Rattle.std.specs.Prelude.{◌≡◌, ◌++◌, OnOk};
ghost use Rattle.record_text.specs.Vehicle.{mode_text, event_text, flown_text, at_text, target_text, taken_text, safe_text, what_text, IsJumpEntry, IsMissionEntry, IsReturnEntry};

use crate::plans::{push_item, push_kind, push_place};
use crate::text::{push_number, push_signed, push_word};
use mission_model::{Item, Mode, NavWhat, VehicleLine};
use std::alloc::AllocError;

fn push_mode(out: &mut Vec<u8>, mode: Mode) -> Result<(), AllocError>
    ensures { OnOk result (out.new.items ≡ out.old.items ++ mode_text mode) }
{
    match mode {
        Mode::Hold => push_word(out, b"hold"),
        Mode::Mission => push_word(out, b"mission"),
        Mode::Return => push_word(out, b"return"),
    }
}

pub(crate) fn push_event(out: &mut Vec<u8>, event: &VehicleLine) -> Result<(), AllocError>
    ensures { OnOk result (out.new.items ≡ out.old.items ++ event_text event.now) }
{
    match event {
        VehicleLine::Tick => push_word(out, b"tick"),
        VehicleLine::Go => push_word(out, b"go"),
        VehicleLine::Reached => push_word(out, b"reached"),
        VehicleLine::Mode(mode) => {
            push_word(out, b"mode ")?;
            push_mode(out, *mode)
        }
        VehicleLine::Position { x, y } => {
            push_word(out, b"position ")?;
            push_signed(out, x)?;
            push_word(out, b" ")?;
            push_signed(out, y)
        }
    }
}

fn push_flown(out: &mut Vec<u8>, mission: u32, fence: u32) -> Result<(), AllocError>
    ensures { OnOk result (out.new.items ≡ out.old.items ++ flown_text mission fence) }
{
    push_word(out, b"mission ")?;
    push_number(out, mission as u64)?;
    push_word(out, b" fence ")?;
    push_number(out, fence as u64)
}

fn push_at(out: &mut Vec<u8>, seq: u16, mission: u32, fence: u32) -> Result<(), AllocError>
    ensures { OnOk result (out.new.items ≡ out.old.items ++ at_text seq mission fence) }
{
    push_number(out, seq as u64)?;
    push_word(out, b" ")?;
    push_flown(out, mission, fence)
}

fn push_target(
    out: &mut Vec<u8>,
    seq: u16,
    mission: u32,
    fence: u32,
    item: &Item,
) -> Result<(), AllocError>
    ensures { OnOk result (out.new.items ≡ out.old.items ++ target_text seq mission fence item.now) }
{
    push_at(out, seq, mission, fence)?;
    push_word(out, b" ")?;
    push_item(out, item)
}

fn push_taken(out: &mut Vec<u8>, seq: u16, to: u16, used: u16) -> Result<(), AllocError>
    ensures { OnOk result (out.new.items ≡ out.old.items ++ taken_text seq to used) }
{
    push_number(out, seq as u64)?;
    push_word(out, b" to ")?;
    push_number(out, to as u64)?;
    push_word(out, b" used ")?;
    push_number(out, used as u64)
}

fn push_safe(
    out: &mut Vec<u8>,
    seq: u16,
    safe: u32,
    fence: u32,
    item: &Item,
) -> Result<(), AllocError>
    ensures { OnOk result (out.new.items ≡ out.old.items ++ safe_text seq safe fence item.now) }
{
    push_number(out, seq as u64)?;
    push_word(out, b" safe ")?;
    push_number(out, safe as u64)?;
    push_word(out, b" fence ")?;
    push_number(out, fence as u64)?;
    push_word(out, b" ")?;
    push_item(out, item)
}

fn push_jump(out: &mut Vec<u8>, what: &NavWhat) -> Result<(), AllocError>
    requires { IsJumpEntry what.now }
    ensures { OnOk result (out.new.items ≡ out.old.items ++ what_text what.now) }
{
    match what {
        NavWhat::Jump {
            seq,
            to,
            used,
            mission,
            fence,
        } => {
            push_word(out, b"jump ")?;
            push_taken(out, *seq, *to, *used)?;
            push_word(out, b" ")?;
            push_flown(out, *mission, *fence)
        }
        NavWhat::JumpSpent {
            seq,
            mission,
            fence,
        } => {
            push_word(out, b"jump ")?;
            push_number(out, *seq as u64)?;
            push_word(out, b" spent ")?;
            push_flown(out, *mission, *fence)
        }
        _ => unreachable!(),
    }
}

fn push_mission(out: &mut Vec<u8>, what: &NavWhat) -> Result<(), AllocError>
    requires { IsMissionEntry what.now }
    ensures { OnOk result (out.new.items ≡ out.old.items ++ what_text what.now) }
{
    match what {
        NavWhat::Leg {
            seq,
            mission,
            fence,
            item,
        } => {
            push_word(out, b"leg ")?;
            push_target(out, *seq, *mission, *fence, item)
        }
        NavWhat::Action {
            seq,
            mission,
            fence,
            item,
        } => {
            push_word(out, b"action ")?;
            push_target(out, *seq, *mission, *fence, item)
        }
        NavWhat::Jump { .. } | NavWhat::JumpSpent { .. } => push_jump(out, what),
        NavWhat::Done { mission, fence } => {
            push_word(out, b"done ")?;
            push_flown(out, *mission, *fence)
        }
        _ => unreachable!(),
    }
}

fn push_return(out: &mut Vec<u8>, what: &NavWhat) -> Result<(), AllocError>
    requires { IsReturnEntry what.now }
    ensures { OnOk result (out.new.items ≡ out.old.items ++ what_text what.now) }
{
    match what {
        NavWhat::ReturnLeg {
            seq,
            mission,
            fence,
            item,
        } => {
            push_word(out, b"return leg ")?;
            push_target(out, *seq, *mission, *fence, item)
        }
        NavWhat::ReturnSkip {
            seq,
            mission,
            fence,
        } => {
            push_word(out, b"return skip ")?;
            push_at(out, *seq, *mission, *fence)
        }
        NavWhat::ReturnHome(home) => {
            push_word(out, b"return home ")?;
            push_place(out, &home.x, &home.y, &home.z)
        }
        NavWhat::ReturnSafe {
            seq,
            safe,
            fence,
            item,
        } => {
            push_word(out, b"return safe ")?;
            push_safe(out, *seq, *safe, *fence, item)
        }
        NavWhat::ReturnNone => push_word(out, b"return none"),
        NavWhat::ReturnDone => push_word(out, b"return done"),
        _ => unreachable!(),
    }
}

pub(crate) fn push_what(out: &mut Vec<u8>, what: &NavWhat) -> Result<(), AllocError>
    ensures { OnOk result (out.new.items ≡ out.old.items ++ what_text what.now) }
{
    match what {
        NavWhat::Leg { .. }
        | NavWhat::Action { .. }
        | NavWhat::Jump { .. }
        | NavWhat::JumpSpent { .. }
        | NavWhat::Done { .. } => push_mission(out, what),
        NavWhat::Pending { kind, seq } => {
            push_word(out, b"pending ")?;
            push_kind(out, *kind)?;
            push_word(out, b" ")?;
            push_number(out, *seq as u64)
        }
        NavWhat::Hold {
            rule,
            seq,
            mission,
            fence,
        } => {
            push_word(out, b"hold ")?;
            push_number(out, *rule as u64)?;
            push_word(out, b" ")?;
            push_at(out, *seq, *mission, *fence)
        }
        NavWhat::HoldEmpty => push_word(out, b"hold empty"),
        NavWhat::Idle => push_word(out, b"idle"),
        NavWhat::Taken => push_word(out, b"taken"),
        NavWhat::Next(seq) => {
            push_word(out, b"next ")?;
            push_number(out, *seq as u64)
        }
        NavWhat::NextReturn => push_word(out, b"next return"),
        NavWhat::Ignored => push_word(out, b"ignored"),
        _ => push_return(out, what),
    }
}
