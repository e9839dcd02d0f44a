//! The vehicle's events and what the Navigator does at them, as text.

ghost use Rattle.std.specs.Prelude.{◌≡◌, ◌++◌, OnOk};
ghost use Rattle.first_record.specs.Vehicle.{mode_text, event_text, flown_text, at_text, target_text, taken_text, safe_text, what_text, IsJumpEntry, IsMissionEntry, IsReturnEntry};

use crate::plans::{push_item, push_kind, push_place};
use crate::text::Text;
use first_model::{Item, Mode, NavWhat, VehicleLine};
use std::alloc::AllocError;

fn push_mode(out: &mut Text, mode: Mode) -> Result<(), AllocError>
    ensures { OnOk result (out.new ≡ out.old ++ mode_text mode) }
{
    match mode {
        Mode::Hold => out.push(b"hold"),
        Mode::Mission => out.push(b"mission"),
        Mode::Return => out.push(b"return"),
    }
}

pub(crate) fn push_event(out: &mut Text, event: &VehicleLine) -> Result<(), AllocError>
    ensures { OnOk result (out.new ≡ out.old ++ event_text event.now) }
{
    match event {
        VehicleLine::Tick => out.push(b"tick"),
        VehicleLine::Go => out.push(b"go"),
        VehicleLine::Reached => out.push(b"reached"),
        VehicleLine::Mode(mode) => {
            out.push(b"mode ")?;
            push_mode(out, *mode)
        }
        VehicleLine::Position { x, y } => {
            out.push(b"position ")?;
            out.push_signed(x)?;
            out.push(b" ")?;
            out.push_signed(y)
        }
    }
}

fn push_flown(out: &mut Text, mission: u32, fence: u32) -> Result<(), AllocError>
    ensures { OnOk result (out.new ≡ out.old ++ flown_text mission fence) }
{
    out.push(b"mission ")?;
    out.push_number(mission as u64)?;
    out.push(b" fence ")?;
    out.push_number(fence as u64)
}

fn push_at(out: &mut Text, seq: u16, mission: u32, fence: u32) -> Result<(), AllocError>
    ensures { OnOk result (out.new ≡ out.old ++ at_text seq mission fence) }
{
    out.push_number(seq as u64)?;
    out.push(b" ")?;
    push_flown(out, mission, fence)
}

fn push_target(
    out: &mut Text,
    seq: u16,
    mission: u32,
    fence: u32,
    item: &Item,
) -> Result<(), AllocError>
    ensures { OnOk result (out.new ≡ out.old ++ target_text seq mission fence item.now) }
{
    push_at(out, seq, mission, fence)?;
    out.push(b" ")?;
    push_item(out, item)
}

fn push_taken(out: &mut Text, seq: u16, to: u16, used: u16) -> Result<(), AllocError>
    ensures { OnOk result (out.new ≡ out.old ++ taken_text seq to used) }
{
    out.push_number(seq as u64)?;
    out.push(b" to ")?;
    out.push_number(to as u64)?;
    out.push(b" used ")?;
    out.push_number(used as u64)
}

fn push_safe(out: &mut Text, seq: u16, safe: u32, fence: u32, item: &Item) -> Result<(), AllocError>
    ensures { OnOk result (out.new ≡ out.old ++ safe_text seq safe fence item.now) }
{
    out.push_number(seq as u64)?;
    out.push(b" safe ")?;
    out.push_number(safe as u64)?;
    out.push(b" fence ")?;
    out.push_number(fence as u64)?;
    out.push(b" ")?;
    push_item(out, item)
}

fn push_jump(out: &mut Text, what: &NavWhat) -> Result<(), AllocError>
    requires { IsJumpEntry what.now }
    ensures { OnOk result (out.new ≡ out.old ++ what_text what.now) }
{
    match what {
        NavWhat::Jump {
            seq,
            to,
            used,
            mission,
            fence,
        } => {
            out.push(b"jump ")?;
            push_taken(out, *seq, *to, *used)?;
            out.push(b" ")?;
            push_flown(out, *mission, *fence)
        }
        NavWhat::JumpSpent {
            seq,
            mission,
            fence,
        } => {
            out.push(b"jump ")?;
            out.push_number(*seq as u64)?;
            out.push(b" spent ")?;
            push_flown(out, *mission, *fence)
        }
        _ => unreachable!(),
    }
}

fn push_mission(out: &mut Text, what: &NavWhat) -> Result<(), AllocError>
    requires { IsMissionEntry what.now }
    ensures { OnOk result (out.new ≡ out.old ++ what_text what.now) }
{
    match what {
        NavWhat::Leg {
            seq,
            mission,
            fence,
            item,
        } => {
            out.push(b"leg ")?;
            push_target(out, *seq, *mission, *fence, item)
        }
        NavWhat::Action {
            seq,
            mission,
            fence,
            item,
        } => {
            out.push(b"action ")?;
            push_target(out, *seq, *mission, *fence, item)
        }
        NavWhat::Jump { .. } | NavWhat::JumpSpent { .. } => push_jump(out, what),
        NavWhat::Done { mission, fence } => {
            out.push(b"done ")?;
            push_flown(out, *mission, *fence)
        }
        _ => unreachable!(),
    }
}

fn push_return(out: &mut Text, what: &NavWhat) -> Result<(), AllocError>
    requires { IsReturnEntry what.now }
    ensures { OnOk result (out.new ≡ out.old ++ what_text what.now) }
{
    match what {
        NavWhat::ReturnLeg {
            seq,
            mission,
            fence,
            item,
        } => {
            out.push(b"return leg ")?;
            push_target(out, *seq, *mission, *fence, item)
        }
        NavWhat::ReturnSkip {
            seq,
            mission,
            fence,
        } => {
            out.push(b"return skip ")?;
            push_at(out, *seq, *mission, *fence)
        }
        NavWhat::ReturnHome(home) => {
            out.push(b"return home ")?;
            push_place(out, &home.x, &home.y, &home.z)
        }
        NavWhat::ReturnSafe {
            seq,
            safe,
            fence,
            item,
        } => {
            out.push(b"return safe ")?;
            push_safe(out, *seq, *safe, *fence, item)
        }
        NavWhat::ReturnNone => out.push(b"return none"),
        NavWhat::ReturnDone => out.push(b"return done"),
        _ => unreachable!(),
    }
}

pub(crate) fn push_what(out: &mut Text, what: &NavWhat) -> Result<(), AllocError>
    ensures { OnOk result (out.new ≡ out.old ++ what_text what.now) }
{
    match what {
        NavWhat::Leg { .. }
        | NavWhat::Action { .. }
        | NavWhat::Jump { .. }
        | NavWhat::JumpSpent { .. }
        | NavWhat::Done { .. } => push_mission(out, what),
        NavWhat::Pending { kind, seq } => {
            out.push(b"pending ")?;
            push_kind(out, *kind)?;
            out.push(b" ")?;
            out.push_number(*seq as u64)
        }
        NavWhat::Hold {
            rule,
            seq,
            mission,
            fence,
        } => {
            out.push(b"hold ")?;
            out.push_number(*rule as u64)?;
            out.push(b" ")?;
            push_at(out, *seq, *mission, *fence)
        }
        NavWhat::HoldEmpty => out.push(b"hold empty"),
        NavWhat::Idle => out.push(b"idle"),
        NavWhat::Taken => out.push(b"taken"),
        NavWhat::Next(seq) => {
            out.push(b"next ")?;
            out.push_number(*seq as u64)
        }
        NavWhat::NextReturn => out.push(b"next return"),
        NavWhat::Ignored => out.push(b"ignored"),
        _ => push_return(out, what),
    }
}
