//! The check of one item: its command is one of the plan's type, and its frame, parameters and position are what the
//! table of commands allows.

ghost use Rattle.std.specs.Prelude.{◌≡◌, Some};
ghost use Rattle.first_model.specs.ItemCode.{ItemCode, code_by, answer_of, is_placed};

use crate::command::{CommandRule, rule};
use crate::message::AckCode;
use crate::plan::{Item, PlanType};

/// Latitude in 1e-7 degree.
pub const MIN_LATITUDE: i32 = -900_000_000;

pub const MAX_LATITUDE: i32 = 900_000_000;
/// Longitude in 1e-7 degree.
pub const MIN_LONGITUDE: i32 = -1_800_000_000;

pub const MAX_LONGITUDE: i32 = 1_800_000_000;
/// Height in millimetres.
pub const MIN_HEIGHT: i32 = -10_000_000;

pub const MAX_HEIGHT: i32 = 100_000_000;

/// Refuses an item that a plan of this type may not hold, with the first code in this order: `Unsupported` for the
/// command, then `UnsupportedFrame`, `InvalidParam1`, `InvalidParam2`, `InvalidParam5X`, `InvalidParam6Y` and
/// `InvalidParam7`.
#[tactic(auto, unfolding(crate::specs::ItemCode::ItemCode))]
pub fn check_item(kind: PlanType, item: &Item) -> Result<(), AckCode>
    ensures { result ≡ answer_of (ItemCode kind item.now) }
{
    match rule(kind, item.command) {
        Some(rule) => check_by(&rule, item),
        None => Err(AckCode::Unsupported),
    }
}

fn check_by(rule: &CommandRule, item: &Item) -> Result<(), AckCode>
    ensures { result ≡ answer_of (code_by (Some rule.now) item.now) }
{
    if !rule.allows_frame(item.frame) {
        return Err(AckCode::UnsupportedFrame);
    }
    if !rule.param1.allows(item.p1) {
        return Err(AckCode::InvalidParam1);
    }
    if !rule.param2.allows(item.p2) {
        return Err(AckCode::InvalidParam2);
    }
    if !is_placed(rule, MIN_LATITUDE, MAX_LATITUDE, item.x) {
        return Err(AckCode::InvalidParam5X);
    }
    if !is_placed(rule, MIN_LONGITUDE, MAX_LONGITUDE, item.y) {
        return Err(AckCode::InvalidParam6Y);
    }
    if !is_placed(rule, MIN_HEIGHT, MAX_HEIGHT, item.z) {
        return Err(AckCode::InvalidParam7);
    }
    Ok(())
}

fn is_placed(rule: &CommandRule, least: i32, greatest: i32, coordinate: i32) -> bool
    ensures { result ≡ is_placed rule.now.positioned least greatest coordinate }
{
    !rule.positioned || least <= coordinate && coordinate <= greatest
}
