//! The messages of an uploading link and their answers, after the MAVLink mission protocol.

use crate::plan::{Item, PlanType};

/// MAV_MISSION_RESULT. `InvalidParam3` and `InvalidParam4` are never given here.
#[derive(Clone, Copy, Debug, PartialEq, Eq)]
pub enum AckCode {
    Accepted = 0,
    Error = 1,
    UnsupportedFrame = 2,
    Unsupported = 3,
    NoSpace = 4,
    Invalid = 5,
    InvalidParam1 = 6,
    InvalidParam2 = 7,
    InvalidParam3 = 8,
    InvalidParam4 = 9,
    InvalidParam5X = 10,
    InvalidParam6Y = 11,
    InvalidParam7 = 12,
    InvalidSequence = 13,
    Denied = 14,
    OperationCancelled = 15,
}

/// A message of a link. A `kind` is 0 to 2, the numbers of the plan types, or 255 for all of them.
#[derive(Clone, Copy, Debug, PartialEq, Eq)]
pub enum Message {
    Count { kind: u8, count: u16 },
    Item { seq: u16, item: Item },
    ClearAll { kind: u8 },
    SetCurrent(u16),
    Cancel,
    Timeout,
}

/// A message without its item, as the record shows it.
#[derive(Clone, Copy, Debug, PartialEq, Eq)]
pub enum Said {
    Count { kind: u8, count: u16 },
    Item(u16),
    ClearAll(u8),
    SetCurrent(u16),
    Cancel,
    Timeout,
}

/// What the vehicle does at a message or at a reply to a link.
#[derive(Clone, Copy, Debug, PartialEq, Eq)]
pub enum Answer {
    /// MISSION_REQUEST_INT of this seq.
    RequestInt(u16),
    Ack(AckCode),
    /// MISSION_CURRENT will be this seq.
    CurrentIs(u16),
    /// The worker was asked to write this item.
    Writes {
        kind: PlanType,
        id: u32,
        seq: u16,
        item: Item,
    },
    /// The worker was asked to commit this plan.
    Commits {
        kind: PlanType,
        id: u32,
        count: u16,
    },
    Nothing,
}
