//! The messages of an uploading link and their answers, after the MAVLink mission protocol.

ghost use Rattle.std.specs.Prelude.{◌≡◌};
ghost use Rattle.mission_model.specs.Shown.{said_of};

use crate::plan::{Item, PlanType};

/// MAV_MISSION_RESULT. `InvalidParam3` and `InvalidParam4` are never given here.
#[derive(Clone, Copy, Debug, PartialEq, Eq)]
pub enum AckCode {
    /// MAV_MISSION_ACCEPTED: the plan is in force.
    Accepted = 0,
    /// MAV_MISSION_ERROR: a request to the worker failed.
    Error = 1,
    /// MAV_MISSION_UNSUPPORTED_FRAME: the frame is none of the command.
    UnsupportedFrame = 2,
    /// MAV_MISSION_UNSUPPORTED: the command or the plan type is not taken.
    Unsupported = 3,
    /// MAV_MISSION_NO_SPACE: more items, jumps or plans than there is room for.
    NoSpace = 4,
    /// MAV_MISSION_INVALID: a jump or a polygon that does not fit the plan.
    Invalid = 5,
    /// MAV_MISSION_INVALID_PARAM1: param1 is none of the command.
    InvalidParam1 = 6,
    /// MAV_MISSION_INVALID_PARAM2: param2 is none of the command.
    InvalidParam2 = 7,
    /// MAV_MISSION_INVALID_PARAM3: never given.
    InvalidParam3 = 8,
    /// MAV_MISSION_INVALID_PARAM4: never given.
    InvalidParam4 = 9,
    /// MAV_MISSION_INVALID_PARAM5_X: the latitude is out of range.
    InvalidParam5X = 10,
    /// MAV_MISSION_INVALID_PARAM6_Y: the longitude is out of range.
    InvalidParam6Y = 11,
    /// MAV_MISSION_INVALID_PARAM7: the height is out of range.
    InvalidParam7 = 12,
    /// MAV_MISSION_INVALID_SEQUENCE: an item or an index that was not asked for.
    InvalidSequence = 13,
    /// MAV_MISSION_DENIED: another link holds the transfer.
    Denied = 14,
    /// MAV_MISSION_OPERATION_CANCELLED: the upload ended before its last item.
    OperationCancelled = 15,
}

/// A message of a link. A `kind` is 0 to 2, the numbers of the plan types, or 255 for all of them.
#[derive(Clone, Copy, Debug, PartialEq, Eq)]
pub enum Message {
    Count { kind: u8, count: u16 },
    Item { seq: u16, item: Item },
    ClearAll { kind: u8 },
    SetCurrent(u16),
    Cancel,
    Timeout,
}

/// A message without its item, as the record shows it.
#[derive(Clone, Copy, Debug, PartialEq, Eq)]
pub enum Said {
    Count { kind: u8, count: u16 },
    Item(u16),
    ClearAll(u8),
    SetCurrent(u16),
    Cancel,
    Timeout,
}

/// What the vehicle does at a message or at a reply to a link.
#[derive(Clone, Copy, Debug, PartialEq, Eq)]
pub enum Answer {
    /// MISSION_REQUEST_INT of this seq.
    RequestInt(u16),
    Ack(AckCode),
    /// MISSION_CURRENT will be this seq.
    CurrentIs(u16),
    /// The worker was asked to write this item.
    Writes {
        kind: PlanType,
        id: u32,
        seq: u16,
        item: Item,
    },
    /// The worker was asked to commit this plan.
    Commits {
        kind: PlanType,
        id: u32,
        count: u16,
    },
    Nothing,
}

/// The message without its item.
pub fn said_of(message: &Message) -> Said
    ensures { result ≡ said_of message.now }
{
    match *message {
        Message::Count { kind, count } => Said::Count { kind, count },
        Message::Item { seq, .. } => Said::Item(seq),
        Message::ClearAll { kind } => Said::ClearAll(kind),
        Message::SetCurrent(seq) => Said::SetCurrent(seq),
        Message::Cancel => Said::Cancel,
        Message::Timeout => Said::Timeout,
    }
}
