//! The Navigator's modes, the vehicle's events and the entries that answer them.

use crate::counts::Mark;
use crate::plan::{Home, Item, PlanHead, PlanType};

/// The Navigator's mode.
#[derive(Clone, Copy, Debug, PartialEq, Eq)]
pub enum Mode {
    Hold,
    Mission,
    Return,
}

/// An event of the vehicle. A position is latitude and longitude in 1e-7 degree.
#[derive(Clone, Copy, Debug, PartialEq, Eq)]
pub enum VehicleLine {
    /// One look at what is to be flown.
    Tick,
    /// Looks until the entry is not pending.
    Go,
    /// The present target was reached.
    Reached,
    Mode(Mode),
    Position { x: i32, y: i32 },
}

/// What the Navigator does at an event.
#[derive(Clone, Copy)]
pub enum NavWhat {
    Leg {
        seq: u16,
        mission: u32,
        fence: u32,
        item: Item,
    },
    Action {
        seq: u16,
        mission: u32,
        fence: u32,
        item: Item,
    },
    Jump {
        seq: u16,
        to: u16,
        used: u16,
        mission: u32,
        fence: u32,
    },
    JumpSpent {
        seq: u16,
        mission: u32,
        fence: u32,
    },
    Done {
        mission: u32,
        fence: u32,
    },
    Pending {
        kind: PlanType,
        seq: u16,
    },
    Hold {
        rule: u8,
        seq: u16,
        mission: u32,
        fence: u32,
    },
    HoldEmpty,
    Idle,
    Taken,
    /// The mission's new index.
    Next(u16),
    NextReturn,
    Ignored,
    ReturnLeg {
        seq: u16,
        mission: u32,
        fence: u32,
        item: Item,
    },
    ReturnSkip {
        seq: u16,
        mission: u32,
        fence: u32,
    },
    ReturnHome(Home),
    ReturnSafe {
        seq: u16,
        safe: u32,
        fence: u32,
        item: Item,
    },
    ReturnNone,
    ReturnDone,
}

/// What the Navigator does at an event, and how many requests it asked in it.
#[derive(Clone, Copy)]
pub struct NavEntry {
    pub what: NavWhat,
    pub asked: u8,
}

/// What a cache answers to a look at an item.
#[derive(Clone, Copy, Debug, PartialEq, Eq)]
pub enum Look {
    Here(Item),
    Pending,
}

/// What a boot finds: the plans in force, in order of `PlanType`, and the mark of the mission.
#[derive(Clone, Copy, Debug, PartialEq, Eq)]
pub struct BootState {
    pub heads: [PlanHead; 3],
    pub mark: Mark,
}

/// What a boot finds, as the Navigator is given it.
pub type BootMark = BootState;
