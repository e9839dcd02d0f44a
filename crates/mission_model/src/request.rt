//! What clients ask of the dataman worker, and what it replies.

ghost use Rattle.std.specs.Prelude.{◌≡◌};
ghost use Rattle.mission_model.specs.Shown.{asked_of};

use crate::counts::Mark;
use crate::plan::{Item, PlanType};

/// Who asks the worker.
#[derive(Clone, Copy, Debug, PartialEq, Eq)]
pub enum Client {
    Nav,
    Link(u8),
    Watch(u8),
}

/// A request to the worker.
#[derive(Clone, Copy, Debug, PartialEq, Eq)]
pub enum Request {
    /// The item at `seq` of the plan `id`.
    Read {
        kind: PlanType,
        id: u32,
        seq: u16,
    },
    /// The item at `seq` of the draft `id`.
    Write {
        kind: PlanType,
        id: u32,
        seq: u16,
        item: Item,
    },
    /// The draft `id` of `count` items becomes the plan in force.
    Commit {
        kind: PlanType,
        id: u32,
        count: u16,
    },
    /// The place in the mission is kept.
    SetMark(Mark),
}

/// A request without the item that it writes, as the record shows it.
#[derive(Clone, Copy, Debug, PartialEq, Eq)]
pub enum Asked {
    Read { kind: PlanType, id: u32, seq: u16 },
    Write { kind: PlanType, id: u32, seq: u16 },
    Commit { kind: PlanType, id: u32, count: u16 },
    SetMark(Mark),
}

/// What the worker replies.
#[derive(Clone, Copy, Debug, PartialEq, Eq)]
pub enum Reply {
    Item(Item),
    /// Another plan is in force, of this id.
    Stale(u32),
    Done,
    /// The device failed.
    DiskFailed,
    /// The power went in the service.
    PowerOff,
    /// The cell's generation is the last one.
    Spent(u64),
}

/// The request without the item that it writes.
pub fn asked_of(request: &Request) -> Asked
    ensures { result ≡ asked_of request.now }
{
    match *request {
        Request::Read { kind, id, seq } => Asked::Read { kind, id, seq },
        Request::Write { kind, id, seq, .. } => Asked::Write { kind, id, seq },
        Request::Commit { kind, id, count } => Asked::Commit { kind, id, count },
        Request::SetMark(mark) => Asked::SetMark(mark),
    }
}
