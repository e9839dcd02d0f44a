//! The download: the plan that it is on, and its place there. Whatever it gives is of that one plan, since an item that
//! comes after another plan was published ends it.

ghost use Rattle.std.specs.Prelude.{◌≡◌, ◌<◌};
ghost use Rattle.plan_download.specs.Downloads.{kind_named, says, not_begun, begun, given, replaced};

use crate::note::{BEGINS, FAILED, GIVES, REPLACED, WHOLE};
use mission_model::{Asked, Note, PlanHead, PlanType, Reply, WatchInput, WatchOut, head_of};
use request_board::Watcher;

/// A download: the type and the head of its plan, and the seq of the item that it reads.
/// The first number of an input is the type's, as in MAV_MISSION_TYPE; its code and its second number are not looked at.
#[derive(Clone, Copy, Drop)]
pub struct Download {
    kind: PlanType,
    head: PlanHead,
    seq: u16,
}

/// The answer to an input that names no type of plan, and to a reply that answers no read.
const NOTHING: WatchOut = WatchOut {
    read: None,
    note: Note {
        code: 0,
        a: 0,
        b: 0,
        x: 0,
        y: 0,
    },
    more: false,
};

impl Download {
    /// A download before its first input. It takes no memory.
    pub fn new() -> Download
        ensures { result ≡ not_begun }
    {
        Download {
            kind: PlanType::Mission,
            head: PlanHead { id: 0, count: 0 },
            seq: 0,
        }
    }

    /// Begins this plan.
    fn begin(&mut self, kind: PlanType, head: PlanHead) -> WatchOut
        ensures { begun kind head ≡ (result, self.new) }
    {
        *self = Download { kind, head, seq: 0 };
        if head.count == 0 {
            return says(WHOLE, head.id, 0, None);
        }
        says(
            BEGINS,
            head.id,
            u32::from(head.count),
            Some((kind, head.id, 0)),
        )
    }

    /// Takes the item that it waits for, of the plan that is published still.
    fn give(&mut self) -> WatchOut
        requires { self.old.seq < self.old.head.count }
        ensures { given self.old ≡ (result, self.new) }
    {
        let PlanHead { id, count } = self.head;
        let seq = self.seq;
        if seq + 1 == count {
            return says(WHOLE, id, u32::from(count), None);
        }
        self.seq = seq + 1;
        says(GIVES, id, u32::from(seq), Some((self.kind, id, seq + 1)))
    }
}

impl Watcher for Download {
    ghost use Rattle.plan_download.specs.Downloads.{works, tells, waits, left};
    ghost use Rattle.plan_download.specs.Laws.{works-answers, tells-answers, left-falls};

    ghost works = { works };

    ghost tells = { tells };

    ghost waits = { waits };

    ghost left = { left };

    fn work(&mut self, input: &WatchInput, heads: [PlanHead; 3]) -> WatchOut {
        match kind_named(input.a) {
            Some(kind) => self.begin(kind, head_of(&heads, kind)),
            None => NOTHING,
        }
    }

    fn told(&mut self, _asked: &Asked, reply: &Reply, heads: [PlanHead; 3]) -> WatchOut {
        let id = self.head.id;
        let now = head_of(&heads, self.kind).id;
        match *reply {
            Reply::Item(_) if now == id => self.give(),
            Reply::Item(_) | Reply::Stale(_) => says(REPLACED, id, now, None),
            Reply::DiskFailed => says(FAILED, id, u32::from(self.seq), None),
            Reply::Done | Reply::PowerOff | Reply::Spent(_) => NOTHING,
        }
    }

    ghost works_well = { works-answers };

    ghost tells_well = { tells-answers };

    ghost falls = { left-falls };
}

/// The type of plan that the number names, if there is one.
fn kind_named(number: i32) -> Option<PlanType>
    ensures { result ≡ kind_named number }
{
    match number {
        0 => Some(PlanType::Mission),
        1 => Some(PlanType::Fence),
        2 => Some(PlanType::Safe),
        _ => None,
    }
}

/// An answer with this note, which reads this item or none.
fn says(code: u16, a: u32, b: u32, read: Option<(PlanType, u32, u16)>) -> WatchOut
    ensures { result ≡ says code a b read }
{
    WatchOut {
        read,
        note: Note {
            code,
            a,
            b,
            x: 0,
            y: 0,
        },
        more: read.is_some(),
    }
}

#[cfg(test)]
mod tests;
