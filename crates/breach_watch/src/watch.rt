//! The breach watch: the position of its current input, the fence that it reads, and the fence that it keeps. A fence is
//! judged by only while it is the published one, so that no position is told of a plan that has gone.

ghost use Rattle.std.specs.Prelude.{◌≡◌, ◌<◌, ◌≤◌, length};
ghost use Rattle.breach_watch.specs.Breaches.{not_begun, says, judged, asks_next, verdict_on, lost, read_on, joined, answered};
ghost use Rattle.breach_watch.specs.FenceSoFar.{code_of_next};

use crate::note::{ALLOWED, BREACH, FAILED, READS, REPLACED};
use crate::reading::Reading;
use fence_polygon::Fence;
use mission_model::{Asked, Item, Note, PlanHead, PlanType, Reply, WatchInput, WatchOut, head_of};
use request_board::Watcher;

/// A fence that was read whole, and its id.
#[derive(Drop)]
struct Kept {
    id: u32,
    fence: Fence,
}

/// A breach watch. An input's two numbers are the position's latitude and longitude in 1e-7 degree; its code is not looked
/// at.
#[derive(Drop)]
pub struct BreachWatch {
    x: i32,
    y: i32,
    reading: Reading,
    kept: Option<Kept>,
}

/// The answer to a reply that answers no read.
const NOTHING: WatchOut = WatchOut {
    read: None,
    note: Note {
        code: 0,
        a: 0,
        b: 0,
        x: 0,
        y: 0,
    },
    more: false,
};

impl BreachWatch {
    /// A watch before its first input. It takes no memory.
    pub fn new() -> BreachWatch
        ensures { result ≡ not_begun }
    {
        BreachWatch {
            x: 0,
            y: 0,
            reading: Reading::begin(PlanHead { id: 0, count: 0 }),
            kept: None,
        }
    }

    /// Whether the published fence allows the position, where that is known without a read.
    fn verdict_on(&self, head: PlanHead) -> Option<bool>
        ensures { result ≡ verdict_on self.now head }
    {
        if head.count == 0 {
            return Some(true);
        }
        match &self.kept {
            Some(kept) if kept.id == head.id => Some(kept.fence.allows(self.x, self.y)),
            _ => None,
        }
    }

    /// Goes on after a vertex has come.
    fn read_on(&mut self) -> WatchOut
        ensures { read_on self.old ≡ (result, self.new) }
    {
        if !self.reading.is_whole() {
            return self.asks_next();
        }
        let id = self.reading.head().id;
        let fence = self.reading.fence();
        let allowed = fence.allows(self.x, self.y);
        self.kept = Some(Kept { id, fence });
        self.judged(id, allowed)
    }

    /// Takes the vertex that it waits for.
    fn take(&mut self, item: &Item) -> WatchOut
        requires { length self.old.reading.items < self.old.reading.head.count }
        ensures { joined self.old item.now (code_of_next self.old.reading item.now) ≡ (result, self.new) }
    {
        let seq = self.reading.len();
        match self.reading.join(item) {
            Ok(()) => self.read_on(),
            Err(_) => self.lose(FAILED, u32::from(seq)),
        }
    }

    /// Takes a reply while the fence that it reads is published still.
    fn answered(&mut self, reply: &Reply) -> WatchOut
        requires { length self.old.reading.items < self.old.reading.head.count }
        ensures { answered self.old reply.now ≡ (result, self.new) }
    {
        let seq = self.reading.len();
        match *reply {
            Reply::Item(item) => self.take(&item),
            Reply::DiskFailed => self.lose(FAILED, u32::from(seq)),
            Reply::Stale(_) | Reply::Done | Reply::PowerOff | Reply::Spent(_) => NOTHING,
        }
    }

    /// Ends the input with no word on the position.
    fn lose(&mut self, code: u16, b: u32) -> WatchOut
        ensures { lost self.old code b ≡ (result, self.new) }
    {
        self.kept = None;
        let id = self.reading.head().id;
        self.says(code, id, b, None)
    }

    /// Says whether the fence of this id allows the position.
    fn judged(&self, id: u32, allowed: bool) -> WatchOut
        ensures { result ≡ judged self.now id allowed }
    {
        let code = if allowed { ALLOWED } else { BREACH };
        self.says(code, id, 0, None)
    }

    /// Asks the next vertex of the fence that it reads.
    fn asks_next(&self) -> WatchOut
        ensures { result ≡ asks_next self.now }
    {
        let id = self.reading.head().id;
        let seq = self.reading.len();
        self.says(READS, id, u32::from(seq), Some((PlanType::Fence, id, seq)))
    }

    /// An answer with this note of the position, which reads this vertex or none.
    fn says(&self, code: u16, a: u32, b: u32, read: Option<(PlanType, u32, u16)>) -> WatchOut
        ensures { result ≡ says self.now code a b read }
    {
        WatchOut {
            read,
            note: Note {
                code,
                a,
                b,
                x: self.x,
                y: self.y,
            },
            more: read.is_some(),
        }
    }
}

impl Watcher for BreachWatch {
    ghost use Rattle.breach_watch.specs.Breaches.{works, tells, waits, left};
    ghost use Rattle.breach_watch.specs.Laws.{works-answers, tells-answers, left-falls};

    ghost works = { works };

    ghost tells = { tells };

    ghost waits = { waits };

    ghost left = { left };

    fn work(&mut self, input: &WatchInput, heads: [PlanHead; 3]) -> WatchOut {
        self.x = input.a;
        self.y = input.b;
        let head = head_of(&heads, PlanType::Fence);
        match self.verdict_on(head) {
            Some(allowed) => self.judged(head.id, allowed),
            None => {
                self.reading = Reading::begin(head);
                self.asks_next()
            }
        }
    }

    fn told(&mut self, _asked: &Asked, reply: &Reply, heads: [PlanHead; 3]) -> WatchOut {
        let now = head_of(&heads, PlanType::Fence).id;
        match *reply {
            Reply::Stale(_) => self.lose(REPLACED, now),
            _ if now == self.reading.head().id => self.answered(reply),
            _ => self.lose(REPLACED, now),
        }
    }

    ghost works_well = { works-answers };

    ghost tells_well = { tells-answers };

    ghost falls = { left-falls };
}

#[cfg(test)]
mod tests;
