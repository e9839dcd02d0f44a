//! A fence plan as its vertices come, one by one, each checked after the earlier ones. It has room for a whole plan.

ghost use Rattle.std.specs.Prelude.{◌≡◌, ◌<◌, ◌≤◌, length, OnOk, OnErr, ◌==◌};
ghost use Rattle.mission_model.specs.ItemCode.{answer_of};
ghost use Rattle.breach_watch.specs.FenceSoFar.{none_yet, with_vertex, code_of_next};

use fence_polygon::Fence;
use mission_model::limits::MAX_FENCE_VERTICES;
use mission_model::{AckCode, Item, Param, PlanCheck, PlanHead, PlanType};
use std::marker::Model;

const CAPACITY: usize = MAX_FENCE_VERTICES as usize;

/// What stands in a place to which no vertex has come.
const BLANK: Item = Item {
    frame: 0,
    command: 0,
    p1: Param::Unset,
    p2: Param::Unset,
    p3: Param::Unset,
    p4: Param::Unset,
    x: 0,
    y: 0,
    z: 0,
    auto: false,
};

/// A fence plan that is being read, seen as its head and its vertices so far.
#[derive(Drop)]
pub struct Reading {
    head: PlanHead,
    check: PlanCheck,
    items: [Item; CAPACITY],
    len: u16,
}

impl Model for Reading {
    ghost use Rattle.std.specs.Prelude.{take};
    ghost use Rattle.breach_watch.specs.FenceSoFar.{FenceSoFar, IsKept};

    ghost Value = { FenceSoFar };

    ghost view = { λ r. record { head = r.head; items = take r.len r.items } };

    ghost invariant = { λ r. IsKept r.head r.check r.items r.len };
}

impl Reading {
    /// A plan of which nothing has come.
    pub fn begin(head: PlanHead) -> Reading
        requires { head.count ≤ MAX_FENCE_VERTICES }
        ensures { result ≡ none_yet head }
    {
        Reading {
            head,
            check: PlanCheck::begin(PlanType::Fence, head.count),
            items: [BLANK; CAPACITY],
            len: 0,
        }
    }

    /// The plan's head.
    pub fn head(&self) -> PlanHead
        ensures { result ≡ self.now.head }
    {
        self.head
    }

    /// How many vertices have come: the seq of the next one.
    pub fn len(&self) -> u16
        ensures { result ≡ length self.now.items }
    {
        self.len
    }

    /// Takes the next vertex, or refuses it with the code that the check of plans has for it after the earlier ones.
    pub fn join(&mut self, item: &Item) -> Result<(), AckCode>
        requires { length self.old.items < self.old.head.count }
        ensures code { result ≡ answer_of (code_of_next self.old item.now) }
        ensures ok { OnOk result (self.new ≡ with_vertex self.old item.now) }
        ensures err { OnErr result (self.new ≡ self.old) }
    {
        self.check.next(item)?;
        self.items[usize::from(self.len)] = *item;
        self.len += 1;
        Ok(())
    }

    /// Whether all vertices have come.
    pub fn is_whole(&self) -> bool
        ensures { result ≡ (length self.now.items == self.now.head.count) }
    {
        self.len == self.head.count
    }

    /// The fence, once all vertices have come.
    pub fn fence(&self) -> Fence
        requires { length self.now.items ≡ self.now.head.count }
        ensures { result ≡ self.now.items }
    {
        Fence::from_items(&self.items[..usize::from(self.len)])
    }
}
