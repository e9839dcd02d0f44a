//! Of one kind, the plan in force and what was written for the next one.

ghost use Rattle.std.specs.Prelude.{◌≡◌, ◌≢◌, ◌<◌, ◌+◌, Some, length, slice_get, IfOk};
ghost use Rattle.first_model.specs.declared.limits.TheConstants.{LAST_GENERATION};
ghost use Rattle.first_store.specs.StoreState.{IsWhole, drafted, no_drafts, no_plan, put};
ghost use Rattle.first_store.specs.Serve.{Well, read_reply, change_reply, written};
ghost use Rattle.first_store.specs.MapStore.{at, held_of};

use crate::places::{Places, Written};
use first_model::limits::LAST_GENERATION;
use first_model::{Item, Reply};
use std::alloc::{AllocError, Global};
use std::marker::Model;
use std::mem;

/// The plan in force in one table, and in the other what is written for the next. A commit exchanges the two.
#[derive(Drop)]
pub struct KindStore {
    id: u32,
    count: u16,
    generation: u64,
    in_force: Places,
    next: Places,
}

impl Model for KindStore {
    ghost use Rattle.first_store.specs.MapStore.{KindTables, AreKept};

    ghost Value = { KindTables };

    ghost view = { λ a. record { id = a.id; count = a.count; generation = a.generation; in_force = a.in_force; next = a.next } };

    ghost invariant = { λ a. AreKept (record { id = a.id; count = a.count; generation = a.generation; in_force = a.in_force; next = a.next }) };
}

impl KindStore {
    /// The empty plan, with places for plans of at most so many items. It fails only for want of memory.
    pub fn new(alloc: Global, limit: u16) -> Result<KindStore, AllocError>
        ensures held { IfOk result (λ kind. held_of kind ≡ no_plan) }
        ensures places { IfOk result (λ kind. length kind.next ≡ limit) }
    {
        Ok(KindStore {
            id: 0,
            count: 0,
            generation: 1,
            in_force: Places::new(alloc, limit)?,
            next: Places::new(alloc, limit)?,
        })
    }

    /// The id of the plan in force.
    pub fn id(&self) -> u32
        ensures { result ≡ self.now.id }
    {
        self.id
    }

    /// The reply to a read.
    pub fn read(&self, id: u32, seq: u16) -> Reply
        requires { id ≡ self.now.id → seq < length (held_of self.now).plan.items }
        ensures { result ≡ read_reply Well (held_of self.now).plan id seq }
    {
        if self.id != id {
            return Reply::Stale(self.id);
        }
        Reply::Item(self.item(seq))
    }

    /// The item at a seq of the plan in force.
    fn item(&self, seq: u16) -> Item
        requires { seq < length (held_of self.now).plan.items }
        ensures { slice_get (held_of self.now).plan.items seq ≡ Some result }
    {
        match self.in_force.at(seq) {
            Some(written) => written.item,
            None => unreachable!(),
        }
    }

    /// Writes an item for the plan of this id.
    pub fn write(&mut self, id: u32, seq: u16, item: Item)
        requires { seq < length self.old.next }
        ensures written { held_of self.new ≡ record (held_of self.old) { drafts = put (held_of self.old).drafts seq (written Well id item) } }
        ensures places { length self.new.next ≡ length self.old.next }
    {
        self.next.write(seq, Written { id, item });
    }

    /// Puts the plan of this id in force, which was written up to this count. At the last generation nothing changes.
    pub fn commit(&mut self, id: u32, count: u16) -> Reply
        requires { IsWhole (at self.old.next) id count }
        ensures reply { result ≡ change_reply Well self.old.generation }
        ensures spent { self.old.generation ≡ LAST_GENERATION → self.new ≡ self.old }
        ensures done { self.old.generation ≢ LAST_GENERATION → held_of self.new ≡ record { plan = record { id = id; items = drafted (at self.old.next) id count }; generation = self.old.generation + 1; drafts = no_drafts } }
        ensures places { length self.new.next ≡ length self.old.next }
    {
        if self.generation == LAST_GENERATION {
            return Reply::Spent(LAST_GENERATION);
        }
        mem::swap(&mut self.in_force, &mut self.next);
        self.id = id;
        self.count = count;
        self.generation += 1;
        self.next.clear();
        Reply::Done
    }
}
