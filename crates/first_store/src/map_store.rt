//! The store of plans in memory.

ghost use Rattle.std.specs.Prelude.{◌≡◌, IfOk};
ghost use Rattle.first_model.specs.PlainMark.{plain_mark};
ghost use Rattle.first_store.specs.StoreState.{new_store, first_mark};
ghost use Rattle.first_store.specs.Serve.{Serve, Well};
ghost use Rattle.first_store.specs.CanServe.{CanServe, CanWrite, CanCommit};
ghost use Rattle.first_store.specs.MapStore.{held};

use crate::kind_store::KindStore;
use first_model::limits::LAST_GENERATION;
use first_model::{Counts, Item, Mark, PlanType, Reply, Request, limit_of};
use std::alloc::{AllocError, Global};
use std::marker::Model;

/// The plans of all kinds, and the mark of the mission. Its memory is taken once.
#[derive(Drop)]
pub struct MapStore {
    mission: KindStore,
    fence: KindStore,
    safe: KindStore,
    mark: Mark,
    mark_generation: u64,
}

impl Model for MapStore {
    ghost use Rattle.std.specs.Prelude.{◌≡◌, length};
    ghost use Rattle.first_model.specs.declared.limits.TheConstants.{MAX_MISSION_ITEMS, MAX_FENCE_VERTICES, MAX_SAFE_POINTS};
    ghost use Rattle.first_model.specs.PlainMark.{plain_mark};
    ghost use Rattle.first_store.specs.MapStore.{MapState};

    ghost Value = { MapState };

    ghost view = { λ a. record { mission = a.mission; fence = a.fence; safe = a.safe; mark = plain_mark a.mark; mark_generation = a.mark_generation } };

    ghost invariant = { λ a. (length a.mission.next ≡ MAX_MISSION_ITEMS) × (length a.fence.next ≡ MAX_FENCE_VERTICES) × (length a.safe.next ≡ MAX_SAFE_POINTS) };
}

impl MapStore {
    /// A store of three empty plans of id 0. It fails only for want of memory.
    pub fn new(alloc: Global) -> Result<MapStore, AllocError>
        ensures { IfOk result (λ store. held store ≡ new_store) }
    {
        Ok(MapStore {
            mission: KindStore::new(alloc, limit_of(PlanType::Mission))?,
            fence: KindStore::new(alloc, limit_of(PlanType::Fence))?,
            safe: KindStore::new(alloc, limit_of(PlanType::Safe))?,
            mark: first_mark(0),
            mark_generation: 0,
        })
    }

    /// Serves one request. It takes no memory.
    pub fn serve(&mut self, request: &Request) -> Reply
        requires { CanServe (held self.old) request.now }
        ensures { Serve Well (held self.old) request.now result (held self.new) }
    {
        match *request {
            Request::Read { kind, id, seq } => self.read(kind, id, seq),
            Request::Write {
                kind,
                id,
                seq,
                item,
            } => self.write(kind, id, seq, item),
            Request::Commit { kind, id, count } => self.commit(kind, id, count),
            Request::SetMark(mark) => self.set_mark(mark),
        }
    }

    fn read(&self, kind: PlanType, id: u32, seq: u16) -> Reply
        requires { CanServe (held self.now) (Request.Read kind id seq) }
        ensures { Serve Well (held self.now) (Request.Read kind id seq) result (held self.now) }
    {
        match kind {
            PlanType::Mission => self.mission.read(id, seq),
            PlanType::Fence => self.fence.read(id, seq),
            PlanType::Safe => self.safe.read(id, seq),
        }
    }

    fn write(&mut self, kind: PlanType, id: u32, seq: u16, item: Item) -> Reply
        requires { CanServe (held self.old) (Request.Write kind id seq item) }
        ensures { Serve Well (held self.old) (Request.Write kind id seq item) result (held self.new) }
    {
        match kind {
            PlanType::Mission => self.mission.write(id, seq, item),
            PlanType::Fence => self.fence.write(id, seq, item),
            PlanType::Safe => self.safe.write(id, seq, item),
        }
        Reply::Done
    }

    fn commit(&mut self, kind: PlanType, id: u32, count: u16) -> Reply
        requires { CanServe (held self.old) (Request.Commit kind id count) }
        ensures { Serve Well (held self.old) (Request.Commit kind id count) result (held self.new) }
    {
        match kind {
            PlanType::Mission => self.commit_mission(id, count),
            PlanType::Fence => self.fence.commit(id, count),
            PlanType::Safe => self.safe.commit(id, count),
        }
    }

    /// A new mission begins at its first item.
    fn commit_mission(&mut self, id: u32, count: u16) -> Reply
        requires { CanServe (held self.old) (Request.Commit PlanType.Mission id count) }
        ensures { Serve Well (held self.old) (Request.Commit PlanType.Mission id count) result (held self.new) }
    {
        let reply = self.mission.commit(id, count);
        if let Reply::Done = reply {
            self.mark = first_mark(id);
        }
        reply
    }

    fn set_mark(&mut self, mark: Mark) -> Reply
        requires { CanServe (held self.old) (Request.SetMark mark) }
        ensures { Serve Well (held self.old) (Request.SetMark mark) result (held self.new) }
    {
        if self.mission.id() != mark.id {
            return Reply::Stale(self.mission.id());
        }
        if self.mark_generation == LAST_GENERATION {
            return Reply::Spent(LAST_GENERATION);
        }
        self.mark = mark;
        self.mark_generation += 1;
        Reply::Done
    }
}

/// The mark at the first item of the mission of this id.
fn first_mark(id: u32) -> Mark
    ensures { plain_mark result ≡ first_mark id }
{
    Mark {
        id,
        index: 0,
        counts: Counts::new(),
    }
}
