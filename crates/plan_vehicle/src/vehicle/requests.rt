//! The worker's requests: what is taken, and what a service does.

ghost use Rattle.std.specs.Prelude.{◌≡◌, ◌<◌, IfOk, IsTrue, ◌↔◌, true, false, length};
ghost use Rattle.mission_model.specs.PlainMark.{plain_mark};
ghost use Rattle.plan_vehicle.specs.PlanState.{CanBe, told_at};
ghost use Rattle.plan_vehicle.specs.VehicleState.{VehicleState, plan_of};
ghost use Rattle.plan_vehicle.specs.Requests.{WasPassed, Takes, Reads, with_item_told, CanCommit, CanBeDone, IsStale, begun_anew, committed, Fails, Replies, ended, still_maybe, Serves};

use crate::plan::Plan;
use crate::vehicle::Vehicle;
use mission_model::limits::LAST_GENERATION;
use mission_model::{Asked, Client, Counts, Item, Mark, PlanType, Reply, check_plan};
use std::alloc::{AllocError, Global};

impl Vehicle {
    /// The worker takes a request.
    pub(crate) fn takes(&mut self, client: Client, asked: Asked) -> bool
        ensures yes { IsTrue result → Takes self.old client asked self.new }
        ensures no { result ≡ false → (v : VehicleState) → Takes self.old client asked v → ⊥ }
    {
        if !self.is_up || self.service.is_some() || !self.was_passed(&asked) {
            return false;
        }
        self.service = Some((client, asked));
        true
    }

    /// Whether what is asked is no mark, or the mark of a place that was passed.
    fn was_passed(&self, asked: &Asked) -> bool
        ensures { IsTrue result ↔ WasPassed self.now asked.now }
    {
        match *asked {
            Asked::SetMark(mark) => self.passed.has(&mark),
            _ => true,
        }
    }

    /// The request in service is served.
    pub(crate) fn serves(
        &mut self,
        alloc: Global,
        client: Client,
        reply: Reply,
    ) -> Result<bool, AllocError>
        ensures yes { IfOk result (λ yes. IsTrue yes → Serves self.old client reply self.new) }
        ensures no { IfOk result (λ yes. yes ≡ false → (v : VehicleState) → Serves self.old client reply v → ⊥) }
    {
        let Some((asker, asked)) = self.service else {
            return Ok(false);
        };
        if asker != client {
            return Ok(false);
        }
        self.end(alloc, client, asked, reply)?;
        self.replies(alloc, asked, reply)
    }

    fn end(
        &mut self,
        alloc: Global,
        client: Client,
        asked: Asked,
        reply: Reply,
    ) -> Result<(), AllocError>
        ensures { IfOk result (λ _. self.new ≡ ended self.old client asked reply) }
    {
        self.settle(alloc, reply);
        self.service = None;
        self.served.put(client, asked, reply)
    }

    /// Settles what may have been done.
    fn settle(&mut self, alloc: Global, reply: Reply)
        ensures { self.new ≡ record self.old { maybe = still_maybe self.old.maybe reply } }
    {
        match reply {
            Reply::DiskFailed | Reply::PowerOff => {}
            _ => self.maybe = Vec::new(alloc),
        }
    }

    fn replies(&mut self, alloc: Global, asked: Asked, reply: Reply) -> Result<bool, AllocError>
        ensures yes { IfOk result (λ yes. IsTrue yes → Replies self.old asked reply self.new) }
        ensures no { IfOk result (λ yes. yes ≡ false → (v : VehicleState) → Replies self.old asked reply v → ⊥) }
    {
        match (asked, reply) {
            (Asked::Read { kind, id, seq }, Reply::Item(item)) => {
                Ok(self.reads(kind, id, seq, item))
            }
            (Asked::Read { kind, id, .. }, Reply::Stale(now)) => Ok(self.is_stale(kind, id, now)),
            (Asked::Write { .. }, Reply::Done) => Ok(true),
            (Asked::Commit { kind, id, count }, Reply::Done) => {
                self.commits(alloc, kind, id, count)
            }
            (Asked::Commit { .. }, Reply::Spent(last)) => Ok(last == LAST_GENERATION),
            (Asked::SetMark(mark), Reply::Done) => Ok(self.marks(mark)),
            (Asked::SetMark(mark), Reply::Stale(now)) => {
                Ok(self.is_stale(PlanType::Mission, mark.id, now))
            }
            (Asked::SetMark(_), Reply::Spent(last)) => Ok(last == LAST_GENERATION),
            (asked, Reply::DiskFailed) => self.fails(asked),
            (asked, Reply::PowerOff) => self.fails(asked),
            _ => Ok(false),
        }
    }

    fn is_stale(&self, kind: PlanType, id: u32, now: u32) -> bool
        ensures { IsTrue result ↔ IsStale self.now kind id now self.now }
    {
        now == self.plan(kind).id() && id != now
    }

    fn reads(&mut self, kind: PlanType, id: u32, seq: u16, item: Item) -> bool
        ensures yes { IsTrue result → Reads self.old kind id seq item self.new }
        ensures no { result ≡ false → (v : VehicleState) → Reads self.old kind id seq item v → ⊥ }
    {
        let plan = self.plan(kind);
        if id != plan.id() || !plan.can_be(seq, &item) {
            return false;
        }
        self.tell(kind, seq, item);
        true
    }

    /// Tells an item of the plan of a type.
    fn tell(&mut self, kind: PlanType, seq: u16, item: Item)
        requires within { seq < length (plan_of self.old kind).items }
        requires item_is { CanBe (told_at (plan_of self.old kind) seq) item }
        ensures { self.new ≡ with_item_told self.old kind seq item }
    {
        match kind {
            PlanType::Mission => self.plans.tell_mission(seq, item),
            PlanType::Fence => self.plans.tell_fence(seq, item),
            PlanType::Safe => self.plans.tell_safe(seq, item),
        }
    }

    fn commits(
        &mut self,
        alloc: Global,
        kind: PlanType,
        id: u32,
        count: u16,
    ) -> Result<bool, AllocError>
        ensures yes { IfOk result (λ yes. IsTrue yes → CanCommit self.old kind id count × (self.new ≡ committed self.old kind id)) }
        ensures no { IfOk result (λ yes. yes ≡ false → CanCommit self.old kind id count → ⊥) }
    {
        if !self.can_commit(kind, id, count) {
            return Ok(false);
        }
        let plan = Plan::told(alloc, id, self.drafts.items(kind, id))?;
        self.put_plan(kind, plan);
        self.begin_anew(kind);
        Ok(true)
    }

    /// Whether a commit can be done.
    fn can_commit(&self, kind: PlanType, id: u32, count: u16) -> bool
        ensures { IsTrue result ↔ CanCommit self.now kind id count }
    {
        let items = self.drafts.items(kind, id);
        self.plan(kind).id() < id
            && items.len() == usize::from(count)
            && check_plan(kind, items).is_ok()
    }

    /// Begins a new mission at its first item; whatever the new plan is, a return is dropped.
    fn begin_anew(&mut self, kind: PlanType)
        ensures { self.new ≡ begun_anew self.old kind }
    {
        self.way = None;
        if kind == PlanType::Mission {
            self.index = 0;
            self.counts = Counts::new();
            self.at_leg = false;
            self.wanted = None;
        }
    }

    fn marks(&mut self, mark: Mark) -> bool
        ensures yes { IsTrue result → (mark.id ≡ self.old.mission.id) × (self.new ≡ record self.old { mark = plain_mark mark }) }
        ensures no { result ≡ false → mark.id ≡ self.old.mission.id → ⊥ }
    {
        if mark.id != self.plans.mission().id() {
            return false;
        }
        self.mark = mark;
        true
    }

    fn fails(&mut self, asked: Asked) -> Result<bool, AllocError>
        ensures yes { IfOk result (λ yes. IsTrue yes) }
        ensures fails { IfOk result (λ _. Fails self.old asked self.new) }
    {
        if self.can_be_done(asked) {
            self.maybe.push(asked)?;
        }
        Ok(true)
    }

    /// Whether what is asked can be done, and changes a plan or the mark.
    fn can_be_done(&self, asked: Asked) -> bool
        ensures { IsTrue result ↔ CanBeDone self.now asked }
    {
        match asked {
            Asked::Commit { kind, id, count } => self.can_commit(kind, id, count),
            Asked::SetMark(mark) => mark.id == self.plans.mission().id(),
            _ => false,
        }
    }
}
