//! Worked rows of the store.

ghost use Rattle.std.specs.Prelude.{◌≡◌, ◌≤◌, IfOk, IsTrue};
ghost use Rattle.plan_store.specs.StoreState.{of_kind};
ghost use Rattle.plan_store.specs.CanServe.{CanServe};
ghost use Rattle.plan_store.specs.MapStore.{held, held_of};

use super::*;
use crate::kind_store::tests::{can_commit, can_mark, can_read, can_write, spend};
use mission_model::{Param, is_same_reply};
use std::process::Abort;
use std::test::Fail;

const LAST: u64 = 18_446_744_073_709_551_615;

const MISSION: PlanType = PlanType::Mission;

const FENCE: PlanType = PlanType::Fence;

const SAFE: PlanType = PlanType::Safe;

const RALLY: u16 = 5100;

/// A waypoint or a rally point at this latitude.
fn item(command: u16, latitude: i32) -> Item {
    Item {
        frame: 3,
        command,
        p1: Param::Unset,
        p2: Param::Unset,
        p3: Param::Unset,
        p4: Param::Unset,
        x: latitude,
        y: 80_000_000,
        z: 10_000,
        auto: true,
    }
}

/// A jump to the first item, which is taken three times.
fn jump_back() -> Item {
    Item {
        frame: 2,
        command: 177,
        p1: Param::Milli(0),
        p2: Param::Milli(3_000),
        p3: Param::Unset,
        p4: Param::Unset,
        x: 0,
        y: 0,
        z: 0,
        auto: true,
    }
}

fn read(kind: PlanType, id: u32, seq: u16) -> Request {
    Request::Read { kind, id, seq }
}

fn write(kind: PlanType, id: u32, seq: u16, item: Item) -> Request {
    Request::Write {
        kind,
        id,
        seq,
        item,
    }
}

fn commit(kind: PlanType, id: u32, count: u16) -> Request {
    Request::Commit { kind, id, count }
}

fn mark(id: u32, index: u16) -> Request {
    let counts = Counts::new();
    Request::SetMark(Mark { id, index, counts })
}

/// The mark at the first item of a mission, whose jump at this seq was taken so often.
fn jumped(id: u32, seq: u16, used: u16) -> Request
    requires { 1 ≤ used }
{
    let mut counts = Counts::new();
    counts.put(seq, used);
    Request::SetMark(Mark {
        id,
        index: 0,
        counts,
    })
}

impl MapStore {
    /// What is kept of a kind.
    fn of(&self, kind: PlanType) -> &KindStore
        ensures { held_of result.now ≡ of_kind (held self.now) kind }
    {
        match kind {
            PlanType::Mission => &self.mission,
            PlanType::Fence => &self.fence,
            PlanType::Safe => &self.safe,
        }
    }

    /// Whether the request can be served.
    fn can_serve(&self, alloc: Global, request: &Request) -> Result<bool, AllocError>
        ensures { IfOk result (λ can. IsTrue can → CanServe (held self.now) request.now) }
    {
        match *request {
            Request::Read { kind, id, seq } => Ok(can_read(self.of(kind), id, seq)),
            Request::Write { kind, id, seq, .. } => Ok(can_write(self.of(kind), kind, id, seq)),
            Request::Commit { kind, id, count } => can_commit(
                self.of(kind),
                alloc,
                kind,
                id,
                count,
            ),
            Request::SetMark(mark) => { Ok(can_mark(&self.mission, &mark)) }
        }
    }
}

/// The store answers each request so, one after another; where no answer stands, it can't serve the request.
fn expect_answers(
    rt: &impl Abort,
    alloc: Global,
    store: &mut MapStore,
    rows: &[(Request, Option<Reply>)],
) -> Result<(), Fail> {
    for (row, (request, answer)) in rows.iter().enumerate() {
        let can = store.can_serve(alloc, request)?;
        assert_eq!(rt; can, answer.is_some(), "row {row}");
        if can && let Some(answer) = answer {
            let reply = store.serve(request);
            assert!(rt; is_same_reply(&reply, answer), "row {row}");
        }
    }
    Ok(())
}

#[test]
fn what_was_written_last_is_committed_whole(rt: HostRuntime) -> Result<(), Fail> {
    let alloc = rt.alloc();
    let a = item(16, 470_000_000);
    let b = item(16, 480_000_000);
    let done = Some(Reply::Done);
    let mut store = MapStore::new(alloc)?;
    let rows = [
        (read(MISSION, 0, 0), None),
        (read(MISSION, 1, 0), Some(Reply::Stale(0))),
        (write(MISSION, 0, 0, a), None),
        (write(MISSION, 1, 2000, a), None),
        (write(MISSION, 1, 0, a), done),
        (write(MISSION, 1, 1, b), done),
        (read(MISSION, 1, 0), Some(Reply::Stale(0))),
        (commit(MISSION, 1, 3), None),
        (commit(MISSION, 1, 2), done),
        (read(MISSION, 1, 0), Some(Reply::Item(a))),
        (read(MISSION, 1, 1), Some(Reply::Item(b))),
        (read(MISSION, 1, 2), None),
        (mark(1, 3), None),
        (mark(1, 2), done),
        (mark(0, 9), Some(Reply::Stale(1))),
        // A draft whose first item is written for another plan is not whole any more.
        (write(MISSION, 2, 0, a), done),
        (write(MISSION, 2, 1, a), done),
        (write(MISSION, 3, 0, b), done),
        (commit(MISSION, 2, 2), None),
        (commit(MISSION, 3, 2), None),
        (commit(MISSION, 3, 1), done),
        (read(MISSION, 3, 0), Some(Reply::Item(b))),
        (read(MISSION, 1, 0), Some(Reply::Stale(3))),
        (mark(1, 2), Some(Reply::Stale(3))),
        (mark(3, 1), done),
    ];
    expect_answers(&rt, alloc, &mut store, &rows)
}

#[test]
fn kinds_are_kept_apart(rt: HostRuntime) -> Result<(), Fail> {
    let alloc = rt.alloc();
    let a = item(16, 470_000_000);
    let point = item(RALLY, 471_000_000);
    let done = Some(Reply::Done);
    let mut store = MapStore::new(alloc)?;
    let rows = [
        (write(MISSION, 1, 0, a), done),
        (commit(MISSION, 1, 1), done),
        // A safe point is no vertex of a fence, and the empty fence is valid.
        (write(SAFE, 1, 0, point), done),
        (commit(SAFE, 1, 1), done),
        (write(FENCE, 1, 0, point), done),
        (commit(FENCE, 1, 1), None),
        (commit(FENCE, 1, 0), done),
        (read(SAFE, 1, 0), Some(Reply::Item(point))),
        (read(FENCE, 0, 0), Some(Reply::Stale(1))),
        (read(MISSION, 1, 0), Some(Reply::Item(a))),
    ];
    expect_answers(&rt, alloc, &mut store, &rows)
}

#[test]
fn a_mark_counts_a_jump_up_to_its_repeats(rt: HostRuntime) -> Result<(), Fail> {
    let alloc = rt.alloc();
    let a = item(16, 470_000_000);
    let done = Some(Reply::Done);
    let mut store = MapStore::new(alloc)?;
    let rows = [
        (write(MISSION, 1, 0, a), done),
        (write(MISSION, 1, 1, jump_back()), done),
        (commit(MISSION, 1, 2), done),
        (jumped(1, 1, 1), done),
        (jumped(1, 1, 3), done),
        (jumped(1, 1, 4), None),
        // A waypoint and the mission's end are no jumps.
        (jumped(1, 0, 1), None),
        (jumped(1, 2, 1), None),
        (jumped(2, 1, 4), Some(Reply::Stale(1))),
        (mark(1, 1), done),
    ];
    expect_answers(&rt, alloc, &mut store, &rows)
}

#[test]
fn a_generation_rises_up_to_the_last_one(rt: HostRuntime) -> Result<(), Fail> {
    let alloc = rt.alloc();
    let a = item(16, 470_000_000);
    let done = Some(Reply::Done);
    let spent = Some(Reply::Spent(LAST));
    let mut store = MapStore::new(alloc)?;
    spend(&mut store.mission);
    store.mark_generation = LAST - 1;
    let rows = [
        (write(MISSION, 1, 0, a), done),
        (commit(MISSION, 1, 1), done),
        (write(MISSION, 2, 0, a), done),
        (commit(MISSION, 2, 1), spent),
        (read(MISSION, 1, 0), Some(Reply::Item(a))),
        (commit(MISSION, 2, 1), spent),
        (mark(1, 1), done),
        (mark(1, 0), spent),
        (mark(2, 0), Some(Reply::Stale(1))),
        (commit(FENCE, 1, 0), done),
    ];
    expect_answers(&rt, alloc, &mut store, &rows)
}
