//! Whether requests can be served, for tests.

ghost use Rattle.std.specs.Prelude.{◌≡◌, ◌<◌, ◌≤◌, length, IfOk, IsTrue};
ghost use Rattle.std.specs.List.{All};
ghost use Rattle.mission_model.specs.CountsList.{pairs_of};
ghost use Rattle.mission_model.specs.PlainMark.{plain_mark};
ghost use Rattle.plan_store.specs.CanServe.{IsJumpUsed, MarkFits, CanWrite, CanCommit};
ghost use Rattle.plan_store.specs.MapStore.{held_of};

use super::*;
use mission_model::command::jump_of;
use mission_model::{Counts, Mark, PlanType, check_plan, limit_of};

/// An item of the plan in force stands at the seq.
fn has_item(kind: &KindStore, seq: u16) -> bool
    ensures { IsTrue result → seq < length (held_of kind.now).plan.items }
{
    seq < kind.count
}

/// An item of the plan in force stands at the seq, or another plan is in force.
pub fn can_read(kind: &KindStore, id: u32, seq: u16) -> bool
    ensures { IsTrue result → id ≡ kind.now.id → seq < length (held_of kind.now).plan.items }
{
    kind.id != id || has_item(kind, seq)
}

/// The index is of an item of the plan in force or its end.
fn has_index(kind: &KindStore, index: u16) -> bool
    ensures { IsTrue result → index ≤ length (held_of kind.now).plan.items }
{
    index <= kind.count
}

/// The jump at the pair's seq repeats as often as it is used.
fn is_jump_used(kind: &KindStore, pair: (u16, u16)) -> bool
    ensures { IsTrue result → IsJumpUsed (held_of kind.now).plan.items pair }
{
    if !has_item(kind, pair.0) {
        return false;
    }
    match jump_of(&kind.item(pair.0)) {
        Some(jump) => pair.1 <= jump.repeats,
        None => false,
    }
}

/// Each pair is of a jump of the plan in force that repeats so often.
fn are_jumps_used(kind: &KindStore, counts: &Counts) -> bool
    ensures { IsTrue result → All (IsJumpUsed (held_of kind.now).plan.items) (pairs_of counts.now) }
{
    for place in 0..counts.len() {
        if !is_jump_used(kind, counts.pair(place)) {
            return false;
        }
    }
    true
}

/// The mark is of another mission, or it stands in the one in force and counts jumps of it.
pub fn can_mark(kind: &KindStore, mark: &Mark) -> bool
    ensures { IsTrue result → mark.now.id ≡ kind.now.id → MarkFits (plain_mark mark.now) (held_of kind.now).plan }
{
    kind.id != mark.id || has_index(kind, mark.index) && are_jumps_used(kind, &mark.counts)
}

/// An item of this plan can be written at the seq.
pub fn can_write(kind: &KindStore, of: PlanType, id: u32, seq: u16) -> bool
    ensures { IsTrue result → CanWrite (held_of kind.now) of id seq }
{
    kind.id < id && seq < limit_of(of)
}

/// This plan can be committed.
pub fn can_commit(
    kind: &KindStore,
    alloc: Global,
    of: PlanType,
    id: u32,
    count: u16,
) -> Result<bool, AllocError>
    ensures { IfOk result (λ can. IsTrue can → CanCommit (held_of kind.now) of id count) }
{
    let mut items = Vec::new(alloc);
    for seq in 0..count {
        match kind.next.at(seq) {
            Some(written) if written.id == id => items.push(written.item)?,
            _ => return Ok(false),
        }
    }
    let valid = check_plan(of, items.as_slice()).is_ok();
    Ok(valid && kind.id < id && count <= limit_of(of))
}

/// The cell has one generation left.
pub fn spend(kind: &mut KindStore)
    ensures { length kind.new.next ≡ length kind.old.next }
{
    kind.generation = LAST_GENERATION - 1;
}
