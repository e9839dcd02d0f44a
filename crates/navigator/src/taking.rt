//! One step of the taking of a plan, and the law of what is taken.

ghost use Rattle.std.specs.Prelude.{◌≡◌, ◌<◌, ◌≤◌, ℕ, length, Some, None, true, List};
ghost use Rattle.mission_model.specs.declared.plan.Item.{Item as ItemValue};
ghost use Rattle.mission_model.specs.declared.plan.PlanType.{PlanType as KindValue};
ghost use Rattle.mission_model.specs.PlanCheck.{Checked, HasRoom};
ghost use Rattle.client_cache.specs.CacheState.{CacheState, count_of, known_at};
ghost use Rattle.navigator.specs.Uses.{JumpUses as UsesValue};
ghost use Rattle.navigator.specs.Taking.{TakesNext, whole_taking, can_follow};
ghost use Rattle.client_cache.specs.Knowing.{Knows};
ghost use Rattle.navigator.specs.Begins.{Begins};

use crate::uses::JumpUses;
use client_cache::Cache;
use mission_model::{Item, PlanCheck, PlanType};

/// Takes the next item, where it is known, goes with the uses and passes the check. One that is known and may not be taken is
/// forgotten, so that a look asks it again.
pub fn take_next(
    kind: PlanType,
    cache: &mut Cache,
    check: &mut PlanCheck,
    uses: &JumpUses,
) -> Option<Item>
    requires { HasRoom check.old }
    ensures { (items : List ItemValue) → Checked check.old kind (count_of cache.old.head) items
        → TakesNext kind uses.now cache.old items result cache.new check.new }
{
    let seq = check.taken();
    let item = cache.known(seq)?;
    if uses.go_with(kind, seq, &item) {
        match check.next(&item) {
            Ok(()) => return Some(item),
            Err(_) => {}
        }
    }
    cache.forget(seq);
    None
}

/// What is taken of a plan whose own items the cache knows stays a beginning of it; the taking stops at an item only where that
/// is not known, as long as each known one may follow; and a beginning of all its items is the plan.
pub fn taken_is_a_beginning()
    ensures begins { (kind : KindValue) (uses : UsesValue) (c : CacheState) (items plan : List ItemValue) → Knows c plan → Begins items plan → Begins (whole_taking kind uses c items) plan }
    ensures stops { (kind : KindValue) (uses : UsesValue) (c : CacheState) (items : List ItemValue) → length items ≤ count_of c.head → length (whole_taking kind uses c items) < count_of c.head
        → ((item : ItemValue) → known_at c (length (whole_taking kind uses c items)) ≡ Some item → can_follow kind uses (count_of c.head) (whole_taking kind uses c items) item ≡ true)
        → known_at c (length (whole_taking kind uses c items)) ≡ None }
    ensures whole { (items plan : List ItemValue) → Begins items plan → length items ≡ length plan → items ≡ plan }
{}
