//! Laws on plans that are written item by item, and on device calls that fail.

ghost use Rattle.std.specs.Prelude.{◌≡◌, ◌≢◌, ◌<◌, ◌↔◌, ℕ, List, Some, length};
ghost use Rattle.first_model.specs.declared.limits.TheConstants.{LAST_GENERATION};
ghost use Rattle.first_model.specs.declared.plan.Item.{Item};
ghost use Rattle.first_model.specs.declared.plan.PlanType.{PlanType};
ghost use Rattle.first_model.specs.declared.request.Request.{Request};
ghost use Rattle.first_model.specs.declared.request.Request.TheVariants.{Commit, Write};
ghost use Rattle.first_model.specs.PlanCode.{PlanValid};
ghost use Rattle.first_store.specs.StoreState.{Change, StoreState, of_kind, plan_of};
ghost use Rattle.first_store.specs.Serve.{Fate, Fault, Well, InSettling, InRequest, after};
ghost use Rattle.first_store.specs.CanServe.{CanServe};
ghost use Rattle.first_store.specs.WholePlans.{write_all, SameInForce};
ghost use Rattle.first_store.specs.FailedCalls.{IsDoubtAfter, IsUnwritten};

/// Whatever was written before: items that are written one after another change nothing that is in force. Written from
/// the first one on, they can be committed where they are a valid plan and newer than the one in force, and their
/// commit puts just these items in force, as a whole. The plans of the other kinds stay, whatever the device does.
pub fn plans_change_whole()
    ensures written { (st : StoreState) (kind : PlanType) (id seq : ℕ) (items : List Item) → SameInForce st (write_all st kind id seq items) }
    ensures can { (st : StoreState) (kind : PlanType) (id : ℕ) (items : List Item) → (plan_of st kind).id < id → PlanValid kind items → CanServe (write_all st kind id 0 items) (Commit kind id (length items)) }
    ensures committed { (st : StoreState) (kind : PlanType) (id : ℕ) (items : List Item) → (of_kind st kind).generation ≢ LAST_GENERATION → plan_of (after Well (write_all st kind id 0 items) (Commit kind id (length items))) kind ≡ record { id = id; items = items } }
    ensures others { (fate : Fate) (st : StoreState) (kind other : PlanType) (id count : ℕ) → other ≢ kind → plan_of (after fate st (Commit kind id count)) other ≡ plan_of st other }
{}

/// Whatever was asked: where a device call failed, or the power went in it, each plan, the mark and each generation stay
/// in force as they were. A store is in doubt exactly about a change whose gate did not open as asked, or still about what
/// could not be settled; then it is as it was. After a write that failed no plan has an item at that seq, so none can be
/// committed over it until it is written again.
pub fn failures_change_no_plan()
    ensures in_force { (fate : Fate) (st : StoreState) (asked : Request) → fate ≢ Well → SameInForce st (after fate st asked) }
    ensures doubt { (fate : Fate) (st : StoreState) (asked : Request) (change : Change) → (after fate st asked).doubt ≡ Some change ↔ IsDoubtAfter fate st asked change }
    ensures unsettled { (fault : Fault) (st : StoreState) (asked : Request) → after (InSettling fault) st asked ≡ st }
    ensures unwritten { (fault : Fault) (st : StoreState) (kind : PlanType) (id seq : ℕ) (item : Item) → IsUnwritten (of_kind st kind).drafts (of_kind (after (InRequest fault) st (Write kind id seq item)) kind).drafts seq }
{}
