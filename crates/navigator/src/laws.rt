//! Laws of what happens to the Navigator: events, replies, drops, and what others do to its board.

ghost use Rattle.std.specs.Prelude.{◌≡◌, ◌+◌, ◌-◌, ◌≤◌, ℕ, suc, List, length, Option};
ghost use Rattle.mission_model.specs.declared.plan.Home.{Home as HomeValue};
ghost use Rattle.mission_model.specs.declared.plan.Item.{Item as ItemValue};
ghost use Rattle.mission_model.specs.declared.plan.Params.{Params as ParamsValue};
ghost use Rattle.mission_model.specs.declared.plan.PlanType.{PlanType as KindValue};
ghost use Rattle.mission_model.specs.declared.vehicle.BootState.{BootState};
ghost use Rattle.mission_model.specs.declared.vehicle.NavEntry.{NavEntry as EntryValue};
ghost use Rattle.mission_model.specs.declared.vehicle.VehicleLine.{VehicleLine as LineValue};
ghost use Rattle.mission_model.specs.PlanTypes.{head_of};
ghost use Rattle.request_board.specs.BoardState.{BoardState};
ghost use Rattle.client_cache.specs.CacheState.{CacheState, count_of};
ghost use Rattle.client_cache.specs.Wants.{looked, Asks};
ghost use Rattle.navigator.specs.Uses.{JumpUses as UsesValue};
ghost use Rattle.navigator.specs.Taking.{PlanTaken, taking};
ghost use Rattle.navigator.specs.LooksInTurn.{LooksInTurn, KnownUpTo};
ghost use Rattle.navigator.specs.LooksAtTaking.{HasFlags};
ghost use Rattle.navigator.specs.NavState.{NavState, NavTaken, with_taken, cache_of};
ghost use Rattle.navigator.specs.EventLaw.{EventLaw, CanTick, nav_at_boot};
ghost use Rattle.navigator.specs.NavCalls.{NavCall, Does, IsOwn};
ghost use Rattle.navigator.specs.Asking.{head_met, HasAsked, EventAsks, StandsBeside};
ghost use Rattle.navigator.specs.OnePlan.{Plans, Publishes, FromPlans, OfPlans, DoesAll, TakenOf};

/// An event leaves what the next one needs. It adopts the published heads; it asks reads of one adopted plan and at most the
/// mark of the place. That the requests outstanding on the board are those that the Navigator asked holds at a boot and stays,
/// whatever happens. Beside a board whose heads and index are in order it is all that an event needs, and what the Navigator
/// does leaves them in order.
pub fn an_event_leaves_the_next()
    ensures heads { (v : NavTaken) (b : BoardState) (line : LineValue) (entry : EntryValue) (v' : NavTaken) (b' : BoardState) → HasAsked v b → EventLaw v b line entry v' b' → (type : KindValue) → (cache_of type v').head ≡ head_met (cache_of type v).head (head_of b.published type) }
    ensures asks { (v : NavTaken) (b : BoardState) (line : LineValue) (entry : EntryValue) (v' : NavTaken) (b' : BoardState) → HasAsked v b → EventLaw v b line entry v' b' → EventAsks v b v' b' }
    ensures boot { (params : ParamsValue) (home : Option HomeValue) (boot : BootState) (b : BoardState) → HasAsked (nav_at_boot params home boot) b }
    ensures stays { (call : NavCall) (v : NavTaken) (b : BoardState) (v' : NavTaken) (b' : BoardState) → Does v b call v' b' → HasAsked v b → HasAsked v' b' }
    ensures stands { (call : NavCall) (v : NavTaken) (b : BoardState) (v' : NavTaken) (b' : BoardState) → IsOwn call → Does v b call v' b' → HasAsked v b → StandsBeside v.mission.cache.head b → StandsBeside v'.mission.cache.head b' }
    ensures needs { (n : NavState) (items : List ItemValue) (b : BoardState) → HasAsked (with_taken n items) b → StandsBeside n.mission.cache.head b → CanTick n b }
{}

/// Where boards publish, and replies bring, items of one plan for each type and id, what was taken of a type is at all times a
/// beginning of the plan of the adopted id, and what is known is that plan's: after each step, and after any list of them from
/// a boot on.
pub fn taken_of_one_plan()
    ensures boot { (plans : Plans) (params : ParamsValue) (home : Option HomeValue) (boot : BootState) → Publishes plans boot.heads → FromPlans plans (nav_at_boot params home boot) }
    ensures stays { (plans : Plans) (call : NavCall) (v : NavTaken) (b : BoardState) (v' : NavTaken) (b' : BoardState) → HasAsked v b → OfPlans plans b call → Does v b call v' b' → FromPlans plans v → FromPlans plans v' }
    ensures acts { (plans : Plans) (v : NavTaken) (b : BoardState) (line : LineValue) (entry : EntryValue) (v' : NavTaken) (b' : BoardState) → HasAsked v b → Publishes plans b.published → FromPlans plans v → (e : EventLaw v b line entry v' b') → TakenOf plans v b line entry v' b' e }
    ensures all { (plans : Plans) (params : ParamsValue) (home : Option HomeValue) (boot : BootState) (b : BoardState) (calls : List NavCall) (v' : NavTaken) (b' : BoardState) → Publishes plans boot.heads → DoesAll plans (nav_at_boot params home boot) b calls v' b' → HasAsked v' b' × FromPlans plans v' }
{}

/// Looks in turn at items that are known and at the first behind them ask, together, what a look at that one alone asks. So a
/// plan that is taken on and looked at where its first item is lacking asks what looks at each item in turn would ask, from the
/// first that was not taken before. The cache is to have a flag for each seq of its plan, as one has that adopted it.
pub fn looks_in_turn_ask_once()
    ensures known { (c : CacheState) (b : BoardState) (from n : ℕ) (c' : CacheState) (b' : BoardState) → HasFlags c → KnownUpTo c from (from + n) → from + n ≤ count_of c.head
        → LooksInTurn c b from (suc n) c' b' → Asks c b (looked c b (from + n)) c' b' }
    ensures taking { (uses : UsesValue) (p : PlanTaken) (b : BoardState) (c' : CacheState) (b' : BoardState) → HasFlags p.cache → length p.taken ≤ count_of p.cache.head
        → LooksInTurn (taking uses p).cache b (length p.taken) (suc (length (taking uses p).taken - length p.taken)) c' b'
        → Asks (taking uses p).cache b (looked (taking uses p).cache b (length (taking uses p).taken)) c' b' }
{}
