//! The mission: what is known of it, and the judge, which is shown each item as it is taken. The items are not kept.

ghost use Rattle.std.specs.Prelude.{◌≡◌, ◌<◌, ◌≤◌, ◌↔◌, ◌⊎◌, [], length, IsTrue, List, Option, true, false};
ghost use Rattle.std.specs.Option.{ForSome};
ghost use Rattle.mission_model.specs.declared.limits.TheConstants.{MAX_MISSION_ITEMS};
ghost use Rattle.mission_model.specs.declared.plan.Home.{Home as HomeValue};
ghost use Rattle.mission_model.specs.declared.plan.Item.{Item as ItemValue};
ghost use Rattle.mission_model.specs.declared.plan.Params.{Params as ParamsValue};
ghost use Rattle.mission_model.specs.declared.plan.PlanType.TheVariants as kind;
ghost use Rattle.mission_model.specs.declared.request.Client.TheVariants as client;
ghost use Rattle.mission_model.specs.Feasible.{FirstBroken};
ghost use Rattle.mission_model.specs.Returns.{is_feasible, landing_where};
ghost use Rattle.client_cache.specs.CacheState.{count_of, has_id, id_of, known_at, in_window, adopted, got, forgotten};
ghost use Rattle.client_cache.specs.Moves.{moved};
ghost use Rattle.client_cache.specs.Wants.{looked, Asks};
ghost use Rattle.navigator.specs.Taking.{whole_taking, cache_behind};
ghost use Rattle.navigator.specs.Judging.{ShownTo};

use crate::taking::take_next;
use crate::uses::JumpUses;
use crate::windows::{has_id, id_of};
use client_cache::Cache;
use feasibility::{Judge, Verdict};
use fence_polygon::Fence;
use mission_model::{Asked, Home, Item, Params, PlanCheck, PlanHead, PlanType, Reply};
use request_board::Board;
use std::marker::Model;

/// The mission as it is known and judged.
#[derive(Drop)]
pub struct TakenMission {
    cache: Cache,
    check: PlanCheck,
    judge: Judge,
}

impl Model for TakenMission {
    ghost use Rattle.navigator.specs.Judging.{MissionTaken};

    ghost Value = { MissionTaken };

    ghost use Rattle.std.specs.Prelude.{◌≡◌};
    ghost use Rattle.mission_model.specs.declared.request.Client.TheVariants.{Nav};
    ghost use Rattle.navigator.specs.Judging.{WasShown};

    ghost view = { λ a. record { cache = a.cache; check = a.check; judge = a.judge } };

    ghost invariant = { λ a. WasShown (record { cache = a.cache; check = a.check; judge = a.judge }) × (a.cache.client ≡ Nav) };
}

/// A fence that allows each place.
fn no_fence() -> Fence
    ensures { result ≡ [] }
{
    Fence::from_items(&[])
}

impl TakenMission {
    /// The mission that a window has adopted, of which no item was taken.
    pub fn begin(cache: Cache, params: Params, home: Option<Home>) -> TakenMission
        requires client { cache.client ≡ client.Nav }
        requires limit { count_of cache.head ≤ MAX_MISSION_ITEMS }
        ensures cache { result.cache ≡ cache }
        ensures shown { ShownTo result params home [] [] }
    {
        let count = cache.count();
        TakenMission {
            check: PlanCheck::begin(PlanType::Mission, count),
            judge: Judge::begin(params, home, &no_fence(), count),
            cache,
        }
    }

    /// Adopts a published head. Where the taking begins anew no item stays taken.
    pub fn meet(&mut self, head: PlanHead, anew: bool, params: Params, home: Option<Home>)
        requires limit { head.count ≤ MAX_MISSION_ITEMS }
        requires anew { (has_id self.old.cache.head head.id ≡ true) ⊎ (anew ≡ true) }
        ensures cache { self.new.cache ≡ adopted self.old.cache head }
        ensures begun { anew ≡ true → ShownTo self.new params home [] [] }
        ensures kept { anew ≡ false → self.new ≡ self.old }
    {
        if anew {
            self.cache.adopt(head);
            let count = self.cache.count();
            self.check = PlanCheck::begin(PlanType::Mission, count);
            self.judge.restart(params, home, no_fence(), count);
        }
    }

    /// Begins the taking anew, to judge the mission by this fence.
    pub fn restart(&mut self, params: Params, home: Option<Home>, fence: Fence)
        ensures cache { self.new.cache ≡ self.old.cache }
        ensures shown { ShownTo self.new params home fence [] }
    {
        let count = self.cache.count();
        self.check = PlanCheck::begin(PlanType::Mission, count);
        self.judge.restart(params, home, fence, count);
    }

    /// Whether the adopted mission has this id.
    pub fn has_id(&self, id: u32) -> bool
        ensures { result ≡ has_id self.now.cache.head id }
    {
        has_id(self.cache.head(), id)
    }

    /// The adopted mission's id.
    pub fn id(&self) -> u32
        ensures { result ≡ id_of self.now.cache.head }
    {
        id_of(self.cache.head())
    }

    /// How many items the adopted mission has.
    pub fn count(&self) -> u16
        ensures count { result ≡ count_of self.now.cache.head }
        ensures limit { result ≤ MAX_MISSION_ITEMS }
    {
        self.cache.count()
    }

    /// Whether all items were taken.
    pub fn is_whole(&self) -> bool
        ensures whole { (params : ParamsValue) (home : Option HomeValue) (fence items : List ItemValue) → ShownTo self.now params home fence items → IsTrue result ↔ (length items ≡ count_of self.now.cache.head) }
        ensures part { result ≡ false → self.now.check.taken < count_of self.now.cache.head }
    {
        !self.check.has_room()
    }

    /// The seq of the item that is taken next.
    pub fn next_seq(&self) -> u16
        ensures next { (params : ParamsValue) (home : Option HomeValue) (fence items : List ItemValue) → ShownTo self.now params home fence items → result ≡ length items }
        ensures taken { result ≡ self.now.check.taken }
    {
        self.check.taken()
    }

    /// The fence that the mission is judged by.
    pub fn fence(&self) -> &Fence
        ensures { (params : ParamsValue) (home : Option HomeValue) (fence items : List ItemValue) → ShownTo self.now params home fence items → result.now ≡ fence }
    {
        self.judge.fence()
    }

    /// Of a mission that was taken whole the first broken rule, and the item that breaks it.
    pub fn first_broken(&self) -> Option<(u8, u16)>
        ensures { (params : ParamsValue) (home : Option HomeValue) (fence items : List ItemValue) → ShownTo self.now params home fence items → length items ≡ count_of self.now.cache.head → result ≡ FirstBroken params home items fence }
    {
        match self.judge.verdict() {
            Some(Verdict::Broken { rule, item }) => Some((rule, item)),
            Some(Verdict::Feasible) => None,
            None => None,
        }
    }

    /// Of a mission that was taken whole whether it is feasible, and its land start and landing.
    pub fn for_return(&self) -> (bool, Option<(u16, u16)>)
        ensures in_order { ForSome result.1 (λ found. IsTrue result.0 × (found.0 < found.1)) }
        ensures whole { (params : ParamsValue) (home : Option HomeValue) (fence items : List ItemValue) → ShownTo self.now params home fence items → length items ≡ count_of self.now.cache.head
            → (result.0 ≡ is_feasible params home items fence) × (result.1 ≡ landing_where (is_feasible params home items fence) items) }
    {
        match self.judge.verdict() {
            Some(Verdict::Feasible) => (true, self.judge.landing()),
            Some(Verdict::Broken { .. }) => (false, None),
            None => (false, None),
        }
    }

    /// What is known of the item at a seq.
    pub fn known(&self, seq: u16) -> Option<Item>
        ensures { result ≡ known_at self.now.cache seq }
    {
        self.cache.known(seq)
    }

    /// Forgets the item at a seq.
    pub fn forget(&mut self, seq: u16)
        ensures { self.new ≡ record self.old { cache = forgotten self.old.cache seq } }
    {
        self.cache.forget(seq);
    }

    /// Whether a seq is in the window.
    pub fn covers(&self, seq: u16) -> bool
        ensures { result ≡ in_window self.now.cache seq }
    {
        self.cache.covers(seq)
    }

    /// Looks at the item at a seq.
    pub fn look(&mut self, board: &mut Board, seq: u16)
        ensures asks { Asks self.old.cache board.old (looked self.old.cache board.old seq) self.new.cache board.new }
        ensures shown { self.new ≡ record self.old { cache = self.new.cache } }
        ensures client { self.old.cache.client ≡ client.Nav }
        ensures limit { count_of self.old.cache.head ≤ MAX_MISSION_ITEMS }
    {
        let _ = self.cache.look_at(board, seq);
    }

    /// Takes a reply to a read.
    pub fn got(&mut self, asked: &Asked, reply: &Reply)
        ensures { self.new ≡ record self.old { cache = got self.old.cache asked.now reply.now } }
    {
        let _ = self.cache.got(asked, reply);
    }

    /// Lets the window begin at a seq.
    pub fn aim(&mut self, seq: u16)
        ensures { self.new ≡ record self.old { cache = moved self.old.cache seq (length self.old.cache.known) } }
    {
        self.cache.aim(seq);
    }

    /// Takes all items that can be taken now, and shows them to the judge.
    pub fn take_on(&mut self, uses: &JumpUses)
        ensures taken { (params : ParamsValue) (home : Option HomeValue) (fence items : List ItemValue) → ShownTo self.old params home fence items
            → let all = whole_taking kind.Mission uses.now self.old.cache items in
            (self.new.cache ≡ cache_behind self.old.cache (length all)) × ShownTo self.new params home fence all }
        ensures count { count_of self.new.cache.head ≡ count_of self.old.cache.head }
    {
        for _ in self.check.taken()..self.cache.count() {
            match take_next(PlanType::Mission, &mut self.cache, &mut self.check, uses) {
                Some(item) => self.judge.feed(&item),
                None => return,
            }
        }
    }
}
