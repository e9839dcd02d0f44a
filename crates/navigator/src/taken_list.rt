//! The fence or the safe points: what is known of the plan, and its items that were taken, which are kept.

ghost use Rattle.std.specs.Prelude.{◌≡◌, ◌<◌, ◌≤◌, ◌↔◌, ◌⊎◌, [], length, IsTrue, true};
ghost use Rattle.mission_model.specs.declared.limits.TheConstants.{MAX_FENCE_VERTICES};
ghost use Rattle.mission_model.specs.declared.plan.PlanType.TheVariants as kind;
ghost use Rattle.mission_model.specs.declared.request.Client.TheVariants as client;
ghost use Rattle.mission_model.specs.PlanCode.{PlanValid};
ghost use Rattle.mission_model.specs.PlanTypes.{limit_of};
ghost use Rattle.client_cache.specs.CacheState.{count_of, has_id, id_of, known_at, in_window, got};
ghost use Rattle.client_cache.specs.Moves.{moved};
ghost use Rattle.client_cache.specs.Wants.{looked, Asks};
ghost use Rattle.navigator.specs.Judging.{no_uses};
ghost use Rattle.navigator.specs.Taking.{taking, plan_met};

use crate::item_list::ItemList;
use crate::taking::take_next;
use crate::uses::JumpUses;
use crate::windows::{has_id, id_of};
use client_cache::Cache;
use fence_polygon::Fence;
use mission_model::{Asked, Item, PlanCheck, PlanHead, PlanType, Reply};
use request_board::Board;
use std::marker::Model;

/// A plan whose items are kept as they are taken.
#[derive(Drop)]
pub struct TakenList {
    kind: PlanType,
    cache: Cache,
    check: PlanCheck,
    items: ItemList,
}

impl Model for TakenList {
    ghost use Rattle.navigator.specs.Taking.{PlanTaken};

    ghost Value = { PlanTaken };

    ghost use Rattle.std.specs.Prelude.{◌≡◌, ◌≤◌, length};
    ghost use Rattle.mission_model.specs.declared.limits.TheConstants.{MAX_FENCE_VERTICES};
    ghost use Rattle.mission_model.specs.declared.request.Client.TheVariants.{Nav};
    ghost use Rattle.mission_model.specs.PlanCheck.{Checked};
    ghost use Rattle.mission_model.specs.PlanTypes.{limit_of};
    ghost use Rattle.client_cache.specs.CacheState.{count_of};

    ghost view = { λ a. record { kind = a.kind; cache = a.cache; taken = a.items } };

    ghost invariant = { λ a. Checked a.check a.kind (count_of a.cache.head) a.items × (length a.items ≤ count_of a.cache.head) × (count_of a.cache.head ≤ limit_of a.kind) × (count_of a.cache.head ≤ MAX_FENCE_VERTICES) × (a.cache.client ≡ Nav) };
}

impl TakenList {
    /// The plan that a window has adopted, of which no item was taken.
    pub fn begin(kind: PlanType, cache: Cache) -> TakenList
        requires client { cache.client ≡ client.Nav }
        requires limit { count_of cache.head ≤ limit_of kind }
        requires room { count_of cache.head ≤ MAX_FENCE_VERTICES }
        ensures { result ≡ record { kind = kind; cache = cache; taken = [] } }
    {
        TakenList {
            kind,
            check: PlanCheck::begin(kind, cache.count()),
            items: ItemList::new(),
            cache,
        }
    }

    /// Adopts a published head. Where the taking begins anew no item stays taken.
    pub fn meet(&mut self, head: PlanHead, anew: bool)
        requires limit { head.count ≤ limit_of self.old.kind }
        requires room { head.count ≤ MAX_FENCE_VERTICES }
        requires anew { (has_id self.old.cache.head head.id ≡ true) ⊎ (anew ≡ true) }
        ensures { self.new ≡ plan_met self.old head anew }
    {
        self.cache.adopt(head);
        if anew {
            self.check = PlanCheck::begin(self.kind, self.cache.count());
            self.items.clear();
        }
    }

    /// Whether the adopted plan has this id.
    pub fn has_id(&self, id: u32) -> bool
        ensures { result ≡ has_id self.now.cache.head id }
    {
        has_id(self.cache.head(), id)
    }

    /// The adopted plan's id.
    pub fn id(&self) -> u32
        ensures { result ≡ id_of self.now.cache.head }
    {
        id_of(self.cache.head())
    }

    /// Whether a seq is in the window.
    pub fn covers(&self, seq: u16) -> bool
        ensures { result ≡ in_window self.now.cache seq }
    {
        self.cache.covers(seq)
    }

    /// Looks at the item at a seq.
    pub fn look(&mut self, board: &mut Board, seq: u16)
        ensures asks { Asks self.old.cache board.old (looked self.old.cache board.old seq) self.new.cache board.new }
        ensures kind { self.new.kind ≡ self.old.kind }
        ensures taken { self.new.taken ≡ self.old.taken }
        ensures client { self.old.cache.client ≡ client.Nav }
    {
        let _ = self.cache.look_at(board, seq);
    }

    /// Takes a reply to a read.
    pub fn got(&mut self, asked: &Asked, reply: &Reply)
        ensures { self.new ≡ record self.old { cache = got self.old.cache asked.now reply.now } }
    {
        let _ = self.cache.got(asked, reply);
    }

    /// Lets the window begin at a seq.
    pub fn aim(&mut self, seq: u16)
        ensures { self.new ≡ record self.old { cache = moved self.old.cache seq (length self.old.cache.known) } }
    {
        self.cache.aim(seq);
    }

    /// Takes all items that can be taken now.
    pub fn take_on(&mut self)
        ensures { self.new ≡ taking no_uses self.old }
    {
        let uses = JumpUses::none();
        for _ in self.check.taken()..self.cache.count() {
            match take_next(self.kind, &mut self.cache, &mut self.check, &uses) {
                Some(item) => self.items.push(&item),
                None => return,
            }
        }
    }

    /// Whether all items were taken.
    pub fn is_whole(&self) -> bool
        ensures whole { IsTrue result ↔ (length self.now.taken ≡ count_of self.now.cache.head) }
        ensures within { length self.now.taken ≤ count_of self.now.cache.head }
    {
        !self.check.has_room()
    }

    /// The seq of the item that is taken next.
    pub fn next_seq(&self) -> u16
        ensures { result ≡ length self.now.taken }
    {
        self.check.taken()
    }

    /// The safe points that were taken, which are valid safe points of their own.
    pub fn points(&self) -> &[Item]
        requires { self.now.kind ≡ kind.Safe }
        ensures points { result.now ≡ self.now.taken }
        ensures valid { PlanValid kind.Safe result.now }
    {
        self.items.as_slice()
    }

    /// The fence, once all its vertices were taken.
    pub fn fence(&self) -> Fence
        requires kind { self.now.kind ≡ kind.Fence }
        requires whole { length self.now.taken ≡ count_of self.now.cache.head }
        ensures { result ≡ self.now.taken }
    {
        Fence::from_items(self.items.as_slice())
    }
}
