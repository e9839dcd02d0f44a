//! The drafts that links write: of each kind and id the items so far.

ghost use Rattle.std.specs.Prelude.{◌≡◌, ◌++◌, ◌∷◌, [], ◌↔◌, ◌<◌, IfOk, OnOk, IsTrue, true, length};
ghost use Rattle.std.specs.List.{position};
ghost use Rattle.plan_vehicle.specs.Drafts.{is_draft, draft_of, with_written};

use mission_model::{Item, PlanType};
use std::alloc::{AllocError, Global};
use std::collections::VecDeque;
use std::marker::Model;

/// The items that were written of one draft.
#[derive(Drop)]
struct Draft {
    kind: PlanType,
    id: u32,
    items: Vec<Item>,
}

impl Model for Draft {
    ghost use Rattle.plan_vehicle.specs.Drafts.{DraftState};

    ghost Value = { DraftState };

    ghost view = { λ a. record { kind = a.kind; id = a.id; items = a.items.items } };
}

impl Draft {
    /// A draft of one item.
    fn begun(alloc: Global, kind: PlanType, id: u32, item: Item) -> Result<Draft, AllocError>
        ensures { IfOk result (λ draft. draft ≡ record { kind = kind; id = id; items = item ∷ [] }) }
    {
        Ok(Draft {
            kind,
            id,
            items: vec![in alloc; item]?,
        })
    }

    /// Whether the draft is of this kind and id.
    fn is_of(&self, kind: PlanType, id: u32) -> bool
        ensures { result ≡ is_draft kind id self.now }
    {
        self.kind == kind && self.id == id
    }

    /// The items, in order of their seqs.
    fn items(&self) -> &[Item]
        ensures { result.now ≡ self.now.items }
    {
        self.items.as_slice()
    }

    /// Writes the next item.
    fn push(&mut self, item: Item) -> Result<(), AllocError>
        ensures { IfOk result (λ _. self.new ≡ record self.old { items = self.old.items ++ item ∷ [] }) }
    {
        self.items.push(item)?;
        Ok(())
    }
}

/// All drafts of a boot, the newest first: that is where the next item mostly goes.
#[derive(Drop)]
pub struct Drafts {
    drafts: VecDeque<Draft>,
}

impl Model for Drafts {
    ghost use Rattle.std.specs.Prelude.{List};
    ghost use Rattle.plan_vehicle.specs.Drafts.{DraftState};

    ghost Value = { List DraftState };

    ghost view = { λ a. a.drafts.items };
}

impl Drafts {
    /// No draft was begun.
    pub fn new(alloc: Global) -> Drafts
        ensures { result ≡ [] }
    {
        Drafts {
            drafts: VecDeque::new(alloc),
        }
    }

    /// The items of the draft of this kind and id; there are none before the first was written.
    pub fn items(&self, kind: PlanType, id: u32) -> &[Item]
        ensures { result.now ≡ draft_of self.now kind id }
    {
        match self.place(kind, id) {
            Some(at) => self.drafts[at].items(),
            None => &[],
        }
    }

    /// Writes the next item of the draft of this kind and id.
    pub fn write(
        &mut self,
        alloc: Global,
        kind: PlanType,
        id: u32,
        item: Item,
    ) -> Result<(), AllocError>
        ensures { IfOk result (λ _. self.new ≡ with_written self.old kind id item) }
    {
        match self.place(kind, id) {
            Some(at) => self.drafts[at].push(item)?,
            None => self
                .drafts
                .push_front(Draft::begun(alloc, kind, id, item)?)?,
        }
        Ok(())
    }

    /// The place of the draft of this kind and id.
    fn place(&self, kind: PlanType, id: u32) -> Option<usize>
        ensures { result ≡ position (is_draft kind id) self.now }
    {
        self.drafts.iter().position(|draft| draft.is_of(kind, id))
    }
}
