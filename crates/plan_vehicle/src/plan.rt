//! A plan as the lines of a record show it: its id, and its items as far as they are told.

ghost use Rattle.std.specs.Prelude.{◌≡◌, ◌<◌, ◌↔◌, IfOk, IsTrue, false, length, map, Some, None, take, replicate, MatchOption};
ghost use Rattle.plan_vehicle.specs.PlanState.{untold, told, told_at, with_told, told_items, plan_head, IsKnown, CanBe};
ghost use Rattle.plan_vehicle.specs.VehicleState.{no_plan};

use mission_model::{Item, PlanHead, PlanType, check_plan, is_same_item};
use std::alloc::{AllocError, Global};
use std::marker::Model;

/// A plan in force.
#[derive(Drop)]
pub struct Plan {
    id: u32,
    items: Vec<Option<Item>>,
}

impl Model for Plan {
    ghost use Rattle.plan_vehicle.specs.PlanState.{PlanState};

    ghost Value = { PlanState };

    ghost view = { λ a. record { id = a.id; items = a.items.items } };
}

impl Plan {
    /// No plan.
    pub fn none(alloc: Global) -> Plan
        ensures { result ≡ no_plan }
    {
        Plan {
            id: 0,
            items: Vec::new(alloc),
        }
    }

    /// The plan of a head, with no item told.
    pub fn untold(alloc: Global, head: PlanHead) -> Result<Plan, AllocError>
        ensures { IfOk result (λ plan. plan ≡ untold head) }
    {
        Ok(Plan {
            id: head.id,
            items: vec![in alloc; None; head.count as usize]?,
        })
    }

    /// The plan of these items, each of them told.
    pub fn told(alloc: Global, id: u32, items: &[Item]) -> Result<Plan, AllocError>
        ensures { IfOk result (λ plan. plan ≡ told id items.now) }
    {
        Ok(Plan {
            id,
            items: told_items(alloc, items)?,
        })
    }

    /// The plan's id.
    pub fn id(&self) -> u32
        ensures { result ≡ self.now.id }
    {
        self.id
    }

    /// The number of items.
    pub fn count(&self) -> usize
        ensures { result ≡ length self.now.items }
    {
        self.items.len()
    }

    /// Whether this is the plan's head.
    pub fn has_head(&self, head: PlanHead) -> bool
        ensures { IsTrue result ↔ (plan_head self.now ≡ head) }
    {
        self.id == head.id && self.items.len() == usize::from(head.count)
    }

    /// The item at a seq, where it is told.
    pub fn item(&self, seq: u16) -> Option<Item>
        ensures { result ≡ told_at self.now seq }
    {
        *self.items.get(seq as usize)?
    }

    /// Whether the item at a seq is this one, or is untold.
    pub fn can_be(&self, seq: u16, item: &Item) -> bool
        ensures { IsTrue result ↔ ((seq < length self.now.items) × CanBe (told_at self.now seq) item.now) }
    {
        match self.items.get(seq as usize) {
            Some(Some(told)) => is_same_item(told, item),
            Some(None) => true,
            None => false,
        }
    }

    /// Tells the item at a seq, and says whether that is news.
    pub fn tell(&mut self, seq: u16, item: Item) -> bool
        requires within { seq < length self.old.items }
        requires item_is { CanBe (told_at self.old seq) item }
        ensures told { self.new ≡ with_told self.old seq item }
        ensures known { result ≡ false → self.new ≡ self.old }
    {
        if self.items[seq as usize].is_some() {
            return false;
        }
        self.items[seq as usize] = Some(item);
        true
    }
}

impl Plan {
    /// The items, where all are told and they are a valid plan of this type.
    pub fn known(&self, alloc: Global, kind: PlanType) -> Result<Option<Vec<Item>>, AllocError>
        ensures { IfOk result (λ known. MatchOption known (IsKnown kind self.now → ⊥) (λ items. IsKnown kind self.now × (items.items ≡ told_items self.now))) }
    {
        match self.all_told(alloc)? {
            Some(items) if check_plan(kind, items.as_slice()).is_ok() => Ok(Some(items)),
            _ => Ok(None),
        }
    }

    /// The items, where all are told.
    fn all_told(&self, alloc: Global) -> Result<Option<Vec<Item>>, AllocError>
        ensures { IfOk result (λ known. MatchOption known (self.now.items ≡ map (λ item. Some item) (told_items self.now) → ⊥) (λ items. (self.now.items ≡ map (λ item. Some item) (told_items self.now)) × (items.items ≡ told_items self.now))) }
    {
        let mut items = Vec::with_capacity(alloc, self.items.len())?;
        for item in &self.items {
            match item {
                Some(item) => items.push(*item)?,
                None => return Ok(None),
            }
        }
        Ok(Some(items))
    }
}

/// Items, each of them told.
fn told_items(alloc: Global, items: &[Item]) -> Result<Vec<Option<Item>>, AllocError>
    ensures { IfOk result (λ told. told.items ≡ map (λ item. Some item) items.now) }
{
    let mut told = Vec::with_capacity(alloc, items.len())?;
    for item in items {
        told.push(Some(*item))?;
    }
    Ok(told)
}
