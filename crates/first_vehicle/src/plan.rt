//! A plan as the lines of a record show it: its id, and its items as far as they are told.

ghost use Rattle.std.specs.Prelude.{◌≡◌, ◌<◌, ◌↔◌, IfOk, IsTrue, length, map, Some, None, take, replicate};
ghost use Rattle.first_vehicle.specs.PlanState.{untold, told, told_at, with_told, CanBe};

use first_model::{Item, PlanHead, is_same_item};
use std::alloc::{AllocError, Global};
use std::marker::Model;

/// A plan in force.
#[derive(Drop)]
pub struct Plan {
    id: u32,
    items: Vec<Option<Item>>,
}

impl Model for Plan {
    ghost use Rattle.first_vehicle.specs.PlanState.{PlanState};

    ghost Value = { PlanState };

    ghost view = { λ a. record { id = a.id; items = a.items.items } };
}

impl Plan {
    /// The plan of a head, with no item told.
    pub fn untold(alloc: Global, head: PlanHead) -> Result<Plan, AllocError>
        ensures { IfOk result (λ plan. plan ≡ untold head) }
    {
        Ok(Plan {
            id: head.id,
            items: vec![in alloc; None; head.count as usize]?,
        })
    }

    /// The plan of these items, each of them told.
    pub fn told(alloc: Global, id: u32, items: &[Item]) -> Result<Plan, AllocError>
        ensures { IfOk result (λ plan. plan ≡ told id items.now) }
    {
        Ok(Plan {
            id,
            items: told_items(alloc, items)?,
        })
    }

    /// The plan's id.
    pub fn id(&self) -> u32
        ensures { result ≡ self.now.id }
    {
        self.id
    }

    /// The number of items.
    pub fn count(&self) -> usize
        ensures { result ≡ length self.now.items }
    {
        self.items.len()
    }

    /// The item at a seq, where it is told.
    pub fn item(&self, seq: u16) -> Option<Item>
        ensures { result ≡ told_at self.now seq }
    {
        *self.items.get(seq as usize)?
    }

    /// Whether the item at a seq is this one, or is untold.
    pub fn can_be(&self, seq: u16, item: &Item) -> bool
        ensures { IsTrue result ↔ ((seq < length self.now.items) × CanBe (told_at self.now seq) item.now) }
    {
        match self.items.get(seq as usize) {
            Some(Some(told)) => is_same_item(told, item),
            Some(None) => true,
            None => false,
        }
    }

    /// Tells the item at a seq.
    pub fn tell(&mut self, seq: u16, item: Item)
        requires { seq < length self.old.items }
        ensures { self.new ≡ with_told self.old seq item }
    {
        self.items[seq as usize] = Some(item);
    }
}

/// Items, each of them told.
fn told_items(alloc: Global, items: &[Item]) -> Result<Vec<Option<Item>>, AllocError>
    ensures { IfOk result (λ told. told.items ≡ map (λ item. Some item) items.now) }
{
    let mut told = Vec::with_capacity(alloc, items.len())?;
    for item in items {
        told.push(Some(*item))?;
    }
    Ok(told)
}
