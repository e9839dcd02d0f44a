//! A table of places for the items of a plan, and what was written last at each.

ghost use Rattle.std.specs.Prelude.{◌≡◌, ℕ, ◌<◌, Some, None, length, IfOk, slice_index_or, slice_set};
ghost use Rattle.first_store.specs.MapStore.{empty_places};

use first_model::Item;
use std::alloc::{AllocError, Global};
use std::marker::Model;

/// What was written at a place: an item, for the plan of this id.
#[derive(Clone, Copy)]
pub struct Written {
    pub id: u32,
    pub item: Item,
}

/// The places of one plan, from seq 0 on. Their number never changes.
#[derive(Drop)]
pub struct Places {
    places: Vec<Option<Written>>,
}

impl Model for Places {
    ghost use Rattle.std.specs.Prelude.{List, Option};
    ghost use Rattle.first_store.specs.declared.places.Written.{Written};

    ghost Value = { List (Option Written) };

    ghost view = { λ a. a.places.items };
}

impl Places {
    /// So many places, at which nothing was written. It fails only for want of memory.
    pub fn new(alloc: Global, count: u16) -> Result<Places, AllocError>
        ensures { IfOk result (λ places. places ≡ empty_places count) }
    {
        Ok(Places {
            places: vec![in alloc; None; count as usize]?,
        })
    }

    /// What was written last at a seq, if anything.
    pub fn at(&self, seq: u16) -> Option<Written>
        ensures { result ≡ slice_index_or self.now seq None }
    {
        *self.places.get(seq as usize)?
    }

    /// Writes an item at a seq.
    pub fn write(&mut self, seq: u16, written: Written)
        requires { seq < length self.old }
        ensures { self.new ≡ slice_set self.old seq (Some written) }
    {
        self.places[seq as usize] = Some(written);
    }

    /// Forgets what was written.
    pub fn clear(&mut self)
        ensures empty { (seq : ℕ) → slice_index_or self.new seq None ≡ None }
        ensures size { length self.new ≡ length self.old }
    {
        for seq in 0..self.places.len() {
            self.places[seq] = None;
        }
    }
}
