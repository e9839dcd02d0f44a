//! The loiters without an end of a mission so far whose next item is no land start. They can be left by a jump alone, so
//! the first of them, one more than a mission may have jumps, decide whether each can be left.

ghost use Rattle.std.specs.Prelude.{◌≡◌, ◌<◌, ◌≢◌, length, None};
ghost use Rattle.feasibility.specs.SoFar.{first_not_left};

use crate::item_rules::{is_land_start, is_unlimited_loiter};
use crate::jumps::Jumps;
use arrayvec::ArrayVec;
use mission_model::Item;
use mission_model::limits::MAX_JUMPS;

const CAPACITY: usize = MAX_JUMPS + 1;

/// Their places, and the place of the last item where that one is such a loiter whose next item is not known yet.
#[derive(Drop)]
pub struct Loiters {
    pub list: ArrayVec<u16, CAPACITY>,
    pub last: Option<u16>,
}

impl Loiters {
    ghost use Rattle.std.specs.Prelude.{[], ◌∷◌};
    ghost use Rattle.feasibility.specs.SoFar.{kept_with, stuck_with, or_place};
    ghost use Rattle.mission_model.specs.Feasible.{is_unlimited_loiter};

    pub fn new() -> Loiters
        ensures list { result.list.items ≡ [] }
        ensures last { result.last ≡ None }
    {
        Loiters {
            list: ArrayVec::new(),
            last: None,
        }
    }

    /// Forgets them all.
    pub fn clear(&mut self)
        ensures list { self.new.list.items ≡ [] }
        ensures last { self.new.last ≡ None }
    {
        self.list.clear();
        self.last = None;
    }

    /// Takes one more item of the mission, which stands at this place.
    pub fn feed(&mut self, place: u16, item: &Item)
        ensures list { self.new.list.items ≡ kept_with self.old.list.items (stuck_with self.old.last item.now) }
        ensures last { self.new.last ≡ or_place None (is_unlimited_loiter item.now) place }
    {
        if let Some(loiter) = self.last {
            if !is_land_start(item) {
                self.keep(loiter);
            }
        }
        self.last = is_unlimited_loiter(item).then_some(place);
    }

    /// Keeps one more loiter, where it is among the first.
    fn keep(&mut self, loiter: u16)
        ensures list { self.new.list.items ≡ kept_with self.old.list.items (loiter ∷ []) }
        ensures last { self.new.last ≡ self.old.last }
    {
        if self.list.len() < CAPACITY {
            self.list.push(loiter);
        }
    }

    /// The first of them whose next item is no jump's target.
    pub fn first_not_left(&self, jumps: &Jumps) -> Option<u16>
        ensures { result ≡ first_not_left jumps.now.list.items self.now.list.items }
    {
        for loiter in self.list.as_slice() {
            if !jumps.leads_behind(*loiter) {
                return Some(*loiter);
            }
        }
        None
    }
}
