//! The marks of the places where the vehicle was in a boot.

ghost use Rattle.std.specs.Prelude.{◌≡◌, ◌++◌, ◌∷◌, [], ◌↔◌, IfOk, IsTrue, true, length, Contains, slice_index_or, ◌<◌};
ghost use Rattle.std.specs.Option.{option_map};
ghost use Rattle.mission_model.specs.CountsList.{pairs_of};
ghost use Rattle.mission_model.specs.PlainMark.{plain_mark};

use mission_model::{Counts, Mark};
use std::alloc::{AllocError, Global};
use std::marker::Model;

/// A mark, seen by its id, its index and its pairs.
#[derive(Drop)]
struct Passed {
    mark: Mark,
}

impl Model for Passed {
    ghost use Rattle.mission_model.specs.PlainMark.{PlainMark, plain_mark};

    ghost Value = { PlainMark };

    ghost view = { λ a. plain_mark a.mark };
}

impl Passed {
    /// Whether it is the mark of the same place.
    fn is(&self, mark: &Mark) -> bool
        ensures { IsTrue result ↔ (self.now ≡ plain_mark mark.now) }
    {
        is_same_place(&self.mark, mark)
    }
}

/// The marks, in their order.
#[derive(Drop)]
pub struct Marks {
    marks: Vec<Passed>,
}

impl Model for Marks {
    ghost use Rattle.std.specs.Prelude.{List};
    ghost use Rattle.mission_model.specs.PlainMark.{PlainMark};

    ghost Value = { List PlainMark };

    ghost view = { λ a. a.marks.items };
}

impl Marks {
    /// No place was passed.
    pub fn new(alloc: Global) -> Marks
        ensures { result ≡ [] }
    {
        Marks {
            marks: Vec::new(alloc),
        }
    }

    /// Passes one more place.
    pub fn push(&mut self, mark: Mark) -> Result<(), AllocError>
        ensures { IfOk result (λ _. self.new ≡ self.old ++ plain_mark mark ∷ []) }
    {
        self.marks.push(Passed { mark })?;
        Ok(())
    }

    /// Whether the place of a mark was passed. The newest marks are looked at first.
    pub fn has(&self, mark: &Mark) -> bool
        ensures { IsTrue result ↔ Contains self.now (plain_mark mark.now) }
    {
        self.marks.iter().rev().any(|passed| passed.is(mark))
    }
}

/// Whether two marks are of the same place.
pub fn is_same_place(left: &Mark, right: &Mark) -> bool
    ensures { IsTrue result ↔ (plain_mark left.now ≡ plain_mark right.now) }
{
    left.id == right.id && left.index == right.index && is_same_pairs(&left.counts, &right.counts)
}

/// Whether jumps were taken as often.
fn is_same_pairs(left: &Counts, right: &Counts) -> bool
    ensures { IsTrue result ↔ (pairs_of left.now ≡ pairs_of right.now) }
{
    if left.len() != right.len() {
        return false;
    }
    for place in 0..left.len() {
        let (seq, used) = left.pair(place);
        let (other, count) = right.pair(place);
        if seq != other || used != count {
            return false;
        }
    }
    true
}
