//! The standing marks: one that stands for good, and those that were asked behind it and have no reply yet.

ghost use Rattle.std.specs.Prelude.{◌≡◌, ◌<◌, ◌↔◌, [], ◌∷◌, ◌++◌, length, IfOk, IsTrue};
ghost use Rattle.mission_model.specs.declared.limits.TheConstants.{NAV_ROOM};
ghost use Rattle.mission_model.specs.CountsList.{pairs_of};
ghost use Rattle.mission_model.specs.PlainMark.{plain_mark};
ghost use Rattle.navigator.specs.Standing.{last_standing, mark_answered};

use circular_buffer::HeapCircularBuffer;
use mission_model::limits::NAV_ROOM;
use mission_model::{Counts, Mark};
use std::alloc::{AllocError, Global};
use std::marker::Model;

/// The standing marks.
#[derive(Drop)]
pub struct Marks {
    stood: Mark,
    asked: HeapCircularBuffer<Mark>,
}

impl Model for Marks {
    ghost use Rattle.std.specs.Prelude.{◌≡◌};
    ghost use Rattle.mission_model.specs.declared.limits.TheConstants.{NAV_ROOM};
    ghost use Rattle.navigator.specs.Standing.{MarksState};

    ghost Value = { MarksState };

    ghost view = { λ a. record { stood = a.stood; asked = a.asked.items } };

    ghost invariant = { λ a. a.asked.capacity ≡ NAV_ROOM };
}

impl Marks {
    /// This mark stands.
    pub fn new(alloc: Global, mark: Mark) -> Result<Marks, AllocError>
        ensures { IfOk result (λ marks. marks ≡ record { stood = mark; asked = [] }) }
    {
        Ok(Marks {
            stood: mark,
            asked: HeapCircularBuffer::with_capacity(alloc, NAV_ROOM as usize)?,
        })
    }

    /// The first mark of a new mission stands.
    pub fn begin(&mut self, id: u32)
        ensures stood { plain_mark self.new.stood ≡ record { id = id; index = 0; pairs = [] } }
        ensures asked { self.new.asked ≡ [] }
    {
        self.stood = Mark {
            id,
            index: 0,
            counts: Counts::new(),
        };
        self.asked.clear();
    }

    /// The last of the standing marks.
    pub fn last(&self) -> &Mark
        ensures { result.now ≡ last_standing self.now }
    {
        match self.asked.back() {
            Some(mark) => mark,
            None => &self.stood,
        }
    }

    /// A mark was asked.
    pub fn push(&mut self, mark: Mark)
        requires { length self.old.asked < NAV_ROOM }
        ensures { self.new ≡ record self.old { asked = self.old.asked ++ mark ∷ [] } }
    {
        self.asked.push_back(mark);
    }

    /// Whether each mark that was asked has its reply.
    #[cfg(test)]
    pub fn is_quiet(&self) -> bool
        ensures { IsTrue result ↔ (length self.now.asked ≡ 0) }
    {
        self.asked.len() == 0
    }

    /// The mark that was asked first has its reply.
    pub fn answered(&mut self, done: bool)
        ensures { self.new ≡ mark_answered self.old done }
    {
        if let Some(mark) = self.asked.pop_front() {
            if done {
                self.stood = mark;
            }
        }
    }
}

/// Whether two marks are of one place: the same id, index and pairs.
pub fn is_same_place(left: &Mark, right: &Mark) -> bool
    ensures { IsTrue result ↔ (plain_mark left.now ≡ plain_mark right.now) }
{
    left.id == right.id && left.index == right.index && is_same_uses(&left.counts, &right.counts)
}

/// Whether two counts have the same pairs.
fn is_same_uses(left: &Counts, right: &Counts) -> bool
    ensures { IsTrue result ↔ (pairs_of left.now ≡ pairs_of right.now) }
{
    if left.len() != right.len() {
        return false;
    }
    for place in 0..left.len() {
        let (seq, used) = left.pair(place);
        let (other, times) = right.pair(place);
        if seq != other || used != times {
            return false;
        }
    }
    true
}
