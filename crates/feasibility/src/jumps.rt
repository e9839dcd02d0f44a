//! The jumps of a mission so far.

ghost use Rattle.std.specs.Prelude.{◌≡◌, ◌<◌, ◌+◌, true, is_some, length};
ghost use Rattle.mission_model.specs.Command.{jump_of};
ghost use Rattle.arrayvec.specs.ArrayVec.{array_vec_len};
ghost use Rattle.feasibility.specs.SoFar.{has_jump_at, has_target, first_to_jump};

use arrayvec::ArrayVec;
use mission_model::Item;
use mission_model::command::jump_of;
use mission_model::limits::MAX_JUMPS;

/// The place and the target of each jump.
#[derive(Drop)]
pub struct Jumps {
    pub list: ArrayVec<(u16, u16), MAX_JUMPS>,
}

impl Jumps {
    ghost use Rattle.std.specs.Prelude.{[], ◌++◌};
    ghost use Rattle.feasibility.specs.SoFar.{jump_at};

    pub fn new() -> Jumps
        ensures { result.list.items ≡ [] }
    {
        Jumps {
            list: ArrayVec::new(),
        }
    }

    /// Forgets them all.
    pub fn clear(&mut self)
        ensures { self.new.list.items ≡ [] }
    {
        self.list.clear();
    }

    /// Takes one more item of the mission, which stands at this place.
    pub fn feed(&mut self, place: u16, item: &Item)
        requires { is_some (jump_of item.now) ≡ true → length self.old.list.items < MAX_JUMPS }
        ensures { self.new.list.items ≡ self.old.list.items ++ jump_at place (jump_of item.now) }
    {
        if let Some(jump) = jump_of(item) {
            self.list.push((place, jump.target));
        }
    }

    /// The place of the first jump whose target is a jump.
    pub fn first_to_jump(&self) -> Option<u16>
        ensures { result ≡ first_to_jump self.now.list.items self.now.list.items }
    {
        let jumps = self.list.as_slice();
        for jump in jumps {
            if has_jump_at(jumps, jump.1) {
                return Some(jump.0);
            }
        }
        None
    }

    /// Whether a jump leads to the place behind this one.
    pub fn leads_behind(&self, place: u16) -> bool
        ensures { result ≡ has_target self.now.list.items (place + 1) }
    {
        has_target(self.list.as_slice(), u32::from(place) + 1)
    }
}

/// Whether a jump stands at this place.
fn has_jump_at(jumps: &[(u16, u16)], place: u16) -> bool
    ensures { result ≡ has_jump_at jumps.now place }
{
    jumps.iter().any(|jump| jump.0 == place)
}

/// Whether a jump leads to this place.
fn has_target(jumps: &[(u16, u16)], place: u32) -> bool
    ensures { result ≡ has_target jumps.now place }
{
    jumps.iter().any(|jump| u32::from(jump.1) == place)
}
