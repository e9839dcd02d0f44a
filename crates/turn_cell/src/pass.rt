//! A pass: the place of one actor at the cell. It owns the actor's local, so nobody else can change that between two turns.
ghost use Rattle.std.specs.Prelude.{◌≡◌, [], false, Some, slice_get};
ghost use Rattle.turn_cell.specs.Legal.{locals_left};

use crate::machine::Machine;
use crate::rule::SeatOf;

/// The place of one actor, with its local. Its seat tells what history the actor has seen; at rest it waits for no ticket and holds
/// nothing.
#[derive(Drop)]
pub struct Pass<M: Machine> {
    pub(crate) seat: SeatOf<M>,
    pub(crate) local: M::Local,
    pub(crate) number: u64,
    ghost named: { number ≡ seat.me.0.number },
    ghost rests: { (seat.me.1 ≡ []) × (seat.me.0.waits ≡ false) × (seat.me.0.holds ≡ false) × (seat.me.0.spent ≡ false) },
    ghost owns: { slice_get (locals_left seat.me.0.locals seat.me.0.seen) seat.me.0.number ≡ Some local },
}

impl<M: Machine> Pass<M> {
    /// The place of the pass among those that its cell was opened with, from 0; it is its local's number, too.
    pub fn number(&self) -> u64
        ensures { result ≡ self.now.seat.me.0.number }
    {
        self.number
    }

    /// The local that this pass owns, as its last turn left it.
    pub fn local(&self) -> &M::Local
        ensures { result.now ≡ self.now.local }
    {
        &self.local
    }
}

/// A pass at a seat that rests, with the local that the seat's history left it.
pub(crate) fn pass_with<M: Machine>(seat: SeatOf<M>, local: M::Local, number: u64) -> Pass<M>
    requires rests { (seat.me.1 ≡ []) × (seat.me.0.waits ≡ false) × (seat.me.0.holds ≡ false) × (seat.me.0.spent ≡ false) }
    requires owns { slice_get (locals_left seat.me.0.locals seat.me.0.seen) seat.me.0.number ≡ Some local }
    requires named { number ≡ seat.me.0.number }
    ensures { (result.seat ≡ seat) × (result.local ≡ local) }
{
    Pass {
        seat,
        local,
        number,
    }
}
