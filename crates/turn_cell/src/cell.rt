//! The cell that all threads share, and how it is opened with a pass for each local.
ghost use Rattle.std.specs.Prelude.{◌≡◌, ◌+◌, ◌<◌, ◌≤◌, ℕ, [], Some, IfOk, length, slice_get, vec_len, vec_capacity};
ghost use Rattle.turn_cell.specs.TableRuled.{opening_view};
ghost use Rattle.turn_cell.specs.Seats.{IsSeated};
ghost use Rattle.turn_cell.specs.Legal.{EachFits};

use crate::machine::Machine;
use crate::pass::{Pass, pass_with};
use crate::rule::{HistoryTable, KnownOf, OneHistory, SeatOf, Seats, Slot};
use crate::seat_view::{Beginning, Chest};
use atomic_table::Table;
use std::alloc::{AllocError, Global};
use std::snapshot::Snapshot;

/// The shared part of a machine and the lines made so far, behind a ticket lock. Two words count the tickets drawn and served; the one
/// slot is full exactly while nobody holds the turn.
#[derive(Drop)]
pub struct TurnCell<M: Machine> {
    pub(crate) table: Table<
        Slot<M>,
        KnownOf<M>,
        Beginning<M::Shared, M::Local>,
        OneHistory<M>,
        Global,
    >,
    ghost sized: { (table.shared.table_id.words ≡ 2) × (table.shared.table_id.slots ≡ 1) },
}

/// Splits a seat from the first one for each of these locals, which are all but the first.
fn hand_out_rest<M: Machine>(
    table: &HistoryTable<M>,
    first: &mut SeatOf<M>,
    locals: Vec<M::Local>,
    passes: &mut Vec<Pass<M>>,
)
    requires table { (first.old.table_id ≡ table.now.table_id) × (table.now.table_id.words ≡ 2) }
    requires view { (first.old.id ≡ 0) × (first.old.me ≡ (opening_view table.now.key.shared.value table.now.key.locals.value.items 1, [])) }
    requires count { (length table.now.key.locals.value.items ≡ length locals.items + 1) × (length locals.items < 255) }
    requires locals { (k : ℕ) → slice_get table.now.key.locals.value.items (k + 1) ≡ slice_get locals.items k }
    requires room { (passes.old.items ≡ []) × (vec_len passes.old ≡ 0) × (length locals.items < vec_capacity passes.old) }
    ensures first { (first.new.table_id ≡ table.now.table_id) × (first.new.me ≡ (opening_view table.now.key.shared.value table.now.key.locals.value.items (length locals.items + 1), [])) }
    ensures len { (length passes.new.items ≡ length locals.items) × (vec_len passes.new ≡ length locals.items) × (length locals.items < vec_capacity passes.new) }
    ensures passes { (k : ℕ) (p : _) → slice_get passes.new.items k ≡ Some p → (p.seat.table_id ≡ table.now.table_id) × IsSeated table.now.key.shared.value table.now.key.locals.value.items (k + 1) p.seat.me.0 p.local }
{
    let mut number = 0;
    for local in locals {
        number += 1;
        let seat = table.split_seat::<Seats<M>>(first);
        passes.push_reserved(pass_with(seat, local, number));
    }
}

/// Makes the pass of each local. The first local gets the first seat.
fn hand_out<M: Machine>(
    table: &HistoryTable<M>,
    mut first: SeatOf<M>,
    mut locals: Vec<M::Local>,
    passes: &mut Vec<Pass<M>>,
)
    requires table { (first.table_id ≡ table.now.table_id) × (table.now.table_id.words ≡ 2) }
    requires view { (first.id ≡ 0) × (first.me ≡ (opening_view table.now.key.shared.value table.now.key.locals.value.items 1, [])) }
    requires count { (locals.items ≡ table.now.key.locals.value.items) × (0 < length locals.items) × (length locals.items < 256) }
    requires room { (passes.old.items ≡ []) × (vec_len passes.old ≡ 0) × (length locals.items ≤ vec_capacity passes.old) }
    ensures len { length passes.new.items ≡ length locals.items }
    ensures passes { (k : ℕ) (p : _) → slice_get passes.new.items k ≡ Some p → (p.seat.table_id ≡ table.now.table_id) × IsSeated table.now.key.shared.value table.now.key.locals.value.items k p.seat.me.0 p.local }
{
    let local = locals.remove(0);
    hand_out_rest::<M>(table, &mut first, locals, passes);
    match passes.insert(0, pass_with(first, local, 0)) {
        Ok(()) => {}
        Err(_) => unreachable!(),
    }
}

impl<M: Machine> TurnCell<M> {
    /// A cell whose slot is full and whose history is empty, with its first seat.
    fn with_table(
        alloc: Global,
        shared: M::Shared,
        beginning: &Beginning<M::Shared, M::Local>,
    ) -> Result<(TurnCell<M>, SeatOf<M>), AllocError>
        requires beginning { (beginning.now.shared.value ≡ shared) × (0 < length beginning.now.locals.value.items) }
        requires fit { EachFits M.number M.fits shared beginning.now.locals.value.items }
        ensures { IfOk result (λ r. (r.0.table.shared.key ≡ beginning.now) × (r.1.table_id ≡ r.0.table.shared.table_id) × (r.1.id ≡ 0) × (r.1.me ≡ (opening_view beginning.now.shared.value beginning.now.locals.value.items 1, []))) }
    {
        let mut slots = Vec::with_capacity(alloc, 1)?;
        slots.push_reserved(Some(Chest {
            shared,
            lines: Vec::new(alloc),
            addition: None,
        }));
        let Ok((table, seat)) = Table::new(alloc, &[0, 0], slots, beginning) else {
            return Err(AllocError);
        };
        Ok((TurnCell { table }, seat))
    }

    /// A cell around this shared part, and the pass of each local, in their order.
    ///
    /// The locals are 1 to 255, the k-th has the number k, and the shared part fits each. Fails for want of memory alone.
    pub fn open(
        alloc: Global,
        shared: M::Shared,
        locals: Vec<M::Local>,
    ) -> Result<(TurnCell<M>, Vec<Pass<M>>), AllocError>
        requires count { (0 < length locals.items) × (length locals.items < 256) }
        requires fit { EachFits M.number M.fits shared locals.items }
        ensures key { IfOk result (λ r. (r.0.table.shared.key.shared.value ≡ shared) × (r.0.table.shared.key.locals.value.items ≡ locals.items)) }
        ensures count { IfOk result (λ r. length r.1.items ≡ length locals.items) }
        ensures passes { IfOk result (λ r. (k : ℕ) (p : _) → slice_get r.1.items k ≡ Some p → (p.seat.table_id ≡ r.0.table.shared.table_id) × IsSeated shared locals.items k p.seat.me.0 p.local) }
    {
        let beginning = Beginning {
            shared: Snapshot::of(&shared),
            locals: Snapshot::of(&locals),
        };
        let mut passes = Vec::with_capacity(alloc, locals.len())?;
        let (cell, first) = TurnCell::<M>::with_table(alloc, shared, &beginning)?;
        hand_out::<M>(&cell.table.shared, first, locals, &mut passes);
        Ok((cell, passes))
    }
}
