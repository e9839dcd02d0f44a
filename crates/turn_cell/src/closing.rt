//! The end of a cell: all passes come back, and the shared part and the lines are given out.
ghost use Rattle.std.specs.Prelude.{◌≡◌, ◌++◌, ◌<◌, ℕ, [], Some, false, length, slice_get, slice_index_or, map, reverse, All};
ghost use Rattle.turn_cell.specs.TableRuled.{with_accounts, account_of};
ghost use Rattle.turn_cell.specs.Legal.{Legal, SawOwn, line_of};

use crate::cell::TurnCell;
use crate::machine::Machine;
use crate::pass::Pass;
use crate::rule::{HistoryTable, SeatOf, Seats};
use crate::seat_view::Chest;

/// The place of the pass with the number 0, whose seat keeps the others' accounts.
fn place_of_keeper<M: Machine>(passes: &[Pass<M>]) -> usize
    requires { (i : ℕ) × (p : _) × (slice_get passes.now i ≡ Some p) × (p.seat.me.0.number ≡ 0) }
    ensures { (result < length passes.now) × ((d : _) → (slice_index_or passes.now result d).seat.me.0.number ≡ 0) }
{
    let mut place = 0;
    while place < passes.len() {
        if passes[place].number == 0 {
            return place;
        }
        place += 1;
    }
    unreachable!()
}

/// Joins the seats of these passes to the first one; their locals are dropped.
fn join_rest<M: Machine>(table: &HistoryTable<M>, keeper: &mut SeatOf<M>, passes: Vec<Pass<M>>)
    requires table { (keeper.old.table_id ≡ table.now.table_id) × (table.now.table_id.words ≡ 2) }
    requires rests { (keeper.old.me.1 ≡ []) × (keeper.old.me.0.waits ≡ false) × (keeper.old.me.0.holds ≡ false) × (keeper.old.me.0.spent ≡ false) }
    requires same { All (λ p. p.seat.table_id ≡ table.now.table_id) passes.items }
    ensures seat { (keeper.new.table_id ≡ keeper.old.table_id) × (keeper.new.id ≡ keeper.old.id) × (keeper.new.me.1 ≡ []) }
    ensures joined { keeper.new.me.0 ≡ with_accounts keeper.old.me.0 (reverse (map (λ p. account_of p.seat.me.0) passes.items) ++ keeper.old.me.0.joined) }
{
    for pass in passes {
        let Pass {
            seat,
            local,
            number: _,
        } = pass;
        drop(local);
        table.join_seat::<Seats<M>>(keeper, seat);
    }
}

impl<M: Machine> TurnCell<M> {
    /// The shared part and the lines, in the order of the history. `passes` are all those of this cell, in any order; their locals are
    /// dropped.
    pub fn close(self, mut passes: Vec<Pass<M>>) -> (M::Shared, Vec<M::Line>)
        requires some { 0 < length self.table.shared.key.locals.value.items }
        requires same { All (λ p. p.seat.table_id ≡ self.table.shared.table_id) passes.items }
        requires every { (k : ℕ) → k < length self.table.shared.key.locals.value.items → (i : ℕ) × (p : _) × (slice_get passes.items i ≡ Some p) × (p.seat.me.0.number ≡ k) }
        ensures { (h : _) × Legal M.number M.fits M.suits M.steps self.table.shared.key.shared.value self.table.shared.key.locals.value.items h result.0 × (result.1.items ≡ map line_of h) × ((i : ℕ) (p : _) → slice_get passes.items i ≡ Some p → SawOwn h p.seat.me.0.number p.seat.me.0.seen) }
    {
        let first = place_of_keeper(passes.as_slice());
        let Pass {
            seat: mut keeper,
            local,
            number: _,
        } = passes.remove(first);
        drop(local);
        join_rest::<M>(&self.table.shared, &mut keeper, passes);
        let TurnCell { table } = self;
        let mut closed = table.close_with(keeper);
        let slot = closed.take(0);
        closed.free();
        let Some(chest) = slot else { unreachable!() };
        let Chest {
            shared,
            lines,
            addition: _,
        } = chest;
        (shared, lines)
    }
}
