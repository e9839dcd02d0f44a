//! The rule of the table that a cell is: what its two words, its slot and its seats are to one history, and what each atomic step on a
//! word tells its seat.
ghost use Rattle.std.specs.Prelude.{◌≡◌};
ghost use Rattle.turn_cell.specs.TableRuled.{TableRuled, opening_view, gave_number, next_seat, joined_view, with_account, DrewTicket, SawServing, ServedNext};

use crate::machine::Machine;
use crate::seat_view::{Beginning, Chest, SeatView};
use atomic_table::{Join, Play, Seat, Shared, Split, TableRule};
use std::marker::PhantomData;
use std::snapshot::Snapshot;

pub type Slot<M> = Option<
    Chest<
        <M as Machine>::Shared,
        <M as Machine>::Local,
        <M as Machine>::Input,
        <M as Machine>::Line,
    >,
>;

pub type KnownOf<M> = SeatView<
    <M as Machine>::Shared,
    <M as Machine>::Local,
    <M as Machine>::Input,
    <M as Machine>::Line,
>;

pub struct OneHistory<M> {
    of: PhantomData<Snapshot<M>>,
}

impl<M: Machine> TableRule<Slot<M>, KnownOf<M>, Beginning<M::Shared, M::Local>> for OneHistory<M> {
    ghost holds = { TableRuled M.number M.fits M.suits M.steps };

    ghost first = { λ key. opening_view key.shared.value key.locals.value.items 1 };
}

pub struct DrawTicket<M> {
    of: PhantomData<Snapshot<M>>,
}

impl<M: Machine> Play<Slot<M>, KnownOf<M>> for DrawTicket<M> {
    ghost then = { λ _. DrewTicket M.number M.fits M.suits M.steps };
}

pub struct SeeServing<M> {
    of: PhantomData<Snapshot<M>>,
}

impl<M: Machine> Play<Slot<M>, KnownOf<M>> for SeeServing<M> {
    ghost then = { λ _. SawServing M.number M.fits M.suits M.steps };
}

pub struct ServeNext<M> {
    of: PhantomData<Snapshot<M>>,
}

impl<M: Machine> Play<Slot<M>, KnownOf<M>> for ServeNext<M> {
    ghost then = { λ _. ServedNext M.number M.fits M.suits M.steps };
}

pub struct Seats<M> {
    of: PhantomData<Snapshot<M>>,
}

impl<M: Machine> Split<KnownOf<M>> for Seats<M> {
    ghost left = { gave_number };

    ghost right = { next_seat };
}

impl<M: Machine> Join<KnownOf<M>> for Seats<M> {
    ghost both = { with_account };

    ghost spent = { joined_view };
}

pub(crate) type SeatOf<M> = Seat<Slot<M>, KnownOf<M>>;

pub(crate) type ChestOf<M> = Chest<
    <M as Machine>::Shared,
    <M as Machine>::Local,
    <M as Machine>::Input,
    <M as Machine>::Line,
>;

pub(crate) type HistoryTable<M> = Shared<
    Slot<M>,
    KnownOf<M>,
    Beginning<<M as Machine>::Shared, <M as Machine>::Local>,
    OneHistory<M>,
>;
