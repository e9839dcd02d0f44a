//! A turn: wait for one's ticket, step once, add what was made to the history, and serve the next ticket.
ghost use Rattle.std.specs.Prelude.{◌≡◌, ◌++◌, [], None, false, IfOk, OnErr, length};
ghost use Rattle.turn_cell.specs.TableRuled.{noted, rested, TurnCame, HoldsTurn, KeepsFrom};
ghost use Rattle.turn_cell.specs.Turn.{TurnAnswers, NoEntry};

use crate::cell::TurnCell;
use crate::machine::{Machine, StepOut};
use crate::pass::Pass;
use crate::rule::{ChestOf, DrawTicket, SeatOf, SeeServing, ServeNext};
use crate::seat_view::Addition;
use std::alloc::AllocError;
use std::snapshot::Snapshot;
use std::sync::Wait;
use std::thread::yield_now;

/// What a turn answers: the line that its step made, or that the step was idle where the history had so many entries.
#[derive(Clone, Copy)]
pub enum TurnOut<L> {
    Made(L),
    Idle(u64),
}

impl<M: Machine> TurnCell<M> {
    /// Draws a ticket, waits until it is served, and takes out what lies in the slot.
    fn await_turn<R: Wait>(&self, rt: &R, seat: &mut SeatOf<M>) -> ChestOf<M>
        requires { (seat.old.table_id ≡ self.now.table.shared.table_id) × (seat.old.me.0.waits ≡ false) × (seat.old.me.0.holds ≡ false) × (seat.old.me.0.spent ≡ false) × (seat.old.me.1 ≡ []) }
        ensures { (seat.new.table_id ≡ seat.old.table_id) × TurnCame M.number M.fits M.suits M.steps seat.old.me.0 seat.new.me result }
    {
        let table = &self.table.shared;
        let ticket = table.fetch_add::<DrawTicket<M>>(seat, 0, 1);
        for _ in rt.forever() {
            let serving = table.load::<SeeServing<M>>(seat, 1);
            if serving == ticket {
                return table.exchange(seat, 0, None).unwrap();
            }
            yield_now();
        }
        unreachable!()
    }

    /// Puts the slot's content back, with what was added in this turn, and serves the next ticket.
    fn put_back(&self, seat: &mut SeatOf<M>, chest: ChestOf<M>)
        requires { (seat.old.table_id ≡ self.now.table.shared.table_id) × HoldsTurn M.number M.fits M.suits M.steps seat.old.me × KeepsFrom M.number M.fits M.suits M.steps seat.old.me.0.shared seat.old.me.0.locals (seat.old.me.0.seen ++ noted seat.old.me.0.number chest.addition) chest }
        ensures { (seat.new.table_id ≡ seat.old.table_id) × (seat.new.me ≡ (rested (seat.old.me.0.seen ++ noted seat.old.me.0.number chest.addition) seat.old.me.0, [])) }
    {
        let table = &self.table.shared;
        match table.exchange(seat, 0, Some(chest)) {
            None => {}
            Some(_) => unreachable!(),
        }
        table.fetch_add::<ServeNext<M>>(seat, 1, 1);
    }

    /// One step of the pass's local, at one point of the history.
    ///
    /// Made: the history got one entry, with the pass's number, this input, and the local before and after. Idle: it got none, and the
    /// step is idle there. A refused reserve of the entry's place, before the step, leaves the shared part and the local as they were.
    pub fn turn<R: Wait>(
        &self,
        rt: &R,
        pass: &mut Pass<M>,
        input: M::Input,
    ) -> Result<TurnOut<M::Line>, AllocError>
        requires table { pass.old.seat.table_id ≡ self.now.table.shared.table_id }
        requires suits { M.suits pass.old.local input }
        ensures table { pass.new.seat.table_id ≡ pass.old.seat.table_id }
        ensures turn { IfOk result (TurnAnswers M.number M.fits M.suits M.steps pass.old.seat.me.0 pass.old.local input pass.new.seat.me.0 pass.new.local) }
        ensures err { OnErr result (NoEntry M.number M.fits M.suits M.steps pass.old.seat.me.0 pass.new.seat.me.0 × (pass.new.local ≡ pass.old.local)) }
    {
        let Pass {
            seat,
            local,
            number: _,
        } = pass;
        let mut chest = self.await_turn(rt, seat);
        chest.addition = None;
        if chest.lines.reserve(1).is_err() {
            self.put_back(seat, chest);
            return Err(AllocError);
        }
        let before = Snapshot::of(local);
        let given = Snapshot::of(&input);
        match M::step(&mut chest.shared, local, input) {
            StepOut::Made(line) => {
                chest.lines.push_reserved(line);
                chest.addition = Some(Addition {
                    before,
                    input: given,
                    line: Snapshot::of(&line),
                    shared: Snapshot::of(&chest.shared),
                    after: Snapshot::of(local),
                });
                self.put_back(seat, chest);
                Ok(TurnOut::Made(line))
            }
            StepOut::Idle => {
                let count = entries(chest.lines.as_slice());
                self.put_back(seat, chest);
                Ok(TurnOut::Idle(count))
            }
        }
    }
}

/// How many lines there are, and so how many entries the history has.
fn entries<N>(lines: &[N]) -> u64
    ensures { result ≡ length lines.now }
{
    lines.len() as u64
}
