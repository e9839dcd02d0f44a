//! The run of a boot: the actors take their turns over the store, and each turn that is not idle adds its line.
//! A line's place in the record is taken before the turn, so that no line that was made is lost.

ghost use Rattle.std.specs.Prelude.{◌≡◌, IfOk, OnOk, OnErr};
ghost use Rattle.first_core.specs.WorkerLaw.{request_of};
ghost use Rattle.first_core.specs.CoreState.{CoreFits};
ghost use Rattle.first_store.specs.MapStore.{held};
ghost use Rattle.first_runner.specs.Turn.{Turn, WorkerTurn};
ghost use Rattle.first_runner.specs.Flight.{IsEnding};
ghost use Rattle.first_runner.specs.Tied.{IsSound};
ghost use Rattle.first_runner.specs.RunState.{Acted, ActedAll, StoppedAmong, StoppedRound, WentRound, SoFar, Flew};

use first_core::{Core, StepOut};
use first_model::{Actor, Line};
use first_store::MapStore;
use std::alloc::AllocError;

/// The actors of a boot, the plans that the worker serves from, and the record so far.
#[derive(Drop)]
pub struct Run {
    pub core: Core,
    pub store: MapStore,
    pub lines: Vec<Line>,
}

impl Run {
    /// The stated turns, then rounds until one makes no line, then the line that ends the boot. Without memory the
    /// record ends with the last line that was made.
    pub fn fly(&mut self, turns: &[Actor], round: &[Actor]) -> Result<(), AllocError>
        requires { IsSound self.old.core (held self.old.store) }
        ensures ok { OnOk result (Flew self.old.core (held self.old.store) turns.now round.now self.old.lines.items self.new.lines.items) }
        ensures err { OnErr result (SoFar self.old.core (held self.old.store) turns.now round.now self.old.lines.items self.new.core (held self.new.store) self.new.lines.items) }
    {
        self.act_all(turns)?;
        self.go_round(round)?;
        let ending = self.ending();
        self.lines.push(ending)?;
        Ok(())
    }

    /// Rounds of these actors, until one makes no line.
    fn go_round(&mut self, round: &[Actor]) -> Result<(), AllocError>
        requires { IsSound self.old.core (held self.old.store) }
        ensures ok { OnOk result (WentRound self.old.core (held self.old.store) round.now self.old.lines.items self.new.core (held self.new.store) self.new.lines.items) }
        ensures sound { OnOk result (IsSound self.new.core (held self.new.store)) }
        ensures err { OnErr result (StoppedRound self.old.core (held self.old.store) round.now self.old.lines.items self.new.core (held self.new.store) self.new.lines.items) }
    {
        loop {
            let before = self.lines.len();
            self.act_all(round)?;
            if self.lines.len() == before {
                return Ok(());
            }
        }
    }

    /// One turn of each of these actors, in their order.
    fn act_all(&mut self, actors: &[Actor]) -> Result<(), AllocError>
        requires { IsSound self.old.core (held self.old.store) }
        ensures ok { OnOk result (ActedAll self.old.core (held self.old.store) actors.now self.old.lines.items self.new.core (held self.new.store) self.new.lines.items) }
        ensures sound { OnOk result (IsSound self.new.core (held self.new.store)) }
        ensures err { OnErr result (StoppedAmong self.old.core (held self.old.store) actors.now self.old.lines.items self.new.core (held self.new.store) self.new.lines.items) }
    {
        for actor in actors {
            self.act(*actor)?;
        }
        Ok(())
    }

    /// One turn of an actor, for whose line there is a place. Without memory nothing changes.
    fn act(&mut self, actor: Actor) -> Result<(), AllocError>
        requires { IsSound self.old.core (held self.old.store) }
        ensures ok { OnOk result (Acted self.old.core (held self.old.store) actor self.old.lines.items self.new.core (held self.new.store) self.new.lines.items) }
        ensures sound { OnOk result (IsSound self.new.core (held self.new.store)) }
        ensures core { OnErr result (self.new.core ≡ self.old.core) }
        ensures store { OnErr result (held self.new.store ≡ held self.old.store) }
        ensures lines { OnErr result (self.new.lines.items ≡ self.old.lines.items) }
    {
        self.lines.try_reserve(1)?;
        match turn(&mut self.core, &mut self.store, actor) {
            StepOut::Idle => Ok(()),
            StepOut::Made(line) => match self.lines.push(line) {
                Ok(()) => Ok(()),
                Err(_) => unreachable!(),
            },
        }
    }

    /// The line that ends the boot.
    fn ending(&self) -> Line
        ensures { IsEnding self.now.core result }
    {
        if self.core.is_finished() {
            Line::End
        } else {
            Line::Stuck
        }
    }
}

/// One turn of an actor.
fn turn(core: &mut Core, store: &mut MapStore, actor: Actor) -> StepOut<Line>
    requires { IsSound core.old (held store.old) }
    ensures turn { Turn core.old (held store.old) actor result core.new (held store.new) }
    ensures sound { IsSound core.new (held store.new) }
{
    match actor {
        Actor::Worker => worker_turn(core, store),
        other => core.step(other, None),
    }
}

/// The worker's turn: the request that it has taken is served by the store.
fn worker_turn(core: &mut Core, store: &mut MapStore) -> StepOut<Line>
    requires { IsSound core.old (held store.old) }
    ensures turn { WorkerTurn (request_of core.old.taken) core.old (held store.old) result core.new (held store.new) }
    ensures fits { CoreFits core.new }
{
    let Some(request) = core.taken() else {
        return core.step(Actor::Worker, None);
    };
    let reply = store.serve(&request);
    core.step(Actor::Worker, Some(reply))
}
