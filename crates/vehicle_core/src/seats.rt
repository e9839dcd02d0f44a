//! The inputs of a boot, sorted by actor in one pass.

ghost use Rattle.std.specs.Prelude.{◌≡◌, ◌+◌, [], IfOk, replicate};
ghost use Rattle.std.specs.List.{All};
ghost use Rattle.mission_model.specs.BootScripts.{ActorInput};
ghost use Rattle.vehicle_core.specs.ScheduleState.{fresh};
ghost use Rattle.vehicle_core.specs.Seats.{HasSeat, Sorted, seat_of};

use crate::schedule::Schedule;
use mission_model::{Actor, InputLine};
use std::alloc::{AllocError, Global};

/// The place of an actor's schedule.
fn seat_of(actor: Actor, links: u8) -> usize
    ensures { result ≡ seat_of links actor }
{
    match actor {
        Actor::Worker => 0,
        Actor::Link(number) => number as usize,
        Actor::Nav => links as usize,
        Actor::Watch(number) => links as usize + 1 + number as usize,
    }
}

/// So many schedules without an input.
fn empty_schedules(alloc: Global, count: usize) -> Result<Vec<Schedule>, AllocError>
    ensures { IfOk result (λ schedules. schedules.items ≡ replicate count (fresh [])) }
{
    let mut schedules = Vec::with_capacity(alloc, count)?;
    for _ in 0..count {
        schedules.push(Schedule::empty(alloc))?;
    }
    Ok(schedules)
}

/// The schedules of the links in order, the Navigator and the watchers in order, each with its own inputs.
pub fn sorted(
    alloc: Global,
    links: u8,
    watchers: u8,
    inputs: Vec<(Actor, InputLine)>,
) -> Result<Vec<Schedule>, AllocError>
    requires { All (ActorInput links watchers) inputs.items }
    ensures { IfOk result (λ schedules. Sorted links watchers inputs.items [] schedules.items) }
{
    let mut schedules = empty_schedules(alloc, links as usize + 1 + watchers as usize)?;
    for (actor, input) in inputs {
        let seat = seat_of(actor, links);
        schedules[seat].push(input)?;
    }
    Ok(schedules)
}
