//! The inputs of a boot, split by actor.

ghost use Rattle.std.specs.Prelude.{◌≡◌, IfOk};
ghost use Rattle.first_model.specs.declared.flight_line.Actor.TheVariants.{Nav};
ghost use Rattle.first_core.specs.ScheduleState.{same_actor, inputs_of, others_of};
ghost use Rattle.first_core.specs.NewCore.{new_links};

use crate::link::Link;
use first_model::{Actor, InputLine};
use std::alloc::{AllocError, Global};
use std::collections::VecDeque;

/// The two are one actor.
fn is_same_actor(left: Actor, right: Actor) -> bool
    ensures { result ≡ same_actor left right }
{
    match (left, right) {
        (Actor::Worker, Actor::Worker) => true,
        (Actor::Nav, Actor::Nav) => true,
        (Actor::Link(number), Actor::Link(other)) => number == other,
        (Actor::Watch(number), Actor::Watch(other)) => number == other,
        _ => false,
    }
}

/// One actor's inputs, and those of the others.
pub fn split(
    alloc: Global,
    actor: Actor,
    inputs: Vec<(Actor, InputLine)>,
) -> Result<(VecDeque<InputLine>, Vec<(Actor, InputLine)>), AllocError>
    ensures own { IfOk result (λ parts. parts.0.items ≡ inputs_of actor inputs.items) }
    ensures others { IfOk result (λ parts. parts.1.items ≡ others_of actor inputs.items) }
{
    let mut own = VecDeque::new(alloc);
    let mut others = Vec::new(alloc);
    for (other, input) in inputs {
        if is_same_actor(actor, other) {
            own.push_back(input)?;
        } else {
            others.push((other, input))?;
        }
    }
    Ok((own, others))
}

/// The links, each with its inputs, and the inputs of the other actors.
pub fn seat_links(
    alloc: Global,
    count: u8,
    inputs: Vec<(Actor, InputLine)>,
) -> Result<(Vec<Link>, Vec<(Actor, InputLine)>), AllocError>
    ensures links { IfOk result (λ parts. parts.0.items ≡ new_links count inputs.items) }
    ensures nav { IfOk result (λ parts. inputs_of Nav parts.1.items ≡ inputs_of Nav inputs.items) }
{
    let mut links = Vec::new(alloc);
    let mut rest = inputs;
    for number in 0..count {
        let (own, others) = split(alloc, Actor::Link(number), rest)?;
        links.push(Link::new(number, own))?;
        rest = others;
    }
    Ok((links, rest))
}
