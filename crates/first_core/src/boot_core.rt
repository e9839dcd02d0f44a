//! The core: the shared part and each actor's local for one boot. A step is a step of one actor.

ghost use Rattle.std.specs.Prelude.{◌≡◌, IsTrue, IfOk, IfSome, ◌↔◌};
ghost use Rattle.first_core.specs.SharedState.{mission_head};
ghost use Rattle.first_core.specs.PlansFit.{IsServable};
ghost use Rattle.first_core.specs.CoreLaw.{CoreSuits, CoreStep, IsReady};
ghost use Rattle.first_core.specs.WorkerLaw.{request_of};
ghost use Rattle.first_core.specs.NewCore.{InLimits, StateFits, new_core};
ghost use Rattle.first_core.specs.CoreState.{CoreFits, IsFinished};

use crate::boot_inputs::{seat_links, split};
use crate::link::Link;
use crate::nav::Nav;
use crate::shared::Shared;
use crate::{StepOut, link, nav, worker};
use first_model::{Actor, BootScript, BootState, Client, Line, Reply, Request};
use std::alloc::{AllocError, Global};
use std::marker::Model;

/// The actors of one boot over the part that they share.
#[derive(Drop)]
pub struct Core {
    shared: Shared,
    taken: Option<(Client, Request)>,
    links: Vec<Link>,
    nav: Nav,
}

impl Model for Core {
    ghost use Rattle.first_core.specs.CoreState.{CoreState, CoreFits};

    ghost Value = { CoreState };

    ghost view = { λ a. record { shared = a.shared; taken = a.taken; links = a.links.items; nav = a.nav } };

    ghost invariant = { λ a. CoreFits (record { shared = a.shared; taken = a.taken; links = a.links.items; nav = a.nav }) };
}

impl Core {
    /// The core at the beginning of a boot that found these plans in force and this mark. There are no watchers yet.
    /// It fails only for want of memory.
    pub fn new(alloc: Global, boot: BootScript, state: &BootState) -> Result<Core, AllocError>
        requires limits { InLimits boot }
        requires state { StateFits state.now }
        ensures core { IfOk result (λ core. core ≡ new_core boot state.now) }
        ensures fits { IfOk result (λ core. CoreFits core) }
    {
        let shared = Shared::new(alloc, boot.links, state.heads)?;
        let (links, rest) = seat_links(alloc, boot.links, boot.inputs.into_vec())?;
        let (inputs, _) = split(alloc, Actor::Nav, rest)?;
        let nav = Nav::new(alloc, state.heads[0], state.mark.index, inputs)?;
        Ok(Core {
            shared,
            taken: None,
            links,
            nav,
        })
    }

    /// One step of one actor, with the reply that `serve` gave where the worker has taken a request. An actor that the
    /// core does not have is never ready.
    pub fn step(&mut self, actor: Actor, input: Option<Reply>) -> StepOut<Line>
        requires suits { CoreSuits self.old actor input }
        ensures step { CoreStep self.old actor input result self.new }
        ensures idle { (result ≡ StepOut.Idle) ↔ (IsReady self.old actor input → ⊥) }
        ensures fits { CoreFits self.new }
    {
        let out = self.act(actor, input);
        // That the parts fit is known where a part is named.
        let _ = &self.taken;
        out
    }

    /// The step of the actor.
    fn act(&mut self, actor: Actor, input: Option<Reply>) -> StepOut<Line>
        requires suits { CoreSuits self.old actor input }
        ensures step { CoreStep self.old actor input result self.new }
    {
        match actor {
            Actor::Worker => worker::step(&mut self.shared, &mut self.taken, input),
            Actor::Link(number) => match self.links.get_mut(number as usize) {
                Some(link) => link::step(&mut self.shared, link),
                None => StepOut::Idle,
            },
            Actor::Nav => nav::step(&mut self.shared, &mut self.nav),
            Actor::Watch(_) => StepOut::Idle,
        }
    }

    /// The request that the worker has taken and not answered.
    pub fn taken(&self) -> Option<Request>
        ensures taken { result ≡ request_of self.now.taken }
        ensures served { IfSome result (IsServable (mission_head self.now.shared)) }
        ensures fits { CoreFits self.now }
    {
        let (_, request) = self.taken?;
        Some(request)
    }

    /// Whether every schedule is finished.
    pub fn is_finished(&self) -> bool
        ensures { IsTrue result ↔ IsFinished self.now }
    {
        if !self.nav.schedule.is_finished() {
            return false;
        }
        for link in &self.links {
            if !link.schedule.is_finished() {
                return false;
            }
        }
        true
    }
}
