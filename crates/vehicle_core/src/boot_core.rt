//! The core: the shared part and the locals of all actors for one boot. A step is a step of one actor.

ghost use Rattle.std.specs.Prelude.{◌≡◌, IfOk, length};
ghost use Rattle.mission_model.specs.BootScripts.{BootInLimits};
ghost use Rattle.mission_model.specs.BootStates.{StateInLimits};
ghost use Rattle.vehicle_core.specs.Told.{BootTold, begun};
ghost use Rattle.vehicle_core.specs.Ready.{has_ready};
ghost use Rattle.vehicle_core.specs.LineTells.{SaysGiven};
ghost use Rattle.vehicle_core.specs.Fits.{number_among};
ghost use Rattle.vehicle_core.specs.CoreState.{CoreFits, CoreSteps, InputSuits, Tells, core_taken, finished_among};

use crate::crew::crew;
use crate::local::{self, Local};
use crate::seats::sorted;
use crate::shared::Shared;
use mission_model::{Actor, BootScript, BootState, Line, Reply, Request};
use navigator::Navigator;
use request_board::Watcher;
use std::alloc::{AllocError, Global};
use std::marker::Model;
use turn_cell::StepOut;

/// The actors of one boot over the part that they share. The locals stand in the order of their numbers.
#[derive(Drop)]
pub struct Core<W> {
    shared: Shared,
    locals: Vec<Local<W>>,
    links: u8,
}

impl<W> Model for Core<W> {
    ghost use Rattle.vehicle_core.specs.CoreState.{CoreState};

    ghost Value = { CoreState W };

    ghost view = { λ a. record { shared = a.shared; locals = a.locals.items; links = a.links } };
}

impl<W: Watcher> Core<W> {
    /// The core at the beginning of a boot that found these heads and this mark. It fails only for want of memory.
    pub fn new(
        alloc: Global,
        boot: BootScript,
        state: &BootState,
        watchers: Vec<W>,
    ) -> Result<Core<W>, AllocError>
        requires watchers { length watchers.items ≡ boot.watchers }
        requires limits { BootInLimits boot }
        requires state { StateInLimits state.now }
        ensures fits { IfOk result (λ core. CoreFits W.waits core) }
        ensures begun { IfOk result (λ core. Tells core.shared core.locals (begun boot state.now watchers.items)) }
    {
        let shared = Shared::new(alloc, boot.links, boot.watchers, state.heads)?;
        let navigator = Navigator::new(alloc, boot.params, boot.home, state)?;
        let schedules = sorted(alloc, boot.links, boot.watchers, boot.inputs.into_vec())?;
        let locals = crew(alloc, boot.links, navigator, schedules, watchers)?;
        Ok(Core {
            shared,
            locals,
            links: boot.links,
        })
    }

    /// One step of one actor, with the reply that `serve` gave where the worker has taken a request. It makes a line by the
    /// actor's law, or is idle and changes nothing, exactly where the actor is not ready; an actor that the core does not have
    /// never is. A reply that is given is the one that the line says.
    pub fn step(&mut self, actor: Actor, input: Option<Reply>) -> StepOut<Line>
        requires fits { CoreFits W.waits self.old }
        requires suits { InputSuits (core_taken self.old) actor input }
        ensures fits { CoreFits W.waits self.new }
        ensures steps { CoreSteps (record { works = W.works; tells = W.tells }) self.old actor result self.new }
        ensures given { SaysGiven input result }
    {
        let place = self.place_of(actor);
        if place < self.locals.len() && self.locals[place].is_named(actor) {
            let local = &mut self.locals[place];
            local::step::<W>(&mut self.shared, local, input)
        } else {
            StepOut::Idle
        }
    }

    /// Whether the actor is ready.
    pub fn ready(&self, actor: Actor) -> bool
        requires { CoreFits W.waits self.now }
        ensures { (t : BootTold W) → Tells self.now.shared self.now.locals t → result ≡ has_ready t.shared actor t.actors }
    {
        let place = self.place_of(actor);
        if place < self.locals.len() && self.locals[place].is_named(actor) {
            local::is_ready::<W>(&self.shared, &self.locals[place])
        } else {
            false
        }
    }
}

impl<W> Core<W> {
    /// Where an actor's local stands, if the core has it.
    fn place_of(&self, actor: Actor) -> usize
        ensures { result ≡ number_among self.now.links actor }
    {
        match actor {
            Actor::Worker => 0,
            Actor::Link(number) => 1 + number as usize,
            Actor::Nav => 1 + self.links as usize,
            Actor::Watch(number) => 2 + self.links as usize + number as usize,
        }
    }

    /// The request that the worker has taken and not answered. None comes exactly where there is none.
    pub fn taken(&self) -> Option<Request>
        ensures { result ≡ core_taken self.now }
    {
        match self.locals.first() {
            Some(local) => local.taken(),
            None => None,
        }
    }

    /// Whether every schedule is finished.
    pub fn is_finished(&self) -> bool
        ensures { result ≡ finished_among self.now.locals }
    {
        for local in &self.locals {
            if !local.is_finished() {
                return false;
            }
        }
        true
    }

    /// The shared part, and the locals in the order of their numbers: worker, links, Navigator and watchers.
    pub fn parts(self) -> (Shared, Vec<Local<W>>)
        ensures shared { result.0 ≡ self.shared }
        ensures locals { result.1.items ≡ self.locals }
    {
        (self.shared, self.locals)
    }
}
