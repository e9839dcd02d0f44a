//! One actor of a boot: what it is, and its number among all actors.

ghost use Rattle.std.specs.Prelude.{◌≡◌, List, ℕ};
ghost use Rattle.mission_model.specs.declared.plan.Item.{Item};
ghost use Rattle.vehicle_core.specs.LocalState.{finished_of, local_told, taken_of};
ghost use Rattle.vehicle_core.specs.Ready.{is_ready};
ghost use Rattle.vehicle_core.specs.ScheduleState.{same_actor};
ghost use Rattle.vehicle_core.specs.SharedState.{Counted, shared_told};
ghost use Rattle.vehicle_core.specs.Steps.{RoleFits, RoleSuits, Steps};
ghost use Rattle.vehicle_core.specs.Fits.{role_name};

use crate::link::{self, Link};
use crate::nav::{self, NavActor};
use crate::shared::Shared;
use crate::watch::{self, WatchActor};
use crate::{client, worker};
use mission_model::{Actor, Client, Line, Reply, Request};
use request_board::Watcher;
use turn_cell::StepOut;

/// What an actor is. The worker's is the request that it has taken and not answered.
#[derive(Drop)]
pub enum Role<W> {
    Worker(Option<(Client, Request)>),
    Link(Link),
    Nav(NavActor),
    Watch(WatchActor<W>),
}

/// An actor with its number: the worker's is 0, then come the links, the Navigator and the watchers.
#[derive(Drop)]
pub struct Local<W> {
    pub number: u8,
    pub role: Role<W>,
}

impl<W> Local<W> {
    /// The request that the worker has taken and not answered; None for any other actor.
    pub fn taken(&self) -> Option<Request>
        ensures { result ≡ taken_of self.now }
    {
        match &self.role {
            Role::Worker(Some((_, request))) => Some(*request),
            _ => None,
        }
    }

    /// Whether the schedule is finished; the worker's always is.
    pub fn is_finished(&self) -> bool
        ensures { result ≡ finished_of self.now }
    {
        match &self.role {
            Role::Worker(_) => true,
            Role::Link(link) => link.schedule.is_finished(),
            Role::Nav(nav) => nav.schedule.is_finished(),
            Role::Watch(watch) => watch.schedule.is_finished(),
        }
    }

    /// Whether it is this actor's.
    pub fn is_named(&self, actor: Actor) -> bool
        ensures { result ≡ same_actor actor (role_name self.now.role) }
    {
        match (actor, &self.role) {
            (Actor::Worker, Role::Worker(_)) => true,
            (Actor::Link(number), Role::Link(link)) => number == link.number,
            (Actor::Nav, Role::Nav(_)) => true,
            (Actor::Watch(number), Role::Watch(watch)) => number == watch.number,
            _ => false,
        }
    }
}

/// Whether the actor is ready: the power is on, and it has something to do.
pub fn is_ready<W: Watcher>(shared: &Shared, local: &Local<W>) -> bool
    requires { RoleFits W.waits shared.now local.now.role }
    ensures { (arrived : List ℕ) (items : List Item) → Counted arrived shared.now → result ≡ is_ready (shared_told shared.now arrived) (local_told local.now items) }
{
    if !shared.power {
        return false;
    }
    match &local.role {
        Role::Worker(taken) => worker::has_turn(shared, taken),
        Role::Link(link) => link::has_turn(shared, link),
        Role::Nav(nav) => nav::has_turn(shared, nav),
        Role::Watch(watch) => client::has_turn(
            shared,
            Client::Watch(watch.number),
            &watch.schedule,
        ),
    }
}

/// One step of an actor over the shared part, with the reply that `serve` gave where the worker has taken a request.
pub fn step<W: Watcher>(
    shared: &mut Shared,
    local: &mut Local<W>,
    reply: Option<Reply>,
) -> StepOut<Line>
    requires fits { RoleFits W.waits shared.old local.old.role }
    requires suits { RoleSuits local.old.role reply }
    ensures { Steps (record { works = W.works; tells = W.tells }) shared.old local.old reply result shared.new local.new }
{
    match &mut local.role {
        Role::Worker(taken) => worker::step(shared, taken, reply),
        Role::Link(link) => link::step(shared, link),
        Role::Nav(nav) => nav::step(shared, nav),
        Role::Watch(watch) => watch::step(shared, watch),
    }
}
