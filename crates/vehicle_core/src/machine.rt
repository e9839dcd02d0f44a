//! The core as a machine: one shared part, a local for each actor, and the step of one of them.

ghost use Rattle.std.specs.Prelude.{◌≡◌};

use crate::boot_core::Core;
use crate::local::{Local, Role};
use crate::shared::Shared;
use crate::watch_turn::{Todo, next};
use crate::{link, nav, watch, worker};
use mission_model::{Line, Reply};
use request_board::Watcher;
use std::marker::PhantomData;
use std::snapshot::Snapshot;
use turn_cell::{Machine, StepOut};

impl<W: Watcher> Machine for Core<W> {
    type Shared = Shared;

    type Local = Local<W>;

    type Input = Option<Reply>;

    type Line = Line;

    ghost use Rattle.vehicle_core.specs.Steps.{number_of, Steps};
    ghost use Rattle.vehicle_core.specs.Fits.{LocalFits, LocalSuits};

    ghost number = { number_of };

    ghost fits = { LocalFits W.waits };

    ghost suits = { LocalSuits };

    ghost steps = { Steps (record { works = W.works; tells = W.tells }) };

    fn step(shared: &mut Shared, local: &mut Local<W>, input: Option<Reply>) -> StepOut<Line> {
        match &mut local.role {
            Role::Worker(taken) => worker::step(shared, taken, input),
            Role::Link(link) => link::step(shared, link),
            Role::Nav(nav) => nav::step(shared, nav),
            Role::Watch(watch) => match next(shared, watch.number, &mut watch.schedule) {
                Todo::Rests => StepOut::Idle,
                Todo::Does(input) => {
                    let out = watch.watcher.work(&input, shared.board.published());
                    watch.busy = out.read.is_some();
                    StepOut::Made(watch::did(shared, watch.number, input, &out))
                }
                Todo::Hears(asked, reply) => {
                    let out = watch.watcher.told(&asked, &reply, shared.board.published());
                    watch.busy = out.read.is_some();
                    StepOut::Made(watch::got(shared, watch.number, asked, reply, &out))
                }
            },
        }
    }

    ghost use Rattle.vehicle_core.specs.MachineLaws.{same_number, still_fits, others_fit, idle_changes_nothing};

    ghost same_number = { same_number (record { works = W.works; tells = W.tells }) };

    ghost still_fits = { still_fits (record { works = W.works; tells = W.tells }) W.waits (record { works = W.works_well; tells = W.tells_well }) };

    ghost others_fit = { others_fit (record { works = W.works; tells = W.tells }) W.waits (record { works = W.works_well; tells = W.tells_well }) };

    ghost idle_changes_nothing = { idle_changes_nothing (record { works = W.works; tells = W.tells }) };
}

/// The machine of threads. It has no bytes and may cross threads whatever the watchers are.
pub struct Flight<W> {
    of: PhantomData<Snapshot<W>>,
}

impl<W: Watcher> Machine for Flight<W> {
    type Shared = Shared;

    type Local = Local<W>;

    type Input = Option<Reply>;

    type Line = Line;

    ghost use Rattle.vehicle_core.specs.Steps.{number_of, Steps};
    ghost use Rattle.vehicle_core.specs.Fits.{LocalFits, LocalSuits};

    ghost number = { number_of };

    ghost fits = { LocalFits W.waits };

    ghost suits = { LocalSuits };

    ghost steps = { Steps (record { works = W.works; tells = W.tells }) };

    fn step(shared: &mut Shared, local: &mut Local<W>, input: Option<Reply>) -> StepOut<Line> {
        match &mut local.role {
            Role::Worker(taken) => worker::step(shared, taken, input),
            Role::Link(link) => link::step(shared, link),
            Role::Nav(nav) => nav::step(shared, nav),
            Role::Watch(watch) => match next(shared, watch.number, &mut watch.schedule) {
                Todo::Rests => StepOut::Idle,
                Todo::Does(input) => {
                    let out = watch.watcher.work(&input, shared.board.published());
                    watch.busy = out.read.is_some();
                    StepOut::Made(watch::did(shared, watch.number, input, &out))
                }
                Todo::Hears(asked, reply) => {
                    let out = watch.watcher.told(&asked, &reply, shared.board.published());
                    watch.busy = out.read.is_some();
                    StepOut::Made(watch::got(shared, watch.number, asked, reply, &out))
                }
            },
        }
    }

    ghost use Rattle.vehicle_core.specs.MachineLaws.{same_number, still_fits, others_fit, idle_changes_nothing};

    ghost same_number = { same_number (record { works = W.works; tells = W.tells }) };

    ghost still_fits = { still_fits (record { works = W.works; tells = W.tells }) W.waits (record { works = W.works_well; tells = W.tells_well }) };

    ghost others_fit = { others_fit (record { works = W.works; tells = W.tells }) W.waits (record { works = W.works_well; tells = W.tells_well }) };

    ghost idle_changes_nothing = { idle_changes_nothing (record { works = W.works; tells = W.tells }) };
}
