//! A script's one boot, flown by a new vehicle.

ghost use Rattle.std.specs.Prelude.{◌≡◌, ◌⊎◌, [], ◌∷◌, All, IfOk, OnOk, OnErr};
ghost use Rattle.first_record.specs.Record.{IsPrintable};
ghost use Rattle.first_script.specs.Flyable.{IsFlyable, IsFlyableBoot};
ghost use Rattle.first_vehicle.specs.VehicleRun.{VehicleRun};
ghost use Rattle.first_store.specs.MapStore.{held};
ghost use Rattle.first_runner.specs.Tied.{IsSound};
ghost use Rattle.first_runner.specs.Round.{round_of};
ghost use Rattle.first_runner.specs.Flight.{IsNewVehicle, IsBegun};
ghost use Rattle.first_runner.specs.Flown.{IsFlownBoot, IsFlownPart};

use crate::law::{actors_run, one_vehicle};
use crate::run::Run;
use first_core::{Core, parts_fit};
use first_model::{Actor, BootScript, BootState, Counts, Line, Mark, PlanHead, Script};
use first_store::MapStore;
use std::alloc::{AllocError, Global};

/// The boot of a script, which has one.
pub fn only_boot(script: Script) -> BootScript
    requires { IsFlyable script }
    ensures only { script.boots ≡ result ∷ [] }
    ensures flyable { IsFlyableBoot result }
{
    let Script { boots, .. } = script;
    match boots.into_vec().pop() {
        Some(boot) => boot,
        None => unreachable!(),
    }
}

/// Flies the boot. The lines are there beside want of memory, too, as far as they came.
pub fn fly(alloc: Global, boot: BootScript) -> (Vec<Line>, Result<(), AllocError>)
    requires { IsFlyableBoot boot }
    ensures ok { OnOk result.1 (IsFlownBoot boot result.0.items) }
    ensures err { OnErr result.1 ((result.0.items ≡ []) ⊎ IsFlownPart boot result.0.items) }
    ensures printable { OnOk result.1 (All IsPrintable result.0.items) }
    ensures vehicle { VehicleRun result.0.items }
{
    one_vehicle();
    actors_run();
    let Ok(round) = round(alloc, boot.links) else {
        return (Vec::new(alloc), Err(AllocError));
    };
    let Ok(turns) = Vec::from_slice(alloc, boot.turns.as_slice()) else {
        return (Vec::new(alloc), Err(AllocError));
    };
    let Ok(mut run) = begin(alloc, boot) else {
        return (Vec::new(alloc), Err(AllocError));
    };
    let flown = run.fly(turns.as_slice(), round.as_slice());
    let Run { lines, .. } = run;
    (lines, flown)
}

/// The run of a boot before its first turn.
fn begin(alloc: Global, boot: BootScript) -> Result<Run, AllocError>
    requires { IsFlyableBoot boot }
    ensures begun { IfOk result (λ run. IsBegun boot run.core (held run.store) run.lines.items) }
    ensures sound { IfOk result (λ run. IsSound run.core (held run.store)) }
{
    parts_fit();
    let state = new_vehicle();
    let store = MapStore::new(alloc)?;
    let core = Core::new(alloc, boot, &state)?;
    let mut lines = Vec::new(alloc);
    lines.push(Line::Boot {
        number: 1,
        heads: state.heads,
        mark: state.mark,
    })?;
    Ok(Run { core, store, lines })
}

/// A new vehicle: three empty plans, and the mark at the first item.
fn new_vehicle() -> BootState
    ensures { IsNewVehicle result }
{
    let empty = PlanHead { id: 0, count: 0 };
    BootState {
        heads: [empty, empty, empty],
        mark: Mark {
            id: 0,
            index: 0,
            counts: Counts::new(),
        },
    }
}

/// A round: the worker, the links in their order, the Navigator.
fn round(alloc: Global, links: u8) -> Result<Vec<Actor>, AllocError>
    ensures { IfOk result (λ actors. actors.items ≡ round_of links) }
{
    let mut actors = Vec::new(alloc);
    actors.push(Actor::Worker)?;
    for link in 0..links {
        actors.push(Actor::Link(link))?;
    }
    actors.push(Actor::Nav)?;
    Ok(actors)
}
