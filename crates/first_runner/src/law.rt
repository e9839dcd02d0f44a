//! The law of the runner: whatever turns the actors take over the store, the lines are a run of one vehicle.

ghost use Rattle.first_runner.specs.OneVehicle.{WholeIsRun, SoFarIsRun};
ghost use Rattle.first_runner.specs.ActorsRun.{WholeIsOfActors, SoFarIsOfActors};

use first_core::parts_fit;

/// A record of a boot, whole or stopped within it, is a run of one vehicle.
pub fn one_vehicle()
    ensures whole { WholeIsRun }
    ensures so_far { SoFarIsRun }
{
    parts_fit();
}

/// A record of a boot, whole or stopped within it, is a run of its actors in the stated order.
pub fn actors_run()
    ensures whole { WholeIsOfActors }
    ensures so_far { SoFarIsOfActors }
{
    parts_fit();
}
