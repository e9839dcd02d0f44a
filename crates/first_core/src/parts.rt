//! Laws on the parts of a core, for callers that reason over lists of steps.

ghost use Rattle.first_core.specs.PartsLaw.{PartsBegin, PartsStay};

/// The parts of a core fit one another at the beginning of a boot, and after each step of an actor.
pub fn parts_fit()
    ensures begin { PartsBegin }
    ensures stay { PartsStay }
{}
