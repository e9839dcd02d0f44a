//! Which sorts of items the mission has so far.

ghost use Rattle.std.specs.Prelude.{◌≡◌};
ghost use Rattle.mission_model.specs.Command.{has_position};
ghost use Rattle.mission_model.specs.Feasible.{lacks_asked};

use crate::item_rules::{is_landing, is_takeoff};
use mission_model::Item;

/// Whether the mission so far has an item with a position, a takeoff, and a landing.
#[derive(Clone, Copy)]
pub struct Seen {
    pub position: bool,
    pub takeoff: bool,
    pub landing: bool,
}

impl Seen {
    ghost use Rattle.feasibility.specs.SoFar.{nothing_seen, seen_with};

    pub fn new() -> Seen
        ensures { result ≡ nothing_seen }
    {
        Seen {
            position: false,
            takeoff: false,
            landing: false,
        }
    }

    /// The same of the mission with one more item. `is_positioned` says whether it has a position.
    pub fn with(self, item: &Item, is_positioned: bool) -> Seen
        requires { is_positioned ≡ has_position item.now }
        ensures { result ≡ seen_with self item.now }
    {
        Seen {
            position: self.position || is_positioned,
            takeoff: self.takeoff || is_takeoff(item),
            landing: self.landing || is_landing(item),
        }
    }
}

/// Whether a takeoff or a landing that is asked is not there. The parameter is named after PX4's MIS_TKO_LAND_REQ; what
/// each number asks is this project's rule: 1 a takeoff, 2 a landing, 3 both, 4 both or neither.
pub fn lacks_asked(asked: u8, takeoff: bool, landing: bool) -> bool
    ensures { result ≡ lacks_asked asked takeoff landing }
{
    match asked {
        1 => !takeoff,
        2 => !landing,
        3 => !(takeoff && landing),
        4 => takeoff != landing,
        _ => false,
    }
}
