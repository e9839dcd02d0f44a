//! Which items of a mission a return flies to.

ghost use Rattle.std.specs.Prelude.{◌≡◌};
ghost use Rattle.mission_model.specs.Returns.{is_return_leg};

use mission_model::Item;
use mission_model::command::{has_position, is_leg};

/// Whether the item is a leg and has a position.
#[tactic(auto, unfolding(mission_model::specs::Returns::is_return_leg))]
pub fn is_return_leg(item: &Item) -> bool
    ensures { result ≡ is_return_leg item.now }
{
    is_leg(item.command) && has_position(item)
}
