//! What an item is, and which rules it breaks by itself.

ghost use Rattle.std.specs.Prelude.{◌≡◌, [], ◌&&◌};
ghost use Rattle.mission_model.specs.Command.{has_position};
ghost use Rattle.mission_model.specs.Feasible.{is_takeoff, is_unlimited_loiter, is_over_home, height_of, is_asked, breaks_takeoff_height, breaks_allowed, breaks_greatest_height, breaks_home_set};
ghost use Rattle.mission_model.specs.Landing.{is_landing, is_land_start};

use fence_polygon::Fence;
use mission_model::command::{
    DO_LAND_START, FRAME_GLOBAL, FRAME_GLOBAL_INT, FRAME_GLOBAL_RELATIVE_ALT,
    FRAME_GLOBAL_RELATIVE_ALT_INT, NAV_LAND, NAV_LOITER_UNLIM, NAV_TAKEOFF,
};
use mission_model::{Home, Item, Params};

pub fn is_takeoff(item: &Item) -> bool
    ensures { result ≡ is_takeoff item.now }
{
    item.command == NAV_TAKEOFF
}

pub fn is_landing(item: &Item) -> bool
    ensures { result ≡ is_landing item.now }
{
    item.command == NAV_LAND
}

pub fn is_land_start(item: &Item) -> bool
    ensures { result ≡ is_land_start item.now }
{
    item.command == DO_LAND_START
}

pub fn is_unlimited_loiter(item: &Item) -> bool
    ensures { result ≡ is_unlimited_loiter item.now }
{
    item.command == NAV_LOITER_UNLIM
}

/// Whether it is a takeoff of a lesser height than is asked.
pub fn breaks_takeoff_height(params: &Params, home: Option<Home>, item: &Item) -> bool
    ensures { result ≡ breaks_takeoff_height params.now home [] item.now [] }
{
    let least = params.takeoff_min;
    is_asked(least)
        && is_takeoff(item)
        && height(home, item).is_some_and(|height| height < i64::from(least))
}

/// Whether it has a position where the fence does not let the vehicle be. `is_positioned` says whether it has one.
pub fn breaks_allowed(fence: &Fence, item: &Item, is_positioned: bool) -> bool
    requires { is_positioned ≡ has_position item.now }
    ensures { result ≡ breaks_allowed fence.now [] item.now [] }
{
    is_positioned && !fence.allows(item.x, item.y)
}

/// Whether it has a position of a greater height than is asked. `is_positioned` says whether it has one.
pub fn breaks_greatest_height(
    params: &Params,
    home: Option<Home>,
    item: &Item,
    is_positioned: bool,
) -> bool
    requires { is_positioned ≡ has_position item.now }
    ensures { result ≡ breaks_greatest_height params.now home [] item.now [] }
{
    let greatest = params.max_alt;
    is_asked(greatest)
        && is_positioned
        && height(home, item).is_some_and(|height| height > i64::from(greatest))
}

/// Whether it has a position and a height over a home that is not set. `is_positioned` says whether it has one.
pub fn breaks_home_set(home: Option<Home>, item: &Item, is_positioned: bool) -> bool
    requires { is_positioned ≡ has_position item.now }
    ensures { result ≡ breaks_home_set home [] item.now [] }
{
    home.is_none() && is_positioned && is_over_home(item.frame)
}

/// The height over the home in millimetres, where the item has one.
fn height(home: Option<Home>, item: &Item) -> Option<i64>
    ensures { result ≡ height_of home item.now }
{
    let z = i64::from(item.z);
    if is_over_home(item.frame) {
        return Some(z);
    }
    if item.frame != FRAME_GLOBAL && item.frame != FRAME_GLOBAL_INT {
        return None;
    }
    match home {
        Some(home) => Some(z - i64::from(home.z)),
        None => None,
    }
}

fn is_over_home(frame: u16) -> bool
    ensures { result ≡ is_over_home frame }
{
    frame == FRAME_GLOBAL_RELATIVE_ALT || frame == FRAME_GLOBAL_RELATIVE_ALT_INT
}

fn is_asked(limit: i32) -> bool
    ensures { result ≡ is_asked limit }
{
    limit != 0
}
