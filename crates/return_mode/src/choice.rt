//! The choice of a return, by the parameter `rtl_type`.

ghost use Rattle.std.specs.Prelude.{◌≡◌, ◌≢◌, ℕ, ◌<◌, ◌≤◌, IsTrue, List, length};
ghost use Rattle.std.specs.Option.{ForSome};
ghost use Rattle.mission_model.specs.declared.plan.Item.{Item as ItemValue};
ghost use Rattle.mission_model.specs.declared.plan.PlanType.TheVariants as kind;
ghost use Rattle.mission_model.specs.PlanCode.{PlanValid};
ghost use Rattle.mission_model.specs.Returns.{candidates, nearest, target_of, landing_targets, mission_targets, home_target, targets_by, landing_where, is_feasible, ReturnList};
ghost use Rattle.return_mode.specs.Route.{targets_of};
ghost use Rattle.return_mode.specs.Nearer.{nearer, measured_home, with_safe_point};
ghost use Rattle.return_mode.specs.ReturnState.{begun};

use crate::measure::measure_to;
use crate::plan::ReturnPlan;
use crate::route::{Route, Target};
use fence_polygon::Fence;
use mission_model::limits::MAX_SAFE_POINTS;
use mission_model::{Home, Item, Params};

/// Chooses where to return to. `position` is the vehicle's latitude and longitude in 1e-7 degree, `safe` the safe points,
/// `landing` the seqs of the land start and of the landing of a feasible mission, and `index` the seq to be flown next.
///
/// With `rtl_type` 0 it is the nearest of the home and of the safe points that the fence allows; with 1 the mission's
/// landing; with 2 the mission, on to its landing or back to its begin. With 1 and 2 it is the home where there is no such.
///
/// What a type does not look at may be handed empty: `landing`, `feasible` and `index` with 0, and `safe` with 1 and 2.
pub fn choose(
    params: Params,
    home: Option<Home>,
    position: Option<(i32, i32)>,
    fence: &Fence,
    safe: &[Item],
    landing: Option<(u16, u16)>,
    feasible: bool,
    index: u16,
) -> ReturnPlan
    requires valid { PlanValid kind.Safe safe.now }
    requires judged { ForSome landing (λ found. IsTrue feasible × (found.0 < found.1)) }
    ensures chosen { result ≡ begun (targets_by params.rtl_type position home fence.now safe.now landing feasible index) }
    ensures over_missions { (mission : List ItemValue) → feasible ≡ is_feasible params home mission fence.now
        → landing ≡ landing_where feasible mission
        → result ≡ begun (ReturnList params home position safe.now mission fence.now index) }
    ensures nearest { params.rtl_type ≡ 0 → (mission : List ItemValue) (seq : ℕ)
        → result ≡ begun (ReturnList params home position safe.now mission fence.now seq) }
    ensures along { params.rtl_type ≢ 0 → (mission points : List ItemValue) → feasible ≡ is_feasible params home mission fence.now
        → landing ≡ landing_where feasible mission
        → result ≡ begun (ReturnList params home position points mission fence.now index) }
{
    ReturnPlan::begin(route(
        params, home, position, fence, safe, landing, feasible, index,
    ))
}

fn route(
    params: Params,
    home: Option<Home>,
    position: Option<(i32, i32)>,
    fence: &Fence,
    safe: &[Item],
    landing: Option<(u16, u16)>,
    feasible: bool,
    index: u16,
) -> Route
    requires few { length safe.now ≤ MAX_SAFE_POINTS }
    requires judged { ForSome landing (λ found. found.0 < found.1) }
    ensures { targets_of result ≡ targets_by params.rtl_type position home fence.now safe.now landing feasible index }
{
    match params.rtl_type {
        0 => nearest(home, position, fence, safe),
        1 => to_landing(home, landing),
        _ => along_mission(home, landing, feasible, index),
    }
}

/// The nearest of the home and the safe points that the fence allows; of those as near as each other the first.
fn nearest(home: Option<Home>, position: Option<(i32, i32)>, fence: &Fence, safe: &[Item]) -> Route
    requires { length safe.now ≤ MAX_SAFE_POINTS }
    ensures { targets_of result ≡ target_of (nearest (candidates position home fence.now safe.now)) }
{
    let mut best = measured_home(home, position);
    for (seq, point) in safe.iter().enumerate() {
        best = with_safe_point(best, position, fence, seq as u16, point);
    }
    match best {
        Some((_, target)) => Route::To(target),
        None => Route::Nowhere,
    }
}

fn measured_home(home: Option<Home>, position: Option<(i32, i32)>) -> Option<(i64, Target)>
    ensures { result ≡ measured_home position home }
{
    let home = home?;
    Some((measure_to(position, home.x, home.y), Target::Home))
}

/// The best candidate, after the safe point of this seq, which counts where the fence allows it.
fn with_safe_point(
    best: Option<(i64, Target)>,
    position: Option<(i32, i32)>,
    fence: &Fence,
    seq: u16,
    point: &Item,
) -> Option<(i64, Target)>
    ensures { result ≡ with_safe_point best position fence.now seq point.now }
{
    if !fence.allows(point.x, point.y) {
        return best;
    }
    nearer(
        best,
        measure_to(position, point.x, point.y),
        Target::Safe(seq),
    )
}

/// The better of two candidates, the first where they are as near.
fn nearer(best: Option<(i64, Target)>, measure: i64, target: Target) -> Option<(i64, Target)>
    ensures { result ≡ nearer best measure target }
{
    match best {
        Some((least, _)) if least <= measure => best,
        _ => Some((measure, target)),
    }
}

fn to_home(home: Option<Home>) -> Route
    ensures { targets_of result ≡ home_target home }
{
    match home {
        Some(_) => Route::To(Target::Home),
        None => Route::Nowhere,
    }
}

fn to_landing(home: Option<Home>, landing: Option<(u16, u16)>) -> Route
    requires { ForSome landing (λ found. found.0 < found.1) }
    ensures { targets_of result ≡ landing_targets home landing }
{
    match landing {
        Some((start, last)) => Route::Onward {
            first: start + 1,
            last,
        },
        None => to_home(home),
    }
}

fn along_mission(
    home: Option<Home>,
    landing: Option<(u16, u16)>,
    feasible: bool,
    index: u16,
) -> Route
    ensures { targets_of result ≡ mission_targets home landing feasible index }
{
    match landing {
        Some((_, last)) => Route::Onward {
            first: index.min(last),
            last,
        },
        None if feasible => Route::Back {
            index,
            has_home: home.is_some(),
        },
        None => to_home(home),
    }
}

#[cfg(test)]
mod tests;
