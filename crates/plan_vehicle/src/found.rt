//! What a judge finds of a mission that is known whole.

ghost use Rattle.std.specs.Prelude.{◌≡◌, ◌<◌, IsTrue};
ghost use Rattle.std.specs.Option.{ForSome};
ghost use Rattle.mission_model.specs.PlanCode.{PlanValid};
ghost use Rattle.mission_model.specs.declared.plan.PlanType.TheVariants as kind;
ghost use Rattle.mission_model.specs.Feasible.{FirstBroken};
ghost use Rattle.mission_model.specs.Returns.{is_feasible, landing_where};

use feasibility::{Judge, Verdict};
use fence_polygon::Fence;
use mission_model::{Home, Item, Params};

/// The first rule that is broken with the first item that breaks it, and where none is, the land start and its landing.
#[derive(Clone, Copy)]
pub struct Found {
    pub broken: Option<(u8, u16)>,
    pub landing: Option<(u16, u16)>,
}

/// Judges a mission with a fence.
pub fn judged(params: Params, home: Option<Home>, mission: &[Item], fence: &[Item]) -> Found
    requires mission { PlanValid kind.Mission mission.now }
    requires fence { PlanValid kind.Fence fence.now }
    ensures broken { result.broken ≡ FirstBroken params home mission.now fence.now }
    ensures landing { result.landing ≡ landing_where (is_feasible params home mission.now fence.now) mission.now }
    ensures in_order { ForSome result.landing (λ landing. landing.0 < landing.1) }
{
    let polygons = Fence::from_items(fence);
    let mut judge = Judge::begin(params, home, &polygons, mission.len() as u16);
    for item in mission {
        judge.feed(item);
    }
    match judge.verdict() {
        Some(Verdict::Broken { rule, item }) => Found {
            broken: Some((rule, item)),
            landing: None,
        },
        Some(Verdict::Feasible) => Found {
            broken: None,
            landing: judge.landing(),
        },
        None => Found {
            broken: None,
            landing: None,
        },
    }
}
