//! What a verdict and a choice of a return take: the fence first, and then the mission or the safe points.

ghost use Rattle.std.specs.Prelude.{◌≡◌, List};
ghost use Rattle.mission_model.specs.declared.plan.Item.{Item as ItemValue};
ghost use Rattle.mission_model.specs.declared.plan.PlanType.TheVariants as kind;
ghost use Rattle.client_cache.specs.CacheState.{count_of};
ghost use Rattle.navigator.specs.Taking.{taking};
ghost use Rattle.navigator.specs.Judging.{FedBy, TakesOn, no_uses, is_whole, lacking, or_else};
ghost use Rattle.navigator.specs.OnReturn.{points_behind};

use crate::taken_list::TakenList;
use crate::taken_mission::TakenMission;
use crate::uses::JumpUses;
use mission_model::{Home, Params, PlanType};

/// Takes the fence on. When its last vertex is taken the judge is given the fence.
fn take_fence(params: Params, home: Option<Home>, fence: &mut TakenList, mission: &mut TakenMission)
    requires { fence.old.kind ≡ kind.Fence }
    ensures fence { fence.new ≡ taking no_uses fence.old }
    ensures cache { mission.new.cache ≡ mission.old.cache }
    ensures fed { (items : List ItemValue) → FedBy params home fence.old mission.old items → FedBy params home fence.new mission.new items }
{
    if fence.is_whole() {
        return;
    }
    fence.take_on();
    if fence.is_whole() {
        mission.restart(params, home, fence.fence());
    }
}

/// Takes fence and mission on, and answers the first item that is lacking still.
pub fn take_plans(
    params: Params,
    home: Option<Home>,
    fence: &mut TakenList,
    mission: &mut TakenMission,
    uses: &JumpUses,
) -> Option<(PlanType, u16)>
    requires { fence.old.kind ≡ kind.Fence }
    ensures fence { fence.new ≡ taking no_uses fence.old }
    ensures mission { (items : List ItemValue) → FedBy params home fence.old mission.old items
        → TakesOn params home uses.now fence.new mission.old items result mission.new }
    ensures count { count_of mission.new.cache.head ≡ count_of mission.old.cache.head }
{
    take_fence(params, home, fence, mission);
    if !fence.is_whole() {
        return Some((PlanType::Fence, fence.next_seq()));
    }
    mission.take_on(uses);
    if mission.is_whole() {
        return None;
    }
    Some((PlanType::Mission, mission.next_seq()))
}

/// Takes fence and safe points on, and answers the first item that is lacking still.
pub fn take_points(
    params: Params,
    home: Option<Home>,
    fence: &mut TakenList,
    mission: &mut TakenMission,
    safe: &mut TakenList,
) -> Option<(PlanType, u16)>
    requires { fence.old.kind ≡ kind.Fence }
    ensures fence { fence.new ≡ taking no_uses fence.old }
    ensures safe { safe.new ≡ points_behind (is_whole fence.new) safe.old }
    ensures answer { result ≡ or_else (lacking kind.Fence fence.new) (lacking kind.Safe safe.new) }
    ensures cache { mission.new.cache ≡ mission.old.cache }
    ensures fed { (items : List ItemValue) → FedBy params home fence.old mission.old items → FedBy params home fence.new mission.new items }
{
    take_fence(params, home, fence, mission);
    if !fence.is_whole() {
        return Some((PlanType::Fence, fence.next_seq()));
    }
    safe.take_on();
    if safe.is_whole() {
        return None;
    }
    Some((PlanType::Safe, safe.next_seq()))
}
