//! The legs of one mission, over one fence.

ghost use Rattle.std.specs.Prelude.{◌≡◌, ◌≤◌, [], ◌∷◌, length, filter, IfOk};
ghost use Rattle.mission_model.specs.PlanCode.{PlanValid};
ghost use Rattle.mission_model.specs.declared.plan.PlanType.TheVariants as kind;
ghost use Rattle.mission_model.specs.declared.limits.TheConstants.{MAX_MISSION_ITEMS};
ghost use Rattle.leg_survey.specs.Stops.{stops, legs_between};
ghost use Rattle.leg_survey.specs.Survey.{IsAppended, TellsLegs, is_clear};

use crate::text::push_sight;
use fence_polygon::Fence;
use leg_fence::{LegSight, leg_of};
use mission_model::Item;
use mission_model::command::has_position;
use std::alloc::AllocError;

/// Appends the lines of a mission's legs; gives how many legs there are, and how many of them are clear.
pub fn push_legs(
    out: &mut Vec<u8>,
    fence: &Fence,
    vertices: &[Item],
    items: &[Item],
) -> Result<(u16, u16), AllocError>
    requires valid { PlanValid kind.Fence vertices.now }
    requires same { fence.now ≡ vertices.now }
    requires few { length items.now ≤ MAX_MISSION_ITEMS }
    ensures { IfOk result (λ told. IsAppended (λ lines. TellsLegs vertices.now (legs_between (stops items.now)) lines told.0 told.1) out.old.items out.new.items) }
{
    let mut last: Option<(u16, Item)> = None;
    let mut seq: u16 = 0;
    let mut count: u16 = 0;
    let mut clear: u16 = 0;
    let mut rest = items;
    while let Some((item, more)) = rest.split_first() {
        let here = seq;
        seq += 1;
        rest = more;
        if !has_position(item) {
            continue;
        }
        let before = last;
        last = Some((here, *item));
        let Some((from, start)) = before else {
            continue;
        };
        let sight = leg_of(fence, vertices, place_of(&start), place_of(item));
        push_sight(out, from, here, sight)?;
        count += 1;
        clear += number_clear(sight);
    }
    Ok((count, clear))
}

/// One, where the leg is clear.
fn number_clear(sight: LegSight) -> u16
    ensures { result ≡ length (filter is_clear (sight ∷ [])) }
{
    match sight {
        LegSight::Clear => 1,
        _ => 0,
    }
}

/// The item's latitude and longitude, in 1e-7 degree.
fn place_of(item: &Item) -> (i32, i32)
    ensures { result ≡ (item.now.x, item.now.y) }
{
    (item.x, item.y)
}
