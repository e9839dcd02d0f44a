//! What is told of a leg: an end that the fence does not allow, or the least edge that the leg meets.

ghost use Rattle.std.specs.Prelude.{◌≡◌, ◌≤◌, ◌<◌, ◌++◌, ◌↔◌, IsTrue, length, take, drop, slice_get, Some};
ghost use Rattle.mission_model.specs.PlanCode.{PlanValid};
ghost use Rattle.mission_model.specs.declared.plan.PlanType.TheVariants as kind;
ghost use Rattle.mission_model.specs.Fence.{edges_of};
ghost use Rattle.fence_polygon.specs.Bands.{fence_edges};
ghost use Rattle.leg_fence.specs.Meets.{Meets};
ghost use Rattle.leg_fence.specs.Sight.{IsSight, IsFirstMet};

use crate::segment::meets;
use fence_polygon::{Fence, polygon_size};
use mission_model::Item;
use mission_model::limits::MAX_FENCE_VERTICES;

/// What is told of a leg.
#[derive(Clone, Copy, Debug, PartialEq, Eq)]
pub enum LegSight {
    /// The fence allows both ends, and the leg meets no edge.
    Clear,
    /// The fence does not allow the place that the leg comes from.
    OutsideFrom,
    /// It allows that place, but not the one that the leg goes to.
    OutsideTo,
    /// It allows both, and this is the first edge that the leg meets: the one that begins at this vertex.
    Edge(u16),
}

/// What is told of the straight leg from `p` to `q`, each latitude and longitude in 1e-7 degree, over the fence of these
/// items. An edge that the leg only touches is met.
pub fn leg_of(fence: &Fence, items: &[Item], p: (i32, i32), q: (i32, i32)) -> LegSight
    requires valid { PlanValid kind.Fence items.now }
    requires same { fence.now ≡ items.now }
    ensures { IsSight items.now p q result }
{
    if !fence.allows(p.0, p.1) {
        return LegSight::OutsideFrom;
    }
    if !fence.allows(q.0, q.1) {
        return LegSight::OutsideTo;
    }
    match first_met(items, p, q) {
        Some(edge) => LegSight::Edge(edge),
        None => LegSight::Clear,
    }
}

/// The first edge of a fence that the leg meets.
fn first_met(items: &[Item], p: (i32, i32), q: (i32, i32)) -> Option<u16>
    requires { length items.now ≤ MAX_FENCE_VERTICES }
    ensures { IsFirstMet (fence_edges items.now) p q result }
{
    let mut begin: u16 = 0;
    let mut rest = items;
    while let Some(first) = rest.first() {
        let size = polygon_size(first, rest.len());
        let (polygon, after) = rest.split_at(size);
        if let Some(at) = first_met_in(polygon, p, q) {
            return Some(begin + at);
        }
        begin += size as u16;
        rest = after;
    }
    None
}

/// The first edge of a polygon that the leg meets, counted in the polygon.
fn first_met_in(polygon: &[Item], p: (i32, i32), q: (i32, i32)) -> Option<u16>
    requires { length polygon.now ≤ MAX_FENCE_VERTICES }
    ensures { IsFirstMet (edges_of polygon.now) p q result }
{
    for at in 0..polygon.len() {
        if meets_edge(p, q, &polygon[at], vertex_after(polygon, at)) {
            return Some(at as u16);
        }
    }
    None
}

/// The vertex that is joined with the one at this place.
fn vertex_after(polygon: &[Item], at: usize) -> &Item
    requires { at < length polygon.now }
    ensures { slice_get (drop 1 polygon.now ++ take 1 polygon.now) at ≡ Some result.now }
{
    match polygon.get(at + 1) {
        Some(next) => next,
        None => &polygon[0],
    }
}

fn meets_edge(p: (i32, i32), q: (i32, i32), from: &Item, to: &Item) -> bool
    ensures { IsTrue result ↔ Meets p q (from.now.x, from.now.y) (to.now.x, to.now.y) }
{
    meets(p, q, (from.x, from.y), (to.x, to.y))
}

#[cfg(test)]
mod tests;
