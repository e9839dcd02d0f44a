//! A polygon as its vertices in order. Each is joined with the next one, and the last with the first.

ghost use Rattle.std.specs.Prelude.{◌≡◌, ◌<◌, ◌≤◌, ◌++◌, length, take, drop, slice_get, Some, min, max};
ghost use Rattle.mission_model.specs.Command.{vertex_count};
ghost use Rattle.mission_model.specs.Fence.{is_inside, edges_of};
ghost use Rattle.fence_polygon.specs.Bands.{edge_set};

use crate::edge::{crosses, is_on_edge};
use crate::vertex::Vertex;
use mission_model::Item;
use mission_model::command::vertex_count;

/// How many of the vertices that are left belong to the polygon that the first of them begins.
pub fn polygon_size(first: &Item, left: usize) -> usize
    requires { 1 ≤ left }
    ensures { result ≡ min (max 1 (vertex_count first.now)) left }
{
    (vertex_count(first) as usize).max(1).min(left)
}

/// Whether the place lies on an edge, or an odd number of edges crosses, where these are the edges at its latitude.
pub fn is_inside(polygon: &[Vertex], edges: u64, x: i32, y: i32) -> bool
    requires few { length polygon.now ≤ 64 }
    requires edges { edges ≡ edge_set x (edges_of polygon.now) }
    ensures { result ≡ is_inside polygon.now x y }
{
    let mut is_odd = false;
    let mut at = 0;
    let mut left = edges;
    while left != 0 {
        let skipped = left.trailing_zeros();
        at += skipped as usize;
        let from = &polygon[at];
        let to = vertex_after(polygon, at);
        if is_on_edge(from, to, x, y) {
            return true;
        }
        if crosses(from, to, x, y) {
            is_odd = !is_odd;
        }
        at += 1;
        left = (left >> skipped) >> 1;
    }
    is_odd
}

/// The vertex that is joined with the one at this place.
pub fn vertex_after(polygon: &[Vertex], at: usize) -> &Vertex
    requires { at < length polygon.now }
    ensures { slice_get (drop 1 polygon.now ++ take 1 polygon.now) at ≡ Some result.now }
{
    match polygon.get(at + 1) {
        Some(next) => next,
        None => &polygon[0],
    }
}
