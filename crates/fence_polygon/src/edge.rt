//! One edge of a polygon, from a vertex to the next one, and a place beside it. Latitude is x and longitude is y. An edge's
//! range is tested before its cross product is taken, which has more than 64 bits.

ghost use Rattle.std.specs.Prelude.{◌≡◌, ◌&&◌, pos};
ghost use Rattle.std.specs.Ordering.{int_eq};
ghost use Rattle.mission_model.specs.Fence.{cross_product, is_in_range, is_on_edge, crosses_upward, crosses};

use crate::vertex::Vertex;

/// Whether the place lies on the edge, its ends included.
#[tactic(auto, unfolding(mission_model::specs::Fence::is_on_edge))]
pub fn is_on_edge(from: &Vertex, to: &Vertex, x: i32, y: i32) -> bool
    ensures { result ≡ is_on_edge x y (from.now, to.now) }
{
    is_in_box(from, to, x, y) && is_in_line(from, to, x, y)
}

fn is_in_box(a: &Vertex, b: &Vertex, x: i32, y: i32) -> bool
    ensures { result ≡ (is_in_range a.now.x b.now.x x && is_in_range a.now.y b.now.y y) }
{
    is_in_range(a.x(), b.x(), x) && is_in_range(a.y(), b.y(), y)
}

fn is_in_line(a: &Vertex, b: &Vertex, x: i32, y: i32) -> bool
    ensures { result ≡ int_eq (cross_product a.now b.now x y) (pos 0) }
{
    cross_product(a, b, x, y) == 0
}

/// Whether the edge crosses the ray from the place towards greater longitudes.
#[tactic(auto, unfolding(mission_model::specs::Fence::crosses))]
pub fn crosses(from: &Vertex, to: &Vertex, x: i32, y: i32) -> bool
    ensures { result ≡ crosses x y (from.now, to.now) }
{
    crosses_upward(from, to, x, y) || crosses_upward(to, from, x, y)
}

#[tactic(auto, unfolding(mission_model::specs::Fence::crosses_upward))]
fn crosses_upward(lower: &Vertex, upper: &Vertex, x: i32, y: i32) -> bool
    ensures { result ≡ crosses_upward x y lower.now upper.now }
{
    lower.x() <= x && x < upper.x() && cross_product(lower, upper, x, y) < 0
}

#[tactic(auto, unfolding(mission_model::specs::Fence::is_in_range))]
fn is_in_range(a: i32, b: i32, n: i32) -> bool
    ensures { result ≡ is_in_range a b n }
{
    a.min(b) <= n && n <= a.max(b)
}

#[tactic(auto, unfolding(mission_model::specs::Fence::cross_product))]
fn cross_product(a: &Vertex, b: &Vertex, x: i32, y: i32) -> i128
    ensures { result ≡ cross_product a.now b.now x y }
{
    crate::turn::cross_product((a.x(), a.y()), (b.x(), b.y()), (x, y))
}
