//! Whether two straight segments have a place in common: their ranges of latitude and of longitude overlap, and neither lies
//! on one side of the other's line. The ranges are looked at first, since cross products have more than 64 bits.

ghost use Rattle.std.specs.Prelude.{◌≡◌, ◌↔◌, IsTrue, int_le};
ghost use Rattle.std.specs.Int.{int_min, int_max};
ghost use Rattle.leg_fence.specs.Crossing.{overlap, same_sign, on_one_side, boxes_overlap, lines_cross};
ghost use Rattle.leg_fence.specs.Meets.{Meets};

use fence_polygon::cross_product;

/// Whether the segment from `p` to `q` and the one from `a` to `b` have a place in common, ends included.
pub fn meets(p: (i32, i32), q: (i32, i32), a: (i32, i32), b: (i32, i32)) -> bool
    ensures { IsTrue result ↔ Meets p q a b }
{
    boxes_overlap(p, q, a, b) && lines_cross(p, q, a, b)
}

fn boxes_overlap(p: (i32, i32), q: (i32, i32), a: (i32, i32), b: (i32, i32)) -> bool
    ensures { result ≡ boxes_overlap p q a b }
{
    overlap(p.0, q.0, a.0, b.0) && overlap(p.1, q.1, a.1, b.1)
}

#[tactic(auto, unfolding(crate::specs::Crossing::overlap))]
fn overlap(p: i32, q: i32, a: i32, b: i32) -> bool
    ensures { result ≡ overlap p q a b }
{
    reaches(p, q, a, b) && reaches(a, b, p, q)
}

fn reaches(p: i32, q: i32, a: i32, b: i32) -> bool
    ensures { result ≡ int_le (int_min p q) (int_max a b) }
{
    p.min(q) <= a.max(b)
}

fn lines_cross(p: (i32, i32), q: (i32, i32), a: (i32, i32), b: (i32, i32)) -> bool
    ensures { result ≡ lines_cross p q a b }
{
    !on_one_side(p, q, a, b) && !on_one_side(a, b, p, q)
}

fn on_one_side(a: (i32, i32), b: (i32, i32), c: (i32, i32), d: (i32, i32)) -> bool
    ensures { result ≡ on_one_side a b c d }
{
    have_same_sign(cross_product(a, b, c), cross_product(a, b, d))
}

#[tactic(auto, unfolding(crate::specs::Crossing::same_sign))]
fn have_same_sign(m: i128, n: i128) -> bool
    ensures { result ≡ same_sign m n }
{
    (m > 0 && n > 0) || (m < 0 && n < 0)
}
