//! The cross product that tells on which side of a line a place lies. Coordinates are of 32 bits, so it has up to 66.

ghost use Rattle.std.specs.Prelude.{◌≡◌, ◌<◌, ◌^◌, ◌*ℤ◌, ◌-ℤ◌, unsigned_abs};
ghost use Rattle.fence_polygon.specs.Turn.{turn};

/// The cross product of `b - a` and `c - a`, each place a latitude and a longitude in 1e-7 degree.
pub fn cross_product(a: (i32, i32), b: (i32, i32), c: (i32, i32)) -> i128
    ensures { result ≡ turn a b c }
{
    product(difference(b.0, a.0), difference(c.1, a.1))
        - product(difference(b.1, a.1), difference(c.0, a.0))
}

fn difference(n: i32, from: i32) -> i64
    ensures value { result ≡ n -ℤ from }
    ensures small { unsigned_abs result < 2 ^ 32 }
{
    i64::from(n) - i64::from(from)
}

fn product(a: i64, b: i64) -> i128
    requires left { unsigned_abs a < 2 ^ 32 }
    requires right { unsigned_abs b < 2 ^ 32 }
    ensures value { result ≡ a *ℤ b }
    ensures small { unsigned_abs result < 2 ^ 64 }
{
    i128::from(a) * i128::from(b)
}
