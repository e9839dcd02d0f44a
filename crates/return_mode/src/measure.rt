//! How far two places are from each other, in 1e-7 degree. It orders places, and is no distance.

ghost use Rattle.std.specs.Prelude.{◌≡◌, ◌<◌, ◌^◌, pos, ◌-ℤ◌, ◌≤ℤ◌, ◌<ℤ◌, unsigned_abs};
ghost use Rattle.mission_model.specs.Returns.{measure_to, shorter_way};

/// 360 degrees.
const FULL_TURN: i64 = 3_600_000_000;

/// The difference of latitude and the shorter difference of longitude, or 0 where the vehicle's position is not known.
pub fn measure_to(position: Option<(i32, i32)>, x: i32, y: i32) -> i64
    ensures { result ≡ measure_to position x y }
{
    match position {
        Some((here_x, here_y)) => difference(here_x, x) + shorter_way(difference(here_y, y)),
        None => 0,
    }
}

fn difference(a: i32, b: i32) -> i64
    ensures value { result ≡ pos (unsigned_abs (a -ℤ b)) }
    ensures low { pos 0 ≤ℤ result }
    ensures high { result <ℤ pos (2 ^ 32) }
{
    (i64::from(a) - i64::from(b)).abs()
}

fn shorter_way(difference: i64) -> i64
    requires low { pos 0 ≤ℤ difference }
    requires high { difference <ℤ pos (2 ^ 32) }
    ensures value { result ≡ shorter_way difference }
    ensures small { unsigned_abs result < 2 ^ 32 }
{
    difference.min(FULL_TURN - difference)
}
