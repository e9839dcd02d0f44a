//! Bands of latitudes, in each of which the same edges of a fence lie. Latitude is x, in 1e-7 degree.

ghost use Rattle.std.specs.Prelude.{◌≡◌, ℕ, ◌<◌, ◌≤◌, ◌<ℤ◌, ◌≤ℤ◌, map, length, int_le, int_lt, slice_index_or};
ghost use Rattle.fence_polygon.specs.Marks.{InOrder, with_bit};

use mission_model::limits::MAX_FENCE_VERTICES;

/// The most bands of a fence: one for each vertex, and one between each two of them.
pub const MAX_BANDS: usize = 2 * MAX_FENCE_VERTICES as usize - 1;

/// The latitudes from the first to the second, both included. Bit i of `edges` says that the edge which begins at the
/// fence's vertex i holds them.
#[derive(Clone, Copy, Debug, PartialEq, Eq, Default)]
pub struct Band {
    pub from: i32,
    pub to: i32,
    pub edges: u64,
}

/// How many of the bands end below a latitude.
pub fn bands_below(bands: &[Band], x: i32) -> usize
    requires { InOrder bands.now }
    ensures within { result ≤ length bands.now }
    ensures below { (k : ℕ) (d : Band) → k < result → (slice_index_or bands.now k d).to <ℤ x }
    ensures from_it_on { (k : ℕ) (d : Band) → result ≤ k → k < length bands.now → x ≤ℤ (slice_index_or bands.now k d).to }
{
    let mut low = 0;
    let mut high = bands.len();
    while low < high {
        let middle = low + (high - low) / 2;
        if ends_below(&bands[middle], x) {
            low = middle + 1;
        } else {
            high = middle;
        }
    }
    low
}

fn ends_below(band: &Band, x: i32) -> bool
    ensures { result ≡ int_lt band.now.to x }
{
    band.to < x
}

/// Sets a bit in each band that begins within a range of latitudes.
pub fn set_bit(bands: &mut [Band], low: i32, high: i32, bit: u64)
    requires { InOrder bands.old }
    ensures { bands.new ≡ map (with_bit low high bit) bands.old }
{
    let mut at = bands_below(bands, low);
    while at < bands.len() && begins_by(&bands[at], high) {
        bands[at] = with_bit(bands[at], low, high, bit);
        at += 1;
    }
}

/// Whether the band begins at a latitude or below it.
pub fn begins_by(band: &Band, x: i32) -> bool
    ensures { result ≡ int_le band.now.from x }
{
    band.from <= x
}

/// The band with a bit set, where it begins within a range of latitudes.
#[tactic(auto, unfolding(crate::specs::Marks::with_bit))]
fn with_bit(band: Band, low: i32, high: i32, bit: u64) -> Band
    ensures { result ≡ with_bit low high bit band }
{
    if low <= band.from && band.from <= high {
        Band {
            edges: band.edges | bit,
            ..band
        }
    } else {
        band
    }
}
