//! The bands of a fence: its vertices' latitudes in rising order, a band for each and for what lies between two of them,
//! and then each edge put into the bands that it holds.

ghost use Rattle.std.specs.Prelude.{◌≡◌, ◌+◌, ◌^◌, ◌<◌, ◌≤◌, ◌≤ℤ◌, ◌++◌, length, map};
ghost use Rattle.std.specs.Int.{int_max, int_min};
ghost use Rattle.std.specs.List.{All};
ghost use Rattle.std.specs.List.Sorted.{IsPermutation};
ghost use Rattle.mission_model.specs.Fence.{edges_of};
ghost use Rattle.fence_polygon.specs.Bands.{CutAt, CutInBands, fence_edges, latitudes, range_of};
ghost use Rattle.fence_polygon.specs.Marks.{InOrder, Rises, bands_behind, empty_band, with_bit, with_edges};

use crate::band::{Band, MAX_BANDS, set_bit};
use crate::polygon::{polygon_size, vertex_after};
use crate::vertex::Vertex;
use arrayvec::ArrayVec;
use mission_model::limits::MAX_FENCE_VERTICES;

const CAPACITY: usize = MAX_FENCE_VERTICES as usize;

/// The bands of the fence that has these vertices.
pub fn bands_of(vertices: &[Vertex]) -> ArrayVec<Band, MAX_BANDS>
    requires { length vertices.now ≤ MAX_FENCE_VERTICES }
    ensures { CutInBands vertices.now result.items }
{
    let mut bands = empty_bands(sorted_latitudes(vertices).as_slice());
    put_edges(bands.as_mut_slice(), vertices);
    bands
}

/// The vertices' latitudes in rising order.
fn sorted_latitudes(vertices: &[Vertex]) -> ArrayVec<i32, CAPACITY>
    requires { length vertices.now ≤ MAX_FENCE_VERTICES }
    ensures same { IsPermutation (latitudes vertices.now) result.items }
    ensures rises { Rises result.items }
{
    let mut sorted = ArrayVec::new();
    for vertex in vertices {
        sorted.push(vertex.x());
    }
    sorted.as_mut_slice().sort_unstable();
    sorted
}

/// The bands that latitudes in rising order make, with no edge in them.
fn empty_bands(latitudes: &[i32]) -> ArrayVec<Band, MAX_BANDS>
    requires few { length latitudes.now ≤ MAX_FENCE_VERTICES }
    requires rises { Rises latitudes.now }
    ensures cut { CutAt latitudes.now (map range_of result.items) }
    ensures empty { All (λ band. band.edges ≡ 0) result.items }
{
    let mut bands = ArrayVec::new();
    let Some(first) = latitudes.first() else {
        return bands;
    };
    bands.push(empty_band(*first, *first));
    for at in 1..latitudes.len() {
        push_behind(&mut bands, latitudes[at - 1], latitudes[at]);
    }
    bands
}

/// Pushes the bands behind one latitude up to the next one.
fn push_behind(bands: &mut ArrayVec<Band, MAX_BANDS>, last: i32, x: i32)
    requires order { last ≤ℤ x }
    requires room { length bands.old.items + 2 ≤ MAX_BANDS }
    ensures { bands.new.items ≡ bands.old.items ++ bands_behind last x }
{
    if last < x {
        if last + 1 < x {
            bands.push(empty_band(last + 1, x - 1));
        }
        bands.push(empty_band(x, x));
    }
}

fn empty_band(from: i32, to: i32) -> Band
    ensures { result ≡ empty_band from to }
{
    Band { from, to, edges: 0 }
}

/// Puts the edges of a fence into its bands.
fn put_edges(bands: &mut [Band], vertices: &[Vertex])
    requires order { InOrder bands.old }
    requires few { length vertices.now ≤ MAX_FENCE_VERTICES }
    ensures { bands.new ≡ with_edges 0 (fence_edges vertices.now) bands.old }
{
    let mut number = 0;
    let mut rest = vertices;
    while let Some(first) = rest.first() {
        let (polygon, after) = rest.split_at(polygon_size(first.item(), rest.len()));
        put_polygon(bands, polygon, number);
        number += polygon.len();
        rest = after;
    }
}

/// Puts the edges of a polygon into the bands, of which the first one has this number.
fn put_polygon(bands: &mut [Band], polygon: &[Vertex], number: usize)
    requires order { InOrder bands.old }
    requires few { number + length polygon.now ≤ MAX_FENCE_VERTICES }
    ensures { bands.new ≡ with_edges number (edges_of polygon.now) bands.old }
{
    for at in 0..polygon.len() {
        put_edge(bands, &polygon[at], vertex_after(polygon, at), number + at);
    }
}

/// Puts the edge of this number into the bands.
fn put_edge(bands: &mut [Band], from: &Vertex, to: &Vertex, number: usize)
    requires order { InOrder bands.old }
    requires few { number < MAX_FENCE_VERTICES }
    ensures { bands.new ≡ map (with_bit (int_min from.now.x to.now.x) (int_max from.now.x to.now.x) (2 ^ number)) bands.old }
{
    let low = from.x().min(to.x());
    let high = from.x().max(to.x());
    set_bit(bands, low, high, 1 << number);
}
