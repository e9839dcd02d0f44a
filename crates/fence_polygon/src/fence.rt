//! A fence: the items of a valid fence plan, one polygon behind the other, and its bands of latitudes, by which only the
//! edges at a place's latitude are looked at.

ghost use Rattle.std.specs.Prelude.{◌≡◌, ◌≤◌, ◌%◌, ◌/◌, ◌^◌, ◌&&◌, ◌||◌, not};
ghost use Rattle.mission_model.specs.PlanCode.{PlanValid};
ghost use Rattle.mission_model.specs.declared.plan.PlanType.TheVariants as kind;
ghost use Rattle.mission_model.specs.Fence.{is_allowed};
ghost use Rattle.fence_polygon.specs.Bands.{CutInBands, edges_at, some_inclusion};

use crate::band::{Band, MAX_BANDS, bands_below, begins_by};
use crate::cut::bands_of;
use crate::polygon::{is_inside, polygon_size};
use crate::vertex::Vertex;
use arrayvec::ArrayVec;
use mission_model::Item;
use mission_model::limits::MAX_FENCE_VERTICES;
use std::marker::Model;

const CAPACITY: usize = MAX_FENCE_VERTICES as usize;

/// A fence, seen as the list of the items that it was made from.
#[derive(Drop)]
pub struct Fence {
    vertices: ArrayVec<Vertex, CAPACITY>,
    bands: ArrayVec<Band, MAX_BANDS>,
    has_inclusion: bool,
}

impl Model for Fence {
    ghost use Rattle.std.specs.Prelude.{List};
    ghost use Rattle.mission_model.specs.declared.plan.Item.{Item};

    ghost Value = { List Item };

    ghost view = { λ fence. fence.vertices.items };

    ghost use Rattle.fence_polygon.specs.Bands.{CutInBands, some_inclusion};
    ghost use Rattle.std.specs.Prelude.{◌≡◌};

    ghost invariant = { λ fence. CutInBands fence.vertices.items fence.bands.items × (fence.has_inclusion ≡ some_inclusion fence.vertices.items) };
}

impl Fence {
    /// The fence of these items, which the check of plans accepts as a fence.
    pub fn from_items(items: &[Item]) -> Fence
        requires { PlanValid kind.Fence items.now }
        ensures { result ≡ items.now }
    {
        let mut vertices = ArrayVec::new();
        for item in items {
            vertices.push(Vertex::new(item));
        }
        let bands = bands_of(vertices.as_slice());
        let has_inclusion = has_inclusion(vertices.as_slice());
        Fence {
            vertices,
            bands,
            has_inclusion,
        }
    }

    /// The bands of latitudes of its vertices and between them, in rising order.
    pub fn bands(&self) -> &[Band]
        ensures { CutInBands self.now result.now }
    {
        self.bands.as_slice()
    }

    /// Which edges hold the latitude: bit i speaks of the edge that begins at vertex i.
    pub fn edges_at(&self, x: i32) -> u64
        ensures { result ≡ edges_at self.now x }
    {
        let bands = self.bands.as_slice();
        let at = bands_below(bands, x);
        if at < bands.len() && begins_by(&bands[at], x) {
            bands[at].edges
        } else {
            0
        }
    }

    /// Whether the vehicle may be at this latitude and longitude, in 1e-7 degree.
    pub fn allows(&self, x: i32, y: i32) -> bool
        ensures { result ≡ is_allowed self.now x y }
    {
        let mut edges = self.edges_at(x);
        let mut is_included = false;
        let mut is_excluded = false;
        let mut rest = self.vertices.as_slice();
        while edges != 0 {
            let first = &rest[0];
            let size = polygon_size(first.item(), rest.len());
            let (polygon, after) = rest.split_at(size);
            let is_inside = is_inside(polygon, lowest(edges, size), x, y);
            is_included |= is_inside & first.is_inclusion();
            is_excluded |= is_inside & first.is_exclusion();
            edges = above(edges, size);
            rest = after;
        }
        is_open(self.has_inclusion, is_included, is_excluded)
    }

    /// The same fence once more. It takes no memory.
    pub fn copied(&self) -> Fence
        ensures { result ≡ self.now }
    {
        let mut vertices = ArrayVec::new();
        let _fits = vertices.try_extend_from_slice(self.vertices.as_slice());
        let mut bands = ArrayVec::new();
        let _fits = bands.try_extend_from_slice(self.bands.as_slice());
        Fence {
            vertices,
            bands,
            has_inclusion: self.has_inclusion,
        }
    }
}

/// Whether a place is allowed that is in some inclusion polygon or not, and in some exclusion polygon or not.
fn is_open(has_inclusion: bool, is_included: bool, is_excluded: bool) -> bool
    ensures { result ≡ ((is_included || not has_inclusion) && not is_excluded) }
{
    (is_included || !has_inclusion) && !is_excluded
}

/// Whether one of the polygons is an inclusion.
fn has_inclusion(vertices: &[Vertex]) -> bool
    ensures { result ≡ some_inclusion vertices.now }
{
    let mut rest = vertices;
    while let Some(first) = rest.first() {
        if first.is_inclusion() {
            return true;
        }
        rest = rest.split_at(polygon_size(first.item(), rest.len())).1;
    }
    false
}

/// The lowest bits, so many.
fn lowest(bits: u64, size: usize) -> u64
    requires { size ≤ 64 }
    ensures { result ≡ bits % 2 ^ size }
{
    if size < 64 {
        bits & ((1 << size) - 1)
    } else {
        bits
    }
}

/// The bits above the lowest, so many.
fn above(bits: u64, size: usize) -> u64
    requires { size ≤ 64 }
    ensures { result ≡ bits / 2 ^ size }
{
    if size < 64 { bits >> size } else { 0 }
}

#[cfg(test)]
mod tests;
