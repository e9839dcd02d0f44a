//! Places at edges, vertices and corners of small fences, told by hand. Commands are written as MAVLink's numbers.

use super::*;
use mission_model::Param::{Milli, Unset};
use mission_model::{PlanType, check_plan};

const IN: u16 = 5001;

const OUT: u16 = 5002;

/// A vertex whose first parameter, the number of its polygon's vertices, is given in thousandths.
fn vertex(command: u16, thousandths: i32, x: i32, y: i32) -> Item {
    Item {
        frame: 0,
        command,
        p1: Milli(thousandths),
        p2: Unset,
        p3: Unset,
        p4: Unset,
        x,
        y,
        z: 0,
        auto: true,
    }
}

/// Whether the fence allows the place, where its plan is valid.
fn allowed(items: &[Item], x: i32, y: i32) -> Option<bool> {
    check_plan(PlanType::Fence, items).ok()?;
    Some(Fence::from_items(items).allows(x, y))
}

#[test]
fn a_triangle_to_the_pole(rt: HostRuntime) {
    let triangle = [
        vertex(IN, 3000, 900_000_000, 0),
        vertex(IN, 3000, 0, -1_800_000_000),
        vertex(IN, 3000, 0, 1_800_000_000),
    ];
    let places = [
        (900_000_000, 0, true),
        (0, 0, true),
        (450_000_000, 900_000_000, true),
        (450_000_000, 900_000_001, false),
        (-1, 0, false),
        (i32::MAX, i32::MIN, false),
        (i32::MIN, i32::MAX, false),
    ];
    for (x, y, want) in places {
        assert_eq!(rt; allowed(&triangle, x, y), Some(want), "at {x} {y}");
    }
}

#[test]
fn bands_of_small_fences(rt: HostRuntime) {
    let triangle = [
        vertex(IN, 3000, 900_000_000, 0),
        vertex(IN, 3000, 0, -1_800_000_000),
        vertex(IN, 3000, 0, 1_800_000_000),
    ];
    // neighbouring latitudes, and two polygons of which the second begins with bit 3
    let steps = [
        vertex(IN, 3000, 0, 0),
        vertex(IN, 3000, 1, 5),
        vertex(IN, 3000, 3, 0),
        vertex(OUT, 3000, 1, 20),
        vertex(OUT, 3000, 1, 20),
        vertex(OUT, 3000, 7, 20),
    ];
    let bands: [(&[Item], &[(i32, i32, u64)]); 3] = [
        (&[], &[]),
        (
            &triangle,
            &[
                (0, 0, 7),
                (1, 899_999_999, 5),
                (900_000_000, 900_000_000, 5),
            ],
        ),
        (
            &steps,
            &[
                (0, 0, 0b000_101),
                (1, 1, 0b111_111),
                (2, 2, 0b110_110),
                (3, 3, 0b110_110),
                (4, 6, 0b110_000),
                (7, 7, 0b110_000),
            ],
        ),
    ];
    for (items, want) in bands {
        if check_plan(PlanType::Fence, items).is_ok() {
            let fence = Fence::from_items(items);
            let found = fence.bands();
            assert_eq!(rt; found.len(), want.len());
            for (band, row) in found.iter().zip(want.iter()) {
                assert_eq!(rt; (band.from, band.to, band.edges), *row);
            }
            assert_eq!(rt; fence.edges_at(-1), 0);
        }
    }
    let edges: [(&[Item], i32, u64); 5] = [
        (&triangle, 900_000_001, 0),
        (&triangle, 1, 5),
        (&steps, 5, 0b110_000),
        (&steps, 8, 0),
        (&[], 0, 0),
    ];
    for (items, x, want) in edges {
        if check_plan(PlanType::Fence, items).is_ok() {
            assert_eq!(rt; Fence::from_items(items).edges_at(x), want, "at {x}");
        }
    }
}

#[test]
fn places_at_small_fences(rt: HostRuntime) {
    let square = [
        vertex(IN, 4000, 0, 0),
        vertex(IN, 4000, 0, 10),
        vertex(IN, 4000, 10, 10),
        vertex(IN, 4000, 10, 0),
    ];
    let hole = [
        vertex(OUT, 3000, 2, 2),
        vertex(OUT, 3000, 2, 6),
        vertex(OUT, 3000, 6, 2),
    ];
    let diamond = [
        vertex(IN, 4000, -5, 40),
        vertex(IN, 4000, 0, 35),
        vertex(IN, 4000, 5, 40),
        vertex(IN, 4000, 0, 45),
    ];
    let notched = [
        vertex(IN, 8000, 0, 0),
        vertex(IN, 8000, 0, 30),
        vertex(IN, 8000, 20, 30),
        vertex(IN, 8000, 20, 20),
        vertex(IN, 8000, 10, 20),
        vertex(IN, 8000, 10, 10),
        vertex(IN, 8000, 20, 10),
        vertex(IN, 8000, 20, 0),
    ];
    let crossed = [
        vertex(IN, 4000, 0, 0),
        vertex(IN, 4000, 10, 10),
        vertex(IN, 4000, 10, 0),
        vertex(IN, 4000, 0, 10),
    ];
    let spot = [vertex(IN, 3000, 5, 5); 3];
    let mut both = [square[0]; 7];
    both[..4].copy_from_slice(&square);
    both[4..].copy_from_slice(&hole);
    let mut hole_first = [hole[0]; 7];
    hole_first[..3].copy_from_slice(&hole);
    hole_first[3..].copy_from_slice(&square);
    let mut two = [square[0]; 8];
    two[..4].copy_from_slice(&square);
    two[4..].copy_from_slice(&diamond);
    let cases: [(&[Item], i32, i32, bool); 56] = [
        // no items, and exclusions alone
        (&[], 0, 0, true),
        (&[], i32::MIN, i32::MAX, true),
        (&hole, 3, 3, false),
        (&hole, 2, 4, false),
        (&hole, 2, 2, false),
        (&hole, 1, 3, true),
        (&hole, 4, 5, true),
        // edges, horizontal ones among them, vertices, and the line through a horizontal edge
        (&square, 5, 0, true),
        (&square, 5, 10, true),
        (&square, 0, 5, true),
        (&square, 10, 5, true),
        (&square, 0, 0, true),
        (&square, 10, 10, true),
        (&square, 5, -1, false),
        (&square, 5, 11, false),
        (&square, -1, 5, false),
        (&square, 11, 5, false),
        (&square, 0, -1, false),
        (&square, 10, 11, false),
        // rays through vertices
        (&diamond, 0, 40, true),
        (&diamond, 0, 34, false),
        (&diamond, 0, 46, false),
        (&diamond, -5, 39, false),
        (&diamond, 5, 39, false),
        (&diamond, 5, 40, true),
        // a notch, an edge that crosses another, and a polygon of one place
        (&notched, 15, 5, true),
        (&notched, 15, 15, false),
        (&notched, 15, 25, true),
        (&notched, 10, 15, true),
        (&notched, 10, 5, true),
        (&notched, 10, -5, false),
        (&notched, 20, 15, false),
        (&notched, 20, 5, true),
        (&crossed, 5, 5, true),
        (&crossed, 5, 4, false),
        (&crossed, 5, 6, false),
        (&crossed, 8, 5, true),
        (&crossed, 2, 5, true),
        (&spot, 5, 5, true),
        (&spot, 5, 6, false),
        (&spot, 4, 5, false),
        // two inclusions, and the space between them
        (&two, 5, 5, true),
        (&two, 0, 40, true),
        (&two, 0, 20, false),
        // an inclusion and an exclusion at once, in either order
        (&both, 3, 3, false),
        (&both, 4, 4, false),
        (&both, 2, 2, false),
        (&both, 5, 5, true),
        (&both, 1, 1, true),
        (&both, 11, 5, false),
        (&hole_first, 3, 3, false),
        (&hole_first, 4, 4, false),
        (&hole_first, 2, 2, false),
        (&hole_first, 5, 5, true),
        (&hole_first, 1, 1, true),
        (&hole_first, 11, 5, false),
    ];
    for (fence, x, y, want) in cases {
        assert_eq!(rt; allowed(fence, x, y), Some(want), "at {x} {y}");
    }
}

#[test]
fn a_copy_allows_the_same(rt: HostRuntime) {
    let items = [
        vertex(IN, 3000, 0, 0),
        vertex(IN, 3000, 0, 10),
        vertex(IN, 3000, 10, 0),
    ];
    assert!(rt; check_plan(PlanType::Fence, &items).is_ok());
    let copy = Fence::from_items(&items).copied();
    assert!(rt; copy.allows(1, 1));
    assert!(rt; !copy.allows(9, 9));
}
