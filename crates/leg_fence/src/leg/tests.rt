//! Legs over small fences, told by hand. Commands are written as MAVLink's numbers, degrees as 10,000,000.

use super::*;
use mission_model::Param::{Milli, Unset};
use mission_model::{PlanType, check_plan};

const IN: u16 = 5001;

const OUT: u16 = 5002;

const DEGREE: i32 = 10_000_000;

/// A vertex of a polygon that has this many.
fn vertex(command: u16, count: i32, x: i32, y: i32) -> Item {
    Item {
        frame: 0,
        command,
        p1: Milli(count.saturating_mul(1000)),
        p2: Unset,
        p3: Unset,
        p4: Unset,
        x,
        y,
        z: 0,
        auto: true,
    }
}

/// What is told of the leg, where the fence's plan is valid.
fn sight(items: &[Item], p: (i32, i32), q: (i32, i32)) -> Option<LegSight> {
    check_plan(PlanType::Fence, items).ok()?;
    Some(leg_of(&Fence::from_items(items), items, p, q))
}

/// A polygon with a notch, in steps of this many units.
fn notched(unit: i32) -> [Item; 8] {
    let ten = unit.saturating_mul(10);
    let twenty = unit.saturating_mul(20);
    let thirty = unit.saturating_mul(30);
    [
        vertex(IN, 8, 0, 0),
        vertex(IN, 8, 0, thirty),
        vertex(IN, 8, twenty, thirty),
        vertex(IN, 8, twenty, twenty),
        vertex(IN, 8, ten, twenty),
        vertex(IN, 8, ten, ten),
        vertex(IN, 8, twenty, ten),
        vertex(IN, 8, twenty, 0),
    ]
}

#[test]
fn legs_of_missions(rt: HostRuntime) {
    let square = [
        vertex(IN, 4, 469_000_000, 79_000_000),
        vertex(IN, 4, 469_000_000, 81_000_000),
        vertex(IN, 4, 472_500_000, 81_000_000),
        vertex(IN, 4, 472_500_000, 79_000_000),
    ];
    let way = [470_000_000, 471_000_000, 472_000_000, 473_000_000];
    let want = [LegSight::Clear, LegSight::Clear, LegSight::OutsideTo];
    for leg in 0..3 {
        let found = sight(&square, (way[leg], 80_000_000), (way[leg + 1], 80_000_000));
        assert_eq!(rt; found, Some(want[leg]));
    }
    let over_the_notch = sight(
        &notched(DEGREE),
        (15 * DEGREE, 5 * DEGREE),
        (15 * DEGREE, 25 * DEGREE),
    );
    assert_eq!(rt; over_the_notch, Some(LegSight::Edge(3)));
}

#[test]
fn legs_over_small_fences(rt: HostRuntime) {
    use LegSight::{Clear, Edge, OutsideFrom, OutsideTo};
    let notch = notched(1);
    let holed = [
        vertex(IN, 4, 0, 0),
        vertex(IN, 4, 0, 10),
        vertex(IN, 4, 10, 10),
        vertex(IN, 4, 10, 0),
        vertex(OUT, 3, 2, 2),
        vertex(OUT, 3, 2, 6),
        vertex(OUT, 3, 6, 2),
    ];
    let spot = [vertex(IN, 3, 5, 5); 3];
    let ring = [
        vertex(IN, 3, 900_000_000, 0),
        vertex(IN, 3, 0, -1_800_000_000),
        vertex(IN, 3, 0, 1_800_000_000),
    ];
    let cases: [(&[Item], (i32, i32), (i32, i32), LegSight); 30] = [
        // no fence, and ends that are not allowed: the first one is told
        (&[], (0, 0), (5, 5), Clear),
        (&holed, (3, 3), (1, 1), OutsideFrom),
        (&holed, (3, 3), (11, 11), OutsideFrom),
        (&holed, (1, 1), (3, 3), OutsideTo),
        (&holed, (1, 1), (11, 11), OutsideTo),
        // a hole between two allowed ends, across an edge or past a vertex
        (&holed, (1, 5), (9, 5), Edge(4)),
        (&holed, (1, 1), (9, 9), Edge(4)),
        (&holed, (1, 3), (3, 1), Edge(4)),
        (&holed, (5, 1), (5, 5), Edge(5)),
        (&holed, (1, 2), (1, 9), Clear),
        (&holed, (5, 5), (9, 9), Clear),
        // ends on edges
        (&holed, (5, 0), (7, 5), Edge(3)),
        (&holed, (7, 5), (5, 0), Edge(3)),
        (&holed, (5, 5), (10, 5), Edge(2)),
        // on the line of an edge: apart from it, touching its end, and overlapping
        (&notch, (5, 20), (9, 20), Clear),
        (&notch, (5, 20), (10, 20), Edge(3)),
        (&notch, (10, 5), (10, 9), Clear),
        (&notch, (10, 9), (10, 5), Clear),
        (&notch, (10, 5), (10, 12), Edge(4)),
        (&notch, (10, 5), (10, 25), Edge(3)),
        (&notch, (10, 12), (10, 18), Edge(4)),
        // legs of one place, and edges of one place
        (&notch, (5, 5), (5, 5), Clear),
        (&notch, (0, 15), (0, 15), Edge(0)),
        (&spot, (5, 5), (5, 5), Edge(0)),
        // the pole, and both ends of the longitudes, over which nothing wraps
        (&ring, (0, 0), (900_000_000, 0), Edge(0)),
        (&ring, (1, 0), (899_999_998, 0), Clear),
        (&ring, (0, 1_800_000_000), (0, -1_800_000_000), Edge(0)),
        (&ring, (0, 0), (0, 10), Edge(1)),
        (&ring, (450_000_000, 0), (450_000_000, 900_000_000), Edge(2)),
        (&ring, (450_000_000, -1), (450_000_000, 899_999_999), Clear),
    ];
    for (fence, p, q, want) in cases {
        assert_eq!(rt;
            sight(fence, p, q),
            Some(want),
            "from {} {} to {} {}",
            p.0,
            p.1,
            q.0,
            q.1
        );
    }
}
