//! Plans at the edges of their limits, with jumps and polygons. Codes are written as MAV_MISSION_RESULT's numbers.

use super::*;
use crate::plan::Param::{Milli, Unset};
use crate::plan::PlanHead;
use crate::plan::PlanType::{Fence, Mission, Safe};
use crate::plan_type::head_of;

const NO_SPACE: u8 = 4;

const INVALID: u8 = 5;

const INVALID_PARAM2: u8 = 7;

fn item(command: u16, p1: i32) -> Item {
    Item {
        frame: 3,
        command,
        p1: Milli(p1),
        p2: Milli(0),
        p3: Unset,
        p4: Unset,
        x: 473_977_420,
        y: 85_455_940,
        z: 10_000,
        auto: true,
    }
}

/// The refused place and the number of its code.
fn refusal(kind: PlanType, items: &[Item]) -> Option<(u16, u8)> {
    check_plan(kind, items)
        .err()
        .map(|(place, code)| (place, code as u8))
}

#[test]
fn jumps_and_polygons(rt: HostRuntime) {
    let point = item(16, 0);
    let to_0 = item(177, 0);
    let to_1 = item(177, 1000);
    let to_2 = item(177, 2000);
    let bad_repeats = Item { p2: Unset, ..to_2 };
    let in_3 = item(5001, 3000);
    let out_3 = item(5002, 3000);
    let in_4 = item(5001, 4000);
    let mut jumps = [to_0; 34];
    jumps[0] = point;
    let mut last_out = jumps;
    last_out[33] = item(177, 34_000);
    let cases: [(PlanType, &[Item], Option<(u16, u8)>); 22] = [
        (Mission, &[], None),
        (Mission, &[point, to_0], None),
        (Mission, &[to_1, point], None),
        (Mission, &[point, to_1], Some((1, INVALID))),
        (Mission, &[point, to_2], Some((1, INVALID))),
        (Mission, &[point, to_2, point], None),
        (Mission, &[to_1, point, to_2], Some((2, INVALID))),
        (Mission, &[point, bad_repeats], Some((1, INVALID_PARAM2))),
        (Mission, &jumps[..33], None),
        (Mission, &jumps, Some((33, NO_SPACE))),
        (Mission, &last_out, Some((33, NO_SPACE))),
        (Fence, &[], None),
        (Fence, &[in_3; 3], None),
        (Fence, &[in_3; 6], None),
        (Fence, &[in_3, in_3, in_3, out_3, out_3, out_3], None),
        (Fence, &[in_4, in_4, in_4, in_4, in_3, in_3, in_3], None),
        (Fence, &[in_3; 2], Some((0, INVALID))),
        (Fence, &[in_3; 5], Some((3, INVALID))),
        (Fence, &[in_3, in_3, out_3], Some((2, INVALID))),
        (Fence, &[in_3, in_4, in_3, in_3], Some((1, INVALID))),
        (Fence, &[in_4, in_4, in_4, in_3], Some((3, INVALID))),
        (Safe, &[], None),
    ];
    for (kind, items, want) in cases {
        assert_eq!(rt; refusal(kind, items), want);
    }
}

#[test]
fn limits(rt: HostRuntime) {
    let points = [item(16, 0); 2001];
    let mut bad = points;
    bad[3] = item(0, 0);
    let vertices = [item(5001, 64_000); 65];
    let too_many = [item(5001, 65_000); 65];
    let safe_points = [item(5100, 0); 33];
    let cases: [(PlanType, &[Item], Option<(u16, u8)>); 9] = [
        (Mission, &points[..2000], None),
        (Mission, &points, Some((2000, NO_SPACE))),
        (Mission, &bad[..2000], Some((3, 3))),
        (Mission, &bad, Some((2000, NO_SPACE))),
        (Fence, &vertices[..64], None),
        (Fence, &too_many[..64], Some((0, INVALID))),
        (Fence, &too_many, Some((64, NO_SPACE))),
        (Safe, &safe_points[..32], None),
        (Safe, &safe_points, Some((32, NO_SPACE))),
    ];
    for (kind, items, want) in cases {
        assert_eq!(rt; refusal(kind, items), want);
    }
}

#[test]
fn a_refusal_leaves_the_check_as_it_was(rt: HostRuntime) {
    let mut check = PlanCheck::begin(Mission, 2);
    let steps = [
        (item(16, 0), None),
        (item(177, 1000), Some(AckCode::Invalid)),
        (item(5001, 3000), Some(AckCode::Unsupported)),
        (item(177, 0), None),
    ];
    for (item, want) in steps {
        assert!(rt; check.has_room());
        assert_eq!(rt; check.next(&item).err(), want);
    }
    assert!(rt; !check.has_room());
    assert_eq!(rt; check.taken(), 2);
}

/// The number in a message, the most items and the place of each type.
#[test]
fn the_table_of_plan_types(rt: HostRuntime) {
    let heads = [(1, 2000), (2, 64), (3, 32)].map(|(id, count)| PlanHead { id, count });
    let rows = [(Mission, 0, 2000), (Fence, 1, 64), (Safe, 2, 32)];
    for (kind, number, limit) in rows {
        assert_eq!(rt; kind.number(), number);
        assert_eq!(rt; limit_of(kind), limit);
        assert_eq!(rt; PlanType::of_number(number), Some(kind));
        assert_eq!(rt; head_of(&heads, kind).count, limit);
    }
    assert_eq!(rt; PlanType::of_number(3), None);
    assert_eq!(rt; PlanType::of_number(255), None);
}
