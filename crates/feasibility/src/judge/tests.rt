//! Missions and what is to be found of them, told by hand. Commands and frames are written as MAVLink's numbers.

use super::*;
use mission_model::Param::{Milli, Unset};
use mission_model::{PlanType, check_plan};
use std::test::*;

const TAKEOFF: u16 = 22;

const LAND: u16 = 21;

const LOITER: u16 = 17;

const LAND_START: u16 = 189;

const HOME: Option<Home> = Some(Home {
    x: 5,
    y: 5,
    z: 400_000,
});

/// What is found of a mission, and where it lands.
#[derive(Clone, Copy, Debug, PartialEq, Eq)]
enum Found {
    /// The plans are not valid, or there was no verdict on an empty mission.
    Nothing,
    /// There was a verdict before the last item.
    Early,
    Answer(Option<Verdict>, Option<(u16, u16)>),
}

/// Judges the mission, item by item, by a judge that has judged an empty one before.
fn verdict_on(params: Params, home: Option<Home>, vertices: &[Item], mission: &[Item]) -> Found {
    if check_plan(PlanType::Fence, vertices).is_err() {
        return Found::Nothing;
    }
    if check_plan(PlanType::Mission, mission).is_err() {
        return Found::Nothing;
    }
    let fence = Fence::from_items(vertices);
    let mut judge = Judge::begin(params, home, &fence, 0);
    if judge.verdict().is_none() {
        return Found::Nothing;
    }
    judge.restart(params, home, fence, mission.len() as u16);
    for item in mission {
        if judge.verdict().is_some() || judge.landing().is_some() {
            return Found::Early;
        }
        judge.feed(item);
    }
    Found::Answer(judge.verdict(), judge.landing())
}

fn feasible() -> Found {
    Found::Answer(Some(Verdict::Feasible), None)
}

fn lands(start: u16, landing: u16) -> Found {
    Found::Answer(Some(Verdict::Feasible), Some((start, landing)))
}

fn broken(rule: u8, item: u16) -> Found {
    Found::Answer(Some(Verdict::Broken { rule, item }), None)
}

fn asks(tko_land: u8, takeoff_min: i32, max_alt: i32) -> Params {
    Params {
        tko_land,
        takeoff_min,
        max_alt,
        rtl_type: 0,
    }
}

fn nothing() -> Params {
    asks(0, 0, 0)
}

/// An item at latitude and longitude 5.
fn at(command: u16, frame: u16, z: i32) -> Item {
    Item {
        frame,
        command,
        p1: Milli(0),
        p2: Milli(0),
        p3: Unset,
        p4: Unset,
        x: 5,
        y: 5,
        z,
        auto: true,
    }
}

fn waypoint() -> Item {
    at(16, 0, 10_000)
}

fn plain(command: u16) -> Item {
    at(command, 0, 10_000)
}

/// A DO_JUMP, its target in thousandths.
fn jump(thousand_target: i32) -> Item {
    Item {
        p1: Milli(thousand_target),
        ..at(177, 2, 0)
    }
}

fn placed(item: Item, x: i32, y: i32) -> Item {
    Item { x, y, ..item }
}

#[test]
fn each_rule_is_told_by_its_number(rt: HostRuntime) {
    let rows: [(Params, Option<Home>, &[Item], Found); 10] = [
        (nothing(), HOME, &[], broken(1, 0)),
        (
            nothing(),
            HOME,
            &[waypoint(), at(TAKEOFF, 3, 10_000)],
            broken(2, 1),
        ),
        (
            asks(0, 15_000, 0),
            HOME,
            &[at(TAKEOFF, 3, 10_000)],
            broken(3, 0),
        ),
        (
            asks(4, 0, 0),
            HOME,
            &[at(TAKEOFF, 3, 10_000), waypoint()],
            broken(4, 0),
        ),
        (
            nothing(),
            HOME,
            &[waypoint(), plain(LAND_START), waypoint()],
            broken(5, 1),
        ),
        (
            nothing(),
            HOME,
            &[waypoint(), jump(0), jump(1000)],
            broken(6, 2),
        ),
        (
            asks(0, 0, 100_000),
            HOME,
            &[at(16, 3, 100_001)],
            broken(8, 0),
        ),
        (nothing(), None, &[at(16, 3, 10_000)], broken(9, 0)),
        (nothing(), HOME, &[plain(LOITER), waypoint()], broken(10, 0)),
        (
            nothing(),
            HOME,
            &[plain(LOITER), waypoint(), jump(1000)],
            feasible(),
        ),
    ];
    for (params, home, mission, want) in rows {
        assert_eq!(rt;
            verdict_on(params, home, &[], mission),
            want,
            "of {mission:?}"
        );
    }
}

#[test]
fn heights_and_takeoffs(rt: HostRuntime) {
    let here = placed(at(TAKEOFF, 3, 10_000), 0, 0);
    let rows: [(Params, Option<Home>, &[Item], Found); 24] = [
        // a takeoff from the present place has no position, and a height
        (
            nothing(),
            HOME,
            &[here, at(TAKEOFF, 3, 10_000), at(TAKEOFF, 3, 1)],
            broken(2, 2),
        ),
        (asks(0, 10_001, 0), HOME, &[here], broken(3, 0)),
        (asks(0, 0, 9_999), HOME, &[here], feasible()),
        (nothing(), None, &[here], feasible()),
        // heights over the home, and over the sea
        (
            asks(0, 15_000, 0),
            HOME,
            &[at(TAKEOFF, 6, 15_000), at(TAKEOFF, 3, 14_999)],
            broken(2, 1),
        ),
        (
            asks(0, 15_000, 0),
            HOME,
            &[at(TAKEOFF, 6, 15_000)],
            feasible(),
        ),
        (
            asks(0, 15_000, 0),
            HOME,
            &[at(TAKEOFF, 6, 14_999)],
            broken(3, 0),
        ),
        (
            asks(0, 15_000, 0),
            HOME,
            &[at(TAKEOFF, 0, 415_000)],
            feasible(),
        ),
        (
            asks(0, 15_000, 0),
            HOME,
            &[at(TAKEOFF, 5, 414_999)],
            broken(3, 0),
        ),
        (asks(0, 15_000, 0), None, &[at(TAKEOFF, 5, 1)], feasible()),
        (
            asks(0, 0, 100_000),
            HOME,
            &[at(16, 6, 100_000), at(16, 5, 500_000)],
            feasible(),
        ),
        (
            asks(0, 0, 100_000),
            HOME,
            &[at(16, 3, 0), at(16, 0, 500_001), at(16, 6, 100_001)],
            broken(8, 1),
        ),
        (asks(0, 0, 100_000), None, &[at(16, 0, 500_001)], feasible()),
        (
            nothing(),
            None,
            &[waypoint(), at(93, 3, 0), at(16, 6, 0), at(16, 3, 0)],
            broken(9, 2),
        ),
        // what must be there: a takeoff, a landing, both, both or neither
        (asks(1, 0, 0), HOME, &[plain(LAND)], broken(4, 0)),
        (asks(1, 0, 0), HOME, &[plain(TAKEOFF)], feasible()),
        (asks(2, 0, 0), HOME, &[plain(TAKEOFF)], broken(4, 0)),
        (asks(2, 0, 0), HOME, &[plain(LAND)], feasible()),
        (asks(3, 0, 0), HOME, &[plain(LAND)], broken(4, 0)),
        (asks(3, 0, 0), HOME, &[plain(TAKEOFF)], broken(4, 0)),
        (
            asks(3, 0, 0),
            HOME,
            &[plain(TAKEOFF), plain(LAND)],
            feasible(),
        ),
        (asks(4, 0, 0), HOME, &[plain(LAND)], broken(4, 0)),
        (
            asks(4, 0, 0),
            HOME,
            &[plain(TAKEOFF), plain(LAND)],
            feasible(),
        ),
        (asks(4, 0, 0), HOME, &[waypoint()], feasible()),
    ];
    for (params, home, mission, want) in rows {
        assert_eq!(rt;
            verdict_on(params, home, &[], mission),
            want,
            "of {mission:?}"
        );
    }
}

#[test]
fn land_starts_loiters_and_the_fence(rt: HostRuntime) {
    let start = plain(LAND_START);
    let land = plain(LAND);
    let loiter = plain(LOITER);
    let rows: [(&[Item], Found); 12] = [
        (&[waypoint(), start, waypoint(), land, land], lands(1, 3)),
        (&[land, start], broken(5, 1)),
        (&[start, land, start, land], broken(5, 2)),
        (&[start, start, land], broken(5, 1)),
        (&[start, waypoint(), start], broken(5, 0)),
        (&[loiter, start, land], lands(1, 2)),
        (&[waypoint(), loiter], feasible()),
        (&[loiter, loiter], broken(10, 0)),
        (
            &[loiter, waypoint(), loiter, waypoint(), jump(1000)],
            broken(10, 2),
        ),
        // the fence allows neither of the last two
        (
            &[
                waypoint(),
                placed(waypoint(), 50, 5),
                placed(waypoint(), 5, 50),
            ],
            broken(7, 1),
        ),
        (
            &[waypoint(), placed(start, 50, 50), placed(land, 0, 0)],
            lands(1, 2),
        ),
        (
            &[placed(waypoint(), 50, 5), jump(2000), jump(0)],
            broken(6, 1),
        ),
    ];
    let fence = [
        Item {
            p1: Milli(3000),
            ..placed(at(5001, 0, 0), 0, 0)
        },
        Item {
            p1: Milli(3000),
            ..placed(at(5001, 0, 0), 0, 20)
        },
        Item {
            p1: Milli(3000),
            ..placed(at(5001, 0, 0), 20, 0)
        },
    ];
    for (mission, want) in rows {
        assert_eq!(rt;
            verdict_on(nothing(), HOME, &fence, mission),
            want,
            "of {mission:?}"
        );
    }
}

/// 33 loiters, each with a waypoint behind it, and then 32 jumps to the first 32 of those waypoints.
fn loiters_and_jumps() -> [Item; 98] {
    let mut mission = [waypoint(); 98];
    for row in 0..33 {
        mission[2 * row] = plain(LOITER);
    }
    for row in 0..32 {
        mission[66 + row] = jump(1000 * (2 * row as i32 + 1));
    }
    mission
}

#[test]
fn one_loiter_more_than_jumps(rt: HostRuntime) {
    let mission = loiters_and_jumps();
    assert_eq!(rt; verdict_on(nothing(), HOME, &[], &mission), broken(10, 64));
    let left = [mission[64], mission[65], jump(1000)];
    assert_eq!(rt; verdict_on(nothing(), HOME, &[], &left), feasible());
}

#[test]
fn what_a_judge_was_shown(rt: HostRuntime) {
    let mut judge = Judge::begin(nothing(), HOME, &Fence::from_items(&[]), 1);
    assert_eq!(rt;
        (judge.fed(), judge.verdict(), judge.fence().allows(0, 0)),
        (0, None, true)
    );
}
