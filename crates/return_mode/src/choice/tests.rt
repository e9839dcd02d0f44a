//! Returns told by hand: the three types with and without home, position, landing and a feasible mission. Places are
//! in 1e-7 degree, commands are MAVLink's numbers.

use super::*;
use crate::ReturnOut;
use mission_model::Param::{Milli, Unset};
use mission_model::{Look, PlanType, check_plan};

const HOME: Home = Home {
    x: 470_000_000,
    y: 80_000_000,
    z: 400_000,
};

fn item(command: u16, thousandths: i32, x: i32, y: i32) -> Item {
    Item {
        frame: 0,
        command,
        p1: Milli(thousandths),
        p2: Unset,
        p3: Unset,
        p4: Unset,
        x,
        y,
        z: 0,
        auto: true,
    }
}

fn params(rtl_type: u8) -> Params {
    Params {
        tko_land: 0,
        takeoff_min: 0,
        max_alt: 0,
        rtl_type,
    }
}

/// The first target of a return of type 0, where both plans are valid.
fn nearest_of(
    home: Option<Home>,
    position: Option<(i32, i32)>,
    fence: &[Item],
    safe: &[Item],
) -> Option<ReturnOut> {
    check_plan(PlanType::Fence, fence).ok()?;
    check_plan(PlanType::Safe, safe).ok()?;
    let mut plan = choose(
        params(0),
        home,
        position,
        &Fence::from_items(fence),
        safe,
        None,
        false,
        0,
    );
    Some(plan.next(Look::Pending))
}

#[test]
fn the_nearest_of_home_and_safe_points(rt: HostRuntime) {
    let safe = [
        item(5100, 0, 470_020_000, 80_000_000),
        item(5100, 0, 470_010_000, 80_010_000),
    ];
    let fence = [
        item(5001, 4000, 469_900_000, 79_900_000),
        item(5001, 4000, 469_900_000, 80_100_000),
        item(5001, 4000, 470_015_000, 80_100_000),
        item(5001, 4000, 470_015_000, 79_900_000),
    ];
    let north = [
        item(5001, 4000, 470_005_000, 79_900_000),
        item(5001, 4000, 470_005_000, 80_100_000),
        item(5001, 4000, 470_015_000, 80_100_000),
        item(5001, 4000, 470_015_000, 79_900_000),
    ];
    let beside = [item(5100, 0, 6, 6), item(5100, 0, 0, 10)];
    let between = Some((470_015_000, 80_005_000));
    let home = Some(HOME);
    let cases: [(
        Option<Home>,
        Option<(i32, i32)>,
        &[Item],
        &[Item],
        ReturnOut,
    ); 9] = [
        (home, between, &[], &safe, ReturnOut::Safe(0)),
        (
            home,
            Some((470_010_000, 80_000_000)),
            &[],
            &safe,
            ReturnOut::Home,
        ),
        (
            None,
            Some((470_010_000, 80_000_000)),
            &[],
            &safe,
            ReturnOut::Safe(0),
        ),
        (home, between, &fence, &safe, ReturnOut::Safe(1)),
        (home, None, &[], &safe, ReturnOut::Home),
        (None, None, &[], &safe, ReturnOut::Safe(0)),
        (None, between, &[], &[], ReturnOut::None),
        // the home is outside the fence, and still 1000 against 19000
        (
            home,
            Some((470_001_000, 80_000_000)),
            &north,
            &safe,
            ReturnOut::Home,
        ),
        // 12 against 10
        (None, Some((0, 0)), &[], &beside, ReturnOut::Safe(1)),
    ];
    for (home, position, fence, safe, want) in cases {
        assert_eq!(rt; nearest_of(home, position, fence, safe), Some(want));
    }
}

#[test]
fn the_nearest_across_180_degrees(rt: HostRuntime) {
    let east = [
        item(5100, 0, 0, 1_799_999_995),
        item(5100, 0, 0, -1_799_999_900),
    ];
    let west = [
        item(5100, 0, 0, -1_799_999_995),
        item(5100, 0, 0, 1_799_999_900),
    ];
    let last = [
        item(5100, 0, 0, 1_799_999_999),
        item(5100, 0, 0, -1_800_000_000),
    ];
    let cases: [(i32, &[Item], ReturnOut); 4] = [
        // 6 across, against 99 on the same side
        (-1_799_999_999, &east, ReturnOut::Safe(0)),
        (1_799_999_999, &west, ReturnOut::Safe(0)),
        // 75 across, against 30 on the same side
        (-1_799_999_930, &east, ReturnOut::Safe(1)),
        // 1 on the same side, against the same meridian
        (1_800_000_000, &last, ReturnOut::Safe(1)),
    ];
    for (y, safe, want) in cases {
        assert_eq!(rt; nearest_of(None, Some((0, y)), &[], safe), Some(want));
    }
}

/// A return of type 1 or 2 over a mission that is feasible or not, with this landing where it has one.
fn return_of(
    rtl_type: u8,
    home: Option<Home>,
    landing: Option<(u16, u16)>,
    feasible: bool,
    index: u16,
) -> Option<ReturnPlan> {
    check_plan(PlanType::Fence, &[]).ok()?;
    check_plan(PlanType::Safe, &[]).ok()?;
    let fence = Fence::from_items(&[]);
    match landing {
        Some((start, last)) if feasible && start < last => Some(choose(
            params(rtl_type),
            home,
            None,
            &fence,
            &[],
            Some((start, last)),
            true,
            index,
        )),
        Some(_) => None,
        None => Some(choose(
            params(rtl_type),
            home,
            None,
            &fence,
            &[],
            None,
            feasible,
            index,
        )),
    }
}

/// Whether the return shows these, where each target is reached as it is shown, and no target is reached twice.
fn shows(plan: Option<ReturnPlan>, mission: &[Item], wants: &[ReturnOut]) -> bool {
    let Some(mut plan) = plan else {
        return false;
    };
    for want in wants {
        let seq = plan.seq().map_or(usize::MAX, usize::from);
        let look = mission
            .get(seq)
            .map_or(Look::Pending, |item| Look::Here(*item));
        let is_target = matches!(
            *want,
            ReturnOut::Leg(_) | ReturnOut::Home | ReturnOut::Safe(_)
        );
        if plan.next(look) != *want || plan.reached() != is_target || plan.reached() {
            return false;
        }
    }
    true
}

#[test]
fn returns_along_a_mission_with_a_landing(rt: HostRuntime) {
    use ReturnOut::{Done, Leg, Skip};
    // a takeoff from the present place, and a delay, have no position; the landing is at 2 and 5
    let mission = [
        item(22, 0, 0, 0),
        item(16, 0, 10, 10),
        item(189, 0, 0, 0),
        item(16, 0, 30, 30),
        item(93, 1000, 40, 40),
        item(21, 0, 50, 50),
    ];
    let home = Some(HOME);
    let cases: [(u8, Option<Home>, u16, &[ReturnOut]); 6] = [
        (1, home, 0, &[Leg(3), Skip(4), Leg(5), Done, Done]),
        (
            2,
            home,
            0,
            &[
                Skip(0),
                Leg(1),
                Skip(2),
                Leg(3),
                Skip(4),
                Leg(5),
                Done,
                Done,
            ],
        ),
        (
            2,
            None,
            1,
            &[Leg(1), Skip(2), Leg(3), Skip(4), Leg(5), Done],
        ),
        (2, None, 4, &[Skip(4), Leg(5), Done]),
        (2, home, 5, &[Leg(5), Done]),
        (2, home, 6, &[Leg(5), Done]),
    ];
    for (rtl_type, home, index, wants) in cases {
        let plan = return_of(rtl_type, home, Some((2, 5)), true, index);
        assert!(rt; shows(plan, &mission, wants), "type {rtl_type} at {index}");
    }
}

#[test]
fn returns_along_a_mission_without_a_landing(rt: HostRuntime) {
    use ReturnOut::{Done, Leg, Skip};
    let mission = [
        item(22, 0, 0, 0),
        item(16, 0, 10, 10),
        item(16, 0, 20, 20),
        item(93, 1000, 30, 30),
    ];
    let home = Some(HOME);
    let cases: [(u8, Option<Home>, u16, &[ReturnOut]); 6] = [
        (1, home, 3, &[ReturnOut::Home, Done, Done]),
        (1, None, 3, &[ReturnOut::None, ReturnOut::None]),
        (
            2,
            home,
            4,
            &[Skip(3), Leg(2), Leg(1), Skip(0), ReturnOut::Home, Done],
        ),
        (2, None, 2, &[Leg(1), Skip(0), Done]),
        (2, home, 0, &[ReturnOut::Home, Done]),
        (2, None, 0, &[ReturnOut::None]),
    ];
    for (rtl_type, home, index, wants) in cases {
        let plan = return_of(rtl_type, home, None, true, index);
        assert!(rt; shows(plan, &mission, wants), "type {rtl_type} at {index}");
    }
}

#[test]
fn a_return_back_along_three_waypoints(rt: HostRuntime) {
    use ReturnOut::{Done, Leg};
    let mission = [
        item(16, 0, 10, 10),
        item(16, 0, 20, 20),
        item(16, 0, 30, 30),
    ];
    let plan = return_of(2, Some(HOME), None, true, 2);
    assert!(rt; shows(plan, &mission, &[Leg(1), Leg(0), ReturnOut::Home, Done]));
}

#[test]
fn no_return_along_a_mission_that_is_not_feasible(rt: HostRuntime) {
    use ReturnOut::Done;
    // a takeoff behind a waypoint
    let mission = [item(16, 0, 10, 10), item(22, 0, 20, 20)];
    let home = Some(HOME);
    let cases: [(u8, Option<Home>, u16, &[ReturnOut]); 4] = [
        (1, home, 1, &[ReturnOut::Home, Done]),
        (1, None, 1, &[ReturnOut::None]),
        (2, home, 2, &[ReturnOut::Home, Done]),
        (2, None, 2, &[ReturnOut::None]),
    ];
    for (rtl_type, home, index, wants) in cases {
        let plan = return_of(rtl_type, home, None, false, index);
        assert!(rt; shows(plan, &mission, wants), "type {rtl_type} at {index}");
    }
}

#[test]
fn a_leg_stays_shown_until_it_is_reached(rt: HostRuntime) {
    let here = Look::Here(item(16, 0, 10, 10));
    let nowhere = Look::Here(item(93, 0, 10, 10));
    let Some(mut plan) = return_of(2, None, None, true, 3) else {
        assert!(rt; false);
        return;
    };
    assert_eq!(rt; plan.seq(), Some(2));
    assert_eq!(rt; plan.next(Look::Pending), ReturnOut::Pending);
    assert!(rt; !plan.reached());
    assert_eq!(rt; plan.next(here), ReturnOut::Leg(2));
    assert_eq!(rt; plan.next(here), ReturnOut::Leg(2));
    assert_eq!(rt; plan.next(Look::Pending), ReturnOut::Pending);
    assert!(rt; plan.reached());
    assert_eq!(rt; plan.next(here), ReturnOut::Leg(1));
    assert_eq!(rt; plan.next(nowhere), ReturnOut::Skip(1));
    assert!(rt; !plan.reached());
    assert_eq!(rt; plan.seq(), Some(0));
}
