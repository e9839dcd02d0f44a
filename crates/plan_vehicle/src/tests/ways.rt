//! Returns: to the nearest of home and safe points, along the mission, and begun by an action.

use super::lines::{
    boot, commits, event, item, leg, look, mark, reached, serves, waypoint, writes,
};
use super::{are_steps, not, step};
use mission_model::{Client, Home, Line, Mode, NavWhat, PlanType, Reply, VehicleLine};
use std::test::*;

const LINK: Client = Client::Link(0);

/// The return mode is taken.
const RETURN: VehicleLine = VehicleLine::Mode(Mode::Return);

const HOME: Home = Home {
    x: 470_000_000,
    y: 80_000_000,
    z: 400_000,
};

fn at(x: i32, y: i32) -> Line {
    event(VehicleLine::Position { x, y }, NavWhat::Taken)
}

#[test]
fn a_return_leads_to_the_nearest_allowed_place(rt: HostRuntime) {
    let near = item(5100, 0, 0, 470_020_000, 80_000_000);
    let beside = item(5100, 0, 0, 470_010_000, 80_010_000);
    let vertex = |x: i32, y: i32| item(5001, 4_000, 0, x, y);
    let to = |seq: u16, fence: u32, item| {
        look(NavWhat::ReturnSafe {
            seq,
            safe: 1,
            fence,
            item,
        })
    };
    let to_home = NavWhat::ReturnHome(HOME);
    let rows = [
        step(boot(1, (0, 0), (0, 0), mark(0, 0))),
        step(writes(PlanType::Safe, 1, 0, near)),
        step(writes(PlanType::Safe, 1, 1, beside)),
        step(commits(PlanType::Safe, 1, 2)),
        step(serves(LINK, Reply::Done)),
        step(at(470_015_000, 80_005_000)),
        step(event(RETURN, NavWhat::Taken)),
        not(reached(NavWhat::Ignored), reached(NavWhat::NextReturn)),
        not(to(0, 0, near), to(1, 0, beside)),
        not(to(0, 0, near), look(to_home)),
        not(reached(NavWhat::NextReturn), reached(NavWhat::Next(1))),
        not(look(NavWhat::ReturnDone), look(NavWhat::ReturnNone)),
        step(at(470_010_000, 80_000_000)),
        step(event(RETURN, NavWhat::Taken)),
        not(look(to_home), look(NavWhat::ReturnDone)),
        step(writes(PlanType::Fence, 1, 0, vertex(469_900_000, 79_900_000))),
        step(writes(PlanType::Fence, 1, 1, vertex(469_900_000, 80_100_000))),
        step(writes(PlanType::Fence, 1, 2, vertex(470_015_000, 80_100_000))),
        step(writes(PlanType::Fence, 1, 3, vertex(470_015_000, 79_900_000))),
        step(commits(PlanType::Fence, 1, 4)),
        step(serves(LINK, Reply::Done)),
        step(at(470_015_000, 80_005_000)),
        not(to(1, 1, beside), to(0, 1, near)),
    ];
    are_steps(&rt, rt.alloc(), 0, Some(HOME), &rows);
}

#[test]
fn a_return_along_the_mission_skips_what_has_no_place(rt: HostRuntime) {
    let first = waypoint(470_000_000, 80_000_000);
    let delay = item(93, 5_000, 0, 0, 0);
    let last = waypoint(472_000_000, 80_000_000);
    let back = |seq: u16, item| {
        look(NavWhat::ReturnLeg {
            seq,
            mission: 1,
            fence: 0,
            item,
        })
    };
    let skip = |seq: u16| {
        look(NavWhat::ReturnSkip {
            seq,
            mission: 1,
            fence: 0,
        })
    };
    let rows = [
        step(boot(1, (0, 0), (0, 0), mark(0, 0))),
        step(writes(PlanType::Mission, 1, 0, first)),
        step(writes(PlanType::Mission, 1, 1, delay)),
        step(writes(PlanType::Mission, 1, 2, last)),
        step(commits(PlanType::Mission, 1, 3)),
        step(serves(LINK, Reply::Done)),
        step(event(VehicleLine::Mode(Mode::Mission), NavWhat::Taken)),
        step(leg(0, 1, first)),
        step(reached(NavWhat::Next(1))),
        step(leg(1, 1, delay)),
        step(reached(NavWhat::Next(2))),
        step(event(RETURN, NavWhat::Taken)),
        not(skip(1), back(1, delay)),
        not(reached(NavWhat::Ignored), reached(NavWhat::NextReturn)),
        not(back(0, first), skip(0)),
        not(reached(NavWhat::NextReturn), back(0, last)),
        not(
            look(NavWhat::ReturnHome(HOME)),
            look(NavWhat::ReturnHome(Home { z: 0, ..HOME })),
        ),
        step(reached(NavWhat::NextReturn)),
        not(look(NavWhat::ReturnDone), look(NavWhat::ReturnHome(HOME))),
    ];
    are_steps(&rt, rt.alloc(), 2, Some(HOME), &rows);
}

#[test]
fn an_action_begins_a_return(rt: HostRuntime) {
    let home = item(20, 0, 0, 0, 0);
    let action = NavWhat::Action {
        seq: 0,
        mission: 1,
        fence: 0,
        item: home,
    };
    let rows = [
        step(boot(1, (0, 0), (0, 0), mark(0, 0))),
        step(writes(PlanType::Mission, 1, 0, home)),
        step(commits(PlanType::Mission, 1, 1)),
        step(serves(LINK, Reply::Done)),
        step(event(VehicleLine::Mode(Mode::Mission), NavWhat::Taken)),
        not(look(action), leg(0, 1, home)),
        not(
            look(NavWhat::ReturnNone),
            look(NavWhat::Done {
                mission: 1,
                fence: 0,
            }),
        ),
        not(look(NavWhat::ReturnNone), look(NavWhat::ReturnDone)),
    ];
    are_steps(&rt, rt.alloc(), 1, None, &rows);
}
