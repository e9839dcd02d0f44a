//! Uploads, legs, jumps and verdicts.

use super::lines::{
    boot, commits, event, hears, item, leg, look, mark, mark_after, marks, reached, reads, serves,
    takes, waypoint, writes,
};
use super::{Row, are_steps, not, step};
use mission_model::{
    AckCode, Answer, Asked, Client, Mode, NavWhat, PlanType, Reply, Said, VehicleLine,
};
use std::test::*;

const LINK: Client = Client::Link(0);

/// The mission mode is taken.
const MISSION: VehicleLine = VehicleLine::Mode(Mode::Mission);

#[test]
fn an_upload_is_flown_and_resumed(rt: HostRuntime) {
    let a = waypoint(473_760_000, 85_500_000);
    let b = waypoint(473_760_001, 85_500_000);
    let accepted = Answer::Ack(AckCode::Accepted);
    let commit = Answer::Commits {
        kind: PlanType::Mission,
        id: 1,
        count: 1,
    };
    let write = Asked::Write {
        kind: PlanType::Mission,
        id: 1,
        seq: 0,
    };
    let done = NavWhat::Done {
        mission: 1,
        fence: 0,
    };
    let done_of_another = NavWhat::Done {
        mission: 1,
        fence: 1,
    };
    let rows = [
        not(
            boot(1, (0, 0), (0, 0), mark(0, 0)),
            boot(1, (0, 0), (0, 0), mark(0, 1)),
        ),
        not(
            writes(PlanType::Mission, 1, 0, a),
            writes(PlanType::Mission, 1, 1, a),
        ),
        step(takes(LINK, write)),
        not(
            serves(LINK, Reply::Done),
            serves(Client::Link(1), Reply::Done),
        ),
        not(hears(Reply::Done, commit), hears(Reply::Done, accepted)),
        step(commits(PlanType::Mission, 1, 1)),
        not(serves(LINK, Reply::Done), serves(LINK, Reply::Stale(0))),
        not(
            hears(Reply::Done, accepted),
            hears(Reply::DiskFailed, accepted),
        ),
        step(event(MISSION, NavWhat::Taken)),
        step(look(NavWhat::Pending {
            kind: PlanType::Mission,
            seq: 0,
        })),
        step(reads(PlanType::Mission, 1, 0)),
        not(
            serves(Client::Nav, Reply::Item(a)),
            serves(Client::Nav, Reply::Item(b)),
        ),
        not(leg(0, 1, a), leg(0, 2, a)),
        not(reached(NavWhat::Next(1)), reached(NavWhat::Next(2))),
        not(marks(mark(1, 1)), marks(mark(1, 2))),
        not(look(done), look(done_of_another)),
        step(serves(Client::Nav, Reply::Done)),
        not(
            boot(2, (1, 1), (0, 0), mark(1, 1)),
            boot(2, (1, 1), (0, 0), mark(1, 0)),
        ),
    ];
    are_steps(&rt, rt.alloc(), 0, None, &rows);
}

#[test]
fn jumps_are_taken_as_often_as_they_say(rt: HostRuntime) {
    let a = waypoint(473_760_000, 85_500_000);
    let back = item(177, 0, 2_000, 0, 0);
    let jump = |used: u16| NavWhat::Jump {
        seq: 1,
        to: 0,
        used,
        mission: 5,
        fence: 0,
    };
    let spent = NavWhat::JumpSpent {
        seq: 1,
        mission: 5,
        fence: 0,
    };
    let jump_flown = NavWhat::Leg {
        seq: 1,
        mission: 5,
        fence: 0,
        item: back,
    };
    let rows = [
        step(boot(1, (5, 2), (0, 0), mark(5, 0))),
        step(reads(PlanType::Mission, 5, 1)),
        step(serves(Client::Nav, Reply::Item(back))),
        not(
            event(MISSION, NavWhat::Taken),
            event(MISSION, NavWhat::Idle),
        ),
        not(
            look(NavWhat::Pending {
                kind: PlanType::Mission,
                seq: 0,
            }),
            leg(0, 5, a),
        ),
        step(reads(PlanType::Mission, 5, 0)),
        step(serves(Client::Nav, Reply::Item(a))),
        not(leg(0, 5, a), look(jump(1))),
        step(reached(NavWhat::Next(1))),
        not(look(jump(1)), look(jump(2))),
        step(leg(0, 5, a)),
        step(reached(NavWhat::Next(1))),
        not(look(jump(2)), look(spent)),
        not(leg(0, 5, a), reached(NavWhat::Next(1))),
        step(reached(NavWhat::Next(1))),
        not(marks(mark_after(5, 1, 1, 2)), marks(mark_after(5, 1, 1, 3))),
        step(serves(Client::Nav, Reply::Done)),
        not(look(spent), look(jump(3))),
        not(reached(NavWhat::Ignored), reached(NavWhat::Next(3))),
        not(
            look(NavWhat::Done {
                mission: 5,
                fence: 0,
            }),
            look(jump_flown),
        ),
        not(
            boot(2, (5, 2), (0, 0), mark_after(5, 1, 1, 2)),
            boot(2, (5, 2), (0, 0), mark(5, 1)),
        ),
    ];
    are_steps(&rt, rt.alloc(), 0, None, &rows);
}

/// A fence round four places at 7.9 to 8.1 degrees of longitude, from 46.9 degrees of latitude to this one.
fn fence(id: u32, north: i32) -> [Row; 6] {
    let vertex = |x: i32, y: i32| item(5001, 4_000, 0, x, y);
    [
        step(writes(PlanType::Fence, id, 0, vertex(469_000_000, 79_000_000))),
        step(writes(PlanType::Fence, id, 1, vertex(469_000_000, 81_000_000))),
        step(writes(PlanType::Fence, id, 2, vertex(north, 81_000_000))),
        step(writes(PlanType::Fence, id, 3, vertex(north, 79_000_000))),
        not(commits(PlanType::Fence, id, 4), serves(LINK, Reply::Done)),
        step(serves(LINK, Reply::Done)),
    ]
}

#[test]
fn a_leg_is_feasible_with_the_fence_in_force(rt: HostRuntime) {
    let points = [
        waypoint(470_000_000, 80_000_000),
        waypoint(471_000_000, 80_000_000),
        waypoint(472_000_000, 80_000_000),
        waypoint(473_000_000, 80_000_000),
    ];
    let flown = |fence: u32| NavWhat::Leg {
        seq: 0,
        mission: 1,
        fence,
        item: points[0],
    };
    let hold = |rule: u8, seq: u16| NavWhat::Hold {
        rule,
        seq,
        mission: 1,
        fence: 1,
    };
    let small = fence(1, 472_500_000);
    let large = fence(2, 474_000_000);
    let rows = [
        step(boot(1, (0, 0), (0, 0), mark(0, 0))),
        step(writes(PlanType::Mission, 1, 0, points[0])),
        step(writes(PlanType::Mission, 1, 1, points[1])),
        step(writes(PlanType::Mission, 1, 2, points[2])),
        step(writes(PlanType::Mission, 1, 3, points[3])),
        not(
            event(MISSION, NavWhat::Taken),
            event(MISSION, NavWhat::Next(1)),
        ),
        not(look(NavWhat::HoldEmpty), look(flown(0))),
        step(commits(PlanType::Mission, 1, 4)),
        step(serves(LINK, Reply::Done)),
        not(look(flown(0)), look(NavWhat::HoldEmpty)),
        small[0],
        small[1],
        small[2],
        small[3],
        small[4],
        small[5],
        not(look(hold(7, 3)), look(flown(1))),
        not(look(hold(7, 3)), look(hold(7, 2))),
        not(look(hold(7, 3)), look(hold(8, 3))),
        large[0],
        large[1],
        large[2],
        large[3],
        large[4],
        large[5],
        not(look(flown(2)), look(flown(1))),
        not(look(flown(2)), look(hold(7, 3))),
    ];
    are_steps(&rt, rt.alloc(), 0, None, &rows);
}

#[test]
fn an_index_that_a_link_asked_for_is_taken_by_the_next_event(rt: HostRuntime) {
    let a = waypoint(473_760_000, 85_500_000);
    let current = |seq: u16| mission_model::Line::Sent {
        link: 3,
        said: Said::SetCurrent(seq),
        answer: Answer::CurrentIs(seq),
    };
    let rows = [
        step(boot(1, (5, 2), (0, 0), mark_after(5, 0, 1, 7))),
        step(reads(PlanType::Mission, 5, 0)),
        not(
            serves(Client::Nav, Reply::Item(a)),
            serves(Client::Nav, Reply::Stale(5)),
        ),
        step(reads(PlanType::Mission, 5, 1)),
        step(serves(Client::Nav, Reply::Item(a))),
        step(event(MISSION, NavWhat::Taken)),
        not(leg(0, 5, a), leg(1, 5, a)),
        not(current(1), current(2)),
        not(reached(NavWhat::Ignored), reached(NavWhat::Next(1))),
        not(marks(mark_after(5, 1, 1, 7)), marks(mark(5, 1))),
        step(serves(Client::Nav, Reply::Done)),
        step(current(0)),
        not(leg(0, 5, a), leg(1, 5, a)),
        not(marks(mark(5, 0)), marks(mark_after(5, 0, 1, 8))),
    ];
    are_steps(&rt, rt.alloc(), 0, None, &rows);
}
