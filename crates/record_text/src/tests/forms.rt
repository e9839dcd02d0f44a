//! Each printed form of a line, as tables of lines and their texts.

use super::*;

/// Boots, meeting places, messages and their answers.
#[test]
fn prints_boots_and_links(rt: HostRuntime) -> Result<(), Fail> {
    let mut counts = Counts::new();
    counts.put(1, 1);
    let rows = [
        (
            Line::Boot {
                number: 2,
                heads: [PlanHead { id: 1, count: 2 }, EMPTY, EMPTY],
                mark: Mark {
                    id: 1,
                    index: 0,
                    counts,
                },
            },
            "boot 2 mission 1/2 fence 0/0 safe 0/0 at 0 1:1\n",
        ),
        (
            Line::Boot {
                number: 65535,
                heads: [
                    PlanHead { id: 7, count: 3 },
                    PlanHead { id: 8, count: 4 },
                    PlanHead {
                        id: 4294967295,
                        count: 1,
                    },
                ],
                mark: Mark {
                    id: 7,
                    index: 2,
                    counts: Counts::new(),
                },
            },
            "boot 65535 mission 7/3 fence 8/4 safe 4294967295/1 at 2\n",
        ),
        (Line::BootCut { number: 3 }, "boot 3 cut\n"),
        (
            Line::Arrived {
                client: Client::Watch(2),
                place: 5,
            },
            "watch 2 arrives 5\n",
        ),
        (
            Line::Met {
                client: Client::Link(7),
                place: 15,
            },
            "link 7 meets 15\n",
        ),
        (
            Line::Waited {
                client: Client::Nav,
            },
            "nav waits\n",
        ),
        (
            Line::Sent {
                link: 3,
                said: Said::Count { kind: 1, count: 4 },
                answer: Answer::RequestInt(0),
            },
            "link 3 count fence 4 > request 0\n",
        ),
        (
            sent(
                Said::Count {
                    kind: 255,
                    count: 0,
                },
                Answer::Ack(AckCode::Unsupported),
            ),
            "link 0 count all 0 > ack 3\n",
        ),
        (
            sent(Said::ClearAll(2), Answer::Ack(AckCode::Accepted)),
            "link 0 clear safe > ack 0\n",
        ),
        (
            sent(Said::SetCurrent(3), Answer::CurrentIs(3)),
            "link 0 set-current 3 > current 3\n",
        ),
        (
            sent(Said::Cancel, Answer::Ack(AckCode::OperationCancelled)),
            "link 0 cancel > ack 15\n",
        ),
        (
            sent(Said::Timeout, Answer::Nothing),
            "link 0 timeout > none\n",
        ),
        (
            sent(Said::Item(2), writes(2, ODD_ITEM)),
            "link 0 item 2 > write mission 1/2 2 530 -1500 - 0 2147483647 -473760000 85500000 -10000 0\n",
        ),
        (
            heard(Reply::DiskFailed, Answer::Ack(AckCode::Error)),
            "link 0 hears failed > ack 1\n",
        ),
    ];
    expect_texts(&rt, rt.alloc(), &rows)
}

/// Requests and replies of the worker and of the watchers.
#[test]
fn prints_requests_and_watchers(rt: HostRuntime) -> Result<(), Fail> {
    let mut counts = Counts::new();
    counts.put(4, 1);
    counts.put(1, 3);
    let mark = Mark {
        id: 7,
        index: 2,
        counts,
    };
    let read = Asked::Read {
        kind: PlanType::Mission,
        id: 1,
        seq: 0,
    };
    let commit = Asked::Commit {
        kind: PlanType::Safe,
        id: 9,
        count: 32,
    };
    let item = waypoint(0, 470000000, 80000000, 10000);
    let rows = [
        (
            took(Client::Nav, Asked::SetMark(mark)),
            "worker takes nav mark 7/2 1:3 4:1\n",
        ),
        (
            took(Client::Link(5), commit),
            "worker takes link 5 commit safe 9/32\n",
        ),
        (
            served(LINK, Reply::Spent(18446744073709551615)),
            "worker serves link 0 spent 18446744073709551615\n",
        ),
        (served(LINK, Reply::PowerOff), "worker serves link 0 off\n"),
        (
            Line::Got {
                asked: read,
                reply: Reply::Stale(2),
            },
            "nav got read mission 1/0 stale 2\n",
        ),
        (
            Line::Dropped {
                kind: PlanType::Mission,
                seq: 32,
            },
            "nav drop mission 32\n",
        ),
        (
            Line::WatchDid {
                watch: 0,
                input: WatchInput {
                    code: 1,
                    a: 0,
                    b: 0,
                },
                note: Note {
                    code: 100,
                    a: 1,
                    b: 1,
                    x: 0,
                    y: 0,
                },
                asked: 1,
            },
            "watch 0 does 1 0 0 > note 100 1 1 0 0 asks 1\n",
        ),
        (
            Line::WatchDid {
                watch: 3,
                input: WatchInput {
                    code: 2,
                    a: 472000000,
                    b: -80000000,
                },
                note: Note {
                    code: 200,
                    a: 4294967295,
                    b: 0,
                    x: 472000000,
                    y: -80000000,
                },
                asked: 0,
            },
            "watch 3 does 2 472000000 -80000000 > note 200 4294967295 0 472000000 -80000000 asks 0\n",
        ),
        (
            Line::WatchGot {
                watch: 0,
                asked: read,
                reply: Reply::Item(item),
                note: Note {
                    code: 102,
                    a: 1,
                    b: 1,
                    x: 0,
                    y: 0,
                },
                asks: 0,
            },
            "watch 0 got read mission 1/0 item 0 16 0 0 0 0 470000000 80000000 10000 1 > note 102 1 1 0 0 asks 0\n",
        ),
        (Line::Stuck, "stuck\n"),
    ];
    expect_texts(&rt, rt.alloc(), &rows)
}

/// The vehicle's events, and the Navigator's steps on the mission.
#[test]
fn prints_steps_of_the_mission(rt: HostRuntime) -> Result<(), Fail> {
    let rows = [
        (
            nav(
                VehicleLine::Tick,
                NavWhat::Pending {
                    kind: PlanType::Fence,
                    seq: 5,
                },
                1,
            ),
            "nav tick > pending fence 5 asks 1\n",
        ),
        (
            nav(VehicleLine::Go, NavWhat::HoldEmpty, 0),
            "nav go > hold empty asks 0\n",
        ),
        (
            nav(VehicleLine::Tick, NavWhat::Idle, 0),
            "nav tick > idle asks 0\n",
        ),
        (
            nav(VehicleLine::Mode(Mode::Hold), NavWhat::Taken, 0),
            "nav mode hold > taken asks 0\n",
        ),
        (
            nav(
                VehicleLine::Position {
                    x: 470015000,
                    y: -80005000,
                },
                NavWhat::Taken,
                0,
            ),
            "nav position 470015000 -80005000 > taken asks 0\n",
        ),
        (
            nav(VehicleLine::Reached, NavWhat::Ignored, 0),
            "nav reached > ignored asks 0\n",
        ),
        (
            nav(
                VehicleLine::Go,
                NavWhat::Action {
                    seq: 1,
                    mission: 2,
                    fence: 3,
                    item: ODD_ITEM,
                },
                7,
            ),
            "nav go > action 1 mission 2 fence 3 2 530 -1500 - 0 2147483647 -473760000 85500000 -10000 0 asks 7\n",
        ),
        (
            nav(
                VehicleLine::Go,
                NavWhat::Jump {
                    seq: 1,
                    to: 0,
                    used: 2,
                    mission: 5,
                    fence: 4,
                },
                1,
            ),
            "nav go > jump 1 to 0 used 2 mission 5 fence 4 asks 1\n",
        ),
        (
            nav(
                VehicleLine::Go,
                NavWhat::JumpSpent {
                    seq: 1,
                    mission: 5,
                    fence: 4,
                },
                0,
            ),
            "nav go > jump 1 spent mission 5 fence 4 asks 0\n",
        ),
        (
            nav(
                VehicleLine::Go,
                NavWhat::Hold {
                    rule: 7,
                    seq: 3,
                    mission: 1,
                    fence: 2,
                },
                0,
            ),
            "nav go > hold 7 3 mission 1 fence 2 asks 0\n",
        ),
    ];
    expect_texts(&rt, rt.alloc(), &rows)
}

/// The Navigator's steps on the way home.
#[test]
fn prints_steps_of_the_return(rt: HostRuntime) -> Result<(), Fail> {
    let home = Home {
        x: 470000000,
        y: -80000000,
        z: 400000,
    };
    let rows = [
        (
            nav(VehicleLine::Mode(Mode::Return), NavWhat::Taken, 0),
            "nav mode return > taken asks 0\n",
        ),
        (
            nav(VehicleLine::Reached, NavWhat::NextReturn, 0),
            "nav reached > next return asks 0\n",
        ),
        (
            nav(
                VehicleLine::Go,
                NavWhat::ReturnLeg {
                    seq: 1,
                    mission: 2,
                    fence: 3,
                    item: ODD_ITEM,
                },
                0,
            ),
            "nav go > return leg 1 mission 2 fence 3 2 530 -1500 - 0 2147483647 -473760000 85500000 -10000 0 asks 0\n",
        ),
        (
            nav(
                VehicleLine::Go,
                NavWhat::ReturnSkip {
                    seq: 2,
                    mission: 3,
                    fence: 4,
                },
                0,
            ),
            "nav go > return skip 2 mission 3 fence 4 asks 0\n",
        ),
        (
            nav(VehicleLine::Go, NavWhat::ReturnHome(home), 0),
            "nav go > return home 470000000 -80000000 400000 asks 0\n",
        ),
        (
            nav(
                VehicleLine::Go,
                NavWhat::ReturnSafe {
                    seq: 1,
                    safe: 5,
                    fence: 6,
                    item: ODD_ITEM,
                },
                0,
            ),
            "nav go > return safe 1 safe 5 fence 6 2 530 -1500 - 0 2147483647 -473760000 85500000 -10000 0 asks 0\n",
        ),
        (
            nav(VehicleLine::Go, NavWhat::ReturnNone, 0),
            "nav go > return none asks 0\n",
        ),
        (
            nav(VehicleLine::Go, NavWhat::ReturnDone, 0),
            "nav go > return done asks 0\n",
        ),
    ];
    expect_texts(&rt, rt.alloc(), &rows)
}
