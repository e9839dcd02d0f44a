//! Each printed form against texts that were written by hand.

ghost use Rattle.std.specs.Prelude.{◌↔◌, All, IsTrue};
ghost use Rattle.record_text.specs.Record.{IsPrintable};

mod forms;
mod reads;

use crate::{is_printable, line_text, record_text};
use mission_model::{
    AckCode, Answer, Asked, Client, Counts, Home, Item, Line, Mark, Mode, NavEntry, NavWhat, Note,
    Param, PlanHead, PlanType, Reply, Said, VehicleLine, WatchInput,
};
use std::alloc::Global;
use std::process::Abort;
use std::test::Fail;

const EMPTY: PlanHead = PlanHead { id: 0, count: 0 };

const LINK: Client = Client::Link(0);

/// A parameter that is not given, negative numbers, and no autocontinue.
const ODD_ITEM: Item = Item {
    frame: 2,
    command: 530,
    p1: Param::Milli(-1500),
    p2: Param::Unset,
    p3: Param::Milli(0),
    p4: Param::Milli(2147483647),
    x: -473760000,
    y: 85500000,
    z: -10000,
    auto: false,
};

/// Whether each of the lines is printable.
fn are_printable(lines: &[Line]) -> bool
    ensures { IsTrue result ↔ All IsPrintable lines.now }
{
    lines.iter().all(|line| is_printable(line))
}

/// Each line is printable and has this text.
fn expect_texts(rt: &impl Abort, alloc: Global, rows: &[(Line, &str)]) -> Result<(), Fail> {
    for (line, expected) in rows {
        assert!(rt; is_printable(line), "{expected}");
        let text = line_text(alloc, line)?;
        assert!(rt; text.as_slice() == expected.as_bytes(), "{expected}");
        reads::expect_read_back(rt, alloc, expected.as_bytes(), 1)?;
    }
    Ok(())
}

/// A waypoint in a frame and at a place, with parameters of 0.
fn waypoint(frame: u16, x: i32, y: i32, z: i32) -> Item {
    Item {
        frame,
        command: 16,
        p1: Param::Milli(0),
        p2: Param::Milli(0),
        p3: Param::Milli(0),
        p4: Param::Milli(0),
        x,
        y,
        z,
        auto: true,
    }
}

/// The first line of a new store.
fn first_boot() -> Line {
    Line::Boot {
        number: 1,
        heads: [EMPTY, EMPTY, EMPTY],
        mark: mark(0, 0),
    }
}

/// A mark without jumps.
fn mark(id: u32, index: u16) -> Mark {
    Mark {
        id,
        index,
        counts: Counts::new(),
    }
}

fn commit(count: u16) -> Asked {
    Asked::Commit {
        kind: PlanType::Mission,
        id: 1,
        count,
    }
}

fn commits(count: u16) -> Answer {
    Answer::Commits {
        kind: PlanType::Mission,
        id: 1,
        count,
    }
}

fn arrived(client: Client) -> Line {
    Line::Arrived { client, place: 0 }
}

fn met(client: Client) -> Line {
    Line::Met { client, place: 0 }
}

fn write(seq: u16) -> Asked {
    Asked::Write {
        kind: PlanType::Mission,
        id: 1,
        seq,
    }
}

fn writes(seq: u16, item: Item) -> Answer {
    Answer::Writes {
        kind: PlanType::Mission,
        id: 1,
        seq,
        item,
    }
}

fn sent(said: Said, answer: Answer) -> Line {
    Line::Sent {
        link: 0,
        said,
        answer,
    }
}

fn took(client: Client, asked: Asked) -> Line {
    Line::Took { client, asked }
}

fn served(client: Client, reply: Reply) -> Line {
    Line::Served { client, reply }
}

fn heard(reply: Reply, answer: Answer) -> Line {
    Line::Heard {
        link: 0,
        reply,
        answer,
    }
}

fn nav(input: VehicleLine, what: NavWhat, asked: u8) -> Line {
    Line::Nav {
        input,
        entry: NavEntry { what, asked },
    }
}

fn leg(seq: u16, item: Item) -> NavWhat {
    NavWhat::Leg {
        seq,
        mission: 1,
        fence: 0,
        item,
    }
}

const MISSION_DONE: NavWhat = NavWhat::Done {
    mission: 1,
    fence: 0,
};

/// The record of one waypoint that is uploaded and flown.
#[test]
fn prints_one_leg(rt: HostRuntime) -> Result<(), Fail> {
    let item = waypoint(3, 473760000, 85500000, 10000);
    let read = Asked::Read {
        kind: PlanType::Mission,
        id: 1,
        seq: 0,
    };
    let kept = Asked::SetMark(mark(1, 1));
    let pending = NavWhat::Pending {
        kind: PlanType::Mission,
        seq: 0,
    };
    let lines = [
        first_boot(),
        sent(Said::Count { kind: 0, count: 1 }, Answer::RequestInt(0)),
        arrived(Client::Nav),
        sent(Said::Item(0), writes(0, item)),
        took(LINK, write(0)),
        served(LINK, Reply::Done),
        heard(Reply::Done, commits(1)),
        took(LINK, commit(1)),
        served(LINK, Reply::Done),
        heard(Reply::Done, Answer::Ack(AckCode::Accepted)),
        arrived(LINK),
        met(Client::Nav),
        met(LINK),
        nav(VehicleLine::Mode(Mode::Mission), NavWhat::Taken, 0),
        nav(VehicleLine::Go, pending, 1),
        took(Client::Nav, read),
        served(Client::Nav, Reply::Item(item)),
        Line::Got {
            asked: read,
            reply: Reply::Item(item),
        },
        nav(VehicleLine::Go, leg(0, item), 0),
        nav(VehicleLine::Reached, NavWhat::Next(1), 1),
        took(Client::Nav, kept),
        nav(VehicleLine::Go, MISSION_DONE, 0),
        served(Client::Nav, Reply::Done),
        Line::Got {
            asked: kept,
            reply: Reply::Done,
        },
        Line::End,
    ];
    let expected = "boot 1 mission 0/0 fence 0/0 safe 0/0 at 0\n\
        link 0 count mission 1 > request 0\n\
        nav arrives 0\n\
        link 0 item 0 > write mission 1/0 3 16 0 0 0 0 473760000 85500000 10000 1\n\
        worker takes link 0 write mission 1/0\n\
        worker serves link 0 done\n\
        link 0 hears done > commit mission 1/1\n\
        worker takes link 0 commit mission 1/1\n\
        worker serves link 0 done\n\
        link 0 hears done > ack 0\n\
        link 0 arrives 0\n\
        nav meets 0\n\
        link 0 meets 0\n\
        nav mode mission > taken asks 0\n\
        nav go > pending mission 0 asks 1\n\
        worker takes nav read mission 1/0\n\
        worker serves nav item 3 16 0 0 0 0 473760000 85500000 10000 1\n\
        nav got read mission 1/0 item 3 16 0 0 0 0 473760000 85500000 10000 1\n\
        nav go > leg 0 mission 1 fence 0 3 16 0 0 0 0 473760000 85500000 10000 1 asks 0\n\
        nav reached > next 1 asks 1\n\
        worker takes nav mark 1/1\n\
        nav go > done mission 1 fence 0 asks 0\n\
        worker serves nav done\n\
        nav got mark 1/1 done\n\
        end\n";
    assert!(rt; are_printable(&lines));
    let text = record_text(rt.alloc(), &lines)?;
    assert!(rt; text.as_slice() == expected.as_bytes());
    Ok(())
}

/// The record of two waypoints that are uploaded and flown without requests of the Navigator.
#[test]
fn prints_two_legs(rt: HostRuntime) -> Result<(), Fail> {
    let first = waypoint(0, 470000000, 80000000, 10000);
    let second = waypoint(0, 480000000, 90000000, 20000);
    let lines = [
        first_boot(),
        sent(Said::Count { kind: 0, count: 2 }, Answer::RequestInt(0)),
        arrived(Client::Nav),
        sent(Said::Item(0), writes(0, first)),
        took(LINK, write(0)),
        served(LINK, Reply::Done),
        heard(Reply::Done, Answer::RequestInt(1)),
        sent(Said::Item(1), writes(1, second)),
        took(LINK, write(1)),
        served(LINK, Reply::Done),
        heard(Reply::Done, commits(2)),
        took(LINK, commit(2)),
        served(LINK, Reply::Done),
        heard(Reply::Done, Answer::Ack(AckCode::Accepted)),
        arrived(LINK),
        met(Client::Nav),
        met(LINK),
        nav(VehicleLine::Mode(Mode::Mission), NavWhat::Taken, 0),
        nav(VehicleLine::Go, leg(0, first), 0),
        nav(VehicleLine::Reached, NavWhat::Next(1), 0),
        nav(VehicleLine::Go, leg(1, second), 0),
        nav(VehicleLine::Reached, NavWhat::Next(2), 0),
        nav(VehicleLine::Go, MISSION_DONE, 0),
        Line::End,
    ];
    let expected = "boot 1 mission 0/0 fence 0/0 safe 0/0 at 0\n\
        link 0 count mission 2 > request 0\n\
        nav arrives 0\n\
        link 0 item 0 > write mission 1/0 0 16 0 0 0 0 470000000 80000000 10000 1\n\
        worker takes link 0 write mission 1/0\n\
        worker serves link 0 done\n\
        link 0 hears done > request 1\n\
        link 0 item 1 > write mission 1/1 0 16 0 0 0 0 480000000 90000000 20000 1\n\
        worker takes link 0 write mission 1/1\n\
        worker serves link 0 done\n\
        link 0 hears done > commit mission 1/2\n\
        worker takes link 0 commit mission 1/2\n\
        worker serves link 0 done\n\
        link 0 hears done > ack 0\n\
        link 0 arrives 0\n\
        nav meets 0\n\
        link 0 meets 0\n\
        nav mode mission > taken asks 0\n\
        nav go > leg 0 mission 1 fence 0 0 16 0 0 0 0 470000000 80000000 10000 1 asks 0\n\
        nav reached > next 1 asks 0\n\
        nav go > leg 1 mission 1 fence 0 0 16 0 0 0 0 480000000 90000000 20000 1 asks 0\n\
        nav reached > next 2 asks 0\n\
        nav go > done mission 1 fence 0 asks 0\n\
        end\n";
    assert!(rt; are_printable(&lines));
    let text = record_text(rt.alloc(), &lines)?;
    assert!(rt; text.as_slice() == expected.as_bytes());
    Ok(())
}
