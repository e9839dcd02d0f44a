//! Each row of a download's table once, and a download of two items whole, told by hand.

ghost use Rattle.std.specs.Prelude.{◌≡◌, ◌<◌};
ghost use Rattle.mission_model.specs.Replies.{CanHear};
ghost use Rattle.mission_model.specs.declared.plan.PlanType.TheVariants.{Mission};
ghost use Rattle.mission_model.specs.declared.request.Asked.TheVariants.{Read};

use super::*;
use mission_model::{Item, Param};

const ITEM: Item = Item {
    frame: 0,
    command: 16,
    p1: Param::Unset,
    p2: Param::Unset,
    p3: Param::Unset,
    p4: Param::Unset,
    x: 470_000_000,
    y: 80_000_000,
    z: 10_000,
    auto: true,
};

/// The answer that ends an input with this note.
fn ends(code: u16, a: u32, b: u32) -> WatchOut {
    WatchOut {
        read: None,
        note: Note {
            code,
            a,
            b,
            x: 0,
            y: 0,
        },
        more: false,
    }
}

/// The answer that reads an item, with this note.
fn reads(code: u16, a: u32, b: u32, read: (PlanType, u32, u16)) -> WatchOut {
    WatchOut {
        read: Some(read),
        more: true,
        ..ends(code, a, b)
    }
}

/// The heads of three plans: mission 7 of two items, the empty fence 8, and the safe points 9, one of them.
const HEADS: [PlanHead; 3] = [
    PlanHead { id: 7, count: 2 },
    PlanHead { id: 8, count: 0 },
    PlanHead { id: 9, count: 1 },
];

#[test]
fn an_input_begins_the_published_plan(rt: HostRuntime) {
    let rows = [
        (0, reads(100, 7, 2, (PlanType::Mission, 7, 0))),
        (1, ends(102, 8, 0)),
        (2, reads(100, 9, 1, (PlanType::Safe, 9, 0))),
        (3, ends(0, 0, 0)),
        (-1, ends(0, 0, 0)),
    ];
    for (a, want) in rows {
        let out = Download::new().work(&WatchInput { code: 1, a, b: 0 }, HEADS);
        assert_eq!(rt; out, want, "kind {a}");
    }
}

/// What a download of mission 7, of three items, answers to a reply to its read of an item, with this id published.
fn told_at(seq: u16, reply: Reply, now: u32) -> WatchOut
    requires within { seq < 3 }
    requires heard { CanHear (Read Mission 7 seq) reply }
{
    let mut download = Download {
        kind: PlanType::Mission,
        head: PlanHead { id: 7, count: 3 },
        seq,
    };
    let asked = Asked::Read {
        kind: PlanType::Mission,
        id: 7,
        seq,
    };
    let other = PlanHead { id: 0, count: 0 };
    let heads = [PlanHead { id: now, count: 3 }, other, other];
    download.told(&asked, &reply, heads)
}

#[test]
fn a_reply_leads_on_or_ends(rt: HostRuntime) {
    let rows = [
        (told_at(0, Reply::Stale(8), 8), ends(103, 7, 8)),
        (told_at(2, Reply::Stale(8), 11), ends(103, 7, 11)),
        (told_at(1, Reply::DiskFailed, 7), ends(104, 7, 1)),
        (told_at(1, Reply::DiskFailed, 8), ends(104, 7, 1)),
        (told_at(0, Reply::Item(ITEM), 8), ends(103, 7, 8)),
        (told_at(2, Reply::Item(ITEM), 8), ends(103, 7, 8)),
        (told_at(2, Reply::Item(ITEM), 7), ends(102, 7, 3)),
        (
            told_at(1, Reply::Item(ITEM), 7),
            reads(101, 7, 1, (PlanType::Mission, 7, 2)),
        ),
        (
            told_at(0, Reply::Item(ITEM), 7),
            reads(101, 7, 0, (PlanType::Mission, 7, 1)),
        ),
    ];
    for (out, want) in rows {
        assert_eq!(rt; out, want);
    }
}

/// The read of an item of mission 7.
fn read_of(seq: u16) -> Asked
    ensures { result ≡ Read Mission 7 seq }
{
    Asked::Read {
        kind: PlanType::Mission,
        id: 7,
        seq,
    }
}

#[test]
fn a_plan_of_two_items_is_given_whole(rt: HostRuntime) {
    let mut download = Download::new();
    let input = WatchInput {
        code: 1,
        a: 0,
        b: 0,
    };
    let first = download.work(&input, HEADS);
    assert_eq!(rt; first, reads(100, 7, 2, (PlanType::Mission, 7, 0)));
    let second = download.told(&read_of(0), &Reply::Item(ITEM), HEADS);
    assert_eq!(rt; second, reads(101, 7, 0, (PlanType::Mission, 7, 1)));
    let third = download.told(&read_of(1), &Reply::Item(ITEM), HEADS);
    assert_eq!(rt; third, ends(102, 7, 2));
}
