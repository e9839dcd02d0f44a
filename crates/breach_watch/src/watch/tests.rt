//! A fence of four vertices read and judged by, and each row of a breach watch's table, told by hand. The fence goes from
//! latitude 46.9 to 47.25 and from longitude 7.9 to 8.1.

use super::*;
use mission_model::Param::{Milli, Unset};

const IN: u16 = 5001;

const OUT: u16 = 5002;

fn vertex(command: u16, x: i32, y: i32) -> Item {
    Item {
        frame: 0,
        command,
        p1: Milli(4_000),
        p2: Unset,
        p3: Unset,
        p4: Unset,
        x,
        y,
        z: 0,
        auto: true,
    }
}

fn fence() -> [Item; 4] {
    [
        vertex(IN, 469_000_000, 79_000_000),
        vertex(IN, 469_000_000, 81_000_000),
        vertex(IN, 472_500_000, 81_000_000),
        vertex(IN, 472_500_000, 79_000_000),
    ]
}

/// A longitude within the fence.
const Y: i32 = 80_000_000;

/// The answer that ends an input with this note.
fn ends(code: u16, a: u32, b: u32, x: i32) -> WatchOut {
    WatchOut {
        read: None,
        note: Note {
            code,
            a,
            b,
            x,
            y: Y,
        },
        more: false,
    }
}

/// The answer that reads a vertex of the fence of this id.
fn reads(id: u32, seq: u16, x: i32) -> WatchOut {
    WatchOut {
        read: Some((PlanType::Fence, id, seq)),
        more: true,
        ..ends(202, id, u32::from(seq), x)
    }
}

/// What the watch answers to a position at this latitude, with the fence of this id published, which has four vertices or none.
fn look(watch: &mut BreachWatch, x: i32, id: u32, is_empty: bool) -> WatchOut {
    let count = if is_empty { 0 } else { 4 };
    let other = PlanHead { id: 0, count: 0 };
    let heads = [other, PlanHead { id, count }, other];
    watch.work(
        &WatchInput {
            code: 2,
            a: x,
            b: Y,
        },
        heads,
    )
}

/// What the watch answers to a reply to its read, with this id published, where it reads a fence of four vertices.
fn told(watch: &mut BreachWatch, reply: &Reply, now: u32) -> Option<WatchOut> {
    let PlanHead { id, count } = watch.reading.head();
    let seq = watch.reading.len();
    if count != 4 || seq >= 4 {
        return None;
    }
    let asked = Asked::Read {
        kind: PlanType::Fence,
        id,
        seq,
    };
    let other = PlanHead { id: 0, count: 0 };
    let heads = [other, PlanHead { id: now, count: 4 }, other];
    match reply {
        Reply::Item(_) | Reply::Stale(_) | Reply::DiskFailed => {
            Some(watch.told(&asked, reply, heads))
        }
        _ => None,
    }
}

/// A watch that has read the fence of id 1 whole.
fn with_fence() -> BreachWatch {
    let mut watch = BreachWatch::new();
    let _begins = look(&mut watch, 472_000_000, 1, false);
    for vertex in fence() {
        let _reads = told(&mut watch, &Reply::Item(vertex), 1);
    }
    watch
}

#[test]
fn a_fence_is_read_once_and_judged_by(rt: HostRuntime) {
    let mut watch = BreachWatch::new();
    let x = 473_000_000;
    assert_eq!(rt; look(&mut watch, x, 1, false), reads(1, 0, x));
    let rows = [
        reads(1, 1, x),
        reads(1, 2, x),
        reads(1, 3, x),
        ends(201, 1, 0, x),
    ];
    for (vertex, want) in fence().iter().zip(rows.iter()) {
        let out = told(&mut watch, &Reply::Item(*vertex), 1);
        assert_eq!(rt; out, Some(*want));
    }
    let places = [
        (472_000_000, 200),
        (472_500_000, 200),
        (472_500_001, 201),
        (i32::MAX, 201),
        (i32::MIN, 201),
    ];
    for (x, code) in places {
        assert_eq!(rt;
            look(&mut watch, x, 1, false),
            ends(code, 1, 0, x),
            "at {x}"
        );
    }
    assert_eq!(rt; look(&mut watch, x, 8, true), ends(200, 8, 0, x));
    assert_eq!(rt; look(&mut watch, x, 2, false), reads(2, 0, x));
}

#[test]
fn a_reply_leads_on_or_ends(rt: HostRuntime) {
    let x = 472_000_000;
    let second = Reply::Item(fence()[1]);
    let rows = [
        (Reply::Stale(8), 8, ends(203, 1, 8, x)),
        (Reply::Stale(8), 11, ends(203, 1, 11, x)),
        (Reply::DiskFailed, 2, ends(203, 1, 2, x)),
        (second, 2, ends(203, 1, 2, x)),
        (Reply::DiskFailed, 1, ends(204, 1, 1, x)),
        (Reply::Item(vertex(OUT, 0, 0)), 1, ends(204, 1, 1, x)),
        (second, 1, reads(1, 2, x)),
    ];
    for (reply, now, want) in rows {
        let mut watch = BreachWatch::new();
        let _begins = look(&mut watch, x, 1, false);
        let _reads = told(&mut watch, &Reply::Item(fence()[0]), 1);
        assert_eq!(rt; told(&mut watch, &reply, now), Some(want));
    }
}

#[test]
fn no_fence_is_kept_after_a_read_that_failed(rt: HostRuntime) {
    let x = 472_000_000;
    let rows = [(Reply::Stale(3), 3), (Reply::DiskFailed, 2)];
    for (reply, now) in rows {
        let mut watch = with_fence();
        assert_eq!(rt; look(&mut watch, x, 1, false), ends(200, 1, 0, x));
        assert_eq!(rt; look(&mut watch, x, 2, false), reads(2, 0, x));
        let _fails = told(&mut watch, &reply, now);
        assert_eq!(rt; look(&mut watch, x, 1, false), reads(1, 0, x));
    }
}
