//! Plan texts as ground stations export them, and each fault once.

use crate::{WplFault, drop_home, read_wpl, write_wpl};
use mission_model::{Item, Param};
use nav_num::NumFault;
use nav_text::{MAX_TEXT_BYTES, TextFault};
use std::test::*;

const USUAL: &[u8] = b"QGC WPL 110\r\n\
0\t1\t0\t16\t0\t0\t0\t0\t47.397742\t8.545594\t488.1\t1\r\n\
1\t0\t3\t22\t15\t0\t0\tNaN\t47.3977419999999995\t8.54559399999999911\t10\t1\r\n\
2 0  3 16 0 0 0 0 47.376 8.55 10 7\r\n\
3\t0\t2\t177\t1\t2\t0\t0\t0\t0\t0\t0\r\n\
\r\n \t\r\n";

const WRITTEN: &[u8] = b"QGC WPL 110\n\
0\t1\t0\t16\t0\t0\t0\t0\t47.397742\t8.545594\t488.1\t1\n\
1\t0\t3\t22\t15\t0\t0\tnan\t47.397742\t8.545594\t10\t1\n\
2\t0\t3\t16\t0\t0\t0\t0\t47.376\t8.55\t10\t1\n\
3\t0\t2\t177\t1\t2\t0\t0\t0\t0\t0\t0\n";

const ZERO: Param = Param::Milli(0);

const HOME: Item = Item {
    frame: 0,
    command: 16,
    p1: ZERO,
    p2: ZERO,
    p3: ZERO,
    p4: ZERO,
    x: 473_977_420,
    y: 85_455_940,
    z: 488_100,
    auto: true,
};

const TAKEOFF: Item = Item {
    frame: 3,
    command: 22,
    p1: Param::Milli(15_000),
    p2: ZERO,
    p3: ZERO,
    p4: Param::Unset,
    x: 473_977_420,
    y: 85_455_940,
    z: 10_000,
    auto: true,
};

const WAYPOINT: Item = Item {
    frame: 3,
    command: 16,
    p1: ZERO,
    p2: ZERO,
    p3: ZERO,
    p4: ZERO,
    x: 473_760_000,
    y: 85_500_000,
    z: 10_000,
    auto: true,
};

const JUMP: Item = Item {
    frame: 2,
    command: 177,
    p1: Param::Milli(1000),
    p2: Param::Milli(2000),
    p3: ZERO,
    p4: ZERO,
    x: 0,
    y: 0,
    z: 0,
    auto: false,
};

#[test]
fn usual_mission(rt: HostRuntime) -> Result<(), Fail> {
    let mut items = read_wpl(rt.alloc(), USUAL)
        .ok()
        .ok_or("the text is a plan")?;
    assert!(rt; items.as_slice() == [HOME, TAKEOFF, WAYPOINT, JUMP].as_slice());
    let text = write_wpl(rt.alloc(), &items)?;
    assert_eq!(rt; text.as_slice(), WRITTEN);
    drop_home(&mut items);
    let last = Item {
        p1: Param::Milli(0),
        ..JUMP
    };
    assert!(rt; items.as_slice() == [TAKEOFF, WAYPOINT, last].as_slice());
    Ok(())
}

#[test]
fn header_alone(rt: HostRuntime) -> Result<(), Fail> {
    let items = read_wpl(rt.alloc(), b"QGC WPL 110 \t")
        .ok()
        .ok_or("the text is a plan")?;
    assert!(rt; items.is_empty());
    Ok(())
}

/// The largest numbers that fields take, and a command of ten digits.
#[test]
fn fields_at_their_limits(rt: HostRuntime) -> Result<(), Fail> {
    let rows: [(&[u8], Item); 3] = [
        (
            b"QGC WPL 110\n0 1 255 16 0 0 0 0 47.376 8.55 10 255",
            Item {
                frame: 255,
                ..WAYPOINT
            },
        ),
        (
            b"QGC WPL 110\n0 255 3 0000000016 0 0 0 0 47.376 8.55 10 1",
            WAYPOINT,
        ),
        (
            b"QGC WPL 110\n0 1 3 65535 0 0 0 0 47.376 8.55 10 1",
            Item {
                command: 65_535,
                ..WAYPOINT
            },
        ),
    ];
    for (text, item) in rows {
        let items = read_wpl(rt.alloc(), text).ok().ok_or("the text is a plan")?;
        assert!(rt; items.as_slice() == [item].as_slice());
    }
    Ok(())
}

#[test]
fn first_faults(rt: HostRuntime) {
    let rows: [(&[u8], WplFault); 16] = [
        (
            b"QGC WPL 120\n\xff",
            WplFault::Text(TextFault::NotAscii(12)),
        ),
        (b"", WplFault::Header),
        (b"QGC WPL 120\n", WplFault::Header),
        (
            b"QGC WPL 110\n\n0 1 0 16 0 0 0 0 0 0 0 1",
            WplFault::FieldCount(2),
        ),
        (
            b"QGC WPL 110\n0 1 0 16 0 0 0 0 0 0 0 1\n1 0 0 16 0 0 0 0 0 0 0",
            WplFault::FieldCount(3),
        ),
        (
            b"QGC WPL 110\n-0 1 0 16 0 0 0 0 0 0 0 1",
            WplFault::BadWhole(2, 1),
        ),
        (
            b"QGC WPL 110\n0 1 256 65536 0 0 0 0 0 0 0 1",
            WplFault::BadWhole(2, 3),
        ),
        (
            b"QGC WPL 110\n0 1 0 00000000016 0 0 0 0 0 0 0 1",
            WplFault::BadWhole(2, 4),
        ),
        (
            b"QGC WPL 110\n0 1 0 65536 0 0 0 0 0 0 0 1",
            WplFault::BadWhole(2, 4),
        ),
        (
            b"QGC WPL 110\n0 256 0 16 0 0 0 0 0 0 0 1",
            WplFault::BadWhole(2, 2),
        ),
        (
            b"QGC WPL 110\n0 1 0 16 0 0 0 0 0 0 0 256",
            WplFault::BadWhole(2, 12),
        ),
        (
            b"QGC WPL 110\n0 1 0 16 0 0 0 0 0 0 0 1\n2 x 0 16 0 0 0 0 0 0 0 1",
            WplFault::BadIndex(3),
        ),
        (
            b"QGC WPL 110\n0 1 0 16 1.5.2 - 0 0 0 0 0 1",
            WplFault::Num(2, 5, NumFault::BadDigit(3)),
        ),
        (
            b"QGC WPL 110\n0 1 0 16 0 0 0 - 0 0 0 1",
            WplFault::Num(2, 8, NumFault::BadDigit(1)),
        ),
        (
            b"QGC WPL 110\n0 1 0 16 0 0 0 0 nan 0 0 1",
            WplFault::Num(2, 9, NumFault::BadDigit(0)),
        ),
        (
            b"QGC WPL 110\n0 1 0 16 0 0 0 0 0 214.74836475 0 1",
            WplFault::Num(2, 10, NumFault::OutOfRange),
        ),
    ];
    for (text, fault) in rows {
        assert!(rt; text.len() <= MAX_TEXT_BYTES);
        assert!(rt;
            matches!(read_wpl(rt.alloc(), text), Err(found) if found == fault),
            "{fault}"
        );
    }
}

#[test]
fn most_rows(rt: HostRuntime) -> Result<(), Fail> {
    let mut items = Vec::new(rt.alloc());
    for _ in 0..4096 {
        items.push(WAYPOINT)?;
    }
    let text = write_wpl(rt.alloc(), &items)?;
    assert!(rt; text.len() <= MAX_TEXT_BYTES);
    let found = read_wpl(rt.alloc(), &text)
        .ok()
        .ok_or("the text is a plan")?;
    assert!(rt; found.as_slice() == items.as_slice());
    items.push(WAYPOINT)?;
    let text = write_wpl(rt.alloc(), &items)?;
    assert!(rt; text.len() <= MAX_TEXT_BYTES);
    assert!(rt; matches!(read_wpl(rt.alloc(), &text), Err(WplFault::TooMany(4098))));
    Ok(())
}
