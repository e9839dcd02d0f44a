//! Flights: worked records, and a mission of the greatest length.

use crate::tests::flown;
use first_model::{Line, NavEntry, NavWhat};
use std::alloc::{AllocError, Global};
use std::fmt::Write;
use std::process::Abort;
use std::test::Fail;

/// A script of one plan of one row and a second of another, with these inputs and turns.
pub const NEW_PLAN: &[u8] =
    b"px4 script 1\nplan a mission\nQGC WPL 110\n0 1 0 16 0 0 0 0 47 8 10 1\nend\nplan b mission\nQGC WPL 110\n0 1 0 16 0 0 0 0 48 9 20 1\nend\nboot\nlink 0 upload a\nlink 0 upload b\nnav mode mission\nnav tick\nnav go\nturns l0 l0 w w l0 w w l0 l0 l0 w w l0 n n\n";

pub const NEW_PLAN_RECORD: &[u8] =
    b"boot 1 mission 0/0 fence 0/0 safe 0/0 at 0\nlink 0 count mission 1 > request 0\nlink 0 item 0 > write mission 1/0 0 16 0 0 0 0 470000000 80000000 10000 1\nworker takes link 0 write mission 1/0\nworker serves link 0 done\nlink 0 hears done > commit mission 1/1\nworker takes link 0 commit mission 1/1\nworker serves link 0 done\nlink 0 hears done > ack 0\nlink 0 count mission 1 > request 0\nlink 0 item 0 > write mission 2/0 0 16 0 0 0 0 480000000 90000000 20000 1\nworker takes link 0 write mission 2/0\nworker serves link 0 done\nlink 0 hears done > commit mission 2/1\nnav mode mission > taken asks 0\nnav tick > pending mission 0 asks 1\nworker takes link 0 commit mission 2/1\nnav go > pending mission 0 asks 0\nworker serves link 0 done\nlink 0 hears done > ack 0\nworker takes nav read mission 1/0\nworker serves nav stale 2\nnav got read mission 1/0 stale 2\nnav go > pending mission 0 asks 1\nworker takes nav read mission 2/0\nworker serves nav item 0 16 0 0 0 0 480000000 90000000 20000 1\nnav got read mission 2/0 item 0 16 0 0 0 0 480000000 90000000 20000 1\nnav go > leg 0 mission 2 fence 0 0 16 0 0 0 0 480000000 90000000 20000 1 asks 0\nend\n";

pub const ASKED_ONCE: &[u8] =
    b"px4 script 1\nplan a mission\nQGC WPL 110\n0 1 0 16 0 0 0 0 47 8 10 1\nend\nboot\nlink 0 upload a\nnav mode mission\nnav tick\nnav tick\nturns l0 l0 w w l0 w w l0 n n w n\n";

pub const ASKED_ONCE_RECORD: &[u8] =
    b"boot 1 mission 0/0 fence 0/0 safe 0/0 at 0\nlink 0 count mission 1 > request 0\nlink 0 item 0 > write mission 1/0 0 16 0 0 0 0 470000000 80000000 10000 1\nworker takes link 0 write mission 1/0\nworker serves link 0 done\nlink 0 hears done > commit mission 1/1\nworker takes link 0 commit mission 1/1\nworker serves link 0 done\nlink 0 hears done > ack 0\nnav mode mission > taken asks 0\nnav tick > pending mission 0 asks 1\nworker takes nav read mission 1/0\nnav tick > pending mission 0 asks 0\nworker serves nav item 0 16 0 0 0 0 470000000 80000000 10000 1\nnav got read mission 1/0 item 0 16 0 0 0 0 470000000 80000000 10000 1\nend\n";

pub const MEETING: &[u8] = b"px4 script 1\nboot\nnav meet 3 2\n";

pub const MEETING_RECORD: &[u8] =
    b"boot 1 mission 0/0 fence 0/0 safe 0/0 at 0\nnav arrives 3\nstuck\n";

/// The link and the Navigator meet once the mission is committed, and it is flown to its end.
pub const TWO_LEGS: &[u8] =
    b"px4 script 1\nplan p mission\nQGC WPL 110\n0 1 0 16 0 0 0 0 47 8 10 1\n1 0 0 16 0 0 0 0 48 9 20 1\nend\nboot\nlink 0 upload p\nlink 0 meet 0 2\nnav meet 0 2\nnav mode mission\nnav go\nnav reached\nnav go\nnav reached\nnav go\n";

pub const TWO_LEGS_RECORD: &[u8] =
    b"boot 1 mission 0/0 fence 0/0 safe 0/0 at 0\nlink 0 count mission 2 > request 0\nnav arrives 0\nlink 0 item 0 > write mission 1/0 0 16 0 0 0 0 470000000 80000000 10000 1\nworker takes link 0 write mission 1/0\nworker serves link 0 done\nlink 0 hears done > request 1\nlink 0 item 1 > write mission 1/1 0 16 0 0 0 0 480000000 90000000 20000 1\nworker takes link 0 write mission 1/1\nworker serves link 0 done\nlink 0 hears done > commit mission 1/2\nworker takes link 0 commit mission 1/2\nworker serves link 0 done\nlink 0 hears done > ack 0\nlink 0 arrives 0\nnav meets 0\nlink 0 meets 0\nnav mode mission > taken asks 0\nnav go > pending mission 0 asks 2\nworker takes nav read mission 1/0\nworker serves nav item 0 16 0 0 0 0 470000000 80000000 10000 1\nnav got read mission 1/0 item 0 16 0 0 0 0 470000000 80000000 10000 1\nworker takes nav read mission 1/1\nworker serves nav item 0 16 0 0 0 0 480000000 90000000 20000 1\nnav got read mission 1/1 item 0 16 0 0 0 0 480000000 90000000 20000 1\nnav go > leg 0 mission 1 fence 0 0 16 0 0 0 0 470000000 80000000 10000 1 asks 0\nnav reached > next 1 asks 0\nnav go > leg 1 mission 1 fence 0 0 16 0 0 0 0 480000000 90000000 20000 1 asks 0\nnav reached > next 2 asks 0\nnav go > done mission 1 fence 0 asks 0\nend\n";

pub const ONE_LEG: &[u8] =
    b"px4 script 1\nplan p mission\nQGC WPL 110\n0 1 0 16 0 0 0 0 47 8 10 1\nend\nboot\nlink 0 upload p\nlink 0 meet 0 2\nnav meet 0 2\nnav mode mission\nnav go\nnav reached\nnav go\n";

pub const ONE_LEG_RECORD: &[u8] =
    b"boot 1 mission 0/0 fence 0/0 safe 0/0 at 0\nlink 0 count mission 1 > request 0\nnav arrives 0\nlink 0 item 0 > write mission 1/0 0 16 0 0 0 0 470000000 80000000 10000 1\nworker takes link 0 write mission 1/0\nworker serves link 0 done\nlink 0 hears done > commit mission 1/1\nworker takes link 0 commit mission 1/1\nworker serves link 0 done\nlink 0 hears done > ack 0\nlink 0 arrives 0\nnav meets 0\nlink 0 meets 0\nnav mode mission > taken asks 0\nnav go > pending mission 0 asks 1\nworker takes nav read mission 1/0\nworker serves nav item 0 16 0 0 0 0 470000000 80000000 10000 1\nnav got read mission 1/0 item 0 16 0 0 0 0 470000000 80000000 10000 1\nnav go > leg 0 mission 1 fence 0 0 16 0 0 0 0 470000000 80000000 10000 1 asks 0\nnav reached > next 1 asks 0\nnav go > done mission 1 fence 0 asks 0\nend\n";

/// The Navigator waits for the reply to its read.
pub const WAITED: &[u8] =
    b"px4 script 1\nplan a mission\nQGC WPL 110\n0 1 0 16 0 0 0 0 47 8 10 1\nend\nboot\nlink 0 upload a\nnav mode mission\nnav tick\nnav wait\nturns l0 l0 w w l0 w w l0 n n\n";

pub const WAITED_RECORD: &[u8] =
    b"boot 1 mission 0/0 fence 0/0 safe 0/0 at 0\nlink 0 count mission 1 > request 0\nlink 0 item 0 > write mission 1/0 0 16 0 0 0 0 470000000 80000000 10000 1\nworker takes link 0 write mission 1/0\nworker serves link 0 done\nlink 0 hears done > commit mission 1/1\nworker takes link 0 commit mission 1/1\nworker serves link 0 done\nlink 0 hears done > ack 0\nnav mode mission > taken asks 0\nnav tick > pending mission 0 asks 1\nworker takes nav read mission 1/0\nworker serves nav item 0 16 0 0 0 0 470000000 80000000 10000 1\nnav got read mission 1/0 item 0 16 0 0 0 0 470000000 80000000 10000 1\nnav waits\nend\n";

#[test]
fn flies_scripts_to_their_records(rt: HostRuntime) -> Result<(), Fail> {
    for (script, record) in [
        (NEW_PLAN, NEW_PLAN_RECORD),
        (ASKED_ONCE, ASKED_ONCE_RECORD),
        (MEETING, MEETING_RECORD),
        (TWO_LEGS, TWO_LEGS_RECORD),
        (ONE_LEG, ONE_LEG_RECORD),
        (WAITED, WAITED_RECORD),
    ] {
        let (outcome, held) = flown(rt.alloc(), &["replay"], script, &[], &[])?;
        assert_eq!(rt; outcome.status.number(), 0);
        assert!(rt; held.as_slice() == record);
    }
    Ok(())
}

/// A script that uploads a mission of so many rows and flies it to its end. Row k is at latitude k modulo 90.
fn long_script(alloc: Global, rows: i32) -> Result<String, AllocError> {
    let mut text = String::from_str(alloc, "px4 script 1\nplan long mission\nQGC WPL 110\n")?;
    for k in 0..rows {
        let x = k % 90;
        writeln!(text, "{k} 0 0 16 0 0 0 0 {x} 8 10 1")?;
    }
    text.push_str(
        "end\nboot\nlink 0 upload long\nlink 0 meet 0 2\nnav meet 0 2\nnav mode mission\n",
    )?;
    for _ in 0..rows {
        text.push_str("nav go\nnav reached\n")?;
    }
    text.push_str("nav go\n")?;
    Ok(text)
}

/// What a record told of legs so far.
#[derive(Drop)]
struct Legs {
    count: u16,
    done: bool,
}

/// A leg is the next one, of the one mission, to its own latitude; done comes after the last.
fn expect_next(rt: &impl Abort, legs: &mut Legs, what: &NavWhat) {
    match what {
        NavWhat::Leg {
            seq,
            mission,
            item,
            ..
        } => {
            assert_eq!(rt; *seq, legs.count);
            assert_eq!(rt; *mission, 1);
            assert_eq!(rt; item.x, i32::from(legs.count % 90) * 10_000_000);
            assert!(rt; legs.count < 500);
            legs.count += 1;
        }
        NavWhat::Done { .. } => {
            assert_eq!(rt; legs.count, 500);
            legs.done = true;
        }
        _ => {}
    }
}

#[test]
fn flies_a_mission_of_the_greatest_length(rt: HostRuntime) -> Result<(), Fail> {
    let text = long_script(rt.alloc(), 500)?;
    let (outcome, _) = flown(rt.alloc(), &["replay"], text.as_bytes(), &[], &[])?;
    assert_eq!(rt; outcome.status.number(), 0);
    let mut legs = Legs {
        count: 0,
        done: false,
    };
    for line in &outcome.lines {
        if let Line::Nav {
            entry: NavEntry { what, .. },
            ..
        } = line
        {
            expect_next(&rt, &mut legs, what);
        }
    }
    assert!(rt; legs.done);
    assert!(rt; matches!(outcome.lines.last(), Some(Line::End)));
    Ok(())
}
