//! A download between two positions: the breach watch keeps its fence, and each reply goes to the part that reads.

use super::*;
use mission_model::PlanType;

/// The mission is empty, and so is the fence; two safe points are published.
const HEADS: [PlanHead; 3] = [
    PlanHead { id: 7, count: 0 },
    PlanHead { id: 8, count: 0 },
    PlanHead { id: 9, count: 2 },
];

/// What the watcher answers to an input of this code.
fn begun(watch: &mut FlightWatch, code: u16, a: i32, b: i32) -> WatchOut {
    watch.work(&WatchInput { code, a, b }, HEADS)
}

#[test]
fn inputs_go_by_their_code(rt: HostRuntime) {
    let mut watch = FlightWatch::new();
    let out = begun(&mut watch, 2, 473_000_000, 80_000_000);
    assert_eq!(rt;
        (out.note.code, out.note.a, out.note.x, out.note.y),
        (200, 8, 473_000_000, 80_000_000)
    );
    assert!(rt; out.read.is_none() && !out.more);
    let out = begun(&mut watch, 1, 2, 0);
    assert_eq!(rt; (out.note.code, out.note.a, out.note.b), (100, 9, 2));
    assert!(rt; out.read == Some((PlanType::Safe, 9, 0)) && out.more);
    let out = begun(&mut watch, 3, 2, 0);
    assert_eq!(rt; (out.note.code, out.note.a, out.note.b), (0, 0, 0));
    assert!(rt; out.read.is_none() && !out.more);
}
