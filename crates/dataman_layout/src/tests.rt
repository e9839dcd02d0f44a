// Records written out byte by byte, each way out of their grammars, and the limits at both edges.
use crate::Layout::{One, Two};
use crate::places::{
    COMPAT_AT, RECORD_BYTES, SMALL_SLOT_BYTES, bank_at, mark_at, mark_slot_bytes, record_at,
    state_at,
};
use crate::{
    Layout, Record, decode_compat, decode_item, decode_mark, decode_mark_one, decode_state,
    decode_state_one, encode_compat, encode_item, encode_mark, encode_state, layout_of, limit_in,
    version_in, version_of,
};
use mission_model::Param::{Milli, Unset};
use mission_model::PlanType::{Fence, Mission, Safe};
use mission_model::{Counts, Item, Mark, PlanHead, PlanType};

/// A waypoint with all parameters 0.
const WAYPOINT: Item = Item {
    frame: 3,
    command: 16,
    p1: Milli(0),
    p2: Milli(0),
    p3: Milli(0),
    p4: Milli(0),
    x: 473_760_000,
    y: 85_500_000,
    z: 10_000,
    auto: true,
};

const WAYPOINT_BYTES: [u8; 48] = [
    0x01, 0, 0, 0, 0, 0, 0, 0x1F, 0x03, 0, 0x10, 0, // the plan's id, seq, kind, flags, frame, command
    0, 0, 0, 0, 0, 0, 0, 0, 0, 0, 0, 0, 0, 0, 0, 0, // param1 to param4
    0x00, 0x01, 0x3D, 0x1C, 0x60, 0xA0, 0x18, 0x05, 0x10, 0x27, 0, 0, // x, y, z
    0, 0, 0, 0, 0, 0, 0, 0,
];

/// Each field at an edge of its type, and each number's bytes told apart.
const EDGES: Item = Item {
    frame: 65_535,
    command: 258,
    p1: Milli(i32::MIN),
    p2: Milli(i32::MAX),
    p3: Unset,
    p4: Milli(-2),
    x: -1,
    y: 67_305_985,
    z: i32::MIN,
    auto: false,
};

const EDGES_BYTES: [u8; 48] = [
    0xFF, 0xFE, 0xFD, 0xFC, 0x34, 0x12, 0x02, 0x16, 0xFF, 0xFF, 0x02, 0x01, //
    0, 0, 0, 0x80, 0xFF, 0xFF, 0xFF, 0x7F, 0, 0, 0, 0, 0xFE, 0xFF, 0xFF, 0xFF, //
    0xFF, 0xFF, 0xFF, 0xFF, 0x01, 0x02, 0x03, 0x04, 0, 0, 0, 0x80, //
    0, 0, 0, 0, 0, 0, 0, 0,
];

fn waypoint() -> Record {
    Record {
        kind: Mission,
        id: 1,
        seq: 0,
        item: WAYPOINT,
    }
}

fn edges() -> Record {
    Record {
        kind: Safe,
        id: 0xFCFD_FEFF,
        seq: 0x1234,
        item: EDGES,
    }
}

#[test]
fn items_are_written_and_read(rt: HostRuntime) {
    for (record, bytes) in [(waypoint(), WAYPOINT_BYTES), (edges(), EDGES_BYTES)] {
        let written = encode_item(record.kind, record.id, record.seq, &record.item);
        assert_eq!(rt; written, bytes);
        assert_eq!(rt; decode_item(&bytes), Some(record));
    }
}

/// One byte of a record changed.
fn item_with(bytes: [u8; 48], place: usize, byte: u8) -> [u8; 48] {
    let mut changed = bytes;
    if place < 48 {
        changed[place] = byte;
    }
    changed
}

#[test]
fn other_bytes_are_no_item(rt: HostRuntime) {
    // A place of the edge item, and the byte there.
    let rows = [
        (6, 3),
        (6, 255),
        (7, 0x36),
        (7, 0x56),
        (7, 0x96),
        // the flag of a parameter that is not 0 is missing
        (7, 0x14),
        (7, 0x12),
        (7, 0x06),
        // a number of the parameter that is not set
        (20, 1),
        (23, 0x80),
        (40, 1),
        (43, 128),
        (47, 1),
    ];
    for (place, byte) in rows {
        let bytes = item_with(EDGES_BYTES, place, byte);
        assert_eq!(rt; decode_item(&bytes), None, "{byte} at {place}");
    }
    // The same places at the last byte that is allowed.
    for (place, byte) in [(6, 0), (6, 1), (7, 0x17), (7, 0x1E), (7, 0x1F)] {
        let bytes = item_with(EDGES_BYTES, place, byte);
        assert_ne!(rt; decode_item(&bytes), None, "{byte} at {place}");
    }
}

#[test]
fn states_are_written_and_read(rt: HostRuntime) {
    // Type, bank, id, count and bytes: a new store, its first upload, and both edges of each limit; and whether layout 1
    // reads it, too.
    let rows: [(PlanType, u8, u32, u16, [u8; 7], bool); 8] = [
        (Mission, 0, 0, 0, [0, 0, 0, 0, 0, 0, 0], true),
        (Mission, 1, 1, 1, [1, 1, 0, 0, 0, 1, 0], true),
        (
            Mission,
            1,
            u32::MAX,
            500,
            [1, 255, 255, 255, 255, 0xF4, 1],
            true,
        ),
        (Mission, 0, 7, 501, [0, 7, 0, 0, 0, 0xF5, 1], false),
        (Mission, 1, 8, 2_000, [1, 8, 0, 0, 0, 0xD0, 7], false),
        (Fence, 0, 67_305_985, 64, [0, 1, 2, 3, 4, 64, 0], true),
        (Safe, 1, 2, 32, [1, 2, 0, 0, 0, 32, 0], true),
        (Safe, 0, 2, 0, [0, 2, 0, 0, 0, 0, 0], true),
    ];
    for (kind, bank, id, count, bytes, in_one) in rows {
        let head = PlanHead { id, count };
        if bank < 2 {
            assert_eq!(rt; encode_state(bank, head), bytes);
        }
        let wanted = Some((bank, head));
        assert_eq!(rt; decode_state(kind, &bytes), wanted);
        let old = if in_one { wanted } else { None };
        assert_eq!(rt; decode_state_one(kind, &bytes), old);
    }
}

#[test]
fn other_bytes_are_no_state(rt: HostRuntime) {
    let rows: [(PlanType, [u8; 7]); 8] = [
        (Mission, [2, 1, 0, 0, 0, 1, 0]),
        (Mission, [255, 1, 0, 0, 0, 1, 0]),
        (Mission, [0, 1, 0, 0, 0, 0xD1, 7]),
        (Mission, [0, 1, 0, 0, 0, 1, 0x80]),
        (Fence, [0, 1, 0, 0, 0, 65, 0]),
        (Fence, [1, 1, 0, 0, 0, 0xF4, 1]),
        (Safe, [0, 1, 0, 0, 0, 33, 0]),
        (Safe, [1, 1, 0, 0, 0, 64, 0]),
    ];
    for (kind, bytes) in rows {
        assert_eq!(rt; decode_state(kind, &bytes), None, "{bytes:?}");
        assert_eq!(rt; decode_state_one(kind, &bytes), None, "{bytes:?}");
    }
}

/// The mark of mission 1 at item 3, with two pairs.
const MARK_FRONT: [u8; 16] = [1, 0, 0, 0, 3, 0, 2, 2, 0, 1, 0, 0x34, 0x12, 0xFF, 0xFF, 0];

/// The bytes of a mark that begins so, in layout 2.
fn mark_from(front: [u8; 16]) -> [u8; 135] {
    let mut bytes = [0; 135];
    for k in 0..16 {
        bytes[k] = front[k];
    }
    bytes
}

/// The first 71 of these bytes.
fn first_part(bytes: &[u8; 135]) -> [u8; 71] {
    let mut first = [0; 71];
    for k in 0..71 {
        first[k] = bytes[k];
    }
    first
}

fn two_jumps() -> Mark {
    let mut counts = Counts::new();
    counts.put(2, 1);
    if counts.len() < 32 {
        counts.put(0x1234, 65_535);
    }
    Mark {
        id: 1,
        index: 3,
        counts,
    }
}

#[test]
fn marks_are_written_and_read(rt: HostRuntime) {
    let none = Mark {
        id: 0xFCFD_FEFF,
        index: 0x1234,
        counts: Counts::new(),
    };
    let no_pairs = [
        0xFF, 0xFE, 0xFD, 0xFC, 0x34, 0x12, 0, 0, 0, 0, 0, 0, 0, 0, 0, 0,
    ];
    for (mark, front) in [(none, no_pairs), (two_jumps(), MARK_FRONT)] {
        let bytes = mark_from(front);
        assert_eq!(rt; encode_mark(&mark), bytes);
        assert_eq!(rt; decode_mark(&bytes), Some(mark));
        assert_eq!(rt; decode_mark_one(&first_part(&bytes)), Some(mark));
    }
}

#[test]
fn a_mark_has_so_many_pairs_at_most(rt: HostRuntime) {
    let mut bytes = [0u8; 135];
    for k in 0..32 {
        bytes[7 + 4 * k] = 10 + k as u8;
        bytes[9 + 4 * k] = 1;
    }
    bytes[6] = 32;
    match decode_mark(&bytes) {
        Some(mark) => {
            assert_eq!(rt; mark.counts.len(), 32);
            assert_eq!(rt; mark.counts.used(10), 1);
            assert_eq!(rt; mark.counts.used(41), 1);
            assert_eq!(rt; encode_mark(&mark), bytes);
        }
        None => assert!(rt; false, "32 pairs are no mark"),
    }
    bytes[6] = 33;
    assert_eq!(rt; decode_mark(&bytes), None);
    // The last pair is behind thirty-one.
    bytes[6] = 31;
    assert_eq!(rt; decode_mark(&bytes), None);
    // Layout 1 has half as many.
    let mut first = first_part(&bytes);
    first[6] = 16;
    match decode_mark_one(&first) {
        Some(mark) => {
            assert_eq!(rt; mark.counts.len(), 16);
            assert_eq!(rt; mark.counts.used(25), 1);
        }
        None => assert!(rt; false, "16 pairs are no mark of layout 1"),
    }
    first[6] = 17;
    assert_eq!(rt; decode_mark_one(&first), None);
    first[6] = 15;
    assert_eq!(rt; decode_mark_one(&first), None);
}

#[test]
fn other_bytes_are_no_mark(rt: HostRuntime) {
    // Two places of the mark with two pairs, and the bytes there.
    let rows = [
        // a pair more, which is not used, and a pair behind the last
        [(6, 3), (6, 3)],
        [(6, 1), (6, 1)],
        [(6, 33), (6, 33)],
        [(6, 255), (6, 255)],
        // a seq that is the one before it, and one below it
        [(11, 2), (12, 0)],
        [(11, 1), (12, 0)],
        [(8, 0x13), (8, 0x13)],
        // used numbers of 0
        [(9, 0), (10, 0)],
        [(13, 0), (14, 0)],
        // a byte behind the last pair
        [(15, 1), (15, 1)],
        [(18, 1), (18, 1)],
        [(70, 1), (70, 1)],
        [(134, 1), (134, 1)],
    ];
    for row in rows {
        let mut bytes = mark_from(MARK_FRONT);
        for (place, byte) in row {
            if place < 135 {
                bytes[place] = byte;
            }
        }
        assert_eq!(rt; decode_mark(&bytes), None, "{row:?}");
    }
}

#[test]
fn a_version_has_zeros_behind_it(rt: HostRuntime) {
    for (layout, version) in [(One, 1), (Two, 2)] {
        let bytes = encode_compat(version_of(layout));
        assert_eq!(rt; bytes, [version, 0, 0, 0, 0, 0, 0]);
        assert_eq!(rt; decode_compat(&bytes), Some(u32::from(version)));
        assert_eq!(rt; layout_of(u32::from(version)), Some(layout));
    }
    let other = [4, 3, 2, 1, 0, 0, 1];
    assert_eq!(rt; decode_compat(&other), None);
    assert_eq!(rt; version_in(&other), 0x0102_0304);
    for version in [0, 3, version_in(&other)] {
        assert_eq!(rt; layout_of(version), None);
    }
}

#[test]
fn places_are_those_of_the_store(rt: HostRuntime) {
    assert_eq!(rt; (COMPAT_AT, SMALL_SLOT_BYTES, RECORD_BYTES), (0, 16, 48));
    assert_eq!(rt; (mark_at(One), mark_slot_bytes(One)), (128, 80));
    assert_eq!(rt; (mark_at(Two), mark_slot_bytes(Two)), (65_632, 144));
    // Layout, type, state cell, both banks, the most items, and the last record.
    let rows: [(Layout, PlanType, u64, u64, u64, u16, u64); 6] = [
        (One, Mission, 32, 512, 24_512, 500, 48_464),
        (One, Fence, 64, 48_512, 51_584, 64, 54_608),
        (One, Safe, 96, 54_656, 56_192, 32, 57_680),
        (Two, Mission, 65_536, 66_048, 162_048, 2_000, 258_000),
        (Two, Fence, 65_568, 258_048, 261_120, 64, 264_144),
        (Two, Safe, 65_600, 264_192, 265_728, 32, 267_216),
    ];
    for (layout, kind, state, first, second, limit, last_at) in rows {
        assert_eq!(rt; state_at(layout, kind), state);
        assert_eq!(rt; bank_at(layout, kind, 0), first);
        assert_eq!(rt; bank_at(layout, kind, 1), second);
        assert_eq!(rt; record_at(layout, kind, 0, 1), first + 48);
        assert_eq!(rt; limit_in(layout, kind), limit);
        if limit > 0 {
            assert_eq!(rt; record_at(layout, kind, 1, limit - 1), last_at);
        }
    }
}
