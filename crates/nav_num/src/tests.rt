//! Worked numbers, read and printed, and where tokens break off.

use super::{NumFault, print_scaled, read_scaled, read_whole};

/// 64 bytes: a point, zeros and a 5, and a power of ten that makes it 5.
const LONG_POWER: &[u8] = b"0.000000000000000000000000000000000000000000000000000000005e+057";

#[test]
fn reads_worked_numbers(rt: HostRuntime) {
    let rows: [(&[u8], u8, Result<i32, NumFault>); 45] = [
        (b"47.3759999999999977", 7, Ok(473_760_000)),
        (b"-0.00000005", 7, Ok(-1)),
        (b"0.00000004", 7, Ok(0)),
        (b"0.00000005", 7, Ok(1)),
        (b"0.00000014999", 7, Ok(1)),
        (b"214.74836474", 7, Ok(2_147_483_647)),
        (b"214.74836475", 7, Err(NumFault::OutOfRange)),
        (b"-214.74836484", 7, Ok(-2_147_483_648)),
        (b"-214.74836485", 7, Err(NumFault::OutOfRange)),
        (b"0.149999999999999994", 3, Ok(150)),
        (b"1e3", 3, Ok(1_000_000)),
        (b"1E+3", 3, Ok(1_000_000)),
        (b"+1.000e003", 3, Ok(1_000_000)),
        (b"1500e-6", 3, Ok(2)),
        (b"-1500e-6", 3, Ok(-2)),
        (b"1499e-6", 3, Ok(1)),
        (b".5", 0, Ok(1)),
        (b"5.", 0, Ok(5)),
        (b"-.5e0", 0, Ok(-1)),
        (b"-0", 9, Ok(0)),
        (
            b"0e999999999999999999999999999999999999999999999999999999999999",
            9,
            Ok(0),
        ),
        (
            b"5e-9999999999999999999999999999999999999999999999999999999999",
            9,
            Ok(0),
        ),
        (
            b"1e9999999999999999999999999999999999999999999999999999999999",
            0,
            Err(NumFault::OutOfRange),
        ),
        (
            b"1e00000000000000000000000000000000000000000000000000000000001",
            0,
            Ok(10),
        ),
        (LONG_POWER, 0, Ok(5)),
        (
            b"1000000000000000000000000000000000000000000000000000000000e-57",
            0,
            Ok(1),
        ),
        (
            b"4999999999999999999999999999999999999999999999999999999999e-58",
            0,
            Ok(0),
        ),
        (
            b"5000000000000000000000000000000000000000000000000000000000e-58",
            0,
            Ok(1),
        ),
        (
            b"0000000000000000000000000000000000000000000000000000000000000000",
            0,
            Ok(0),
        ),
        (
            b"00000000000000000000000000000000000000000000000000000000000000000",
            0,
            Err(NumFault::TooLong),
        ),
        (b"", 7, Err(NumFault::Empty)),
        (b"1.5.2", 3, Err(NumFault::BadDigit(3))),
        (b"-", 3, Err(NumFault::BadDigit(1))),
        (b".", 3, Err(NumFault::BadDigit(1))),
        (b"+.e1", 3, Err(NumFault::BadDigit(2))),
        (b"e1", 3, Err(NumFault::BadDigit(0))),
        (b"--1", 3, Err(NumFault::BadDigit(1))),
        (b"1-", 3, Err(NumFault::BadDigit(1))),
        (b"1e", 3, Err(NumFault::BadDigit(2))),
        (b"1e+", 3, Err(NumFault::BadDigit(3))),
        (b"1e+-1", 3, Err(NumFault::BadDigit(3))),
        (b"1e5.", 3, Err(NumFault::BadDigit(3))),
        (b" 1", 3, Err(NumFault::BadDigit(0))),
        (b"nan", 3, Err(NumFault::BadDigit(0))),
        (b"99999999999", 0, Err(NumFault::OutOfRange)),
    ];
    for (token, scale, want) in rows {
        assert!(rt; scale <= 9);
        assert_eq!(rt; read_scaled(token, scale), want);
    }
}

#[test]
fn reads_whole_numbers(rt: HostRuntime) {
    let rows: [(&[u8], u32, u32, Result<u32, NumFault>); 18] = [
        (b"0", 0, 255, Ok(0)),
        (b"255", 0, 255, Ok(255)),
        (b"256", 0, 255, Err(NumFault::OutOfRange)),
        (b"0", 1, 255, Err(NumFault::OutOfRange)),
        (b"0000000007", 1, 255, Ok(7)),
        (b"4294967295", 1, 4_294_967_295, Ok(4_294_967_295)),
        (b"4294967296", 0, 4_294_967_295, Err(NumFault::OutOfRange)),
        (b"9999999999", 0, 4_294_967_295, Err(NumFault::OutOfRange)),
        (b"00000000007", 0, 255, Err(NumFault::TooLong)),
        (b"-0000000007", 0, 255, Err(NumFault::TooLong)),
        (b"", 0, 255, Err(NumFault::Empty)),
        (b"-7", 0, 255, Err(NumFault::BadDigit(0))),
        (b"+7", 0, 255, Err(NumFault::BadDigit(0))),
        (b"7 ", 0, 255, Err(NumFault::BadDigit(1))),
        (b"7.0", 0, 255, Err(NumFault::BadDigit(1))),
        (b"1e3", 0, 255, Err(NumFault::BadDigit(1))),
        (b"12:", 0, 255, Err(NumFault::BadDigit(2))),
        (b"/9", 0, 255, Err(NumFault::BadDigit(0))),
    ];
    for (token, least, greatest, want) in rows {
        assert_eq!(rt; read_whole(token, least, greatest), want);
    }
}

#[test]
fn prints_worked_numbers(rt: HostRuntime) {
    let rows: [(i32, u8, &[u8]); 12] = [
        (473_760_000, 7, b"47.376"),
        (-1, 7, b"-0.0000001"),
        (0, 7, b"0"),
        (1_000_000, 3, b"1000"),
        (150, 3, b"0.15"),
        (-2_147_483_648, 7, b"-214.7483648"),
        (2_147_483_647, 0, b"2147483647"),
        (-2_147_483_648, 9, b"-2.147483648"),
        (100, 0, b"100"),
        (-10, 1, b"-1"),
        (9, 9, b"0.000000009"),
        (1_000_000_005, 9, b"1.000000005"),
    ];
    for (value, scale, want) in rows {
        let mut text = Vec::new(rt.alloc());
        text.push(b'=').expect(&rt, "memory");
        print_scaled(&mut text, value, scale).expect(&rt, "memory");
        assert_eq!(rt; &text[1..], want);
        assert_eq!(rt; read_scaled(&text[1..], scale), Ok(value));
    }
}
