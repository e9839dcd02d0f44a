//! Each fault at each place where it can stand.

use crate::fault::ScriptFault;
use crate::tests::{HEAD, PLAIN, judged};
use first_num::NumFault;
use first_text::TextFault;
use first_wpl::WplFault;
use std::alloc::AllocError;
use std::test::*;

/// A plan with a takeoff, and a boot at line 6.
const UNPLAIN: &[u8] =
    b"px4 script 1\nplan t mission\nQGC WPL 110\n0 1 3 22 0 0 0 0 47 8 10 1\nend\nboot\n";

/// A parameter, and a boot at line 3.
const WITH_PARAM: &[u8] = b"px4 script 1\nparam RTL_TYPE 1\nboot\n";

#[test]
fn faults_of_the_first_lines(rt: HostRuntime) -> Result<(), AllocError> {
    let rows: [(&[u8], u32, ScriptFault); 11] = [
        (b"", 1, ScriptFault::Unfinished),
        (b"\n \t\n# px4 script 1\n", 4, ScriptFault::Unfinished),
        (b"px4 script 1", 2, ScriptFault::Unfinished),
        (b"px4 script\n", 1, ScriptFault::Unknown),
        (b"\n#\npx4 script 1 x\n", 3, ScriptFault::Unknown),
        (b"px4 script 01\n", 1, ScriptFault::Unknown),
        (b"boot\n", 1, ScriptFault::Unknown),
        (b"px4 script 1\r\npx4 script 1\r\n", 2, ScriptFault::Unknown),
        (
            b"frob\nab\xff\n",
            2,
            ScriptFault::Text(TextFault::NotAscii(7)),
        ),
        (b"frob\n\x80", 2, ScriptFault::Text(TextFault::NotAscii(5))),
        (
            b"frob\n\n\xc3\n",
            3,
            ScriptFault::Text(TextFault::NotAscii(6)),
        ),
    ];
    for (text, line, fault) in rows {
        assert_eq!(rt; judged(rt.alloc(), text, b"")?, Some((line, fault)));
    }
    let mut long = Vec::new(rt.alloc());
    for _ in 0..513 {
        long.push(b'#')?;
    }
    assert_eq!(rt;
        judged(rt.alloc(), b"frob\n", &long)?,
        Some((2, ScriptFault::Text(TextFault::LongLine(2))))
    );
    Ok(())
}

/// A line of the head and its fault.
static IN_THE_HEAD: [(&[u8], ScriptFault); 34] = [
    (b"frob", ScriptFault::Unknown),
    (b"end", ScriptFault::Unknown),
    (b"nav wait", ScriptFault::Unknown),
    (b"param FROB 1 2", ScriptFault::Unknown),
    (b"param", ScriptFault::Words),
    (b"param TKO_LAND", ScriptFault::Words),
    (b"param TKO_LAND x y", ScriptFault::Words),
    (b"param TKO_LAND 5", ScriptFault::Number(3)),
    (b"param TKO_LAND -1", ScriptFault::Number(3)),
    (b"param RTL_TYPE 3", ScriptFault::Number(3)),
    (b"param TAKEOFF_MIN -0.001", ScriptFault::Number(3)),
    (b"param MAX_ALT 1e9", ScriptFault::Number(3)),
    (b"param MAX_ALT x", ScriptFault::Number(3)),
    (b"param DIST_1WP 900", ScriptFault::Distance),
    (b"param DIST_WPS -5", ScriptFault::Distance),
    (b"param DIST_WPS 1.2.3", ScriptFault::Number(3)),
    (b"param DIST_1WP", ScriptFault::Words),
    (b"home 47 8", ScriptFault::Words),
    (b"home 90.0000001 x x", ScriptFault::Number(2)),
    (b"home 90 180.0000001 x", ScriptFault::Number(3)),
    (b"home 90 180 100000.001", ScriptFault::Number(4)),
    (b"home -90 -180 -10000.001", ScriptFault::Number(4)),
    (b"plan", ScriptFault::Words),
    (b"plan a", ScriptFault::Words),
    (b"plan a frob x y", ScriptFault::Unknown),
    (b"plan A mission frob x", ScriptFault::Unknown),
    (b"plan A mission home-first x", ScriptFault::Words),
    (b"plan A mission", ScriptFault::Name),
    (b"plan a.b fence", ScriptFault::Name),
    (b"plan abcdefghijklmnopq safe", ScriptFault::Name),
    (b"boot frob x", ScriptFault::Unknown),
    (b"boot cut 3 slow x", ScriptFault::Unknown),
    (b"boot cut", ScriptFault::NotYet),
    (b"boot cut-read 0 fill XX", ScriptFault::NotYet),
];

#[test]
fn faults_of_the_head(rt: HostRuntime) -> Result<(), AllocError> {
    for &(line, fault) in &IN_THE_HEAD {
        assert_eq!(rt; judged(rt.alloc(), HEAD, line)?, Some((2, fault)));
    }
    Ok(())
}

/// Lines behind the first, and the line and kind of their fault.
static IN_PLANS: [(&[u8], u32, ScriptFault); 9] = [
    (
        b"plan a mission\nQGC WPL 120\nend",
        2,
        ScriptFault::Plan(WplFault::Header),
    ),
    (
        b"plan a mission\nend\n",
        2,
        ScriptFault::Plan(WplFault::Header),
    ),
    (
        b"plan a mission\nQGC WPL 110\n0 1 0 16 0 0 0 0 47 8 10 1\n1 0 0 16 0 0 0 0 47 8 10\n end \n",
        2,
        ScriptFault::Plan(WplFault::FieldCount(3)),
    ),
    (
        b"# notes\nplan a safe\nQGC WPL 110\n0 1 0 5100 0 0 0 0 1.5.2 8 10 1\nend\n",
        3,
        ScriptFault::Plan(WplFault::Num(2, 9, NumFault::BadDigit(3))),
    ),
    (
        b"plan a mission\nQGC WPL 110\n\n0 1 0 16 0 0 0 0 47 8 10 1\nend\n",
        2,
        ScriptFault::Plan(WplFault::FieldCount(2)),
    ),
    (
        b"plan a mission\nQGC WPL 120\nboot\n",
        5,
        ScriptFault::Unfinished,
    ),
    (b"plan A mission\nQGC WPL 120\n", 2, ScriptFault::Name),
    (
        b"plan a fence\nQGC WPL 110\nend\nplan a safe\nQGC WPL 120\nend\n",
        5,
        ScriptFault::Name,
    ),
    (
        b"plan a fence\nQGC WPL 110\nend\n",
        5,
        ScriptFault::Unfinished,
    ),
];

#[test]
fn faults_of_plans(rt: HostRuntime) -> Result<(), AllocError> {
    for &(text, line, fault) in &IN_PLANS {
        assert_eq!(rt; judged(rt.alloc(), HEAD, text)?, Some((line, fault)));
    }
    Ok(())
}

/// A line behind a boot and its fault.
static BEHIND_A_BOOT: [(&[u8], ScriptFault); 50] = [
    (b"plan q mission", ScriptFault::Unknown),
    (b"param TKO_LAND 1", ScriptFault::Unknown),
    (b"boot", ScriptFault::NotYet),
    (b"boot cut 2 front 9", ScriptFault::NotYet),
    (b"boot cut 2 slow", ScriptFault::Unknown),
    (b"link", ScriptFault::Words),
    (b"link 0", ScriptFault::Words),
    (b"link 0 frob x", ScriptFault::Unknown),
    (b"link 1 frob", ScriptFault::Unknown),
    (b"link 1", ScriptFault::NotYet),
    (b"link 7 wait x", ScriptFault::NotYet),
    (b"link 8 wait x", ScriptFault::Words),
    (b"link 8 wait", ScriptFault::Number(2)),
    (b"link x count mission 1", ScriptFault::Number(2)),
    (b"link x frob", ScriptFault::Unknown),
    (b"link 9 count frob 1", ScriptFault::Unknown),
    (b"link 8 upload q", ScriptFault::Number(2)),
    (b"link 0 count frob", ScriptFault::Unknown),
    (b"link 0 clear none x", ScriptFault::Unknown),
    (b"link 0 count all", ScriptFault::NotYet),
    (b"link 0 clear all", ScriptFault::NotYet),
    (b"link 0 item 0 q 0", ScriptFault::NotYet),
    (b"link 0 set-current 1", ScriptFault::NotYet),
    (b"link 0 cancel", ScriptFault::NotYet),
    (b"link 0 timeout", ScriptFault::NotYet),
    (b"link 0 upload", ScriptFault::Words),
    (b"link 0 upload q x", ScriptFault::Words),
    (b"link 0 upload q", ScriptFault::Name),
    (b"link 0 meet 0", ScriptFault::Words),
    (b"link 0 meet 16 0", ScriptFault::Number(4)),
    (b"link 0 meet 15 0", ScriptFault::Number(5)),
    (b"link 0 meet 0 256", ScriptFault::Number(5)),
    (b"link 0 meet 0 00000000001", ScriptFault::Number(5)),
    (b"nav", ScriptFault::Words),
    (b"nav frob x", ScriptFault::Unknown),
    (b"nav mode", ScriptFault::Words),
    (b"nav mode frob", ScriptFault::Unknown),
    (b"nav mode hold x", ScriptFault::Words),
    (b"nav mode return x", ScriptFault::NotYet),
    (b"nav position", ScriptFault::NotYet),
    (b"nav go x", ScriptFault::Words),
    (b"nav meet 16 1", ScriptFault::Number(3)),
    (b"nav meet 0 0", ScriptFault::Number(4)),
    (b"watch 0 frob 1 0 0", ScriptFault::Unknown),
    (b"watch", ScriptFault::NotYet),
    (b"watch 9 do 1", ScriptFault::NotYet),
    (b"turns", ScriptFault::Words),
    (b"turns w l8", ScriptFault::Unknown),
    (b"turns l1 v4", ScriptFault::Unknown),
    (b"turns w n l0 v3", ScriptFault::NotYet),
];

#[test]
fn faults_behind_a_boot(rt: HostRuntime) -> Result<(), AllocError> {
    for &(line, fault) in &BEHIND_A_BOOT {
        assert_eq!(rt; judged(rt.alloc(), PLAIN, line)?, Some((7, fault)));
    }
    Ok(())
}

/// Events and uploads that are built later, beside parameters and plans that are not plain.
#[test]
fn forms_beside_what_is_built_later(rt: HostRuntime) -> Result<(), AllocError> {
    let rows: [(&[u8], &[u8], Option<(u32, ScriptFault)>); 9] = [
        (
            UNPLAIN,
            b"link 0 upload t x",
            Some((7, ScriptFault::NotYet)),
        ),
        (UNPLAIN, b"nav go x", Some((7, ScriptFault::NotYet))),
        (UNPLAIN, b"nav mode", Some((7, ScriptFault::NotYet))),
        (UNPLAIN, b"nav", Some((7, ScriptFault::Words))),
        (UNPLAIN, b"nav meet 0 2\nnav wait\nlink 0 wait\n", None),
        (WITH_PARAM, b"nav tick", Some((4, ScriptFault::NotYet))),
        (WITH_PARAM, b"nav mode hold", Some((4, ScriptFault::NotYet))),
        (WITH_PARAM, b"nav wait", None),
        (HEAD, b"home 47 8 0\nparam DIST_1WP -0.0001\nboot", None),
    ];
    for (before, after, want) in rows {
        assert_eq!(rt; judged(rt.alloc(), before, after)?, want);
    }
    Ok(())
}
