//! Lines of scripts and what is told of each: one table, a line a row.

ghost use Rattle.std.specs.Prelude.{◌<◌, ◌≤◌};

use crate::fault::ScriptFault::{
    self, Distance, Name, Number, Plan, TooMany, Unfinished, Unknown, Words,
};
use crate::read::read_script;
use mission_model::{CutSpec, Home, Script, TearKind};
use std::alloc::{AllocError, Global};
use std::process::Abort;
use std::test::*;
use wpl_items::WplFault;

/// The first line alone.
const HEAD: &[u8] = b"px4 script 1\n";

/// A plan of one row, which is row 0, and a boot at line 6.
const BOOT: &[u8] =
    b"px4 script 1\nplan p mission\nQGC WPL 110\n0 1 0 16 0 0 0 0 47 8 10 1\nend\nboot\n";

const HOME: Home = Home {
    x: 470_000_000,
    y: 80_000_000,
    z: 488_000,
};

/// What is told of lines behind a text, and what this shows.
type Row = (&'static [u8], &'static [u8], Option<(u32, ScriptFault)>);

/// The first line with a fault, if any.
fn judged(
    alloc: Global,
    before: &[u8],
    after: &[u8],
) -> Result<Option<(u32, ScriptFault)>, AllocError> {
    let mut text = Vec::new(alloc);
    text.extend_from_slice(before)?;
    text.extend_from_slice(after)?;
    if text.len() > 4_194_304 {
        return Err(AllocError);
    }
    match read_script(alloc, &text) {
        Ok(_) => Ok(None),
        Err((_, ScriptFault::Memory(source))) => Err(source),
        Err(at) => Ok(Some(at)),
    }
}

static HEAD_FORMS: [Row; 12] = [
    (HEAD, b"param TKO_LAND 0\nboot\n", None),
    (HEAD, b"param TKO_LAND 4\nboot\n", None),
    (HEAD, b"param TAKEOFF_MIN 0\nboot\n", None),
    (HEAD, b"param TAKEOFF_MIN 2147483.647\nboot\n", None),
    (HEAD, b"param MAX_ALT 1e2\nboot\n", None),
    (HEAD, b"param RTL_TYPE 2\nboot\n", None),
    (HEAD, b"param DIST_1WP 0\nboot\n", None),
    (HEAD, b"param DIST_WPS -0.0001\nboot\n", None),
    (HEAD, b"home -90 180 -10000\nboot\n", None),
    (HEAD, b"home 90 -180 100000\nboot\n", None),
    (HEAD, b" # a comment\n# boot\nboot\n", None),
    (HEAD, b"\nboot\n", None),
];

static BOOT_FORMS: [Row; 8] = [
    (BOOT, b"boot\n", None),
    (BOOT, b"boot cut 1 old\n", None),
    (BOOT, b"boot cut 4294967295 new\n", None),
    (BOOT, b"boot cut 3 front 65535\n", None),
    (BOOT, b"boot cut-read 1 fill A5\n", None),
    (BOOT, b"boot cut-read 9 old\n", None),
    (BOOT, b"\tboot  \n", None),
    (BOOT, b"#\n", None),
];

static LINK_FORMS: [Row; 9] = [
    (BOOT, b"link 0 count all 65535\r\n", None),
    (BOOT, b"link 7 item 0 p 0\r\n", None),
    (BOOT, b"link 1 clear fence\r\n", None),
    (BOOT, b"link 2 set-current 65535\r\n", None),
    (BOOT, b"link 3 cancel\r\n", None),
    (BOOT, b"link 4 timeout\r\n", None),
    (BOOT, b"link 5 upload p\r\n", None),
    (BOOT, b"link 6 wait\r\n", None),
    (BOOT, b"link 0 meet 15 255\r\n", None),
];

static OTHER_FORMS: [Row; 12] = [
    (BOOT, b"nav tick\r\n", None),
    (BOOT, b"nav go\r\n", None),
    (BOOT, b"nav reached\r\n", None),
    (BOOT, b"nav mode hold\r\n", None),
    (BOOT, b"nav mode mission\r\n", None),
    (BOOT, b"nav mode return\r\n", None),
    (BOOT, b"nav position -90 180\r\n", None),
    (BOOT, b"nav wait\r\n", None),
    (BOOT, b"nav meet 0 1\r\n", None),
    (BOOT, b"watch 3 do 1 2 0\r\n", None),
    (BOOT, b"watch 0 do 02 -900000000 1800000000\r\n", None),
    (BOOT, b"turns w n l0 l7 v0 v3\r\n", None),
];

static HEAD_UNKNOWN: [Row; 15] = [
    (HEAD, b"param SPEED 1", Some((2, Unknown))),
    (HEAD, b"param SPEED", Some((2, Unknown))),
    (HEAD, b"param SPEED 1 2", Some((2, Unknown))),
    (HEAD, b"nav tick", Some((2, Unknown))),
    (HEAD, b"link 0 wait", Some((2, Unknown))),
    (HEAD, b"turns w", Some((2, Unknown))),
    (HEAD, b"watch 0 do 1 0 0", Some((2, Unknown))),
    (HEAD, b"px4 script 1", Some((2, Unknown))),
    (HEAD, b"plan p route", Some((2, Unknown))),
    (HEAD, b"plan p mission home", Some((2, Unknown))),
    (HEAD, b"plan p mission home x y", Some((2, Unknown))),
    (HEAD, b"boot foo", Some((2, Unknown))),
    (HEAD, b"boot cut 3 slow x y", Some((2, Unknown))),
    (HEAD, b"end", Some((2, Unknown))),
    (HEAD, b"home-first", Some((2, Unknown))),
];

static HEAD_WORDS: [Row; 14] = [
    (HEAD, b"param", Some((2, Words))),
    (HEAD, b"param TKO_LAND", Some((2, Words))),
    (HEAD, b"param TKO_LAND 1 2", Some((2, Words))),
    (HEAD, b"home", Some((2, Words))),
    (HEAD, b"home 1 2", Some((2, Words))),
    (HEAD, b"home 1 2 3 4", Some((2, Words))),
    (HEAD, b"plan", Some((2, Words))),
    (HEAD, b"plan a", Some((2, Words))),
    (HEAD, b"plan A mission home-first x", Some((2, Words))),
    (HEAD, b"boot cut", Some((2, Words))),
    (HEAD, b"boot cut 3", Some((2, Words))),
    (HEAD, b"boot cut x front", Some((2, Words))),
    (HEAD, b"boot cut 3 old x", Some((2, Words))),
    (HEAD, b"boot cut-read 0 fill", Some((2, Words))),
];

static HEAD_NUMBERS: [Row; 14] = [
    (HEAD, b"param TKO_LAND 5", Some((2, Number(3)))),
    (HEAD, b"param TKO_LAND -1", Some((2, Number(3)))),
    (HEAD, b"param TAKEOFF_MIN -0.001", Some((2, Number(3)))),
    (HEAD, b"param MAX_ALT x", Some((2, Number(3)))),
    (HEAD, b"param RTL_TYPE 3", Some((2, Number(3)))),
    (HEAD, b"param DIST_1WP nan", Some((2, Number(3)))),
    (HEAD, b"home 90.0000001 x 0", Some((2, Number(2)))),
    (HEAD, b"home 1 181 x", Some((2, Number(3)))),
    (HEAD, b"home 1 1 100000.001", Some((2, Number(4)))),
    (HEAD, b"boot cut 0 old", Some((2, Number(3)))),
    (HEAD, b"boot cut 0 front 65536", Some((2, Number(3)))),
    (HEAD, b"boot cut 1 front 65536", Some((2, Number(5)))),
    (HEAD, b"boot cut 1 fill A", Some((2, Number(5)))),
    (HEAD, b"boot cut 4294967296 new", Some((2, Number(3)))),
];

static HEAD_NAMES: [Row; 5] = [
    (HEAD, b"param DIST_1WP 900", Some((2, Distance))),
    (HEAD, b"param DIST_WPS -5", Some((2, Distance))),
    (HEAD, b"plan A safe", Some((2, Name))),
    (HEAD, b"plan abcdefghijklmnopq safe", Some((2, Name))),
    (HEAD, b"plan a-b safe", Some((2, Name))),
];

static FLIGHT_UNKNOWN: [Row; 12] = [
    (BOOT, b"home 1 2 3", Some((7, Unknown))),
    (BOOT, b"param TKO_LAND 0", Some((7, Unknown))),
    (BOOT, b"plan q safe", Some((7, Unknown))),
    (BOOT, b"link 9 frob", Some((7, Unknown))),
    (BOOT, b"link 0 count foo", Some((7, Unknown))),
    (BOOT, b"link x clear some 1", Some((7, Unknown))),
    (BOOT, b"nav mode up x", Some((7, Unknown))),
    (BOOT, b"nav frob", Some((7, Unknown))),
    (BOOT, b"watch 0 x 1 0 0", Some((7, Unknown))),
    (BOOT, b"turns w l8", Some((7, Unknown))),
    (BOOT, b"turns v4", Some((7, Unknown))),
    (BOOT, b"boot cut 3 slow", Some((7, Unknown))),
];

static FLIGHT_WORDS: [Row; 11] = [
    (BOOT, b"link", Some((7, Words))),
    (BOOT, b"link 9", Some((7, Words))),
    (BOOT, b"link 9 wait x", Some((7, Words))),
    (BOOT, b"link 0 count", Some((7, Words))),
    (BOOT, b"link 0 count all", Some((7, Words))),
    (BOOT, b"nav", Some((7, Words))),
    (BOOT, b"nav mode", Some((7, Words))),
    (BOOT, b"nav tick x", Some((7, Words))),
    (BOOT, b"watch 0", Some((7, Words))),
    (BOOT, b"watch 9 do 1", Some((7, Words))),
    (BOOT, b"turns", Some((7, Words))),
];

static FLIGHT_NUMBERS: [Row; 16] = [
    (BOOT, b"link 8 wait", Some((7, Number(2)))),
    (BOOT, b"link 8 count all 65536", Some((7, Number(2)))),
    (BOOT, b"link 0 count all 65536", Some((7, Number(5)))),
    (BOOT, b"link 0 item 65536 q 0", Some((7, Number(4)))),
    (BOOT, b"link 0 item 0 q 65536", Some((7, Number(6)))),
    (BOOT, b"link 0 meet 16 0", Some((7, Number(4)))),
    (BOOT, b"link 0 meet 15 0", Some((7, Number(5)))),
    (BOOT, b"nav meet 0 256", Some((7, Number(4)))),
    (BOOT, b"nav position 91 181", Some((7, Number(3)))),
    (BOOT, b"nav position 90 181", Some((7, Number(4)))),
    (BOOT, b"watch 4 do 3 0 0", Some((7, Number(2)))),
    (BOOT, b"watch 0 do 3 0 0", Some((7, Number(4)))),
    (BOOT, b"watch 0 do 1 3 1", Some((7, Number(5)))),
    (BOOT, b"watch 0 do 1 2 1", Some((7, Number(6)))),
    (BOOT, b"watch 0 do 2 900000001 0", Some((7, Number(5)))),
    (BOOT, b"watch 0 do 2 0 -1800000001", Some((7, Number(6)))),
];

static FLIGHT_NAMES: [Row; 3] = [
    (BOOT, b"link 0 upload q", Some((7, Name))),
    (BOOT, b"link 0 item 0 p 1", Some((7, Name))),
    (BOOT, b"link 0 item 0 q 0", Some((7, Name))),
];

static TEXTS: [Row; 10] = [
    (b"", b"", Some((1, Unfinished))),
    (b"", b"px4 script", Some((1, Unknown))),
    (HEAD, b"", Some((2, Unfinished))),
    (HEAD, b"plan p safe\nQGC WPL 110\n", Some((4, Unfinished))),
    (HEAD, b"plan p safe\nboot\n", Some((4, Unfinished))),
    (
        HEAD,
        b"plan p safe\nQGC WPL 120\nend\n",
        Some((2, Plan(WplFault::Header))),
    ),
    (
        HEAD,
        b"plan p safe\nQGC WPL 110\n# no row\nend\n",
        Some((2, Plan(WplFault::FieldCount(2)))),
    ),
    (
        HEAD,
        b"plan p safe\nQGC WPL 110\nend\nplan p safe\nx\nend\n",
        Some((5, Name)),
    ),
    (HEAD, b"boot\nnav up\nlink 9 wait\n", Some((3, Unknown))),
    (
        HEAD,
        b"plan p safe home-first\nQGC WPL 110\n\t end \nboot\n",
        None,
    ),
];

fn expect_rows(rt: &impl Abort, alloc: Global, rows: &[Row]) -> Result<(), AllocError> {
    for &(before, after, told) in rows {
        assert_eq!(rt; judged(alloc, before, after)?, told);
    }
    Ok(())
}

#[test]
fn forms_of_the_head(rt: HostRuntime) -> Result<(), AllocError> {
    expect_rows(&rt, rt.alloc(), &HEAD_FORMS)
}

#[test]
fn forms_of_boots(rt: HostRuntime) -> Result<(), AllocError> {
    expect_rows(&rt, rt.alloc(), &BOOT_FORMS)
}

#[test]
fn forms_of_links(rt: HostRuntime) -> Result<(), AllocError> {
    expect_rows(&rt, rt.alloc(), &LINK_FORMS)
}

#[test]
fn forms_of_other_actors(rt: HostRuntime) -> Result<(), AllocError> {
    expect_rows(&rt, rt.alloc(), &OTHER_FORMS)
}

#[test]
fn unknown_in_the_head(rt: HostRuntime) -> Result<(), AllocError> {
    expect_rows(&rt, rt.alloc(), &HEAD_UNKNOWN)
}

#[test]
fn numbers_of_words_in_the_head(rt: HostRuntime) -> Result<(), AllocError> {
    expect_rows(&rt, rt.alloc(), &HEAD_WORDS)
}

#[test]
fn numbers_in_the_head(rt: HostRuntime) -> Result<(), AllocError> {
    expect_rows(&rt, rt.alloc(), &HEAD_NUMBERS)
}

#[test]
fn distances_and_names(rt: HostRuntime) -> Result<(), AllocError> {
    expect_rows(&rt, rt.alloc(), &HEAD_NAMES)
}

#[test]
fn unknown_behind_a_boot(rt: HostRuntime) -> Result<(), AllocError> {
    expect_rows(&rt, rt.alloc(), &FLIGHT_UNKNOWN)
}

#[test]
fn numbers_of_words_behind_a_boot(rt: HostRuntime) -> Result<(), AllocError> {
    expect_rows(&rt, rt.alloc(), &FLIGHT_WORDS)
}

#[test]
fn numbers_behind_a_boot(rt: HostRuntime) -> Result<(), AllocError> {
    expect_rows(&rt, rt.alloc(), &FLIGHT_NUMBERS)
}

#[test]
fn names_behind_a_boot(rt: HostRuntime) -> Result<(), AllocError> {
    expect_rows(&rt, rt.alloc(), &FLIGHT_NAMES)
}

#[test]
fn whole_texts(rt: HostRuntime) -> Result<(), AllocError> {
    expect_rows(&rt, rt.alloc(), &TEXTS)
}

/// These lines so many times, behind a text.
fn repeated(
    alloc: Global,
    before: &[u8],
    lines: &[u8],
    count: usize,
) -> Result<Vec<u8>, AllocError> {
    let mut text = Vec::from_slice(alloc, before)?;
    for _ in 0..count {
        text.extend_from_slice(lines)?;
    }
    Ok(text)
}

/// Each limit lets these lines in, and is passed by one more, over all boots together: the line that passes it is told.
fn expect_over(
    rt: &impl Abort,
    alloc: Global,
    line: &[u8],
    most: usize,
    at: u32,
) -> Result<(), AllocError>
    requires { most < 100000 }
{
    let mut lines = repeated(alloc, b"", line, most)?;
    assert_eq!(rt; judged(alloc, BOOT, &lines)?, None);
    lines.extend_from_slice(line)?;
    assert_eq!(rt; judged(alloc, BOOT, &lines)?, Some((at, TooMany)));
    Ok(())
}

/// A head of so many plans without rows, named from `a` on.
fn plans(alloc: Global, count: u8) -> Result<Vec<u8>, AllocError>
    requires { count ≤ 26 }
{
    let mut text = Vec::from_slice(alloc, HEAD)?;
    for place in 0..count {
        text.extend_from_slice(b"plan ")?;
        text.push(b'a' + place)?;
        text.extend_from_slice(b" safe\nQGC WPL 110\nend\n")?;
    }
    Ok(text)
}

/// A plan that is one too many is told by its name first, and by its text last.
#[test]
fn limit_of_plans(rt: HostRuntime) -> Result<(), AllocError> {
    let text = plans(rt.alloc(), 16)?;
    let rows: [Row; 3] = [
        (b"", b"boot\n", None),
        (b"", b"plan a safe\nx\nend\n", Some((50, Name))),
        (b"", b"plan q safe\nx\nend\n", Some((50, TooMany))),
    ];
    for (_, after, told) in rows {
        assert_eq!(rt; judged(rt.alloc(), &text, after)?, told);
    }
    Ok(())
}

/// Where no upload has room, other lines have, and a name is told before that.
#[test]
fn lines_behind_all_uploads(rt: HostRuntime) -> Result<(), AllocError> {
    let text = repeated(rt.alloc(), BOOT, b"link 0 upload p\n", 256)?;
    let rows: [Row; 3] = [
        (b"", b"boot\nlink 7 item 0 p 0\n", None),
        (b"", b"link 0 upload q\n", Some((263, Name))),
        (b"", b"boot\nlink 0 clear all\n", Some((264, TooMany))),
    ];
    for (_, after, told) in rows {
        assert_eq!(rt; judged(rt.alloc(), &text, after)?, told);
    }
    Ok(())
}

#[test]
fn limits_of_lines(rt: HostRuntime) -> Result<(), AllocError> {
    expect_over(&rt, rt.alloc(), b"boot\nnav go\n", 63, 133)?;
    expect_over(&rt, rt.alloc(), b"link 0 upload p\n", 256, 263)?;
    expect_over(
        &rt,
        rt.alloc(),
        b"link 1 clear all\nlink 7 count safe 1\n",
        128,
        263,
    )
}

#[test]
fn limit_of_schedule_lines(rt: HostRuntime) -> Result<(), AllocError> {
    expect_over(&rt, rt.alloc(), b"nav go\n", 20_000, 20_007)
}

#[test]
fn limit_of_turn_words(rt: HostRuntime) -> Result<(), AllocError> {
    expect_over(
        &rt,
        rt.alloc(),
        b"turns w n l0 v3 n l0 w n l7 w\n",
        2_000,
        2_007,
    )
}

/// A boot has its own cut, inputs and turns, and the numbers of links and watchers of its script.
fn expect_boot(rt: &impl Abort, script: &Script, place: usize, cut: CutSpec, of: (usize, usize)) {
    let boots = script.boots.as_slice();
    assert_eq!(rt; boots.len(), 2);
    if place < boots.len() {
        let boot = &boots[place];
        assert_eq!(rt; boot.cut, Some(cut));
        assert_eq!(rt; boot.links, 3);
        assert_eq!(rt; boot.watchers, 2);
        assert_eq!(rt;
            (boot.inputs.as_slice().len(), boot.turns.as_slice().len()),
            of
        );
    }
}

const FRONT: CutSpec = CutSpec {
    read: false,
    call: 7,
    tear: TearKind::Front,
    arg: 3,
};

const FILL: CutSpec = CutSpec {
    read: true,
    call: 1,
    tear: TearKind::Fill,
    arg: 165,
};

const TWO_BOOTS: &[u8] =
    b"px4 script 1\nparam TKO_LAND 3\nparam TKO_LAND 2\nhome 47 8 488\nboot cut 7 front 3\nlink 2 cancel\nboot cut-read 1 fill a5\nturns v1 w\n";

#[test]
fn what_two_boots_are(rt: HostRuntime) -> Result<(), AllocError> {
    match read_script(rt.alloc(), TWO_BOOTS) {
        Ok(script) => {
            assert_eq!(rt; script.params.tko_land, 2);
            assert_eq!(rt; script.home, Some(HOME));
            expect_boot(&rt, &script, 0, FRONT, (1, 0));
            expect_boot(&rt, &script, 1, FILL, (0, 2));
            Ok(())
        }
        Err(_) => Err(AllocError),
    }
}
