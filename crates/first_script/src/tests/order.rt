//! Which of several faults is told: of a line the one whose kind comes first, of a script that of the earliest line.

use crate::fault::ScriptFault::{self, Name, NotYet, Number, Plan, TooMany, Unknown, Words};
use crate::tests::{HEAD, PLAIN, judged, repeated, sixteen_plans};
use first_wpl::WplFault::Header;
use std::alloc::{AllocError, Global};
use std::process::Abort;
use std::test::*;

/// Lines, the fault that is told of the first of them, and what this shows.
type Row = (&'static [u8], ScriptFault, &'static str);

/// Behind this text each row has its fault, at this line.
fn expect_faults(
    rt: &impl Abort,
    alloc: Global,
    before: &[u8],
    line: u32,
    rows: &[Row],
) -> Result<(), AllocError> {
    for &(lines, fault, shows) in rows {
        assert_eq!(rt;
            judged(alloc, before, lines)?,
            Some((line, fault)),
            "{shows}"
        );
    }
    Ok(())
}

static DISTANCES: [Row; 1] = [(
    b"param DIST_1WP 900 x",
    Words,
    "wrong number of words before a distance",
)];

/// Each of these would be a 17th plan.
static SEVENTEENTH_PLANS: [Row; 3] = [
    (b"plan A safe", Name, "no name before too many"),
    (b"plan a safe", Name, "a taken name before too many"),
    (
        b"plan q safe\nQGC WPL 120\nend",
        TooMany,
        "too many before the plan's text",
    ),
];

static UPLOADS_257: [Row; 1] = [(b"link 0 upload q", Name, "no plan's name before too many")];

/// Each of these would be a 20,001st input.
static INPUTS_20001: [Row; 4] = [
    (b"nav frob", Unknown, "unknown before too many"),
    (b"link 1 wait", NotYet, "not built before too many"),
    (b"nav go x", Words, "wrong number of words before too many"),
    (b"link 0 meet 16 1", Number(4), "number before too many"),
];

#[test]
fn a_line_has_the_fault_of_the_first_kind(rt: HostRuntime) -> Result<(), AllocError> {
    let alloc = rt.alloc();
    expect_faults(&rt, alloc, HEAD, 2, &DISTANCES)?;
    let plans = repeated(alloc, HEAD, &sixteen_plans(alloc)?, 1)?;
    expect_faults(&rt, alloc, &plans, 50, &SEVENTEENTH_PLANS)?;
    let uploads = repeated(alloc, PLAIN, b"link 0 upload p\n", 256)?;
    expect_faults(&rt, alloc, &uploads, 263, &UPLOADS_257)?;
    let inputs = repeated(alloc, PLAIN, b"nav go\n", 20_000)?;
    expect_faults(&rt, alloc, &inputs, 20_007, &INPUTS_20001)
}

/// Scripts with several faults, the first of them at line 2.
static TWO_LINES: [Row; 7] = [
    (
        b"frob\nparam TKO_LAND 9\n",
        Unknown,
        "the earlier line, of the earlier kind",
    ),
    (
        b"param TKO_LAND 9\nfrob\n",
        Number(3),
        "the earlier line, of the later kind",
    ),
    (
        b"plan A fence\nQGC WPL 120\nend\nfrob\n",
        Name,
        "a plan's first line before those behind its end",
    ),
    (
        b"plan a safe\nQGC WPL 120\nend\nfrob\n",
        Plan(Header),
        "a plan's text at its first line",
    ),
    (
        b"plan a frob\nQGC WPL 120\nend",
        Unknown,
        "unknown before the plan's text",
    ),
    (
        b"plan a mission home-first x\nQGC WPL 120\nend",
        Words,
        "wrong number of words before the plan's text",
    ),
    (
        b"param\nplan a mission\n",
        Words,
        "a line before the unfinished end",
    ),
];

#[test]
fn a_script_has_the_fault_of_the_first_line(rt: HostRuntime) -> Result<(), AllocError> {
    expect_faults(&rt, rt.alloc(), HEAD, 2, &TWO_LINES)
}
