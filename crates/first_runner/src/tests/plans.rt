//! What `check` tells of a plan text: its judgement and the text in its written form, or why there is none.

use crate::Status;
use crate::tests::{Ending, expect_ending, flown};
use first_wpl::WplFault;
use std::alloc::{AllocError, Global};
use std::fmt::Write;
use std::process::Abort;
use std::test::Fail;

/// A waypoint, in the written form.
pub const ONE_ROW: &[u8] = b"QGC WPL 110\n0\t1\t3\t16\t0\t0\t0\t0\t47.376\t8.55\t10\t1\n";

/// A plan text of a kind, its judgement and its written form.
static JUDGED: [(&str, &[u8], &str, &[u8]); 8] = [
    ("mission", ONE_ROW, "plan mission 1 accepted\n", ONE_ROW),
    // A jump to itself.
    (
        "mission",
        b"QGC WPL 110\n0 1 3 16 0 0 0 0 47.3760 8.55 10 1\n1 0 2 177 1 2 0 0 0 0 0 1\n",
        "plan mission 2 refused 1 5\n",
        b"QGC WPL 110\n0\t1\t3\t16\t0\t0\t0\t0\t47.376\t8.55\t10\t1\n1\t0\t2\t177\t1\t2\t0\t0\t0\t0\t0\t1\n",
    ),
    // A longitude past 180 degrees.
    (
        "mission",
        b"QGC WPL 110\n0 1 3 16 0 0 0 0 47 180.0000001 10 1\n",
        "plan mission 1 refused 0 11\n",
        b"QGC WPL 110\n0\t1\t3\t16\t0\t0\t0\t0\t47\t180.0000001\t10\t1\n",
    ),
    (
        "fence",
        b"QGC WPL 110",
        "plan fence 0 accepted\n",
        b"QGC WPL 110\n",
    ),
    // A triangle.
    (
        "fence",
        b"QGC WPL 110\n0 1 0 5001 3 0 0 0 46.9 7.9 0 1\n1 0 0 5001 3.000 0 0 0 47.25 7.90 0 1\n2 0 0 5001 3e0 0 0 0 46.9 8.10 0 1\n",
        "plan fence 3 accepted\n",
        b"QGC WPL 110\n0\t1\t0\t5001\t3\t0\t0\t0\t46.9\t7.9\t0\t1\n1\t0\t0\t5001\t3\t0\t0\t0\t47.25\t7.9\t0\t1\n2\t0\t0\t5001\t3\t0\t0\t0\t46.9\t8.1\t0\t1\n",
    ),
    // A circle.
    (
        "fence",
        b"QGC WPL 110\n0 1 0 5003 30 0 0 0 46.9 7.9 0 1\n",
        "plan fence 1 refused 0 3\n",
        b"QGC WPL 110\n0\t1\t0\t5003\t30\t0\t0\t0\t46.9\t7.9\t0\t1\n",
    ),
    (
        "safe",
        b"QGC WPL 110",
        "plan safe 0 accepted\n",
        b"QGC WPL 110\n",
    ),
    // A rally point without autocontinue.
    (
        "safe",
        b"QGC WPL 110\n0 0 3 5100 NaN 0 0 nan 47.0020 8 400 0\n",
        "plan safe 1 accepted\n",
        b"QGC WPL 110\n0\t1\t3\t5100\tnan\t0\t0\tnan\t47.002\t8\t400\t0\n",
    ),
];

/// The plan text is told with this judgement and in this written form.
fn expect_told(
    rt: &impl Abort,
    alloc: Global,
    kind: &str,
    plan: &[u8],
    judgement: &str,
    written: &[u8],
) -> Result<(), Fail> {
    let (outcome, held) = flown(alloc, &["check", kind], plan, &[], &[])?;
    assert_eq!(rt; outcome.status.number(), 0, "{judgement}");
    assert!(rt; outcome.lines.is_empty());
    let mut told = Vec::from_slice(alloc, judgement.as_bytes())?;
    told.extend_from_slice(written)?;
    assert!(rt; held == told, "{judgement}");
    Ok(())
}

#[test]
fn plans_are_told_with_their_judgement(rt: HostRuntime) -> Result<(), Fail> {
    for &(kind, plan, judgement, written) in &JUDGED {
        expect_told(&rt, rt.alloc(), kind, plan, judgement, written)?;
    }
    Ok(())
}

/// A plan text in the written form: so many rows of a command, but the first of another.
fn rows(alloc: Global, count: usize, first: u16, others: u16) -> Result<String, AllocError> {
    let mut text = String::from_str(alloc, "QGC WPL 110\n")?;
    for k in 0..count {
        let (current, command) = if k == 0 { (1, first) } else { (0, others) };
        writeln!(
            text,
            "{k}\t{current}\t0\t{command}\t0\t0\t0\t0\t47\t8\t10\t1"
        )?;
    }
    Ok(text)
}

/// Past its limit a plan is refused at the limit, whatever its items are.
#[test]
fn plans_at_their_limits(rt: HostRuntime) -> Result<(), Fail> {
    let alloc = rt.alloc();
    for (kind, count, first, others, judgement) in [
        ("mission", 500, 16, 16, "plan mission 500 accepted\n"),
        ("mission", 501, 16, 16, "plan mission 501 refused 500 4\n"),
        ("fence", 65, 5001, 5001, "plan fence 65 refused 64 4\n"),
        ("safe", 32, 5100, 5100, "plan safe 32 accepted\n"),
        ("safe", 33, 16, 5100, "plan safe 33 refused 32 4\n"),
    ] {
        let plan = rows(alloc, count, first, others)?;
        expect_told(
            &rt,
            alloc,
            kind,
            plan.as_bytes(),
            judgement,
            plan.as_bytes(),
        )?;
    }
    Ok(())
}

#[test]
fn plan_texts_with_a_fault(rt: HostRuntime) -> Result<(), Fail> {
    let alloc = rt.alloc();
    let rows: [(&[u8], WplFault, &str); 3] = [
        (
            b"QGC WPL 110\n0 1 0 16 0 0 0 0 47 8 10 1\n2 0 0 16 0 0 0 0 48 9 20 1\n",
            WplFault::BadIndex(3),
            "plan: BadIndex",
        ),
        (b"QGC WPL 120\n", WplFault::Header, "plan: Header"),
        (
            b"QGC WPL 110\n0 1 0 16 0 0 0 0 47 8 10 1\n1 0 0 16 0 0 0 0 48 9 20\n",
            WplFault::FieldCount(3),
            "plan: FieldCount",
        ),
    ];
    for (plan, fault, text) in rows {
        let run = flown(alloc, &["check", "mission"], plan, &[], &[])?;
        assert!(rt;
            matches!(run.0.status, Status::Plan(told) if told == fault),
            "{text}"
        );
        let (number, held) = (3, 0);
        expect_ending(&rt, alloc, &run, &Ending { number, text, held })?;
    }
    Ok(())
}

#[test]
fn a_plan_fault_is_told_by_its_name(rt: HostRuntime) -> Result<(), Fail> {
    let alloc = rt.alloc();
    let long = rows(alloc, 4_097, 16, 16)?;
    let faulty: [(&[u8], &str); 3] = [
        (long.as_bytes(), "plan: TooMany"),
        (
            b"QGC WPL 110\n0 1 0 16x 0 0 0 0 47 8 10 1\n",
            "plan: BadWhole",
        ),
        (b"QGC WPL 110\n0 1 0 16 0 0 0 0 47x 8 10 1\n", "plan: Num"),
    ];
    for (plan, text) in faulty {
        let run = flown(alloc, &["check", "mission"], plan, &[], &[])?;
        let (number, held) = (3, 0);
        expect_ending(&rt, alloc, &run, &Ending { number, text, held })?;
    }
    Ok(())
}

#[test]
fn plans_between_edges_that_fail(rt: HostRuntime) -> Result<(), Fail> {
    let alloc = rt.alloc();
    let rows: [(&[u64], &[u64], u8, &str); 2] = [
        (&[2], &[], 4, "read fault"),
        (&[], &[1], 5, "write fault"),
    ];
    for (take_fails, give_fails, number, text) in rows {
        let run = flown(
            alloc,
            &["check", "mission"],
            ONE_ROW,
            take_fails,
            give_fails,
        )?;
        let held = 0;
        expect_ending(&rt, alloc, &run, &Ending { number, text, held })?;
    }
    Ok(())
}

/// A sink that fails at its second call holds what it took in its first, the front of what is told.
#[test]
fn a_long_plan_is_told_in_part(rt: HostRuntime) -> Result<(), Fail> {
    let alloc = rt.alloc();
    let plan = rows(alloc, 500, 16, 16)?;
    let mut told = Vec::from_slice(alloc, b"plan mission 500 accepted\n")?;
    told.extend_from_slice(plan.as_bytes())?;
    let (outcome, held) = flown(alloc, &["check", "mission"], plan.as_bytes(), &[], &[2])?;
    assert_eq!(rt; outcome.status.number(), 5);
    assert_eq!(rt; held.len(), 4_096);
    assert!(rt; told.starts_with(&held));
    Ok(())
}
