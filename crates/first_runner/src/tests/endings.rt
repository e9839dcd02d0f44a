//! Each status other than 0, with its number and its text.

use crate::Status;
use crate::tests::plans::ONE_ROW;
use crate::tests::records::MEETING;
use crate::tests::{Ending, expect_ending, flown};
use first_script::ScriptFault;
use first_wpl::WplFault;
use std::alloc::{AllocError, Global};
use std::test::Fail;

const USAGE: Ending = Ending {
    number: 2,
    text: "usage: px4_flight fly [--store P], replay [--store P], check KIND, init --store P, case N",
    held: 0,
};

#[test]
fn words_that_are_no_command(rt: HostRuntime) -> Result<(), Fail> {
    let alloc = rt.alloc();
    let run = flown(alloc, &["replay", "now"], MEETING, &[], &[])?;
    expect_ending(&rt, alloc, &run, &USAGE)?;
    let run = flown(alloc, &["fly"], MEETING, &[], &[])?;
    expect_ending(&rt, alloc, &run, &USAGE)?;
    let run = flown(alloc, &["check", "other"], ONE_ROW, &[], &[])?;
    expect_ending(&rt, alloc, &run, &USAGE)?;
    let run = flown(alloc, &["check"], ONE_ROW, &[], &[])?;
    expect_ending(&rt, alloc, &run, &USAGE)
}

#[test]
fn scripts_that_are_not_read(rt: HostRuntime) -> Result<(), Fail> {
    let alloc = rt.alloc();
    let rows: [(&[u8], &[u64], u8, &str, usize); 4] = [
        (b"px4 script 1\n", &[], 3, "script line 2: Unfinished", 0),
        (
            b"px4 script 1\nparam DIST_1WP 900\nboot\n",
            &[],
            3,
            "script line 2: Distance",
            0,
        ),
        (b"px4 script 1\nparam DIST_1WP 0\nboot\n", &[], 0, "ok", 47),
        (b"px4 script", &[2], 4, "read fault", 0),
    ];
    for (script, take_fails, number, text, held) in rows {
        let run = flown(alloc, &["replay"], script, take_fails, &[])?;
        expect_ending(&rt, alloc, &run, &Ending { number, text, held })?;
    }
    Ok(())
}

/// A fault of a script's first line, and what is printed.
static SCRIPT_FAULTS: [(ScriptFault, &str); 7] = [
    (ScriptFault::Unknown, "script line 1: Unknown"),
    (ScriptFault::NotYet, "script line 1: NotYet"),
    (ScriptFault::Words, "script line 1: Words"),
    (ScriptFault::Number(2), "script line 1: Number"),
    (ScriptFault::Name, "script line 1: Name"),
    (ScriptFault::TooMany, "script line 1: TooMany"),
    (ScriptFault::Plan(WplFault::Header), "script line 1: Plan"),
];

#[test]
fn a_script_fault_is_told_by_its_name(rt: HostRuntime) -> Result<(), AllocError> {
    for &(fault, text) in &SCRIPT_FAULTS {
        let told = format!(in rt.alloc(); "{}", Status::Script(1, fault))?;
        assert_eq!(rt; told.as_str(), text);
    }
    Ok(())
}

/// So many bytes that begin neither a script nor a plan text, in one line.
fn hashes(alloc: Global, count: usize) -> Result<Vec<u8>, AllocError> {
    vec![in alloc; b'#'; count]
}

#[test]
fn inputs_of_the_greatest_length(rt: HostRuntime) -> Result<(), Fail> {
    let alloc = rt.alloc();
    let rows: [(&[&str], usize, u8, &str); 4] = [
        (&["replay"], 4_194_304, 3, "script line 1: Text"),
        (&["replay"], 4_194_305, 7, "input too long"),
        (&["check", "mission"], 4_194_304, 3, "plan: Text"),
        (&["check", "mission"], 4_194_305, 7, "input too long"),
    ];
    for (words, count, number, text) in rows {
        let input = hashes(alloc, count)?;
        let run = flown(alloc, words, input.as_slice(), &[], &[])?;
        let held = 0;
        expect_ending(&rt, alloc, &run, &Ending { number, text, held })?;
    }
    Ok(())
}

#[test]
fn a_sink_that_fails_at_the_second_line(rt: HostRuntime) -> Result<(), Fail> {
    let alloc = rt.alloc();
    let run = flown(alloc, &["replay"], MEETING, &[], &[2])?;
    expect_ending(
        &rt,
        alloc,
        &run,
        &Ending {
            number: 5,
            text: "write fault",
            held: 43,
        },
    )?;
    let memory = format!(in alloc; "{} {}", Status::Memory, Status::Memory.number())?;
    assert_eq!(rt; memory.as_str(), "out of memory 6");
    Ok(())
}
