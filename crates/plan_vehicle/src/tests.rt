//! Records of one vehicle, told by hand from its table, each with lines that may not stand in a place of it.

mod flights;
mod lines;
mod restarts;
mod ways;

use crate::VehicleCheck;
use mission_model::{Home, Line, Params};
use std::alloc::{AllocError, Global};
use std::process::Abort;
use std::test::*;

/// A line of a record, and one that is refused in its place.
#[derive(Clone, Copy)]
struct Row {
    line: Line,
    wrong: Option<Line>,
}

/// A line that comes as it is.
fn step(line: Line) -> Row {
    Row { line, wrong: None }
}

/// A line, and one that is refused in its place.
fn not(line: Line, wrong: Line) -> Row {
    Row {
        line,
        wrong: Some(wrong),
    }
}

/// The answers to the lines of a record, in which the line at a place is the wrong one.
fn answers(
    alloc: Global,
    rtl_type: u8,
    home: Option<Home>,
    rows: &[Row],
    place: usize,
) -> Result<Vec<bool>, AllocError> {
    let mut answers = Vec::new(alloc);
    if rtl_type > 2 {
        return Ok(answers);
    }
    let params = Params {
        tko_land: 0,
        takeoff_min: 0,
        max_alt: 0,
        rtl_type,
    };
    let mut check = VehicleCheck::new(alloc, params, home)?;
    for (k, row) in rows.iter().enumerate() {
        let line = match row.wrong {
            Some(wrong) if k == place => wrong,
            _ => row.line,
        };
        answers.push(check.feed(&line)?)?;
    }
    Ok(answers)
}

/// All lines are steps; with a wrong one in its place, those before it are, and it and all behind it are not.
fn are_steps(rt: &impl Abort, alloc: Global, rtl_type: u8, home: Option<Home>, rows: &[Row]) {
    for place in 0..=rows.len() {
        let Some(row) = rows.get(place) else {
            are_answered(rt, alloc, rtl_type, home, rows, place);
            return;
        };
        if row.wrong.is_some() {
            are_answered(rt, alloc, rtl_type, home, rows, place);
        }
    }
}

fn are_answered(
    rt: &impl Abort,
    alloc: Global,
    rtl_type: u8,
    home: Option<Home>,
    rows: &[Row],
    place: usize,
) {
    let answers = answers(alloc, rtl_type, home, rows, place).expect(rt, "memory");
    assert_eq!(rt; answers.len(), rows.len(), "lines");
    for (k, answer) in answers.iter().enumerate() {
        assert_eq!(rt; *answer, k < place, "line {k}, where {place} is changed");
    }
}
