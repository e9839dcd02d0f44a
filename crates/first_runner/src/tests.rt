//! Records and judgements that were worked out by hand from the rules, each status once, and a mission of the greatest
//! length.

mod actors;
mod endings;
mod plans;
mod records;

use crate::{Outcome, flight};
use io_edges::{MemorySink, MemorySource};
use std::alloc::{AllocError, Global};
use std::process::Abort;
use std::test::Fail;

/// Room for every record here.
const ROOM: usize = 1_000_000;

/// The words run over these bytes, by a source and a sink whose calls of these numbers fail: the outcome, and what the
/// sink then holds.
fn flown(
    alloc: Global,
    words: &[&str],
    script: &[u8],
    take_fails: &[u64],
    give_fails: &[u64],
) -> Result<(Outcome, Vec<u8>), AllocError> {
    let script = Vec::from_slice(alloc, script)?;
    let mut source = MemorySource::new(script, Vec::from_slice(alloc, take_fails)?);
    let mut sink = MemorySink::new(alloc, ROOM, Vec::from_slice(alloc, give_fails)?)?;
    let outcome = flight(alloc, words, &mut source, &mut sink);
    Ok((outcome, sink.into_bytes()))
}

/// What a run is to end with: the status' number and text, and how many bytes the sink then holds.
#[derive(Clone, Copy)]
struct Ending {
    number: u8,
    text: &'static str,
    held: usize,
}

/// The run ends so.
fn expect_ending(
    rt: &impl Abort,
    alloc: Global,
    run: &(Outcome, Vec<u8>),
    ending: &Ending,
) -> Result<(), Fail> {
    let (outcome, held) = run;
    assert_eq!(rt; outcome.status.number(), ending.number, "{}", ending.text);
    let text = format!(in alloc; "{}", outcome.status)?;
    assert_eq!(rt; text.as_str(), ending.text);
    assert_eq!(rt; held.len(), ending.held, "{}", ending.text);
    Ok(())
}
