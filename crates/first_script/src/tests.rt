//! Scripts and what they state, each fault at each place where it can stand, and which of several faults is told.

mod faults;
mod limits;
mod order;
mod statements;

use crate::bounds::MAX_SCRIPT_BYTES;
use crate::fault::ScriptFault;
use crate::read::read_script;
use std::alloc::{AllocError, Global};

/// The first line with a fault in a text in two parts.
fn judged(
    alloc: Global,
    before: &[u8],
    after: &[u8],
) -> Result<Option<(u32, ScriptFault)>, AllocError> {
    let mut text = Vec::new(alloc);
    text.extend_from_slice(before)?;
    text.extend_from_slice(after)?;
    if text.len() > MAX_SCRIPT_BYTES {
        return Err(AllocError);
    }
    match read_script(alloc, &text) {
        Ok(_) => Ok(None),
        Err((_, ScriptFault::Memory(source))) => Err(source),
        Err(at) => Ok(Some(at)),
    }
}

/// The first line alone.
const HEAD: &[u8] = b"px4 script 1\n";

/// A plain plan, and a boot at line 6.
const PLAIN: &[u8] =
    b"px4 script 1\nplan p mission\nQGC WPL 110\n0 1 0 16 0 0 0 0 47 8 10 1\nend\nboot\n";

/// These lines so many times, behind a text.
fn repeated(
    alloc: Global,
    before: &[u8],
    lines: &[u8],
    count: usize,
) -> Result<Vec<u8>, AllocError> {
    let mut text = Vec::from_slice(alloc, before)?;
    for _ in 0..count {
        text.extend_from_slice(lines)?;
    }
    Ok(text)
}

/// As many plans as a script may have, named a to p: 48 lines.
fn sixteen_plans(alloc: Global) -> Result<Vec<u8>, AllocError> {
    let mut text = Vec::new(alloc);
    for name in b"abcdefghijklmnop" {
        text.extend_from_slice(b"plan ")?;
        text.push(*name)?;
        text.extend_from_slice(b" safe\nQGC WPL 110\nend\n")?;
    }
    Ok(text)
}
