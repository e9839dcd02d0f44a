//! A record's text is read: line by line, each printed again and compared.

ghost use Rattle.std.specs.Prelude.{◌≡◌, ◌+◌, ◌<◌, ◌≤◌, nat_eq, List, length, IfOk, IfErr, MatchOption};
ghost use Rattle.std.specs.List.{starts_with};
ghost use Rattle.mission_model.specs.declared.flight_line.Line.{Line};
ghost use Rattle.record_text.specs.Read.{Begins, IsRecord, BeginsNoLine, HasFault, Reads, TextsDiffer};

use crate::cursor::skip;
use crate::fault::RecordFault;
use crate::line_cursor::read_line;
use crate::record::{append_line, is_printable};
use crate::typed::line_is_typed;
use mission_model::Line;
use std::alloc::{AllocError, Global};

/// Whether the bytes begin with a text.
fn begins_with(bytes: &[u8], text: &[u8]) -> bool
    ensures { result ≡ starts_with nat_eq bytes.now text.now }
{
    bytes.starts_with(text)
}

/// The number of the line behind so many.
fn next_number(count: usize) -> u32
    requires { count < 4294967295 }
    ensures { result ≡ count + 1 }
{
    count as u32 + 1
}

/// The line whose text begins the bytes, and that text in the buffer.
fn first_line(text: &mut Vec<u8>, bytes: &[u8]) -> Result<Option<Line>, AllocError>
    ensures { IfOk result (λ found. MatchOption found (BeginsNoLine bytes.now) (λ line. Begins line text.new.items bytes.now)) }
{
    let line = read_line(bytes);
    if !is_printable(&line) {
        return Ok(None);
    }
    line_is_typed(&line);
    text.clear();
    append_line(text, &line)?;
    if begins_with(bytes, text) {
        Ok(Some(line))
    } else {
        Ok(None)
    }
}

/// The lines that a record's text is of, in order. Just the printed form is read: one space between words, LF behind each
/// line, numbers without leading zeros and within their types, pairs that rise.
pub fn read_record(alloc: Global, bytes: &[u8]) -> Result<Vec<Line>, RecordFault>
    requires { length bytes.now ≤ 4294967295 }
    // The bytes are these lines' text.
    ensures found { IfOk result (λ lines. IsRecord bytes.now lines.items) }
    // Of whichever lines the bytes are the text, just they are read, unless memory runs out.
    ensures every_record { (lines : List Line) → IsRecord bytes.now lines → Reads result lines }
    // The first line that is no line's text.
    ensures fault { IfErr result (HasFault bytes.now) }
{
    let mut lines = Vec::new(alloc);
    let mut text = Vec::new(alloc);
    let mut rest = bytes;
    while !rest.is_empty() {
        match first_line(&mut text, rest)? {
            Some(line) => {
                lines.push(line)?;
                rest = skip(rest, text.len());
            }
            None => return Err(RecordFault::BadLine(next_number(lines.len()))),
        }
    }
    Ok(lines)
}

/// No two lists of lines have one text, where each line is printable and its numbers are of its types.
pub fn texts_differ()
    ensures { TextsDiffer }
{}
