//! The words of a line, as spans.

ghost use Rattle.std.specs.Prelude.{◌≡◌, ◌+◌, ◌<◌, ◌≤◌, length, map, position, All, IfOk, OnOk, ◌++◌};
ghost use Rattle.std.specs.List.{position_or_len, slice_range};
ghost use Rattle.first_text.specs.Spans.{text_of, stop_of, Rising, IsInside};
ghost use Rattle.first_text.specs.Words.{is_blank, word_between, words_in, word_spans};

use crate::lines::MAX_TEXT_BYTES;
use crate::span::Span;
use std::alloc::{AllocError, Global};

fn blank(byte: u8) -> bool
    ensures { result ≡ is_blank byte }
{
    byte == b' ' || byte == b'\t'
}

/// The place of the first space or tab.
fn first_blank(text: &[u8]) -> Option<usize>
    ensures { result ≡ position is_blank text.now }
{
    text.iter().position(|byte| blank(*byte))
}

/// The place of the first space or tab from `from` on, or `to`.
fn blank_from(text: &[u8], from: usize, to: usize) -> usize
    requires rising { from ≤ to }
    requires inside { to ≤ length text.now }
    ensures place { result ≡ from + position_or_len is_blank (slice_range text.now from to) }
    ensures inside { result ≤ to }
{
    match first_blank(&text[from..to]) {
        Some(place) => from + place,
        None => to,
    }
}

/// Adds the word between two places, if any byte lies between them.
fn push_word(spans: &mut Vec<Span>, from: usize, to: usize) -> Result<(), AllocError>
    requires rising { from ≤ to }
    requires room { to ≤ MAX_TEXT_BYTES }
    ensures { OnOk result (spans.new.items ≡ spans.old.items ++ word_between from to) }
{
    if from < to {
        spans.push(Span {
            from: from as u32,
            to: to as u32,
        })?;
    }
    Ok(())
}

/// The words between two places of a text.
fn words_between(
    alloc: Global,
    text: &[u8],
    from: usize,
    to: usize,
) -> Result<Vec<Span>, AllocError>
    requires rising { from ≤ to }
    requires inside { to ≤ length text.now }
    requires room { length text.now ≤ MAX_TEXT_BYTES }
    ensures words { IfOk result (λ spans. map (text_of text.now) spans.items ≡ words_in (slice_range text.now from to)) }
    ensures spans { IfOk result (λ spans. spans.items ≡ word_spans from (slice_range text.now from to)) }
    ensures rising { IfOk result (λ spans. Rising from spans.items to) }
    ensures inside { IfOk result (λ spans. All (IsInside text.now) spans.items) }
{
    let mut spans = Vec::new(alloc);
    let mut begin = from;
    while begin < to {
        let end = blank_from(text, begin, to);
        push_word(&mut spans, begin, end)?;
        begin = end + 1;
    }
    Ok(spans)
}

/// The words of a line: its bytes parted wherever a space or a tab stands, empty parts left out.
/// Of a line that goes on past the end of the text the bytes that are there count; one that begins
/// at its own end or behind it has no word.
pub fn words_of(alloc: Global, text: &[u8], line: Span) -> Result<Vec<Span>, AllocError>
    requires { length text.now ≤ MAX_TEXT_BYTES }
    // The spans name the line's words, and lie exactly where those words lie.
    ensures words { IfOk result (λ spans. map (text_of text.now) spans.items ≡ words_in (text_of text.now line)) }
    ensures spans { IfOk result (λ spans. spans.items ≡ word_spans line.from (text_of text.now line)) }
    ensures rising { IfOk result (λ spans. Rising line.from spans.items (stop_of text.now line)) }
    ensures inside { IfOk result (λ spans. All (IsInside text.now) spans.items) }
{
    let from = line.from as usize;
    let to = text.len().min(line.to as usize);
    if from >= to {
        return Ok(Vec::new(alloc));
    }
    words_between(alloc, text, from, to)
}
