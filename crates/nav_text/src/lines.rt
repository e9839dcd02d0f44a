//! The lines of a text, as spans: a text is read line by line with no byte of it copied.

ghost use Rattle.std.specs.Prelude.{◌≡◌, ◌+◌, ◌<◌, ◌≤◌, ◌∷◌, length, drop, map, position, All, IfOk, IfErr, OnOk};
ghost use Rattle.std.specs.List.{position_or_len, slice_range};
ghost use Rattle.std.specs.Str.Lines.{strip_carriage_return};
ghost use Rattle.nav_text.specs.Spans.{text_of, Rising, IsInside};
ghost use Rattle.nav_text.specs.Lines.{is_line_feed, lines_of, line_spans};
ghost use Rattle.nav_text.specs.Faults.{text_fault, IsFaultFound, is_high};

use crate::fault::TextFault;
use crate::span::Span;
use memchr::memchr;
use std::alloc::{AllocError, Global};

/// The most bytes of a text that can be split.
pub const MAX_TEXT_BYTES: usize = 4_194_304;

/// The most bytes of a line, without its line end.
pub const MAX_LINE_BYTES: u32 = 512;

/// The first byte that is no ASCII.
const FIRST_HIGH: u8 = 128;

const LINE_FEED: u8 = b'\n';

const CARRIAGE_RETURN: u8 = b'\r';

/// The place of the first byte that is no ASCII.
fn first_high(text: &[u8]) -> Option<usize>
    ensures { result ≡ position is_high text.now }
{
    if text.is_ascii() {
        return None;
    }
    text.iter().position(|byte| *byte >= FIRST_HIGH)
}

/// The place of the first line feed.
fn first_line_feed(text: &[u8]) -> Option<usize>
    ensures { result ≡ position is_line_feed text.now }
{
    memchr(LINE_FEED, text)
}

/// The place of the first line feed from `from` on, or the end of the text.
fn line_feed_from(text: &[u8], from: usize) -> usize
    requires { from ≤ length text.now }
    ensures place { result ≡ from + position_or_len is_line_feed (drop from text.now) }
    ensures inside { result ≤ length text.now }
{
    match first_line_feed(&text[from..]) {
        Some(place) => from + place,
        None => text.len(),
    }
}

/// The end of a line that a line feed at `end` ends: a carriage return there is dropped.
fn line_end(text: &[u8], from: usize, end: usize) -> usize
    requires rising { from ≤ end }
    requires inside { end ≤ length text.now }
    ensures above { from ≤ result }
    ensures below { result ≤ end }
    ensures line { slice_range text.now from result ≡ strip_carriage_return (slice_range text.now from end) }
{
    if from < end && text[end - 1] == CARRIAGE_RETURN {
        end - 1
    } else {
        end
    }
}

/// The line that begins at `from`, and the place at which the next one begins.
fn line_from(text: &[u8], from: usize) -> (Span, usize)
    requires begins { from < length text.now }
    requires room { length text.now ≤ MAX_TEXT_BYTES }
    ensures from { result.0.from ≡ from }
    ensures to { result.0.from ≤ result.0.to }
    ensures before { result.0.to ≤ result.1 }
    ensures goes_on { from < result.1 }
    ensures inside { result.1 ≤ length text.now }
    ensures line { lines_of (drop from text.now) ≡ text_of text.now result.0 ∷ lines_of (drop result.1 text.now) }
    ensures span { line_spans from (drop from text.now) ≡ result.0 ∷ line_spans result.1 (drop result.1 text.now) }
{
    let end = line_feed_from(text, from);
    if end == text.len() {
        return (
            Span {
                from: from as u32,
                to: end as u32,
            },
            end,
        );
    }
    let to = line_end(text, from, end);
    (
        Span {
            from: from as u32,
            to: to as u32,
        },
        end + 1,
    )
}

/// The lines of a text that is ASCII.
fn ascii_lines(alloc: Global, text: &[u8]) -> Result<Vec<Span>, TextFault>
    requires room { length text.now ≤ MAX_TEXT_BYTES }
    requires ascii { position is_high text.now ≡ None }
    ensures lines { IfOk result (λ spans. map (text_of text.now) spans.items ≡ lines_of text.now) }
    ensures spans { IfOk result (λ spans. spans.items ≡ line_spans 0 text.now) }
    ensures rising { IfOk result (λ spans. Rising 0 spans.items (length text.now)) }
    ensures inside { IfOk result (λ spans. All (IsInside text.now) spans.items) }
    ensures sound { OnOk result (text_fault text.now ≡ None) }
    ensures fault { IfErr result (λ fault. IsFaultFound (text_fault text.now) fault) }
{
    let mut spans = Vec::new(alloc);
    let mut from = 0;
    while from < text.len() {
        let (line, next) = line_from(text, from);
        if line.to - line.from > MAX_LINE_BYTES {
            return Err(TextFault::LongLine(spans.len() as u32 + 1));
        }
        spans.push(line)?;
        from = next;
    }
    Ok(spans)
}

/// The lines of a text, told without their ends: a line feed, or a carriage return and a line feed.
/// Bytes behind the last line feed are a line too. A text is ASCII, and its lines are of at most
/// 512 bytes.
pub fn split_lines(alloc: Global, text: &[u8]) -> Result<Vec<Span>, TextFault>
    requires { length text.now ≤ MAX_TEXT_BYTES }
    // The spans name the text's lines, and lie exactly where those lie.
    ensures lines { IfOk result (λ spans. map (text_of text.now) spans.items ≡ lines_of text.now) }
    ensures spans { IfOk result (λ spans. spans.items ≡ line_spans 0 text.now) }
    ensures rising { IfOk result (λ spans. Rising 0 spans.items (length text.now)) }
    ensures inside { IfOk result (λ spans. All (IsInside text.now) spans.items) }
    // A text with a fault is refused, with its first one.
    ensures sound { OnOk result (text_fault text.now ≡ None) }
    ensures fault { IfErr result (λ fault. IsFaultFound (text_fault text.now) fault) }
{
    match first_high(text) {
        Some(place) => Err(TextFault::NotAscii(place as u32)),
        None => ascii_lines(alloc, text),
    }
}
