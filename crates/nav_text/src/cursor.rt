//! The words of a line one by one. A cursor takes no memory: it keeps where the next word is looked for, and where the
//! line stops.

ghost use Rattle.std.specs.Prelude.{◌≡◌, ◌+◌, ◌<◌, ◌≤◌, ◌^◌, length, position};
ghost use Rattle.std.specs.List.{position_or_len, slice_range};
ghost use Rattle.nav_text.specs.Spans.{text_of, stop_of};
ghost use Rattle.nav_text.specs.Words.{is_blank, words_in, word_spans};
ghost use Rattle.nav_text.specs.Cursors.{IsWithin, Gives, GivesWord};

use crate::span::Span;

/// Whether a byte is a space or a tab, which part the words of a line.
pub fn is_blank(byte: u8) -> bool
    ensures { result ≡ is_blank byte }
{
    byte == b' ' || byte == b'\t'
}

/// A place among the words of a line.
#[derive(Clone, Copy)]
pub struct WordCursor {
    at: usize,
    to: usize,
}

impl WordCursor {
    ghost use Rattle.nav_text.specs.Cursors.{words_left, spans_left};

    /// Before the first word of a line. Of a line that goes on past the end of the text the bytes that are there count;
    /// one that begins at its own end or behind it has no word.
    pub fn new(text: &[u8], line: Span) -> WordCursor
        ensures within { IsWithin text.now result }
        ensures words { words_left text.now result ≡ words_in (text_of text.now line) }
        ensures spans { spans_left text.now result ≡ word_spans line.from (text_of text.now line) }
        ensures at { result.at ≡ line.from }
        ensures to { result.to ≤ stop_of text.now line }
    {
        WordCursor {
            at: line.from as usize,
            to: text.len().min(line.to as usize),
        }
    }

    /// The next word of the line, and none behind the last one. `text` is the one that the cursor was made for.
    pub fn next(&mut self, text: &[u8]) -> Option<Span>
        requires { IsWithin text.now self.old }
        ensures word { Gives text.now self.old result self.new }
        ensures within { IsWithin text.now self.new }
    {
        let (word, at) = word_from(text, self.at, self.to);
        self.at = at;
        word
    }
}

/// The first word between two places of a text, and the place behind it.
fn word_from(text: &[u8], from: usize, to: usize) -> (Option<Span>, usize)
    requires inside { to ≤ length text.now }
    requires small { to < 2 ^ 32 }
    ensures { GivesWord text.now from to result.0 result.1 }
{
    let mut at = from;
    while at < to {
        let end = blank_from(text, at, to);
        if at < end {
            let word = Span {
                from: at as u32,
                to: end as u32,
            };
            return (Some(word), end + 1);
        }
        at = end + 1;
    }
    (None, at)
}

/// The place of the first space or tab.
fn first_blank(text: &[u8]) -> Option<usize>
    ensures { result ≡ position is_blank text.now }
{
    text.iter().position(|byte| is_blank(*byte))
}

/// The place of the first space or tab from `from` on, or `to`.
fn blank_from(text: &[u8], from: usize, to: usize) -> usize
    requires rising { from ≤ to }
    requires inside { to ≤ length text.now }
    ensures place { result ≡ from + position_or_len is_blank (slice_range text.now from to) }
    ensures inside { result ≤ to }
{
    match first_blank(&text[from..to]) {
        Some(place) => from + place,
        None => to,
    }
}
