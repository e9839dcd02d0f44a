//! The words of a line, as spans.

ghost use Rattle.std.specs.Prelude.{◌≡◌, ◌≤◌, length, map, All, IfOk, slice_set};
ghost use Rattle.nav_text.specs.Spans.{text_of, stop_of, Rising, IsInside};
ghost use Rattle.nav_text.specs.Words.{words_in, word_spans};
ghost use Rattle.nav_text.specs.FirstWords.{AreFirstWords};

use crate::cursor::WordCursor;
use crate::span::Span;
use std::alloc::{AllocError, Global};

/// The words of a line: its bytes parted wherever a space or a tab stands, empty parts left out.
/// Of a line that goes on past the end of the text the bytes that are there count; one that begins
/// at its own end or behind it has no word.
pub fn words_of(alloc: Global, text: &[u8], line: Span) -> Result<Vec<Span>, AllocError>
    // The spans name the line's words, and lie exactly where those words lie.
    ensures words { IfOk result (λ spans. map (text_of text.now) spans.items ≡ words_in (text_of text.now line)) }
    ensures spans { IfOk result (λ spans. spans.items ≡ word_spans line.from (text_of text.now line)) }
    ensures rising { IfOk result (λ spans. Rising line.from spans.items (stop_of text.now line)) }
    ensures inside { IfOk result (λ spans. All (IsInside text.now) spans.items) }
{
    let mut spans = Vec::new(alloc);
    let mut words = WordCursor::new(text, line);
    while let Some(word) = words.next(text) {
        spans.push(word)?;
    }
    Ok(spans)
}

/// Keeps a word's place, if there is one for it.
fn keep(places: &mut [Span], place: usize, word: Span)
    ensures { places.new ≡ slice_set places.old place word }
{
    if place < places.len() {
        places[place] = word;
    }
}

/// Where a line's first words lie, as many of them as there are places, with no memory taken: how many words the line has
/// in all. Places behind the last word stay as they were. Lines and words are those of [`words_of`].
pub fn first_words(text: &[u8], line: Span, places: &mut [Span]) -> usize
    ensures count { result ≡ length (words_in (text_of text.now line)) }
    ensures places { AreFirstWords text.now line places.old places.new }
{
    let mut words = WordCursor::new(text, line);
    let mut count = 0;
    while let Some(word) = words.next(text) {
        keep(places, count, word);
        count += 1;
    }
    count
}
