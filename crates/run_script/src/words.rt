//! A line cut into its words, once. Rows speak of six words at most, so the places of six are kept, and how many words
//! there are. Clauses see a line as its list of words.

ghost use Rattle.std.specs.Prelude.{◌≡◌, ◌≤◌, length};
ghost use Rattle.nav_text.specs.Spans.{text_of, IsInside};
ghost use Rattle.nav_text.specs.Words.{words_in};
ghost use Rattle.run_script.specs.Lines.{word};
ghost use Rattle.run_script.specs.Cuts.{IsCut};

use nav_text::{Span, first_words};
use std::marker::Model;

/// The most words of which the place is kept.
pub(crate) const KEPT_WORDS: usize = 6;

const NO_WORD: Span = Span { from: 0, to: 0 };

/// Where a line's first words lie, and how many words it has.
#[derive(Drop)]
pub(crate) struct Line<'a> {
    text: &'a [u8],
    line: Span,
    spans: [Span; KEPT_WORDS],
    count: usize,
}

impl<'a> Model for Line<'a> {
    ghost use Rattle.std.specs.Prelude.{List, ℕ};
    ghost use Rattle.nav_text.specs.Spans.{text_of};
    ghost use Rattle.nav_text.specs.Words.{words_in};
    ghost use Rattle.run_script.specs.Cuts.{IsCut};

    ghost Value = { List (List ℕ) };

    ghost view = { λ l. words_in (text_of l.text.now l.line) };

    ghost invariant = { λ l. IsCut l.text.now l.spans l.count (words_in (text_of l.text.now l.line)) };
}

impl<'a> Line<'a> {
    /// Cuts a line.
    pub(crate) fn new(text: &'a [u8], line: Span) -> Line<'a>
        requires { IsInside text.now line }
        ensures { result ≡ words_in (text_of text.now line) }
    {
        let (spans, count) = cut(text, line);
        Line {
            text,
            line,
            spans,
            count,
        }
    }

    /// How many words there are.
    pub(crate) fn count(&self) -> usize
        ensures { result ≡ length self.now }
    {
        self.count
    }

    /// The word at a place, from 1; no bytes past the last.
    pub(crate) fn word(&self, place: usize) -> &'a [u8]
        requires first { 1 ≤ place }
        requires last { place ≤ KEPT_WORDS }
        ensures { result.now ≡ word place self.now }
    {
        let span = self.spans[place - 1];
        &self.text[span.from as usize..span.to as usize]
    }
}

fn cut(text: &[u8], line: Span) -> ([Span; KEPT_WORDS], usize)
    requires { IsInside text.now line }
    ensures { IsCut text.now result.0 result.1 (words_in (text_of text.now line)) }
{
    let mut spans = [NO_WORD; KEPT_WORDS];
    let count = first_words(text, line, &mut spans);
    (spans, count)
}
