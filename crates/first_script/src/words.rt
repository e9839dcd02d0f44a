//! The bytes of a line, and its words, one after another and by their places. They are looked at where they stand,
//! without memory.

ghost use Rattle.std.specs.Prelude.{◌≡◌, ◌<◌, ◌≤◌, ◌∷◌, ◌==◌, [], length, get_or, MatchOption};
ghost use Rattle.std.specs.List.{position_or_len, prefix_len};
ghost use Rattle.first_text.specs.Spans.{text_of, IsInside};
ghost use Rattle.first_text.specs.Words.{is_blank, words_in};
ghost use Rattle.first_script.specs.Words.{word, is_same, says};
ghost use Rattle.first_script.specs.Places.{is_skipped};

use first_text::Span;

/// The bytes of a line.
pub(crate) fn bytes_of(text: &[u8], line: Span) -> &[u8]
    requires { IsInside text.now line }
    ensures { result.now ≡ text_of text.now line }
{
    &text[line.from as usize..line.to as usize]
}

fn is_blank(byte: u8) -> bool
    ensures { result ≡ is_blank byte }
{
    byte == b' ' || byte == b'\t'
}

/// How many blanks stand in front.
fn blanks_len(text: &[u8]) -> usize
    ensures place { result ≡ prefix_len is_blank text.now }
    ensures within { result ≤ length text.now }
{
    for (i, byte) in text.iter().enumerate() {
        if !is_blank(*byte) {
            return i;
        }
    }
    text.len()
}

/// How many bytes stand in front of the first blank.
fn word_len(text: &[u8]) -> usize
    ensures place { result ≡ position_or_len is_blank text.now }
    ensures within { result ≤ length text.now }
{
    for (i, byte) in text.iter().enumerate() {
        if is_blank(*byte) {
            return i;
        }
    }
    text.len()
}

/// The first word of a line, and what stands behind it.
pub(crate) fn next_word(line: &[u8]) -> Option<(&[u8], &[u8])>
    ensures { MatchOption result (words_in line.now ≡ []) (λ parts. (words_in line.now ≡ parts.0.now ∷ words_in parts.1.now) × (length parts.1.now < length line.now)) }
{
    let text = &line[blanks_len(line)..];
    if text.is_empty() {
        return None;
    }
    let end = word_len(text);
    Some((&text[..end], &text[end..]))
}

/// The word at a place, from 0; no bytes past the last.
pub(crate) fn word(place: usize, line: &[u8]) -> &[u8]
    ensures { result.now ≡ word place (words_in line.now) }
{
    match next_word(line) {
        Some((first, behind)) => {
            if place == 0 {
                first
            } else {
                word(place - 1, behind)
            }
        },
        None => &[],
    }
}

/// How many words a line has.
pub(crate) fn count_words(line: &[u8]) -> usize
    ensures { result ≡ length (words_in line.now) }
{
    let mut rest = line;
    let mut count = 0;
    while let Some((_, behind)) = next_word(rest) {
        count += 1;
        rest = behind;
    }
    count
}

/// Whether a line's words are those of a text.
#[tactic(auto, unfolding(crate::specs::Words::says))]
pub(crate) fn says(line: &[u8], text: &[u8]) -> bool
    ensures { result ≡ says (words_in line.now) text.now }
{
    match (next_word(line), next_word(text)) {
        (Some((left, line)), Some((right, text))) => left == right && says(line, text),
        (None, None) => true,
        _ => false,
    }
}

/// Whether the word at a place, from 0, is this one.
pub(crate) fn is(place: usize, line: &[u8], name: &[u8]) -> bool
    ensures { result ≡ is_same (word place (words_in line.now)) name.now }
{
    word(place, line) == name
}

/// Whether a word begins a comment.
fn begins_comment(word: &[u8]) -> bool
    ensures { result ≡ (get_or word.now 0 0 == 35) }
{
    match word {
        [] => false,
        [first, ..] => *first == b'#',
    }
}

/// Whether a line has no word, or is a comment.
pub(crate) fn is_skipped(line: &[u8]) -> bool
    ensures { result ≡ is_skipped (words_in line.now) }
{
    match next_word(line) {
        Some((first, _)) => begins_comment(first),
        None => true,
    }
}
