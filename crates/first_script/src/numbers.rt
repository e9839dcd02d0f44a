//! The whole numbers that words write.

ghost use Rattle.std.specs.Prelude.{◌≡◌, ◌<◌, ◌≤◌, ◌^◌, length, IfSome, IfOk};
ghost use Rattle.first_text.specs.Words.{words_in};
ghost use Rattle.first_script.specs.Numbers.{whole_of, whole_within, is_within};
ghost use Rattle.first_script.specs.Reads.{Gives};
ghost use Rattle.first_script.specs.Entries.{number_in};

use crate::bounds::MAX_DIGITS;
use crate::fault::{ScriptFault, Stop};
use crate::words::word;

/// The whole number that a word of one to ten digits writes.
#[tactic(auto, unfolding(crate::specs::Numbers::whole_of))]
fn whole(word: &[u8]) -> Option<u64>
    ensures { result ≡ whole_of word.now }
{
    if word.is_empty() || word.len() > MAX_DIGITS {
        return None;
    }
    let mut value: u64 = 0;
    for byte in word {
        if !byte.is_ascii_digit() {
            return None;
        }
        value = value * 10 + u64::from(*byte - b'0');
    }
    Some(value)
}

/// The whole number that a word writes, if it lies in the range.
#[tactic(auto, unfolding(crate::specs::Numbers::whole_within))]
pub(crate) fn whole_within(low: u64, high: u64, word: &[u8]) -> Option<u64>
    ensures value { result ≡ whole_within low high word.now }
    ensures within { IfSome result (λ n. (low ≤ n) × (n ≤ high)) }
{
    let n = whole(word)?;
    if low <= n && n <= high { Some(n) } else { None }
}

/// Whether a word writes a whole number of the range.
pub(crate) fn is_within(low: u64, high: u64, word: &[u8]) -> bool
    ensures { result ≡ is_within low high word.now }
{
    whole_within(low, high, word).is_some()
}

/// The whole number of a range that a field's word is. Fields are numbered from 1.
#[tactic(auto, unfolding(crate::specs::Entries::number_in))]
pub(crate) fn number_in(field: u8, low: u64, high: u64, line: &[u8]) -> Result<u64, Stop>
    requires { 0 < field }
    ensures number { Gives result (number_in field low high (words_in line.now)) }
    ensures within { IfOk result (λ n. (low ≤ n) × (n ≤ high)) }
{
    match whole_within(low, high, word(usize::from(field) - 1, line)) {
        Some(number) => Ok(number),
        None => Err(Stop::Fault(ScriptFault::Number(field))),
    }
}
