//! Numbers that words write, beside the decimal ones.

ghost use Rattle.std.specs.Prelude.{◌≡◌, ◌≤◌, IfSome};
ghost use Rattle.run_script.specs.Numbers.{signed_number, hex_digit, hex_number, has_value, value_of, not_above_zero, not_below_zero};
ghost use Rattle.nav_num.specs.Whole.{whole_number};

use nav_num::read_whole;

/// The greatest magnitude of a number with a minus.
const MOST_BELOW: u32 = 2_147_483_648;
/// And of one without.
const MOST_ABOVE: u32 = 2_147_483_647;

/// Whether a word is this whole number.
pub(crate) fn is_code(word: &[u8], number: u16) -> bool
    ensures { result ≡ has_value (whole_number number number word.now) }
{
    read_whole(word, u32::from(number), u32::from(number)).is_ok()
}

/// A whole number within a range.
pub(crate) fn whole(word: &[u8], least: u32, greatest: u32) -> Option<u32>
    ensures value { result ≡ value_of (whole_number least greatest word.now) }
    ensures above { IfSome result (λ n. least ≤ n) }
    ensures below { IfSome result (λ n. n ≤ greatest) }
{
    match read_whole(word, least, greatest) {
        Ok(number) => Some(number),
        Err(_) => None,
    }
}

/// The number behind a minus.
fn not_above_zero(digits: &[u8]) -> Option<i32>
    ensures { result ≡ not_above_zero (value_of (whole_number 0 MOST_BELOW digits.now)) }
{
    match whole(digits, 0, MOST_BELOW) {
        Some(number) => Some((-i64::from(number)) as i32),
        None => None,
    }
}

/// The number without one.
fn not_below_zero(digits: &[u8]) -> Option<i32>
    ensures { result ≡ not_below_zero (value_of (whole_number 0 MOST_ABOVE digits.now)) }
{
    match whole(digits, 0, MOST_ABOVE) {
        Some(number) => Some(number as i32),
        None => None,
    }
}

/// A whole number of 32 bits, with a minus or without.
#[tactic(auto, unfolding(crate::specs::Numbers::signed_number))]
pub(crate) fn signed_number(word: &[u8]) -> Option<i32>
    ensures { result ≡ signed_number word.now }
{
    match word {
        [b'-', digits @ ..] => not_above_zero(digits),
        _ => not_below_zero(word),
    }
}

fn hex_digit(byte: u8) -> Option<u8>
    ensures { result ≡ hex_digit byte }
{
    match byte {
        b'0'..=b'9' => Some(byte - b'0'),
        b'a'..=b'f' => Some(byte - b'a' + 10),
        b'A'..=b'F' => Some(byte - b'A' + 10),
        _ => None,
    }
}

/// A byte of two hexadecimal digits.
#[tactic(auto, unfolding(crate::specs::Numbers::hex_number))]
pub(crate) fn hex_number(word: &[u8]) -> Option<u8>
    ensures { result ≡ hex_number word.now }
{
    if word.len() != 2 {
        return None;
    }
    match (hex_digit(word[0]), hex_digit(word[1])) {
        (Some(high), Some(low)) => Some(16 * high + low),
        _ => None,
    }
}
