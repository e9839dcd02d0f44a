//! A token of one to ten digits read as a whole number within a range.

ghost use Rattle.std.specs.Prelude.{◌≡◌, ◌≤◌, length, position, None};
ghost use Rattle.std.specs.Str.Parse.{digits_value};
ghost use Rattle.nav_num.specs.Whole.{is_no_digit, whole_number, within};

use crate::fault::NumFault;
use crate::number::number_up_to;
use crate::{MOST_DIGITS, MOST_NUMBER};

/// The place of the first byte that is no digit.
fn first_other(token: &[u8]) -> Option<usize>
    ensures { result ≡ position is_no_digit token.now }
{
    token.iter().position(|byte| !byte.is_ascii_digit())
}

/// The number that at most ten digits write.
fn digits(token: &[u8]) -> u64
    requires few { length token.now ≤ MOST_DIGITS }
    requires digits { position is_no_digit token.now ≡ None }
    ensures { result ≡ digits_value 10 token.now }
{
    number_up_to(token, MOST_NUMBER)
}

/// A number, where it lies within the range.
fn in_range(number: u64, least: u32, greatest: u32) -> Result<u32, NumFault>
    ensures { result ≡ within least greatest number }
{
    if number < u64::from(least) || number > u64::from(greatest) {
        return Err(NumFault::OutOfRange);
    }
    Ok(number as u32)
}

/// Reads a token as a whole number from `least` to `greatest`. It has one to ten digits and nothing else: no sign, no
/// point, no exponent, no blank. Leading zeros count as digits. Where a token has several faults the order is that of
/// [`NumFault`]'s variants.
#[tactic(auto, unfolding(crate::specs::Whole::whole_number))]
pub fn read_whole(token: &[u8], least: u32, greatest: u32) -> Result<u32, NumFault>
    ensures { result ≡ whole_number least greatest token.now }
{
    if token.is_empty() {
        return Err(NumFault::Empty);
    }
    if token.len() > MOST_DIGITS {
        return Err(NumFault::TooLong);
    }
    match first_other(token) {
        Some(place) => Err(NumFault::BadDigit(place as u8)),
        None => in_range(digits(token), least, greatest),
    }
}
