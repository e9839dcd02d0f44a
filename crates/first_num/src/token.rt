//! A token taken apart into slices of its digits. The grammar is an optional sign, digits with at
//! most one point, and optionally `e` or `E` with a whole number behind it.

ghost use Rattle.std.specs.Prelude.{◌≡◌, ◌≤◌, ◌<◌, ◌-◌, ◌++◌, ℕ, [], length, MatchOption, MatchResult, IfOk, IfErr};
ghost use Rattle.std.specs.Str.Parse.{AllDigits};
ghost use Rattle.first_num.specs.Token.{Token, IsToken, BreaksAt, sign_text};
ghost use Rattle.first_num.specs.Parts.{StartsNoSign, StartsNoDigit, StartsNoMark, StandsBehindMark, ReadsFraction, ReadsPower, BreaksPower, HasParts, AreDigits};

use crate::MOST_BYTES;
use crate::fault::NumFault;

/// How digits are signed.
#[derive(Clone, Copy, Debug, PartialEq, Eq)]
pub enum Sign {
    Bare,
    Plus,
    Minus,
}

/// A token's signs and digits; digits that are not there are empty.
#[derive(Clone, Copy)]
pub(crate) struct Parts<'a> {
    pub sign: Sign,
    pub whole: &'a [u8],
    pub fraction: &'a [u8],
    pub power_sign: Sign,
    pub power: &'a [u8],
}

/// Splits a sign from the bytes behind it.
fn split_sign(bytes: &[u8]) -> (Sign, &[u8])
    ensures text { bytes.now ≡ sign_text result.0 ++ result.1.now }
    ensures bare { result.0 ≡ Sign.Bare → StartsNoSign bytes.now }
{
    match bytes {
        [b'+', rest @ ..] => (Sign::Plus, rest),
        [b'-', rest @ ..] => (Sign::Minus, rest),
        _ => (Sign::Bare, bytes),
    }
}

/// Splits the digits in front from the bytes behind them.
fn split_digits(bytes: &[u8]) -> (&[u8], &[u8])
    ensures text { bytes.now ≡ result.0.now ++ result.1.now }
    ensures digits { AllDigits 10 result.0.now }
    ensures left { StartsNoDigit result.1.now }
{
    for (place, byte) in bytes.iter().enumerate() {
        if !byte.is_ascii_digit() {
            return bytes.split_at(place);
        }
    }
    (bytes, &[])
}

/// Splits the digits behind a point, where one stands in front, from the bytes behind them.
fn split_fraction(bytes: &[u8]) -> (&[u8], &[u8])
    ensures { ReadsFraction bytes.now result.0.now result.1.now }
{
    match bytes {
        [b'.', behind @ ..] => split_digits(behind),
        _ => (&[], bytes),
    }
}

/// The bytes behind the mark of a power of ten, where one stands in front.
fn behind_mark(bytes: &[u8]) -> Option<&[u8]>
    ensures { MatchOption result
        (StartsNoMark bytes.now)
        (λ behind. StandsBehindMark bytes.now behind.now) }
{
    match bytes {
        [b'e', behind @ ..] => Some(behind),
        [b'E', behind @ ..] => Some(behind),
        _ => None,
    }
}

/// Reads what stands behind a mantissa, to the end: nothing, or a power of ten. An error has the
/// bytes from the first that cannot stand there.
fn read_power(bytes: &[u8]) -> Result<(Sign, &[u8]), &[u8]>
    ensures { MatchResult result
        (λ power. ReadsPower bytes.now power.0 power.1.now)
        (λ left. BreaksPower bytes.now left.now) }
{
    if bytes.is_empty() {
        return Ok((Sign::Bare, bytes));
    }
    let Some(behind) = behind_mark(bytes) else {
        return Err(bytes);
    };
    let (sign, unsigned) = split_sign(behind);
    let (digits, left) = split_digits(unsigned);
    if digits.is_empty() || !left.is_empty() {
        return Err(left);
    }
    Ok((sign, digits))
}

/// The fault of a token where the bytes `left` of it cannot stand.
fn bad_digit(token: &[u8], left: &[u8]) -> NumFault
    requires short { length token.now ≤ MOST_BYTES }
    requires part { length left.now ≤ length token.now }
    ensures { result ≡ NumFault.BadDigit (length token.now - length left.now) }
{
    NumFault::BadDigit((token.len() - left.len()) as u8)
}

/// Takes a token apart, or says where it breaks off.
pub(crate) fn take_apart(token: &[u8]) -> Result<Parts<'_>, NumFault>
    requires { length token.now ≤ MOST_BYTES }
    ensures parts { IfOk result (λ parts. (t : Token) × IsToken token.now t × HasParts parts t) }
    ensures digits { IfOk result AreDigits }
    ensures fault { IfErr result
        (λ fault. (place : ℕ) × (fault ≡ NumFault.BadDigit place) × BreaksAt token.now place) }
{
    let (sign, unsigned) = split_sign(token);
    let (whole, behind) = split_digits(unsigned);
    let (fraction, rest) = split_fraction(behind);
    if whole.len() + fraction.len() == 0 {
        return Err(bad_digit(token, rest));
    }
    match read_power(rest) {
        Ok((power_sign, power)) => Ok(Parts {
            sign,
            whole,
            fraction,
            power_sign,
            power,
        }),
        Err(left) => Err(bad_digit(token, left)),
    }
}
