//! A token read as a scaled number: its digits are cut one place behind the point that the scale
//! and the exponent move, and the last of them rounds, so that no power of ten is ever computed.

ghost use Rattle.std.specs.Prelude.{◌≡◌, ◌+◌, ◌/◌, ◌≤◌, ◌^◌, ℤ, length, min, MatchResult, FitsSigned};
ghost use Rattle.std.specs.Int.{w32};
ghost use Rattle.std.specs.Option.{SomeIff};
ghost use Rattle.std.specs.Str.Parse.{digits_value};
ghost use Rattle.first_num.specs.declared.fault.NumFault.{NumFault};
ghost use Rattle.first_num.specs.Scaled.{signed};
ghost use Rattle.first_num.specs.Parts.{AreDigits, kept, rounded};
ghost use Rattle.first_num.specs.Faults.{ReadsAs, HasFault};

use crate::fault::NumFault;
use crate::number::{leading_up_to, number_up_to};
use crate::token::{Parts, Sign, take_apart};
use crate::{MOST_BYTES, MOST_NUMBER};

/// An exponent beyond which a token whose digits are not all 0 reads as 0, or is out of range.
const MOST_POWER: u64 = 128;

/// How many digits of a token its scaled number keeps: those before its point, and one more.
fn digits_kept(parts: &Parts<'_>, scale: u8) -> usize
    requires digits { AreDigits parts.now }
    requires scale { scale ≤ 9 }
    ensures { let power = min (digits_value 10 parts.now.power.now) MOST_POWER in
        result ≡ kept (length parts.now.whole.now) scale parts.now.power_sign power }
{
    let power = number_up_to(parts.power, MOST_POWER) as usize;
    let before = parts.whole.len() + usize::from(scale) + 1;
    match parts.power_sign {
        Sign::Minus => before.saturating_sub(power),
        Sign::Bare | Sign::Plus => before + power,
    }
}

/// The magnitude of the scaled number, as far as it matters.
fn magnitude(parts: &Parts<'_>, scale: u8) -> u64
    requires digits { AreDigits parts.now }
    requires scale { scale ≤ 9 }
    ensures { result ≡ rounded parts.now scale }
{
    let count = digits_kept(parts, scale);
    let number = leading_up_to(parts.whole, parts.fraction, count, MOST_NUMBER);
    (number + 5) / 10
}

/// A magnitude under its sign, where it fits.
fn with_sign(sign: Sign, magnitude: u64) -> Option<i32>
    requires { magnitude ≤ MOST_NUMBER }
    ensures { SomeIff result (FitsSigned w32 (signed sign magnitude)) (signed sign magnitude) }
{
    let above = magnitude as i64;
    let number = match sign {
        Sign::Minus => -above,
        Sign::Bare | Sign::Plus => above,
    };
    i32::try_from(number).ok()
}

/// Reads a token, and finds the one answer.
#[tactic(auto, unfolding(crate::specs::Faults::HasFault))]
fn read_token(token: &[u8], scale: u8) -> Result<i32, NumFault>
    requires { scale ≤ 9 }
    ensures { MatchResult result (ReadsAs token.now scale) (HasFault token.now scale) }
{
    if token.is_empty() {
        return Err(NumFault::Empty);
    }
    if token.len() > MOST_BYTES {
        return Err(NumFault::TooLong);
    }
    let parts = take_apart(token)?;
    match with_sign(parts.sign, magnitude(&parts, scale)) {
        Some(number) => Ok(number),
        None => Err(NumFault::OutOfRange),
    }
}

/// Reads a decimal token as a whole number of units of 10^-scale: the nearest, ties away from 0.
///
/// `12`, `-.5`, `+5.` and `4.75E-03` are tokens; `1e`, `.`, `1.5.2` and a blank in front are none.
/// Where a token has several faults the order is that of [`NumFault`]'s variants: how long it is
/// comes before how it is written, and both before what it is worth.
pub fn read_scaled(token: &[u8], scale: u8) -> Result<i32, NumFault>
    requires { scale ≤ 9 }
    ensures answer { MatchResult result (ReadsAs token.now scale) (HasFault token.now scale) }
    ensures every_number { (n : ℤ) → ReadsAs token.now scale n → result ≡ Ok n }
    ensures every_fault { (fault : NumFault) → HasFault token.now scale fault → result ≡ Err fault }
{
    read_token(token, scale)
}
