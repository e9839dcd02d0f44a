//! The number that digits write, as far as it matters: beyond a limit it stays at the limit.

ghost use Rattle.std.specs.Prelude.{◌≡◌, ◌+◌, ◌*◌, ◌<◌, ◌≤◌, ◌++◌, ◌^◌, ℕ, length, min};
ghost use Rattle.std.specs.Char.{digit_value};
ghost use Rattle.std.specs.Str.Parse.{AllDigits, digits_value};
ghost use Rattle.nav_num.specs.Digits.{leading_number, digit_at};

/// The value of an ASCII digit.
fn value_of(digit: u8) -> u64
    requires { digit_value digit < 10 }
    ensures value { result ≡ digit_value digit }
    ensures decimal { result < 10 }
{
    u64::from(digit - b'0')
}

/// A number with one more digit behind it, or the limit.
fn with_digit(number: u64, digit: u64, limit: u64) -> u64
    requires small { number ≤ 10 ^ 12 }
    requires decimal { digit < 10 }
    ensures { result ≡ min (number * 10 + digit) limit }
{
    (number * 10 + digit).min(limit)
}

/// The number that digits write, or the limit where it is larger.
pub(crate) fn number_up_to(digits: &[u8], limit: u64) -> u64
    requires small { limit ≤ 10 ^ 12 }
    requires digits { AllDigits 10 digits.now }
    ensures { result ≡ min (digits_value 10 digits.now) limit }
{
    let mut number = 0;
    for byte in digits {
        number = with_digit(number, value_of(*byte), limit);
    }
    number
}

/// The digit at a place of the digits before and behind a point, and a zero behind them.
fn digit_of(whole: &[u8], fraction: &[u8], place: usize) -> u64
    requires whole { AllDigits 10 whole.now }
    requires fraction { AllDigits 10 fraction.now }
    requires room { length whole.now + length fraction.now < 2 ^ 63 }
    ensures value { result ≡ digit_at (whole.now ++ fraction.now) place }
    ensures decimal { result < 10 }
{
    if place < whole.len() {
        return value_of(whole[place]);
    }
    let behind = place - whole.len();
    if behind < fraction.len() {
        return value_of(fraction[behind]);
    }
    0
}

/// The number that the first `count` digits before and behind a point write, where zeros follow the
/// last, or the limit where it is larger.
pub(crate) fn leading_up_to(whole: &[u8], fraction: &[u8], count: usize, limit: u64) -> u64
    requires small { limit ≤ 10 ^ 12 }
    requires whole { AllDigits 10 whole.now }
    requires fraction { AllDigits 10 fraction.now }
    requires room { length whole.now + length fraction.now < 2 ^ 63 }
    ensures { result ≡ min (leading_number (whole.now ++ fraction.now) count) limit }
{
    let mut number = 0;
    for place in 0..count {
        number = with_digit(number, digit_of(whole, fraction, place), limit);
    }
    number
}
