//! A scaled number printed as its shortest exact decimal: the whole part, and the digits behind the
//! point without the zeros at their end.

ghost use Rattle.std.specs.Prelude.{◌≡◌, ◌≢◌, ◌+◌, ◌%◌, ◌/◌, ◌^◌, ◌<◌, ◌≤◌, ◌⊎◌, ◌++◌, ◌∷◌, [], OnOk, OnErr, All, decimal};
ghost use Rattle.first_num.specs.Faults.{ReadsAs};
ghost use Rattle.first_num.specs.Appended.{Extends};
ghost use Rattle.first_num.specs.Decimal.{IsDecimalByte, IsShortest, behind_point, decimal_of, last_digits, magnitude_text, without_last_zeros};

use std::alloc::AllocError;

/// Appends one byte.
fn push_byte(out: &mut Vec<u8>, byte: u8) -> Result<(), AllocError>
    ensures ok { OnOk result (out.new.items ≡ out.old.items ++ byte ∷ []) }
    ensures kept { Extends out.old.items out.new.items }
{
    out.push(byte)?;
    Ok(())
}

/// Appends a number in decimal.
fn push_number(out: &mut Vec<u8>, number: u32) -> Result<(), AllocError>
    ensures ok { OnOk result (out.new.items ≡ out.old.items ++ decimal number) }
    ensures kept { Extends out.old.items out.new.items }
{
    if number >= 10 {
        push_number(out, number / 10)?;
    }
    push_byte(out, b'0' + (number % 10) as u8)
}

/// Appends the last digits of a number.
fn push_last_digits(out: &mut Vec<u8>, number: u32, count: u8) -> Result<(), AllocError>
    ensures ok { OnOk result (out.new.items ≡ out.old.items ++ last_digits count number) }
    ensures kept { Extends out.old.items out.new.items }
{
    if count == 0 {
        return Ok(());
    }
    push_last_digits(out, number / 10, count - 1)?;
    push_byte(out, b'0' + (number % 10) as u8)
}

/// Drops the zeros at the end of the last digits of a number: what is left of it, and how many.
fn without_zeros(mut number: u32, mut count: u8) -> (u32, u8)
    ensures { last_digits result.1 result.0 ≡ without_last_zeros (last_digits count number) }
{
    while count > 0 && number % 10 == 0 {
        number /= 10;
        count -= 1;
    }
    (number, count)
}

/// Appends the digits behind a point, if any is not 0.
fn push_fraction(out: &mut Vec<u8>, number: u32, scale: u8) -> Result<(), AllocError>
    ensures ok { let digits = without_last_zeros (last_digits scale number) in
        OnOk result (out.new.items ≡ out.old.items ++ behind_point digits) }
    ensures kept { Extends out.old.items out.new.items }
{
    let (digits, count) = without_zeros(number, scale);
    if count == 0 {
        return Ok(());
    }
    push_byte(out, b'.')?;
    push_last_digits(out, digits, count)
}

/// Appends a magnitude.
#[tactic(auto, unfolding(crate::specs::Decimal::magnitude_text))]
fn push_magnitude(out: &mut Vec<u8>, magnitude: u32, scale: u8) -> Result<(), AllocError>
    requires { scale ≤ 9 }
    ensures ok { OnOk result (out.new.items ≡ out.old.items ++ magnitude_text magnitude scale) }
    ensures kept { Extends out.old.items out.new.items }
{
    let unit = 10u32.pow(u32::from(scale));
    push_number(out, magnitude / unit)?;
    push_fraction(out, magnitude % unit, scale)
}

/// Appends a number, or a part of it.
#[tactic(auto, unfolding(crate::specs::Decimal::decimal_of))]
fn push_scaled(out: &mut Vec<u8>, value: i32, scale: u8) -> Result<(), AllocError>
    requires { scale ≤ 9 }
    ensures ok { OnOk result (out.new.items ≡ out.old.items ++ decimal_of value scale) }
    ensures kept { Extends out.old.items out.new.items }
{
    if value < 0 {
        push_byte(out, b'-')?;
    }
    push_magnitude(out, value.unsigned_abs(), scale)
}

/// Appends what a whole number of units of 10^-scale is worth: `-50` at scale 3 is `-0.05`. No zero
/// stands at the end of a fraction, and `1000` at scale 3 is `1`, with no point.
pub fn print_scaled(out: &mut Vec<u8>, value: i32, scale: u8) -> Result<(), AllocError>
    requires { scale ≤ 9 }
    ensures ok { OnOk result (out.new.items ≡ out.old.items ++ decimal_of value scale) }
    ensures err { OnErr result (out.new.items ≡ out.old.items) }

    // What holds of the decimal, whatever the call answers.
    ensures reads_back { ReadsAs (decimal_of value scale) scale value }
    ensures shortest { IsShortest (decimal_of value scale) value scale }
    ensures bytes { All IsDecimalByte (decimal_of value scale) }
{
    let length = out.len();
    let printed = push_scaled(out, value, scale);
    if printed.is_err() {
        out.truncate(length);
    }
    printed
}
