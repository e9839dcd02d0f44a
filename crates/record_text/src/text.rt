//! A text that grows at its end: words of bytes, numbers in decimal, and nothing else.

ghost use Rattle.std.specs.Prelude.{◌≡◌, ◌++◌, decimal, OnOk};
ghost use Rattle.std.specs.Fmt.{signed_decimal};

use itoa::Buffer;
use std::alloc::AllocError;

/// Appends bytes.
pub(crate) fn push_word(out: &mut Vec<u8>, word: &[u8]) -> Result<(), AllocError>
    ensures { OnOk result (out.new.items ≡ out.old.items ++ word.now) }
{
    match word {
        [byte] => {
            out.push(*byte)?;
            Ok(())
        }
        _ => out.extend_from_slice(word),
    }
}

/// Appends a number.
#[tactic(auto, using(std::proofs::lemmas::Fmt::decimal_digit))]
pub(crate) fn push_number(out: &mut Vec<u8>, number: u64) -> Result<(), AllocError>
    ensures { OnOk result (out.new.items ≡ out.old.items ++ decimal number) }
{
    if number < 10 {
        out.push(b'0' + number as u8)?;
        return Ok(());
    }
    let mut digits = Buffer::new();
    out.extend_from_slice(digits.format(number).as_bytes())
}

/// Appends a number, with a minus where it is below 0.
pub(crate) fn push_signed(out: &mut Vec<u8>, number: &i32) -> Result<(), AllocError>
    ensures { OnOk result (out.new.items ≡ out.old.items ++ signed_decimal number.now) }
{
    if *number >= 0 {
        return push_number(out, *number as u64);
    }
    let mut digits = Buffer::new();
    out.extend_from_slice(digits.format(*number).as_bytes())
}
