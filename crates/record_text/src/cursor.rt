//! Reading from the front of bytes, leniently: each reader answers what stands there and the bytes behind it, and
//! something of its type where nothing that fits stands there. What was read is compared with the bytes later.

ghost use Rattle.std.specs.Prelude.{◌≡◌, ◌^◌, ◌<◌, ◌≤◌, IsTrue, length, drop};
ghost use Rattle.record_text.specs.Numbers.{byte_at, is_digit, with_digit, number_from, number_at, above_zero, below_zero, signed_at};

/// The byte at a place, 0 behind the last.
pub(crate) fn byte(bytes: &[u8], place: usize) -> u8
    ensures { result ≡ byte_at bytes.now place }
{
    if place < bytes.len() { bytes[place] } else { 0 }
}

/// The bytes behind so many.
pub(crate) fn skip(bytes: &[u8], count: usize) -> &[u8]
    ensures { result.now ≡ drop count bytes.now }
{
    if count <= bytes.len() {
        &bytes[count..]
    } else {
        &[]
    }
}

/// Whether a byte is a digit.
pub(crate) fn digit(byte: u8) -> bool
    ensures { result ≡ is_digit byte }
{
    byte >= b'0' && byte <= b'9'
}

/// A number with one more digit behind it.
fn more(number: u64, byte: u8) -> u64
    requires { 48 ≤ byte }
    ensures { result ≡ with_digit number byte }
{
    number
        .saturating_mul(10)
        .saturating_add(u64::from(byte - b'0'))
}

/// Whether a digit stands at a place.
pub(crate) fn is_digit_at(bytes: &[u8], place: usize) -> bool
    ensures value { result ≡ is_digit (byte_at bytes.now place) }
    ensures inside { IsTrue result → place < length bytes.now }
{
    place < bytes.len() && digit(bytes[place])
}

/// A number, and the bytes behind its digits.
pub(crate) fn number(bytes: &[u8]) -> (u64, &[u8])
    ensures value { result.0 ≡ (number_from 0 bytes.now).0 }
    ensures rest { result.1.now ≡ (number_from 0 bytes.now).1 }
{
    let mut number = 0;
    let mut place = 0;
    while is_digit_at(bytes, place) {
        number = more(number, bytes[place]);
        place += 1;
    }
    (number, skip(bytes, place))
}

/// A number of 8 bits.
#[tactic(auto, unfolding(crate::specs::Numbers::number_at))]
pub(crate) fn number_u8(bytes: &[u8]) -> (u8, &[u8])
    ensures value { result.0 ≡ (number_at (2 ^ 8) bytes.now).0 }
    ensures rest { result.1.now ≡ (number_at (2 ^ 8) bytes.now).1 }
{
    let (number, rest) = number(bytes);
    if number < 256 {
        (number as u8, rest)
    } else {
        (0, rest)
    }
}

/// A number of 16 bits.
#[tactic(auto, unfolding(crate::specs::Numbers::number_at))]
pub(crate) fn number_u16(bytes: &[u8]) -> (u16, &[u8])
    ensures value { result.0 ≡ (number_at (2 ^ 16) bytes.now).0 }
    ensures rest { result.1.now ≡ (number_at (2 ^ 16) bytes.now).1 }
{
    let (number, rest) = number(bytes);
    if number < 65536 {
        (number as u16, rest)
    } else {
        (0, rest)
    }
}

/// A number of 32 bits.
#[tactic(auto, unfolding(crate::specs::Numbers::number_at))]
pub(crate) fn number_u32(bytes: &[u8]) -> (u32, &[u8])
    ensures value { result.0 ≡ (number_at (2 ^ 32) bytes.now).0 }
    ensures rest { result.1.now ≡ (number_at (2 ^ 32) bytes.now).1 }
{
    let (number, rest) = number(bytes);
    if number < 4294967296 {
        (number as u32, rest)
    } else {
        (0, rest)
    }
}

fn above(number: u64) -> i32
    ensures { result ≡ above_zero number }
{
    if number < 2147483648 {
        number as i32
    } else {
        0
    }
}

fn below(number: u64) -> i32
    ensures { result ≡ below_zero number }
{
    if number <= 2147483648 {
        (-(number as i64)) as i32
    } else {
        0
    }
}

/// A signed number of 32 bits.
#[tactic(auto, unfolding(crate::specs::Numbers::signed_at))]
pub(crate) fn signed(bytes: &[u8]) -> (i32, &[u8])
    ensures value { result.0 ≡ (signed_at bytes.now).0 }
    ensures rest { result.1.now ≡ (signed_at bytes.now).1 }
{
    if byte(bytes, 0) == b'-' {
        let (size, rest) = number(skip(bytes, 1));
        return (below(size), rest);
    }
    let (size, rest) = number(bytes);
    (above(size), rest)
}
