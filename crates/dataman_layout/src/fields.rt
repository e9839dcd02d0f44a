// Numbers at places of a record, the lowest byte first.
ghost use Rattle.std.specs.Prelude.{◌≡◌, ◌+◌, ◌≤◌, ◌<◌, ◌^◌, ◌++◌, ℕ, length, take, drop};
ghost use Rattle.std.specs.Int.{w32};
ghost use Rattle.std.specs.Int.RustNames.{FitsSigned};
ghost use Rattle.dataman_layout.specs.Fields.{number_bytes, number_at, signed_bytes, signed_at, is_zeros};

use byteorder::{ByteOrder, LittleEndian};

/// The number of two bytes at a place.
#[tactic(auto, unfolding(crate::specs::Fields::number_at))]
pub fn u16_at(bytes: &[u8], at: usize) -> u16
    requires { at + 2 ≤ length bytes.now }
    ensures { result ≡ number_at at 2 bytes.now }
{
    LittleEndian::read_u16(&bytes[at..])
}

/// The number of four bytes at a place.
#[tactic(auto, unfolding(crate::specs::Fields::number_at))]
pub fn u32_at(bytes: &[u8], at: usize) -> u32
    requires { at + 4 ≤ length bytes.now }
    ensures { result ≡ number_at at 4 bytes.now }
{
    LittleEndian::read_u32(&bytes[at..])
}

/// The signed number of four bytes at a place.
#[tactic(auto, unfolding(crate::specs::Fields::number_at))]
pub fn i32_at(bytes: &[u8], at: usize) -> i32
    requires { at + 4 ≤ length bytes.now }
    ensures { result ≡ signed_at at bytes.now }
{
    LittleEndian::read_i32(&bytes[at..])
}

/// The byte at a place.
#[tactic(auto, unfolding(crate::specs::Fields::number_at))]
pub fn u8_at(bytes: &[u8], at: usize) -> u8
    requires { at + 1 ≤ length bytes.now }
    ensures { result ≡ number_at at 1 bytes.now }
{
    bytes[at]
}

/// Whether all bytes from a place on are zero.
#[tactic(auto, using(crate::proofs::Puts::rests))]
pub fn is_zeros_from(bytes: &[u8], at: usize) -> bool
    requires { at ≤ length bytes.now }
    ensures { result ≡ is_zeros (drop at bytes.now) }
{
    is_zeros(&bytes[at..])
}

fn is_zeros(bytes: &[u8]) -> bool
    ensures { result ≡ is_zeros bytes.now }
{
    bytes.iter().all(|byte| *byte == 0)
}

/// Puts a byte at a place.
#[tactic(auto, unfolding(crate::specs::Fields::number_bytes))]
pub fn put_u8(bytes: &mut [u8], at: usize, number: u8)
    requires { at + 1 ≤ length bytes.old }
    ensures front { take (at + 1) bytes.new ≡ take at bytes.old ++ number_bytes 1 number }
    ensures rest { (k : ℕ) → at + 1 ≤ k → drop k bytes.new ≡ drop k bytes.old }
{
    bytes[at] = number;
}

/// Puts a number of two bytes at a place.
#[tactic(auto, unfolding(crate::specs::Fields::number_bytes))]
pub fn put_u16(bytes: &mut [u8], at: usize, number: u16)
    requires { at + 2 ≤ length bytes.old }
    ensures front { take (at + 2) bytes.new ≡ take at bytes.old ++ number_bytes 2 number }
    ensures rest { (k : ℕ) → at + 2 ≤ k → drop k bytes.new ≡ drop k bytes.old }
    ensures fits { number < 2 ^ 16 }
{
    LittleEndian::write_u16(&mut bytes[at..at + 2], number);
}

/// Puts a number of four bytes at a place.
#[tactic(auto, unfolding(crate::specs::Fields::number_bytes))]
pub fn put_u32(bytes: &mut [u8], at: usize, number: u32)
    requires { at + 4 ≤ length bytes.old }
    ensures front { take (at + 4) bytes.new ≡ take at bytes.old ++ number_bytes 4 number }
    ensures rest { (k : ℕ) → at + 4 ≤ k → drop k bytes.new ≡ drop k bytes.old }
    ensures fits { number < 2 ^ 32 }
{
    LittleEndian::write_u32(&mut bytes[at..at + 4], number);
}

/// Puts a signed number of four bytes at a place.
pub fn put_i32(bytes: &mut [u8], at: usize, number: i32)
    requires { at + 4 ≤ length bytes.old }
    ensures front { take (at + 4) bytes.new ≡ take at bytes.old ++ signed_bytes number }
    ensures rest { (k : ℕ) → at + 4 ≤ k → drop k bytes.new ≡ drop k bytes.old }
    ensures fits { FitsSigned w32 number }
{
    put_u32(bytes, at, number.cast_unsigned());
}
