//! Numbers in texts. A decimal token is read as the nearest whole number of 10^-scale units, and such a number printed as
//! its shortest exact decimal; a token of digits is read as a whole number. All are exact, and reading takes no memory.
#![tactic(auto)]

mod fault;
mod number;
mod print;
mod read;
mod token;
mod whole;

pub use fault::NumFault;
pub use print::print_scaled;
pub use read::read_scaled;
pub use whole::read_whole;

/// The most bytes that a token of a scaled number may have.
pub const MOST_BYTES: usize = 64;

/// The most digits of a whole number.
pub const MOST_DIGITS: usize = 10;

/// No number of this size or above fits, so digits are not followed further.
const MOST_NUMBER: u64 = 1_000_000_000_000;

#[cfg(test)]
mod tests;
