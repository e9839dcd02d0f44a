//! Scaled numbers: a decimal token read as the nearest whole number of 10^-scale units, and such a
//! number printed as its shortest exact decimal. Both are exact, and reading takes no memory.
#![tactic(auto)]

mod fault;
mod number;
mod print;
mod read;
mod token;

pub use fault::NumFault;
pub use print::print_scaled;
pub use read::read_scaled;

/// The most bytes that a token may have.
pub const MOST_BYTES: usize = 64;

/// No number of this size or above fits, so digits are not followed further.
const MOST_NUMBER: u64 = 1_000_000_000_000;
