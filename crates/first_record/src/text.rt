//! A text that grows at its end: words of bytes, numbers in decimal, and nothing else.

ghost use Rattle.std.specs.Prelude.{◌≡◌, ◌++◌, [], decimal, OnOk};
ghost use Rattle.std.specs.Fmt.{signed_decimal};

use itoa::Buffer;
use std::alloc::{AllocError, Global};
use std::marker::Model;

/// The bytes so far.
#[derive(Drop)]
pub(crate) struct Text {
    bytes: Vec<u8>,
}

impl Model for Text {
    ghost use Rattle.std.specs.Prelude.{List, ℕ};

    ghost Value = { List ℕ };

    ghost view = { λ text. text.bytes.items };
}

impl Text {
    pub fn new(alloc: Global) -> Text
        ensures { result ≡ [] }
    {
        Text {
            bytes: Vec::new(alloc),
        }
    }

    pub fn into_vec(self) -> Vec<u8>
        ensures { result.items ≡ self }
    {
        self.bytes
    }

    pub fn push(&mut self, word: &[u8]) -> Result<(), AllocError>
        ensures { OnOk result (self.new ≡ self.old ++ word.now) }
    {
        self.bytes.extend_from_slice(word)
    }

    pub fn push_number(&mut self, number: u64) -> Result<(), AllocError>
        ensures { OnOk result (self.new ≡ self.old ++ decimal number) }
    {
        let mut digits = Buffer::new();
        self.bytes
            .extend_from_slice(digits.format(number).as_bytes())
    }

    pub fn push_signed(&mut self, number: &i32) -> Result<(), AllocError>
        ensures { OnOk result (self.new ≡ self.old ++ signed_decimal number.now) }
    {
        let mut digits = Buffer::new();
        self.bytes
            .extend_from_slice(digits.format(*number).as_bytes())
    }
}
