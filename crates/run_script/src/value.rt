//! What a word of a line stands for.

/// What a word stands for in its slot.
#[derive(Clone, Copy)]
pub enum Value {
    /// Nothing but itself.
    Word,
    Byte(u8),
    Short(u16),
    Long(u32),
    Signed(i32),
}

/// What the words behind the first one stand for.
#[derive(Clone, Copy)]
pub struct Values {
    pub second: Value,
    pub third: Value,
    pub fourth: Value,
    pub fifth: Value,
    pub sixth: Value,
}
