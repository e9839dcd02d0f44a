// Where a cell stands on its disk.

/// Where the two slots of a cell stand: the first begins at `at`, the second behind it.
#[derive(Clone, Copy, Debug, PartialEq, Eq)]
pub struct CellPlace {
    /// The first byte of the first slot.
    pub at: u64,
    /// The bytes of each slot: one of the gate, eight of the generation, and the payload.
    pub slot_bytes: u16,
}
