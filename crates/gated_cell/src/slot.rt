// The bytes of a slot: a gate, which is open where it is A5, the generation in eight bytes, lowest first, and the payload.
ghost use Rattle.std.specs.Prelude.{◌≡◌, ◌+◌, ◌≤◌, ◌<◌, ◌++◌, ◌==◌, length, take, get_or};
ghost use Rattle.std.specs.Int.{from_le_bytes, to_le_bytes, w64};
ghost use Rattle.disk_model.specs.Bytes.{field};

/// What a gate holds that is open. Every other byte is a closed one.
pub const OPEN: u8 = 0xA5;
/// What is written to close a gate.
pub const CLOSED: u8 = 0;
/// The bytes of a gate and a generation.
pub const HEAD_BYTES: usize = 9;
/// The longest slot that is handled in a short buffer.
pub const SHORT_SLOT: usize = 144;
/// The longest slot that there is.
pub const LONGEST_SLOT: usize = 65_535;

/// Whether the gate of a slot is open, by the bytes of the slot.
pub fn is_open(slot: &[u8]) -> bool
    requires { 9 ≤ length slot.now }
    ensures { result ≡ (get_or slot.now 0 0 == 165) }
{
    slot[0] == OPEN
}

/// The generation of a slot, by the bytes of the slot.
pub fn generation_in(slot: &[u8]) -> u64
    requires { 9 ≤ length slot.now }
    ensures { result ≡ from_le_bytes w64 (field 1 8 slot.now) }
{
    u64::from_le_bytes([
        slot[1], slot[2], slot[3], slot[4], slot[5], slot[6], slot[7], slot[8],
    ])
}

/// Puts a generation and a payload together, and answers how many bytes they are.
pub fn fill(generation: u64, payload: &[u8], bytes: &mut [u8]) -> usize
    requires { length payload.now + 8 ≤ length bytes.old }
    ensures bytes { take result bytes.new ≡ to_le_bytes w64 generation ++ payload.now }
    ensures length { result ≡ 8 + length payload.now }
{
    let n = 8 + payload.len();
    bytes[..8].copy_from_slice(&generation.to_le_bytes());
    bytes[8..n].copy_from_slice(payload);
    n
}
