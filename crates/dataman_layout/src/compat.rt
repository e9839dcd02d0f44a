//! The record of the layout's version, 7 bytes.

ghost use Rattle.std.specs.Prelude.{◌≡◌, ℕ, IfSome, IfNone};
ghost use Rattle.dataman_layout.specs.Fields.{number_at};
ghost use Rattle.dataman_layout.specs.Compat.{CompatRecord, compat_bytes};

use crate::fields::{is_zeros_from, put_u32, u32_at};

// Where the fields of a version begin.

const VERSION: usize = 0;

const REST: usize = 4;

/// The bytes of a version.
pub fn encode_compat(version: u32) -> [u8; 7]
    ensures bytes { result ≡ compat_bytes version }
    ensures found { CompatRecord result version }
{
    let mut bytes = [0; 7];
    put_u32(&mut bytes, VERSION, version);
    bytes
}

/// The version that these bytes tell, whatever stands behind it.
pub fn version_in(bytes: &[u8; 7]) -> u32
    ensures { result ≡ number_at 0 4 bytes.now }
{
    u32_at(bytes, VERSION)
}

/// The version that these bytes are, if they are one's.
pub fn decode_compat(bytes: &[u8; 7]) -> Option<u32>
    ensures found { IfSome result (λ n. CompatRecord bytes.now n) }
    ensures bytes { IfSome result (λ n. bytes.now ≡ compat_bytes n) }
    ensures none { IfNone result ((n : ℕ) → CompatRecord bytes.now n → ⊥) }
{
    if is_zeros_from(bytes, REST) {
        Some(version_in(bytes))
    } else {
        None
    }
}
