//! The record of a plan's state, 7 bytes.

ghost use Rattle.std.specs.Prelude.{◌≡◌, ◌≤◌, ◌<◌, ℕ, Some, IfSome, IfNone};
ghost use Rattle.dataman_layout.specs.declared.layout.Layout.TheVariants.{One, Two};
ghost use Rattle.dataman_layout.specs.Layouts.{limit_in};
ghost use Rattle.dataman_layout.specs.State.{StateRecord, state_bytes, state_in};

use crate::fields::{put_u8, put_u16, put_u32, u8_at, u16_at, u32_at};
use crate::layout::{Layout, limit_in};
use mission_model::{PlanHead, PlanType};

// Where the fields of a state begin.

const BANK: usize = 0;

const ID: usize = 1;

const COUNT: usize = 5;

/// The banks of a plan's type, numbered from 0.
const BANKS: u8 = 2;

/// The bytes of a state: the bank in force, 0 or 1, and the head of the plan in it.
pub fn encode_state(bank: u8, head: PlanHead) -> [u8; 7]
    requires { bank < 2 }
    ensures bytes { result ≡ state_bytes bank head }
    ensures read { (limit : ℕ) → head.count ≤ limit → state_in limit result ≡ Some (bank, head) }
{
    let mut bytes = [0; 7];
    put_u8(&mut bytes, BANK, bank);
    put_u32(&mut bytes, ID, head.id);
    put_u16(&mut bytes, COUNT, head.count);
    bytes
}

/// The bank and the head that these bytes are, if they are a state's of a plan of this type, in layout 2.
pub fn decode_state(kind: PlanType, bytes: &[u8; 7]) -> Option<(u8, PlanHead)>
    ensures read { result ≡ state_in (limit_in Two kind) bytes.now }
    ensures found { IfSome result (λ s. StateRecord (limit_in Two kind) bytes.now s.0 s.1) }
    ensures bytes { IfSome result (λ s. bytes.now ≡ state_bytes s.0 s.1) }
    ensures none { IfNone result ((bank : ℕ) (head : PlanHead) → StateRecord (limit_in Two kind) bytes.now bank head → ⊥) }
{
    state_of(limit_in(Layout::Two, kind), bytes)
}

/// The same in layout 1.
pub fn decode_state_one(kind: PlanType, bytes: &[u8; 7]) -> Option<(u8, PlanHead)>
    ensures read { result ≡ state_in (limit_in One kind) bytes.now }
    ensures found { IfSome result (λ s. StateRecord (limit_in One kind) bytes.now s.0 s.1) }
    ensures bytes { IfSome result (λ s. bytes.now ≡ state_bytes s.0 s.1) }
    ensures none { IfNone result ((bank : ℕ) (head : PlanHead) → StateRecord (limit_in One kind) bytes.now bank head → ⊥) }
{
    state_of(limit_in(Layout::One, kind), bytes)
}

/// The state by its fields, of a plan of so many items at most.
fn state_of(limit: u16, bytes: &[u8; 7]) -> Option<(u8, PlanHead)>
    ensures read { result ≡ state_in limit bytes.now }
    ensures found { IfSome result (λ s. StateRecord limit bytes.now s.0 s.1) }
    ensures bytes { IfSome result (λ s. bytes.now ≡ state_bytes s.0 s.1) }
    ensures none { IfNone result ((bank : ℕ) (head : PlanHead) → StateRecord limit bytes.now bank head → ⊥) }
{
    fields_of(limit, bytes)
}

/// The same, read field by field.
#[tactic(auto, unfolding(crate::specs::State::state_in))]
fn fields_of(limit: u16, bytes: &[u8; 7]) -> Option<(u8, PlanHead)>
    ensures { result ≡ state_in limit bytes.now }
{
    let bank = u8_at(bytes, BANK);
    let id = u32_at(bytes, ID);
    let count = u16_at(bytes, COUNT);
    if bank < BANKS && count <= limit {
        Some((bank, PlanHead { id, count }))
    } else {
        None
    }
}
