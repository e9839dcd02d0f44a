//! Where the cells and the banks of the store stand. Record k of a bank stands 48 k bytes behind the bank's begin.

ghost use Rattle.std.specs.Prelude.{◌≡◌, ◌+◌, ◌≤◌, ◌<◌};
ghost use Rattle.mission_model.specs.declared.limits.TheConstants.{STORE_BYTES};
ghost use Rattle.dataman_layout.specs.Layouts.{limit_in};
ghost use Rattle.dataman_layout.specs.Places.{state_at, mark_at, mark_slot, bank_at, record_at};

use crate::layout::{Layout, ONE, TWO};
use mission_model::PlanType;

/// The cell that tells the layout's version, two slots.
pub const COMPAT_AT: u64 = 0;
/// Bytes of a slot of the compat cell or of a state cell: a gate, eight bytes of generation, seven of payload.
pub const SMALL_SLOT_BYTES: u16 = 16;
/// Bytes of an item's record.
pub const RECORD_BYTES: u64 = 48;
/// Bytes of a mark's slot beside its pairs, and of each pair.
const MARK_SLOT_FRONT: u16 = 16;

const PAIR_BYTES: u16 = 4;

/// Where the state cell of a plan's type stands, two slots.
pub fn state_at(layout: Layout, kind: PlanType) -> u64
    ensures { result ≡ state_at layout kind }
{
    let states = match layout {
        Layout::One => ONE.states,
        Layout::Two => TWO.states,
    };
    match kind {
        PlanType::Mission => states[0],
        PlanType::Fence => states[1],
        PlanType::Safe => states[2],
    }
}

/// Where the mark's cell stands, two slots.
pub fn mark_at(layout: Layout) -> u64
    ensures { result ≡ mark_at layout }
{
    match layout {
        Layout::One => ONE.mark,
        Layout::Two => TWO.mark,
    }
}

/// Bytes of a slot of the mark's cell: a gate, eight bytes of generation, and the payload.
pub fn mark_slot_bytes(layout: Layout) -> u16
    ensures { result ≡ mark_slot layout }
{
    let pairs = match layout {
        Layout::One => ONE.pairs,
        Layout::Two => TWO.pairs,
    };
    MARK_SLOT_FRONT + PAIR_BYTES * u16::from(pairs)
}

/// Where a bank stands, 0 or 1.
pub fn bank_at(layout: Layout, kind: PlanType, bank: u8) -> u64
    requires { bank < 2 }
    ensures { result ≡ bank_at layout kind bank }
{
    let banks = match layout {
        Layout::One => ONE.banks,
        Layout::Two => TWO.banks,
    };
    match kind {
        PlanType::Mission => banks[0][bank as usize],
        PlanType::Fence => banks[1][bank as usize],
        PlanType::Safe => banks[2][bank as usize],
    }
}

/// Where the record of a seq stands in a bank.
pub fn record_at(layout: Layout, kind: PlanType, bank: u8, seq: u16) -> u64
    requires { bank < 2 }
    ensures place { result ≡ record_at layout kind bank seq }
    ensures within { seq < limit_in layout kind → result + 48 ≤ STORE_BYTES }
{
    bank_at(layout, kind, bank) + RECORD_BYTES * u64::from(seq)
}
