// A new store.
ghost use Rattle.std.specs.Prelude.{◌≡◌, ◌⊎◌, ◌≤◌, ◌+◌, ℕ, List, [], None, get_or, IsTrue, IfErr, OnOk};
ghost use Rattle.mission_model.specs.declared.limits.TheConstants.{STORE_BYTES};
ghost use Rattle.disk_model.specs.Disk.{Only};
ghost use Rattle.disk_model.specs.Moments.{LeavesOnly};
ghost use Rattle.dataman_layout.specs.declared.layout.Layout.TheVariants.{Two};
ghost use Rattle.plan_store.specs.StoreState.{first_mark};
ghost use Rattle.bank_state.specs.StandsFor.{StandsIn};
ghost use Rattle.recovery.specs.Empty.{empty_front, empty_cells, IsEmpty, IsBehind, IsBegun, WritesCells, empty_plans, used_fault};
ghost use Rattle.recovery.specs.Steps.{Keeps, Went, IsOfDisk, Answers, Unwritten};

use crate::BootFault;
use crate::cells::first_byte;
use dataman_layout::places::{COMPAT_AT, state_at};
use dataman_layout::{Layout, version_of};
use disk_model::Disk;
use mission_model::PlanType;

/// The bytes of the compat cell.
const FRONT_BYTES: usize = 32;

/// The bytes of the cells behind it.
const CELL_BYTES: usize = 384;

/// The bytes of a state cell.
const STATE_BYTES: usize = 32;

/// What a gate holds that is open.
pub const OPEN: u8 = 0xA5;

// Where the lowest byte of the generation stands in a slot, and where the payload begins.

pub const GENERATION: usize = 1;

pub const PAYLOAD: usize = 9;

/// The generation of a slot that is written first, in its lowest byte.
pub const FIRST_GENERATION: u8 = 1;

/// The bytes of the compat cell of a new store, whose first slot is open.
#[tactic(auto, unfolding(dataman_layout::specs::Compat::compat_bytes, dataman_layout::specs::Fields::number_bytes))]
fn empty_front() -> [u8; FRONT_BYTES]
    ensures { result ≡ empty_front }
{
    let mut bytes = [0; FRONT_BYTES];
    bytes[0] = OPEN;
    bytes[GENERATION] = FIRST_GENERATION;
    bytes[PAYLOAD] = version_of(Layout::Two) as u8;
    bytes
}

/// The bytes of the state cells, whose first slots are open, and of the mark cell, which has none.
#[tactic(auto, unfolding(dataman_layout::specs::State::state_bytes, dataman_layout::specs::Fields::number_bytes))]
fn empty_cells() -> [u8; CELL_BYTES]
    ensures { result ≡ empty_cells }
{
    let mut bytes = [0; CELL_BYTES];
    bytes[0] = OPEN;
    bytes[GENERATION] = FIRST_GENERATION;
    bytes[STATE_BYTES] = OPEN;
    bytes[STATE_BYTES + GENERATION] = FIRST_GENERATION;
    bytes[2 * STATE_BYTES] = OPEN;
    bytes[2 * STATE_BYTES + GENERATION] = FIRST_GENERATION;
    bytes
}

/// Finds that the first byte of the store is 0, by a sync and a read.
fn check_unused<D: Disk>(disk: &mut D) -> Result<(), BootFault>
    ensures kept { Keeps (D.state disk.old) (D.state disk.new) }
    ensures durable { OnOk result (Only (D.state disk.new).seen (D.state disk.new).images) }
    ensures unused { OnOk result (IsTrue (D.state disk.new).tells → get_or (D.state disk.new).seen 0 0 ≡ 0) }
    ensures answers { IsTrue (D.state disk.old).tells → Answers (used_fault (D.state disk.old).seen) (λ _. Unit {0}) result }
    ensures unwritten { IfErr result (λ fault. Unwritten (D.state disk.old) (D.state disk.new) fault) }
    ensures went { Went 1 1 (D.state disk.old).meter (D.state disk.new).meter result }
{
    disk.sync()?;
    let byte = first_byte(disk)?;
    if byte == 0 {
        Ok(())
    } else {
        Err(BootFault::NotAStore(byte))
    }
}

/// Writes all bytes of the cells but the first, and makes them last.
fn put_cells<D: Disk>(disk: &mut D) -> Result<(), BootFault>
    requires room { STORE_BYTES ≤ (D.state disk.old).meter.size }
    requires only { Only (D.state disk.old).seen (D.state disk.old).images }
    requires unused { IsTrue (D.state disk.old).tells → get_or (D.state disk.old).seen 0 0 ≡ 0 }
    ensures within { WritesCells (D.state disk.old) (D.state disk.new) }
    ensures begun { LeavesOnly (D.state disk.old) (D.state disk.new) IsBegun }
    ensures durable { OnOk result (Only (D.state disk.new).seen (D.state disk.new).images) }
    ensures behind { OnOk result (IsTrue (D.state disk.new).tells → IsBehind (D.state disk.new).seen) }
    ensures of_disk { IfErr result IsOfDisk }
    ensures went { Went 3 0 (D.state disk.old).meter (D.state disk.new).meter result }
{
    disk.write_at(COMPAT_AT + 1, &empty_front()[1..])?;
    disk.write_at(state_at(Layout::Two, PlanType::Mission), &empty_cells())?;
    disk.sync()?;
    Ok(())
}

/// Writes the first byte of a store whose other cells are there, and makes it last.
fn put_first<D: Disk>(disk: &mut D) -> Result<(), BootFault>
    requires room { STORE_BYTES ≤ (D.state disk.old).meter.size }
    requires only { Only (D.state disk.old).seen (D.state disk.old).images }
    requires behind { IsTrue (D.state disk.old).tells → IsBehind (D.state disk.old).seen }
    ensures within { WritesCells (D.state disk.old) (D.state disk.new) }
    ensures begun { LeavesOnly (D.state disk.old) (D.state disk.new) IsBegun }
    ensures durable { OnOk result (Only (D.state disk.new).seen (D.state disk.new).images) }
    ensures empty { OnOk result (IsTrue (D.state disk.new).tells → IsEmpty (D.state disk.new).seen) }
    ensures of_disk { IfErr result IsOfDisk }
    ensures went { Went 2 0 (D.state disk.old).meter (D.state disk.new).meter result }
{
    disk.write_at(COMPAT_AT, &[OPEN])?;
    disk.sync()?;
    Ok(())
}

/// Makes an empty store of layout 2: three plans of id 0 without items, and no mark. The first byte goes last, so that a
/// store is there only once all else is. Over a first byte other than 0 nothing is written.
pub fn init_store<D: Disk>(disk: &mut D) -> Result<(), BootFault>
    requires room { STORE_BYTES ≤ (D.state disk.old).meter.size }

    ensures stands { OnOk result (IsTrue (D.state disk.new).tells → StandsIn Two (D.state disk.new).seen empty_plans (first_mark 0)) }
    ensures bytes { OnOk result (IsTrue (D.state disk.new).tells → IsEmpty (D.state disk.new).seen) }
    ensures durable { OnOk result (Only (D.state disk.new).seen (D.state disk.new).images) }
    ensures answers { IsTrue (D.state disk.old).tells → Answers (used_fault (D.state disk.old).seen) (λ _. Unit {0}) result }
    ensures unwritten { IfErr result (λ fault. Unwritten (D.state disk.old) (D.state disk.new) fault) }
    ensures used { IsTrue (D.state disk.old).tells → (used_fault (D.state disk.old).seen ≡ None → ⊥) → Keeps (D.state disk.old) (D.state disk.new) }
    ensures within { WritesCells (D.state disk.old) (D.state disk.new) }
    ensures begun { LeavesOnly (D.state disk.old) (D.state disk.new) (λ c. (D.state disk.old).images c ⊎ IsBegun c) }
    ensures went { Went 6 1 (D.state disk.old).meter (D.state disk.new).meter result }
{
    check_unused(disk)?;
    put_cells(disk)?;
    put_first(disk)
}
