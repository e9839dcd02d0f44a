//! The migration of a store of layout 1. All that it writes stands behind layout 1, until one change of the compat cell puts
//! layout 2 in force. So it may be cut at any call and begun again.

ghost use Rattle.std.specs.Prelude.{◌≡◌, ◌+◌, ◌*◌, ◌≤◌, ◌<◌, ◌^◌, ℕ, List, false, IsTrue, OnOk, IfErr, Some, length, replicate};
ghost use Rattle.mission_model.specs.declared.limits.TheConstants.{STORE_BYTES};
ghost use Rattle.mission_model.specs.PlainMark.{PlainMark};
ghost use Rattle.disk_model.specs.Disk.{Only};
ghost use Rattle.disk_model.specs.Every.{Every, Run, Steady};
ghost use Rattle.disk_model.specs.Moments.{LeavesOnly};
ghost use Rattle.gated_cell.specs.Cell.{held, Known};
ghost use Rattle.dataman_layout.specs.declared.layout.Layout.TheVariants.{One, Two};
ghost use Rattle.dataman_layout.specs.Mark.{plain_mark, plain_marks};
ghost use Rattle.dataman_layout.specs.Layouts.{limit_in};
ghost use Rattle.dataman_layout.specs.Places.{State, TheMark, Bank, place_of, size_of, record_at};
ghost use Rattle.dataman_layout.specs.Compat.{compat_bytes};
ghost use Rattle.bank_state.specs.Plans.{Plans};
ghost use Rattle.bank_state.specs.StandsFor.{compat_place, IsLayout, StandsFor, StandsIn};
ghost use Rattle.bank_state.specs.Swap.{next_with, IsBut, Swaps};
ghost use Rattle.recovery.specs.declared.fault.BootFault.TheVariants.{UnknownVersion};
ghost use Rattle.recovery.specs.Booting.{MigrationCalls};
ghost use Rattle.recovery.specs.Found.{AreStates, AllRead};
ghost use Rattle.recovery.specs.Migration.{new_slots, AreMarkSlots, HasNewState, HasNewMark, HaveNewStates, IsCopied, AreCopied, AreAllCopied, IsPutBehind, RunsBehind, IsCarried, Moved, items_named};
ghost use Rattle.recovery.specs.Steps.{Went, IsOfDisk};

use crate::BootFault;
use crate::cells::{COMPAT_CELL, States, fault_of, open_compat};
use crate::finding::{Found, find_behind};
use crate::init::{FIRST_GENERATION, GENERATION, OPEN, PAYLOAD};
use bank_state::swap::swap;
use dataman_layout::places::{mark_at, record_at, state_at};
use dataman_layout::{Layout, encode_compat, encode_mark, encode_state, version_of};
use disk_model::Disk;
use gated_cell::GatedCell;
use mission_model::{Mark, PlanHead, PlanType};

/// Copies the record of a seq from a bank of layout 1 into bank 0 of layout 2, by a read and a write of 48 bytes.
fn copy_record<D: Disk>(disk: &mut D, kind: PlanType, bank: u8, seq: u16) -> Result<(), BootFault>
    requires room { STORE_BYTES ≤ (D.state disk.old).meter.size }
    requires bank { bank < 2 }
    requires seq { seq < limit_in One kind }
    ensures copied { OnOk result (IsTrue (D.state disk.new).tells → IsCopied kind bank seq (D.state disk.old).seen (D.state disk.new).seen) }
    ensures run { Run (record_at Two kind 0 seq) 48 (λ _. Unit {0}) (D.state disk.old) (D.state disk.new) }
    ensures of_disk { IfErr result IsOfDisk }
    ensures went { Went 1 1 (D.state disk.old).meter (D.state disk.new).meter result }
{
    let mut bytes = [0; 48];
    disk.read_at(record_at(Layout::One, kind, bank, seq), &mut bytes)?;
    disk.write_at(record_at(Layout::Two, kind, 0, seq), &bytes)?;
    Ok(())
}

/// Copies the records of the plan in force, in order of their seqs.
fn copy_plan<D: Disk>(
    disk: &mut D,
    kind: PlanType,
    bank: u8,
    head: PlanHead,
) -> Result<(), BootFault>
    requires room { STORE_BYTES ≤ (D.state disk.old).meter.size }
    requires bank { bank < 2 }
    requires count { head.count ≤ limit_in One kind }
    ensures copied { OnOk result (IsTrue (D.state disk.new).tells → AreCopied kind bank head.count (D.state disk.old).seen (D.state disk.new).seen) }
    ensures run { Run (place_of Two (Bank kind 0)) (size_of Two (Bank kind 0)) (λ _. Unit {0}) (D.state disk.old) (D.state disk.new) }
    ensures of_disk { IfErr result IsOfDisk }
    ensures went { Went head.count head.count (D.state disk.old).meter (D.state disk.new).meter result }
{
    for seq in 0..head.count {
        copy_record(disk, kind, bank, seq)?;
    }
    Ok(())
}

/// Puts an open slot of the first generation with this payload before a closed one, over zeros.
fn put_slots(slots: &mut [u8], payload: &[u8])
    requires zeros { slots.old ≡ replicate (length slots.old) 0 }
    requires size { length slots.old ≡ 2 * (9 + length payload.now) }
    ensures { slots.new ≡ new_slots payload.now }
{
    let n = PAYLOAD + payload.len();
    slots[0] = OPEN;
    slots[GENERATION] = FIRST_GENERATION;
    slots[PAYLOAD..n].copy_from_slice(payload);
}

/// Writes both slots of the state cell of a plan's type, which name bank 0 and this plan.
fn write_state<D: Disk>(disk: &mut D, kind: PlanType, head: PlanHead) -> Result<(), BootFault>
    requires room { STORE_BYTES ≤ (D.state disk.old).meter.size }
    requires count { head.count ≤ limit_in One kind }
    ensures state { OnOk result (IsTrue (D.state disk.new).tells → HasNewState kind head (D.state disk.new).seen) }
    ensures run { Run (place_of Two (State kind)) (size_of Two (State kind)) (λ _. Unit {0}) (D.state disk.old) (D.state disk.new) }
    ensures of_disk { IfErr result IsOfDisk }
    ensures went { Went 1 0 (D.state disk.old).meter (D.state disk.new).meter result }
{
    let mut slots = [0; 32];
    put_slots(&mut slots, &encode_state(0, head));
    disk.write_at(state_at(Layout::Two, kind), &slots)?;
    Ok(())
}

/// Both slots of the mark cell: the first holds this mark, where there is one.
fn mark_slots(mark: &Option<Mark>) -> [u8; 288]
    ensures { AreMarkSlots (plain_marks mark.now) result }
{
    match mark {
        Some(mark) => slots_of(mark),
        None => [0; 288],
    }
}

/// Both slots of the mark cell with this mark.
fn slots_of(mark: &Mark) -> [u8; 288]
    ensures { AreMarkSlots (Some (plain_mark mark.now)) result }
{
    let mut slots = [0; 288];
    put_slots(&mut slots, &encode_mark(mark));
    slots
}

/// Writes both slots of the mark cell.
fn write_mark<D: Disk>(disk: &mut D, mark: &Option<Mark>) -> Result<(), BootFault>
    requires room { STORE_BYTES ≤ (D.state disk.old).meter.size }
    ensures mark { OnOk result (IsTrue (D.state disk.new).tells → HasNewMark (plain_marks mark.now) (D.state disk.new).seen) }
    ensures run { Run (place_of Two TheMark) (size_of Two TheMark) (λ _. Unit {0}) (D.state disk.old) (D.state disk.new) }
    ensures of_disk { IfErr result IsOfDisk }
    ensures went { Went 1 0 (D.state disk.old).meter (D.state disk.new).meter result }
{
    disk.write_at(mark_at(Layout::Two), &mark_slots(mark))?;
    Ok(())
}

/// Copies the records of the three plans in force, in order of their types.
fn copy_plans<D: Disk>(disk: &mut D, states: &States) -> Result<(), BootFault>
    requires room { STORE_BYTES ≤ (D.state disk.old).meter.size }
    requires states { AreStates One states.now }
    ensures copied { OnOk result (IsTrue (D.state disk.new).tells → AreAllCopied states.now (D.state disk.old).seen (D.state disk.new).seen) }
    ensures run { RunsBehind (D.state disk.old) (D.state disk.new) }
    ensures of_disk { IfErr result IsOfDisk }
    ensures went { Went (items_named states.now) (items_named states.now) (D.state disk.old).meter (D.state disk.new).meter result }
{
    let _mission = copy_plan(
        disk,
        PlanType::Mission,
        states.mission.bank,
        states.mission.head,
    )?;
    let _fence = copy_plan(disk, PlanType::Fence, states.fence.bank, states.fence.head)?;
    copy_plan(disk, PlanType::Safe, states.safe.bank, states.safe.head)
}

/// Writes the state cells of the three plans, in order of their types.
fn write_states<D: Disk>(disk: &mut D, states: &States) -> Result<(), BootFault>
    requires room { STORE_BYTES ≤ (D.state disk.old).meter.size }
    requires states { AreStates One states.now }
    ensures states { OnOk result (IsTrue (D.state disk.new).tells → HaveNewStates states.now (D.state disk.new).seen) }
    ensures left { OnOk result ((old : List ℕ) → IsTrue (D.state disk.new).tells → AreAllCopied states.now old (D.state disk.old).seen → AreAllCopied states.now old (D.state disk.new).seen) }
    ensures run { RunsBehind (D.state disk.old) (D.state disk.new) }
    ensures of_disk { IfErr result IsOfDisk }
    ensures went { Went 3 0 (D.state disk.old).meter (D.state disk.new).meter result }
{
    let _mission = write_state(disk, PlanType::Mission, states.mission.head)?;
    let _fence = write_state(disk, PlanType::Fence, states.fence.head)?;
    write_state(disk, PlanType::Safe, states.safe.head)
}

/// Puts what was found in layout 1 where layout 2 has it, and makes it last. The compat cell stays as it is.
fn put_behind<D: Disk>(disk: &mut D, found: &Found) -> Result<(), BootFault>
    requires room { STORE_BYTES ≤ (D.state disk.old).meter.size }
    requires states { AreStates One found.now.states }
    ensures put { OnOk result (IsTrue (D.state disk.new).tells → IsPutBehind found.now.states (plain_marks found.now.mark) (D.state disk.old).seen (D.state disk.new).seen) }
    ensures durable { OnOk result (Only (D.state disk.new).seen (D.state disk.new).images) }
    ensures run { RunsBehind (D.state disk.old) (D.state disk.new) }
    ensures of_disk { IfErr result IsOfDisk }
    ensures went { Went (items_named found.now.states + 5) (items_named found.now.states) (D.state disk.old).meter (D.state disk.new).meter result }
{
    let _plans = copy_plans(disk, &found.states)?;
    let _states = write_states(disk, &found.states)?;
    let _mark = write_mark(disk, &found.mark)?;
    disk.sync()?;
    Ok(())
}

/// The payload of the compat cell that tells layout 2.
fn version_two() -> [u8; 7]
    ensures { result ≡ compat_bytes 2 }
{
    encode_compat(version_of(Layout::Two))
}

/// Puts version 2 in force, by the three steps of a change of the compat cell.
fn tell_two<D: Disk>(disk: &mut D, cell: GatedCell) -> Result<(), BootFault>
    requires room { STORE_BYTES ≤ (D.state disk.old).meter.size }
    requires place { cell.place ≡ compat_place }
    requires calm { cell.doubt ≡ false }
    requires below { cell.generation + 1 < 2 ^ 64 }
    requires known { Known cell (D.state disk.old) }
    ensures two { OnOk result (IsTrue (D.state disk.new).tells → held compat_place (D.state disk.new).seen ≡ next_with cell (compat_bytes 2)) }
    ensures synced { OnOk result (Every (IsBut cell (D.state disk.old)) (D.state disk.new)) }
    ensures durable { OnOk result (Only (D.state disk.new).seen (D.state disk.new).images) }
    ensures any_moment { Run cell.place.at (2 * cell.place.slot_bytes) (Swaps cell (compat_bytes 2) (D.state disk.old)) (D.state disk.old) (D.state disk.new) }
    ensures of_disk { IfErr result IsOfDisk }
    ensures went { Went 6 0 (D.state disk.old).meter (D.state disk.new).meter result }
{
    let mut cell = cell;
    match swap(disk, &mut cell, &version_two()) {
        Ok(()) => Ok(()),
        Err(fault) => Err(fault_of(COMPAT_CELL, fault)),
    }
}

/// Migrates the store of layout 1 that was found, by its compat cell and what stands behind it.
pub fn move_store<D: Disk>(disk: &mut D, cell: GatedCell, found: &Found) -> Result<(), BootFault>
    requires room { STORE_BYTES ≤ (D.state disk.old).meter.size }
    requires only { Only (D.state disk.old).seen (D.state disk.old).images }
    requires place { cell.place ≡ compat_place }
    requires calm { cell.doubt ≡ false }
    requires below { cell.generation + 1 < 2 ^ 64 }
    requires known { Known cell (D.state disk.old) }
    requires layout { IsTrue (D.state disk.old).tells → IsLayout One (held compat_place (D.state disk.old).seen) }
    requires states { AreStates One found.now.states }
    requires read { IsTrue (D.state disk.old).tells → AllRead One (D.state disk.old).seen found.now.states found.now.mark_cell found.now.mark }

    ensures moved { OnOk result (IsTrue (D.state disk.new).tells → Moved (D.state disk.old).seen (D.state disk.new).seen) }
    ensures durable { OnOk result (Only (D.state disk.new).seen (D.state disk.new).images) }
    ensures images { LeavesOnly (D.state disk.old) (D.state disk.new) (IsCarried (D.state disk.old)) }
    ensures tells { (D.state disk.new).tells ≡ (D.state disk.old).tells }
    ensures steady { Steady (D.state disk.old).meter (D.state disk.new).meter }
    ensures of_disk { IfErr result IsOfDisk }
    ensures went { Went (items_named found.now.states + 11) (items_named found.now.states) (D.state disk.old).meter (D.state disk.new).meter result }
{
    let _put = put_behind(disk, found)?;
    tell_two(disk, cell)
}

/// Finds that a store has layout 1, so that there is something to migrate.
fn only_one(layout: Layout) -> Result<(), BootFault>
    ensures one { OnOk result (layout ≡ One) }
    ensures two { IfErr result (λ fault. (fault ≡ UnknownVersion 2) × (layout ≡ Two)) }
{
    match layout {
        Layout::One => Ok(()),
        Layout::Two => Err(BootFault::UnknownVersion(version_of(Layout::Two))),
    }
}

/// Migrates a store of layout 1, in which a boot finds no fault, to layout 2. It reads the store once, and then each item
/// once more; it writes them behind layout 1, and at last changes the compat cell. Only the disk refuses it; one that does
/// not keep what it was told may show another fault. A migration that was refused is begun again by the next boot.
pub fn migrate<D: Disk>(disk: &mut D) -> Result<(), BootFault>
    requires room { STORE_BYTES ≤ (D.state disk.old).meter.size }
    requires only { Only (D.state disk.old).seen (D.state disk.old).images }
    requires stands { IsTrue (D.state disk.old).tells → (plans : Plans) × (mark : PlainMark) × StandsIn One (D.state disk.old).seen plans mark }

    ensures images { IsTrue (D.state disk.old).tells → (plans : Plans) (mark : PlainMark) → StandsIn One (D.state disk.old).seen plans mark → LeavesOnly (D.state disk.old) (D.state disk.new) (λ c. StandsFor c plans mark) }
    ensures moved { OnOk result (IsTrue (D.state disk.old).tells → (plans : Plans) (mark : PlainMark) → StandsIn One (D.state disk.old).seen plans mark → (c : List ℕ) → (D.state disk.new).images c → StandsIn Two c plans mark) }
    ensures durable { OnOk result (Only (D.state disk.new).seen (D.state disk.new).images) }
    ensures tells { (D.state disk.new).tells ≡ (D.state disk.old).tells }
    ensures steady { Steady (D.state disk.old).meter (D.state disk.new).meter }
    ensures of_disk { IsTrue (D.state disk.old).tells → IfErr result IsOfDisk }
    ensures calls { MigrationCalls (D.state disk.old) (D.state disk.new) result }
{
    let (cell, layout) = open_compat(disk)?;
    let _one = only_one(layout)?;
    let found = find_behind(disk, Layout::One)?;
    move_store(disk, cell, &found)
}
