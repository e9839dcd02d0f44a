// A boot: one sync, and then one pass of reads that finds what the store stands for, or what is wrong with it.
ghost use Rattle.dataman_layout.specs.declared.layout.Layout.TheVariants.{One, Two};
ghost use Rattle.std.specs.Prelude.{false, ◌≡◌, ◌≤◌, ◌<◌, ◌+◌, ◌^◌, ℕ, [], List, None, IsTrue, IfOk, IfErr, IfSome, OnOk};
ghost use Rattle.mission_model.specs.declared.limits.TheConstants.{STORE_BYTES};
ghost use Rattle.mission_model.specs.BootStates.{StateInLimits};
ghost use Rattle.mission_model.specs.PlainMark.{PlainMark, plain_mark};
ghost use Rattle.disk_model.specs.Disk.{Only};
ghost use Rattle.disk_model.specs.Every.{Steady};
ghost use Rattle.disk_model.specs.Moments.{LeavesOnly};
ghost use Rattle.gated_cell.specs.Cell.{held, Known};
ghost use Rattle.bank_state.specs.Plans.{Plans};
ghost use Rattle.bank_state.specs.StandsFor.{compat_place, mark_cell, IsLayout, IsOf, StandsFor, StandsIn};
ghost use Rattle.bank_state.specs.Ledger.{ledger_of, holding_in};
ghost use Rattle.bank_state.specs.Store.{IsStore};
ghost use Rattle.recovery.specs.Faults.{fault_behind, fault_in};
ghost use Rattle.recovery.specs.Standing.{Tells, TellsBanks, NoFaultExactly, items_of};
ghost use Rattle.recovery.specs.Found.{AreStates, AllRead, IsWithin, reads_behind};
ghost use Rattle.recovery.specs.Migration.{IsCarried, Moved, items_named};
ghost use Rattle.recovery.specs.Booting.{IsFoundIn, Boots, BootCalls, BootStops, IsOfBoot, parts_of};
ghost use Rattle.recovery.specs.Steps.{Step, Keeps, Went, StoppedBy, IsOfDisk, Answers};

use crate::BootFault;
use crate::cells::open_compat;
use crate::finding::{Found, find_behind};
use crate::migration::move_store;
use bank_state::Banks;
use dataman_layout::Layout;
use disk_model::Disk;
use gated_cell::GatedCell;
use mission_model::{BootState, Counts, Mark};

/// Finds what stands behind the compat cell in layout 2, by a sync and then reads alone.
fn find_synced<D: Disk>(disk: &mut D) -> Result<Found, BootFault>
    requires room { STORE_BYTES ≤ (D.state disk.old).meter.size }
    ensures found { IfOk result (λ found. IsFoundIn found (D.state disk.new)) }
    ensures kept { Keeps (D.state disk.old) (D.state disk.new) }
    ensures went { Went 1 (reads_behind result) (D.state disk.old).meter (D.state disk.new).meter result }
    ensures answers { IsTrue (D.state disk.old).tells → Answers (fault_behind Two (D.state disk.old).seen) (λ _. Unit {0}) result }
{
    let _synced = disk.sync()?;
    find_behind(disk, Layout::Two)
}

/// Migrates the store of layout 1 that was found, and finds it again in layout 2.
fn find_moved<D: Disk>(disk: &mut D, cell: GatedCell, found: &Found) -> Result<Found, BootFault>
    requires room { STORE_BYTES ≤ (D.state disk.old).meter.size }
    requires only { Only (D.state disk.old).seen (D.state disk.old).images }
    requires place { cell.place ≡ compat_place }
    requires calm { cell.doubt ≡ false }
    requires below { cell.generation + 1 < 2 ^ 64 }
    requires known { Known cell (D.state disk.old) }
    requires layout { IsTrue (D.state disk.old).tells → IsLayout One (held compat_place (D.state disk.old).seen) }
    requires states { AreStates One found.now.states }
    requires read { IsTrue (D.state disk.old).tells → AllRead One (D.state disk.old).seen found.now.states found.now.mark_cell found.now.mark }

    ensures found { IfOk result (λ found. IsFoundIn found (D.state disk.new)) }
    ensures moved { OnOk result (IsTrue (D.state disk.new).tells → Moved (D.state disk.old).seen (D.state disk.new).seen) }
    ensures images { LeavesOnly (D.state disk.old) (D.state disk.new) (IsCarried (D.state disk.old)) }
    ensures tells { (D.state disk.new).tells ≡ (D.state disk.old).tells }
    ensures steady { Steady (D.state disk.old).meter (D.state disk.new).meter }
    ensures of_disk { IsTrue (D.state disk.old).tells → IfErr result IsOfDisk }
    ensures went { Went (items_named found.now.states + 12) (items_named found.now.states + reads_behind result) (D.state disk.old).meter (D.state disk.new).meter result }
{
    let _moved = move_store(disk, cell, found)?;
    find_synced(disk)
}

/// Finds what the store stands for, by reads; a store of layout 1 is migrated, and found again.
fn find<D: Disk>(disk: &mut D) -> Result<Found, BootFault>
    requires room { STORE_BYTES ≤ (D.state disk.old).meter.size }
    requires only { Only (D.state disk.old).seen (D.state disk.old).images }
    ensures { Boots 0 (D.state disk.old) (D.state disk.new) result }
{
    let (cell, layout) = open_compat(disk)?;
    let found = find_behind(disk, layout)?;
    match layout {
        Layout::One => find_moved(disk, cell, &found),
        Layout::Two => Ok(found),
    }
}

/// Finds what the store stands for, whatever is pending, since it begins with a sync.
fn gather<D: Disk>(disk: &mut D) -> Result<Found, BootFault>
    requires room { STORE_BYTES ≤ (D.state disk.old).meter.size }
    ensures { Boots 1 (D.state disk.old) (D.state disk.new) result }
{
    disk.sync()?;
    find(disk)
}

/// What is told of the store that was found: the mark is its mission's begin where none is stored.
fn told(found: &Found) -> BootState
    ensures { TellsBanks result (ledger_of (parts_of found.now)) }
{
    let states = &found.states;
    let mark = match found.mark {
        Some(mark) => mark,
        None => Mark {
            id: states.mission.head.id,
            index: 0,
            counts: Counts::new(),
        },
    };
    BootState {
        heads: [states.mission.head, states.fence.head, states.safe.head],
        mark,
    }
}

/// Takes up the store that is on a disk: its banks, and what stands in them. It begins with a sync, so that it does not
/// matter which writes are pending. Then it reads, first the compat cell, then the state cells of mission, fence and safe
/// points, then each item in force in that order and by seq, then the mark. A store of layout 1 it migrates, and reads all
/// but the compat cell again in layout 2, behind a sync.
pub fn boot<D: Disk>(disk: D) -> Result<(Banks<D>, BootState), (BootFault, D)>
    requires room { STORE_BYTES ≤ (D.state disk).meter.size }

    ensures store { IfOk result (λ up. IsStore up.0.parts (D.state up.0.disk)) }
    ensures calm { IfOk result (λ up. up.0.parts.doubt ≡ None) }
    ensures told { IfOk result (λ up. TellsBanks up.1 (ledger_of up.0.parts)) }
    ensures within { IfOk result (λ up. StateInLimits up.1) }
    ensures durable { IfOk result (λ up. Only (D.state up.0.disk).seen (D.state up.0.disk).images) }
    ensures stands { IfOk result (λ up. IsTrue (D.state up.0.disk).tells → IsOf (holding_in (ledger_of up.0.parts) (D.state up.0.disk).seen) (D.state up.0.disk).seen) }
    ensures just { IfOk result (λ up. IsTrue (D.state disk).tells → (plans : Plans) (mark : PlainMark) → StandsFor (D.state disk).seen plans mark → Tells up.1 plans mark × StandsIn Two (D.state up.0.disk).seen plans mark) }
    ensures some { IfOk result (λ up. IsTrue (D.state disk).tells → (plans : Plans) × (mark : PlainMark) × StandsFor (D.state disk).seen plans mark) }
    ensures images { IfOk result (λ up. LeavesOnly (D.state disk) (D.state up.0.disk) (IsOfBoot (D.state disk))) }
    ensures steady { IfOk result (λ up. Steady (D.state disk).meter (D.state up.0.disk).meter) }
    ensures tells { IfOk result (λ up. (D.state up.0.disk).tells ≡ (D.state disk).tells) }
    ensures calls { IfOk result (λ up. BootCalls (items_of up.1.heads) (D.state disk) (D.state up.0.disk)) }

    ensures first { IfErr result (λ down. IsTrue (D.state disk).tells → StoppedBy (fault_in (D.state disk).seen) down.0) }
    ensures sound { IfErr result (λ down. IsTrue (D.state disk).tells → (plans : Plans) (mark : PlainMark) → StandsFor (D.state disk).seen plans mark → IsOfDisk down.0) }
    ensures back { IfErr result (λ down. LeavesOnly (D.state disk) (D.state down.1) (IsOfBoot (D.state disk))) }
    ensures steady_back { IfErr result (λ down. Steady (D.state disk).meter (D.state down.1).meter) }
    ensures tells_back { IfErr result (λ down. (D.state down.1).tells ≡ (D.state disk).tells) }
    ensures refused { IfErr result (λ down. BootStops 1 (D.state disk) (D.state down.1) down.0) }
{
    let mut disk = disk;
    match gather(&mut disk) {
        Ok(found) => {
            let state = told(&found);
            let states = found.states;
            let banks = Banks::from_parts(
                disk,
                [
                    states.mission.cell,
                    states.fence.cell,
                    states.safe.cell,
                    found.mark_cell,
                ],
                [states.mission.bank, states.fence.bank, states.safe.bank],
                [states.mission.head, states.fence.head, states.safe.head],
                found.mark,
            );
            Ok((banks, state))
        }
        Err(fault) => Err((fault, disk)),
    }
}

/// A boot finds no fault in an image exactly where that stands for plans and a mark.
pub fn no_fault_exactly()
    ensures { (image : List ℕ) → NoFaultExactly image }
{}
