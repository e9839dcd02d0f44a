// The items of the plans in force, read in order and checked as an upload would be.
ghost use Rattle.std.specs.Prelude.{◌≡◌, ◌≤◌, ◌<◌, ◌+◌, Some, IsTrue, IfOk, IfErr};
ghost use Rattle.mission_model.specs.declared.limits.TheConstants.{STORE_BYTES};
ghost use Rattle.mission_model.specs.declared.plan.PlanType.TheVariants.{Mission};
ghost use Rattle.dataman_layout.specs.Layouts.{limit_in};
ghost use Rattle.bank_state.specs.StandsFor.{record_of};
ghost use Rattle.bank_state.specs.Ledger.{items_read};
ghost use Rattle.bank_state.specs.Outcomes.{item_by};
ghost use Rattle.recovery.specs.Faults.{missing, items_fault, plans_fault};
ghost use Rattle.recovery.specs.Steps.{Step, IsOfDisk, Answers};
ghost use Rattle.recovery.specs.Found.{AreStates, StatesIn, HasJumps, HasJumpsOf};

use crate::BootFault;
use crate::cells::States;
use crate::jumps::note;
use bank_state::PlanBanks;
use dataman_layout::places::record_at;
use dataman_layout::{Layout, Record, decode_item};
use disk_model::Disk;
use mission_model::{Counts, Item, PlanCheck, PlanType};

/// Reads the record at a place of a bank, if one stands there, by one read of 48 bytes.
fn read_record<D: Disk>(
    disk: &mut D,
    layout: Layout,
    kind: PlanType,
    bank: u8,
    seq: u16,
) -> Result<Option<Record>, BootFault>
    requires bank { bank < 2 }
    ensures step { Step 1 (D.state disk.old) (D.state disk.new) result }
    ensures of_disk { IfErr result IsOfDisk }
    ensures read { IfOk result (λ found. IsTrue (D.state disk.old).tells → found ≡ record_of layout kind bank seq (D.state disk.old).seen) }
{
    let mut bytes = [0; 48];
    disk.read_at(record_at(layout, kind, bank, seq), &mut bytes)?;
    Ok(decode_item(&bytes))
}

/// The item of a record of this type, id and seq.
fn item_by(kind: PlanType, id: u32, seq: u16, found: Option<Record>) -> Option<Item>
    ensures { result ≡ item_by kind id seq found }
{
    let record = found?;
    if record.kind == kind && record.id == id && record.seq == seq {
        Some(record.item)
    } else {
        None
    }
}

/// Reads the item at a seq of the plan in force.
fn read_item<D: Disk>(
    disk: &mut D,
    layout: Layout,
    kind: PlanType,
    banks: PlanBanks,
    seq: u16,
) -> Result<Item, BootFault>
    requires bank { banks.bank < 2 }
    ensures step { Step 1 (D.state disk.old) (D.state disk.new) result }
    ensures answers { IsTrue (D.state disk.old).tells → Answers (missing kind seq (item_by kind banks.head.id seq (record_of layout kind banks.bank seq (D.state disk.old).seen)))
        (λ item. item_by kind banks.head.id seq (record_of layout kind banks.bank seq (D.state disk.old).seen) ≡ Some item) result }
{
    let record = read_record(disk, layout, kind, banks.bank, seq)?;
    match item_by(kind, banks.head.id, seq, record) {
        Some(item) => Ok(item),
        None => Err(BootFault::BadItem(kind, seq)),
    }
}

/// Reads the items of the plan in force in order, and gives its jumps.
fn read_plan<D: Disk>(
    disk: &mut D,
    layout: Layout,
    kind: PlanType,
    banks: PlanBanks,
) -> Result<Counts, BootFault>
    requires bank { banks.bank < 2 }
    requires count { banks.head.count ≤ limit_in layout kind }
    ensures step { Step banks.head.count (D.state disk.old) (D.state disk.new) result }
    ensures items { IfOk result (λ jumps. kind ≡ Mission → HasJumpsOf banks.head.count jumps) }
    ensures answers { IsTrue (D.state disk.old).tells → Answers (items_fault layout kind banks.bank banks.head banks.head.count (D.state disk.old).seen)
        (λ jumps. kind ≡ Mission → HasJumps (items_read layout kind banks.bank banks.head.count (D.state disk.old).seen) jumps) result }
{
    let mut check = PlanCheck::begin(kind, banks.head.count);
    let mut jumps = Counts::new();
    for seq in 0..banks.head.count {
        let item = read_item(disk, layout, kind, banks, seq)?;
        match check.next(&item) {
            Ok(()) => note(&mut jumps, seq, &item),
            Err(_) => return Err(BootFault::BadItem(kind, seq)),
        }
    }
    Ok(jumps)
}

/// Reads the items of the three plans in order of their types, and gives the jumps of the mission.
pub fn read_plans<D: Disk>(
    disk: &mut D,
    layout: Layout,
    states: &States,
) -> Result<Counts, BootFault>
    requires states { AreStates layout states.now }
    ensures items { IfOk result (λ jumps. HasJumpsOf states.now.mission.head.count jumps) }
    ensures step { Step (states.now.mission.head.count + (states.now.fence.head.count + states.now.safe.head.count)) (D.state disk.old) (D.state disk.new) result }
    ensures answers { IsTrue (D.state disk.old).tells → StatesIn layout states.now (D.state disk.old).seen → Answers (plans_fault layout (D.state disk.old).seen)
        (λ jumps. HasJumps (items_read layout Mission states.now.mission.bank states.now.mission.head.count (D.state disk.old).seen) jumps) result }
{
    let jumps = read_plan(disk, layout, PlanType::Mission, states.mission)?;
    let _fence = read_plan(disk, layout, PlanType::Fence, states.fence)?;
    let _safe = read_plan(disk, layout, PlanType::Safe, states.safe)?;
    Ok(jumps)
}
