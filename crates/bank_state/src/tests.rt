// What no clause says: the bytes of an upload, at which of its calls of the disk a failure leaves a doubt, which records a
// silent disk's read passes over, and that each call can succeed.
ghost use Rattle.std.specs.Prelude.{◌≡◌, ◌+◌, ◌*◌, ◌≤◌, false, None, IfOk};
ghost use Rattle.mission_model.specs.declared.limits.TheConstants.{STORE_BYTES};
ghost use Rattle.mission_model.specs.declared.plan.PlanType.TheVariants.{Mission};
ghost use Rattle.disk_model.specs.Memory.{state_of};
ghost use Rattle.bank_state.specs.Ledger.{ledger_of};
ghost use Rattle.bank_state.specs.Store.{IsStore};

use crate::Banks;
use disk_model::{CutAt, Disk, DiskFault, MemoryDisk, RecordDisk};
use gated_cell::{CellFault, CellPlace, GatedCell};
use mission_model::limits::STORE_BYTES;
use mission_model::{Counts, Item, Mark, Param, PlanHead, PlanType};
use std::alloc::{AllocError, Global};
use std::test::Fail;

/// A disk that tells nothing of its content, so that nothing need be known of what was written.
#[derive(Drop)]
struct Quiet<D: Disk> {
    disk: D,
}

impl<D: Disk> Disk for Quiet<D> {
    ghost use Rattle.std.specs.Prelude.{[]};

    ghost state = { λ quiet. record { tells = false; seen = []; images = λ c. ⊥; tells_since = false; moment = 0; since = λ t c. ⊥; meter = (D.state quiet.disk).meter } };

    ghost sound = { λ quiet. record {
      seen_is_left = λ told. absurd (Prim.cc told);
      told = λ c left. absurd left;
      size = λ c left. absurd left;
      small = (D.sound quiet.disk).small;
      counts_now = λ t c le left. left;
      only_now = λ c left. left;
    } };

    fn read_at(&mut self, at: u64, buf: &mut [u8]) -> Result<(), DiskFault> {
        self.disk.read_at(at, buf)
    }

    fn write_at(&mut self, at: u64, bytes: &[u8]) -> Result<(), DiskFault> {
        self.disk.write_at(at, bytes)
    }

    fn sync(&mut self) -> Result<(), DiskFault> {
        self.disk.sync()
    }

    fn arm(&mut self, cut: Option<CutAt>) {
        self.disk.arm(cut)
    }

    fn restart(&mut self) {
        self.disk.restart()
    }

    fn can_cut(&self) -> bool {
        self.disk.can_cut()
    }
}

/// Item 0 of a mission of one waypoint.
const ITEM: Item = Item {
    frame: 3,
    command: 16,
    p1: Param::Milli(0),
    p2: Param::Milli(0),
    p3: Param::Milli(0),
    p4: Param::Milli(0),
    x: 473_760_000,
    y: 85_500_000,
    z: 10_000,
    auto: true,
};

/// Its record in plan 1.
const RECORD: [u8; 48] = [
    1, 0, 0, 0, 0, 0, 0, 0x1F, 3, 0, 16, 0, 0, 0, 0, 0, 0, 0, 0, 0, 0, 0, 0, 0, 0, 0, 0, 0, 0,
    0x01, 0x3D, 0x1C, 0x60, 0xA0, 0x18, 0x05, 0x10, 0x27, 0, 0, 0, 0, 0, 0, 0, 0, 0, 0,
];

/// The slot of a layout of version 2.
const COMPAT: [u8; 16] = [0xA5, 1, 0, 0, 0, 0, 0, 0, 0, 2, 0, 0, 0, 0, 0, 0];

/// The slot of an empty plan of id 0 in bank 0.
const EMPTY: [u8; 16] = [0xA5, 1, 0, 0, 0, 0, 0, 0, 0, 0, 0, 0, 0, 0, 0, 0];

/// The slot of a plan of id 1 with one item in bank 1, which came after it.
const COMMITTED: [u8; 16] = [0xA5, 2, 0, 0, 0, 0, 0, 0, 0, 1, 1, 0, 0, 0, 1, 0];

/// The writes and syncs that make a store.
const MADE_BY: u32 = 5;

/// Makes an empty store on a disk of zeros, by five calls.
fn make_store<D: Disk>(disk: &mut D) -> Result<(), DiskFault>
    requires room { STORE_BYTES ≤ (D.state disk.old).meter.size }
    ensures size { (D.state disk.new).meter.size ≡ (D.state disk.old).meter.size }
    ensures tells { (D.state disk.new).tells ≡ (D.state disk.old).tells }
{
    disk.write_at(0, &COMPAT)?;
    disk.write_at(65_536, &EMPTY)?;
    disk.write_at(65_568, &EMPTY)?;
    disk.write_at(65_600, &EMPTY)?;
    disk.sync()
}

/// Opens a cell, whatever it holds.
fn open_cell<D: Disk>(disk: &mut D, at: u64, slot_bytes: u16) -> Result<GatedCell, CellFault>
    requires room { at + 2 * slot_bytes ≤ (D.state disk.old).meter.size }
    requires slot { (9 ≤ slot_bytes) × (slot_bytes ≤ 144) }
    requires untold { (D.state disk.old).tells ≡ false }
    ensures place { IfOk result (λ cell. cell.place ≡ record { at = at; slot_bytes = slot_bytes }) }
    ensures calm { IfOk result (λ cell. cell.doubt ≡ false) }
    ensures size { (D.state disk.new).meter.size ≡ (D.state disk.old).meter.size }
    ensures tells { (D.state disk.new).tells ≡ (D.state disk.old).tells }
{
    let mut payload = [0; 135];
    let n = usize::from(slot_bytes) - 9;
    GatedCell::open(disk, CellPlace { at, slot_bytes }, &mut payload[..n])
}

/// The banks of an empty store on a disk of zeros.
fn new_banks<D: Disk>(disk: D) -> Result<Banks<D>, CellFault>
    requires room { STORE_BYTES ≤ (D.state disk).meter.size }
    requires untold { (D.state disk).tells ≡ false }
    ensures store { IfOk result (λ banks. IsStore banks.parts (D.state banks.disk)) }
    ensures untold { IfOk result (λ banks. (D.state banks.disk).tells ≡ false) }
    ensures calm { IfOk result (λ banks. (ledger_of banks.parts).doubt ≡ None) }
    ensures empty { IfOk result (λ banks. ((ledger_of banks.parts).entries Mission).head.id ≡ 0) }
{
    let mut disk = disk;
    make_store(&mut disk)?;
    let mission = open_cell(&mut disk, 65_536, 16)?;
    let fence = open_cell(&mut disk, 65_568, 16)?;
    let safe = open_cell(&mut disk, 65_600, 16)?;
    let mark = open_cell(&mut disk, 65_632, 144)?;
    let head = PlanHead { id: 0, count: 0 };
    Ok(Banks::from_parts(disk, [mission, fence, safe, mark], [0; 3], [head; 3], None))
}

/// Uploads the mission of one item, reads it again, and marks its end.
fn fly<D: Disk>(banks: &mut Banks<D>) -> Result<(PlanHead, Option<Item>, Option<Mark>), CellFault>
    requires store { IsStore banks.old.parts (D.state banks.old.disk) }
    requires untold { (D.state banks.old.disk).tells ≡ false }
    requires calm { (ledger_of banks.old.parts).doubt ≡ None }
    requires empty { ((ledger_of banks.old.parts).entries Mission).head.id ≡ 0 }
{
    banks.write_item(PlanType::Mission, 1, 0, &ITEM)?;
    banks.commit(PlanType::Mission, 1, 1)?;
    let item = banks.read_item(PlanType::Mission, 0)?;
    banks.write_mark(&end_of_mission())?;
    Ok((banks.head(PlanType::Mission), item, banks.mark()))
}

/// The mark behind the last item of the mission.
fn end_of_mission() -> Mark {
    Mark {
        id: 1,
        index: 1,
        counts: Counts::new(),
    }
}

/// Commits an empty mission, settles a doubt, and tells whether there was one and is one.
fn commit_and_settle<D: Disk>(
    banks: &mut Banks<D>,
) -> Result<(Result<(), CellFault>, [bool; 2]), DiskFault>
    requires store { IsStore banks.old.parts (D.state banks.old.disk) }
    requires untold { (D.state banks.old.disk).tells ≡ false }
    requires calm { (ledger_of banks.old.parts).doubt ≡ None }
    requires empty { ((ledger_of banks.old.parts).entries Mission).head.id ≡ 0 }
{
    let committed = banks.commit(PlanType::Mission, 1, 0);
    let before = banks.in_doubt();
    match committed {
        Err(CellFault::Failed) => {
            if before {
                banks.settle_doubt()?;
            }
        }
        _ => {}
    }
    Ok((committed, [before, banks.in_doubt()]))
}

/// Stores a mark of the empty mission, settles a doubt, and tells whether there was one and is one.
fn mark_and_settle<D: Disk>(
    banks: &mut Banks<D>,
) -> Result<(Result<(), CellFault>, [bool; 2]), DiskFault>
    requires store { IsStore banks.old.parts (D.state banks.old.disk) }
    requires untold { (D.state banks.old.disk).tells ≡ false }
    requires calm { (ledger_of banks.old.parts).doubt ≡ None }
{
    let stored = banks.write_mark(&Mark {
        id: 0,
        index: 0,
        counts: Counts::new(),
    });
    let before = banks.in_doubt();
    match stored {
        Err(CellFault::Failed) => {
            if before {
                banks.settle_doubt()?;
            }
        }
        _ => {}
    }
    Ok((stored, [before, banks.in_doubt()]))
}

/// Writes item 0 of mission 1, commits five items, and reads them.
fn commit_unwritten<D: Disk>(banks: &mut Banks<D>) -> Result<[Option<Item>; 5], CellFault>
    requires store { IsStore banks.old.parts (D.state banks.old.disk) }
    requires untold { (D.state banks.old.disk).tells ≡ false }
    requires calm { (ledger_of banks.old.parts).doubt ≡ None }
    requires empty { ((ledger_of banks.old.parts).entries Mission).head.id ≡ 0 }
{
    banks.write_item(PlanType::Mission, 1, 0, &ITEM)?;
    banks.commit(PlanType::Mission, 1, 5)?;
    let first = banks.read_item(PlanType::Mission, 0)?;
    let second = banks.read_item(PlanType::Mission, 1)?;
    let third = banks.read_item(PlanType::Mission, 2)?;
    let fourth = banks.read_item(PlanType::Mission, 3)?;
    let fifth = banks.read_item(PlanType::Mission, 4)?;
    Ok([first, second, third, fourth, fifth])
}

/// The record of the item in a plan of this id, at this seq and of this type.
fn record_of(id: u8, seq: u8, kind: u8) -> [u8; 48] {
    let mut record = RECORD;
    record[0] = id;
    record[4] = seq;
    record[6] = kind;
    record
}

/// A memory disk of a store's size whose calls of these numbers fail.
fn quiet_disk(alloc: Global, fails: Vec<(u16, u32)>) -> Result<Quiet<MemoryDisk>, AllocError>
    ensures { IfOk result (λ quiet. (state_of quiet.disk).meter.size ≡ STORE_BYTES) }
{
    Ok(Quiet {
        disk: MemoryDisk::new(alloc, STORE_BYTES, fails)?,
    })
}

#[test]
fn an_upload_writes_the_bytes_of_the_format(rt: HostRuntime) -> Result<(), Fail> {
    let alloc = rt.alloc();
    let disk = quiet_disk(alloc, Vec::new(alloc))?;
    let mut banks = new_banks(disk)?;
    assert_eq!(rt; banks.is_spare(PlanType::Mission, 1), true);
    let head = PlanHead { id: 1, count: 1 };
    assert_eq!(rt;
        fly(&mut banks),
        Ok((head, Some(ITEM), Some(end_of_mission())))
    );
    assert_eq!(rt; banks.is_spare(PlanType::Mission, 1), false);
    let mut disk = banks.into_disk();
    let mut slots = [0; 32];
    let mut record = [0; 48];
    assert_eq!(rt; disk.read_at(65_536, &mut slots), Ok(()));
    assert_eq!(rt; slots[..16], EMPTY[..]);
    assert_eq!(rt; slots[16..], COMMITTED[..]);
    assert_eq!(rt; disk.read_at(162_048, &mut record), Ok(()));
    assert_eq!(rt; record, RECORD);
    Ok(())
}

/// What an upload leaves of a disk that fails at these calls: its answer, whether there is a doubt, and what the next
/// call of the disk answers.
fn upload_over(
    alloc: Global,
    fails: Vec<(u16, u32)>,
) -> Result<(Result<(), CellFault>, bool, Result<(), DiskFault>), Fail> {
    let mut banks = new_banks(quiet_disk(alloc, fails)?)?;
    let flown = fly(&mut banks).map(|_| ());
    let doubt = banks.in_doubt();
    let mut disk = banks.into_disk();
    Ok((flown, doubt, disk.sync()))
}

#[test]
fn an_upload_stops_at_its_first_call_that_fails(rt: HostRuntime) -> Result<(), Fail> {
    // The item's write is call 1; the commit's gate is opened by 6 and 7, the mark's by 12 and 13.
    let alloc = rt.alloc();
    let failed = Err(CellFault::Failed);
    for call in 1..14 {
        let fails = vec![in alloc; (0, MADE_BY + call), (0, MADE_BY + call + 1)]?;
        let doubt = call == 6 || call == 7 || call == 12 || call == 13;
        let wanted = (failed, doubt, Err(DiskFault::Failed));
        assert_eq!(rt; upload_over(alloc, fails)?, wanted, "{call}");
    }
    // Thirteen calls are all.
    let fails = vec![in alloc; (0, MADE_BY + 14)]?;
    let wanted = (Ok(()), false, Err(DiskFault::Failed));
    assert_eq!(rt; upload_over(alloc, fails)?, wanted);
    Ok(())
}

#[test]
fn a_doubt_is_settled(rt: HostRuntime) -> Result<(), Fail> {
    let alloc = rt.alloc();
    let fails = vec![in alloc; (0, MADE_BY + 6), (0, MADE_BY + 9)]?;
    let mut banks = new_banks(quiet_disk(alloc, fails)?)?;
    assert_eq!(rt;
        commit_and_settle(&mut banks),
        Ok((Err(CellFault::Failed), [true, false]))
    );
    assert_eq!(rt; banks.head(PlanType::Mission), PlanHead { id: 0, count: 0 });
    // Calls 7 and 8 settled it.
    assert_eq!(rt; banks.into_disk().sync(), Err(DiskFault::Failed));
    let fails = vec![in alloc; (0, MADE_BY + 5)]?;
    let mut banks = new_banks(quiet_disk(alloc, fails)?)?;
    assert_eq!(rt;
        mark_and_settle(&mut banks),
        Ok((Err(CellFault::Failed), [true, false]))
    );
    assert_eq!(rt; banks.mark(), None);
    Ok(())
}

#[test]
fn a_record_of_another_item_is_none(rt: HostRuntime) -> Result<(), Fail> {
    let alloc = rt.alloc();
    let mut disk = quiet_disk(alloc, Vec::new(alloc))?;
    // In places 1 to 3 of the spare bank: another seq, another type, another plan's id. Place 4 has zeros.
    assert_eq!(rt; disk.write_at(162_096, &record_of(1, 0, 0)), Ok(()));
    assert_eq!(rt; disk.write_at(162_144, &record_of(1, 2, 1)), Ok(()));
    assert_eq!(rt; disk.write_at(162_192, &record_of(2, 3, 0)), Ok(()));
    let mut banks = new_banks(disk)?;
    let wanted = [Some(ITEM), None, None, None, None];
    assert_eq!(rt; commit_unwritten(&mut banks), Ok(wanted));
    Ok(())
}

#[test]
fn an_upload_over_a_recording_disk(rt: HostRuntime) -> Result<(), Fail> {
    let disk = Quiet {
        disk: RecordDisk::new(rt.alloc(), STORE_BYTES, 20)?,
    };
    let mut banks = new_banks(disk)?;
    let head = PlanHead { id: 1, count: 1 };
    assert_eq!(rt;
        fly(&mut banks),
        Ok((head, Some(ITEM), Some(end_of_mission())))
    );
    assert_eq!(rt; banks.mark(), Some(end_of_mission()));
    Ok(())
}
