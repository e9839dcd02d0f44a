// What no clause says: that each service can succeed, which request each call of the disk belongs to, and that a boot behind a
// cut or a failure in it finds the store before that request or behind it.
ghost use Rattle.std.specs.Prelude.{◌≡◌, ◌+◌, ◌*◌, ◌≤◌, false, None, IsTrue, IfOk};
ghost use Rattle.mission_model.specs.declared.limits.TheConstants.{STORE_BYTES};
ghost use Rattle.mission_model.specs.declared.plan.PlanType.TheVariants.{Mission};
ghost use Rattle.disk_model.specs.Memory.{state_of};
ghost use Rattle.bank_state.specs.Ledger.{ledger_of};
ghost use Rattle.bank_state.specs.Store.{IsStore};

use crate::serve;
use bank_state::Banks;
use disk_model::{CutAt, Disk, DiskFault, MemoryDisk, Tear};
use gated_cell::{CellFault, CellPlace, GatedCell};
use mission_model::limits::STORE_BYTES;
use mission_model::{Counts, Item, Mark, Param, PlanHead, PlanType, Reply, Request};
use recovery::boot;
use std::alloc::{AllocError, Global};
use std::test::Fail;

/// A disk that tells nothing of its content, so that a test need not prove what it wrote.
#[derive(Drop)]
struct Untold<D: Disk> {
    disk: D,
}

impl<D: Disk> Disk for Untold<D> {
    ghost use Rattle.std.specs.Prelude.{[]};
    ghost use Rattle.disk_model.specs.Disk.{DiskState, IsSound};

    ghost state = { λ untold. record { tells = false; seen = []; images = λ c. ⊥; tells_since = false; moment = 0; since = λ t c. ⊥; meter = (D.state untold.disk).meter } };

    ghost sound = { λ untold. record {
      seen_is_left = λ told. absurd (Prim.cc told);
      told = λ c left. absurd left;
      size = λ c left. absurd left;
      small = (D.sound untold.disk).small;
      counts_now = λ t c le left. left;
      only_now = λ c left. left;
    } };

    fn read_at(&mut self, at: u64, buf: &mut [u8]) -> Result<(), DiskFault> {
        self.disk.read_at(at, buf)
    }

    fn write_at(&mut self, at: u64, bytes: &[u8]) -> Result<(), DiskFault> {
        self.disk.write_at(at, bytes)
    }

    fn sync(&mut self) -> Result<(), DiskFault> {
        self.disk.sync()
    }

    fn arm(&mut self, cut: Option<CutAt>) {
        self.disk.arm(cut)
    }

    fn restart(&mut self) {
        self.disk.restart()
    }

    fn can_cut(&self) -> bool {
        self.disk.can_cut()
    }
}

/// The item of a mission of one waypoint.
const ITEM: Item = Item {
    frame: 3,
    command: 16,
    p1: Param::Milli(0),
    p2: Param::Milli(0),
    p3: Param::Milli(0),
    p4: Param::Milli(0),
    x: 473_760_000,
    y: 85_500_000,
    z: 10_000,
    auto: true,
};

/// The first slots of a new store: a layout of version 2, and an empty plan of id 0 in bank 0.
const COMPAT: [u8; 16] = [0xA5, 1, 0, 0, 0, 0, 0, 0, 0, 2, 0, 0, 0, 0, 0, 0];

const EMPTY: [u8; 16] = [0xA5, 1, 0, 0, 0, 0, 0, 0, 0, 0, 0, 0, 0, 0, 0, 0];

/// The same empty plan, whose cell had each generation.
const LAST: [u8; 16] = [
    0xA5, 0xFF, 0xFF, 0xFF, 0xFF, 0xFF, 0xFF, 0xFF, 0xFF, 0, 0, 0, 0, 0, 0, 0,
];

/// A plan of id 1 with one item in bank 0.
const NAMED: [u8; 16] = [0xA5, 1, 0, 0, 0, 0, 0, 0, 0, 0, 1, 0, 0, 0, 1, 0];

const NO_PLAN: PlanHead = PlanHead { id: 0, count: 0 };

const PLAN: PlanHead = PlanHead { id: 1, count: 1 };

/// The writes and syncs that make a store.
const MADE_BY: u32 = 5;

/// The reads that open its cells.
const OPENED_BY: u32 = 8;

/// Makes a store without items on a disk of zeros, by five calls.
fn make_store<D: Disk>(disk: &mut D, mission: &[u8; 16]) -> Result<(), DiskFault>
    requires room { STORE_BYTES ≤ (D.state disk.old).meter.size }
    ensures size { (D.state disk.new).meter.size ≡ (D.state disk.old).meter.size }
    ensures tells { (D.state disk.new).tells ≡ (D.state disk.old).tells }
{
    disk.write_at(0, &COMPAT)?;
    disk.write_at(65_536, mission)?;
    disk.write_at(65_568, &EMPTY)?;
    disk.write_at(65_600, &EMPTY)?;
    disk.sync()
}

/// Opens a cell, whatever it holds.
fn open_cell<D: Disk>(disk: &mut D, at: u64, slot_bytes: u16) -> Result<GatedCell, CellFault>
    requires room { at + 2 * slot_bytes ≤ (D.state disk.old).meter.size }
    requires slot { (9 ≤ slot_bytes) × (slot_bytes ≤ 144) }
    requires untold { (D.state disk.old).tells ≡ false }
    ensures place { IfOk result (λ cell. cell.place ≡ record { at = at; slot_bytes = slot_bytes }) }
    ensures calm { IfOk result (λ cell. cell.doubt ≡ false) }
    ensures size { (D.state disk.new).meter.size ≡ (D.state disk.old).meter.size }
    ensures tells { (D.state disk.new).tells ≡ (D.state disk.old).tells }
{
    let mut payload = [0; 135];
    let n = usize::from(slot_bytes) - 9;
    GatedCell::open(disk, CellPlace { at, slot_bytes }, &mut payload[..n])
}

/// The banks of a store on a disk of zeros, with this first slot and head of the mission.
fn new_banks<D: Disk>(disk: D, mission: &[u8; 16], head: PlanHead) -> Result<Banks<D>, CellFault>
    requires within { head.count ≤ 1 }
    requires room { STORE_BYTES ≤ (D.state disk).meter.size }
    requires untold { (D.state disk).tells ≡ false }
    ensures store { IfOk result (λ banks. IsStore banks.parts (D.state banks.disk)) }
    ensures untold { IfOk result (λ banks. (D.state banks.disk).tells ≡ false) }
    ensures head { IfOk result (λ banks. ((ledger_of banks.parts).entries Mission).head ≡ head) }
{
    let mut disk = disk;
    make_store(&mut disk, mission)?;
    let mission = open_cell(&mut disk, 65_536, 16)?;
    let fence = open_cell(&mut disk, 65_568, 16)?;
    let safe = open_cell(&mut disk, 65_600, 16)?;
    let mark = open_cell(&mut disk, 65_632, 144)?;
    Ok(Banks::from_parts(
        disk,
        [mission, fence, safe, mark],
        [0; 3],
        [head, NO_PLAN, NO_PLAN],
        None,
    ))
}

/// The mark behind the last item of the mission.
fn end_of_mission() -> Mark {
    Mark {
        id: 1,
        index: 1,
        counts: Counts::new(),
    }
}

/// Serves the upload of a mission of one item, a mark behind it and a read of it, up to the first reply that is not
/// Done, and tells how many were.
fn fly<D: Disk>(banks: &mut Banks<D>) -> (u32, Reply)
    requires store { IsStore banks.old.parts (D.state banks.old.disk) }
    requires untold { (D.state banks.old.disk).tells ≡ false }
    requires empty { ((ledger_of banks.old.parts).entries Mission).head ≡ record { id = 0; count = 0 } }
    ensures { (D.state banks.new.disk).meter.size ≡ (D.state banks.old.disk).meter.size }
{
    let write = Request::Write {
        kind: PlanType::Mission,
        id: 1,
        seq: 0,
        item: ITEM,
    };
    match serve(banks, &write) {
        Reply::Done => {}
        reply => return (0, reply),
    }
    let commit = Request::Commit {
        kind: PlanType::Mission,
        id: 1,
        count: 1,
    };
    match serve(banks, &commit) {
        Reply::Done => {}
        reply => return (1, reply),
    }
    match serve(banks, &Request::SetMark(end_of_mission())) {
        Reply::Done => {}
        reply => return (2, reply),
    }
    let read = Request::Read {
        kind: PlanType::Mission,
        id: 1,
        seq: 0,
    };
    (3, serve(banks, &read))
}

/// A memory disk of a store's size whose calls of these numbers fail.
fn untold_disk(alloc: Global, fails: Vec<(u16, u32)>) -> Result<Untold<MemoryDisk>, AllocError>
    ensures size { IfOk result (λ untold. (state_of untold.disk).meter.size ≡ STORE_BYTES) }
    ensures cuts { IfOk result (λ untold. IsTrue (state_of untold.disk).meter.can_cut) }
{
    Ok(Untold {
        disk: MemoryDisk::new(alloc, STORE_BYTES, fails)?,
    })
}

/// What the flight came to over a disk that fails at these calls and is cut there, whether there is a doubt then, and what a
/// boot behind a restart finds: the mission's head and the stored mark.
fn flown(
    alloc: Global,
    fails: Vec<(u16, u32)>,
    cut: Option<CutAt>,
) -> Result<((u32, Reply), bool, Option<(PlanHead, Option<Mark>)>), Fail> {
    let mut disk = untold_disk(alloc, fails)?;
    disk.arm(cut);
    let mut banks = new_banks(disk, &EMPTY, NO_PLAN)?;
    let came = fly(&mut banks);
    let doubt = banks.in_doubt();
    let mut disk = banks.into_disk();
    disk.restart();
    match boot(disk) {
        Ok((banks, _)) => Ok((
            came,
            doubt,
            Some((banks.head(PlanType::Mission), banks.mark())),
        )),
        Err(_) => Ok((came, doubt, None)),
    }
}

/// How many requests are done where this call of thirteen is not: 1 writes the item, 2 to 7 commit it, the others store the
/// mark.
fn done_before(call: u32) -> u32 {
    match call {
        1 => 0,
        2..=7 => 1,
        _ => 2,
    }
}

/// Whether a gate is open that calls `opening` and the next one open, where this call is not done: before them it is not,
/// behind them it is, and within them it may be.
fn is_open(call: u32, opening: u32, may: [bool; 2]) -> bool {
    if call < opening {
        false
    } else if call == opening {
        may[0]
    } else if call == opening + 1 {
        may[1]
    } else {
        true
    }
}

/// What a boot finds where the mission was committed or not, and the mark was stored or not.
fn found(committed: bool, marked: bool) -> Option<(PlanHead, Option<Mark>)> {
    let head = if committed { PLAN } else { NO_PLAN };
    let mark = if marked { Some(end_of_mission()) } else { None };
    Some((head, mark))
}

#[test]
fn a_cut_leaves_the_store_before_a_request_or_behind_it(rt: HostRuntime) -> Result<(), Fail> {
    // Whether the gate is open after a cut in its write, and in the sync behind it.
    let rows = [
        (Tear::Old, [false, false]),
        (Tear::New, [true, true]),
        (Tear::Front(0), [false, true]),
        (Tear::Front(1), [true, true]),
        (Tear::Fill(0x5A), [false, false]),
        (Tear::Fill(0xA5), [true, true]),
    ];
    for (tear, may) in rows {
        for call in 1..15 {
            let cut = Some(CutAt::Change(MADE_BY + call, tear));
            let came = flown(rt.alloc(), Vec::new(rt.alloc()), cut)?;
            let wanted = if call < 14 {
                let left = found(is_open(call, 6, may), is_open(call, 12, may));
                ((done_before(call), Reply::PowerOff), false, left)
            } else {
                // The flight made thirteen calls, and the boot's sync is cut.
                ((3, Reply::Item(ITEM)), false, None)
            };
            assert_eq!(rt; came, wanted, "{call} {tear:?}");
        }
    }
    Ok(())
}

#[test]
fn a_failure_leaves_the_store_before_a_request_or_a_doubt(rt: HostRuntime) -> Result<(), Fail> {
    for call in 1..14 {
        let fails = vec![in rt.alloc(); (1, MADE_BY + call)]?;
        let came = flown(rt.alloc(), fails, None)?;
        // A gate whose write failed stands closed, and one whose sync failed stands open.
        let left = found(
            is_open(call, 6, [false, true]),
            is_open(call, 12, [false, true]),
        );
        let doubt = call == 6 || call == 7 || call == 12 || call == 13;
        let wanted = ((done_before(call), Reply::DiskFailed), doubt, left);
        assert_eq!(rt; came, wanted, "{call}");
    }
    Ok(())
}

/// Commits an empty mission and, where the disk fails, reads from it, and tells both replies and whether there is a doubt.
fn fail_and_read<D: Disk>(banks: &mut Banks<D>) -> ([Reply; 2], bool)
    requires store { IsStore banks.old.parts (D.state banks.old.disk) }
    requires untold { (D.state banks.old.disk).tells ≡ false }
    requires empty { ((ledger_of banks.old.parts).entries Mission).head ≡ record { id = 0; count = 0 } }
{
    let commit = Request::Commit {
        kind: PlanType::Mission,
        id: 1,
        count: 0,
    };
    match serve(banks, &commit) {
        Reply::DiskFailed => {}
        reply => return ([reply; 2], banks.in_doubt()),
    }
    let read = Request::Read {
        kind: PlanType::Mission,
        id: 1,
        seq: 0,
    };
    let reply = serve(banks, &read);
    ([Reply::DiskFailed, reply], banks.in_doubt())
}

#[test]
fn a_doubt_is_settled_before_a_read(rt: HostRuntime) -> Result<(), Fail> {
    // The commit's gate is written by call 5, and what fails there is settled by calls 6 and 7.
    let rows = [
        ([5, 8], Reply::Stale(0), false),
        ([5, 6], Reply::DiskFailed, true),
        ([6, 8], Reply::DiskFailed, true),
    ];
    for (calls, reply, doubt) in rows {
        let fails = vec![in rt.alloc(); (0, MADE_BY + calls[0]), (0, MADE_BY + calls[1])]?;
        let mut banks = new_banks(untold_disk(rt.alloc(), fails)?, &EMPTY, NO_PLAN)?;
        let came = fail_and_read(&mut banks);
        assert_eq!(rt; came, ([Reply::DiskFailed, reply], doubt), "{calls:?}");
    }
    // The eighth call comes after all.
    let fails = vec![in rt.alloc(); (0, MADE_BY + 5), (0, MADE_BY + 8)]?;
    let mut banks = new_banks(untold_disk(rt.alloc(), fails)?, &EMPTY, NO_PLAN)?;
    let _came = fail_and_read(&mut banks);
    assert_eq!(rt; banks.into_disk().sync(), Err(DiskFault::Failed));
    Ok(())
}

#[test]
fn a_cell_at_its_last_generation_is_spent_without_a_call(rt: HostRuntime) -> Result<(), Fail> {
    // The item's write is the only call.
    let fails = vec![in rt.alloc(); (0, MADE_BY + 2)]?;
    let mut banks = new_banks(untold_disk(rt.alloc(), fails)?, &LAST, NO_PLAN)?;
    assert_eq!(rt; fly(&mut banks), (1, Reply::Spent(u64::MAX)));
    assert_eq!(rt; banks.head(PlanType::Mission), NO_PLAN);
    assert_eq!(rt; banks.into_disk().sync(), Err(DiskFault::Failed));
    Ok(())
}

/// Reads the item of the mission.
fn read_first<D: Disk>(banks: &mut Banks<D>) -> Reply
    requires store { IsStore banks.old.parts (D.state banks.old.disk) }
    requires head { ((ledger_of banks.old.parts).entries Mission).head ≡ record { id = 1; count = 1 } }
{
    let read = Request::Read {
        kind: PlanType::Mission,
        id: 1,
        seq: 0,
    };
    serve(banks, &read)
}

#[test]
fn a_read_that_finds_no_record_is_stale(rt: HostRuntime) -> Result<(), Fail> {
    // The mission's bank is of zeros. The service makes one read, and the next one is the test's.
    let cut = Err(DiskFault::Cut);
    let rows = [
        (1, Reply::PowerOff, cut),
        (2, Reply::Stale(1), cut),
        (3, Reply::Stale(1), Ok(())),
    ];
    for (read, reply, next) in rows {
        let mut disk = untold_disk(rt.alloc(), Vec::new(rt.alloc()))?;
        disk.arm(Some(CutAt::Read(OPENED_BY + read, Tear::New)));
        let mut banks = new_banks(disk, &NAMED, PLAN)?;
        assert_eq!(rt; read_first(&mut banks), reply, "{read}");
        let mut byte = [0];
        assert_eq!(rt; banks.into_disk().read_at(0, &mut byte), next, "{read}");
    }
    Ok(())
}
