// What no clause says: the first row of a store that is made, booted and not made again, its bytes written out, one store for
// each fault, at which calls of the disk a new store and a boot stop, and the bytes of both layouts round a migration.
ghost use Rattle.std.specs.Prelude.{◌≡◌, ◌≤◌, ◌+◌, length};
ghost use Rattle.mission_model.specs.declared.limits.TheConstants.{STORE_BYTES};

use crate::BootFault::{BadCell, BadItem, DiskFailed, NotAStore, PowerOff, UnknownVersion};
use crate::{BootFault, boot, init_store};
use disk_model::{CutAt, Disk, DiskFault, MemoryDisk, RecordDisk, Tear};
use mission_model::PlanType::Mission;
use mission_model::limits::STORE_BYTES;
use mission_model::{BootState, Counts, Mark, PlanHead};
use std::alloc::{AllocError, Global};
use std::test::Fail;

/// What a boot tells of a mission of this id and count, and a mark on it at this index.
fn told_of(id: u32, count: u16, index: u16) -> BootState {
    let none = PlanHead { id: 0, count: 0 };
    BootState {
        heads: [PlanHead { id, count }, none, none],
        mark: Mark {
            id,
            index,
            counts: Counts::new(),
        },
    }
}

/// Makes a store, boots it, and tries to make one again.
fn make_and_boot<D: Disk>(
    disk: D,
) -> (
    Result<(), BootFault>,
    Result<BootState, BootFault>,
    Result<(), BootFault>,
)
    requires room { STORE_BYTES ≤ (D.state disk).meter.size }
{
    let mut disk = disk;
    let made = init_store(&mut disk);
    match boot(disk) {
        Ok((banks, state)) => {
            let mut disk = banks.into_disk();
            (made, Ok(state), init_store(&mut disk))
        }
        Err((fault, disk)) => {
            let mut disk = disk;
            (made, Err(fault), init_store(&mut disk))
        }
    }
}

#[test]
fn a_store_is_made_once_and_boots_empty(rt: HostRuntime) -> Result<(), Fail> {
    let alloc = rt.alloc();
    let wanted = (Ok(()), Ok(told_of(0, 0, 0)), Err(NotAStore(0xA5)));
    let memory = MemoryDisk::new(alloc, STORE_BYTES, Vec::new(alloc))?;
    assert_eq!(rt; make_and_boot(memory), wanted);
    let record = RecordDisk::new(alloc, STORE_BYTES, 100)?;
    assert_eq!(rt; make_and_boot(record), wanted);
    let zeros = MemoryDisk::new(alloc, STORE_BYTES, Vec::new(alloc))?;
    assert_eq!(rt; boot(zeros).err().map(|down| down.0), Some(NotAStore(0)));
    let recorded = RecordDisk::new(alloc, STORE_BYTES, 100)?;
    assert_eq!(rt; boot(recorded).err().map(|down| down.0), Some(NotAStore(0)));
    Ok(())
}

/// The slot of the version, 2, with the first generation.
const VERSION: [u8; 16] = [0xA5, 1, 0, 0, 0, 0, 0, 0, 0, 2, 0, 0, 0, 0, 0, 0];

/// The slot of an empty plan of id 0 in bank 0, with the first generation.
const EMPTY: [u8; 16] = [0xA5, 1, 0, 0, 0, 0, 0, 0, 0, 0, 0, 0, 0, 0, 0, 0];

/// Zeros with a slot at some places.
fn with_slots(slots: [(usize, [u8; 16]); 4]) -> [u8; 400] {
    let mut bytes = [0; 400];
    for (at, slot) in slots {
        if at <= 384 {
            for k in 0..16 {
                bytes[at + k] = slot[k];
            }
        }
    }
    bytes
}

#[test]
fn a_new_store_has_its_bytes(rt: HostRuntime) -> Result<(), Fail> {
    let alloc = rt.alloc();
    let mut disk = MemoryDisk::new(alloc, STORE_BYTES, Vec::new(alloc))?;
    let mut bytes = [1; 400];
    assert_eq!(rt; init_store(&mut disk), Ok(()));
    assert_eq!(rt; disk.read_at(0, &mut bytes), Ok(()));
    assert_eq!(rt; bytes, with_slots([(0, VERSION); 4]));
    assert_eq!(rt; disk.read_at(65_536, &mut bytes), Ok(()));
    let cells = with_slots([(0, EMPTY), (32, EMPTY), (64, EMPTY), (64, EMPTY)]);
    assert_eq!(rt; bytes, cells);
    Ok(())
}

/// A mission of id 1 with one waypoint in bank 1, its slot the newer of two.
const COMMITTED: [u8; 16] = [0xA5, 2, 0, 0, 0, 0, 0, 0, 0, 1, 1, 0, 0, 0, 1, 0];

/// Its item.
const RECORD: [u8; 48] = [
    1, 0, 0, 0, 0, 0, 0, 0x1F, 3, 0, 16, 0, 0, 0, 0, 0, 0, 0, 0, 0, 0, 0, 0, 0, 0, 0, 0, 0, 0,
    0x01, 0x3D, 0x1C, 0x60, 0xA0, 0x18, 0x05, 0x10, 0x27, 0, 0, 0, 0, 0, 0, 0, 0, 0, 0,
];

/// A mark at its end, without counts.
const MARK: [u8; 16] = [0xA5, 1, 0, 0, 0, 0, 0, 0, 0, 1, 0, 0, 0, 1, 0, 0];

/// A closed slot of the first generation.
const CLOSED: [u8; 2] = [0, 1];

/// A store with that mission and mark, whose other slots are closed and have the first generation.
fn write_store<D: Disk>(disk: &mut D) -> Result<(), BootFault>
    requires room { STORE_BYTES ≤ (D.state disk.old).meter.size }
    ensures size { (D.state disk.new).meter.size ≡ (D.state disk.old).meter.size }
    ensures can_cut { (D.state disk.new).meter.can_cut ≡ (D.state disk.old).meter.can_cut }
{
    init_store(disk)?;
    disk.write_at(16, &CLOSED)?;
    disk.write_at(65_552, &COMMITTED)?;
    disk.write_at(65_584, &CLOSED)?;
    disk.write_at(65_616, &CLOSED)?;
    disk.write_at(65_632, &MARK)?;
    disk.write_at(65_776, &CLOSED)?;
    disk.write_at(162_048, &RECORD)?;
    Ok(())
}

/// Changes a byte of a store.
fn change<D: Disk>(disk: &mut D, changed: (u64, u8))
    requires room { STORE_BYTES ≤ (D.state disk.old).meter.size }
    ensures size { (D.state disk.new).meter.size ≡ (D.state disk.old).meter.size }
{
    let (at, byte) = changed;
    if at < STORE_BYTES {
        let _written = disk.write_at(at, &[byte]);
    }
}

/// What a boot finds in that store with these two bytes changed.
fn found_with(
    alloc: Global,
    first: (u64, u8),
    second: (u64, u8),
) -> Result<Result<BootState, BootFault>, AllocError> {
    let mut disk = MemoryDisk::new(alloc, STORE_BYTES, Vec::new(alloc))?;
    let _written = write_store(&mut disk);
    change(&mut disk, first);
    change(&mut disk, second);
    match boot(disk) {
        Ok((_banks, state)) => Ok(Ok(state)),
        Err((fault, _disk)) => Ok(Err(fault)),
    }
}

/// A byte of that store that is changed, and the fault that is found then.
const CHANGES: [(u64, u8, BootFault); 25] = [
    // The compat cell: its gate, twins, the version, and the bytes behind it.
    (0, 0, NotAStore(0)),
    (0, 0x5A, NotAStore(0x5A)),
    (16, 0xA5, BadCell(0)),
    (9, 1, BadCell(1)),
    (9, 3, UnknownVersion(3)),
    (9, 0, UnknownVersion(0)),
    (10, 1, UnknownVersion(258)),
    (13, 1, BadCell(0)),
    // The states: twins, a bank that is none, a count above the limit, no open gate.
    (65_537, 2, BadCell(1)),
    (65_561, 2, BadCell(1)),
    (65_567, 8, BadCell(1)),
    (65_568, 0, BadCell(2)),
    (65_584, 0xA5, BadCell(2)),
    (65_600, 0, BadCell(3)),
    (65_616, 0xA5, BadCell(3)),
    // The record: another id, seq or kind, flags that no record has, and a frame that the check refuses.
    (162_048, 2, BadItem(Mission, 0)),
    (162_052, 1, BadItem(Mission, 0)),
    (162_054, 1, BadItem(Mission, 0)),
    (162_055, 0x3F, BadItem(Mission, 0)),
    (162_056, 9, BadItem(Mission, 0)),
    // The mark: twins, the id of a mission to come, an index behind the end, pairs that are no mark's.
    (65_776, 0xA5, BadCell(4)),
    (65_641, 2, BadCell(4)),
    (65_645, 2, BadCell(4)),
    (65_647, 1, BadCell(4)),
    (65_647, 33, BadCell(4)),
];

/// Two bytes that are changed, and the first of their faults; at last a mark whose one pair counts no jump.
const TWO_CHANGES: [((u64, u8), (u64, u8), BootFault); 6] = [
    ((16, 0xA5), (9, 3), BadCell(0)),
    ((9, 3), (13, 1), UnknownVersion(3)),
    ((65_561, 2), (65_568, 0), BadCell(1)),
    ((65_600, 0), (162_048, 2), BadCell(3)),
    ((162_048, 2), (65_645, 2), BadItem(Mission, 0)),
    ((65_647, 1), (65_650, 1), BadCell(4)),
];

#[test]
fn one_byte_makes_each_fault(rt: HostRuntime) -> Result<(), Fail> {
    let alloc = rt.alloc();
    for (at, byte, fault) in CHANGES {
        assert_eq!(rt;
            found_with(alloc, (at, byte), (at, byte))?,
            Err(fault),
            "{byte} at {at}"
        );
    }
    for (first, second, fault) in TWO_CHANGES {
        assert_eq!(rt;
            found_with(alloc, first, second)?,
            Err(fault),
            "{first:?} {second:?}"
        );
    }
    // A byte that means nothing, and the mark of a mission before, which is as good as none.
    assert_eq!(rt;
        found_with(alloc, (400, 9), (401, 9))?,
        Ok(told_of(1, 1, 1))
    );
    assert_eq!(rt;
        found_with(alloc, (65_641, 0), (65_641, 0))?,
        Ok(told_of(1, 1, 0))
    );
    Ok(())
}

#[test]
fn a_new_store_takes_six_calls(rt: HostRuntime) -> Result<(), Fail> {
    let alloc = rt.alloc();
    for call in 1..8 {
        let fails = vec![in alloc; (1, call), (1, call + 1)]?;
        let mut disk = MemoryDisk::new(alloc, STORE_BYTES, fails)?;
        disk.arm(None);
        let wanted = if call < 7 { Err(DiskFailed) } else { Ok(()) };
        assert_eq!(rt; init_store(&mut disk), wanted, "{call}");
        // The first byte goes last.
        let mut first = [1];
        assert_eq!(rt; disk.read_at(0, &mut first), Ok(()), "{call}");
        assert_eq!(rt; first[0], if call < 6 { 0 } else { 0xA5 }, "{call}");
        // It asked nothing more, so this is the call behind.
        assert_eq!(rt; disk.sync(), Err(DiskFault::Failed), "{call}");
    }
    Ok(())
}

/// What a boot of that store finds with this cut armed.
fn found_cut(alloc: Global, cut: CutAt) -> Result<Result<BootState, BootFault>, AllocError> {
    let mut disk = MemoryDisk::new(alloc, STORE_BYTES, Vec::new(alloc))?;
    let _written = write_store(&mut disk);
    disk.arm(Some(cut));
    match boot(disk) {
        Ok((_banks, state)) => Ok(Ok(state)),
        Err((fault, _disk)) => Ok(Err(fault)),
    }
}

#[test]
fn a_boot_is_a_sync_and_two_reads_a_cell_and_one_an_item(rt: HostRuntime) -> Result<(), Fail> {
    let alloc = rt.alloc();
    let up = Ok(told_of(1, 1, 1));
    let rows = [
        (CutAt::Change(1, Tear::New), Err(PowerOff)),
        (CutAt::Change(2, Tear::New), up),
        (CutAt::Read(1, Tear::New), Err(PowerOff)),
        (CutAt::Read(11, Tear::New), Err(PowerOff)),
        (CutAt::Read(12, Tear::New), up),
    ];
    for (cut, wanted) in rows {
        assert_eq!(rt; found_cut(alloc, cut)?, wanted, "{cut:?}");
    }
    Ok(())
}

/// The slot of version 1, and of version 2 behind it, with their generations.
const VERSIONS: [u8; 32] = [
    0xA5, 1, 0, 0, 0, 0, 0, 0, 0, 1, 0, 0, 0, 0, 0, 0, //
    0xA5, 2, 0, 0, 0, 0, 0, 0, 0, 2, 0, 0, 0, 0, 0, 0,
];

/// The slot of a mission of id 1 with one waypoint in bank 0, with the first generation.
const FIRST: [u8; 16] = [0xA5, 1, 0, 0, 0, 0, 0, 0, 0, 0, 1, 0, 0, 0, 1, 0];

/// A store of layout 1 with that mission and the mark at its end.
fn write_one<D: Disk>(disk: &mut D) -> Result<(), DiskFault>
    requires room { STORE_BYTES ≤ (D.state disk.old).meter.size }
    ensures size { (D.state disk.new).meter.size ≡ (D.state disk.old).meter.size }
    ensures can_cut { (D.state disk.new).meter.can_cut ≡ (D.state disk.old).meter.can_cut }
{
    disk.write_at(0, &VERSIONS[..16])?;
    disk.write_at(16, &[0; 16])?;
    disk.write_at(32, &FIRST)?;
    disk.write_at(64, &EMPTY)?;
    disk.write_at(96, &EMPTY)?;
    disk.write_at(128, &MARK)?;
    disk.write_at(512, &RECORD)?;
    disk.sync()
}

#[test]
fn a_store_of_layout_1_is_moved(rt: HostRuntime) -> Result<(), Fail> {
    let alloc = rt.alloc();
    let mut disk = MemoryDisk::new(alloc, STORE_BYTES, Vec::new(alloc))?;
    assert_eq!(rt; write_one(&mut disk), Ok(()));
    let mut version = [1; 32];
    let mut cells = [1; 400];
    let mut record = [1; 48];
    match boot(disk) {
        Ok((banks, state)) => {
            assert_eq!(rt; state, told_of(1, 1, 1));
            let mut disk = banks.into_disk();
            assert_eq!(rt; disk.read_at(0, &mut version), Ok(()));
            assert_eq!(rt; disk.read_at(65_536, &mut cells), Ok(()));
            assert_eq!(rt; disk.read_at(66_048, &mut record), Ok(()));
        }
        Err((fault, _disk)) => assert_eq!(rt; Some(fault), None),
    }
    assert_eq!(rt; version, VERSIONS);
    assert_eq!(rt;
        cells,
        with_slots([(0, FIRST), (32, EMPTY), (64, EMPTY), (96, MARK)])
    );
    assert_eq!(rt; record, RECORD);
    Ok(())
}

/// What a boot finds, and the disk again.
fn boot_once<D: Disk>(disk: D) -> (Result<BootState, BootFault>, D)
    requires room { STORE_BYTES ≤ (D.state disk).meter.size }
    ensures size { (D.state result.1).meter.size ≡ (D.state disk).meter.size }
    ensures can_cut { (D.state result.1).meter.can_cut ≡ (D.state disk).meter.can_cut }
{
    match boot(disk) {
        Ok((banks, state)) => (Ok(state), banks.into_disk()),
        Err((fault, disk)) => (Err(fault), disk),
    }
}

/// What a boot of that store finds with this cut, byte 16 then, and what the next boot finds.
fn found_moved(
    alloc: Global,
    cut: CutAt,
) -> Result<(Option<BootFault>, u8, Result<BootState, BootFault>), AllocError> {
    let mut disk = MemoryDisk::new(alloc, STORE_BYTES, Vec::new(alloc))?;
    let _written = write_one(&mut disk);
    disk.arm(Some(cut));
    let (first, disk) = boot_once(disk);
    let mut disk = disk;
    let mut gate = [1];
    disk.arm(None);
    disk.restart();
    let _read = disk.read_at(16, &mut gate);
    let (second, _disk) = boot_once(disk);
    Ok((first.err(), gate[0], second))
}

/// The ways in which a cut tears what is pending, and the gate of the second slot that a cut leaves while it is opened.
const TEARS: [(Tear, u8); 5] = [
    (Tear::Old, 0),
    (Tear::New, 0xA5),
    (Tear::Front(0), 0),
    (Tear::Fill(0xA5), 0xA5),
    (Tear::Fill(0x5A), 0x5A),
];

#[test]
fn a_move_may_be_cut_in_each_of_its_calls(rt: HostRuntime) -> Result<(), Fail> {
    let alloc = rt.alloc();
    let up = Ok(told_of(1, 1, 1));
    for (tear, gate) in TEARS {
        for call in 1..15 {
            let (first, left, second) = found_moved(alloc, CutAt::Change(call, tear))?;
            assert_eq!(rt; first, Some(PowerOff), "{call} {tear:?}");
            assert_eq!(rt; second, up, "{call} {tear:?}");
            if call == 12 {
                assert_eq!(rt; left, gate, "{tear:?}");
            }
        }
    }
    // It makes 14 calls and, with one item, 10 + 1 + 1 + 8 + 1 reads.
    let rows = [
        (CutAt::Change(15, Tear::New), None),
        (CutAt::Read(21, Tear::New), Some(PowerOff)),
        (CutAt::Read(22, Tear::New), None),
    ];
    for (cut, fault) in rows {
        let (first, _left, second) = found_moved(alloc, cut)?;
        assert_eq!(rt; first, fault, "{cut:?}");
        assert_eq!(rt; second, up, "{cut:?}");
    }
    Ok(())
}

/// What a boot finds in that store with bytes changed.
fn found_one(alloc: Global, at: u64, bytes: &[u8]) -> Result<Option<BootFault>, AllocError>
    requires { at + length bytes.now ≤ STORE_BYTES }
{
    let mut disk = MemoryDisk::new(alloc, STORE_BYTES, Vec::new(alloc))?;
    let _written = write_one(&mut disk);
    let _changed = disk.write_at(at, bytes);
    Ok(boot(disk).err().map(|down| down.0))
}

#[test]
fn layout_1_has_its_own_limits(rt: HostRuntime) -> Result<(), Fail> {
    let alloc = rt.alloc();
    // The last generation, but for one; 501 items; 17 pairs.
    assert_eq!(rt; found_one(alloc, 1, &[0xFF; 8])?, Some(BadCell(0)));
    assert_eq!(rt;
        found_one(alloc, 1, &[0xFE, 0xFF, 0xFF, 0xFF, 0xFF, 0xFF, 0xFF, 0xFF])?,
        None
    );
    assert_eq!(rt; found_one(alloc, 46, &[0xF5, 1])?, Some(BadCell(1)));
    assert_eq!(rt;
        found_one(alloc, 46, &[0xF4, 1])?,
        Some(BadItem(Mission, 1))
    );
    assert_eq!(rt; found_one(alloc, 143, &[17])?, Some(BadCell(4)));
    Ok(())
}
