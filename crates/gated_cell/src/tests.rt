// What no clause says: the worked rows of a change that is cut or fails, and that each call can succeed.
ghost use Rattle.std.specs.Prelude.{◌≡◌, ◌+◌, ◌*◌, ◌-◌, ◌≤◌, length, IsTrue, IfOk};
ghost use Rattle.disk_model.specs.Disk.{Only};
ghost use Rattle.disk_model.specs.Memory.{state_of};

use crate::{CellFault, CellPlace, GatedCell};
use disk_model::{CutAt, Disk, DiskFault, MemoryDisk, Tear};
use std::alloc::{AllocError, Global};
use std::test::Fail;

const PLACE: CellPlace = CellPlace {
    at: 0,
    slot_bytes: 16,
};

const OLD: [u8; 7] = [1, 2, 3, 4, 5, 6, 7];

const NEXT: [u8; 7] = [21, 22, 23, 24, 25, 26, 27];

/// A disk whose first slot is open with this generation and the old payload, and whose second has this
/// gate and the same generation.
fn disk_with(
    alloc: Global,
    fails: Vec<(u16, u32)>,
    generation: u64,
    gate: u8,
) -> Result<MemoryDisk, AllocError>
    ensures size { IfOk result (λ disk. (state_of disk).meter.size ≡ 32) }
    ensures cuts { IfOk result (λ disk. IsTrue (state_of disk).meter.can_cut) }
    ensures only { IfOk result (λ disk. Only (state_of disk).seen (state_of disk).images) }
{
    let mut disk = MemoryDisk::new(alloc, 32, fails)?;
    let _gate = disk.write_at(0, &[0xA5]);
    let _generation = disk.write_at(1, &generation.to_le_bytes());
    let _payload = disk.write_at(9, &OLD);
    let _second_gate = disk.write_at(16, &[gate]);
    let _second_generation = disk.write_at(17, &generation.to_le_bytes());
    let _synced = disk.sync();
    disk.restart();
    Ok(disk)
}

/// Puts the next payload in force, as far as the disk lets it.
fn change<D: Disk>(disk: &mut D) -> Result<(), CellFault>
    requires size { (D.state disk.old).meter.size ≡ 32 }
    requires only { Only (D.state disk.old).seen (D.state disk.old).images }
    ensures size { (D.state disk.new).meter.size ≡ 32 }
    ensures can_cut { (D.state disk.new).meter.can_cut ≡ (D.state disk.old).meter.can_cut }
{
    let mut payload = [0; 7];
    let mut cell = GatedCell::open(disk, PLACE, &mut payload)?;
    cell.close_spare(disk)?;
    cell.write_spare(disk, &NEXT)?;
    cell.open_spare(disk)
}

/// Tries the same, resolves a doubt, and tells what the last step answered, whether there was a doubt, and
/// whether there is one still.
fn change_and_resolve<D: Disk>(
    disk: &mut D,
) -> Result<(Result<(), CellFault>, [bool; 2]), CellFault>
    requires size { (D.state disk.old).meter.size ≡ 32 }
    requires only { Only (D.state disk.old).seen (D.state disk.old).images }
    ensures size { (D.state disk.new).meter.size ≡ 32 }
    ensures can_cut { (D.state disk.new).meter.can_cut ≡ (D.state disk.old).meter.can_cut }
{
    let mut payload = [0; 7];
    let mut cell = GatedCell::open(disk, PLACE, &mut payload)?;
    cell.close_spare(disk)?;
    cell.write_spare(disk, &NEXT)?;
    let opened = cell.open_spare(disk);
    let before = cell.in_doubt();
    match opened {
        Err(CellFault::Failed) => cell.resolve(disk)?,
        _ => {}
    }
    Ok((opened, [before, cell.in_doubt()]))
}

/// The payload in force.
fn payload_in<D: Disk>(disk: &mut D) -> Result<[u8; 7], CellFault>
    requires size { (D.state disk.old).meter.size ≡ 32 }
    requires only { Only (D.state disk.old).seen (D.state disk.old).images }
    ensures size { (D.state disk.new).meter.size ≡ 32 }
    ensures can_cut { (D.state disk.new).meter.can_cut ≡ (D.state disk.old).meter.can_cut }
{
    let mut payload = [0; 7];
    let _cell = GatedCell::open(disk, PLACE, &mut payload)?;
    Ok(payload)
}

/// What a restart finds in force after this cut of a change.
fn found_after(
    alloc: Global,
    cut: CutAt,
) -> Result<(Result<(), CellFault>, Result<[u8; 7], CellFault>), AllocError> {
    let mut disk = disk_with(alloc, Vec::new(alloc), 1, 0)?;
    disk.arm(Some(cut));
    let changed = change(&mut disk);
    disk.restart();
    Ok((changed, payload_in(&mut disk)))
}

#[test]
fn a_cut_leaves_the_old_payload_or_the_next(rt: HostRuntime) -> Result<(), Fail> {
    // The payload after a cut in one of the first four calls, and after one in the two that open the gate.
    let rows = [
        (Tear::Old, OLD, OLD),
        (Tear::New, OLD, NEXT),
        (Tear::Fill(0x5A), OLD, OLD),
        (Tear::Fill(0xA5), OLD, NEXT),
    ];
    for (tear, before, opening) in rows {
        for call in 1..7 {
            let wanted = if call < 5 { before } else { opening };
            let found = found_after(rt.alloc(), CutAt::Change(call, tear))?;
            assert_eq!(rt; found, (Err(CellFault::Cut), Ok(wanted)), "{call} {tear:?}");
        }
    }
    Ok(())
}

#[test]
fn a_change_stops_at_its_first_call_that_fails(rt: HostRuntime) -> Result<(), Fail> {
    let alloc = rt.alloc();
    for call in 1..7 {
        let fails = vec![in alloc; (1, call), (1, call + 1)]?;
        let mut disk = disk_with(alloc, fails, 1, 0)?;
        disk.arm(None);
        assert_eq!(rt; change(&mut disk), Err(CellFault::Failed), "{call}");
        // The change asked nothing more, so this is the call behind.
        assert_eq!(rt; disk.sync(), Err(DiskFault::Failed), "{call}");
    }
    Ok(())
}

#[test]
fn a_gate_that_failed_to_open_is_in_doubt_until_it_is_resolved(
    rt: HostRuntime,
) -> Result<(), Fail> {
    let alloc = rt.alloc();
    let fails = vec![in alloc; (1, 5), (1, 8)]?;
    let mut disk = disk_with(alloc, fails, 1, 0)?;
    disk.arm(None);
    assert_eq!(rt;
        change_and_resolve(&mut disk),
        Ok((Err(CellFault::Failed), [true, false]))
    );
    // It made the sixth call and the seventh.
    assert_eq!(rt; disk.sync(), Err(DiskFault::Failed));
    disk.restart();
    assert_eq!(rt; payload_in(&mut disk), Ok(OLD));
    // The closed gate before the refused payload is not written again, so that no tear opens it.
    disk.restart();
    disk.arm(Some(CutAt::Change(1, Tear::Fill(0xA5))));
    assert_eq!(rt; change(&mut disk), Err(CellFault::Cut));
    disk.restart();
    assert_eq!(rt; payload_in(&mut disk), Ok(OLD));
    Ok(())
}

#[test]
fn twins_and_the_last_generation_are_refused(rt: HostRuntime) -> Result<(), Fail> {
    let alloc = rt.alloc();
    let mut twins = disk_with(alloc, Vec::new(alloc), 7, 0xA5)?;
    assert_eq!(rt; payload_in(&mut twins), Err(CellFault::Twins(7)));
    let mut last = disk_with(alloc, Vec::new(alloc), u64::MAX, 0)?;
    last.arm(Some(CutAt::Change(1, Tear::Old)));
    assert_eq!(rt; change(&mut last), Err(CellFault::Spent(u64::MAX)));
    Ok(())
}

/// Puts a payload of 191 bytes into an empty cell, and reads it again.
fn keep_long<D: Disk>(disk: &mut D) -> Result<(bool, u64, [u8; 191]), CellFault>
    requires size { (D.state disk.old).meter.size ≡ 400 }
    requires only { Only (D.state disk.old).seen (D.state disk.old).images }
{
    let place = CellPlace {
        at: 0,
        slot_bytes: 200,
    };
    let mut payload = [0; 191];
    let mut cell = GatedCell::open(disk, place, &mut payload)?;
    let had = cell.has_payload();
    cell.close_spare(disk)?;
    cell.write_spare(disk, &[9; 191])?;
    cell.open_spare(disk)?;
    let again = GatedCell::open(disk, place, &mut payload)?;
    Ok((had, again.generation(), payload))
}

#[test]
fn a_long_slot_keeps_its_payload(rt: HostRuntime) -> Result<(), Fail> {
    let alloc = rt.alloc();
    let mut disk = MemoryDisk::new(alloc, 400, Vec::new(alloc))?;
    assert_eq!(rt; keep_long(&mut disk), Ok((false, 1, [9; 191])));
    Ok(())
}
