//! What no clause says: the images of a table of cuts, the counts of lives, and that each call can succeed.
use crate::{
    CutAt, Disk, DiskFault, FailReads, FileDisk, FileShelf, MemoryDisk, MemoryShelf, RecordDisk,
    Shelf, ShelfFault, Tear, Untold,
};
use std::alloc::{AllocError, Global};
use std::fs;
use std::fs::OpenOptions;
use std::test::Fail;

/// The bytes that a restart finds after this cut. Two calls come before the numbering, and then a
/// write of two bytes, one of three that begins inside it, a sync, a write of one byte and a read.
fn bytes_after(alloc: Global, cut: CutAt) -> Result<[u8; 8], AllocError> {
    let mut disk = MemoryDisk::new(alloc, 8, Vec::new(alloc))?;
    let mut bytes = [0; 8];
    let mut got = [0; 1];
    let _written = disk.write_at(0, &[1, 2, 3, 4]);
    let _synced = disk.sync();
    disk.arm(Some(cut));
    let _first = disk.write_at(0, &[5, 6]);
    let _second = disk.write_at(1, &[7, 8, 9]);
    let _third = disk.sync();
    let _fourth = disk.write_at(6, &[10]);
    let _read = disk.read_at(0, &mut got);
    disk.restart();
    let _again = disk.read_at(0, &mut bytes);
    Ok(bytes)
}

#[test]
fn a_cut_leaves_the_image_of_its_tear(rt: HostRuntime) -> Result<(), Fail> {
    let rows = [
        (CutAt::Change(1, Tear::Old), [1, 2, 3, 4, 0, 0, 0, 0]),
        (CutAt::Change(1, Tear::New), [5, 6, 3, 4, 0, 0, 0, 0]),
        (CutAt::Change(1, Tear::Front(1)), [5, 2, 3, 4, 0, 0, 0, 0]),
        (CutAt::Change(1, Tear::Fill(90)), [90, 90, 3, 4, 0, 0, 0, 0]),
        (CutAt::Change(2, Tear::Old), [1, 2, 3, 4, 0, 0, 0, 0]),
        (CutAt::Change(2, Tear::New), [5, 7, 8, 9, 0, 0, 0, 0]),
        (CutAt::Change(2, Tear::Front(0)), [5, 6, 3, 4, 0, 0, 0, 0]),
        (CutAt::Change(2, Tear::Front(2)), [5, 7, 8, 4, 0, 0, 0, 0]),
        (CutAt::Change(2, Tear::Front(9)), [5, 7, 8, 9, 0, 0, 0, 0]),
        (
            CutAt::Change(2, Tear::Fill(165)),
            [165, 165, 165, 165, 0, 0, 0, 0],
        ),
        (CutAt::Change(3, Tear::Old), [1, 2, 3, 4, 0, 0, 0, 0]),
        (CutAt::Change(3, Tear::Front(1)), [5, 7, 8, 9, 0, 0, 0, 0]),
        (CutAt::Change(3, Tear::Fill(0)), [0, 0, 0, 0, 0, 0, 0, 0]),
        (CutAt::Change(4, Tear::Old), [5, 7, 8, 9, 0, 0, 0, 0]),
        (CutAt::Change(4, Tear::New), [5, 7, 8, 9, 0, 0, 10, 0]),
        (CutAt::Read(1, Tear::Old), [5, 7, 8, 9, 0, 0, 0, 0]),
        (CutAt::Read(1, Tear::Front(0)), [5, 7, 8, 9, 0, 0, 10, 0]),
        (CutAt::Read(1, Tear::Fill(90)), [5, 7, 8, 9, 0, 0, 90, 0]),
        (CutAt::Change(5, Tear::Old), [5, 7, 8, 9, 0, 0, 10, 0]),
    ];
    for (cut, wanted) in rows {
        assert_eq!(rt; bytes_after(rt.alloc(), cut)?, wanted, "{cut:?}");
    }
    Ok(())
}

/// The bytes that a restart finds behind this tear of six writes of one byte, at places that do not touch but for the
/// last, which are more than the ranges that are kept. The byte 9 stood at each place before.
fn bytes_after_scattered(alloc: Global, tear: Tear) -> Result<[u8; 12], AllocError> {
    let mut disk = MemoryDisk::new(alloc, 12, Vec::new(alloc))?;
    let mut bytes = [0; 12];
    let _written = disk.write_at(0, &[9; 12]);
    let _synced = disk.sync();
    disk.arm(Some(CutAt::Read(1, tear)));
    let _first = disk.write_at(11, &[7]);
    let _second = disk.write_at(0, &[7]);
    let _third = disk.write_at(6, &[7]);
    let _fourth = disk.write_at(2, &[7]);
    let _fifth = disk.write_at(9, &[7]);
    let _sixth = disk.write_at(1, &[7]);
    let _cut = disk.read_at(0, &mut bytes);
    disk.restart();
    let _again = disk.read_at(0, &mut bytes);
    Ok(bytes)
}

#[test]
fn a_tear_is_exact_by_byte(rt: HostRuntime) -> Result<(), Fail> {
    let rows = [
        (Tear::Old, [9, 9, 9, 9, 9, 9, 9, 9, 9, 9, 9, 9]),
        (Tear::New, [7, 7, 7, 9, 9, 9, 7, 9, 9, 7, 9, 7]),
        (Tear::Fill(5), [5, 5, 5, 9, 9, 9, 5, 9, 9, 5, 9, 5]),
    ];
    for (tear, wanted) in rows {
        assert_eq!(rt;
            bytes_after_scattered(rt.alloc(), tear)?,
            wanted,
            "{tear:?}"
        );
    }
    Ok(())
}

/// Reads of 48 bytes are numbered alone, in each life, and only those that the disk answers Ok.
#[test]
fn a_listed_read_fails(rt: HostRuntime) -> Result<(), Fail> {
    let alloc = rt.alloc();
    let inside = MemoryDisk::new(alloc, 60, Vec::new(alloc))?;
    let mut disk = FailReads::new(inside, vec![in alloc; (0, 2), (1, 1)]?);
    let mut long = [0; 48];
    let mut short = [0; 47];
    assert_eq!(rt; disk.write_at(0, &[8; 60]), Ok(()));
    assert_eq!(rt; disk.read_at(0, &mut long), Ok(()));
    assert_eq!(rt; disk.read_at(0, &mut short), Ok(()));
    assert_eq!(rt; disk.read_at(0, &mut long), Err(DiskFault::Failed));
    assert_eq!(rt; disk.read_at(0, &mut long), Ok(()));
    disk.arm(Some(CutAt::Read(1, Tear::New)));
    assert_eq!(rt; disk.read_at(0, &mut long), Err(DiskFault::Cut));
    disk.restart();
    assert_eq!(rt; disk.read_at(0, &mut long), Err(DiskFault::Failed));
    assert_eq!(rt; disk.sync(), Ok(()));
    assert_eq!(rt; disk.can_cut(), true);
    let mut inside = disk.into_inner();
    assert_eq!(rt; inside.read_at(58, &mut short), Ok(()));
    assert_eq!(rt; [short[0], short[1], short[2]], [8, 8, 0]);
    Ok(())
}

#[test]
fn an_untold_disk_works_as_the_one_inside(rt: HostRuntime) -> Result<(), Fail> {
    let alloc = rt.alloc();
    let inside = MemoryDisk::new(alloc, 3, Vec::new(alloc))?;
    let mut disk = Untold { disk: inside };
    let mut got = [0; 3];
    disk.arm(Some(CutAt::Change(3, Tear::Old)));
    assert_eq!(rt; disk.write_at(1, &[6]), Ok(()));
    assert_eq!(rt; disk.sync(), Ok(()));
    assert_eq!(rt; disk.write_at(1, &[7]), Err(DiskFault::Cut));
    disk.restart();
    assert_eq!(rt; disk.read_at(0, &mut got), Ok(()));
    assert_eq!(rt; got, [0, 6, 0]);
    assert_eq!(rt; disk.can_cut(), true);
    Ok(())
}

/// What was synced last on a new disk is zeros.
#[test]
fn a_cut_of_the_first_write_leaves_zeros(rt: HostRuntime) -> Result<(), Fail> {
    let alloc = rt.alloc();
    let mut disk = MemoryDisk::new(alloc, 2, Vec::new(alloc))?;
    let mut got = [1; 2];
    disk.arm(Some(CutAt::Change(1, Tear::Old)));
    assert_eq!(rt; disk.write_at(0, &[5]), Err(DiskFault::Cut));
    disk.restart();
    assert_eq!(rt; disk.read_at(0, &mut got), Ok(()));
    assert_eq!(rt; got, [0, 0]);
    Ok(())
}

#[test]
fn a_call_fails_by_its_life_and_number(rt: HostRuntime) -> Result<(), Fail> {
    let alloc = rt.alloc();
    let fails = vec![in alloc; (0, 2), (1, 1), (2, 1)]?;
    let mut disk = MemoryDisk::new(alloc, 2, fails)?;
    let mut got = [0; 3];
    assert_eq!(rt; disk.write_at(0, &[1]), Ok(()));
    assert_eq!(rt; disk.write_at(0, &[2, 3]), Err(DiskFault::Failed));
    assert_eq!(rt; disk.sync(), Ok(()));
    disk.arm(None);
    assert_eq!(rt; disk.sync(), Err(DiskFault::Failed));
    assert_eq!(rt; disk.sync(), Ok(()));
    disk.arm(Some(CutAt::Change(1, Tear::Old)));
    assert_eq!(rt; disk.sync(), Err(DiskFault::Cut));
    assert_eq!(rt; disk.read_at(0, &mut got), Err(DiskFault::Cut));
    disk.restart();
    assert_eq!(rt; disk.read_at(0, &mut got), Ok(()));
    assert_eq!(rt; got, [1, 0, 0]);
    Ok(())
}

#[test]
fn a_recording_disk_fills(rt: HostRuntime) -> Result<(), Fail> {
    let mut disk = RecordDisk::new(rt.alloc(), 600, 2)?;
    let mut got = [0; 2];
    assert_eq!(rt; disk.write_at(0, &[9; 513]), Err(DiskFault::Failed));
    assert_eq!(rt; disk.write_at(599, &[7]), Ok(()));
    disk.restart();
    assert_eq!(rt; disk.sync(), Ok(()));
    assert_eq!(rt; disk.sync(), Err(DiskFault::Failed));
    assert_eq!(rt; disk.write_at(0, &[]), Err(DiskFault::Failed));
    disk.restart();
    assert_eq!(rt; disk.read_at(599, &mut got), Ok(()));
    assert_eq!(rt; got, [7, 0]);
    Ok(())
}

#[test]
fn a_shelf_in_memory_gives_its_disk_once(rt: HostRuntime) -> Result<(), Fail> {
    let alloc = rt.alloc();
    let kept = MemoryDisk::new(alloc, 4, Vec::new(alloc))?;
    let mut shelf = MemoryShelf::new(alloc, Some(kept), vec![in alloc; (0, 1)]?, false);
    assert_eq!(rt;
        shelf.open(alloc, "store", 5, true).err(),
        Some(ShelfFault::Failed)
    );
    assert_eq!(rt; shelf.open(alloc, "store", 4, false).is_ok(), true);
    assert_eq!(rt;
        shelf.open(alloc, "store", 4, false).err(),
        Some(ShelfFault::Failed)
    );
    assert_eq!(rt; shelf.memory(alloc, 3)?.sync(), Err(DiskFault::Failed));
    assert_eq!(rt; shelf.memory(alloc, 3)?.sync(), Ok(()));
    assert_eq!(rt; shelf.calls().len(), 5);
    let mut missing = MemoryShelf::new(alloc, None, Vec::new(alloc), false);
    assert_eq!(rt;
        missing.open(alloc, "store", 0, true).err(),
        Some(ShelfFault::Failed)
    );
    let spare = MemoryDisk::new(alloc, 4, Vec::new(alloc))?;
    let mut broken = MemoryShelf::new(alloc, Some(spare), Vec::new(alloc), true);
    assert_eq!(rt;
        broken.open(alloc, "store", 4, false).err(),
        Some(ShelfFault::Failed)
    );
    Ok(())
}

/// A file that is not there is made only where that is asked, and then has zeros. One disk at a time holds it.
#[test]
fn a_shelf_over_files_makes_a_file(rt: HostRuntime) -> Result<(), Fail> {
    let path = "file_that_a_shelf_makes";
    let mut shelf = FileShelf::new(&rt);
    let mut got = [1; 3];
    assert_eq!(rt;
        shelf.open(rt.alloc(), path, 2, false).err(),
        Some(ShelfFault::Failed)
    );
    {
        let mut made = shelf.open(rt.alloc(), path, 2, true)?;
        assert_eq!(rt; made.read_at(0, &mut got), Ok(()));
        assert_eq!(rt; got, [0, 0, 0]);
        assert_eq!(rt; made.write_at(1, &[7]), Ok(()));
        assert_eq!(rt;
            shelf.open(rt.alloc(), path, 2, true).err(),
            Some(ShelfFault::Failed)
        );
    }
    let mut again = shelf.open(rt.alloc(), path, 2, true)?;
    assert_eq!(rt; again.read_at(0, &mut got), Ok(()));
    assert_eq!(rt; got, [0, 7, 0]);
    fs::remove_file(&rt, path)?;
    Ok(())
}

#[test]
fn a_disk_over_a_file_keeps_its_bytes(rt: HostRuntime) -> Result<(), Fail> {
    let path = "disk_over_a_file";
    let file = OpenOptions::new()
        .read(true)
        .write(true)
        .create(true)
        .truncate(true)
        .open(&rt, path)?;
    let mut disk = FileDisk::new(file, 6);
    let mut got = [1; 5];
    assert_eq!(rt; disk.write_at(2, &[3, 4]), Ok(()));
    assert_eq!(rt; disk.sync(), Ok(()));
    assert_eq!(rt; disk.read_at(3, &mut got), Ok(()));
    assert_eq!(rt; got, [4, 0, 0, 0, 0]);
    let mut shelf = FileShelf::new(&rt);
    let mut stored = shelf.open(rt.alloc(), path, 3, false)?;
    assert_eq!(rt; stored.read_at(1, &mut got), Ok(()));
    assert_eq!(rt; got, [0, 3, 0, 0, 0]);
    assert_eq!(rt; stored.can_cut(), false);
    assert_eq!(rt; shelf.memory(rt.alloc(), 3)?.can_cut(), true);
    fs::remove_file(&rt, path)?;
    assert_eq!(rt;
        shelf.open(rt.alloc(), path, 3, false).err(),
        Some(ShelfFault::Failed)
    );
    Ok(())
}
