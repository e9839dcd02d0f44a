//! A shelf in memory, which gives one kept disk once and lists its calls.
ghost use Rattle.std.specs.Prelude.{◌≡◌, ◌≤◌};
ghost use Rattle.disk_model.specs.Disk.{counted};

use crate::disk::Disk;
use crate::memory_disk::MemoryDisk;
use crate::shelf::{Shelf, ShelfFault};
use crate::tally::counted;
use std::alloc::{AllocError, Global};
use std::mem;

/// A call of a shelf that found its memory.
#[derive(Debug, Drop)]
pub enum ShelfEntry {
    Memory {
        size: u64,
    },
    Open {
        size: u64,
        path: String,
        create: bool,
        ok: bool,
    },
}

/// A shelf in memory. Its `open` takes no heed of the path.
#[derive(Drop)]
pub struct MemoryShelf {
    kept: Option<MemoryDisk>,
    fails: Vec<(u16, u32)>,
    open_fails: bool,
    faults: u64,
    calls: Vec<ShelfEntry>,
}

impl MemoryShelf {
    ghost use Rattle.std.specs.Prelude.{◌++◌, [], ◌∷◌, ◌↔◌, IsTrue, ℕ, List, IfSome, OnErr, OnOk, false};
    ghost use Rattle.disk_model.specs.Disk.{IsFresh};
    ghost use Rattle.disk_model.specs.Memory.{state_of as disk_state_of};
    ghost use Rattle.disk_model.specs.MemoryShelf.{state_of, Keeps};

    /// A shelf with at most one disk to open, `kept`, which is handed out once; with `open_fails` it is
    /// never handed out. `fails` go to the disk that `memory` makes first, as for [`MemoryDisk::new`].
    pub fn new(
        alloc: Global,
        kept: Option<MemoryDisk>,
        fails: Vec<(u16, u32)>,
        open_fails: bool,
    ) -> MemoryShelf
        requires { IfSome kept (λ disk. IsFresh (disk_state_of disk)) }
        ensures kept { result.kept ≡ kept }
        ensures told { IfSome kept (λ disk. (c : List ℕ) → open_fails ≡ false → (state_of result).images c ↔ (disk_state_of disk).images c) }
        ensures fails { result.fails ≡ fails }
        ensures open_fails { result.open_fails ≡ open_fails }
        ensures faults { (state_of result).faults ≡ 0 }
        ensures calls { (state_of result).calls ≡ [] }
    {
        MemoryShelf {
            kept,
            fails,
            open_fails,
            faults: 0,
            calls: Vec::new(alloc),
        }
    }

    /// Its calls so far.
    pub fn calls(&self) -> &[ShelfEntry]
        ensures { result.now ≡ self.now.calls.items }
    {
        &self.calls
    }

    fn log(&mut self, entry: ShelfEntry) -> Result<(), AllocError>
        ensures ok { OnOk result (self.new.calls.items ≡ self.old.calls.items ++ entry ∷ []) }
        ensures err { OnErr result (self.new.calls.items ≡ self.old.calls.items) }
        ensures kept { self.new.kept ≡ self.old.kept }
        ensures fails { self.new.fails ≡ self.old.fails }
        ensures open_fails { self.new.open_fails ≡ self.old.open_fails }
        ensures faults { self.new.faults ≡ self.old.faults }
    {
        self.calls.push(entry)?;
        Ok(())
    }

    fn keeps(&self, size: u64) -> bool
        ensures { IsTrue result ↔ Keeps self.now.open_fails self.now.kept size }
    {
        if self.open_fails {
            return false;
        }
        match &self.kept {
            Some(disk) => size <= disk.size(),
            None => false,
        }
    }
}

impl Shelf for MemoryShelf {
    ghost use Rattle.std.specs.Prelude.{[], IfOk, IfSome, OnOk, OnErr, IsErrOf, None};
    ghost use Rattle.disk_model.specs.Shelf.{MemoryCall, OpenCall, AfterShelf, SameShelf, IsZeroDisk, IsStored};
    ghost use Rattle.disk_model.specs.declared.shelf.ShelfFault.TheVariants as fault;
    ghost use Rattle.disk_model.specs.Power.{new_power, renewed};
    ghost use Rattle.disk_model.specs.Contents.{IsSettled};
    ghost use Rattle.disk_model.specs.Memory.{state_of as disk_state_of};
    ghost use Rattle.disk_model.specs.MemoryShelf.{state_of, Keeps};

    type Disk = MemoryDisk;

    ghost state = { state_of };

    fn memory(&mut self, alloc: Global, size: u64) -> Result<MemoryDisk, ShelfFault>
        ensures gives { IfOk result (λ disk. IsZeroDisk size (disk_state_of disk)) }
        ensures settled { IfOk result (λ disk. IsSettled disk.contents) }
        ensures call { AfterShelf MemoryDisk (λ ok. MemoryCall size ok) (state_of self.old) (state_of self.new) result }
        ensures stored { SameShelf (state_of self.old) (state_of self.new) }
        ensures kept { self.new.kept ≡ self.old.kept }
        ensures fails { IfOk result (λ disk. disk.power ≡ new_power self.old.fails) }
        ensures later { OnOk result (self.new.fails.items ≡ []) }
        ensures unused { OnErr result (self.new.fails ≡ self.old.fails) }
    {
        let mut disk = MemoryDisk::new(alloc, size, Vec::new(alloc))?;
        self.log(ShelfEntry::Memory { size })?;
        disk.fail_at(mem::replace(&mut self.fails, Vec::new(alloc)));
        Ok(disk)
    }

    fn open(
        &mut self,
        alloc: Global,
        path: &str,
        size: u64,
        create: bool,
    ) -> Result<MemoryDisk, ShelfFault>
        ensures gives { IfOk result (λ disk. IsStored size (state_of self.old) (disk_state_of disk)) }
        ensures call { AfterShelf MemoryDisk (λ ok. OpenCall size path.now create ok) (state_of self.old) (state_of self.new) result }
        ensures stored { OnErr result (SameShelf (state_of self.old) (state_of self.new)) }
        ensures there { OnOk result (Keeps self.old.open_fails self.old.kept size) }
        ensures refused { IsErrOf result fault.Failed → ¬ (Keeps self.old.open_fails self.old.kept size) }
        ensures power { IfOk result (λ disk. IfSome self.old.kept (λ kept. disk.power ≡ renewed kept.power)) }
        ensures once { OnOk result (self.new.kept ≡ None) }
        ensures kept { OnErr result (self.new.kept ≡ self.old.kept) }
        ensures fails { self.new.fails ≡ self.old.fails }
    {
        let path = String::from_str(alloc, path)?;
        let ok = self.keeps(size);
        self.log(ShelfEntry::Open {
            size,
            path,
            create,
            ok,
        })?;
        if !ok {
            self.faults = counted(self.faults);
            return Err(ShelfFault::Failed);
        }
        match self.kept.take() {
            Some(mut disk) => {
                disk.renew();
                Ok(disk)
            }
            None => unreachable!(),
        }
    }
}
