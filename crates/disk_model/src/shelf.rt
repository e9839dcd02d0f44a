//! A shelf gives a program its one disk: a new one in memory, or the one that is stored.
ghost use Rattle.std.specs.Prelude.{◌≡◌, IfOk, OnErr};
ghost use Rattle.disk_model.specs.Shelf.{ShelfState, MemoryCall, OpenCall, AfterShelf, SameShelf, IsZeroDisk, IsStored};

use crate::disk::Disk;
use std::alloc::{AllocError, Global};

/// Why a shelf gives no disk.
#[derive(Clone, Copy, Debug, PartialEq, Eq)]
pub enum ShelfFault {
    /// There was no memory for it.
    Memory(AllocError),
    /// There is no such disk, or it cannot be opened.
    Failed,
}

impl From<AllocError> for ShelfFault {
    ghost use Rattle.disk_model.specs.declared.shelf.ShelfFault.TheVariants as fault;

    ghost from_gives = { λ refused given. given ≡ fault.Memory refused };

    fn from(refused: AllocError) -> Self {
        ShelfFault::Memory(refused)
    }
}

/// Where disks are kept.
pub trait Shelf {
    type Disk: Disk;

    ghost state: { Self → ShelfState };

    /// A disk of zeros in memory, which can be cut.
    fn memory(&mut self, alloc: Global, size: u64) -> Result<Self::Disk, ShelfFault>
        ensures gives { IfOk result (λ disk. IsZeroDisk size (Self.Disk.state disk)) }
        ensures call { AfterShelf Self.Disk (λ ok. MemoryCall size ok) (state self.old) (state self.new) result }
        ensures stored { SameShelf (state self.old) (state self.new) };

    /// The disk that is stored under this path. With `create` one that is missing is made.
    fn open(
        &mut self,
        alloc: Global,
        path: &str,
        size: u64,
        create: bool,
    ) -> Result<Self::Disk, ShelfFault>
        ensures gives { IfOk result (λ disk. IsStored size (state self.old) (Self.Disk.state disk)) }
        ensures call { AfterShelf Self.Disk (λ ok. OpenCall size path.now create ok) (state self.old) (state self.new) result }
        ensures stored { OnErr result (SameShelf (state self.old) (state self.new)) };
}
