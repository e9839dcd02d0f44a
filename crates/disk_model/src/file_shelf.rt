//! A shelf over files, each of which is one disk.
ghost use Rattle.std.specs.Prelude.{◌≡◌};
ghost use Rattle.disk_model.specs.Disk.{counted};

use crate::disk::{CutAt, Disk, DiskFault};
use crate::file_disk::FileDisk;
use crate::memory_disk::MemoryDisk;
use crate::shelf::{Shelf, ShelfFault};
use crate::tally::counted;
use std::alloc::Global;
use std::fs::{File, OpenOptions};
use std::io;
use std::path::Path;
use std::rt::Files;

/// A disk that a shelf over files gives.
#[derive(Drop)]
pub enum ShelfDisk {
    Memory(MemoryDisk),
    File(FileDisk),
}

impl Disk for ShelfDisk {
    ghost use Rattle.disk_model.specs.FileShelf.{state_of, state_sound};

    ghost state = { state_of };

    ghost sound = { state_sound };

    fn read_at(&mut self, at: u64, buf: &mut [u8]) -> Result<(), DiskFault> {
        match self {
            ShelfDisk::Memory(disk) => disk.read_at(at, buf),
            ShelfDisk::File(disk) => disk.read_at(at, buf),
        }
    }

    fn write_at(&mut self, at: u64, bytes: &[u8]) -> Result<(), DiskFault> {
        match self {
            ShelfDisk::Memory(disk) => disk.write_at(at, bytes),
            ShelfDisk::File(disk) => disk.write_at(at, bytes),
        }
    }

    fn sync(&mut self) -> Result<(), DiskFault> {
        match self {
            ShelfDisk::Memory(disk) => disk.sync(),
            ShelfDisk::File(disk) => disk.sync(),
        }
    }

    fn arm(&mut self, cut: Option<CutAt>) {
        match self {
            ShelfDisk::Memory(disk) => disk.arm(cut),
            ShelfDisk::File(disk) => disk.arm(cut),
        }
    }

    fn restart(&mut self) {
        match self {
            ShelfDisk::Memory(disk) => disk.restart(),
            ShelfDisk::File(disk) => disk.restart(),
        }
    }

    fn can_cut(&self) -> bool {
        match self {
            ShelfDisk::Memory(disk) => disk.can_cut(),
            ShelfDisk::File(disk) => disk.can_cut(),
        }
    }
}

/// The folder of the file of this path.
fn folder_of(path: &str) -> &str {
    match Path::new(path).parent() {
        Some(folder) => match folder.as_str() {
            "" => ".",
            text => text,
        },
        None => ".",
    }
}

/// Opens a file for reading and writing, and locks it against every other opening.
fn open_locked<R: Files<File = File>>(
    files: &R,
    how: &mut OpenOptions,
    path: &str,
) -> io::Result<File> {
    let file = how.read(true).write(true).open(files, path)?;
    file.try_lock()?;
    Ok(file)
}

/// Sees that the folder of the file of this path keeps it.
fn sync_folder<R: Files<File = File>>(files: &R, path: &str) -> io::Result<()> {
    OpenOptions::new()
        .read(true)
        .open(files, folder_of(path))?
        .sync_all()
}

/// Makes a file that is not there. One that its folder may lose is taken away again, so that the next opening makes it anew.
fn make_locked<R: Files<File = File>>(files: &R, path: &str) -> io::Result<File> {
    let file = open_locked(files, OpenOptions::new().create_new(true), path)?;
    match sync_folder(files, path) {
        Ok(()) => Ok(file),
        Err(refused) => {
            let _removed = files.remove_file(path);
            Err(refused)
        }
    }
}

/// The locked file of this path, which with `create` is made where it is missing.
fn locked_file<R: Files<File = File>>(files: &R, path: &str, create: bool) -> io::Result<File> {
    match open_locked(files, &mut OpenOptions::new(), path) {
        Err(missing) if create && missing.kind() == io::ErrorKind::NotFound => {
            make_locked(files, path)
        }
        found => found,
    }
}

/// A shelf whose `open` opens the file of this path, for reading and writing, and locks it: a file that another program
/// holds, or another disk of this one, is a fault. The lock goes with the disk.
#[derive(Drop)]
pub struct FileShelf<R: Files<File = File>> {
    files: R,
    faults: u64,
}

impl<R: Files<File = File>> FileShelf<R> {
    /// No call failed so far.
    pub fn new(files: R) -> FileShelf<R>
        ensures files { result.files ≡ files }
        ensures faults { result.faults ≡ 0 }
    {
        FileShelf { files, faults: 0 }
    }
}

impl<R: Files<File = File>> Shelf for FileShelf<R> {
    ghost use Rattle.disk_model.specs.FileShelf.{untold_shelf};

    type Disk = ShelfDisk;

    ghost state = { λ shelf. untold_shelf shelf.faults };

    fn memory(&mut self, alloc: Global, size: u64) -> Result<ShelfDisk, ShelfFault> {
        let disk = MemoryDisk::new(alloc, size, Vec::new(alloc))?;
        Ok(ShelfDisk::Memory(disk))
    }

    fn open(
        &mut self,
        _alloc: Global,
        path: &str,
        size: u64,
        create: bool,
    ) -> Result<ShelfDisk, ShelfFault> {
        match locked_file(&self.files, path, create) {
            Ok(file) => Ok(ShelfDisk::File(FileDisk::new(file, size))),
            Err(_) => {
                self.faults = counted(self.faults);
                Err(ShelfFault::Failed)
            }
        }
    }
}
