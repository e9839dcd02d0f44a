//! A disk over a file. What the file holds is the system's to say, so the disk tells nothing of it.
ghost use Rattle.std.specs.Prelude.{◌≡◌, ◌<◌, ◌^◌, ◌≤◌, ◌+◌, length};

use crate::disk::{CutAt, Disk, DiskFault};
use crate::tally::Tally;
use std::fs::File;
use std::io;
use std::os::unix::fs::FileExt;

/// The first bytes of a file as a disk. It cannot be cut. A system may forget what it could not write and call the next
/// sync Ok, so after a sync that failed each later write and sync fails, until the file is opened anew.
#[derive(Drop)]
pub struct FileDisk {
    file: File,
    size: u64,
    tally: Tally,
    /// Whether a sync failed.
    distrusted: bool,
    ghost small: { size < 2 ^ 64 },
}

/// Reads the bytes from a place on, and leaves those of `buf` that are past the file's end.
fn read_there(file: &File, at: u64, buf: &mut [u8]) -> io::Result<()>
    requires { at + length buf.old < 2 ^ 64 }
{
    let mut filled = 0;
    for _ in 0..u64::MAX {
        if filled >= buf.len() {
            break;
        }
        match file.read_at(&mut buf[filled..], at + filled as u64) {
            Ok(0) => break,
            Ok(n) => filled += n,
            Err(refused) if refused.kind() == io::ErrorKind::Interrupted => {}
            Err(refused) => return Err(refused),
        }
    }
    Ok(())
}

/// The bytes from a place on, and 0 past the end of the disk or of the file.
fn read_or_zero(file: &File, size: u64, at: u64, buf: &mut [u8]) -> io::Result<()> {
    buf.fill(0);
    if size <= at {
        return Ok(());
    }
    if (buf.len() as u64) < size - at {
        read_there(file, at, buf)
    } else {
        let there = (size - at) as usize;
        read_there(file, at, &mut buf[..there])
    }
}

impl FileDisk {
    ghost use Rattle.std.specs.Prelude.{false};
    ghost use Rattle.disk_model.specs.Disk.{new_meter};
    ghost use Rattle.disk_model.specs.File.{state_of};

    /// The first `size` bytes of a file that is open for reading and writing. A byte that the file
    /// does not have reads as 0, and a write makes the file longer.
    pub fn new(file: File, size: u64) -> FileDisk
        ensures tells { (state_of result).tells ≡ false }
        ensures meter { (state_of result).meter ≡ new_meter size false }
        ensures trusted { result.distrusted ≡ false }
    {
        FileDisk {
            file,
            size,
            tally: Tally::new(),
            distrusted: false,
        }
    }
}

impl Disk for FileDisk {
    ghost use Rattle.std.specs.Prelude.{IsTrue, IsSome, IsErrOf, is_err};
    ghost use Rattle.disk_model.specs.Disk.{Reads, Writes, Syncs, Arms, Restarts};
    ghost use Rattle.disk_model.specs.declared.disk.DiskFault.TheVariants as fault;
    ghost use Rattle.disk_model.specs.File.{state_of, state_sound};

    ghost state = { state_of };

    ghost sound = { state_sound };

    fn read_at(&mut self, at: u64, buf: &mut [u8]) -> Result<(), DiskFault>
        ensures call { Reads at (length buf.old) (state_of self.old) (state_of self.new) buf.new result }
        ensures distrusted { self.new.distrusted ≡ self.old.distrusted }
    {
        self.tally.count_read();
        match read_or_zero(&self.file, self.size, at, buf) {
            Ok(()) => Ok(()),
            Err(_) => {
                self.tally.count_fault();
                Err(DiskFault::Failed)
            }
        }
    }

    fn write_at(&mut self, at: u64, bytes: &[u8]) -> Result<(), DiskFault>
        requires { at + length bytes.now ≤ (state_of self.old).meter.size }
        ensures call { Writes at bytes.now (state_of self.old) (state_of self.new) result }
        ensures refused { IsTrue self.old.distrusted → IsErrOf result fault.Failed }
        ensures distrusted { self.new.distrusted ≡ self.old.distrusted }
    {
        self.tally.count_change();
        if self.distrusted {
            self.tally.count_fault();
            return Err(DiskFault::Failed);
        }
        match self.file.write_all_at(bytes, at) {
            Ok(()) => Ok(()),
            Err(_) => {
                self.tally.count_fault();
                Err(DiskFault::Failed)
            }
        }
    }

    fn sync(&mut self) -> Result<(), DiskFault>
        ensures call { Syncs (state_of self.old) (state_of self.new) result }
        ensures refused { IsTrue self.old.distrusted → IsErrOf result fault.Failed }
        ensures distrusted { self.new.distrusted ≡ is_err result }
    {
        self.tally.count_change();
        if self.distrusted {
            self.tally.count_fault();
            return Err(DiskFault::Failed);
        }
        match self.file.sync_all() {
            Ok(()) => Ok(()),
            Err(_) => {
                self.distrusted = true;
                self.tally.count_fault();
                Err(DiskFault::Failed)
            }
        }
    }

    fn arm(&mut self, cut: Option<CutAt>)
        requires { IsSome cut → IsTrue (state_of self.old).meter.can_cut }
        ensures call { Arms cut (state_of self.old) (state_of self.new) }
        ensures distrusted { self.new.distrusted ≡ self.old.distrusted }
    {
        match cut {
            Some(_) => unreachable!(),
            None => self.tally.number_anew(),
        }
    }

    fn restart(&mut self)
        ensures call { Restarts (state_of self.old) (state_of self.new) }
        ensures distrusted { self.new.distrusted ≡ self.old.distrusted }
    {}

    fn can_cut(&self) -> bool {
        false
    }
}
