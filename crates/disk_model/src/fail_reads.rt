//! A disk some of whose reads fail though the disk inside made them, so that a reader is shown what it rarely meets.
ghost use Rattle.std.specs.Prelude.{◌≡◌, ◌⊎◌};
ghost use Rattle.disk_model.specs.Disk.{next_call};
ghost use Rattle.disk_model.specs.FailReads.{no_faults, is_listed, after_long_read, next_life};

use crate::disk::{CutAt, Disk, DiskFault};
use crate::power::fails_at;
use crate::tally::{counted, next_call};

/// How many bytes a read has that may fail.
const LONG_READ: usize = 48;

/// Which reads fail, and how many came in this life.
#[derive(Drop)]
pub struct ReadFaults {
    /// The life and the number of each read that fails.
    pub items: Vec<(u16, u32)>,
    /// How often `arm` was called.
    pub life: u64,
    /// How many long reads the disk inside answered Ok in this life.
    pub done: u64,
    /// How many of those failed, in all lives.
    pub faults: u64,
}

impl ReadFaults {
    /// Nothing was read.
    fn new(items: Vec<(u16, u32)>) -> ReadFaults
        ensures { result ≡ no_faults items }
    {
        ReadFaults {
            items,
            life: 0,
            done: 0,
            faults: 0,
        }
    }

    /// Counts a long read that was made, and says whether it fails.
    fn count_read(&mut self) -> bool
        ensures listed { result ≡ is_listed self.old }
        ensures after { self.new ≡ after_long_read self.old }
    {
        self.done = next_call(self.done);
        let listed = fails_at(&self.items, self.life, self.done);
        if listed {
            self.faults = counted(self.faults);
        }
        listed
    }

    /// Begins the next life.
    fn begin_life(&mut self)
        ensures { self.new ≡ next_life self.old }
    {
        self.life = self.life.saturating_add(1);
        self.done = 0;
    }
}

/// A disk whose listed reads of 48 bytes fail.
#[derive(Drop)]
pub struct FailReads<D: Disk> {
    disk: D,
    faults: ReadFaults,
}

impl<D: Disk> FailReads<D> {
    ghost use Rattle.std.specs.Prelude.{ℕ};
    ghost use Rattle.disk_model.specs.Given.{IsGiven};
    ghost use Rattle.disk_model.specs.FailReads.{failing};

    /// A disk over this one: `(2, 5)` is the fifth read of 48 bytes that the disk answers Ok between the second and the
    /// third `arm`, and `(0, 1)` the first one of all.
    pub fn new(disk: D, items: Vec<(u16, u32)>) -> FailReads<D>
        ensures disk { result.disk ≡ disk }
        ensures faults { result.faults ≡ no_faults items }
        ensures given { (size : ℕ) → IsGiven size (D.state disk) → IsGiven size (failing (D.state result.disk) result.faults.faults) }
    {
        FailReads {
            disk,
            faults: ReadFaults::new(items),
        }
    }

    /// The disk inside.
    pub fn into_inner(self) -> D
        ensures { result ≡ self.disk }
    {
        self.disk
    }
}

impl<D: Disk> Disk for FailReads<D> {
    ghost use Rattle.std.specs.Prelude.{◌≤◌, ◌+◌, length, IsSome, IsTrue};
    ghost use Rattle.disk_model.specs.Disk.{Reads, Writes, Syncs, Arms, Restarts};
    ghost use Rattle.disk_model.specs.FailReads.{failing, failing_sound, IsFailed, IsPassedOn};

    ghost state = { λ over. failing (D.state over.disk) over.faults.faults };

    ghost sound = { λ over. failing_sound (D.state over.disk) over.faults.faults (D.sound over.disk) };

    fn read_at(&mut self, at: u64, buf: &mut [u8]) -> Result<(), DiskFault>
        ensures call { Reads at (length buf.old) (failing (D.state self.old.disk) self.old.faults.faults) (failing (D.state self.new.disk) self.new.faults.faults) buf.new result }
        ensures made { IsFailed at (length buf.old) (D.state self.old.disk) (D.state self.new.disk) self.old.faults self.new.faults buf.new result ⊎ IsPassedOn at (length buf.old) (D.state self.old.disk) (D.state self.new.disk) self.old.faults self.new.faults buf.new result }
    {
        match self.disk.read_at(at, buf) {
            Ok(()) => {
                if buf.len() == LONG_READ && self.faults.count_read() {
                    Err(DiskFault::Failed)
                } else {
                    Ok(())
                }
            }
            Err(fault) => Err(fault),
        }
    }

    fn write_at(&mut self, at: u64, bytes: &[u8]) -> Result<(), DiskFault>
        requires { at + length bytes.now ≤ (failing (D.state self.old.disk) self.old.faults.faults).meter.size }
        ensures call { Writes at bytes.now (failing (D.state self.old.disk) self.old.faults.faults) (failing (D.state self.new.disk) self.new.faults.faults) result }
        ensures inside { Writes at bytes.now (D.state self.old.disk) (D.state self.new.disk) result }
        ensures faults { self.new.faults ≡ self.old.faults }
    {
        self.disk.write_at(at, bytes)
    }

    fn sync(&mut self) -> Result<(), DiskFault>
        ensures call { Syncs (failing (D.state self.old.disk) self.old.faults.faults) (failing (D.state self.new.disk) self.new.faults.faults) result }
        ensures inside { Syncs (D.state self.old.disk) (D.state self.new.disk) result }
        ensures faults { self.new.faults ≡ self.old.faults }
    {
        self.disk.sync()
    }

    fn arm(&mut self, cut: Option<CutAt>)
        requires { IsSome cut → IsTrue (failing (D.state self.old.disk) self.old.faults.faults).meter.can_cut }
        ensures call { Arms cut (failing (D.state self.old.disk) self.old.faults.faults) (failing (D.state self.new.disk) self.new.faults.faults) }
        ensures inside { Arms cut (D.state self.old.disk) (D.state self.new.disk) }
        ensures faults { self.new.faults ≡ next_life self.old.faults }
    {
        self.disk.arm(cut);
        self.faults.begin_life();
    }

    fn restart(&mut self)
        ensures call { Restarts (failing (D.state self.old.disk) self.old.faults.faults) (failing (D.state self.new.disk) self.new.faults.faults) }
        ensures inside { Restarts (D.state self.old.disk) (D.state self.new.disk) }
        ensures faults { self.new.faults ≡ self.old.faults }
    {
        self.disk.restart();
    }

    fn can_cut(&self) -> bool {
        self.disk.can_cut()
    }
}
