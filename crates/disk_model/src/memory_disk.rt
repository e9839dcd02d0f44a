//! A disk in memory that can be cut and made to fail, and takes all its memory when it is made.
//! It tells what a read gives and the images of now; a list of the images since would grow.
ghost use Rattle.std.specs.Prelude.{◌≡◌};

use crate::bytes::applied;
use crate::contents::Contents;
use crate::disk::{CutAt, Disk, DiskFault};
use crate::power::{Power, Step};
use std::alloc::{AllocError, Global};

/// A disk in memory. It keeps three bytes for each of its own.
#[derive(Drop)]
pub struct MemoryDisk {
    contents: Contents,
    power: Power,
}

impl MemoryDisk {
    ghost use Rattle.std.specs.Prelude.{IfOk, true};
    ghost use Rattle.disk_model.specs.Disk.{Only, new_meter};
    ghost use Rattle.disk_model.specs.Bytes.{IsZeros};
    ghost use Rattle.disk_model.specs.Power.{new_power, renewed};
    ghost use Rattle.disk_model.specs.Contents.{IsSettled};
    ghost use Rattle.disk_model.specs.Memory.{state_of};

    /// A disk of zeros on which these calls fail: `(2, 5)` is the fifth write or sync between the
    /// second and the third `arm`, and `(0, 1)` the first one of all.
    pub fn new(alloc: Global, size: u64, fails: Vec<(u16, u32)>) -> Result<MemoryDisk, AllocError>
        ensures tells { IfOk result (λ disk. (state_of disk).tells ≡ true) }
        ensures zeros { IfOk result (λ disk. IsZeros (state_of disk).seen) }
        ensures only { IfOk result (λ disk. Only (state_of disk).seen (state_of disk).images) }
        ensures settled { IfOk result (λ disk. IsSettled disk.contents) }
        ensures meter { IfOk result (λ disk. (state_of disk).meter ≡ new_meter size true) }
        ensures power { IfOk result (λ disk. disk.power ≡ new_power fails) }
    {
        let contents = Contents::new(alloc, size)?;
        Ok(MemoryDisk {
            contents,
            power: Power::new(fails),
        })
    }

    /// How many bytes it has.
    pub fn size(&self) -> u64
        ensures { result ≡ (state_of self.now).meter.size }
    {
        self.contents.size()
    }

    /// Lists the calls that fail.
    pub(crate) fn fail_at(&mut self, fails: Vec<(u16, u32)>)
        ensures contents { self.new.contents ≡ self.old.contents }
        ensures power { self.new.power ≡ record self.old.power { fails = fails } }
    {
        self.power.fails = fails;
    }

    /// Turns the power on over what a read gives, with no cut armed, and begins its counts anew.
    pub(crate) fn renew(&mut self)
        ensures settled { IsSettled self.new.contents }
        ensures bytes { self.new.contents.bytes ≡ self.old.contents.bytes }
        ensures power { self.new.power ≡ renewed self.old.power }
    {
        self.contents.settle();
        self.power.renew();
    }
}

impl Disk for MemoryDisk {
    ghost use Rattle.std.specs.Prelude.{◌≡◌, ◌≤◌, ◌+◌, length, true};
    ghost use Rattle.disk_model.specs.Disk.{Reads, Writes, Syncs, Arms, Restarts};
    ghost use Rattle.disk_model.specs.Power.{answer_of, change_step, read_step, after_change, after_read, armed_anew};
    ghost use Rattle.disk_model.specs.declared.disk.Tear.TheVariants as tear;
    ghost use Rattle.disk_model.specs.Memory.{state_of, state_sound, WritesTo, SyncsTo, TearsTo};

    ghost state = { state_of };

    ghost sound = { state_sound };

    fn read_at(&mut self, at: u64, buf: &mut [u8]) -> Result<(), DiskFault>
        ensures call { Reads at (length buf.old) (state_of self.old) (state_of self.new) buf.new result }
        ensures answer { result ≡ answer_of (read_step self.old.power) }
        ensures power { self.new.power ≡ after_read self.old.power }
        ensures contents { self.new.contents ≡ self.old.contents }
    {
        match self.power.begin_read() {
            Step::Goes => {
                self.contents.get(at, buf);
                Ok(())
            }
            Step::Fails => Err(DiskFault::Failed),
            Step::IsOff | Step::IsCut(_) => Err(DiskFault::Cut),
        }
    }

    fn write_at(&mut self, at: u64, bytes: &[u8]) -> Result<(), DiskFault>
        requires { at + length bytes.now ≤ (state_of self.old).meter.size }
        ensures call { Writes at bytes.now (state_of self.old) (state_of self.new) result }
        ensures answer { result ≡ answer_of (change_step self.old.power) }
        ensures power { self.new.power ≡ after_change self.old.power }
        ensures contents { WritesTo (change_step self.old.power) at bytes.now self.old.contents self.new.contents }
    {
        match self.power.begin_change() {
            Step::Goes => {
                self.contents.put(at, bytes, bytes.len());
                Ok(())
            }
            Step::Fails => {
                // No byte becomes pending.
                Err(DiskFault::Failed)
            }
            Step::IsOff => Err(DiskFault::Cut),
            Step::IsCut(tear) => {
                self.contents.put(at, bytes, applied(tear, bytes.len()));
                Err(DiskFault::Cut)
            }
        }
    }

    fn sync(&mut self) -> Result<(), DiskFault>
        ensures call { Syncs (state_of self.old) (state_of self.new) result }
        ensures answer { result ≡ answer_of (change_step self.old.power) }
        ensures power { self.new.power ≡ after_change self.old.power }
        ensures contents { SyncsTo (change_step self.old.power) self.old.contents self.new.contents }
    {
        match self.power.begin_change() {
            Step::Goes => {
                self.contents.settle();
                Ok(())
            }
            Step::Fails => Err(DiskFault::Failed),
            Step::IsOff | Step::IsCut(_) => Err(DiskFault::Cut),
        }
    }

    fn arm(&mut self, cut: Option<CutAt>)
        ensures call { Arms cut (state_of self.old) (state_of self.new) }
        ensures power { self.new.power ≡ armed_anew cut self.old.power }
        ensures contents { self.new.contents ≡ self.old.contents }
    {
        self.power.arm(cut);
    }

    fn restart(&mut self)
        ensures call { Restarts (state_of self.old) (state_of self.new) }
        ensures power { self.new.power ≡ record self.old.power { on = true; torn = tear.New } }
        ensures contents { TearsTo self.old.power.torn self.old.contents self.new.contents }
    {
        self.contents.tear(self.power.torn);
        self.power.restart();
    }

    fn can_cut(&self) -> bool {
        true
    }
}
