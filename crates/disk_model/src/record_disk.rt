//! A disk in memory that keeps its changing calls, and so tells each image since a moment. It cannot be cut.
ghost use Rattle.std.specs.Prelude.{◌≡◌, ◌≤◌, ◌<◌, ◌+◌, ◌*◌, ◌^◌, length, vec_len, vec_capacity};
ghost use Rattle.disk_model.specs.Entries.{changes_of, restart_room};
ghost use Rattle.disk_model.specs.History.{replay, zero_moment};

use crate::bytes::{copy_in, copy_out};
use crate::disk::{CutAt, Disk, DiskFault};
use crate::entry::{Entry, LONGEST_WRITE};
use crate::tally::Tally;
use std::alloc::{AllocError, Global};

/// A disk for tests, with room for so many writes and syncs.
#[derive(Drop)]
pub struct RecordDisk {
    bytes: Vec<u8>,
    entries: Vec<Entry>,
    /// How many changing calls are still kept.
    left: u32,
    tally: Tally,
    ghost agrees: { bytes.items ≡ (replay (zero_moment (length bytes.items)) (changes_of entries.items)).bytes },
    ghost small: { length bytes.items < 2 ^ 64 },
    ghost room: { vec_len entries + 2 * left + restart_room entries.items ≤ vec_capacity entries },
}

impl RecordDisk {
    ghost use Rattle.std.specs.Prelude.{IfOk, true, false};
    ghost use Rattle.disk_model.specs.Bytes.{IsZeros};
    ghost use Rattle.disk_model.specs.Disk.{Only, new_meter};
    ghost use Rattle.disk_model.specs.Entries.{ends_settled};
    ghost use Rattle.disk_model.specs.Record.{state_of};

    /// A disk of zeros that keeps so many writes and syncs, of at most 512 bytes each.
    pub fn new(alloc: Global, size: u64, calls: u32) -> Result<RecordDisk, AllocError>
        ensures tells { IfOk result (λ disk. (state_of disk).tells ≡ true) }
        ensures tells_since { IfOk result (λ disk. (state_of disk).tells_since ≡ true) }
        ensures zeros { IfOk result (λ disk. IsZeros (state_of disk).seen) }
        ensures only { IfOk result (λ disk. Only (state_of disk).seen (state_of disk).images) }
        ensures meter { IfOk result (λ disk. (state_of disk).meter ≡ new_meter size false) }
        ensures left { IfOk result (λ disk. disk.left ≡ calls) }
    {
        let bytes = vec![in alloc; 0; size as usize]?;
        let entries = Vec::with_capacity(alloc, 2 * calls as usize)?;
        Ok(RecordDisk {
            bytes,
            entries,
            left: calls,
            tally: Tally::new(),
        })
    }

    fn is_settled(&self) -> bool
        ensures { result ≡ ends_settled self.now.entries.items }
    {
        match self.entries.last() {
            Some(Entry::Write(_, _, _)) => false,
            Some(Entry::Settle) => true,
            None => true,
        }
    }
}

impl Disk for RecordDisk {
    ghost use Rattle.std.specs.Prelude.{IsErrOf, IsOk, is_ok, IsSome, IsTrue, ◌↔◌, ◌-◌, if◌then◌else◌};
    ghost use Rattle.disk_model.specs.declared.disk.DiskFault.TheVariants as fault;
    ghost use Rattle.disk_model.specs.Disk.{Still, Reads, Writes, Syncs, Arms, Restarts};
    ghost use Rattle.disk_model.specs.Record.{state_of, state_sound};

    ghost state = { state_of };

    ghost sound = { state_sound };

    fn read_at(&mut self, at: u64, buf: &mut [u8]) -> Result<(), DiskFault>
        ensures call { Reads at (length buf.old) (state_of self.old) (state_of self.new) buf.new result }
        ensures ok { IsOk result }
        ensures left { self.new.left ≡ self.old.left }
    {
        self.tally.count_read();
        copy_out(&self.bytes, at, buf);
        Ok(())
    }

    fn write_at(&mut self, at: u64, bytes: &[u8]) -> Result<(), DiskFault>
        requires { at + length bytes.now ≤ (state_of self.old).meter.size }
        ensures call { Writes at bytes.now (state_of self.old) (state_of self.new) result }
        ensures ok { IsOk result ↔ (0 < self.old.left) × (length bytes.now ≤ 512) }
        ensures failed { IsErrOf result fault.Failed → Still (state_of self.old) (state_of self.new) }
        ensures left { self.new.left ≡ (if is_ok result then self.old.left - 1 else self.old.left) }
    {
        self.tally.count_change();
        if self.left == 0 || bytes.len() > LONGEST_WRITE {
            self.tally.count_fault();
            return Err(DiskFault::Failed);
        }
        self.entries.push_reserved(Entry::write(at, bytes));
        copy_in(&mut self.bytes, at as usize, bytes, bytes.len());
        self.left -= 1;
        Ok(())
    }

    fn sync(&mut self) -> Result<(), DiskFault>
        ensures call { Syncs (state_of self.old) (state_of self.new) result }
        ensures ok { IsOk result ↔ (0 < self.old.left) }
        ensures left { self.new.left ≡ (if is_ok result then self.old.left - 1 else self.old.left) }
    {
        self.tally.count_change();
        if self.left == 0 {
            self.tally.count_fault();
            return Err(DiskFault::Failed);
        }
        self.entries.push_reserved(Entry::Settle);
        self.left -= 1;
        Ok(())
    }

    fn arm(&mut self, cut: Option<CutAt>)
        requires { IsSome cut → IsTrue (state_of self.old).meter.can_cut }
        ensures call { Arms cut (state_of self.old) (state_of self.new) }
        ensures left { self.new.left ≡ self.old.left }
    {
        match cut {
            Some(_) => unreachable!(),
            None => self.tally.number_anew(),
        }
    }

    fn restart(&mut self)
        ensures call { Restarts (state_of self.old) (state_of self.new) }
        ensures seen { (state_of self.new).seen ≡ (state_of self.old).seen }
        ensures left { self.new.left ≡ self.old.left }
    {
        if !self.is_settled() {
            self.entries.push_reserved(Entry::Settle);
        }
    }

    fn can_cut(&self) -> bool {
        false
    }
}
