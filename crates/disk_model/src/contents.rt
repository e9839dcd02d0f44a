//! The bytes of a disk in memory, three for each of the disk: what a read gives, what was synced last, and whether the
//! byte was written since. A few ranges cover each byte that was, so that what follows a write costs what was written.
ghost use Rattle.std.specs.Prelude.{◌≡◌, ◌⊎◌, ◌+◌, ◌≤◌, ◌<◌, ◌^◌, ℕ, length, get_or, false, IfOk};
ghost use Rattle.disk_model.specs.Bytes.{IsZeros};
ghost use Rattle.disk_model.specs.Tears.{TornBy};
ghost use Rattle.disk_model.specs.Spans.{OutOf, EndBy};

use crate::bytes::{copy_in, copy_out, copy_range, mark, tear_range, unmark};
use crate::disk::Tear;
use crate::spans::{NO_PLACE, SPANS, Span, cover};
use std::alloc::{AllocError, Global};

#[derive(Drop)]
pub struct Contents {
    pub bytes: Vec<u8>,
    pub synced: Vec<u8>,
    pub pending: Vec<bool>,
    pub written: [Span; SPANS],
    ghost synced_size: { length synced.items ≡ length bytes.items },
    ghost pending_size: { length pending.items ≡ length bytes.items },
    ghost small: { length bytes.items < 2 ^ 64 },
    ghost places: { length written ≡ 4 },
    ghost end: { EndBy (length bytes.items) written },
    ghost dry: { (k : ℕ) → OutOf written k → get_or pending.items k false ≡ false },
    ghost kept: { (k : ℕ) → get_or pending.items k false ≡ false → get_or synced.items k 0 ≡ get_or bytes.items k 0 },
}

impl Contents {
    ghost use Rattle.std.specs.Prelude.{set};
    ghost use Rattle.disk_model.specs.declared.disk.Tear.TheVariants.{New};
    ghost use Rattle.disk_model.specs.Contents.{Puts, IsSettled, left_at};

    /// Zeros, with nothing pending.
    pub fn new(alloc: Global, size: u64) -> Result<Contents, AllocError>
        ensures size { IfOk result (λ c. length c.bytes.items ≡ size) }
        ensures zeros { IfOk result (λ c. IsZeros c.bytes.items) }
        ensures settled { IfOk result IsSettled }
    {
        let bytes = vec![in alloc; 0; size as usize]?;
        let synced = vec![in alloc; 0; size as usize]?;
        let pending = vec![in alloc; false; size as usize]?;
        Ok(Contents {
            bytes,
            synced,
            pending,
            written: [NO_PLACE; SPANS],
        })
    }

    /// How many bytes a read finds.
    pub fn size(&self) -> u64
        ensures { result ≡ length self.now.bytes.items }
    {
        self.bytes.len() as u64
    }

    /// Fills `buf` from a place on, with zeros past the end.
    pub fn get(&self, at: u64, buf: &mut [u8])
        ensures { (k : ℕ) → k < length buf.new → get_or buf.new k 0 ≡ get_or self.now.bytes.items (at + k) 0 }
    {
        copy_out(&self.bytes, at, buf);
    }

    /// Writes the first n of these bytes, and marks the places of all as pending.
    pub fn put(&mut self, at: u64, bytes: &[u8], n: usize)
        requires room { at + length bytes.now ≤ length self.old.bytes.items }
        requires front { n ≤ length bytes.now }
        ensures { Puts at n bytes.now self.old self.new }
    {
        let from = at as usize;
        copy_in(&mut self.bytes, from, bytes, n);
        mark(&mut self.pending, from, bytes.len());
        let to = from + bytes.len();
        cover(&mut self.written, Span { from, to });
    }

    /// Tears what is pending in one of the ranges, and settles it there.
    fn retire(&mut self, i: usize, tear: Tear)
        requires { i < 4 }
        ensures size { length self.new.bytes.items ≡ length self.old.bytes.items }
        ensures left { (k : ℕ) → left_at tear self.new k ≡ left_at tear self.old k }
        ensures written { self.new.written ≡ set self.old.written i (record { from = 0; to = 0 }) }
        ensures same { tear ≡ New → self.new.bytes ≡ self.old.bytes }
    {
        let span = self.written[i];
        tear_range(&mut self.bytes, &self.synced, &self.pending, span, tear);
        copy_range(&mut self.synced, &self.bytes, span);
        unmark(&mut self.pending, span);
        self.written[i] = NO_PLACE;
    }

    /// Tears what is pending, and settles what is left.
    pub fn tear(&mut self, tear: Tear)
        ensures torn { TornBy tear self.old.synced.items self.old.pending.items self.old.bytes.items self.new.bytes.items }
        ensures settled { IsSettled self.new }
        ensures same { tear ≡ New → self.new.bytes ≡ self.old.bytes }
    {
        for i in 0..SPANS {
            self.retire(i, tear);
        }
    }

    /// Makes what is read what was synced last.
    pub fn settle(&mut self)
        ensures settled { IsSettled self.new }
        ensures bytes { self.new.bytes ≡ self.old.bytes }
    {
        self.tear(Tear::New);
    }
}
