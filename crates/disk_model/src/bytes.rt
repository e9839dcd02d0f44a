//! Ranges of bytes and of marks, copied and filled as whole slices, and what a cut tears.
ghost use Rattle.std.specs.Prelude.{◌≡◌, ◌⊎◌, ◌+◌, ◌≤◌, ◌<◌, ℕ, length, true, false, get_or};
ghost use Rattle.disk_model.specs.Bytes.{Outside, Torn};
ghost use Rattle.disk_model.specs.Tears.{applied, torn_or_read};
ghost use Rattle.disk_model.specs.declared.disk.Tear.TheVariants.{New};

use crate::disk::Tear;
use crate::spans::Span;

/// How many of the n bytes of a write that is cut are applied.
pub fn applied(tear: Tear, n: usize) -> usize
    ensures applied { result ≡ applied tear n }
    ensures front { result ≤ n }
{
    match tear {
        Tear::Front(front) => n.min(front as usize),
        Tear::Old | Tear::New | Tear::Fill(_) => n,
    }
}

/// The bytes from a place on, and 0 past the end.
pub fn copy_out(all: &[u8], at: u64, buf: &mut [u8])
    ensures { (k : ℕ) → k < length buf.new → get_or buf.new k 0 ≡ get_or all.now (at + k) 0 }
{
    if at >= all.len() as u64 {
        buf.fill(0);
        return;
    }
    let there = &all[at as usize..];
    if buf.len() <= there.len() {
        buf.copy_from_slice(&there[..buf.len()]);
    } else {
        buf.fill(0);
        buf[..there.len()].copy_from_slice(there);
    }
}

/// Marks n places as pending.
pub fn mark(pending: &mut Vec<bool>, at: usize, n: usize)
    requires { at + n ≤ length pending.old.items }
    ensures size { length pending.new.items ≡ length pending.old.items }
    ensures marked { (k : ℕ) → at ≤ k → k < at + n → get_or pending.new.items k false ≡ true }
    ensures unmarked { (k : ℕ) → Outside at n k → get_or pending.new.items k false ≡ get_or pending.old.items k false }
{
    pending[at..at + n].fill(true);
}

/// Marks the places of a range as not pending.
pub fn unmark(pending: &mut Vec<bool>, span: Span)
    requires { span.to ≤ length pending.old.items }
    ensures size { length pending.new.items ≡ length pending.old.items }
    ensures dry { (k : ℕ) → span.from ≤ k → k < span.to → get_or pending.new.items k false ≡ false }
    ensures others { (k : ℕ) → (k < span.from) ⊎ (span.to ≤ k) → get_or pending.new.items k false ≡ get_or pending.old.items k false }
{
    if span.from < span.to {
        pending[span.from..span.to].fill(false);
    }
}

/// Writes the first n of these bytes.
pub fn copy_in(all: &mut Vec<u8>, at: usize, bytes: &[u8], n: usize)
    requires room { at + n ≤ length all.old.items }
    requires front { n ≤ length bytes.now }
    ensures others { Torn at n all.old.items all.new.items }
    ensures here { (k : ℕ) → k < n → get_or all.new.items (at + k) 0 ≡ get_or bytes.now k 0 }
{
    all[at..at + n].copy_from_slice(&bytes[..n]);
}

/// Takes the bytes of a range from another list of the same size.
pub fn copy_range(all: &mut Vec<u8>, from: &[u8], span: Span)
    requires room { span.to ≤ length all.old.items }
    requires same { length from.now ≡ length all.old.items }
    ensures size { length all.new.items ≡ length all.old.items }
    ensures here { (k : ℕ) → span.from ≤ k → k < span.to → get_or all.new.items k 0 ≡ get_or from.now k 0 }
    ensures others { (k : ℕ) → (k < span.from) ⊎ (span.to ≤ k) → get_or all.new.items k 0 ≡ get_or all.old.items k 0 }
{
    if span.from < span.to {
        all[span.from..span.to].copy_from_slice(&from[span.from..span.to]);
    }
}

/// Gives the pending bytes of a range this value.
fn fill_pending(all: &mut Vec<u8>, pending: &[bool], span: Span, byte: u8)
    requires room { span.to ≤ length all.old.items }
    requires same { length pending.now ≡ length all.old.items }
    ensures size { length all.new.items ≡ length all.old.items }
    ensures here { (k : ℕ) → span.from ≤ k → k < span.to → get_or pending.now k false ≡ true → get_or all.new.items k 0 ≡ byte }
    ensures dry { (k : ℕ) → get_or pending.now k false ≡ false → get_or all.new.items k 0 ≡ get_or all.old.items k 0 }
    ensures others { (k : ℕ) → (k < span.from) ⊎ (span.to ≤ k) → get_or all.new.items k 0 ≡ get_or all.old.items k 0 }
{
    for i in span.from..span.to {
        if pending[i] {
            all[i] = byte;
        }
    }
}

/// Tears what is pending in a range. Elsewhere what was synced is what is read.
pub fn tear_range(all: &mut Vec<u8>, synced: &[u8], pending: &[bool], span: Span, tear: Tear)
    requires room { span.to ≤ length all.old.items }
    requires synced { length synced.now ≡ length all.old.items }
    requires pending { length pending.now ≡ length all.old.items }
    requires kept { (k : ℕ) → get_or pending.now k false ≡ false → get_or synced.now k 0 ≡ get_or all.old.items k 0 }
    ensures size { length all.new.items ≡ length all.old.items }
    ensures here { (k : ℕ) → span.from ≤ k → k < span.to → get_or all.new.items k 0 ≡ torn_or_read tear (get_or pending.now k false) (get_or synced.now k 0) (get_or all.old.items k 0) }
    ensures others { (k : ℕ) → (k < span.from) ⊎ (span.to ≤ k) → get_or all.new.items k 0 ≡ get_or all.old.items k 0 }
    ensures same { tear ≡ New → all.new ≡ all.old }
{
    match tear {
        Tear::Old => copy_range(all, synced, span),
        Tear::New | Tear::Front(_) => {}
        Tear::Fill(byte) => fill_pending(all, pending, span, byte),
    }
}
