//! Counts and marks at the front of bytes.

ghost use Rattle.std.specs.Prelude.{◌≡◌, length};
ghost use Rattle.mission_model.specs.declared.limits.TheConstants.{MAX_JUMPS};
ghost use Rattle.record_text.specs.PlanReading.{pairs_at};
ghost use Rattle.record_text.specs.CountsReading.{counts_of, index_at, mark_at};

use crate::cursor::{number_u16, number_u32, skip};
use crate::plan_cursor::read_pairs;
use mission_model::{Counts, Mark};

/// The same counts, of which it is known how many cells they have.
fn with_cells(counts: Counts) -> Counts
    ensures same { result ≡ counts }
    ensures cells { length result.pairs ≡ MAX_JUMPS }
{
    let _cells = counts.capacity();
    counts
}

/// Counts of the pairs at the front.
fn read_counts(bytes: &[u8]) -> (Counts, &[u8])
    ensures value { result.0 ≡ counts_of (pairs_at bytes.now).0 }
    ensures rest { result.1.now ≡ (pairs_at bytes.now).1 }
{
    let (counts, rest) = read_pairs(bytes);
    (with_cells(counts), rest)
}

/// The index and the pairs of a mark on this mission.
#[tactic(auto, unfolding(crate::specs::CountsReading::index_at))]
pub(crate) fn read_index(id: u32, bytes: &[u8]) -> (Mark, &[u8])
    ensures value { result.0 ≡ (index_at id bytes.now).0 }
    ensures rest { result.1.now ≡ (index_at id bytes.now).1 }
{
    let (index, rest) = number_u16(bytes);
    let (counts, rest) = read_counts(rest);
    (Mark { id, index, counts }, rest)
}

/// A mark.
#[tactic(auto, unfolding(crate::specs::CountsReading::mark_at))]
pub(crate) fn read_mark(bytes: &[u8]) -> (Mark, &[u8])
    ensures value { result.0 ≡ (mark_at bytes.now).0 }
    ensures rest { result.1.now ≡ (mark_at bytes.now).1 }
{
    let (id, rest) = number_u32(bytes);
    read_index(id, skip(rest, 1))
}
