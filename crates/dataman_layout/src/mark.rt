//! The record of a mark: 135 bytes in layout 2, and 71 in layout 1, which has room for half as many pairs.

ghost use Rattle.std.specs.Prelude.{◌≡◌, ◌+◌, ◌*◌, ◌≤◌, ◌<◌, ◌^◌, ◌++◌, ℕ, true, false, length, take, drop, get_or, Some, IfSome, IfNone};
ghost use Rattle.std.specs.List.{flat_map};
ghost use Rattle.mission_model.specs.CountsList.{pairs_of};
ghost use Rattle.mission_model.specs.Pairs.{rises_from};
ghost use Rattle.mission_model.specs.declared.limits.TheConstants.{MAX_JUMPS};
ghost use Rattle.dataman_layout.specs.declared.layout.Layout.TheVariants.{One, Two};
ghost use Rattle.dataman_layout.specs.Layouts.{most_pairs};
ghost use Rattle.dataman_layout.specs.Mark.{PlainMark, MarkRecord, mark_bytes, mark_in, pair_bytes, pairs_in, plain_mark, plain_marks};

use crate::fields::{is_zeros_from, put_u8, put_u16, put_u32, u8_at, u16_at, u32_at};
use crate::layout::{ONE, TWO};
use mission_model::{Counts, Mark};

// Where the fields of a mark begin.

const ID: usize = 0;

const INDEX: usize = 4;

const NUMBER: usize = 6;

const PAIRS: usize = 7;

/// Bytes of a pair: two of its seq, and two of its used number.
const PAIR_BYTES: usize = 4;

/// Where the used number begins in a pair.
const USED: usize = 2;

/// The used number of a jump that has no pair.
const NOT_USED: u16 = 0;

/// The bytes of a mark in layout 2. Those of layout 1 are the first 71 of them, where it has at most 16 pairs.
pub fn encode_mark(mark: &Mark) -> [u8; 135]
    ensures bytes { result ≡ mark_bytes (most_pairs Two) (plain_mark mark.now) }
    ensures read { mark_in (most_pairs Two) result ≡ Some (plain_mark mark.now) }
{
    let mut bytes = [0; 135];
    let number = mark.counts.len();
    put_u32(&mut bytes, ID, mark.id);
    put_u16(&mut bytes, INDEX, mark.index);
    put_u8(&mut bytes, NUMBER, number);
    put_pairs(&mut bytes, &mark.counts, number);
    bytes
}

/// Puts the pairs of counts of this number.
fn put_pairs(bytes: &mut [u8], counts: &Counts, number: u8)
    requires size { length bytes.old ≡ 135 }
    requires number { number ≡ length (pairs_of counts.now) }
    requires few { number ≤ MAX_JUMPS }
    ensures front { take (7 + 4 * number) bytes.new ≡ take 7 bytes.old ++ flat_map pair_bytes (pairs_of counts.now) }
    ensures rest { (k : ℕ) → 7 + 4 * number ≤ k → drop k bytes.new ≡ drop k bytes.old }
    ensures fit { (k : ℕ) → ((get_or (pairs_of counts.now) k (0, 0)).0 < 2 ^ 16) × ((get_or (pairs_of counts.now) k (0, 0)).1 < 2 ^ 16) }
{
    for place in 0..number {
        let (seq, used) = counts.pair(place);
        let at = PAIRS + PAIR_BYTES * usize::from(place);
        put_u16(bytes, at, seq);
        put_u16(bytes, at + USED, used);
    }
}

/// The mark that these bytes are, if they are one's in layout 2.
pub fn decode_mark(bytes: &[u8; 135]) -> Option<Mark>
    ensures read { plain_marks result ≡ mark_in (most_pairs Two) bytes.now }
    ensures found { IfSome result (λ mark. MarkRecord (most_pairs Two) bytes.now (plain_mark mark)) }
    ensures bytes { IfSome result (λ mark. bytes.now ≡ mark_bytes (most_pairs Two) (plain_mark mark)) }
    ensures none { IfNone result ((mark : PlainMark) → MarkRecord (most_pairs Two) bytes.now mark → ⊥) }
{
    mark_of(TWO.pairs, bytes)
}

/// The mark that these bytes are, if they are one's in layout 1.
pub fn decode_mark_one(bytes: &[u8; 71]) -> Option<Mark>
    ensures read { plain_marks result ≡ mark_in (most_pairs One) bytes.now }
    ensures found { IfSome result (λ mark. MarkRecord (most_pairs One) bytes.now (plain_mark mark)) }
    ensures bytes { IfSome result (λ mark. bytes.now ≡ mark_bytes (most_pairs One) (plain_mark mark)) }
    ensures none { IfNone result ((mark : PlainMark) → MarkRecord (most_pairs One) bytes.now mark → ⊥) }
{
    mark_of(ONE.pairs, bytes)
}

/// The mark of these bytes, which may have so many pairs, if they are one's.
fn mark_of(most: u8, bytes: &[u8]) -> Option<Mark>
    requires most { most ≤ MAX_JUMPS }
    requires size { length bytes.now ≡ 7 + 4 * most }
    ensures read { plain_marks result ≡ mark_in most bytes.now }
    ensures found { IfSome result (λ mark. MarkRecord most bytes.now (plain_mark mark)) }
    ensures none { IfNone result ((mark : PlainMark) → MarkRecord most bytes.now mark → ⊥) }
{
    fields_of(most, bytes)
}

/// The same, read field by field.
#[tactic(auto, unfolding(crate::specs::Mark::mark_in))]
fn fields_of(most: u8, bytes: &[u8]) -> Option<Mark>
    requires most { most ≤ MAX_JUMPS }
    requires size { length bytes.now ≡ 7 + 4 * most }
    ensures { plain_marks result ≡ mark_in most bytes.now }
{
    let number = u8_at(bytes, NUMBER);
    if number > most {
        return None;
    }
    let counts = counts_of(bytes, number)?;
    if !is_zeros_from(bytes, PAIRS + PAIR_BYTES * usize::from(number)) {
        return None;
    }
    Some(Mark {
        id: u32_at(bytes, ID),
        index: u16_at(bytes, INDEX),
        counts,
    })
}

/// The counts of this number of pairs, if the pairs rise and each is used.
fn counts_of(bytes: &[u8], number: u8) -> Option<Counts>
    requires size { 7 + 4 * number ≤ length bytes.now }
    requires few { number ≤ MAX_JUMPS }
    ensures rise { IfSome result (λ counts. rises_from 0 (pairs_in bytes.now number) ≡ true) }
    ensures pairs { IfSome result (λ counts. pairs_of counts ≡ pairs_in bytes.now number) }
    ensures none { IfNone result (rises_from 0 (pairs_in bytes.now number) ≡ false) }
{
    let mut counts = Counts::new();
    let mut least = 0u32;
    for place in 0..number {
        let at = PAIRS + PAIR_BYTES * usize::from(place);
        let seq = u16_at(bytes, at);
        let used = u16_at(bytes, at + USED);
        if u32::from(seq) < least || used == NOT_USED {
            return None;
        }
        counts.put(seq, used);
        least = u32::from(seq) + 1;
    }
    Some(counts)
}
