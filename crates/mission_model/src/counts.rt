//! How often each jump of a mission was taken, and the mark that is kept over a restart.

ghost use Rattle.mission_model.specs.Pairs.{is_kept, has_pair, used_of, with_pair, pair_place, is_at};
ghost use Rattle.std.specs.Prelude.{◌≡◌, true, ◌<◌, ◌≤◌, ◌⊎◌, ◌∷◌, ◌++◌, ◌+◌, length, take, drop, false, IfOk, IfErr, IsTrue, ◌↔◌};

use crate::limits::MAX_JUMPS;

/// The jumps that were taken: at most 32 pairs of a DO_JUMP's seq and the number of its repeats that are used.
/// The seqs rise and each used number is at least 1; the cells behind the pairs are zero.
#[derive(Clone, Copy, Debug, PartialEq, Eq)]
pub struct Counts {
    len: u8,
    pairs: [(u16, u16); MAX_JUMPS],
    pub ghost kept: { is_kept len pairs ≡ true },
}

impl Counts {
    ghost use Rattle.mission_model.specs.CountsList.{pairs_of};
    ghost use Rattle.mission_model.specs.Pairs.{Takes, rises_from};
    ghost use Rattle.std.specs.Prelude.{[], Some, slice_get};

    /// No jump was taken.
    pub fn new() -> Counts
        ensures { pairs_of result ≡ [] }
    {
        Counts {
            len: 0,
            pairs: [(0, 0); MAX_JUMPS],
        }
    }

    /// The number of pairs.
    pub fn len(&self) -> u8
        ensures pairs { result ≡ length (pairs_of self.now) }
        ensures limit { result ≤ MAX_JUMPS }
        ensures rises { rises_from 0 (pairs_of self.now) ≡ true }
    {
        self.len
    }

    /// How many pairs can be kept.
    pub fn capacity(&self) -> usize
        ensures most { result ≡ MAX_JUMPS }
        ensures cells { length self.now.pairs ≡ MAX_JUMPS }
    {
        self.pairs.len()
    }

    /// Whether these are the same counts. Only the cells that hold pairs are compared.
    pub fn is_same(&self, other: &Counts) -> bool
        ensures { IsTrue result ↔ (self.now ≡ other.now) }
    {
        self.len == other.len && is_same_cells(&self.pairs, &other.pairs, self.len as usize)
    }

    /// The pair at a place, from 0.
    pub fn pair(&self, place: u8) -> (u16, u16)
        requires { place < length (pairs_of self.now) }
        ensures { slice_get (pairs_of self.now) place ≡ Some result }
    {
        self.pairs[place as usize]
    }

    /// How often the jump at a seq was taken; 0 without a pair.
    pub fn used(&self, seq: u16) -> u16
        ensures { result ≡ used_of (pairs_of self.now) seq }
    {
        used_in(&self.pairs[..self.len as usize], seq)
    }

    /// Whether `put` may set the used number of a seq: it has a pair, or fewer than 32 pairs are there.
    pub fn takes(&self, seq: u16) -> bool
        ensures { IsTrue result ↔ Takes (pairs_of self.now) seq }
    {
        (self.len as usize) < MAX_JUMPS || has_pair_in(&self.pairs[..self.len as usize], seq)
    }

    /// Sets the used number of a seq, and leaves the other pairs.
    pub fn put(&mut self, seq: u16, used: u16)
        requires used { 1 ≤ used }
        requires room { Takes (pairs_of self.old) seq }
        ensures { pairs_of self.new ≡ with_pair (pairs_of self.old) seq used }
    {
        let mut pairs = self.pairs;
        let len = put_in(&mut pairs, self.len as usize, seq, used);
        *self = Counts {
            len: len as u8,
            pairs,
        };
    }
}

/// Whether two lists of cells that hold so many pairs are the same. The cells behind the pairs are empty in both.
fn is_same_cells(left: &[(u16, u16)], right: &[(u16, u16)], len: usize) -> bool
    requires length { length left.now ≡ length right.now }
    requires within { len ≤ length left.now }
    requires left { is_kept len left.now ≡ true }
    requires right { is_kept len right.now ≡ true }
    ensures { IsTrue result ↔ (left.now ≡ right.now) }
{
    is_same_pairs(left, right, len)
}

/// Whether the first cells of two lists are the same.
fn is_same_pairs(left: &[(u16, u16)], right: &[(u16, u16)], len: usize) -> bool
    requires left { len ≤ length left.now }
    requires right { len ≤ length right.now }
    ensures { IsTrue result ↔ (take len left.now ≡ take len right.now) }
{
    for k in 0..len {
        if left[k].0 != right[k].0 || left[k].1 != right[k].1 {
            return false;
        }
    }
    true
}

/// Puts a pair among the first `len` cells, and tells how many cells are pairs then.
#[tactic(auto, using(crate::proofs::Places::places))]
fn put_in(cells: &mut [(u16, u16)], len: usize, seq: u16, used: u16) -> usize
    requires within { len ≤ length cells.old }
    requires room { (is_at (take len cells.old) (pair_place (take len cells.old) seq) seq ≡ true) ⊎ (len < length cells.old) }
    ensures kept { length cells.new ≡ length cells.old }
    ensures within { result ≤ length cells.new }
    ensures pairs { take result cells.new ≡ with_pair (take len cells.old) seq used }
    ensures rest { drop result cells.new ≡ drop result cells.old }
    ensures grows { len ≤ result }
{
    match place_in(&cells[..len], seq) {
        Ok(at) => {
            cells[at] = (seq, used);
            len
        }
        Err(at) => {
            insert_at(cells, len, at, (seq, used));
            len + 1
        }
    }
}

/// Moves the pairs from a place on one cell on, and puts a pair at the place.
fn insert_at(cells: &mut [(u16, u16)], len: usize, at: usize, pair: (u16, u16))
    requires place { at ≤ len }
    requires room { len < length cells.old }
    ensures kept { length cells.new ≡ length cells.old }
    ensures pairs { take (len + 1) cells.new ≡ take at (take len cells.old) ++ pair ∷ drop at (take len cells.old) }
    ensures rest { drop (len + 1) cells.new ≡ drop (len + 1) cells.old }
{
    let moved = &mut cells[at..len + 1];
    moved.rotate_right(1);
    moved[0] = pair;
}

/// The place of a seq among pairs, which is the number of first pairs of lesser seqs: `Ok` where its pair
/// stands there, `Err` where it has none there.
fn place_in(pairs: &[(u16, u16)], seq: u16) -> Result<usize, usize>
    ensures found { IfOk result (λ at. (at ≡ pair_place pairs.now seq) × (at < length pairs.now) × (is_at pairs.now at seq ≡ true)) }
    ensures missing { IfErr result (λ at. (at ≡ pair_place pairs.now seq) × (at ≤ length pairs.now) × (is_at pairs.now at seq ≡ false)) }
{
    let mut at = 0;
    for pair in pairs {
        if pair.0 == seq {
            return Ok(at);
        }
        if pair.0 > seq {
            return Err(at);
        }
        at += 1;
    }
    Err(at)
}

/// Whether a seq has a pair.
fn has_pair_in(pairs: &[(u16, u16)], seq: u16) -> bool
    ensures { result ≡ has_pair pairs.now seq }
{
    for pair in pairs {
        if pair.0 == seq {
            return true;
        }
    }
    false
}

/// The used number of a jump without a pair.
const NOT_TAKEN: u16 = 0;

/// The used number of a seq among pairs.
fn used_in(pairs: &[(u16, u16)], seq: u16) -> u16
    ensures { result ≡ used_of pairs.now seq }
{
    for pair in pairs {
        if pair.0 == seq {
            return pair.1;
        }
    }
    NOT_TAKEN
}

/// The place in a mission that a restart resumes: the mission's id, the index and the counts of its jumps.
#[derive(Clone, Copy, Debug, PartialEq, Eq)]
pub struct Mark {
    pub id: u32,
    pub index: u16,
    pub counts: Counts,
}

#[cfg(test)]
mod tests {
    use super::*;

    #[test]
    fn counts_keep_their_pairs_in_order(rt: HostRuntime) {
        let mut counts = Counts::new();
        assert_eq!(rt; counts.len(), 0);
        assert_eq!(rt; counts.used(7), 0);
        // The seqs 0, 7, 14, .. 217 in a mixed order fill the thirty-two places.
        for k in 0..32 {
            let seq = k * 5 % 32 * 7;
            if counts.takes(seq) {
                counts.put(seq, k + 1);
            }
        }
        assert_eq!(rt; counts.len(), 32);
        let rows = [
            (0, 0, 1),
            (1, 7, 14),
            (2, 14, 27),
            (3, 21, 8),
            (5, 35, 2),
            (31, 217, 20),
        ];
        for (place, seq, used) in rows {
            if place < counts.len() {
                assert_eq!(rt; counts.pair(place), (seq, used), "at {place}");
            }
            assert_eq!(rt; counts.used(seq), used, "of {seq}");
        }
    }

    #[test]
    fn thirty_two_pairs_take_no_other_seq(rt: HostRuntime) {
        let mut counts = Counts::new();
        for seq in 0..31 {
            if counts.takes(seq) {
                counts.put(seq, 1);
            }
        }
        assert_eq!(rt; counts.len(), 31);
        assert!(rt; counts.takes(1999));
        if counts.takes(1999) {
            counts.put(1999, 7);
        }
        assert_eq!(rt; counts.len(), 32);
        assert!(rt; !counts.takes(31));
        assert!(rt; counts.takes(30));
        assert!(rt; counts.takes(1999));
        let full = counts;
        if counts.takes(0) {
            counts.put(0, 2);
        }
        assert_eq!(rt; counts.len(), 32);
        assert_eq!(rt; counts.used(1999), 7);
        assert!(rt; !counts.is_same(&full));
    }
}
