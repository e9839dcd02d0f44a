// How often the jumps of a mission repeat, kept while it is read, so that a mark of it can be judged without reading its items
// again. At most as many are kept as a mission has jumps.
ghost use Rattle.std.specs.Prelude.{◌≡◌, List, None, true, nat_le};
ghost use Rattle.std.specs.List.{list_all};
ghost use Rattle.mission_model.specs.declared.plan.Item.{Item};
ghost use Rattle.mission_model.specs.Command.{jump_of};
ghost use Rattle.mission_model.specs.CountsList.{pairs_of};
ghost use Rattle.mission_model.specs.Pairs.{Takes, rises_from, used_of};
ghost use Rattle.recovery.specs.Faults.{counts_jump};
ghost use Rattle.recovery.specs.Found.{HasJumps, noted, with_repeats};

use mission_model::command::jump_of;
use mission_model::{Counts, Item};

/// Keeps how often the jump at a seq repeats, if the item there is one that does.
pub fn note(repeats: &mut Counts, seq: u16, item: &Item)
    ensures jump { Takes (pairs_of repeats.old) seq → pairs_of repeats.new ≡ noted (pairs_of repeats.old) seq (jump_of item.now) }
    ensures none { jump_of item.now ≡ None → pairs_of repeats.new ≡ pairs_of repeats.old }
{
    match jump_of(item) {
        Some(jump) => put(repeats, seq, jump.repeats),
        None => {}
    }
}

/// Keeps this number of repeats, if it is one, where there is room.
fn put(repeats: &mut Counts, seq: u16, number: u16)
    ensures { Takes (pairs_of repeats.old) seq → pairs_of repeats.new ≡ with_repeats (pairs_of repeats.old) seq number }
{
    if number == 0 {
        return;
    }
    if repeats.takes(seq) {
        repeats.put(seq, number);
    }
}

/// Whether each of these counts is of a jump that repeats at least so often.
pub fn allow(repeats: &Counts, counts: &Counts) -> bool
    ensures { (items : List Item) → HasJumps items repeats.now → result ≡ list_all (counts_jump items) (pairs_of counts.now) }
{
    are_within(repeats, counts)
}

/// Whether each of these counts is at most the number that is kept for its seq.
fn are_within(repeats: &Counts, counts: &Counts) -> bool
    ensures within { result ≡ list_all (λ pair. nat_le pair.1 (used_of (pairs_of repeats.now) pair.0)) (pairs_of counts.now) }
    ensures rise { rises_from 0 (pairs_of counts.now) ≡ true }
{
    for place in 0..counts.len() {
        let (seq, used) = counts.pair(place);
        if !is_within(repeats, seq, used) {
            return false;
        }
    }
    true
}

/// Whether this number is at most the one that is kept for a seq.
fn is_within(repeats: &Counts, seq: u16, used: u16) -> bool
    ensures { result ≡ nat_le used (used_of (pairs_of repeats.now) seq) }
{
    used <= repeats.used(seq)
}
