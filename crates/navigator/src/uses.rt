//! How often jumps were used, as the boot's mark and as the counts say, and which items go with that.

ghost use Rattle.std.specs.Prelude.{◌≡◌};
ghost use Rattle.mission_model.specs.Command.{jump_of};
ghost use Rattle.mission_model.specs.CountsList.{pairs_of};
ghost use Rattle.navigator.specs.Uses.{goes_with, allows_used, leaves_room};
ghost use Rattle.navigator.specs.Judging.{no_uses};
ghost use Rattle.navigator.specs.OnMission.{can_stand, leads_off};

use mission_model::command::jump_of;
use mission_model::limits::MAX_JUMPS;
use mission_model::{Counts, Item, PlanType, check_item};
use std::marker::Model;

/// The uses of jumps that a mission's items are to go with.
#[derive(Drop)]
pub struct JumpUses {
    boot: Counts,
    counts: Counts,
}

impl Model for JumpUses {
    ghost use Rattle.mission_model.specs.CountsList.{pairs_of};
    ghost use Rattle.navigator.specs.Uses.{JumpUses};

    ghost Value = { JumpUses };

    ghost view = { λ a. record { boot = pairs_of a.boot; counts = pairs_of a.counts } };
}

impl JumpUses {
    /// What the boot's mark says, and what counts now.
    pub fn of(boot: Counts, counts: Counts) -> JumpUses
        ensures { result ≡ record { boot = pairs_of boot; counts = pairs_of counts } }
    {
        JumpUses { boot, counts }
    }

    /// No jump was used.
    pub fn none() -> JumpUses
        ensures { result ≡ no_uses }
    {
        JumpUses::of(Counts::new(), Counts::new())
    }

    /// Whether an item of a plan of this type may have this seq.
    pub fn go_with(&self, kind: PlanType, seq: u16, item: &Item) -> bool
        ensures { result ≡ goes_with kind self.now seq item.now }
    {
        match kind {
            PlanType::Mission => {
                let allowed = allows_used(self.boot.used(seq), item);
                allowed && leaves_room(&self.counts, seq, item)
            }
            _ => true,
        }
    }

    /// Whether an item can stand at this seq of a mission of so many.
    pub fn can_stand(&self, count: u16, seq: u16, item: &Item) -> bool
        ensures { result ≡ can_stand self.now count seq item.now }
    {
        let goes_with = self.go_with(PlanType::Mission, seq, item);
        let valid = check_item(PlanType::Mission, item).is_ok();
        goes_with && valid && leads_off(count, seq, item)
    }
}

/// Whether an item may have been used so often.
fn allows_used(used: u16, item: &Item) -> bool
    ensures { result ≡ allows_used used (jump_of item.now) }
{
    match jump_of(item) {
        Some(jump) => used <= jump.repeats,
        None => used == 0,
    }
}

/// Whether the counts can keep the use of an item at this seq.
fn leaves_room(counts: &Counts, seq: u16, item: &Item) -> bool
    ensures { result ≡ leaves_room (pairs_of counts.now) seq (jump_of item.now) }
{
    match jump_of(item) {
        Some(_) => counts.used(seq) > 0 || (counts.len() as usize) < MAX_JUMPS,
        None => true,
    }
}

/// Whether an item at this seq leads on in a mission of so many, where it is a jump.
fn leads_off(count: u16, seq: u16, item: &Item) -> bool
    ensures { result ≡ leads_off count seq (jump_of item.now) }
{
    match jump_of(item) {
        Some(jump) => jump.target < count && jump.target != seq,
        None => true,
    }
}
