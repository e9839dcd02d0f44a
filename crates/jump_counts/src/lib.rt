//! How often a jump of a mission may still be taken: one more use of a DO_JUMP, or none left. The counts keep what was
//! used, the item says how often in all.
#![tactic(auto)]

ghost use Rattle.mission_model.specs.CountsList.{pairs_of};
ghost use Rattle.mission_model.specs.Pairs.{Takes};
ghost use Rattle.jump_counts.specs.TakesJump.{TakesJump};

use mission_model::Counts;

/// What became of a jump.
#[derive(Clone, Copy, Debug, PartialEq, Eq)]
pub enum JumpAnswer {
    /// It is taken, and so many of its repeats are used now.
    Taken(u16),
    /// All its repeats are used.
    Spent,
}

/// Uses the jump at a seq once more, if some of its repeats are left.
pub fn take_jump(counts: &mut Counts, seq: u16, repeats: u16) -> JumpAnswer
    requires { Takes (pairs_of counts.old) seq }
    ensures { TakesJump counts.old seq repeats result counts.new }
{
    let used = counts.used(seq);
    if used >= repeats {
        return JumpAnswer::Spent;
    }
    counts.put(seq, used + 1);
    JumpAnswer::Taken(used + 1)
}

#[cfg(test)]
mod tests {
    use super::*;

    #[test]
    fn a_jump_is_taken_as_often_as_it_says(rt: HostRuntime) {
        // Two jumps in one mission, the later one met first: seq, repeats, answer, and the used numbers of both then.
        let rows = [
            (7, 2, JumpAnswer::Taken(1), 0, 1),
            (1, 0, JumpAnswer::Spent, 0, 1),
            (1, 1, JumpAnswer::Taken(1), 1, 1),
            (7, 2, JumpAnswer::Taken(2), 1, 2),
            (7, 2, JumpAnswer::Spent, 1, 2),
            (1, 1, JumpAnswer::Spent, 1, 2),
            (7, 65535, JumpAnswer::Taken(3), 1, 3),
        ];
        let mut counts = Counts::new();
        for (seq, repeats, answer, first, second) in rows {
            assert!(rt; counts.takes(seq), "room at {seq}");
            assert_eq!(rt;
                take_jump(&mut counts, seq, repeats),
                answer,
                "at {seq} of {repeats}"
            );
            assert_eq!(rt; counts.used(1), first, "of 1");
            assert_eq!(rt; counts.used(7), second, "of 7");
        }
    }
}
