//! The links: what a message is answered, and what a reply may be answered.

ghost use Rattle.std.specs.Prelude.{◌≡◌, IfOk, IsTrue, ◌↔◌, true, false};
ghost use Rattle.plan_vehicle.specs.VehicleState.{VehicleState};
ghost use Rattle.plan_vehicle.specs.Messages.{Answers, Says, Hears, MayAnswer};

use crate::vehicle::Vehicle;
use mission_model::{AckCode, Answer, Asked, Reply, is_same_reply};
use std::alloc::{AllocError, Global};

impl Vehicle {
    /// A link's message is handled.
    pub(crate) fn says(&mut self, alloc: Global, answer: Answer) -> Result<bool, AllocError>
        ensures yes { IfOk result (λ yes. IsTrue yes → Says self.old answer self.new) }
        ensures no { IfOk result (λ yes. yes ≡ false → (v : VehicleState) → Says self.old answer v → ⊥) }
    {
        if !self.is_up {
            return Ok(false);
        }
        self.answers(alloc, answer)
    }

    fn answers(&mut self, alloc: Global, answer: Answer) -> Result<bool, AllocError>
        ensures yes { IfOk result (λ yes. IsTrue yes → Answers self.old answer self.new) }
        ensures no { IfOk result (λ yes. yes ≡ false → (v : VehicleState) → Answers self.old answer v → ⊥) }
    {
        match answer {
            Answer::Ack(AckCode::Accepted) => Ok(false),
            Answer::Writes {
                kind,
                id,
                seq,
                item,
            } => {
                if usize::from(seq) != self.drafts.items(kind, id).len() {
                    return Ok(false);
                }
                self.drafts.write(alloc, kind, id, item)?;
                Ok(true)
            }
            Answer::CurrentIs(seq) => {
                if usize::from(seq) >= self.plans.mission().count() {
                    return Ok(false);
                }
                self.wanted = Some(seq);
                Ok(true)
            }
            _ => Ok(true),
        }
    }

    /// A link hears a reply.
    pub(crate) fn hears(&self, link: u8, reply: Reply, answer: Answer) -> bool
        ensures { IsTrue result ↔ Hears self.now link reply answer self.now }
    {
        let Some((asked, given)) = self.served.last(link) else {
            return false;
        };
        is_same_reply(&given, &reply) && may_answer(asked, reply, answer)
    }
}

/// Whether the reply to a link's request may have this answer: an upload is accepted only once its commit is done.
fn may_answer(asked: Asked, reply: Reply, answer: Answer) -> bool
    ensures { IsTrue result ↔ MayAnswer asked reply answer }
{
    match (answer, asked, reply) {
        (Answer::Ack(AckCode::Accepted), Asked::Commit { .. }, Reply::Done) => true,
        (Answer::Ack(AckCode::Accepted), _, _) => false,
        _ => true,
    }
}
