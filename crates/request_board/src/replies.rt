//! The replies that are posted to one client and not taken yet, the first posted first.

ghost use Rattle.std.specs.Prelude.{◌≡◌, ◌≢◌, ◌↔◌, IsTrue, ◌<◌, [], ◌∷◌, ◌++◌, length, IfOk, IfNone, IfSome};
ghost use Rattle.mission_model.specs.declared.limits.TheConstants.{NAV_ROOM};

use circular_buffer::HeapCircularBuffer;
use mission_model::limits::NAV_ROOM;
use mission_model::{Asked, Reply};
use std::alloc::{AllocError, Global};
use std::marker::Model;

/// One client's replies: as many as the client with the highest limit may have outstanding.
#[derive(Drop)]
pub struct Replies {
    ring: HeapCircularBuffer<(Asked, Reply)>,
}

impl Model for Replies {
    ghost use Rattle.std.specs.Prelude.{◌≡◌, List};
    ghost use Rattle.mission_model.specs.declared.request.Asked.{Asked};
    ghost use Rattle.mission_model.specs.declared.request.Reply.{Reply};
    ghost use Rattle.mission_model.specs.declared.limits.TheConstants.{NAV_ROOM};

    ghost Value = { List (Asked × Reply) };

    ghost view = { λ a. a.ring.items };

    ghost invariant = { λ a. a.ring.capacity ≡ NAV_ROOM };
}

impl Replies {
    /// No replies.
    pub fn new(alloc: Global) -> Result<Replies, AllocError>
        ensures { IfOk result (λ replies. replies ≡ []) }
    {
        Ok(Replies {
            ring: HeapCircularBuffer::with_capacity(alloc, NAV_ROOM as usize)?,
        })
    }

    /// Posts a reply behind the others.
    pub fn push(&mut self, asked: Asked, reply: Reply)
        requires { length self.old < NAV_ROOM }
        ensures { self.new ≡ self.old ++ (asked, reply) ∷ [] }
    {
        self.ring.push_back((asked, reply));
    }

    /// Whether a reply is posted.
    pub fn has_some(&self) -> bool
        ensures { IsTrue result ↔ (self.now ≢ []) }
    {
        !self.ring.is_empty()
    }

    /// Takes the first reply away.
    pub fn take_first(&mut self) -> Option<(Asked, Reply)>
        ensures none { IfNone result ((self.old ≡ []) × (self.new ≡ [])) }
        ensures some { IfSome result (λ first. self.old ≡ first ∷ self.new) }
    {
        self.ring.pop_front()
    }
}
