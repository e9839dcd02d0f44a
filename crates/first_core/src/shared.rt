//! What all actors share: the board, the arrivals at the meeting places and the plan ids that are used.

ghost use Rattle.std.specs.Prelude.{◌≡◌, ◌<◌, ◌≤◌, IfOk};
ghost use Rattle.first_model.specs.declared.limits.TheConstants.{MAX_LINKS};
ghost use Rattle.first_core.specs.SharedState.{arrivals_at, arrived_at, new_shared};

use first_board::Board;
use first_model::PlanHead;
use first_model::limits::MAX_PLACES;
use std::alloc::{AllocError, Global};
use std::marker::Model;

/// The part that all actors share.
#[derive(Drop)]
pub struct Shared {
    pub board: Board,
    pub arrivals: [u8; MAX_PLACES as usize],
    pub ids: [u32; 3],
}

impl Model for Shared {
    ghost use Rattle.first_core.specs.SharedState.{SharedState};

    ghost Value = { SharedState };

    ghost view = { λ a. record { board = a.board; arrivals = a.arrivals; ids = a.ids } };
}

impl Shared {
    /// The shared part at the beginning of a boot with so many links and these plans in force, in order of `PlanType`.
    pub fn new(alloc: Global, links: u8, heads: [PlanHead; 3]) -> Result<Shared, AllocError>
        requires { links ≤ MAX_LINKS }
        ensures { IfOk result (λ shared. shared ≡ new_shared heads links) }
    {
        Ok(Shared {
            board: Board::new(alloc, links, 0, heads)?,
            arrivals: [0; MAX_PLACES as usize],
            ids: [heads[0].id, heads[1].id, heads[2].id],
        })
    }

    /// The arrivals of this boot at a meeting place, counted up to 255.
    pub fn arrivals(&self, place: u8) -> u8
        requires { place < MAX_PLACES }
        ensures { result ≡ arrivals_at self.now place }
    {
        self.arrivals[place as usize]
    }

    /// One more client came to a meeting place.
    pub fn arrive(&mut self, place: u8)
        requires { place < MAX_PLACES }
        ensures { self.new ≡ arrived_at self.old place }
    {
        let count = self.arrivals[place as usize].saturating_add(1);
        self.arrivals[place as usize] = count;
    }
}
