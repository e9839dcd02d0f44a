//! What all actors share: the board, the transfer, the arrivals at the meeting places, and whether the power is on.

ghost use Rattle.std.specs.Prelude.{◌≡◌, ◌<◌, ◌≤◌, IfOk};
ghost use Rattle.mission_model.specs.declared.limits.TheConstants.{MAX_LINKS, MAX_PLACES, MAX_WATCHERS};
ghost use Rattle.vehicle_core.specs.SharedState.{SharedBegun, arrivals_at, arrived_at};

use mission_model::PlanHead;
use mission_model::limits::MAX_PLACES;
use request_board::Board;
use std::alloc::{AllocError, Global};
use transfer_lock::Transfer;

/// The part that all actors share.
#[derive(Drop)]
pub struct Shared {
    pub board: Board,
    pub transfer: Transfer,
    pub arrivals: [u8; MAX_PLACES as usize],
    pub power: bool,
}

impl Shared {
    /// The shared part at the beginning of a boot of so many links and watchers, with these heads published: nothing was
    /// asked, no grant is out, and nobody came to a meeting place. It fails only for want of memory.
    pub fn new(
        alloc: Global,
        links: u8,
        watchers: u8,
        heads: [PlanHead; 3],
    ) -> Result<Shared, AllocError>
        requires { (links ≤ MAX_LINKS) × (watchers ≤ MAX_WATCHERS) }
        ensures { IfOk result (SharedBegun links watchers heads) }
    {
        Ok(Shared {
            board: Board::new(alloc, links, watchers, heads)?,
            transfer: Transfer::new(heads),
            arrivals: [0; MAX_PLACES as usize],
            power: true,
        })
    }

    /// The arrivals of this boot at a meeting place, counted up to 255, the most that a meeting can need.
    pub fn arrivals(&self, place: u8) -> u8
        requires { place < MAX_PLACES }
        ensures { result ≡ arrivals_at self.now place }
    {
        self.arrivals[place as usize]
    }

    /// One more client came to a meeting place.
    pub fn arrive(&mut self, place: u8)
        requires { place < MAX_PLACES }
        ensures { self.new ≡ arrived_at self.old place }
    {
        let count = self.arrivals[place as usize].saturating_add(1);
        self.arrivals[place as usize] = count;
    }
}
