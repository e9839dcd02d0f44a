//! For each seq of a plan, whether a read of it is in flight. The flags behind the last one that was set are not
//! kept, so another plan costs nothing and a flag is written once a seq. All memory is taken in `new`.

ghost use Rattle.std.specs.Prelude.{◌≡◌, ◌<◌, ◌^◌, [], ◌++◌, length, true, false, replicate, IfOk, slice_index_or, slice_set, ◌+◌, ◌-◌, ◌≤◌};
ghost use Rattle.std.specs.Vec.{vec_capacity};

use std::alloc::{AllocError, Global};
use std::marker::Model;

/// How many seqs there are.
const SEQS: usize = 65_536;

/// The flags of one plan.
#[derive(Drop)]
pub struct Flights {
    count: u16,
    flags: Vec<bool>,
}

impl Model for Flights {
    ghost use Rattle.std.specs.Prelude.{◌++◌, ◌-◌, ◌≤◌, List, Bool, false, length, replicate};
    ghost use Rattle.std.specs.Vec.{vec_capacity};
    ghost use Rattle.client_cache.specs.declared.flights.TheConstants.{SEQS};

    ghost Value = { List Bool };

    ghost view = { λ a. a.flags.items ++ replicate (a.count - length a.flags.items) false };

    ghost invariant = { λ a. (length a.flags.items ≤ a.count) × (SEQS ≤ vec_capacity a.flags) };
}

impl Flights {
    /// The flags of a plan without items.
    pub fn new(alloc: Global) -> Result<Flights, AllocError>
        ensures { IfOk result (λ flights. flights ≡ []) }
    {
        Ok(Flights {
            count: 0,
            flags: Vec::with_capacity(alloc, SEQS)?,
        })
    }

    /// Nothing is in flight of a plan of so many items.
    pub fn begin(&mut self, count: u16)
        ensures { self.new ≡ replicate count false }
    {
        self.flags.clear();
        self.count = count;
    }

    /// Whether a read of the seq is in flight.
    pub fn has(&self, seq: u16) -> bool
        ensures { result ≡ slice_index_or self.now seq false }
    {
        (seq as usize) < self.flags.len() && self.flags[seq as usize]
    }

    /// A read of the seq is in flight.
    pub fn set(&mut self, seq: u16)
        requires { seq < length self.old }
        ensures { self.new ≡ slice_set self.old seq true }
    {
        reach(&mut self.flags, seq);
        self.flags[seq as usize] = true;
    }

    /// A read of the seq is not in flight any more.
    pub fn unset(&mut self, seq: u16)
        ensures { self.new ≡ slice_set self.old seq false }
    {
        if (seq as usize) < self.flags.len() {
            self.flags[seq as usize] = false;
        }
    }
}

/// There is a flag for the seq; those that were not there are of reads that are not in flight.
fn reach(flags: &mut Vec<bool>, seq: u16)
    requires { SEQS ≤ vec_capacity flags.old }
    ensures items { flags.new.items ≡ flags.old.items ++ replicate (seq + 1 - length flags.old.items) false }
    ensures capacity { SEQS ≤ vec_capacity flags.new }
{
    let missing = (seq as usize + 1).saturating_sub(flags.len());
    for _ in 0..missing {
        let _ = flags.push(false);
    }
}
