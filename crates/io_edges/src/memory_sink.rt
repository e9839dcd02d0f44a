//! A sink that holds bytes in memory, with a room and calls that fail where the maker said.
//! All of its memory is taken when it is made.
ghost use Rattle.std.specs.Prelude.{◌≡◌, ◌-◌, ◌<◌, ◌≤◌, ◌↔◌, [], ◌++◌, Some, length, take, min, IsErr, IfOk, MatchResult, OnErr};
ghost use Rattle.std.specs.Io.{WritesAtMost};
ghost use Rattle.std.specs.Io.KnownBytes.{WriteAppends};
ghost use Rattle.io_edges.specs.Count.{Rose};
ghost use Rattle.io_edges.specs.Memory.{GiveFails, after_give, after_failed_give, most_at_once};

use crate::edges::{Failed, MOST_AT_ONCE, Sink};
use std::alloc::{AllocError, Global};
use std::marker::Model;

/// Bytes in memory, at most a room of them.
#[derive(Drop)]
pub struct MemorySink {
    held: Vec<u8>,
    room: usize,
    fails: Vec<u64>,
    calls: u64,
    faults: u64,
}

impl Model for MemorySink {
    ghost use Rattle.std.specs.Prelude.{◌≤◌, vec_len, vec_capacity};
    ghost use Rattle.io_edges.specs.Memory.{SinkState};

    ghost Value = { SinkState };

    ghost view = { λ s. record { held = s.held.items; room = s.room; fails = s.fails.items; calls = s.calls; faults = s.faults } };

    ghost invariant = { λ s. (vec_len s.held ≤ s.room) × (s.room ≤ vec_capacity s.held) };
}

impl MemorySink {
    /// A sink with room for that many bytes. Its calls are numbered from 1, and those that `fails` has fail.
    pub fn new(alloc: Global, room: usize, fails: Vec<u64>) -> Result<MemorySink, AllocError>
        ensures { IfOk result (λ s. s ≡ record { held = []; room = room; fails = fails.items; calls = 0; faults = 0 }) }
    {
        let held = Vec::with_capacity(alloc, room)?;
        Ok(MemorySink {
            held,
            room,
            fails,
            calls: 0,
            faults: 0,
        })
    }

    /// The bytes that were given.
    pub fn bytes(&self) -> &[u8]
        ensures { result.now ≡ self.now.held }
    {
        self.held.as_slice()
    }

    /// The bytes that were given, of which there are at most the room.
    pub fn into_bytes(self) -> Vec<u8>
        ensures { result.items ≡ self.held }
    {
        let MemorySink { held, .. } = self;
        held
    }

    /// How many calls were made.
    pub fn calls(&self) -> u64
        ensures { result ≡ self.now.calls }
    {
        self.calls
    }

    /// How many calls failed.
    pub fn faults(&self) -> u64
        ensures { result ≡ self.now.faults }
    {
        self.faults
    }
}

impl Sink for MemorySink {
    ghost held = { λ s. Some s.held };

    ghost faults = { λ s. s.faults };

    fn give(&mut self, bytes: &[u8]) -> Result<usize, Failed>
        ensures bound { WritesAtMost result bytes.now }
        ensures bytes { WriteAppends (Some self.old.held) (Some self.new.held) result bytes.now }
        ensures never_falls { self.old.faults ≤ self.new.faults }
        ensures failed { OnErr result (Rose self.old.faults self.new.faults) }
        ensures stuck { 0 < length bytes.now → IfOk result (λ n. n ≡ 0 → Rose self.old.faults self.new.faults) }
        ensures fails { IsErr result ↔ GiveFails self.old bytes.now }
        ensures count { IfOk result (λ n. n ≡ min (min most_at_once (length bytes.now)) (self.old.room - length self.old.held)) }
        ensures state { MatchResult result (λ n. self.new ≡ after_give self.old (take n bytes.now)) (λ _. self.new ≡ after_failed_give self.old) }
    {
        self.calls = self.calls.saturating_add(1);
        let room = self.room - self.held.len();
        if self.fails.contains(&self.calls) || (room == 0 && !bytes.is_empty()) {
            self.faults = self.faults.saturating_add(1);
            return Err(Failed);
        }
        let count = MOST_AT_ONCE.min(bytes.len()).min(room);
        match self.held.extend_from_slice(&bytes[..count]) {
            Ok(()) => Ok(count),
            Err(_) => unreachable!(),
        }
    }
}
