//! The cache. Its window says which items it has places for; a read that is in flight stays so until its reply is
//! taken, wherever the window stands then. What a look found known or in flight the next look does not go through
//! again.

ghost use Rattle.std.specs.Prelude.{◌≡◌, ◌+◌, ◌-◌, ◌^◌, ◌<◌, ◌≤◌, ◌↔◌, length, min, take, IfOk, OnOk, OnErr, IsTrue, true, false, replicate, None, nat_le, slice_index_or, if◌then◌else◌, ℕ};
ghost use Rattle.first_cache.specs.CacheState.{opened, adopted, look_of, known_at, in_window, window_end, got, keeps, kept};
ghost use Rattle.first_cache.specs.Wants.{missing, missing_at, wanted, Asks};
ghost use Rattle.first_cache.specs.Settled.{Settled, is_settled};
ghost use Rattle.first_cache.specs.Moves.{moved};
ghost use Rattle.first_board.specs.BoardState.{HasClient, outstanding, limit};

use first_board::Board;
use first_model::{Asked, Client, Item, Look, PlanHead, PlanType, Reply, Request};
use std::alloc::{AllocError, Global};
use std::marker::Model;

/// How many seqs there are.
pub const SEQS: usize = 65_536;

/// How many places on the board a look leaves free.
const SPARED: u8 = 1;

/// What a client knows of one plan.
#[derive(Drop)]
pub struct Cache {
    client: Client,
    kind: PlanType,
    id: u32,
    count: u16,
    from: u16,
    known: Vec<Option<Item>>,
    in_flight: Vec<bool>,
    /// The seqs from here on, up to `settled_to`, are known or in flight.
    settled_from: u16,
    settled_to: u16,
}

impl Model for Cache {
    ghost use Rattle.std.specs.Prelude.{◌≡◌, ◌<◌, ◌≤◌, length};
    ghost use Rattle.first_cache.specs.CacheState.{CacheState};
    ghost use Rattle.first_cache.specs.Settled.{Settled};
    ghost use Rattle.first_cache.specs.declared.cache.TheConstants.{SEQS};

    ghost Value = { CacheState };

    ghost view = { λ a. record { client = a.client; kind = a.kind; id = a.id; count = a.count; from = a.from; known = a.known.items; in_flight = a.in_flight.items } };

    ghost invariant = { λ a. (length a.in_flight.items ≡ SEQS) × (0 < length a.known.items) × (length a.known.items < 65536) × Settled (record { client = a.client; kind = a.kind; id = a.id; count = a.count; from = a.from; known = a.known.items; in_flight = a.in_flight.items }) a.settled_from a.settled_to };
}

impl Cache {
    /// A cache with so many places, which has adopted no plan.
    pub fn new(
        alloc: Global,
        client: Client,
        kind: PlanType,
        capacity: u16,
    ) -> Result<Cache, AllocError>
        requires { 1 ≤ capacity }
        ensures { IfOk result (λ cache. cache ≡ opened client kind capacity) }
    {
        Ok(Cache {
            client,
            kind,
            id: 0,
            count: 0,
            from: 0,
            known: no_items(alloc, capacity)?,
            in_flight: no_flags(alloc, SEQS)?,
            settled_from: 0,
            settled_to: 0,
        })
    }

    /// The adopted plan's id, 0 before one was adopted.
    pub fn id(&self) -> u32
        ensures { result ≡ self.now.id }
    {
        self.id
    }

    /// The adopted plan's count.
    pub fn count(&self) -> u16
        ensures { result ≡ self.now.count }
    {
        self.count
    }

    /// Adopts a plan. One of another id empties the cache, and the window begins at 0.
    pub fn adopt(&mut self, head: PlanHead)
        ensures { self.new ≡ adopted self.old head }
    {
        if self.id != head.id {
            self.id = head.id;
            self.count = head.count;
            self.from = 0;
            self.settled_from = 0;
            self.settled_to = 0;
            forget(&mut self.known);
            clear(&mut self.in_flight);
        }
    }

    /// Takes a reply, and tells whether an item was kept.
    pub fn got(&mut self, asked: &Asked, reply: &Reply) -> bool
        ensures cache { self.new ≡ got self.old asked.now reply.now }
        ensures keeps { IsTrue result ↔ (keeps self.old asked.now reply.now ≡ true) }
    {
        match *asked {
            Asked::Read { kind, id, seq } => {
                if kind == self.kind && id == self.id {
                    self.keep(seq, reply)
                } else {
                    false
                }
            }
            _ => false,
        }
    }

    /// Takes the reply to a read of the cache's kind and adopted id.
    fn keep(&mut self, seq: u16, reply: &Reply) -> bool
        ensures cache { self.new ≡ kept self.old seq reply.now }
        ensures keeps { IsTrue result ↔ (keeps self.old (Asked.Read self.old.kind self.old.id seq) reply.now ≡ true) }
    {
        let inside = self.is_within(seq);
        self.in_flight[seq as usize] = false;
        match *reply {
            Reply::Item(item) if inside => {
                self.known[(seq - self.from) as usize] = Some(item);
                true
            }
            _ => {
                self.settled_to = self.settled_to.min(seq);
                false
            }
        }
    }

    /// Whether a seq is in the window.
    fn is_within(&self, seq: u16) -> bool
        ensures { IsTrue result ↔ (in_window self.now seq ≡ true) }
    {
        let end = self.from as usize + self.known.len();
        self.from <= seq && (seq as usize) < end
    }

    /// Looks at the item at a seq: what is known of it. What is missing from there on is asked, in rising order, while
    /// the board leaves more than one place free.
    pub fn want(&mut self, board: &mut Board, seq: u16) -> Look
        requires client { HasClient board.old self.old.client }
        requires count { seq < self.old.count }
        requires window { in_window self.old seq ≡ true }
        ensures look { result ≡ look_of (known_at self.old seq) }
        ensures asks { Asks self.old board.old (wanted self.old board.old seq) self.new board.new }
    {
        let look = self.look(seq);
        let end = self.end();
        let start = self.settled_end(seq, end);
        let places = self.ask_missing(board, start, end - start);
        self.settle(seq, start + places);
        look
    }

    /// The seq up to which, but not beyond the end, all from this one on is known or in flight.
    fn settled_end(&self, seq: u16, end: u16) -> u16
        requires { seq ≤ end }
        ensures seq { seq ≤ result }
        ensures end { result ≤ end }
        ensures settled { Settled self.now seq result }
    {
        if self.settled_from <= seq && seq <= self.settled_to {
            self.settled_to.min(end)
        } else {
            seq
        }
    }

    /// The seq from which on all up to this one is known or in flight.
    fn settled_start(&self, seq: u16) -> u16
        ensures { Settled self.now result seq }
    {
        if self.settled_from <= seq && seq <= self.settled_to {
            self.settled_from
        } else {
            seq
        }
    }

    /// Notes that all from one seq on up to another is known or in flight.
    fn settle(&mut self, seq: u16, to: u16)
        requires { Settled self.old seq to }
        ensures { self.new ≡ self.old }
    {
        self.settled_from = self.settled_start(seq);
        self.settled_to = to;
    }

    /// Asks what is missing among so many seqs from one on, while the board leaves more than one place free, and
    /// tells how many were looked at.
    fn ask_missing(&mut self, board: &mut Board, seq: u16, places: u16) -> u16
        requires client { HasClient board.old self.old.client }
        requires from { self.old.from ≤ seq }
        requires window { seq + places ≤ window_end self.old }
        requires count { seq + places < 2 ^ 16 }
        ensures asks { Asks self.old board.old (take (limit self.old.client - outstanding board.old self.old.client - 1) (missing self.old seq places)) self.new board.new }
        ensures places { result ≤ places }
        ensures settled { Settled self.new seq (seq + result) }
    {
        for place in 0..places {
            if board.room(self.client) <= SPARED {
                return place;
            }
            self.ask(board, seq + place);
        }
        places
    }

    /// Asks the item at a seq, where it is neither known nor in flight.
    fn ask(&mut self, board: &mut Board, seq: u16)
        requires client { HasClient board.old self.old.client }
        requires room { outstanding board.old self.old.client < limit self.old.client }
        requires window { in_window self.old seq ≡ true }
        ensures asks { Asks self.old board.old (missing_at self.old seq) self.new board.new }
        ensures settled { is_settled self.new seq ≡ true }
    {
        let known = self.known[(seq - self.from) as usize].is_some();
        if !known && !self.in_flight[seq as usize] {
            let read = Request::Read {
                kind: self.kind,
                id: self.id,
                seq,
            };
            let _ = board.ask(self.client, read);
            self.in_flight[seq as usize] = true;
        }
    }

    /// Moves the window's beginning to a seq. Items outside the window are forgotten, the others kept, and a read
    /// that is in flight stays so.
    pub fn aim(&mut self, seq: u16)
        ensures { self.new ≡ moved self.old seq (length self.old.known) }
    {
        slide(&mut self.known, self.from, seq);
        self.from = seq;
        self.settled_from = seq;
        self.settled_to = seq;
    }

    /// Gives the window so many places. Items outside it are forgotten, the others kept, and a read that is in
    /// flight stays so.
    pub fn resize(&mut self, capacity: u16) -> Result<(), AllocError>
        requires { 1 ≤ capacity }
        ensures ok { OnOk result (self.new ≡ moved self.old self.old.from capacity) }
        ensures err { OnErr result (self.new ≡ self.old) }
    {
        self.known.resize(capacity as usize, None)?;
        self.settled_to = self.settled_from;
        Ok(())
    }

    /// What is known at a seq in the window.
    fn look(&self, seq: u16) -> Look
        requires { in_window self.now seq ≡ true }
        ensures { result ≡ look_of (known_at self.now seq) }
    {
        match self.known[(seq - self.from) as usize] {
            Some(item) => Look::Here(item),
            None => Look::Pending,
        }
    }

    /// The seq behind the last one that is below both the count and the window's end.
    fn end(&self) -> u16
        ensures { result ≡ min self.now.count (window_end self.now) }
    {
        (self.count as usize).min(self.from as usize + self.known.len()) as u16
    }
}

/// So many places without an item.
fn no_items(alloc: Global, places: u16) -> Result<Vec<Option<Item>>, AllocError>
    ensures { IfOk result (λ known. known.items ≡ replicate places None) }
{
    let mut known = Vec::with_capacity(alloc, places as usize)?;
    for _ in 0..places {
        known.push(None)?;
    }
    Ok(known)
}

/// A flag for each of so many seqs, with nothing in flight.
fn no_flags(alloc: Global, seqs: usize) -> Result<Vec<bool>, AllocError>
    ensures { IfOk result (λ flags. flags.items ≡ replicate seqs false) }
{
    let mut flags = Vec::with_capacity(alloc, seqs)?;
    for _ in 0..seqs {
        flags.push(false)?;
    }
    Ok(flags)
}

/// Forgets each item.
fn forget(known: &mut Vec<Option<Item>>)
    ensures { known.new.items ≡ replicate (length known.old.items) None }
{
    for place in 0..known.len() {
        known[place] = None;
    }
}

/// Nothing is in flight.
fn clear(flags: &mut Vec<bool>)
    ensures { flags.new.items ≡ replicate (length flags.old.items) false }
{
    for seq in 0..flags.len() {
        flags[seq] = false;
    }
}

/// Moves the places' beginning from one seq to another.
fn slide(known: &mut Vec<Option<Item>>, from: u16, to: u16)
    requires { length known.old.items < 2 ^ 16 }
    ensures length { length known.new.items ≡ length known.old.items }
    ensures places { (k : ℕ) → k < length known.old.items → slice_index_or known.new.items k None ≡ (if nat_le from (to + k) then slice_index_or known.old.items (to + k - from) None else None) }
{
    if from <= to {
        pull_down(known, (to - from) as usize);
    } else {
        push_up(known, (from - to) as usize);
    }
}

/// Each place has then what stood so many places above it, and nothing where no place was.
fn pull_down(known: &mut Vec<Option<Item>>, by: usize)
    requires places { length known.old.items < 2 ^ 16 }
    requires by { by < 2 ^ 16 }
    ensures length { length known.new.items ≡ length known.old.items }
    ensures places { (k : ℕ) → k < length known.old.items → slice_index_or known.new.items k None ≡ slice_index_or known.old.items (k + by) None }
{
    for place in 0..known.len() {
        known[place] = above(known, place, by);
    }
}

/// Each place has then what stood so many places below it, and nothing where no place was.
fn push_up(known: &mut Vec<Option<Item>>, by: usize)
    ensures length { length known.new.items ≡ length known.old.items }
    ensures places { (k : ℕ) → k < length known.old.items → slice_index_or known.new.items k None ≡ (if nat_le by k then slice_index_or known.old.items (k - by) None else None) }
{
    let places = known.len();
    for done in 0..places {
        let place = places - 1 - done;
        known[place] = below(known, place, by);
    }
}

/// What stands so many places above one, if anything.
fn above(known: &Vec<Option<Item>>, place: usize, by: usize) -> Option<Item>
    requires place { place < 2 ^ 16 }
    requires by { by < 2 ^ 16 }
    ensures { result ≡ slice_index_or known.now.items (place + by) None }
{
    if place + by < known.len() {
        known[place + by]
    } else {
        None
    }
}

/// What stands so many places below one, if anything.
fn below(known: &Vec<Option<Item>>, place: usize, by: usize) -> Option<Item>
    requires { place < length known.now.items }
    ensures { result ≡ (if nat_le by place then slice_index_or known.now.items (place - by) None else None) }
{
    if by <= place { known[place - by] } else { None }
}
