//! The cache. Its window says which items it has places for; a read that is in flight stays so until its reply is
//! taken, wherever the window stands then. What a look found known or in flight the next look does not go through
//! again.

ghost use Rattle.std.specs.Prelude.{◌≡◌, ◌+◌, ◌-◌, ◌^◌, ◌<◌, ◌≤◌, ◌↔◌, ◌∷◌, List, length, min, take, IfOk, OnOk, OnErr, IsTrue, true, false, replicate, None, nat_le, slice_index_or, if◌then◌else◌, ℕ};
ghost use Rattle.client_cache.specs.CacheState.{CacheState, opened, adopted, look_of, known_at, in_window, window_end, got, keeps, kept, forgotten, keeps_at, has_id, id_of, count_of};
ghost use Rattle.client_cache.specs.Wants.{missing, missing_at, wanted, looked, Asks};
ghost use Rattle.client_cache.specs.Settled.{Settled, is_settled};
ghost use Rattle.client_cache.specs.Moves.{moved};
ghost use Rattle.client_cache.specs.History.{CacheEvent, CacheCalls, Remembers};
ghost use Rattle.mission_model.specs.declared.plan.PlanType.{PlanType as KindValue};
ghost use Rattle.mission_model.specs.declared.request.Client.{Client as ClientValue};
ghost use Rattle.request_board.specs.BoardState.{HasClient, outstanding, limit};

use crate::flights::Flights;
use mission_model::{Asked, Client, Item, Look, PlanHead, PlanType, Reply, Request};
use request_board::Board;
use std::alloc::{AllocError, Global};
use std::marker::Model;

#[cfg(test)]
mod tests;

/// How many places on the board a look leaves free.
const SPARED: u8 = 1;

/// What a client knows of one plan.
#[derive(Drop)]
pub struct Cache {
    client: Client,
    kind: PlanType,
    head: Option<PlanHead>,
    from: u16,
    known: Vec<Option<Item>>,
    in_flight: Flights,
    /// The seqs from here on, up to `settled_to`, are known or in flight.
    settled_from: u16,
    settled_to: u16,
}

impl Model for Cache {
    ghost use Rattle.std.specs.Prelude.{◌≡◌, ◌<◌, ◌≤◌, length};
    ghost use Rattle.client_cache.specs.CacheState.{CacheState, count_of};
    ghost use Rattle.client_cache.specs.Settled.{Settled};

    ghost Value = { CacheState };

    ghost view = { λ a. record { client = a.client; kind = a.kind; head = a.head; from = a.from; known = a.known.items; in_flight = a.in_flight } };

    ghost invariant = { λ a. (length a.in_flight ≡ count_of a.head) × (0 < length a.known.items) × (length a.known.items < 65536) × Settled (record { client = a.client; kind = a.kind; head = a.head; from = a.from; known = a.known.items; in_flight = a.in_flight }) a.settled_from a.settled_to };
}

impl Cache {
    /// A cache with so many places, which has adopted no plan.
    pub fn new(
        alloc: Global,
        client: Client,
        kind: PlanType,
        capacity: u16,
    ) -> Result<Cache, AllocError>
        requires { 1 ≤ capacity }
        ensures { IfOk result (λ cache. cache ≡ opened client kind capacity) }
    {
        Ok(Cache {
            client,
            kind,
            head: None,
            from: 0,
            known: no_items(alloc, capacity)?,
            in_flight: Flights::new(alloc)?,
            settled_from: 0,
            settled_to: 0,
        })
    }

    /// The adopted plan, if one was adopted.
    pub fn head(&self) -> Option<PlanHead>
        ensures { result ≡ self.now.head }
    {
        self.head
    }

    /// The adopted plan's count, 0 where none was adopted.
    pub fn count(&self) -> u16
        ensures { result ≡ count_of self.now.head }
    {
        match self.head {
            Some(head) => head.count,
            None => 0,
        }
    }

    /// What is known of the item at a seq, outside the window nothing. Nothing is asked.
    pub fn known(&self, seq: u16) -> Option<Item>
        ensures { result ≡ known_at self.now seq }
    {
        if self.covers(seq) {
            self.known[(seq - self.from) as usize]
        } else {
            None
        }
    }

    /// Whether a seq is in the window.
    pub fn covers(&self, seq: u16) -> bool
        ensures { result ≡ in_window self.now seq }
    {
        let end = self.from as usize + self.known.len();
        self.from <= seq && (seq as usize) < end
    }

    /// Adopts a plan. One of another id than the adopted plan's empties the cache, and the window begins at 0.
    pub fn adopt(&mut self, head: PlanHead)
        ensures { self.new ≡ adopted self.old head }
    {
        match self.head {
            Some(old) if old.id == head.id => {}
            _ => {
                self.head = Some(head);
                self.from = 0;
                self.settled_from = 0;
                self.settled_to = 0;
                clear(&mut self.known);
                self.in_flight.begin(head.count);
            }
        }
    }

    /// Takes a reply, and tells whether an item was kept. Kept is an item that answers a read of the cache's kind and of
    /// the adopted plan, at a seq in the window.
    pub fn got(&mut self, asked: &Asked, reply: &Reply) -> bool
        ensures cache { self.new ≡ got self.old asked.now reply.now }
        ensures keeps { result ≡ keeps self.old asked.now reply.now }
    {
        match *asked {
            Asked::Read { kind, id, seq } => {
                if kind == self.kind && self.is_of(id) {
                    self.keep(seq, reply)
                } else {
                    false
                }
            }
            _ => false,
        }
    }

    /// Whether the adopted plan has this id.
    fn is_of(&self, id: u32) -> bool
        ensures { result ≡ has_id self.now.head id }
    {
        match self.head {
            Some(head) => head.id == id,
            None => false,
        }
    }

    /// Takes the reply to a read of the cache's kind and adopted id.
    fn keep(&mut self, seq: u16, reply: &Reply) -> bool
        ensures cache { self.new ≡ kept self.old seq reply.now }
        ensures keeps { result ≡ keeps_at self.old seq reply.now }
    {
        let inside = self.covers(seq);
        self.in_flight.unset(seq);
        match *reply {
            Reply::Item(item) if inside => {
                self.known[(seq - self.from) as usize] = Some(item);
                true
            }
            _ => {
                self.settled_to = self.settled_to.min(seq);
                false
            }
        }
    }

    /// Forgets the item at a seq. The next look may ask it again; a read of it that is in flight stays so.
    pub fn forget(&mut self, seq: u16)
        ensures { self.new ≡ forgotten self.old seq }
    {
        if self.covers(seq) {
            self.known[(seq - self.from) as usize] = None;
            self.settled_to = self.settled_to.min(seq);
        }
    }

    /// Looks at the item at a seq: what is known of it. What is missing from there on is asked, in rising order, while
    /// the board leaves more than one place free.
    pub fn want(&mut self, board: &mut Board, seq: u16) -> Look
        requires client { HasClient board.old self.old.client }
        requires count { seq < count_of self.old.head }
        requires window { in_window self.old seq ≡ true }
        ensures look { result ≡ look_of (known_at self.old seq) }
        ensures asks { Asks self.old board.old (wanted self.old board.old seq) self.new board.new }
    {
        let look = look_of(self.known(seq));
        let end = self.end();
        let start = self.settled_end(seq, end);
        let places = self.ask_missing(board, start, end - start);
        self.settle(seq, start + places);
        look
    }

    /// Looks at the item at any seq. Outside the window nothing is known, and there and behind the plan's end nothing is
    /// asked.
    pub fn look_at(&mut self, board: &mut Board, seq: u16) -> Look
        requires { HasClient board.old self.old.client }
        ensures look { result ≡ look_of (known_at self.old seq) }
        ensures asks { Asks self.old board.old (looked self.old board.old seq) self.new board.new }
    {
        if seq >= self.count() || !self.covers(seq) {
            return look_of(self.known(seq));
        }
        self.want(board, seq)
    }

    /// The seq up to which, but not beyond the end, all from this one on is known or in flight.
    fn settled_end(&self, seq: u16, end: u16) -> u16
        requires { seq ≤ end }
        ensures seq { seq ≤ result }
        ensures end { result ≤ end }
        ensures settled { Settled self.now seq result }
    {
        if self.settled_from <= seq && seq <= self.settled_to {
            self.settled_to.min(end)
        } else {
            seq
        }
    }

    /// The seq from which on all up to this one is known or in flight.
    fn settled_start(&self, seq: u16) -> u16
        ensures { Settled self.now result seq }
    {
        if self.settled_from <= seq && seq <= self.settled_to {
            self.settled_from
        } else {
            seq
        }
    }

    /// Notes that all from one seq on up to another is known or in flight.
    fn settle(&mut self, seq: u16, to: u16)
        requires { Settled self.old seq to }
        ensures { self.new ≡ self.old }
    {
        self.settled_from = self.settled_start(seq);
        self.settled_to = to;
    }

    /// Asks what is missing among so many seqs from one on, while the board leaves more than one place free, and
    /// tells how many were looked at.
    fn ask_missing(&mut self, board: &mut Board, seq: u16, places: u16) -> u16
        requires client { HasClient board.old self.old.client }
        requires from { self.old.from ≤ seq }
        requires window { seq + places ≤ window_end self.old }
        requires count { seq + places ≤ count_of self.old.head }
        ensures asks { Asks self.old board.old (take (limit self.old.client - outstanding board.old self.old.client - 1) (missing self.old seq places)) self.new board.new }
        ensures places { result ≤ places }
        ensures settled { Settled self.new seq (seq + result) }
    {
        for place in 0..places {
            if board.room(self.client) <= SPARED {
                return place;
            }
            self.ask(board, seq + place);
        }
        places
    }

    /// Asks the item at a seq, where it is neither known nor in flight.
    fn ask(&mut self, board: &mut Board, seq: u16)
        requires client { HasClient board.old self.old.client }
        requires room { outstanding board.old self.old.client < limit self.old.client }
        requires count { seq < count_of self.old.head }
        requires window { in_window self.old seq ≡ true }
        ensures asks { Asks self.old board.old (missing_at self.old seq) self.new board.new }
        ensures settled { is_settled self.new seq ≡ true }
    {
        if self.known(seq).is_some() || self.in_flight.has(seq) {
            return;
        }
        let read = Request::Read {
            kind: self.kind,
            id: self.id(),
            seq,
        };
        let _ = board.ask(self.client, read);
        self.in_flight.set(seq);
    }

    /// The adopted plan's id, 0 where none was adopted.
    fn id(&self) -> u32
        ensures { result ≡ id_of self.now.head }
    {
        match self.head {
            Some(head) => head.id,
            None => 0,
        }
    }

    /// Moves the window's beginning to a seq. Items outside the window are forgotten, the others kept, and a read
    /// that is in flight stays so.
    pub fn aim(&mut self, seq: u16)
        ensures { self.new ≡ moved self.old seq (length self.old.known) }
    {
        slide(&mut self.known, self.from, seq);
        self.from = seq;
        self.settled_from = seq;
        self.settled_to = seq;
    }

    /// Gives the window so many places. Items outside it are forgotten, the others kept, and a read that is in
    /// flight stays so.
    pub fn resize(&mut self, capacity: u16) -> Result<(), AllocError>
        requires { 1 ≤ capacity }
        ensures ok { OnOk result (self.new ≡ moved self.old self.old.from capacity) }
        ensures err { OnErr result (self.new ≡ self.old) }
    {
        self.known.resize(capacity as usize, None)?;
        self.settled_to = self.settled_from;
        Ok(())
    }

    /// The seq behind the last one that is below both the count and the window's end.
    fn end(&self) -> u16
        ensures { result ≡ min (count_of self.now.head) (window_end self.now) }
    {
        (self.count() as usize).min(self.from as usize + self.known.len()) as u16
    }
}

/// Whatever calls are made on a new cache, and in whatever order: a look finds exactly the item that the reply to a read of
/// the adopted plan brought while its seq was in the window, and that stayed since; no more items are known than the
/// window has places.
pub fn remembers_what_came()
    ensures { (client : ClientValue) (kind : KindValue) (capacity : ℕ) (events : List CacheEvent) (last : CacheState) → CacheCalls (opened client kind capacity) events last → Remembers kind capacity events last }
{}

/// What a look answers.
fn look_of(known: Option<Item>) -> Look
    ensures { result ≡ look_of known }
{
    match known {
        Some(item) => Look::Here(item),
        None => Look::Pending,
    }
}

/// So many places without an item.
fn no_items(alloc: Global, places: u16) -> Result<Vec<Option<Item>>, AllocError>
    ensures { IfOk result (λ known. known.items ≡ replicate places None) }
{
    let mut known = Vec::with_capacity(alloc, places as usize)?;
    for _ in 0..places {
        known.push(None)?;
    }
    Ok(known)
}

/// Forgets each item.
fn clear(known: &mut Vec<Option<Item>>)
    ensures { known.new.items ≡ replicate (length known.old.items) None }
{
    for place in 0..known.len() {
        known[place] = None;
    }
}

/// Moves the places' beginning from one seq to another.
fn slide(known: &mut Vec<Option<Item>>, from: u16, to: u16)
    requires { length known.old.items < 2 ^ 16 }
    ensures length { length known.new.items ≡ length known.old.items }
    ensures places { (k : ℕ) → k < length known.old.items → slice_index_or known.new.items k None ≡ (if nat_le from (to + k) then slice_index_or known.old.items (to + k - from) None else None) }
{
    if from <= to {
        pull_down(known, (to - from) as usize);
    } else {
        push_up(known, (from - to) as usize);
    }
}

/// Each place has then what stood so many places above it, and nothing where no place was.
fn pull_down(known: &mut Vec<Option<Item>>, by: usize)
    requires places { length known.old.items < 2 ^ 16 }
    requires by { by < 2 ^ 16 }
    ensures length { length known.new.items ≡ length known.old.items }
    ensures places { (k : ℕ) → k < length known.old.items → slice_index_or known.new.items k None ≡ slice_index_or known.old.items (k + by) None }
{
    for place in 0..known.len() {
        known[place] = above(known, place, by);
    }
}

/// Each place has then what stood so many places below it, and nothing where no place was.
fn push_up(known: &mut Vec<Option<Item>>, by: usize)
    ensures length { length known.new.items ≡ length known.old.items }
    ensures places { (k : ℕ) → k < length known.old.items → slice_index_or known.new.items k None ≡ (if nat_le by k then slice_index_or known.old.items (k - by) None else None) }
{
    let places = known.len();
    for done in 0..places {
        let place = places - 1 - done;
        known[place] = below(known, place, by);
    }
}

/// What stands so many places above one, if anything.
fn above(known: &Vec<Option<Item>>, place: usize, by: usize) -> Option<Item>
    requires place { place < 2 ^ 16 }
    requires by { by < 2 ^ 16 }
    ensures { result ≡ slice_index_or known.now.items (place + by) None }
{
    if place + by < known.len() {
        known[place + by]
    } else {
        None
    }
}

/// What stands so many places below one, if anything.
fn below(known: &Vec<Option<Item>>, place: usize, by: usize) -> Option<Item>
    requires { place < length known.now.items }
    ensures { result ≡ (if nat_le by place then slice_index_or known.now.items (place - by) None else None) }
{
    if by <= place { known[place - by] } else { None }
}
