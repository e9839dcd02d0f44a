//! The board: one queue of requests, the one in service, and the replies of each client. All queues are made
//! in `new` with room for all that the limits let in, so that no later call takes memory.

ghost use Rattle.std.specs.Prelude.{◌≡◌, ◌≢◌, IsTrue, ℕ, List, ◌+◌, ◌<◌, ◌≤◌, [], ◌∷◌, ◌++◌, length, Some, None, replicate, IsErr, OnOk, OnErr, IfOk, IfNone, IfSome, ◌↔◌};
ghost use Rattle.mission_model.specs.declared.limits.TheConstants.{MAX_LINKS, MAX_WATCHERS};
ghost use Rattle.mission_model.specs.declared.request.Client.{Client};
ghost use Rattle.mission_model.specs.declared.plan.PlanHead.{PlanHead};
ghost use Rattle.mission_model.specs.Shown.{asked_of};
ghost use Rattle.request_board.specs.Asks.{in_service};
ghost use Rattle.request_board.specs.BoardState.{BoardState, HasClient, posted, open_asks, outstanding, limit, IsAmong, OpenStays};
ghost use Rattle.request_board.specs.BoardCalls.{opened, asked, taken, answered, heard, index_kept, heads_after};
ghost use Rattle.request_board.specs.BoardLaw.{Event, Posts, Keeps, Call, Calls, ask_event, take_event, reply_event, InOrder};
ghost use Rattle.request_board.specs.Kept.{seat_of};

use crate::replies::Replies;
use circular_buffer::HeapCircularBuffer;
use mission_model::limits::{LINK_ROOM, MAX_LINKS, MAX_WATCHERS, NAV_ROOM, WATCH_ROOM};
use mission_model::{Asked, Client, PlanHead, Reply, Request};
use std::alloc::{AllocError, Global};
use std::marker::Model;

/// How many clients a board may have: the Navigator, the links and the watchers.
pub const SEATS: usize = 1 + MAX_LINKS as usize + MAX_WATCHERS as usize;

/// The client has as many requests outstanding as it may have.
#[derive(Clone, Copy, Debug, PartialEq, Eq)]
pub struct Full;

/// The meeting place of clients and worker.
#[derive(Drop)]
pub struct Board {
    waiting: HeapCircularBuffer<(Client, Request)>,
    service: Option<(Client, Request)>,
    nav: Replies,
    links: Vec<Replies>,
    watchers: Vec<Replies>,
    /// How many requests each client has outstanding, by its seat.
    counts: [u8; SEATS],
    heads: [PlanHead; 3],
    index: Option<(u32, u16)>,
}

impl Model for Board {
    ghost use Rattle.mission_model.specs.declared.request.Client.{Client};
    ghost use Rattle.request_board.specs.BoardState.{BoardState};

    ghost Value = { BoardState };

    ghost use Rattle.request_board.specs.Kept.{view_of, Kept};

    ghost view = { view_of };

    ghost invariant = { Kept };
}

impl Board {
    /// A board for the Navigator, so many links and so many watchers, with the heads of mission, fence and
    /// safe points that are in force.
    pub fn new(
        alloc: Global,
        links: u8,
        watchers: u8,
        heads: [PlanHead; 3],
    ) -> Result<Board, AllocError>
        requires links { links ≤ MAX_LINKS }
        requires watchers { watchers ≤ MAX_WATCHERS }
        ensures { IfOk result (λ board. board ≡ opened links watchers heads) }
    {
        let room = NAV_ROOM as usize
            + links as usize * LINK_ROOM as usize
            + watchers as usize * WATCH_ROOM as usize;
        Ok(Board {
            waiting: HeapCircularBuffer::with_capacity(alloc, room)?,
            service: None,
            nav: Replies::new(alloc)?,
            links: empty_replies(alloc, links)?,
            watchers: empty_replies(alloc, watchers)?,
            counts: [0; SEATS],
            heads,
            index: None,
        })
    }

    /// The heads of the mission, the fence and the safe points that were committed last.
    pub fn published(&self) -> [PlanHead; 3]
        ensures { result ≡ self.now.published }
    {
        self.heads
    }

    /// How many more requests the client may ask now: its limit less its outstanding requests.
    pub fn room(&self, client: Client) -> u8
        requires { HasClient self.now client }
        ensures { result + outstanding self.now client ≡ limit client }
    {
        let counts = &self.counts;
        limit_of(client) - counts[seat_of(client)]
    }

    /// Asks. The request waits behind all others.
    pub fn ask(&mut self, client: Client, request: Request) -> Result<(), Full>
        requires { HasClient self.old client }
        ensures full { IsErr result ↔ (limit client ≤ outstanding self.old client) }
        ensures ok { OnOk result (self.new ≡ asked self.old client request) }
        ensures asks { OnOk result (open_asks self.new client ≡ open_asks self.old client ++ asked_of request ∷ []) }
        ensures err { OnErr result (self.new ≡ self.old) }
        ensures call { Call self.old (ask_event client request result) self.new }
    {
        if self.room(client) == 0 {
            return Err(Full);
        }
        if self.waiting.try_push_back((client, request)).is_err() {
            return Err(Full);
        }
        self.counts[seat_of(client)] += 1;
        Ok(())
    }

    /// Takes the first request that waits. It is in service until its `post`.
    pub fn take_next(&mut self) -> Option<(Client, Request)>
        requires { self.old.service ≡ None }
        ensures none { IfNone result ((self.old.waiting ≡ []) × (self.new ≡ self.old)) }
        ensures some { IfSome result (λ first. (self.old.waiting ≡ first ∷ self.new.waiting) × (self.new ≡ taken self.old first self.new.waiting)) }
        ensures client { IfSome result (λ first. HasClient self.old first.0) }
        ensures asks { OpenStays self.old self.new }
        ensures call { Call self.old (take_event result) self.new }
    {
        let first = self.waiting.pop_front()?;
        self.service = Some(first);
        Some(first)
    }

    /// Replies to the request in service. A commit that is done replaces the published head of its type.
    pub fn post(&mut self, client: Client, asked: Asked, reply: Reply)
        requires { in_service self.old.service ≡ Some (client, asked) }
        ensures posts { self.new ≡ answered self.old client asked reply }
        ensures client { HasClient self.old client }
        ensures asks { OpenStays self.old self.new }
        ensures call { Call self.old (Posts client asked reply) self.new }
    {
        self.service = None;
        self.heads = heads_after(self.heads, asked, reply);
        match client {
            Client::Nav => self.nav.push(asked, reply),
            Client::Link(number) => self.links[number as usize].push(asked, reply),
            Client::Watch(number) => self.watchers[number as usize].push(asked, reply),
        }
    }

    /// The client takes the first reply that is posted to it.
    pub fn take_reply(&mut self, client: Client) -> Option<(Asked, Reply)>
        requires { HasClient self.old client }
        ensures none { IfNone result ((posted self.old client ≡ []) × (self.new ≡ self.old)) }
        ensures some { IfSome result (λ first. (posted self.old client ≡ first ∷ posted self.new client) × (self.new ≡ heard self.old client (posted self.new client))) }
        ensures asks { IfSome result (λ first. open_asks self.old client ≡ first.0 ∷ open_asks self.new client) }
        ensures call { Call self.old (reply_event client result) self.new }
    {
        let first = match client {
            Client::Nav => self.nav.take_first(),
            Client::Link(number) => self.links[number as usize].take_first(),
            Client::Watch(number) => self.watchers[number as usize].take_first(),
        }?;
        self.counts[seat_of(client)] -= 1;
        Some(first)
    }

    /// Whether a request waits.
    pub fn has_waiting(&self) -> bool
        ensures { IsTrue result ↔ (self.now.waiting ≢ []) }
    {
        !self.waiting.is_empty()
    }

    /// Whether a reply is posted to the client.
    pub fn has_reply(&self, client: Client) -> bool
        requires { HasClient self.now client }
        ensures { IsTrue result ↔ (posted self.now client ≢ []) }
    {
        match client {
            Client::Nav => self.nav.has_some(),
            Client::Link(number) => self.links[number as usize].has_some(),
            Client::Watch(number) => self.watchers[number as usize].has_some(),
        }
    }

    /// Keeps the index that a link asked the Navigator to make current, in the place of an earlier one.
    pub fn ask_index(&mut self, id: u32, seq: u16)
        ensures keeps { self.new ≡ index_kept self.old id seq }
        ensures call { Call self.old (Keeps (Some (id, seq))) self.new }
    {
        self.index = Some((id, seq));
    }

    /// Takes the kept index away.
    pub fn take_index(&mut self) -> Option<(u32, u16)>
        ensures kept { result ≡ self.old.index }
        ensures away { self.new ≡ record self.old { index = None } }
        ensures call { Call self.old (Keeps None) self.new }
    {
        self.index.take()
    }
}

/// Whatever calls are made on a new board, and in whatever order: the first asked is the first taken, each client
/// has its replies in the order of its requests, and no client is above its limit.
pub fn requests_in_order()
    ensures { (links watchers : ℕ) (heads : List PlanHead) (events : List Event) (last : BoardState) → length heads ≡ 3 → Calls (opened links watchers heads) events last → InOrder links watchers heads events last }
{}

/// The most requests that the client may have outstanding.
fn limit_of(client: Client) -> u8
    ensures { result ≡ limit client }
{
    match client {
        Client::Nav => NAV_ROOM,
        Client::Link(_) => LINK_ROOM,
        Client::Watch(_) => WATCH_ROOM,
    }
}

/// The client's place among the counts of outstanding requests.
fn seat_of(client: Client) -> usize
    requires { IsAmong MAX_LINKS MAX_WATCHERS client }
    ensures seat { result ≡ seat_of client }
    ensures within { result < SEATS }
{
    match client {
        Client::Nav => 0,
        Client::Link(number) => 1 + number as usize,
        Client::Watch(number) => 1 + MAX_LINKS as usize + number as usize,
    }
}

/// The heads after a reply.
fn heads_after(mut heads: [PlanHead; 3], asked: Asked, reply: Reply) -> [PlanHead; 3]
    ensures { result ≡ heads_after heads asked reply }
{
    if let (Asked::Commit { kind, id, count }, Reply::Done) = (asked, reply) {
        heads[kind.place()] = PlanHead { id, count };
    }
    heads
}

fn empty_replies(alloc: Global, clients: u8) -> Result<Vec<Replies>, AllocError>
    ensures { IfOk result (λ replies. replies.items ≡ replicate clients []) }
{
    let mut all = Vec::with_capacity(alloc, clients as usize)?;
    for _ in 0..clients {
        all.push(Replies::new(alloc)?)?;
    }
    Ok(all)
}
