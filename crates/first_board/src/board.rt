//! The board: one queue of requests, the one in service, and the replies of each client. All queues are made
//! in `new` with room for all that the limits let in, so that no later call takes memory.

ghost use Rattle.std.specs.Prelude.{◌≡◌, ℕ, List, ◌+◌, ◌<◌, ◌≤◌, [], ◌∷◌, ◌++◌, length, Some, None, replicate, IsErr, OnOk, OnErr, IfOk, IfNone, IfSome, ◌↔◌};
ghost use Rattle.first_model.specs.declared.limits.TheConstants.{MAX_LINKS, MAX_WATCHERS};
ghost use Rattle.first_model.specs.declared.request.Client.{Client};
ghost use Rattle.first_model.specs.declared.plan.PlanHead.{PlanHead};
ghost use Rattle.first_board.specs.BoardState.{BoardState, HasClient, posted, outstanding, limit, asks_of, IsAmong, ClientsStay, PostedStays, OutstandingStays, OthersStay, IsQuiet};
ghost use Rattle.first_board.specs.BoardCalls.{opened, asked, taken, answered, heard, index_kept, in_service, asked_of, place_of, heads_after};
ghost use Rattle.first_board.specs.BoardLaw.{Event, Posts, Keeps, Call, Calls, ask_event, take_event, reply_event, InOrder};

use crate::replies::Replies;
use circular_buffer::HeapCircularBuffer;
use first_model::limits::{LINK_ROOM, NAV_ROOM, WATCH_ROOM};
use first_model::{Asked, Client, PlanHead, PlanType, Reply, Request};
use std::alloc::{AllocError, Global};
use std::marker::Model;

/// The client has as many requests outstanding as it may have.
#[derive(Clone, Copy, Debug, PartialEq, Eq)]
pub struct Full;

/// The meeting place of clients and worker.
#[derive(Drop)]
pub struct Board {
    waiting: HeapCircularBuffer<(Client, Request)>,
    service: Option<(Client, Request)>,
    nav: Replies,
    links: Vec<Replies>,
    watchers: Vec<Replies>,
    heads: [PlanHead; 3],
    index: Option<(u32, u16)>,
}

impl Model for Board {
    ghost use Rattle.first_model.specs.declared.request.Client.{Client};
    ghost use Rattle.first_board.specs.BoardState.{BoardState};

    ghost Value = { BoardState };

    ghost use Rattle.first_board.specs.Kept.{view_of, Kept};

    ghost view = { view_of };

    ghost invariant = { Kept };
}

impl Board {
    /// A board for the Navigator, so many links and so many watchers, with the heads of mission, fence and
    /// safe points that are in force.
    pub fn new(
        alloc: Global,
        links: u8,
        watchers: u8,
        heads: [PlanHead; 3],
    ) -> Result<Board, AllocError>
        requires links { links ≤ MAX_LINKS }
        requires watchers { watchers ≤ MAX_WATCHERS }
        ensures opened { IfOk result (λ board. board ≡ opened links watchers heads) }
        ensures clients { IfOk result (λ board. (client : Client) → IsAmong links watchers client → HasClient board client) }
        ensures quiet { IfOk result (λ board. IsQuiet board) }
    {
        let room = NAV_ROOM as usize
            + links as usize * LINK_ROOM as usize
            + watchers as usize * WATCH_ROOM as usize;
        Ok(Board {
            waiting: HeapCircularBuffer::with_capacity(alloc, room)?,
            service: None,
            nav: Replies::new(alloc)?,
            links: empty_replies(alloc, links)?,
            watchers: empty_replies(alloc, watchers)?,
            heads,
            index: None,
        })
    }

    /// The heads of the mission, the fence and the safe points that were committed last.
    pub fn published(&self) -> [PlanHead; 3]
        ensures { result ≡ self.now.published }
    {
        self.heads
    }

    /// How many more requests the client may ask now.
    pub fn room(&self, client: Client) -> u8
        requires { HasClient self.now client }
        ensures { result + outstanding self.now client ≡ limit client }
    {
        limit_of(client) - self.outstanding(client)
    }

    /// Asks. The request waits behind all others.
    pub fn ask(&mut self, client: Client, request: Request) -> Result<(), Full>
        requires { HasClient self.old client }
        ensures full { IsErr result ↔ (limit client ≤ outstanding self.old client) }
        ensures ok { OnOk result (self.new ≡ asked self.old client request) }
        ensures one_more { OnOk result (outstanding self.new client ≡ outstanding self.old client + 1) }
        ensures posted { PostedStays self.old self.new }
        ensures others { OthersStay client self.old self.new }
        ensures clients { ClientsStay self.old self.new }
        ensures err { OnErr result (self.new ≡ self.old) }
        ensures call { Call self.old (ask_event client request result) self.new }
    {
        if self.room(client) == 0 {
            return Err(Full);
        }
        if self.waiting.try_push_back((client, request)).is_err() {
            return Err(Full);
        }
        Ok(())
    }

    /// Takes the first request that waits. It is in service until its `post`.
    pub fn take_next(&mut self) -> Option<(Client, Request)>
        requires { self.old.service ≡ None }
        ensures none { IfNone result ((self.old.waiting ≡ []) × (self.new ≡ self.old)) }
        ensures some { IfSome result (λ first. (self.old.waiting ≡ first ∷ self.new.waiting) × (self.new ≡ taken self.old first self.new.waiting)) }
        ensures client { IfSome result (λ first. HasClient self.old first.0) }
        ensures call { Call self.old (take_event result) self.new }
        ensures posted { PostedStays self.old self.new }
        ensures counts { OutstandingStays self.old self.new }
        ensures clients { ClientsStay self.old self.new }
    {
        let first = self.waiting.pop_front()?;
        self.service = Some(first);
        Some(first)
    }

    /// Replies to the request in service. A commit that is done replaces the published head of its type.
    pub fn post(&mut self, client: Client, asked: Asked, reply: Reply)
        requires { in_service self.old.service ≡ Some (client, asked) }
        ensures posts { self.new ≡ answered self.old client asked reply }
        ensures call { Call self.old (Posts client asked reply) self.new }
        ensures own { posted self.new client ≡ posted self.old client ++ (asked, reply) ∷ [] }
        ensures others { OthersStay client self.old self.new }
        ensures counts { OutstandingStays self.old self.new }
        ensures clients { ClientsStay self.old self.new }
    {
        self.service = None;
        self.heads = heads_after(self.heads, asked, reply);
        match client {
            Client::Nav => self.nav.push(asked, reply),
            Client::Link(number) => self.links[number as usize].push(asked, reply),
            Client::Watch(number) => self.watchers[number as usize].push(asked, reply),
        }
    }

    /// The client takes the first reply that is posted to it.
    pub fn take_reply(&mut self, client: Client) -> Option<(Asked, Reply)>
        requires { HasClient self.old client }
        ensures none { IfNone result ((posted self.old client ≡ []) × (self.new ≡ self.old)) }
        ensures some { IfSome result (λ first. (posted self.old client ≡ first ∷ posted self.new client) × (self.new ≡ heard self.old client (posted self.new client))) }
        ensures call { Call self.old (reply_event client result) self.new }
        ensures one_less { IfSome result (λ first. outstanding self.new client + 1 ≡ outstanding self.old client) }
        ensures others { OthersStay client self.old self.new }
        ensures clients { ClientsStay self.old self.new }
    {
        match client {
            Client::Nav => self.nav.take_first(),
            Client::Link(number) => self.links[number as usize].take_first(),
            Client::Watch(number) => self.watchers[number as usize].take_first(),
        }
    }

    /// Keeps the index that a link asked the Navigator to make current, in the place of an earlier one.
    pub fn ask_index(&mut self, id: u32, seq: u16)
        ensures keeps { self.new ≡ index_kept self.old id seq }
        ensures call { Call self.old (Keeps (Some (id, seq))) self.new }
    {
        self.index = Some((id, seq));
    }

    /// Takes the kept index away.
    pub fn take_index(&mut self) -> Option<(u32, u16)>
        ensures kept { result ≡ self.old.index }
        ensures call { Call self.old (Keeps None) self.new }
        ensures away { self.new ≡ record self.old { index = None } }
    {
        self.index.take()
    }

    /// The number of the client's requests whose reply it has not taken.
    fn outstanding(&self, client: Client) -> u8
        requires { HasClient self.now client }
        ensures count { result ≡ outstanding self.now client }
        ensures within { result ≤ limit client }
    {
        let served = match self.service {
            Some((other, _)) if other == client => 1,
            _ => 0,
        };
        let posted = match client {
            Client::Nav => self.nav.len(),
            Client::Link(number) => self.links[number as usize].len(),
            Client::Watch(number) => self.watchers[number as usize].len(),
        };
        (waiting_of(&self.waiting, client) + served + posted) as u8
    }
}

/// Whatever calls are made on a new board, and in whatever order: the first asked is the first taken, each client
/// has its replies in the order of its requests, and no client is above its limit.
pub fn requests_in_order()
    ensures { (links watchers : ℕ) (heads : List PlanHead) (events : List Event) (last : BoardState) → length heads ≡ 3 → Calls (opened links watchers heads) events last → InOrder links watchers heads events last }
{}

/// A request without the item that it writes.
pub fn asked_of(request: &Request) -> Asked
    ensures { result ≡ asked_of request.now }
{
    match *request {
        Request::Read { kind, id, seq } => Asked::Read { kind, id, seq },
        Request::Write { kind, id, seq, .. } => Asked::Write { kind, id, seq },
        Request::Commit { kind, id, count } => Asked::Commit { kind, id, count },
        Request::SetMark(mark) => Asked::SetMark(mark),
    }
}

fn limit_of(client: Client) -> u8
    ensures { result ≡ limit client }
{
    match client {
        Client::Nav => NAV_ROOM,
        Client::Link(_) => LINK_ROOM,
        Client::Watch(_) => WATCH_ROOM,
    }
}

fn place_of(kind: PlanType) -> usize
    ensures place { result ≡ place_of kind }
    ensures within { result < 3 }
{
    match kind {
        PlanType::Mission => 0,
        PlanType::Fence => 1,
        PlanType::Safe => 2,
    }
}

/// The heads after a reply.
fn heads_after(mut heads: [PlanHead; 3], asked: Asked, reply: Reply) -> [PlanHead; 3]
    ensures { result ≡ heads_after heads asked reply }
{
    if let (Asked::Commit { kind, id, count }, Reply::Done) = (asked, reply) {
        heads[place_of(kind)] = PlanHead { id, count };
    }
    heads
}

/// How many of the requests that wait are the client's.
fn waiting_of(waiting: &HeapCircularBuffer<(Client, Request)>, client: Client) -> usize
    ensures { result ≡ asks_of client waiting.now.items }
{
    let mut count = 0;
    for ask in waiting {
        if ask.0 == client {
            count += 1;
        }
    }
    count
}

fn empty_replies(alloc: Global, clients: u8) -> Result<Vec<Replies>, AllocError>
    ensures { IfOk result (λ replies. replies.items ≡ replicate clients []) }
{
    let mut all = Vec::with_capacity(alloc, clients as usize)?;
    for _ in 0..clients {
        all.push(Replies::new(alloc)?)?;
    }
    Ok(all)
}
