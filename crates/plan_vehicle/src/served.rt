//! Of each link the request that was served last, with its reply.

ghost use Rattle.std.specs.Prelude.{◌≡◌, ◌++◌, ◌∷◌, [], ◌==◌, IfOk};
ghost use Rattle.std.specs.List.{position};
ghost use Rattle.std.specs.Option.{option_map};
ghost use Rattle.plan_vehicle.specs.Requests.{with_served, last_served, is_of_link, reply_of};

use mission_model::{Asked, Client, Reply};
use std::alloc::{AllocError, Global};
use std::marker::Model;

/// A link's request that was served last.
#[derive(Drop)]
struct Last {
    link: u8,
    asked: Asked,
    reply: Reply,
}

impl Model for Last {
    ghost use Rattle.plan_vehicle.specs.VehicleState.{ServedState};

    ghost Value = { ServedState };

    ghost view = { λ a. record { link = a.link; asked = a.asked; reply = a.reply } };
}

impl Last {
    /// Whether it is this link's.
    fn is_of(&self, link: u8) -> bool
        ensures { result ≡ is_of_link link self.now }
    {
        self.link == link
    }

    /// The request and its reply.
    fn reply(&self) -> (Asked, Reply)
        ensures { result ≡ reply_of self.now }
    {
        (self.asked, self.reply)
    }
}

/// The last served requests of all links.
#[derive(Drop)]
pub struct Served {
    links: Vec<Last>,
}

impl Model for Served {
    ghost use Rattle.std.specs.Prelude.{List};
    ghost use Rattle.plan_vehicle.specs.VehicleState.{ServedState};

    ghost Value = { List ServedState };

    ghost view = { λ a. a.links.items };
}

impl Served {
    /// No link's request was served.
    pub fn new(alloc: Global) -> Served
        ensures { result ≡ [] }
    {
        Served {
            links: Vec::new(alloc),
        }
    }

    /// The link's request that was served last, and its reply.
    pub fn last(&self, link: u8) -> Option<(Asked, Reply)>
        ensures { result ≡ option_map reply_of (last_served self.now link) }
    {
        let at = self.place(link)?;
        Some(self.links[at].reply())
    }

    /// A request was served; only those of links are kept.
    pub fn put(&mut self, client: Client, asked: Asked, reply: Reply) -> Result<(), AllocError>
        ensures { IfOk result (λ _. self.new ≡ with_served self.old client asked reply) }
    {
        let Client::Link(link) = client else {
            return Ok(());
        };
        let last = Last { link, asked, reply };
        match self.place(link) {
            Some(at) => self.links[at] = last,
            None => self.links.push(last)?,
        }
        Ok(())
    }

    /// The place of the link's request.
    fn place(&self, link: u8) -> Option<usize>
        ensures { result ≡ position (is_of_link link) self.now }
    {
        self.links.iter().position(|last| last.is_of(link))
    }
}
