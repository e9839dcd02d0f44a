//! A script: parameters, plans and boots, each boot with its cut, its inputs and its stated turns.

ghost use Rattle.std.specs.Prelude.{◌≡◌};

use crate::flight_line::Actor;
use crate::message::Message;
use crate::plan::{Home, Item, Params, PlanType};
use crate::vehicle::VehicleLine;
use crate::watch::WatchInput;
use std::marker::Model;

/// What a cut leaves of the bytes that are not synced.
#[derive(Clone, Copy, Debug, PartialEq, Eq)]
pub enum TearKind {
    /// Their old values.
    Old,
    /// Their written values.
    New,
    /// The first bytes of the write being cut.
    Front,
    /// A byte everywhere.
    Fill,
}

/// A power cut: inside which read or changing call of the boot, from 1, and what it leaves.
/// `arg` is the number of bytes of `Front`, the byte of `Fill`, and 0 else.
#[derive(Clone, Copy, Debug, PartialEq, Eq)]
pub struct CutSpec {
    pub read: bool,
    pub call: u32,
    pub tear: TearKind,
    pub arg: u16,
}

/// The bytes of a plan's name.
#[derive(Drop)]
pub struct Name {
    list: Vec<u8>,
}

impl Model for Name {
    ghost use Rattle.std.specs.Prelude.{List, ℕ};

    ghost Value = { List ℕ };

    ghost view = { λ a. a.list.items };
}

impl Name {
    pub fn from_vec(list: Vec<u8>) -> Name
        ensures { result ≡ list.items }
    {
        Name { list }
    }

    pub fn as_slice(&self) -> &[u8]
        ensures { result.now ≡ self.now }
    {
        &self.list
    }

    pub fn into_vec(self) -> Vec<u8>
        ensures { result.items ≡ self }
    {
        self.list
    }
}

/// The items of a plan.
#[derive(Drop)]
pub struct Items {
    list: Vec<Item>,
}

impl Model for Items {
    ghost use Rattle.std.specs.Prelude.{List};
    ghost use Rattle.first_model.specs.declared.plan.Item.{Item};

    ghost Value = { List Item };

    ghost view = { λ a. a.list.items };
}

impl Items {
    pub fn from_vec(list: Vec<Item>) -> Items
        ensures { result ≡ list.items }
    {
        Items { list }
    }

    pub fn as_slice(&self) -> &[Item]
        ensures { result.now ≡ self.now }
    {
        &self.list
    }

    pub fn into_vec(self) -> Vec<Item>
        ensures { result.items ≡ self }
    {
        self.list
    }
}

/// An input of an actor's schedule.
#[derive(Drop)]
pub enum InputLine {
    /// One message of a link.
    Message(Message),
    /// A whole upload: Count, then each item that is requested, until an Ack.
    Upload { kind: PlanType, items: Items },
    /// Waits until nothing of its own is outstanding.
    Wait,
    /// Comes to a meeting place, and goes on once so many came there in this boot.
    Meet { place: u8, count: u8 },
    /// An event of the vehicle.
    Vehicle(VehicleLine),
    /// An input of a watcher.
    Watch(WatchInput),
}

/// The inputs of a boot, each with its actor, in the order of the script.
#[derive(Drop)]
pub struct Inputs {
    list: Vec<(Actor, InputLine)>,
}

impl Model for Inputs {
    ghost use Rattle.std.specs.Prelude.{List};
    ghost use Rattle.first_model.specs.declared.flight_line.Actor.{Actor};
    ghost use Rattle.first_model.specs.declared.schedule.InputLine.{InputLine};

    ghost Value = { List (Actor × InputLine) };

    ghost view = { λ a. a.list.items };
}

impl Inputs {
    pub fn from_vec(list: Vec<(Actor, InputLine)>) -> Inputs
        ensures { result ≡ list.items }
    {
        Inputs { list }
    }

    pub fn as_slice(&self) -> &[(Actor, InputLine)]
        ensures { result.now ≡ self.now }
    {
        &self.list
    }

    pub fn into_vec(self) -> Vec<(Actor, InputLine)>
        ensures { result.items ≡ self }
    {
        self.list
    }
}

/// The stated interleaving of a boot.
#[derive(Drop)]
pub struct Turns {
    list: Vec<Actor>,
}

impl Model for Turns {
    ghost use Rattle.std.specs.Prelude.{List};
    ghost use Rattle.first_model.specs.declared.flight_line.Actor.{Actor};

    ghost Value = { List Actor };

    ghost view = { λ a. a.list.items };
}

impl Turns {
    pub fn from_vec(list: Vec<Actor>) -> Turns
        ensures { result ≡ list.items }
    {
        Turns { list }
    }

    pub fn as_slice(&self) -> &[Actor]
        ensures { result.now ≡ self.now }
    {
        &self.list
    }

    pub fn into_vec(self) -> Vec<Actor>
        ensures { result.items ≡ self }
    {
        self.list
    }
}

/// A plan of the script.
#[derive(Drop)]
pub struct NamedPlan {
    pub name: Name,
    pub kind: PlanType,
    pub items: Items,
}

/// The plans of a script, in its order.
#[derive(Drop)]
pub struct Plans {
    list: Vec<NamedPlan>,
}

impl Model for Plans {
    ghost use Rattle.std.specs.Prelude.{List};
    ghost use Rattle.first_model.specs.declared.schedule.NamedPlan.{NamedPlan};

    ghost Value = { List NamedPlan };

    ghost view = { λ a. a.list.items };
}

impl Plans {
    pub fn from_vec(list: Vec<NamedPlan>) -> Plans
        ensures { result ≡ list.items }
    {
        Plans { list }
    }

    pub fn as_slice(&self) -> &[NamedPlan]
        ensures { result.now ≡ self.now }
    {
        &self.list
    }

    pub fn into_vec(self) -> Vec<NamedPlan>
        ensures { result.items ≡ self }
    {
        self.list
    }
}

/// One boot of a script. `params`, `home`, `links` and `watchers` are the same in all boots of a script.
#[derive(Drop)]
pub struct BootScript {
    pub cut: Option<CutSpec>,
    pub inputs: Inputs,
    pub turns: Turns,
    pub params: Params,
    pub home: Option<Home>,
    pub links: u8,
    pub watchers: u8,
}

/// The boots of a script, in its order.
#[derive(Drop)]
pub struct Boots {
    list: Vec<BootScript>,
}

impl Model for Boots {
    ghost use Rattle.std.specs.Prelude.{List};
    ghost use Rattle.first_model.specs.declared.schedule.BootScript.{BootScript};

    ghost Value = { List BootScript };

    ghost view = { λ a. a.list.items };
}

impl Boots {
    pub fn from_vec(list: Vec<BootScript>) -> Boots
        ensures { result ≡ list.items }
    {
        Boots { list }
    }

    pub fn as_slice(&self) -> &[BootScript]
        ensures { result.now ≡ self.now }
    {
        &self.list
    }

    pub fn into_vec(self) -> Vec<BootScript>
        ensures { result.items ≡ self }
    {
        self.list
    }
}

/// A whole script.
#[derive(Drop)]
pub struct Script {
    pub params: Params,
    pub home: Option<Home>,
    pub plans: Plans,
    pub boots: Boots,
}
