//! A vertex as a fence keeps it: the plan's item, with a blank for the unused places of a bounded list.

ghost use Rattle.std.specs.Prelude.{◌≡◌, ◌==◌};

use mission_model::command::{
    NAV_FENCE_POLYGON_VERTEX_EXCLUSION, NAV_FENCE_POLYGON_VERTEX_INCLUSION,
};
use mission_model::{Item, Param};
use std::marker::Model;

/// A vertex, seen as its item.
#[derive(Clone, Copy)]
pub struct Vertex {
    item: Item,
}

impl Model for Vertex {
    ghost use Rattle.mission_model.specs.declared.plan.Item.{Item};

    ghost Value = { Item };

    ghost view = { λ vertex. vertex.item };

    ghost inverse = { λ item. record { item = item } };
}

impl Vertex {
    pub fn new(item: &Item) -> Vertex
        ensures { result ≡ item.now }
    {
        Vertex { item: *item }
    }

    /// Latitude in 1e-7 degree.
    pub fn x(&self) -> i32
        ensures { result ≡ self.now.x }
    {
        self.item.x
    }

    /// Longitude in 1e-7 degree.
    pub fn y(&self) -> i32
        ensures { result ≡ self.now.y }
    {
        self.item.y
    }

    pub fn is_inclusion(&self) -> bool
        ensures { result ≡ (self.now.command == NAV_FENCE_POLYGON_VERTEX_INCLUSION) }
    {
        self.item.command == NAV_FENCE_POLYGON_VERTEX_INCLUSION
    }

    pub fn is_exclusion(&self) -> bool
        ensures { result ≡ (self.now.command == NAV_FENCE_POLYGON_VERTEX_EXCLUSION) }
    {
        self.item.command == NAV_FENCE_POLYGON_VERTEX_EXCLUSION
    }

    /// The item that it is seen as.
    pub fn item(&self) -> &Item
        ensures { result.now ≡ self.now }
    {
        &self.item
    }
}

impl Default for Vertex {
    fn default() -> Vertex {
        Vertex {
            item: Item {
                frame: 0,
                command: 0,
                p1: Param::Unset,
                p2: Param::Unset,
                p3: Param::Unset,
                p4: Param::Unset,
                x: 0,
                y: 0,
                z: 0,
                auto: false,
            },
        }
    }
}
