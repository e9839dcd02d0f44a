//! A list of items with room for a fence or for safe points. It takes no memory.

ghost use Rattle.std.specs.Prelude.{◌≡◌, ◌<◌, [], ◌∷◌, ◌++◌, length};

use mission_model::limits::MAX_FENCE_VERTICES;
use mission_model::{Item, Param};
use std::marker::Model;

/// How many items there is room for.
pub const ROOM: usize = MAX_FENCE_VERTICES as usize;

/// An item that stands for none.
const NO_ITEM: Item = Item {
    frame: 0,
    command: 0,
    p1: Param::Unset,
    p2: Param::Unset,
    p3: Param::Unset,
    p4: Param::Unset,
    x: 0,
    y: 0,
    z: 0,
    auto: false,
};

/// The items, one behind another.
#[derive(Drop)]
pub struct ItemList {
    items: [Item; ROOM],
    len: usize,
}

impl Model for ItemList {
    ghost use Rattle.std.specs.Prelude.{◌≤◌, List, take};
    ghost use Rattle.mission_model.specs.declared.plan.Item.{Item};
    ghost use Rattle.navigator.specs.declared.item_list.TheConstants.{ROOM};

    ghost Value = { List Item };

    ghost view = { λ a. take a.len a.items };

    ghost invariant = { λ a. a.len ≤ ROOM };
}

impl ItemList {
    /// The empty list.
    pub fn new() -> ItemList
        ensures { result ≡ [] }
    {
        ItemList {
            items: [NO_ITEM; ROOM],
            len: 0,
        }
    }

    /// Puts an item behind the others.
    pub fn push(&mut self, item: &Item)
        requires { length self.old < ROOM }
        ensures { self.new ≡ self.old ++ item.now ∷ [] }
    {
        self.items[self.len] = *item;
        self.len += 1;
    }

    /// Takes all items out.
    pub fn clear(&mut self)
        ensures { self.new ≡ [] }
    {
        self.len = 0;
    }

    /// The items.
    pub fn as_slice(&self) -> &[Item]
        ensures { result.now ≡ self.now }
    {
        &self.items[..self.len]
    }
}
