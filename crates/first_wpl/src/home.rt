//! Ground stations write the home as the first row of a mission; a vehicle's plan begins behind it.

ghost use Rattle.std.specs.Prelude.{◌≡◌, map};
ghost use Rattle.first_wpl.specs.Home.{one_less, retargeted, without_home};

use first_model::command::DO_JUMP;
use first_model::{Item, Param};

/// One row, as a jump's target tells it.
const ONE_ROW: i32 = 1000;

fn less_one_row(target: Param) -> Param
    ensures { result ≡ one_less target }
{
    match target {
        Param::Milli(row) => {
            if row >= 0 {
                Param::Milli(row - ONE_ROW)
            } else {
                target
            }
        }
        Param::Unset => target,
    }
}

fn retarget(item: Item) -> Item
    ensures { result ≡ retargeted item }
{
    if item.command == DO_JUMP {
        Item {
            p1: less_one_row(item.p1),
            ..item
        }
    } else {
        item
    }
}

fn retarget_all(items: &mut Vec<Item>)
    ensures { items.new.items ≡ map retargeted items.old.items }
{
    for place in 0..items.len() {
        items[place] = retarget(items[place]);
    }
}

/// Drops the home, which is the first row, and lets each jump go to the row that it went to.
pub fn drop_home(items: &mut Vec<Item>)
    ensures { items.new.items ≡ without_home items.old.items }
{
    if items.is_empty() {
        return;
    }
    items.remove(0);
    retarget_all(items);
}
