//! Lines of a record, by their parts.

ghost use Rattle.std.specs.Prelude.{◌≤◌};

use mission_model::Param::{Milli, Unset};
use mission_model::{
    Answer, Asked, Client, Counts, Item, Line, Mark, NavEntry, NavWhat, PlanHead, PlanType, Reply,
    Said, VehicleLine,
};

/// An item of this command in the global frame, whose first two parameters are whole numbers.
pub fn item(command: u16, p1: i32, p2: i32, x: i32, y: i32) -> Item {
    Item {
        frame: 0,
        command,
        p1: Milli(p1),
        p2: Milli(p2),
        p3: Unset,
        p4: Unset,
        x,
        y,
        z: 10_000,
        auto: true,
    }
}

/// A waypoint at a latitude and longitude.
pub fn waypoint(x: i32, y: i32) -> Item {
    item(16, 0, 0, x, y)
}

/// A mark without jumps.
pub fn mark(id: u32, index: u16) -> Mark {
    Mark {
        id,
        index,
        counts: Counts::new(),
    }
}

/// A mark with one jump that was taken.
pub fn mark_after(id: u32, index: u16, seq: u16, used: u16) -> Mark
    requires { 1 ≤ used }
{
    let mut counts = Counts::new();
    counts.put(seq, used);
    Mark { id, index, counts }
}

/// A boot with a mission of this id and count, and with another plan of a type.
pub fn boot(number: u16, mission: (u32, u16), fence: (u32, u16), mark: Mark) -> Line {
    Line::Boot {
        number,
        heads: [
            PlanHead {
                id: mission.0,
                count: mission.1,
            },
            PlanHead {
                id: fence.0,
                count: fence.1,
            },
            PlanHead { id: 0, count: 0 },
        ],
        mark,
    }
}

/// Link 0 sends an item, which is written.
pub fn writes(kind: PlanType, id: u32, seq: u16, item: Item) -> Line {
    Line::Sent {
        link: 0,
        said: Said::Item(seq),
        answer: Answer::Writes {
            kind,
            id,
            seq,
            item,
        },
    }
}

/// A request is taken.
pub fn takes(client: Client, asked: Asked) -> Line {
    Line::Took { client, asked }
}

/// Link 0's commit is taken.
pub fn commits(kind: PlanType, id: u32, count: u16) -> Line {
    takes(Client::Link(0), Asked::Commit { kind, id, count })
}

/// A read of the Navigator is taken.
pub fn reads(kind: PlanType, id: u32, seq: u16) -> Line {
    takes(Client::Nav, Asked::Read { kind, id, seq })
}

/// A mark of the Navigator is taken.
pub fn marks(mark: Mark) -> Line {
    takes(Client::Nav, Asked::SetMark(mark))
}

/// A service ends.
pub fn serves(client: Client, reply: Reply) -> Line {
    Line::Served { client, reply }
}

/// Link 0 hears a reply.
pub fn hears(reply: Reply, answer: Answer) -> Line {
    Line::Heard {
        link: 0,
        reply,
        answer,
    }
}

/// An event of the vehicle.
pub fn event(input: VehicleLine, what: NavWhat) -> Line {
    Line::Nav {
        input,
        entry: NavEntry { what, asked: 0 },
    }
}

/// A look.
pub fn look(what: NavWhat) -> Line {
    event(VehicleLine::Go, what)
}

/// A leg that is shown, with the fence 0.
pub fn leg(seq: u16, mission: u32, item: Item) -> Line {
    look(NavWhat::Leg {
        seq,
        mission,
        fence: 0,
        item,
    })
}

/// The vehicle is where it was going.
pub fn reached(what: NavWhat) -> Line {
    event(VehicleLine::Reached, what)
}
