//! The lines of a record, one variant for each form of line.

use crate::counts::Mark;
use crate::message::{Answer, Said};
use crate::plan::{PlanHead, PlanType};
use crate::request::{Asked, Client, Reply};
use crate::vehicle::{NavEntry, VehicleLine};
use crate::watch::{Note, WatchInput};

/// Who takes a step.
#[derive(Clone, Copy, Debug, PartialEq, Eq)]
pub enum Actor {
    Worker,
    Link(u8),
    Nav,
    Watch(u8),
}

/// A line of the record.
#[derive(Clone, Copy)]
pub enum Line {
    /// This boot, from 1, is up with these plans in force and this mark.
    Boot {
        number: u16,
        heads: [PlanHead; 3],
        mark: Mark,
    },
    /// This boot was cut before it was up.
    BootCut {
        number: u16,
    },
    /// A client came to a meeting place.
    Arrived {
        client: Client,
        place: u8,
    },
    /// A client saw enough arrivals at a meeting place.
    Met {
        client: Client,
        place: u8,
    },
    /// A client waited until nothing of its own was outstanding.
    Waited {
        client: Client,
    },
    /// A link's message was handled.
    Sent {
        link: u8,
        said: Said,
        answer: Answer,
    },
    /// A link took a reply.
    Heard {
        link: u8,
        reply: Reply,
        answer: Answer,
    },
    /// The worker took the first request.
    Took {
        client: Client,
        asked: Asked,
    },
    /// A service ended, and its reply was posted.
    Served {
        client: Client,
        reply: Reply,
    },
    /// The Navigator took a reply.
    Got {
        asked: Asked,
        reply: Reply,
    },
    /// An event of the vehicle.
    Nav {
        input: VehicleLine,
        entry: NavEntry,
    },
    /// The Navigator's window of this kind begins at this seq.
    Dropped {
        kind: PlanType,
        seq: u16,
    },
    /// A watcher began an input.
    WatchDid {
        watch: u8,
        input: WatchInput,
        note: Note,
        asked: u8,
    },
    /// A watcher took a reply.
    WatchGot {
        watch: u8,
        asked: Asked,
        reply: Reply,
        note: Note,
        asks: u8,
    },
    /// Nobody is ready, and every schedule is finished.
    End,
    /// Nobody is ready, and a schedule is not finished.
    Stuck,
}
