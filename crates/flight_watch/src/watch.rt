//! The program's watcher. Its two parts know nothing of one another: a breach watch keeps its fence while plans are
//! downloaded.

ghost use Rattle.std.specs.Prelude.{◌≡◌};
ghost use Rattle.flight_watch.specs.Watches.{not_begun, part_of};

use crate::code::{BREACH, DOWNLOAD};
use breach_watch::BreachWatch;
use mission_model::{Asked, Note, PlanHead, Reply, WatchInput, WatchOut};
use plan_download::Download;
use request_board::Watcher;

/// The parts of the watcher.
#[derive(Clone, Copy, Drop)]
enum Part {
    Download,
    Breach,
}

/// A download and a breach watch. An input goes to the part that has its code, and the replies to its reads go there too. An
/// input of another code ends at once, with an empty note.
#[derive(Drop)]
pub struct FlightWatch {
    download: Download,
    breach: BreachWatch,
    /// The part to which the last input went.
    current: Part,
}

/// The answer to an input of another code.
const NOTHING: WatchOut = WatchOut {
    read: None,
    note: Note {
        code: 0,
        a: 0,
        b: 0,
        x: 0,
        y: 0,
    },
    more: false,
};

impl FlightWatch {
    /// A watcher before its first input. It takes no memory.
    pub fn new() -> FlightWatch
        ensures { result ≡ not_begun }
    {
        FlightWatch {
            download: Download::new(),
            breach: BreachWatch::new(),
            current: Part::Download,
        }
    }
}

impl Watcher for FlightWatch {
    ghost use Rattle.flight_watch.specs.Watches.{works, tells, waits, left};
    ghost use Rattle.flight_watch.specs.Laws.{works-answers, tells-answers, left-falls};

    ghost works = { works };

    ghost tells = { tells };

    ghost waits = { waits };

    ghost left = { left };

    fn work(&mut self, input: &WatchInput, heads: [PlanHead; 3]) -> WatchOut {
        match part_of(input.code) {
            Some(Part::Download) => {
                self.current = Part::Download;
                self.download.work(input, heads)
            }
            Some(Part::Breach) => {
                self.current = Part::Breach;
                self.breach.work(input, heads)
            }
            None => NOTHING,
        }
    }

    fn told(&mut self, asked: &Asked, reply: &Reply, heads: [PlanHead; 3]) -> WatchOut {
        match self.current {
            Part::Download => self.download.told(asked, reply, heads),
            Part::Breach => self.breach.told(asked, reply, heads),
        }
    }

    ghost works_well = { works-answers };

    ghost tells_well = { tells-answers };

    ghost falls = { left-falls };
}

/// The part that has the inputs of a code, if one has.
fn part_of(code: u16) -> Option<Part>
    ensures { result ≡ part_of code }
{
    if code == DOWNLOAD {
        return Some(Part::Download);
    }
    if code == BREACH {
        return Some(Part::Breach);
    }
    None
}

#[cfg(test)]
mod tests;
