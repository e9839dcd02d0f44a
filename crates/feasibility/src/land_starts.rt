//! The land starts of a mission so far, and the landing of the first one.

ghost use Rattle.std.specs.Prelude.{◌≡◌};

use crate::faults::note;
use crate::item_rules::{is_land_start, is_landing};
use mission_model::Item;

/// The first land start, the second one, and the first one with the first landing after it.
#[derive(Clone, Copy)]
pub struct LandStarts {
    pub first: Option<u16>,
    pub second: Option<u16>,
    pub landing: Option<(u16, u16)>,
}

impl LandStarts {
    ghost use Rattle.feasibility.specs.SoFar.{no_land_starts, land_starts_with, landing_with, fault_of};

    pub fn new() -> LandStarts
        ensures { result ≡ no_land_starts }
    {
        LandStarts {
            first: None,
            second: None,
            landing: None,
        }
    }

    /// Takes one more item of the mission, which stands at this place.
    pub fn feed(&mut self, place: u16, item: &Item)
        ensures { self.new ≡ land_starts_with self.old place item.now }
    {
        let starts = is_land_start(item);
        self.land(place, item);
        note(&mut self.second, starts && self.first.is_some(), place);
        note(&mut self.first, starts, place);
    }

    /// Takes the first landing after the first land start.
    fn land(&mut self, place: u16, item: &Item)
        ensures { self.new ≡ record self.old { landing = landing_with self.old.landing self.old.first place item.now } }
    {
        match (self.landing, self.first) {
            (None, Some(start)) if is_landing(item) => self.landing = Some((start, place)),
            _ => {}
        }
    }

    /// The first land start at fault: one without a landing after it, or the second one.
    pub fn fault(self) -> Option<u16>
        ensures { result ≡ fault_of self }
    {
        if self.landing.is_some() {
            self.second
        } else {
            self.first
        }
    }
}
