//! The judge of one mission.

ghost use Rattle.std.specs.Prelude.{◌≡◌, [], nat_lt};
ghost use Rattle.mission_model.specs.Command.{has_position};
ghost use Rattle.mission_model.specs.Feasible.{first_broken, at_start};
ghost use Rattle.feasibility.specs.Verdicts.{answer_of, verdict_at_begin};
ghost use Rattle.feasibility.specs.Judged.{Judged, CanFeed, JoinsItem, TellsVerdict, TellsLanding, LandsInOrder};

use crate::faults::{Faults, note};
use crate::item_rules::{
    breaks_allowed, breaks_greatest_height, breaks_home_set, breaks_takeoff_height, is_takeoff,
};
use crate::jumps::Jumps;
use crate::land_starts::LandStarts;
use crate::loiters::Loiters;
use crate::seen::{Seen, lacks_asked};
use fence_polygon::Fence;
use mission_model::command::has_position;
use mission_model::{Home, Item, Params};

/// What is found of a mission.
#[derive(Clone, Copy, Debug, PartialEq, Eq)]
pub enum Verdict {
    Feasible,
    /// The number of the first rule that is broken, and the seq of the first item that breaks it:
    /// 1 the mission has an item, 2 the takeoff comes first, 3 it is as high as `takeoff_min`, 4 the takeoff and the
    /// landing of `tko_land` are there, 5 one land start with a landing after it, 6 no jump leads to a jump, 7 the fence
    /// allows each position, 8 none is higher than `max_alt`, 9 the home is set where a height is over it, 10 a loiter
    /// without an end is left by a land start or by a jump to the next item. The item of 1 and 4 is 0.
    Broken { rule: u8, item: u16 },
}

/// A judge of a mission, which is shown its items in their order. It keeps what the rules ask of the items that it was
/// shown, not the items, and its verdict once that is found.
#[derive(Drop)]
pub struct Judge {
    params: Params,
    home: Option<Home>,
    fence: Fence,
    count: u16,
    fed: u16,
    seen: Seen,
    faults: Faults,
    land_starts: LandStarts,
    jumps: Jumps,
    loiters: Loiters,
    verdict: Option<Verdict>,
}

impl Judge {
    /// A judge of a mission of `count` items, of which none was shown yet. It keeps a copy of the fence.
    pub fn begin(params: Params, home: Option<Home>, fence: &Fence, count: u16) -> Judge
        ensures { Judged result params home fence.now count [] }
    {
        Judge {
            params,
            home,
            fence: fence.copied(),
            count,
            fed: 0,
            seen: Seen::new(),
            faults: Faults::new(),
            land_starts: LandStarts::new(),
            jumps: Jumps::new(),
            loiters: Loiters::new(),
            verdict: at_begin(count),
        }
    }

    /// Begins anew, in the same place: it is to judge a mission of `count` items, and keeps the fence that it is given.
    pub fn restart(&mut self, params: Params, home: Option<Home>, fence: Fence, count: u16)
        ensures { Judged self.new params home fence count [] }
    {
        self.params = params;
        self.home = home;
        self.fence = fence;
        self.count = count;
        self.fed = 0;
        self.seen = Seen::new();
        self.faults = Faults::new();
        self.land_starts = LandStarts::new();
        self.jumps.clear();
        self.loiters.clear();
        self.verdict = at_begin(count);
    }

    /// Takes the next item, and with the last one finds the verdict.
    pub fn feed(&mut self, item: &Item)
        requires { CanFeed self.old item.now }
        ensures { JoinsItem self.old item.now self.new }
    {
        self.take(item);
        self.verdict = self.found();
    }

    /// How many items were shown.
    pub fn fed(&self) -> u16
        ensures { result ≡ self.now.fed }
    {
        self.fed
    }

    /// The fence that the mission is judged by.
    pub fn fence(&self) -> &Fence
        ensures { result.now ≡ self.now.fence }
    {
        &self.fence
    }

    /// What was found, once the last item was shown.
    pub fn verdict(&self) -> Option<Verdict>
        ensures { TellsVerdict self.now result }
    {
        self.verdict
    }

    /// The seq of the land start and that of its landing, where the mission is feasible and has a land start.
    pub fn landing(&self) -> Option<(u16, u16)>
        ensures found { TellsLanding self.now result }
        ensures in_order { LandsInOrder self.now result }
    {
        match self.verdict {
            Some(Verdict::Feasible) => self.land_starts.landing,
            _ => None,
        }
    }
}

impl Judge {
    ghost use Rattle.feasibility.specs.Judged.{TakesItem, FindsVerdict};
    ghost use Rattle.feasibility.specs.Parts.{faults_with, places_of};

    /// Keeps what the rules ask of the next item.
    fn take(&mut self, item: &Item)
        requires { CanFeed self.old item.now }
        ensures { TakesItem self.old item.now self.new }
    {
        let place = self.fed;
        let is_positioned = has_position(item);
        self.find_faults(item, is_positioned);
        self.seen = self.seen.with(item, is_positioned);
        self.land_starts.feed(place, item);
        self.jumps.feed(place, item);
        self.loiters.feed(place, item);
        self.fed = place + 1;
    }

    /// The verdict, where the last item was shown.
    fn found(&self) -> Option<Verdict>
        ensures { FindsVerdict self.now result }
    {
        if self.lacks_items() {
            return None;
        }
        Some(first_broken(&self.broken_places()))
    }

    /// Whether the last item was not shown yet.
    fn lacks_items(&self) -> bool
        ensures { result ≡ nat_lt self.now.fed self.now.count }
    {
        self.fed < self.count
    }

    /// Notes the rules on single items that this item breaks. `is_positioned` says whether it has a position.
    fn find_faults(&mut self, item: &Item, is_positioned: bool)
        requires { is_positioned ≡ has_position item.now }
        ensures { self.new ≡ record self.old { faults = faults_with self.old item.now } }
    {
        let place = self.fed;
        let takeoff_late = is_takeoff(item) && self.seen.position;
        let takeoff_low = breaks_takeoff_height(&self.params, self.home, item);
        let outside = breaks_allowed(&self.fence, item, is_positioned);
        let high = breaks_greatest_height(&self.params, self.home, item, is_positioned);
        let homeless = breaks_home_set(self.home, item, is_positioned);
        note(&mut self.faults.takeoff_first, takeoff_late, place);
        note(&mut self.faults.takeoff_height, takeoff_low, place);
        note(&mut self.faults.allowed, outside, place);
        note(&mut self.faults.greatest_height, high, place);
        note(&mut self.faults.home_set, homeless, place);
    }

    /// The first place that breaks each rule, in the order of the rules.
    fn broken_places(&self) -> [Option<u16>; 10]
        ensures { result ≡ places_of self.now }
    {
        let seen = self.seen;
        let lacks = lacks_asked(self.params.tko_land, seen.takeoff, seen.landing);
        [
            at_start(self.fed == 0),
            self.faults.takeoff_first,
            self.faults.takeoff_height,
            at_start(lacks),
            self.land_starts.fault(),
            self.jumps.first_to_jump(),
            self.faults.allowed,
            self.faults.greatest_height,
            self.faults.home_set,
            self.loiters.first_not_left(&self.jumps),
        ]
    }
}

/// The verdict on a mission of `count` items before the first one is shown.
fn at_begin(count: u16) -> Option<Verdict>
    ensures { result ≡ verdict_at_begin count }
{
    (count == 0).then_some(Verdict::Broken { rule: 1, item: 0 })
}

/// The place where a rule on the whole mission is broken.
fn at_start(broken: bool) -> Option<u16>
    ensures { result ≡ at_start broken }
{
    broken.then_some(0)
}

/// The first of the ten rules that has a place.
fn first_broken(places: &[Option<u16>; 10]) -> Verdict
    ensures { result ≡ answer_of (first_broken 1 places.now) }
{
    for before in 0..places.len() {
        if let Some(item) = places[before] {
            return Verdict::Broken {
                rule: before as u8 + 1,
                item,
            };
        }
    }
    Verdict::Feasible
}

#[cfg(test)]
mod tests;
