//! The Navigator's steps: it takes its replies, and answers the vehicle's events from its cache of the mission alone.

ghost use Rattle.std.specs.Prelude.{◌≡◌, ◌<◌, ◌≤◌, ◌∷◌, [], drop, IfOk};
ghost use Rattle.first_model.specs.declared.limits.TheConstants.{MAX_PLACES};
ghost use Rattle.first_board.specs.BoardState.{HasClient, OthersStay, posted};
ghost use Rattle.first_core.specs.Ready.{InputReady};
ghost use Rattle.first_core.specs.NavState.{new_nav, unknown, met, in_mode, IsForMission, NavFits, HeadFits};
ghost use Rattle.first_core.specs.Keeps.{BoardKeeps};
ghost use Rattle.first_core.specs.NavLaw.{NavStep, Acts, Shows, Ticks, Looks};
ghost use Rattle.first_core.specs.SharedState.{mission_head, fence_id};

use crate::StepOut;
use crate::schedule::Schedule;
use crate::shared::Shared;
use first_cache::Cache;
use first_model::limits::{MAX_MISSION_ITEMS, NAV_ROOM};
use first_model::{
    Client, InputLine, Line, Look, Mode, NavEntry, NavWhat, PlanHead, PlanType, VehicleLine,
};
use std::alloc::{AllocError, Global};
use std::collections::VecDeque;
use std::marker::Model;

/// The Navigator.
#[derive(Drop)]
pub struct Nav {
    pub schedule: Schedule,
    pub mode: Mode,
    pub cache: Cache,
    pub index: u16,
    pub at_leg: bool,
}

impl Model for Nav {
    ghost use Rattle.first_core.specs.NavState.{NavState};

    ghost Value = { NavState };

    ghost view = { λ a. record { schedule = a.schedule; mode = a.mode; cache = a.cache; index = a.index; at_leg = a.at_leg } };
}

impl Nav {
    /// The Navigator at the beginning of a boot.
    pub fn new(
        alloc: Global,
        head: PlanHead,
        index: u16,
        inputs: VecDeque<InputLine>,
    ) -> Result<Nav, AllocError>
        ensures { IfOk result (λ nav. nav ≡ new_nav head index inputs.items) }
    {
        Ok(Nav {
            schedule: Schedule::new(inputs),
            mode: Mode::Hold,
            cache: unknown_mission(alloc, head)?,
            index,
            at_leg: false,
        })
    }

    /// Adopts a published mission of another id, from its first item on.
    fn meet_head(&mut self, head: PlanHead)
        requires fits { NavFits self.old }
        requires head { HeadFits head }
        ensures met { self.new ≡ met self.old head }
        ensures fits { NavFits self.new }
    {
        if self.cache.id() != head.id {
            self.cache.adopt(head);
            self.index = 0;
            self.at_leg = false;
        }
    }

    /// The shown leg was reached, if one was shown.
    fn reach(&mut self) -> NavWhat
        requires { NavFits self.old }
        ensures shows { Shows self.old VehicleLine.Reached result self.new }
        ensures fits { NavFits self.new }
    {
        if !self.at_leg {
            return NavWhat::Ignored;
        }
        self.index += 1;
        self.at_leg = false;
        NavWhat::Next(self.index)
    }

    /// Takes a mode: mission mode at the mission's end begins it again.
    fn take_mode(&mut self, mode: Mode)
        requires fits { NavFits self.old }
        requires event { IsForMission (VehicleLine.Mode mode) }
        ensures mode { self.new ≡ in_mode self.old mode }
        ensures fits { NavFits self.new }
    {
        self.mode = mode;
        if mode == Mode::Mission && self.index == self.cache.count() {
            self.index = 0;
            self.at_leg = false;
        }
    }
}

/// The Navigator's cache of a mission of which nothing is known.
fn unknown_mission(alloc: Global, head: PlanHead) -> Result<Cache, AllocError>
    ensures { IfOk result (λ cache. cache ≡ unknown head) }
{
    let mut cache = Cache::new(alloc, Client::Nav, PlanType::Mission, MAX_MISSION_ITEMS)?;
    if head.id == 0 {
        // a cache begins with id 0 and no items, and adopts only another id
        cache.adopt(PlanHead { id: 1, count: 0 });
    }
    cache.adopt(head);
    Ok(cache)
}

/// One step of the Navigator: it takes the reply that is posted to it, or else goes on with its schedule.
#[tactic(auto, using(crate::proofs::NavStays::nav_stays))]
pub fn step(shared: &mut Shared, nav: &mut Nav) -> StepOut<Line>
    requires client { HasClient shared.old.board Client.Nav }
    requires fits { NavFits nav.old }
    requires published { HeadFits (mission_head shared.old) }
    ensures step { NavStep shared.old nav.old result shared.new nav.new }
    ensures fits { NavFits nav.new }
    ensures others { OthersStay Client.Nav shared.old.board shared.new.board }
    ensures board { BoardKeeps shared.old.board shared.new.board }
{
    match shared.board.take_reply(Client::Nav) {
        Some((asked, reply)) => {
            nav.cache.got(&asked, &reply);
            StepOut::Made(Line::Got { asked, reply })
        }
        None => go_on(shared, nav),
    }
}

/// Goes on with the schedule, where nothing is posted.
#[tactic(auto, using(crate::proofs::NavStays::nav_stays))]
fn go_on(shared: &mut Shared, nav: &mut Nav) -> StepOut<Line>
    requires client { HasClient shared.old.board Client.Nav }
    requires fits { NavFits nav.old }
    requires published { HeadFits (mission_head shared.old) }
    requires posted { posted shared.old.board Client.Nav ≡ [] }
    ensures step { NavStep shared.old nav.old result shared.new nav.new }
    ensures fits { NavFits nav.new }
    ensures others { OthersStay Client.Nav shared.old.board shared.new.board }
    ensures board { BoardKeeps shared.old.board shared.new.board }
{
    let free = shared.board.room(Client::Nav) == NAV_ROOM;
    match nav.schedule.current() {
        Some(InputLine::Vehicle(event)) => {
            let event = *event;
            if matches!(event, VehicleLine::Go) && nav.schedule.has_begun() && !free {
                return StepOut::Idle;
            }
            happen(shared, nav, event)
        }
        Some(InputLine::Meet { place, count }) => {
            let (place, count) = (*place, *count);
            meet(shared, nav, place, count)
        }
        Some(InputLine::Wait) => {
            if !free {
                return StepOut::Idle;
            }
            nav.schedule.advance();
            StepOut::Made(Line::Waited {
                client: Client::Nav,
            })
        }
        _ => StepOut::Idle,
    }
}

/// Comes to a meeting place, or leaves it once enough clients came.
#[tactic(auto, using(crate::proofs::NavStays::nav_stays))]
fn meet(shared: &mut Shared, nav: &mut Nav, place: u8, count: u8) -> StepOut<Line>
    requires fits { NavFits nav.old }
    requires posted { posted shared.old.board Client.Nav ≡ [] }
    requires place { place < MAX_PLACES }
    requires input { nav.old.schedule.inputs ≡ InputLine.Meet place count ∷ drop 1 nav.old.schedule.inputs }
    ensures step { NavStep shared.old nav.old result shared.new nav.new }
    ensures fits { NavFits nav.new }
    ensures others { OthersStay Client.Nav shared.old.board shared.new.board }
    ensures board { BoardKeeps shared.old.board shared.new.board }
{
    let client = Client::Nav;
    if !nav.schedule.has_begun() {
        shared.arrive(place);
        nav.schedule.begin();
        return StepOut::Made(Line::Arrived { client, place });
    }
    if shared.arrivals(place) < count {
        return StepOut::Idle;
    }
    nav.schedule.advance();
    StepOut::Made(Line::Met { client, place })
}

/// An event of the vehicle: the published mission is met, and the line is acted on.
#[tactic(auto, using(crate::proofs::NavStays::nav_stays))]
fn happen(shared: &mut Shared, nav: &mut Nav, event: VehicleLine) -> StepOut<Line>
    requires client { HasClient shared.old.board Client.Nav }
    requires fits { NavFits nav.old }
    requires published { HeadFits (mission_head shared.old) }
    requires posted { posted shared.old.board Client.Nav ≡ [] }
    requires input { nav.old.schedule.inputs ≡ InputLine.Vehicle event ∷ drop 1 nav.old.schedule.inputs }
    requires ready { InputReady shared.old Client.Nav nav.old.schedule.inputs nav.old.schedule.begun }
    ensures step { NavStep shared.old nav.old result shared.new nav.new }
    ensures fits { NavFits nav.new }
    ensures others { OthersStay Client.Nav shared.old.board shared.new.board }
    ensures board { BoardKeeps shared.old.board shared.new.board }
{
    nav.meet_head(shared.board.published()[0]);
    let entry = act(shared, nav, event);
    if matches!(
        (event, entry.what),
        (VehicleLine::Go, NavWhat::Pending { .. })
    ) {
        nav.schedule.begin();
    } else {
        nav.schedule.advance();
    }
    StepOut::Made(Line::Nav {
        input: event,
        entry,
    })
}

/// Acts on an event.
#[tactic(auto, using(crate::proofs::NavStays::nav_stays))]
fn act(shared: &mut Shared, nav: &mut Nav, event: VehicleLine) -> NavEntry
    requires client { HasClient shared.old.board Client.Nav }
    requires fits { NavFits nav.old }
    requires event { IsForMission event }
    ensures acts { Acts shared.old nav.old event result shared.new nav.new }
    ensures fits { NavFits nav.new }
    ensures others { OthersStay Client.Nav shared.old.board shared.new.board }
    ensures board { BoardKeeps shared.old.board shared.new.board }
{
    match event {
        VehicleLine::Tick => look(shared, nav),
        VehicleLine::Go => look(shared, nav),
        VehicleLine::Reached => NavEntry {
            what: nav.reach(),
            asked: 0,
        },
        VehicleLine::Mode(mode) => {
            nav.take_mode(mode);
            NavEntry {
                what: NavWhat::Taken,
                asked: 0,
            }
        }
        VehicleLine::Position { .. } => NavEntry {
            what: NavWhat::Taken,
            asked: 0,
        },
    }
}

/// Looks at what is to be flown.
#[tactic(auto, using(crate::proofs::NavStays::nav_stays))]
fn look(shared: &mut Shared, nav: &mut Nav) -> NavEntry
    requires client { HasClient shared.old.board Client.Nav }
    requires fits { NavFits nav.old }
    ensures ticks { Ticks shared.old nav.old result shared.new nav.new }
    ensures fits { NavFits nav.new }
    ensures others { OthersStay Client.Nav shared.old.board shared.new.board }
    ensures board { BoardKeeps shared.old.board shared.new.board }
{
    if nav.mode != Mode::Mission {
        return NavEntry {
            what: NavWhat::Idle,
            asked: 0,
        };
    }
    if nav.cache.count() == 0 {
        return NavEntry {
            what: NavWhat::HoldEmpty,
            asked: 0,
        };
    }
    let fence = shared.board.published()[1].id;
    if nav.index == nav.cache.count() {
        let mission = nav.cache.id();
        return NavEntry {
            what: NavWhat::Done { mission, fence },
            asked: 0,
        };
    }
    look_at_item(shared, nav, fence)
}

/// Looks at the item of the index.
#[tactic(auto, using(crate::proofs::NavStays::nav_stays))]
fn look_at_item(shared: &mut Shared, nav: &mut Nav, fence: u32) -> NavEntry
    requires client { HasClient shared.old.board Client.Nav }
    requires fits { NavFits nav.old }
    requires within { nav.old.index < nav.old.cache.count }
    requires mode { nav.old.mode ≡ Mode.Mission }
    requires fence { fence ≡ fence_id shared.old }
    ensures looks { Looks shared.old nav.old result shared.new nav.new }
    ensures fits { NavFits nav.new }
    ensures others { OthersStay Client.Nav shared.old.board shared.new.board }
    ensures board { BoardKeeps shared.old.board shared.new.board }
{
    let before = shared.board.room(Client::Nav);
    let seq = nav.index;
    let mission = nav.cache.id();
    let look = nav.cache.want(&mut shared.board, seq);
    let asked = before - shared.board.room(Client::Nav);
    let what = match look {
        Look::Here(item) => {
            nav.at_leg = true;
            NavWhat::Leg {
                seq,
                mission,
                fence,
                item,
            }
        }
        Look::Pending => NavWhat::Pending {
            kind: PlanType::Mission,
            seq,
        },
    };
    NavEntry { what, asked }
}
