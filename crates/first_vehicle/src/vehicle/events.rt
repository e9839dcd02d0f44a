//! What an event of the vehicle shows, and how it moves the vehicle.

ghost use Rattle.std.specs.Prelude.{◌≡◌, IsTrue, true, false, ◌↔◌};
ghost use Rattle.first_vehicle.specs.VehicleState.{VehicleState, index_taken, in_mission_mode};
ghost use Rattle.first_vehicle.specs.VehicleStep.{Flies, IsOver, LooksOn, Looks, can_go_on, Reaches, Switches, Acts};

use crate::vehicle::Vehicle;
use first_model::command::{NAV_LOITER_UNLIM, is_leg};
use first_model::{Counts, Item, Mode, NavWhat, VehicleLine, is_same_item};

impl Vehicle {
    /// Follows an event, and tells whether it is a step.
    pub fn acts(&mut self, event: VehicleLine, what: NavWhat) -> bool
        ensures yes { IsTrue result → Acts (index_taken self.old self.old.wanted) event what self.new }
        ensures no { result ≡ false → (v : VehicleState) → Acts (index_taken self.old self.old.wanted) event what v → ⊥ }
    {
        self.take_index();
        match (event, what) {
            (VehicleLine::Tick, _) => self.looks(what),
            (VehicleLine::Go, _) => self.looks(what),
            (VehicleLine::Reached, _) => self.mode != Mode::Return && self.reaches(what),
            (VehicleLine::Mode(mode), NavWhat::Taken) => self.switches(mode),
            _ => false,
        }
    }

    /// The event takes the index that a link asked for.
    fn take_index(&mut self)
        ensures { self.new ≡ index_taken self.old self.old.wanted }
    {
        let Some(index) = self.wanted else {
            return;
        };
        if index == 0 {
            self.counts = Counts::new();
        }
        self.index = index;
        self.at_leg = false;
        self.wanted = None;
    }

    fn looks(&mut self, what: NavWhat) -> bool
        ensures yes { IsTrue result → Looks self.old self.old.mode what self.new }
        ensures no { result ≡ false → (v : VehicleState) → Looks self.old self.old.mode what v → ⊥ }
    {
        match self.mode {
            Mode::Hold => matches!(what, NavWhat::Idle),
            Mode::Mission => self.looks_on(what),
            Mode::Return => false,
        }
    }

    fn looks_on(&mut self, what: NavWhat) -> bool
        ensures yes { IsTrue result → LooksOn self.old what self.new }
        ensures no { result ≡ false → (v : VehicleState) → LooksOn self.old what v → ⊥ }
    {
        match what {
            NavWhat::HoldEmpty => self.mission.count() == 0,
            NavWhat::Pending { .. } => self.mission.count() > 0,
            NavWhat::Done { mission, fence } => self.is_over(mission, fence),
            NavWhat::Leg {
                seq,
                mission,
                fence,
                item,
            } => self.flies(seq, mission, fence, item),
            _ => false,
        }
    }

    fn is_over(&self, mission: u32, fence: u32) -> bool
        ensures { IsTrue result ↔ IsOver self.now mission fence self.now }
    {
        let count = self.mission.count();
        count > 0
            && usize::from(self.index) == count
            && mission == self.mission.id()
            && fence == self.fence.id()
    }

    fn flies(&mut self, seq: u16, mission: u32, fence: u32, item: Item) -> bool
        ensures yes { IsTrue result → Flies self.old seq mission fence item self.new }
        ensures no { result ≡ false → (v : VehicleState) → Flies self.old seq mission fence item v → ⊥ }
    {
        if seq != self.index || mission != self.mission.id() || fence != self.fence.id() {
            return false;
        }
        match self.mission.item(self.index) {
            Some(told) if is_same_item(&told, &item) && is_leg(item.command) => {
                self.at_leg = true;
                true
            }
            _ => false,
        }
    }

    fn reaches(&mut self, what: NavWhat) -> bool
        ensures yes { IsTrue result → Reaches self.old what self.new }
        ensures no { result ≡ false → (v : VehicleState) → Reaches self.old what v → ⊥ }
    {
        let can_go_on = self.can_go_on();
        match what {
            NavWhat::Next(index) => {
                if !can_go_on || u32::from(index) != u32::from(self.index) + 1 {
                    return false;
                }
                self.index = index;
                self.at_leg = false;
                true
            }
            NavWhat::Ignored => !can_go_on,
            _ => false,
        }
    }

    /// Whether a leg of the index was shown and its item can be reached.
    fn can_go_on(&self) -> bool
        ensures { result ≡ can_go_on self.now }
    {
        self.at_leg
            && match self.mission.item(self.index) {
                Some(item) => item.command != NAV_LOITER_UNLIM,
                None => true,
            }
    }

    fn switches(&mut self, mode: Mode) -> bool
        ensures yes { IsTrue result → Switches self.old mode self.new }
        ensures no { result ≡ false → (v : VehicleState) → Switches self.old mode v → ⊥ }
    {
        match mode {
            Mode::Hold => {
                self.mode = Mode::Hold;
                true
            }
            Mode::Mission => {
                self.begin_mission_mode();
                true
            }
            Mode::Return => false,
        }
    }

    /// Takes the Mission mode; at the mission's end it begins again.
    fn begin_mission_mode(&mut self)
        ensures { self.new ≡ in_mission_mode self.old }
    {
        self.mode = Mode::Mission;
        if usize::from(self.index) == self.mission.count() {
            self.index = 0;
            self.counts = Counts::new();
            self.at_leg = false;
        }
    }
}
