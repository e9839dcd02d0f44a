//! The abstract vehicle, and how each line moves it: a function for each row of the definition.

ghost use Rattle.std.specs.Prelude.{◌≡◌, ◌+◌, IfOk, IsTrue, true, false};
ghost use Rattle.plan_vehicle.specs.VehicleState.{VehicleState, new_vehicle, plan_of};
ghost use Rattle.plan_vehicle.specs.VehicleStep.{VehicleStep};

mod boots;
mod events;
mod messages;
mod mission;
mod requests;
mod returns;

use crate::drafts::Drafts;
use crate::marks::Marks;
use crate::plan::Plan;
use crate::plans::Plans;
use crate::served::Served;
use mission_model::{Asked, Client, Counts, Home, Line, Mark, Mode, Params, PlanType};
use return_mode::ReturnPlan;
use std::alloc::{AllocError, Global};
use std::marker::Model;

/// The vehicle that the lines show.
#[derive(Drop)]
pub struct Vehicle {
    boots: u16,
    is_up: bool,
    plans: Plans,
    mark: Mark,
    maybe: Vec<Asked>,
    drafts: Drafts,
    service: Option<(Client, Asked)>,
    passed: Marks,
    served: Served,
    mode: Mode,
    index: u16,
    counts: Counts,
    at_leg: bool,
    wanted: Option<u16>,
    position: Option<(i32, i32)>,
    way: Option<ReturnPlan>,
}

impl Model for Vehicle {
    ghost use Rattle.mission_model.specs.CountsList.{pairs_of};
    ghost use Rattle.mission_model.specs.PlainMark.{plain_mark};
    ghost use Rattle.plan_vehicle.specs.VehicleState.{VehicleState};

    ghost Value = { VehicleState };

    ghost view = { λ a. record { params = a.plans.params; home = a.plans.home; boots = a.boots; is_up = a.is_up; mission = a.plans.mission; fence = a.plans.fence; safe = a.plans.safe; mark = plain_mark a.mark; maybe = a.maybe.items; drafts = a.drafts; service = a.service; passed = a.passed; served = a.served; mode = a.mode; index = a.index; counts = pairs_of a.counts; at_leg = a.at_leg; wanted = a.wanted; position = a.position; way = a.way } };
}

impl Vehicle {
    /// The vehicle of a record that has no line yet.
    pub fn new(alloc: Global, params: Params, home: Option<Home>) -> Vehicle
        ensures { result ≡ new_vehicle params home }
    {
        Vehicle {
            boots: 0,
            is_up: false,
            plans: Plans::new(alloc, params, home),
            mark: Mark {
                id: 0,
                index: 0,
                counts: Counts::new(),
            },
            maybe: Vec::new(alloc),
            drafts: Drafts::new(alloc),
            service: None,
            passed: Marks::new(alloc),
            served: Served::new(alloc),
            mode: Mode::Hold,
            index: 0,
            counts: Counts::new(),
            at_leg: false,
            wanted: None,
            position: None,
            way: None,
        }
    }

    /// Follows a line, and tells whether it is a step. Where it is none, the vehicle is of no use any more.
    pub fn follow(&mut self, alloc: Global, line: &Line) -> Result<bool, AllocError>
        ensures yes { IfOk result (λ yes. IsTrue yes → VehicleStep self.old line.now self.new) }
        ensures no { IfOk result (λ yes. yes ≡ false → (v : VehicleState) → VehicleStep self.old line.now v → ⊥) }
    {
        match *line {
            Line::Boot {
                number,
                heads,
                mark,
            } => self.boot(alloc, number, heads, mark),
            Line::BootCut { number } => Ok(self.is_cut(number)),
            Line::Took { client, asked } => Ok(self.takes(client, asked)),
            Line::Served { client, reply } => self.serves(alloc, client, reply),
            Line::Sent { answer, .. } => self.says(alloc, answer),
            Line::Heard {
                link,
                reply,
                answer,
            } => Ok(self.hears(link, reply, answer)),
            Line::Nav { input, entry } => self.happens(alloc, input, entry.what),
            _ => Ok(true),
        }
    }

    /// The plan of a type.
    fn plan(&self, kind: PlanType) -> &Plan
        ensures { result.now ≡ plan_of self.now kind }
    {
        match kind {
            PlanType::Mission => self.plans.mission(),
            PlanType::Fence => self.plans.fence(),
            PlanType::Safe => self.plans.safe(),
        }
    }
}
