//! The abstract vehicle, and how each line moves it: a function for each row of the definition.

ghost use Rattle.std.specs.Prelude.{◌≡◌, ℕ, IfOk, IsTrue, true, false, ◌↔◌};
ghost use Rattle.first_vehicle.specs.VehicleState.{VehicleState, plan_of, booted, committed, ended};
ghost use Rattle.first_vehicle.specs.VehicleStep.{Moves, Takes, Reads, Commits, Replies, Serves, Says, Hears, MayAnswer};

mod events;

use crate::drafts::Drafts;
use crate::plan::Plan;
use crate::served::Served;
use first_model::limits::LAST_GENERATION;
use first_model::{
    AckCode, Answer, Asked, Client, Counts, Item, Line, Mark, Mode, PlanHead, PlanType, Reply,
    check_plan, is_same_reply,
};
use std::alloc::{AllocError, Global};
use std::marker::Model;

/// The vehicle that the lines show.
#[derive(Drop)]
pub struct Vehicle {
    mission: Plan,
    fence: Plan,
    safe: Plan,
    drafts: Drafts,
    service: Option<(Client, Asked)>,
    served: Served,
    mode: Mode,
    index: u16,
    counts: Counts,
    at_leg: bool,
    wanted: Option<u16>,
}

impl Model for Vehicle {
    ghost use Rattle.first_model.specs.CountsList.{pairs_of};
    ghost use Rattle.first_vehicle.specs.VehicleState.{VehicleState};

    ghost Value = { VehicleState };

    ghost view = { λ a. record { mission = a.mission; fence = a.fence; safe = a.safe; drafts = a.drafts; service = a.service; served = a.served; mode = a.mode; index = a.index; counts = pairs_of a.counts; at_leg = a.at_leg; wanted = a.wanted } };
}

impl Vehicle {
    /// The vehicle that the first boot line names.
    pub fn booted(alloc: Global, heads: [PlanHead; 3], mark: Mark) -> Result<Vehicle, AllocError>
        ensures { IfOk result (λ v. v ≡ booted heads mark) }
    {
        Ok(Vehicle {
            mission: Plan::untold(alloc, heads[0])?,
            fence: Plan::untold(alloc, heads[1])?,
            safe: Plan::untold(alloc, heads[2])?,
            drafts: Drafts::new(alloc),
            service: None,
            served: Served::new(alloc),
            mode: Mode::Hold,
            index: mark.index,
            counts: mark.counts,
            at_leg: false,
            wanted: None,
        })
    }

    /// Follows a line, and tells whether it is a step. Where it is none, the vehicle is of no use any more.
    pub fn follow(&mut self, alloc: Global, line: &Line) -> Result<bool, AllocError>
        ensures yes { IfOk result (λ yes. IsTrue yes → Moves self.old line.now self.new) }
        ensures no { IfOk result (λ yes. yes ≡ false → (v : VehicleState) → Moves self.old line.now v → ⊥) }
    {
        match *line {
            Line::Boot { .. } | Line::BootCut { .. } => Ok(false),
            Line::Took { client, asked } => Ok(self.takes(client, asked)),
            Line::Served { client, reply } => self.serves(alloc, client, reply),
            Line::Sent { answer, .. } => self.says(alloc, answer),
            Line::Heard {
                link,
                reply,
                answer,
            } => Ok(self.hears(link, reply, answer)),
            Line::Nav { input, entry } => Ok(self.acts(input, entry.what)),
            _ => Ok(true),
        }
    }

    /// The plan of a type.
    fn plan(&self, kind: PlanType) -> &Plan
        ensures { result.now ≡ plan_of self.now kind }
    {
        match kind {
            PlanType::Mission => &self.mission,
            PlanType::Fence => &self.fence,
            PlanType::Safe => &self.safe,
        }
    }

    fn takes(&mut self, client: Client, asked: Asked) -> bool
        ensures yes { IsTrue result → Takes self.old client asked self.new }
        ensures no { result ≡ false → (v : VehicleState) → Takes self.old client asked v → ⊥ }
    {
        if matches!(asked, Asked::SetMark(_)) || self.service.is_some() {
            return false;
        }
        self.service = Some((client, asked));
        true
    }

    fn serves(&mut self, alloc: Global, client: Client, reply: Reply) -> Result<bool, AllocError>
        ensures yes { IfOk result (λ yes. IsTrue yes → Serves self.old client reply self.new) }
        ensures no { IfOk result (λ yes. yes ≡ false → (v : VehicleState) → Serves self.old client reply v → ⊥) }
    {
        let Some((asker, asked)) = self.service else {
            return Ok(false);
        };
        if asker != client {
            return Ok(false);
        }
        self.end(client, asked, reply)?;
        self.replies(alloc, asked, reply)
    }

    fn end(&mut self, client: Client, asked: Asked, reply: Reply) -> Result<(), AllocError>
        ensures { IfOk result (λ _. self.new ≡ ended self.old client asked reply) }
    {
        self.service = None;
        self.served.put(client, asked, reply)
    }

    fn replies(&mut self, alloc: Global, asked: Asked, reply: Reply) -> Result<bool, AllocError>
        ensures yes { IfOk result (λ yes. IsTrue yes → Replies self.old asked reply self.new) }
        ensures no { IfOk result (λ yes. yes ≡ false → (v : VehicleState) → Replies self.old asked reply v → ⊥) }
    {
        match (asked, reply) {
            (Asked::Read { kind, id, seq }, Reply::Item(item)) => {
                Ok(self.reads(kind, id, seq, item))
            }
            (Asked::Read { kind, id, .. }, Reply::Stale(now)) => {
                Ok(now == self.plan(kind).id() && id != now)
            }
            (Asked::Write { .. }, Reply::Done) => Ok(true),
            (Asked::Commit { kind, id, count }, Reply::Done) => {
                self.commits(alloc, kind, id, count)
            }
            (Asked::Commit { .. }, Reply::Spent(last)) => Ok(last == LAST_GENERATION),
            _ => Ok(false),
        }
    }

    fn reads(&mut self, kind: PlanType, id: u32, seq: u16, item: Item) -> bool
        ensures yes { IsTrue result → Reads self.old kind id seq item self.new }
        ensures no { result ≡ false → (v : VehicleState) → Reads self.old kind id seq item v → ⊥ }
    {
        let plan = self.plan(kind);
        if id != plan.id() || !plan.can_be(seq, &item) {
            return false;
        }
        match kind {
            PlanType::Mission => self.mission.tell(seq, item),
            PlanType::Fence => self.fence.tell(seq, item),
            PlanType::Safe => self.safe.tell(seq, item),
        }
        true
    }

    fn commits(
        &mut self,
        alloc: Global,
        kind: PlanType,
        id: u32,
        count: u16,
    ) -> Result<bool, AllocError>
        ensures yes { IfOk result (λ yes. IsTrue yes → Commits self.old kind id count self.new) }
        ensures no { IfOk result (λ yes. yes ≡ false → (v : VehicleState) → Commits self.old kind id count v → ⊥) }
    {
        let items = self.drafts.items(kind, id);
        if id <= self.plan(kind).id()
            || items.len() != usize::from(count)
            || check_plan(kind, items).is_err()
        {
            return Ok(false);
        }
        let plan = Plan::told(alloc, id, items)?;
        self.commit(kind, plan);
        Ok(true)
    }

    /// Puts a plan in force in the place of another.
    fn commit(&mut self, kind: PlanType, plan: Plan)
        ensures { self.new ≡ committed self.old kind plan }
    {
        match kind {
            PlanType::Mission => {
                self.mission = plan;
                self.index = 0;
                self.counts = Counts::new();
                self.at_leg = false;
                self.wanted = None;
            }
            PlanType::Fence => self.fence = plan,
            PlanType::Safe => self.safe = plan,
        }
    }

    fn says(&mut self, alloc: Global, answer: Answer) -> Result<bool, AllocError>
        ensures yes { IfOk result (λ yes. IsTrue yes → Says self.old answer self.new) }
        ensures no { IfOk result (λ yes. yes ≡ false → (v : VehicleState) → Says self.old answer v → ⊥) }
    {
        match answer {
            Answer::Ack(AckCode::Accepted) => Ok(false),
            Answer::Writes {
                kind,
                id,
                seq,
                item,
            } => {
                if usize::from(seq) != self.drafts.items(kind, id).len() {
                    return Ok(false);
                }
                self.drafts.write(alloc, kind, id, item)?;
                Ok(true)
            }
            Answer::CurrentIs(seq) => {
                if usize::from(seq) >= self.mission.count() {
                    return Ok(false);
                }
                self.wanted = Some(seq);
                Ok(true)
            }
            _ => Ok(true),
        }
    }

    fn hears(&self, link: u8, reply: Reply, answer: Answer) -> bool
        ensures { IsTrue result ↔ Hears self.now link reply answer self.now }
    {
        let Some((asked, given)) = self.served.last(link) else {
            return false;
        };
        is_same_reply(&given, &reply) && may_answer(asked, reply, answer)
    }
}

/// Whether the reply to a link's request may have this answer: an upload is accepted only once its commit is done.
fn may_answer(asked: Asked, reply: Reply, answer: Answer) -> bool
    ensures { IsTrue result ↔ MayAnswer asked reply answer }
{
    match (answer, asked, reply) {
        (Answer::Ack(AckCode::Accepted), Asked::Commit { .. }, Reply::Done) => true,
        (Answer::Ack(AckCode::Accepted), _, _) => false,
        _ => true,
    }
}
