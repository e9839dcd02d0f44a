//! The three plans in force, with what missions are judged by. The judgement is made once for a mission and a fence, and
//! kept as long as both are in force.

ghost use Rattle.std.specs.Prelude.{◌≡◌, ◌≤◌, ◌<◌, ◌==◌, ℤ, List, Option, IfOk, OnErr, IsTrue, true, false, length, MatchOption};
ghost use Rattle.plan_vehicle.specs.PlanState.{CanBe, told_at, with_told};
ghost use Rattle.plan_vehicle.specs.PlansState.{no_plans, named_plans, plans_with, IsFound, CanJudge, CanReturn, IsReturn};

use crate::found::{Found, judged};
use crate::plan::Plan;
use fence_polygon::Fence;
use mission_model::{Home, Item, Params, PlanHead, PlanType};
use return_mode::{ReturnPlan, choose};
use std::alloc::{AllocError, Global};
use std::marker::Model;

/// The plans, the parameters and the home.
#[derive(Drop)]
pub struct Plans {
    params: Params,
    home: Option<Home>,
    mission: Plan,
    fence: Plan,
    safe: Plan,
    found: Option<Found>,
}

impl Model for Plans {
    ghost use Rattle.plan_vehicle.specs.PlansState.{PlansState, IsKept};

    ghost Value = { PlansState };

    ghost view = { λ a. record { params = a.params; home = a.home; mission = a.mission; fence = a.fence; safe = a.safe } };

    ghost invariant = { λ a. IsKept (record { params = a.params; home = a.home; mission = a.mission; fence = a.fence; safe = a.safe }) a.found };
}

impl Plans {
    /// No plans.
    pub fn new(alloc: Global, params: Params, home: Option<Home>) -> Plans
        ensures { result ≡ no_plans params home }
    {
        Plans {
            params,
            home,
            mission: Plan::none(alloc),
            fence: Plan::none(alloc),
            safe: Plan::none(alloc),
            found: None,
        }
    }

    /// Takes the plans of these heads in the place of its own.
    pub fn name(&mut self, alloc: Global, heads: [PlanHead; 3]) -> Result<(), AllocError>
        ensures { IfOk result (λ _. self.new ≡ named_plans self.old heads) }
    {
        let mission = Plan::untold(alloc, heads[0])?;
        let fence = Plan::untold(alloc, heads[1])?;
        let safe = Plan::untold(alloc, heads[2])?;
        self.found = None;
        self.mission = mission;
        self.fence = fence;
        self.safe = safe;
        Ok(())
    }

    /// The home.
    pub fn home(&self) -> Option<Home>
        ensures { result ≡ self.now.home }
    {
        self.home
    }

    /// The mission.
    pub fn mission(&self) -> &Plan
        ensures { result.now ≡ self.now.mission }
    {
        &self.mission
    }

    /// The fence.
    pub fn fence(&self) -> &Plan
        ensures { result.now ≡ self.now.fence }
    {
        &self.fence
    }

    /// The safe points.
    pub fn safe(&self) -> &Plan
        ensures { result.now ≡ self.now.safe }
    {
        &self.safe
    }

    /// Puts a plan in force in the place of another.
    pub fn put(&mut self, kind: PlanType, plan: Plan)
        ensures { self.new ≡ plans_with self.old kind plan }
    {
        match kind {
            PlanType::Mission => {
                self.found = None;
                self.mission = plan;
            }
            PlanType::Fence => {
                self.found = None;
                self.fence = plan;
            }
            PlanType::Safe => self.safe = plan,
        }
    }

    /// Tells an item of the mission.
    pub fn tell_mission(&mut self, seq: u16, item: Item)
        requires within { seq < length self.old.mission.items }
        requires item_is { CanBe (told_at self.old.mission seq) item }
        ensures { self.new ≡ record self.old { mission = with_told self.old.mission seq item } }
    {
        if self.mission.tell(seq, item) {
            self.found = None;
        }
    }

    /// Tells a vertex of the fence.
    pub fn tell_fence(&mut self, seq: u16, item: Item)
        requires within { seq < length self.old.fence.items }
        requires item_is { CanBe (told_at self.old.fence seq) item }
        ensures { self.new ≡ record self.old { fence = with_told self.old.fence seq item } }
    {
        if self.fence.tell(seq, item) {
            self.found = None;
        }
    }

    /// Tells a safe point.
    pub fn tell_safe(&mut self, seq: u16, item: Item)
        requires within { seq < length self.old.safe.items }
        requires item_is { CanBe (told_at self.old.safe seq) item }
        ensures { self.new ≡ record self.old { safe = with_told self.old.safe seq item } }
    {
        self.safe.tell(seq, item);
    }

    /// What is found of the mission with the fence, where both are known.
    pub fn found(&mut self, alloc: Global) -> Result<Option<Found>, AllocError>
        ensures keeps { self.new ≡ self.old }
        ensures found { IfOk result (λ found. MatchOption found (CanJudge self.old → ⊥) (λ judged. IsFound self.old judged)) }
    {
        if let Some(found) = self.found {
            return Ok(Some(found));
        }
        let found = self.judge(alloc)?;
        self.found = found;
        Ok(found)
    }

    /// Judges the mission with the fence, where both are known.
    fn judge(&self, alloc: Global) -> Result<Option<Found>, AllocError>
        ensures { IfOk result (λ found. MatchOption found (CanJudge self.now → ⊥) (λ judged. IsFound self.now judged)) }
    {
        let Some(mission) = self.mission.known(alloc, PlanType::Mission)? else {
            return Ok(None);
        };
        let Some(fence) = self.fence.known(alloc, PlanType::Fence)? else {
            return Ok(None);
        };
        Ok(Some(judged(self.params, self.home, mission.as_slice(), fence.as_slice())))
    }

    /// The return that is chosen from a position and an index of the mission, where what it depends on is known.
    pub fn return_from(
        &mut self,
        alloc: Global,
        position: Option<(i32, i32)>,
        index: u16,
    ) -> Result<Option<ReturnPlan>, AllocError>
        ensures keeps { self.new ≡ self.old }
        ensures chosen { IfOk result (λ chosen. MatchOption chosen (CanReturn self.old → ⊥) (IsReturn self.old position index)) }
    {
        if self.params.rtl_type == 0 {
            self.to_the_nearest(alloc, position, index)
        } else {
            self.along_the_mission(alloc, position, index)
        }
    }

    /// The return to the nearest of the home and the safe points.
    fn to_the_nearest(
        &self,
        alloc: Global,
        position: Option<(i32, i32)>,
        index: u16,
    ) -> Result<Option<ReturnPlan>, AllocError>
        requires { self.now.params.rtl_type ≡ 0 }
        ensures { IfOk result (λ chosen. MatchOption chosen (CanReturn self.now → ⊥) (IsReturn self.now position index)) }
    {
        let Some(fence) = self.fence.known(alloc, PlanType::Fence)? else {
            return Ok(None);
        };
        let Some(safe) = self.safe.known(alloc, PlanType::Safe)? else {
            return Ok(None);
        };
        let polygons = Fence::from_items(fence.as_slice());
        Ok(Some(choose(
            self.params,
            self.home,
            position,
            &polygons,
            safe.as_slice(),
            None,
            false,
            index,
        )))
    }

    /// The return along the mission.
    fn along_the_mission(
        &mut self,
        alloc: Global,
        position: Option<(i32, i32)>,
        index: u16,
    ) -> Result<Option<ReturnPlan>, AllocError>
        requires { (self.old.params.rtl_type == 0) ≡ false }
        ensures keeps { self.new ≡ self.old }
        ensures chosen { IfOk result (λ chosen. MatchOption chosen (CanReturn self.old → ⊥) (IsReturn self.old position index)) }
    {
        let Some(found) = self.found(alloc)? else {
            return Ok(None);
        };
        let polygons = Fence::from_items(&[]);
        Ok(Some(choose(
            self.params,
            self.home,
            position,
            &polygons,
            &[],
            found.landing,
            found.broken.is_none(),
            index,
        )))
    }
}
