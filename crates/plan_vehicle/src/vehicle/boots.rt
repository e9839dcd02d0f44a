//! Boots: what a boot line may name, and what it makes of the vehicle.

ghost use Rattle.std.specs.Prelude.{◌≡◌, ◌+◌, ◌<◌, ◌≤◌, IfOk, IsTrue, ◌↔◌, true, false, List, length, Contains, MatchOption};
ghost use Rattle.mission_model.specs.PlainMark.{plain_mark};
ghost use Rattle.mission_model.specs.declared.request.Asked.{Asked as AskedValue};
ghost use Rattle.mission_model.specs.declared.request.Asked.TheVariants as about;
ghost use Rattle.mission_model.specs.declared.plan.Item.{Item};
ghost use Rattle.mission_model.specs.declared.vehicle.Mode.TheVariants as mode;
ghost use Rattle.plan_vehicle.specs.PlanState.{told};
ghost use Rattle.plan_vehicle.specs.Drafts.{draft_of};
ghost use Rattle.plan_vehicle.specs.VehicleState.{VehicleState, plan_of, with_plan, first_mark};
ghost use Rattle.plan_vehicle.specs.Boots.{booted, HasHeads, BeginsWith, IsNamed, CanApply, applied, GoesOnWith, Meets, Boots, IsCut};

use crate::drafts::Drafts;
use crate::marks::{Marks, is_same_place};
use crate::plan::Plan;
use crate::vehicle::Vehicle;
use mission_model::{Asked, Counts, Mark, Mode, PlanHead, PlanType, is_same_head};
use std::alloc::{AllocError, Global};

impl Vehicle {
    /// A boot is up.
    pub(crate) fn boot(
        &mut self,
        alloc: Global,
        number: u16,
        heads: [PlanHead; 3],
        mark: Mark,
    ) -> Result<bool, AllocError>
        ensures yes { IfOk result (λ yes. IsTrue yes → Boots self.old number heads mark self.new) }
        ensures no { IfOk result (λ yes. yes ≡ false → (v : VehicleState) → Boots self.old number heads mark v → ⊥) }
    {
        if !self.is_next(number) || !self.meets(alloc, heads, mark)? {
            return Ok(false);
        }
        self.begin(alloc, number)?;
        Ok(true)
    }

    /// A boot was cut before it was up.
    pub(crate) fn is_cut(&mut self, number: u16) -> bool
        ensures yes { IsTrue result → IsCut self.old number self.new }
        ensures no { result ≡ false → (v : VehicleState) → IsCut self.old number v → ⊥ }
    {
        if !self.is_next(number) {
            return false;
        }
        self.boots = number;
        true
    }

    /// Whether this is the number of the next boot.
    fn is_next(&self, number: u16) -> bool
        ensures { IsTrue result ↔ (number ≡ self.now.boots + 1) }
    {
        u32::from(number) == u32::from(self.boots) + 1
    }

    /// Takes what a boot meets, before it begins.
    fn meets(&mut self, alloc: Global, heads: [PlanHead; 3], mark: Mark) -> Result<bool, AllocError>
        ensures yes { IfOk result (λ yes. IsTrue yes → Meets self.old.is_up self.old heads mark self.new) }
        ensures no { IfOk result (λ yes. yes ≡ false → (found : VehicleState) → Meets self.old.is_up self.old heads mark found → ⊥) }
        ensures boots { self.new.boots ≡ self.old.boots }
    {
        if self.is_up {
            self.goes_on_with(alloc, heads, mark)
        } else {
            self.begins_with(alloc, heads, mark)
        }
    }

    /// Takes the plans and the mark that the first boot names.
    fn begins_with(
        &mut self,
        alloc: Global,
        heads: [PlanHead; 3],
        mark: Mark,
    ) -> Result<bool, AllocError>
        ensures yes { IfOk result (λ yes. IsTrue yes → BeginsWith self.old heads mark self.new) }
        ensures no { IfOk result (λ yes. yes ≡ false → (found : VehicleState) → BeginsWith self.old heads mark found → ⊥) }
        ensures boots { self.new.boots ≡ self.old.boots }
    {
        if mark.id != heads[0].id || mark.index > heads[0].count {
            return Ok(false);
        }
        self.plans.name(alloc, heads)?;
        self.mark = mark;
        Ok(true)
    }

    /// Takes the change that a later boot names, if it names one.
    fn goes_on_with(
        &mut self,
        alloc: Global,
        heads: [PlanHead; 3],
        mark: Mark,
    ) -> Result<bool, AllocError>
        ensures yes { IfOk result (λ yes. IsTrue yes → GoesOnWith self.old heads mark self.new) }
        ensures no { IfOk result (λ yes. yes ≡ false → (found : VehicleState) → GoesOnWith self.old heads mark found → ⊥) }
        ensures boots { self.new.boots ≡ self.old.boots }
    {
        if self.is_named(&heads, &mark) {
            return Ok(true);
        }
        match self.change_for(&heads, &mark) {
            Some(change) => {
                self.apply(alloc, change)?;
                Ok(true)
            }
            None => Ok(false),
        }
    }

    /// Whether the heads and the mark are those of the vehicle.
    fn is_named(&self, heads: &[PlanHead; 3], mark: &Mark) -> bool
        ensures { IsTrue result ↔ IsNamed self.now heads.now mark.now }
    {
        self.has_heads(heads) && is_same_place(&self.mark, mark)
    }

    /// Whether the heads are those of the vehicle.
    fn has_heads(&self, heads: &[PlanHead; 3]) -> bool
        ensures { IsTrue result ↔ HasHeads self.now heads.now }
    {
        self.plans.mission().has_head(heads[0])
            && self.plans.fence().has_head(heads[1])
            && self.plans.safe().has_head(heads[2])
    }

    /// The first change that may have been made with which the vehicle is as the boot names it.
    fn change_for(&self, heads: &[PlanHead; 3], mark: &Mark) -> Option<Asked>
        ensures { MatchOption result
            ((change : AskedValue) → Contains self.now.maybe change → CanApply self.now change → IsNamed (applied self.now change) heads.now mark.now → ⊥)
            (λ change. Contains self.now.maybe change × CanApply self.now change × IsNamed (applied self.now change) heads.now mark.now) }
    {
        for change in &self.maybe {
            if self.is_named_with(*change, heads, mark) {
                return Some(*change);
            }
        }
        None
    }

    /// Whether a change can have been made, and the vehicle with it is as the boot names it.
    fn is_named_with(&self, change: Asked, heads: &[PlanHead; 3], mark: &Mark) -> bool
        ensures { IsTrue result ↔ (CanApply self.now change × IsNamed (applied self.now change) heads.now mark.now) }
    {
        match change {
            Asked::Commit { kind, id, count } => {
                self.can_make(kind, id, count)
                    && self.is_named_with_plan(kind, PlanHead { id, count }, heads, mark)
            }
            Asked::SetMark(other) => { self.has_heads(heads) && is_same_place(&other, mark) }
            _ => false,
        }
    }

    /// Whether a commit can have been made.
    fn can_make(&self, kind: PlanType, id: u32, count: u16) -> bool
        ensures { IsTrue result ↔ CanApply self.now (about.Commit kind id count) }
    {
        self.plan(kind).id() < id && usize::from(count) <= self.drafts.items(kind, id).len()
    }

    /// Whether the vehicle with another plan of a type, of this head, is as the boot names it.
    fn is_named_with_plan(
        &self,
        kind: PlanType,
        head: PlanHead,
        heads: &[PlanHead; 3],
        mark: &Mark,
    ) -> bool
        ensures { (items : List Item) → length items ≡ head.count → IsTrue result ↔ IsNamed (with_plan self.now kind (told head.id items)) heads.now mark.now }
    {
        match kind {
            PlanType::Mission => {
                is_same_head(&head, &heads[0])
                    && self.plans.fence().has_head(heads[1])
                    && self.plans.safe().has_head(heads[2])
                    && is_first_mark(head.id, mark)
            }
            PlanType::Fence => {
                self.plans.mission().has_head(heads[0])
                    && is_same_head(&head, &heads[1])
                    && self.plans.safe().has_head(heads[2])
                    && is_same_place(&self.mark, mark)
            }
            PlanType::Safe => {
                self.plans.mission().has_head(heads[0])
                    && self.plans.fence().has_head(heads[1])
                    && is_same_head(&head, &heads[2])
                    && is_same_place(&self.mark, mark)
            }
        }
    }

    /// Makes a change.
    fn apply(&mut self, alloc: Global, change: Asked) -> Result<(), AllocError>
        requires { CanApply self.old change }
        ensures applied { IfOk result (λ _. self.new ≡ applied self.old change) }
        ensures boots { self.new.boots ≡ self.old.boots }
    {
        match change {
            Asked::Commit { kind, id, count } => {
                let items = self.drafts.items(kind, id);
                let plan = Plan::told(alloc, id, &items[..count as usize])?;
                self.put_plan(kind, plan);
            }
            Asked::SetMark(mark) => self.mark = mark,
            _ => {}
        }
        Ok(())
    }

    /// Puts a plan in the place of that of its type; of a mission the mark is at the first item.
    pub(crate) fn put_plan(&mut self, kind: PlanType, plan: Plan)
        ensures { self.new ≡ with_plan self.old kind plan }
    {
        if kind == PlanType::Mission {
            self.mark = Mark {
                id: plan.id(),
                index: 0,
                counts: Counts::new(),
            };
        }
        self.plans.put(kind, plan);
    }

    /// Begins a boot.
    fn begin(&mut self, alloc: Global, number: u16) -> Result<(), AllocError>
        ensures { IfOk result (λ _. self.new ≡ booted self.old number) }
    {
        let mut passed = Marks::new(alloc);
        passed.push(self.mark)?;
        self.passed = passed;
        self.boots = number;
        self.is_up = true;
        self.maybe = Vec::new(alloc);
        self.drafts = Drafts::new(alloc);
        self.service = None;
        self.hold();
        Ok(())
    }

    /// Holds at the mark.
    fn hold(&mut self)
        ensures { self.new ≡ record self.old { mode = mode.Hold; index = self.old.mark.index; counts = self.old.mark.pairs; at_leg = false; wanted = None; position = None; way = None } }
    {
        self.mode = Mode::Hold;
        self.index = self.mark.index;
        self.counts = self.mark.counts;
        self.at_leg = false;
        self.wanted = None;
        self.position = None;
        self.way = None;
    }
}

/// Whether a mark is that of the first item of this mission, no jump taken.
fn is_first_mark(id: u32, mark: &Mark) -> bool
    ensures { IsTrue result ↔ (first_mark id ≡ plain_mark mark.now) }
{
    mark.id == id && mark.index == 0 && mark.counts.len() == 0
}
