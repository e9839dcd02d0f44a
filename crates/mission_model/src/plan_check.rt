//! The check of a plan: item by item as an upload brings them, without memory, or all items at once. A fence's polygons
//! stand one after the other; the check keeps the first vertex of the polygon that still lacks vertices.

ghost use Rattle.std.specs.Prelude.{◌≡◌, ◌+◌, ◌<◌, ◌≤◌, ◌↔◌, [], length, IsTrue, is_some, Some, None, IsOk, IfErr, OnOk, OnErr, MatchResult, if◌then◌else◌};
ghost use Rattle.mission_model.specs.Command.{jump_of};
ghost use Rattle.mission_model.specs.PlanCode.{limit_of, jump_code_at, Accepted, PlanValid, FirstRefused};
ghost use Rattle.mission_model.specs.PlanCheck.{Checked, HasRoom, CountsTaken, AnswersByCode, JoinsItem, TakesItem, vertex_code_by, polygon_with, one_fewer};

use crate::command::{jump_of, vertex_count};
use crate::item_check::check_item;
use crate::limits::MAX_JUMPS;
use crate::message::AckCode;
use crate::plan::{Item, PlanType};
use crate::plan_type::limit_of;

/// A check of a plan that takes its items one by one.
#[derive(Clone, Copy)]
pub struct PlanCheck {
    kind: PlanType,
    count: u16,
    taken: u16,
    jumps: usize,
    polygon: Option<OpenPolygon>,
}

/// A polygon that lacks vertices.
#[derive(Clone, Copy)]
struct OpenPolygon {
    first: Item,
    missing: u32,
}

impl PlanCheck {
    /// Begins the check of a plan of `count` items.
    pub fn begin(kind: PlanType, count: u16) -> PlanCheck
        ensures { Checked result kind count [] }
    {
        PlanCheck {
            kind,
            count,
            taken: 0,
            jumps: 0,
            polygon: None,
        }
    }

    /// Takes the next item, or refuses it with its code: that of `check_item` first, then `NoSpace` for a jump too
    /// many, then `Invalid` for a jump out of the plan or to itself, a polygon of more vertices than items are left,
    /// and a vertex unlike the first of its polygon.
    pub fn next(&mut self, item: &Item) -> Result<(), AckCode>
        requires { HasRoom self.old }
        ensures code { AnswersByCode self.old item.now result }
        ensures ok { OnOk result (JoinsItem self.old item.now self.new) }
        ensures err { OnErr result (self.new ≡ self.old) }
    {
        *self = self.with_item(item)?;
        Ok(())
    }

    /// Whether fewer items were taken than the plan has.
    pub fn has_room(&self) -> bool
        ensures { IsTrue result ↔ HasRoom self.now }
    {
        self.taken < self.count
    }

    /// The number of items that were taken: the seq of the next one.
    pub fn taken(&self) -> u16
        ensures { CountsTaken self.now result }
    {
        self.taken
    }

    /// The check once it has taken this item.
    fn with_item(&self, item: &Item) -> Result<PlanCheck, AckCode>
        requires { HasRoom self.now }
        ensures { TakesItem self.now item.now result }
    {
        check_item(self.kind, item)?;
        let taken = self.taken + 1;
        match self.kind {
            PlanType::Mission => {
                let jumps = jumps_with(self.jumps, self.taken, self.count, item)?;
                Ok(PlanCheck {
                    taken,
                    jumps,
                    ..*self
                })
            }
            PlanType::Fence => {
                let polygon = polygon_with(self.polygon, self.count - self.taken, item)?;
                Ok(PlanCheck {
                    taken,
                    polygon,
                    ..*self
                })
            }
            PlanType::Safe => Ok(PlanCheck { taken, ..*self }),
        }
    }
}

/// The number of jumps with this item among them.
fn jumps_with(jumps: usize, place: u16, count: u16, item: &Item) -> Result<usize, AckCode>
    ensures { let code = jump_code_at count place jumps (jump_of item.now) in
        MatchResult result
        (λ more. (code ≡ None) × (more ≡ jumps + (if is_some (jump_of item.now) then 1 else 0)))
        (λ refusal. code ≡ Some refusal) }
{
    let Some(jump) = jump_of(item) else {
        return Ok(jumps);
    };
    if jumps >= MAX_JUMPS {
        return Err(AckCode::NoSpace);
    }
    if jump.target >= count || jump.target == place {
        return Err(AckCode::Invalid);
    }
    Ok(jumps + 1)
}

/// The polygon that lacks vertices once this vertex has come.
fn polygon_with(
    polygon: Option<OpenPolygon>,
    left: u16,
    item: &Item,
) -> Result<Option<OpenPolygon>, AckCode>
    ensures { let code = vertex_code_by polygon left item.now in
        MatchResult result
        (λ after. (code ≡ None) × (after ≡ polygon_with polygon item.now))
        (λ refusal. code ≡ Some refusal) }
{
    match polygon {
        None => {
            let size = vertex_count(item);
            if size > u32::from(left) {
                return Err(AckCode::Invalid);
            }
            Ok(one_fewer(*item, size))
        }
        Some(OpenPolygon { first, missing }) => {
            if item.command != first.command || item.p1 != first.p1 {
                return Err(AckCode::Invalid);
            }
            Ok(one_fewer(first, missing))
        }
    }
}

/// A polygon of which one more of the missing vertices has come.
fn one_fewer(first: Item, missing: u32) -> Option<OpenPolygon>
    ensures { result ≡ one_fewer first missing }
{
    if missing > 1 {
        Some(OpenPolygon {
            first,
            missing: missing - 1,
        })
    } else {
        None
    }
}

/// Checks a whole plan: the first refused place, from 0, and its code. A list over the limit of its type is refused at
/// the limit with `NoSpace`, whatever its items are.
pub fn check_plan(kind: PlanType, items: &[Item]) -> Result<(), (u16, AckCode)>
    ensures ok { IsOk result ↔ PlanValid kind items.now }
    ensures over { limit_of kind < length items.now → result ≡ Err (limit_of kind, AckCode.NoSpace) }
    ensures refused { IfErr result (λ at. length items.now ≤ limit_of kind → FirstRefused kind items.now at.0 at.1) }
{
    let limit = limit_of(kind);
    if items.len() > usize::from(limit) {
        return Err((limit, AckCode::NoSpace));
    }
    check_items(kind, items.len() as u16, items)
}

/// Checks the items of a plan of their number.
fn check_items(kind: PlanType, count: u16, items: &[Item]) -> Result<(), (u16, AckCode)>
    requires { count ≡ length items.now }
    ensures { MatchResult result
        (λ _. Accepted kind (length items.now) items.now)
        (λ at. FirstRefused kind items.now at.0 at.1) }
{
    let mut check = PlanCheck::begin(kind, count);
    for item in items {
        if let Err(code) = check.next(item) {
            return Err((check.taken(), code));
        }
    }
    Ok(())
}

#[cfg(test)]
mod tests;
