//! How a plan is judged by itself.

ghost use Rattle.leg_survey.specs.Judged.{IsJudged};

use mission_model::{AckCode, Item, PlanType, check_plan};

/// Where a plan of this type is refused first, if anywhere: the seq, from 0, and its MAV_MISSION_RESULT.
pub fn judgement(kind: PlanType, items: &[Item]) -> Option<(u16, AckCode)>
    ensures { IsJudged kind items.now result }
{
    match check_plan(kind, items) {
        Ok(()) => None,
        Err(at) => Some(at),
    }
}
