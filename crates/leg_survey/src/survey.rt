//! The whole survey: the first fence, and each mission over it.

ghost use Rattle.std.specs.Prelude.{◌≡◌, filter, Some, None, IfNone, IfSome, IfOk, OnOk};
ghost use Rattle.std.specs.List.{find};
ghost use Rattle.mission_model.specs.PlanCode.{PlanValid};
ghost use Rattle.mission_model.specs.declared.plan.PlanType.TheVariants as kind;
ghost use Rattle.mission_model.specs.PlanTypes.{is_kind};
ghost use Rattle.leg_survey.specs.Survey.{IsAppended, IsSurvey, TellsMission, TellsMissions, is_fence, is_mission};

use crate::judge::judgement;
use crate::legs::push_legs;
use crate::text::{push_count, push_refusal};
use fence_polygon::Fence;
use mission_model::{Item, NamedPlan, PlanType};
use std::alloc::{AllocError, Global};

/// The text of the survey of a script's plans: `fence NAME`, `fence none` or `fence NAME refused SEQ CODE`, behind which
/// nothing follows; then of each mission `survey NAME refused SEQ CODE`, or a line a leg that is not clear and
/// `survey NAME legs L clear C`. A leg joins two neighbouring items with a position.
pub fn survey_text(alloc: Global, plans: &[NamedPlan]) -> Result<Vec<u8>, AllocError>
    ensures { IfOk result (λ text. IsSurvey plans.now text.items) }
{
    let mut out = Vec::new(alloc);
    let Some(plan) = first_fence(plans) else {
        out.extend_from_slice(b"fence none\n")?;
        push_missions(&mut out, &Fence::from_items(&[]), &[], plans)?;
        return Ok(out);
    };
    let vertices = plan.items.as_slice();
    out.extend_from_slice(b"fence ")?;
    out.extend_from_slice(plan.name.as_slice())?;
    match judgement(PlanType::Fence, vertices) {
        Some(at) => push_refusal(&mut out, at)?,
        None => {
            out.extend_from_slice(b"\n")?;
            push_missions(&mut out, &Fence::from_items(vertices), vertices, plans)?;
        }
    }
    Ok(out)
}

/// The first plan that is a fence.
fn first_fence(plans: &[NamedPlan]) -> Option<&NamedPlan>
    ensures none { IfNone result (find is_fence plans.now ≡ None) }
    ensures some { IfSome result (λ plan. find is_fence plans.now ≡ Some plan.now) }
{
    let mut rest = plans;
    while let Some((plan, more)) = rest.split_first() {
        if is_of(plan, PlanType::Fence) {
            return Some(plan);
        }
        rest = more;
    }
    None
}

/// Appends what is told of each mission among the plans.
fn push_missions(
    out: &mut Vec<u8>,
    fence: &Fence,
    vertices: &[Item],
    plans: &[NamedPlan],
) -> Result<(), AllocError>
    requires valid { PlanValid kind.Fence vertices.now }
    requires same { fence.now ≡ vertices.now }
    ensures { OnOk result (IsAppended (TellsMissions vertices.now (filter is_mission plans.now)) out.old.items out.new.items) }
{
    let mut rest = plans;
    while let Some((plan, more)) = rest.split_first() {
        if is_of(plan, PlanType::Mission) {
            push_mission(out, fence, vertices, plan)?;
        }
        rest = more;
    }
    Ok(())
}

/// Appends what is told of one mission.
fn push_mission(
    out: &mut Vec<u8>,
    fence: &Fence,
    vertices: &[Item],
    plan: &NamedPlan,
) -> Result<(), AllocError>
    requires valid { PlanValid kind.Fence vertices.now }
    requires same { fence.now ≡ vertices.now }
    ensures { OnOk result (IsAppended (TellsMission vertices.now plan.now) out.old.items out.new.items) }
{
    let name = plan.name.as_slice();
    let items = plan.items.as_slice();
    match judgement(PlanType::Mission, items) {
        Some(at) => {
            out.extend_from_slice(b"survey ")?;
            out.extend_from_slice(name)?;
            push_refusal(out, at)
        }
        None => {
            let (count, clear) = push_legs(out, fence, vertices, items)?;
            push_count(out, name, count, clear)
        }
    }
}

/// Whether the plan is of the type.
fn is_of(plan: &NamedPlan, kind: PlanType) -> bool
    ensures { result ≡ is_kind plan.now.kind kind }
{
    plan.kind == kind
}
