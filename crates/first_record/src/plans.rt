//! Plan types, heads, items and marks, as text.

ghost use Rattle.std.specs.Prelude.{◌≡◌, ◌++◌, OnOk};
ghost use Rattle.first_model.specs.CountsList.{pairs_of};
ghost use Rattle.first_record.specs.Plans.{kind_text, head_text, param_text, flag_text, params_text, place_text, item_text, pair_text, pairs_text};

use crate::text::Text;
use first_model::{Counts, Item, Param, PlanHead, PlanType};
use std::alloc::AllocError;

pub(crate) fn push_kind(out: &mut Text, kind: PlanType) -> Result<(), AllocError>
    ensures { OnOk result (out.new ≡ out.old ++ kind_text kind) }
{
    match kind {
        PlanType::Mission => out.push(b"mission"),
        PlanType::Fence => out.push(b"fence"),
        PlanType::Safe => out.push(b"safe"),
    }
}

pub(crate) fn push_head(out: &mut Text, head: &PlanHead) -> Result<(), AllocError>
    ensures { OnOk result (out.new ≡ out.old ++ head_text head.now) }
{
    out.push_number(head.id as u64)?;
    out.push(b"/")?;
    out.push_number(head.count as u64)
}

fn push_param(out: &mut Text, param: &Param) -> Result<(), AllocError>
    ensures { OnOk result (out.new ≡ out.old ++ param_text param.now) }
{
    match param {
        Param::Unset => out.push(b"-"),
        Param::Milli(thousandths) => out.push_signed(thousandths),
    }
}

fn push_flag(out: &mut Text, flag: bool) -> Result<(), AllocError>
    ensures { OnOk result (out.new ≡ out.old ++ flag_text flag) }
{
    out.push(if flag { b"1" } else { b"0" })
}

fn push_params(out: &mut Text, item: &Item) -> Result<(), AllocError>
    ensures { OnOk result (out.new ≡ out.old ++ params_text item.now) }
{
    push_param(out, &item.p1)?;
    out.push(b" ")?;
    push_param(out, &item.p2)?;
    out.push(b" ")?;
    push_param(out, &item.p3)?;
    out.push(b" ")?;
    push_param(out, &item.p4)
}

pub(crate) fn push_place(out: &mut Text, x: &i32, y: &i32, z: &i32) -> Result<(), AllocError>
    ensures { OnOk result (out.new ≡ out.old ++ place_text x.now y.now z.now) }
{
    out.push_signed(x)?;
    out.push(b" ")?;
    out.push_signed(y)?;
    out.push(b" ")?;
    out.push_signed(z)
}

pub(crate) fn push_item(out: &mut Text, item: &Item) -> Result<(), AllocError>
    ensures { OnOk result (out.new ≡ out.old ++ item_text item.now) }
{
    out.push_number(item.frame as u64)?;
    out.push(b" ")?;
    out.push_number(item.command as u64)?;
    out.push(b" ")?;
    push_params(out, item)?;
    out.push(b" ")?;
    push_place(out, &item.x, &item.y, &item.z)?;
    out.push(b" ")?;
    push_flag(out, item.auto)
}

fn push_pair(out: &mut Text, pair: (u16, u16)) -> Result<(), AllocError>
    ensures { OnOk result (out.new ≡ out.old ++ pair_text pair) }
{
    let (seq, used) = pair;
    out.push(b" ")?;
    out.push_number(seq as u64)?;
    out.push(b":")?;
    out.push_number(used as u64)
}

pub(crate) fn push_pairs(out: &mut Text, counts: &Counts) -> Result<(), AllocError>
    ensures { OnOk result (out.new ≡ out.old ++ pairs_text (pairs_of counts.now)) }
{
    for place in 0..counts.len() {
        push_pair(out, counts.pair(place))?;
    }
    Ok(())
}
