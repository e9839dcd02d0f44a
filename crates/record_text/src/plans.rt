//! Plan types, heads, items and marks, as text.

ghost use Rattle.std.specs.Prelude.{◌≡◌, ◌++◌, OnOk};
ghost use Rattle.mission_model.specs.CountsList.{pairs_of};
ghost use Rattle.record_text.specs.Plans.{kind_text, head_text, param_text, flag_text, params_text, place_text, item_text, pair_text, pairs_text};

use crate::text::{push_number, push_signed, push_word};
use mission_model::{Counts, Item, Param, PlanHead, PlanType};
use std::alloc::AllocError;

pub(crate) fn push_kind(out: &mut Vec<u8>, kind: PlanType) -> Result<(), AllocError>
    ensures { OnOk result (out.new.items ≡ out.old.items ++ kind_text kind) }
{
    match kind {
        PlanType::Mission => push_word(out, b"mission"),
        PlanType::Fence => push_word(out, b"fence"),
        PlanType::Safe => push_word(out, b"safe"),
    }
}

pub(crate) fn push_head(out: &mut Vec<u8>, head: &PlanHead) -> Result<(), AllocError>
    ensures { OnOk result (out.new.items ≡ out.old.items ++ head_text head.now) }
{
    push_number(out, head.id as u64)?;
    push_word(out, b"/")?;
    push_number(out, head.count as u64)
}

fn push_param(out: &mut Vec<u8>, param: &Param) -> Result<(), AllocError>
    ensures { OnOk result (out.new.items ≡ out.old.items ++ param_text param.now) }
{
    match param {
        Param::Unset => push_word(out, b"-"),
        Param::Milli(thousandths) => push_signed(out, thousandths),
    }
}

fn push_flag(out: &mut Vec<u8>, flag: bool) -> Result<(), AllocError>
    ensures { OnOk result (out.new.items ≡ out.old.items ++ flag_text flag) }
{
    push_word(out, if flag { b"1" } else { b"0" })
}

fn push_params(out: &mut Vec<u8>, item: &Item) -> Result<(), AllocError>
    ensures { OnOk result (out.new.items ≡ out.old.items ++ params_text item.now) }
{
    push_param(out, &item.p1)?;
    push_word(out, b" ")?;
    push_param(out, &item.p2)?;
    push_word(out, b" ")?;
    push_param(out, &item.p3)?;
    push_word(out, b" ")?;
    push_param(out, &item.p4)
}

pub(crate) fn push_place(out: &mut Vec<u8>, x: &i32, y: &i32, z: &i32) -> Result<(), AllocError>
    ensures { OnOk result (out.new.items ≡ out.old.items ++ place_text x.now y.now z.now) }
{
    push_signed(out, x)?;
    push_word(out, b" ")?;
    push_signed(out, y)?;
    push_word(out, b" ")?;
    push_signed(out, z)
}

pub(crate) fn push_item(out: &mut Vec<u8>, item: &Item) -> Result<(), AllocError>
    ensures { OnOk result (out.new.items ≡ out.old.items ++ item_text item.now) }
{
    push_number(out, item.frame as u64)?;
    push_word(out, b" ")?;
    push_number(out, item.command as u64)?;
    push_word(out, b" ")?;
    push_params(out, item)?;
    push_word(out, b" ")?;
    push_place(out, &item.x, &item.y, &item.z)?;
    push_word(out, b" ")?;
    push_flag(out, item.auto)
}

fn push_pair(out: &mut Vec<u8>, pair: (u16, u16)) -> Result<(), AllocError>
    ensures { OnOk result (out.new.items ≡ out.old.items ++ pair_text pair) }
{
    let (seq, used) = pair;
    push_word(out, b" ")?;
    push_number(out, seq as u64)?;
    push_word(out, b":")?;
    push_number(out, used as u64)
}

pub(crate) fn push_pairs(out: &mut Vec<u8>, counts: &Counts) -> Result<(), AllocError>
    ensures { OnOk result (out.new.items ≡ out.old.items ++ pairs_text (pairs_of counts.now)) }
{
    for place in 0..counts.len() {
        push_pair(out, counts.pair(place))?;
    }
    Ok(())
}
