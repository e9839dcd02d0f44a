//! Items written as a plan text.

ghost use Rattle.std.specs.Prelude.{◌≡◌, ◌+◌, ◌∷◌, ◌++◌, [], ◌<◌, ◌≤◌, length, decimal, All, IfOk, OnOk};
ghost use Rattle.first_num.specs.Decimal.{decimal_of};
ghost use Rattle.first_model.specs.declared.limits.TheConstants.{MAX_PLAN_ROWS};
ghost use Rattle.first_wpl.specs.declared.fields.TheConstants.{MAX_NUMBER, MAX_SMALL};
ghost use Rattle.first_wpl.specs.Printed.{IsNumberWord, IsParamWord, ReadsBack};
ghost use Rattle.first_wpl.specs.Wpl.{Wpl};
ghost use Rattle.first_wpl.specs.Writing.{param_text, current_of, flag_of, head_words, param_words, position_words, tabbed, row_text, row_texts, wpl_text};

use crate::fields::{HEIGHT_SCALE, PARAM_SCALE, PLACE_SCALE};
use crate::lines::HEADER;
use first_model::{Item, Param};
use first_num::print_scaled;
use first_text::join_text;
use itoa::Buffer;
use std::alloc::{AllocError, Global};

fn push_digits(out: &mut Vec<u8>, number: u64) -> Result<(), AllocError>
    ensures { OnOk result (out.new.items ≡ out.old.items ++ decimal number) }
{
    let mut buffer = Buffer::new();
    out.extend_from_slice(buffer.format(number).as_bytes())
}

/// A whole number and a tab.
fn push_whole(out: &mut Vec<u8>, number: u64) -> Result<(), AllocError>
    ensures { OnOk result (out.new.items ≡ out.old.items ++ (decimal number ++ 9 ∷ [])) }
{
    push_digits(out, number)?;
    out.push(b'\t')?;
    Ok(())
}

/// A scaled number and a tab.
#[tactic(auto, using(crate::proofs::PrintedWords::number_word))]
fn push_number(out: &mut Vec<u8>, number: &i32, scale: u8) -> Result<(), AllocError>
    requires { scale ≤ 9 }
    ensures word { IsNumberWord (decimal_of number.now scale) scale number.now }
    ensures ok { OnOk result (out.new.items ≡ out.old.items ++ (decimal_of number.now scale ++ 9 ∷ [])) }
{
    print_scaled(out, *number, scale)?;
    out.push(b'\t')?;
    Ok(())
}

/// A parameter and a tab.
fn push_param(out: &mut Vec<u8>, param: &Param) -> Result<(), AllocError>
    ensures word { IsParamWord (param_text param.now) param.now }
    ensures ok { OnOk result (out.new.items ≡ out.old.items ++ (param_text param.now ++ 9 ∷ [])) }
{
    match param {
        Param::Unset => out.extend_from_slice(b"nan\t"),
        Param::Milli(number) => push_number(out, number, PARAM_SCALE),
    }
}

fn push_head(out: &mut Vec<u8>, place: u64, item: &Item) -> Result<(), AllocError>
    ensures command { OnOk result (item.now.command ≤ MAX_NUMBER) }
    ensures ok { OnOk result (out.new.items ≡ out.old.items ++ tabbed (head_words place item.now)) }
{
    let current = if place == 0 { 1 } else { 0 };
    push_whole(out, place)?;
    push_whole(out, current)?;
    push_whole(out, u64::from(item.frame))?;
    push_whole(out, u64::from(item.command))
}

fn push_params(out: &mut Vec<u8>, item: &Item) -> Result<(), AllocError>
    ensures p1 { OnOk result (IsParamWord (param_text item.now.p1) item.now.p1) }
    ensures p2 { OnOk result (IsParamWord (param_text item.now.p2) item.now.p2) }
    ensures p3 { OnOk result (IsParamWord (param_text item.now.p3) item.now.p3) }
    ensures p4 { OnOk result (IsParamWord (param_text item.now.p4) item.now.p4) }
    ensures ok { OnOk result (out.new.items ≡ out.old.items ++ tabbed (param_words item.now)) }
{
    push_param(out, &item.p1)?;
    push_param(out, &item.p2)?;
    push_param(out, &item.p3)?;
    push_param(out, &item.p4)
}

fn push_position(out: &mut Vec<u8>, item: &Item) -> Result<(), AllocError>
    ensures x { OnOk result (IsNumberWord (decimal_of item.now.x PLACE_SCALE) PLACE_SCALE item.now.x) }
    ensures y { OnOk result (IsNumberWord (decimal_of item.now.y PLACE_SCALE) PLACE_SCALE item.now.y) }
    ensures z { OnOk result (IsNumberWord (decimal_of item.now.z HEIGHT_SCALE) HEIGHT_SCALE item.now.z) }
    ensures ok { OnOk result (out.new.items ≡ out.old.items ++ tabbed (position_words item.now)) }
{
    push_number(out, &item.x, PLACE_SCALE)?;
    push_number(out, &item.y, PLACE_SCALE)?;
    push_number(out, &item.z, HEIGHT_SCALE)
}

/// The row of an item at a place.
fn row(alloc: Global, place: u64, item: &Item) -> Result<Vec<u8>, AllocError>
    ensures back { OnOk result (place < MAX_PLAN_ROWS → item.now.frame ≤ MAX_SMALL → ReadsBack (row_text place item.now) place item.now) }
    ensures text { IfOk result (λ row. row.items ≡ row_text place item.now) }
{
    let mut row = Vec::new(alloc);
    push_head(&mut row, place, item)?;
    push_params(&mut row, item)?;
    push_position(&mut row, item)?;
    push_digits(&mut row, u64::from(item.auto))?;
    Ok(row)
}

/// Writes items as a plan text: the header, then one row for each item with tabs between its
/// fields. Numbers have no more digits than they need, and a parameter that is not given is `nan`.
pub fn write_wpl(alloc: Global, items: &[Item]) -> Result<Vec<u8>, AllocError>
    ensures text { IfOk result (λ text. text.items ≡ wpl_text items.now) }
    // The text of few enough items is a plan text of them, if each frame can stand in a row.
    ensures read_back { length items.now ≤ MAX_PLAN_ROWS → All (λ item. item.frame ≤ MAX_SMALL) items.now → IfOk result (λ text. Wpl text.items items.now) }
{
    let header = Vec::from_slice(alloc, HEADER)?;
    let mut lines = Vec::new(alloc);
    lines.push(header)?;
    for (place, item) in items.iter().enumerate() {
        let row = row(alloc, place as u64, item)?;
        lines.push(row)?;
    }
    join_text(alloc, &lines)
}
