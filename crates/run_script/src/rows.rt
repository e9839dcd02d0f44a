//! Finds the row of a line, and reads its words by it.

ghost use Rattle.std.specs.Prelude.{◌≡◌, ◌≤◌, ◌≤ℤ◌, ℤ, IfOk, IfErr, IfSome, MatchResult, option_map, MatchOption, find, Ok, Err, Some, None};
ghost use Rattle.std.specs.List.{list_any};
ghost use Rattle.run_script.specs.Lines.{word, may_stand, agrees, agrees_with, is_of, row_among, found_or, Reads, ReadsRow, IsGood, IsBad, IsNumberFault, FirstBad};
ghost use Rattle.nav_num.specs.Whole.{whole_number};
ghost use Rattle.nav_num.specs.Faults.{ReadsAs};
ghost use Rattle.run_script.specs.Numbers.{value_of, signed_number};
ghost use Rattle.run_script.specs.declared.value.Value.{Value};
ghost use Rattle.run_script.specs.declared.value.Values.{Values};

use crate::choices::number_among;
use crate::fault::ScriptFault;
use crate::numbers::{hex_number, is_code, signed_number, whole};
use crate::table::{HEIGHT_SCALE, PLACE_SCALE, Row, Slot};
use crate::value::{Value, Values};
use crate::words::{KEPT_WORDS, Line};
use nav_num::read_scaled;

/// Whether a word may stand in a slot, as far as the slot selects the form.
fn may_stand(slot: Slot, word: &[u8]) -> bool
    ensures { result ≡ may_stand slot word.now }
{
    match slot {
        Slot::Nothing => false,
        Slot::Word(choice) | Slot::OneOf(choice) => number_among(choice, word).is_some(),
        Slot::Code(number) => is_code(word, number),
        _ => true,
    }
}

#[inline(always)]
fn agrees(slot: Slot, place: usize, line: &Line<'_>) -> bool
    requires first { 1 ≤ place }
    requires last { place ≤ KEPT_WORDS }
    ensures { result ≡ agrees slot place line.now }
{
    line.count() < place || may_stand(slot, line.word(place))
}

/// Whether each word that is there and selects a form may stand in a row.
#[inline(always)]
fn agrees_with(line: &Line<'_>, row: &Row) -> bool
    ensures { result ≡ agrees_with line.now row.now }
{
    agrees(row.second, 2, line)
        && agrees(row.third, 3, line)
        && agrees(row.fourth, 4, line)
        && agrees(row.fifth, 5, line)
        && agrees(row.sixth, 6, line)
}

#[inline(always)]
fn is_of(line: &Line<'_>, row: &Row) -> bool
    ensures { result ≡ is_of line.now row.now }
{
    line.count() == row.words && agrees_with(line, row)
}

fn find_row<'a>(rows: &'a [Row], line: &Line<'_>) -> Option<&'a Row>
    ensures { MatchOption result (find (is_of line.now) rows.now ≡ None) (λ row. find (is_of line.now) rows.now ≡ Some row.now) }
{
    match rows {
        [] => None,
        [row, more @ ..] => {
            if is_of(line, row) {
                Some(row)
            } else {
                find_row(more, line)
            }
        }
    }
}

fn any_agrees(rows: &[Row], line: &Line<'_>) -> bool
    ensures { result ≡ list_any (agrees_with line.now) rows.now }
{
    rows.iter().any(|row| agrees_with(line, row))
}

/// The row of a line among these.
#[tactic(auto, unfolding(crate::specs::Lines::row_among))]
pub(crate) fn row_among<'a>(rows: &'a [Row], line: &Line<'_>) -> Result<&'a Row, ScriptFault>
    ensures { MatchResult result (λ row. row_among rows.now line.now ≡ Ok row.now) (λ fault. row_among rows.now line.now ≡ Err fault) }
{
    match find_row(rows, line) {
        Some(row) => Ok(row),
        None => {
            if any_agrees(rows, line) {
                Err(ScriptFault::Words)
            } else {
                Err(ScriptFault::Unknown)
            }
        }
    }
}

/// What a word stands for in a slot.
fn read_slot(slot: Slot, word: &[u8]) -> Option<Value>
    ensures good { IfSome result (λ value. Reads slot word.now value) }
    ensures only { (value : Value) → Reads slot word.now value → result ≡ Some value }
{
    match slot {
        Slot::End | Slot::Nothing | Slot::Word(_) | Slot::Name => Some(Value::Word),
        Slot::Never => None,
        Slot::OneOf(choice) => byte_value(number_among(choice, word)),
        Slot::Code(number) => Some(Value::Short(number)),
        Slot::Byte(least, greatest) => byte_within(word, least, greatest),
        Slot::Short(least, greatest) => short_within(word, least, greatest),
        Slot::Long(least, greatest) => long_within(word, least, greatest),
        Slot::Signed(least, greatest) => signed_within(word, least, greatest),
        Slot::Height(least, greatest) => scaled_within(word, HEIGHT_SCALE, least, greatest),
        Slot::Degrees(least, greatest) => scaled_within(word, PLACE_SCALE, least, greatest),
        Slot::Hex => byte_value(hex_number(word)),
    }
}

fn byte_value(number: Option<u8>) -> Option<Value>
    ensures { result ≡ option_map Value.Byte number }
{
    match number {
        Some(number) => Some(Value::Byte(number)),
        None => None,
    }
}

fn byte_within(word: &[u8], least: u8, greatest: u8) -> Option<Value>
    ensures { result ≡ option_map Value.Byte (value_of (whole_number least greatest word.now)) }
{
    match whole(word, u32::from(least), u32::from(greatest)) {
        Some(number) => Some(Value::Byte(number as u8)),
        None => None,
    }
}

fn short_within(word: &[u8], least: u16, greatest: u16) -> Option<Value>
    ensures { result ≡ option_map Value.Short (value_of (whole_number least greatest word.now)) }
{
    match whole(word, u32::from(least), u32::from(greatest)) {
        Some(number) => Some(Value::Short(number as u16)),
        None => None,
    }
}

fn long_within(word: &[u8], least: u32, greatest: u32) -> Option<Value>
    ensures { result ≡ option_map Value.Long (value_of (whole_number least greatest word.now)) }
{
    match whole(word, least, greatest) {
        Some(number) => Some(Value::Long(number)),
        None => None,
    }
}

fn signed_within(word: &[u8], least: i32, greatest: i32) -> Option<Value>
    ensures good { IfSome result (λ value. (n : ℤ) × (signed_number word.now ≡ Some n) × (least ≤ℤ n) × (n ≤ℤ greatest) × (value ≡ Value.Signed n)) }
    ensures only { (n : ℤ) → signed_number word.now ≡ Some n → least ≤ℤ n → n ≤ℤ greatest → result ≡ Some (Value.Signed n) }
{
    match signed_number(word) {
        Some(number) if least <= number && number <= greatest => Some(Value::Signed(number)),
        _ => None,
    }
}

fn scaled_within(word: &[u8], scale: u8, least: i32, greatest: i32) -> Option<Value>
    requires { scale ≤ 9 }
    ensures good { IfSome result (λ value. (n : ℤ) × ReadsAs word.now scale n × (least ≤ℤ n) × (n ≤ℤ greatest) × (value ≡ Value.Signed n)) }
    ensures only { (n : ℤ) → ReadsAs word.now scale n → least ≤ℤ n → n ≤ℤ greatest → result ≡ Some (Value.Signed n) }
{
    match read_scaled(word, scale) {
        Ok(number) if least <= number && number <= greatest => Some(Value::Signed(number)),
        _ => None,
    }
}

/// What the word at a place stands for. In front of most places the line has ended.
#[inline(always)]
fn read_place(slot: Slot, place: u8, line: &Line<'_>) -> Result<Value, ScriptFault>
    requires first { 1 ≤ place }
    requires last { place ≤ KEPT_WORDS }
    ensures good { IfOk result (λ value. Reads slot (word place line.now) value) }
    ensures only { (value : Value) → Reads slot (word place line.now) value → result ≡ Ok value }
    ensures bad { IfErr result (λ fault. (fault ≡ ScriptFault.Number place) × IsBad slot (word place line.now)) }
{
    match slot {
        Slot::End | Slot::Word(_) => Ok(Value::Word),
        _ => read_word(slot, place, line),
    }
}

fn read_word(slot: Slot, place: u8, line: &Line<'_>) -> Result<Value, ScriptFault>
    requires first { 1 ≤ place }
    requires last { place ≤ KEPT_WORDS }
    ensures good { IfOk result (λ value. Reads slot (word place line.now) value) }
    ensures only { (value : Value) → Reads slot (word place line.now) value → result ≡ Ok value }
    ensures bad { IfErr result (λ fault. (fault ≡ ScriptFault.Number place) × IsBad slot (word place line.now)) }
{
    match read_slot(slot, line.word(place as usize)) {
        Some(value) => Ok(value),
        None => Err(ScriptFault::Number(place)),
    }
}

/// What the words of a line stand for in a row.
pub(crate) fn read_row(row: &Row, line: &Line<'_>) -> Result<Values, ScriptFault>
    ensures good { IfOk result (λ values. ReadsRow row.now line.now values) }
    ensures only { (values : Values) → ReadsRow row.now line.now values → result ≡ Ok values }
    ensures bad { IfErr result (λ fault. IsNumberFault row.now line.now fault) }
{
    let second = read_place(row.second, 2, line)?;
    let third = read_place(row.third, 3, line)?;
    let fourth = read_place(row.fourth, 4, line)?;
    let fifth = read_place(row.fifth, 5, line)?;
    let sixth = read_place(row.sixth, 6, line)?;
    Ok(Values {
        second,
        third,
        fourth,
        fifth,
        sixth,
    })
}
