//! One field of a row: its word, and the number that the word stands for.

ghost use Rattle.std.specs.Prelude.{◌≡◌, ℕ, ℤ, ◌<◌, ◌≤◌, Bool, length, All, IfOk, IfErr, MatchOption};
ghost use Rattle.nav_text.specs.Spans.{IsInside};
ghost use Rattle.nav_num.specs.declared.fault.NumFault.{NumFault};
ghost use Rattle.nav_num.specs.Faults.{ReadsAs, HasFault};
ghost use Rattle.mission_model.specs.declared.plan.Param.{Param};
ghost use Rattle.wpl_items.specs.Fields.{named, word_at, IsWhole, NotWhole, IsNan, ReadsParam, ReadsFlag};

use crate::fault::WplFault;
use mission_model::Param;
use nav_num::{read_scaled, read_whole};
use nav_text::Span;

pub(crate) const INDEX: u8 = 1;

pub(crate) const CURRENT: u8 = 2;

pub(crate) const FRAME: u8 = 3;

pub(crate) const COMMAND: u8 = 4;

pub(crate) const PARAM1: u8 = 5;

pub(crate) const PARAM2: u8 = 6;

pub(crate) const PARAM3: u8 = 7;

pub(crate) const PARAM4: u8 = 8;

pub(crate) const LATITUDE: u8 = 9;

pub(crate) const LONGITUDE: u8 = 10;

pub(crate) const HEIGHT: u8 = 11;

pub(crate) const AUTOCONTINUE: u8 = 12;

/// Fields of a row.
pub(crate) const FIELDS: usize = 12;
/// The greatest index and command.
pub(crate) const MAX_NUMBER: u32 = 65_535;
/// The greatest frame, current and autocontinue.
pub(crate) const MAX_SMALL: u32 = 255;
/// Parameters are thousandths.
pub(crate) const PARAM_SCALE: u8 = 3;
/// Latitude and longitude are 1e-7 degree.
pub(crate) const PLACE_SCALE: u8 = 7;
/// Heights are millimetres.
pub(crate) const HEIGHT_SCALE: u8 = 3;

/// The word of a field, counted from 1.
fn word<'a>(text: &'a [u8], words: &[Span], field: u8) -> &'a [u8]
    requires inside { All (IsInside text.now) words.now }
    requires first { 0 < field }
    requires last { field ≤ length words.now }
    ensures { result.now ≡ word_at (named text.now words.now) field }
{
    let span = words[field as usize - 1];
    &text[span.from as usize..span.to as usize]
}

/// The whole number of one to ten digits that a word is, if it is at most the limit.
fn whole(word: &[u8], limit: u32) -> Option<u32>
    ensures { MatchOption result (NotWhole limit word.now) (λ n. IsWhole limit word.now n) }
{
    match read_whole(word, 0, limit) {
        Ok(number) => Some(number),
        Err(_) => None,
    }
}

/// A whole number up to a limit.
fn whole_word(word: &[u8], line: u32, field: u8, limit: u32) -> Result<u32, WplFault>
    ensures good { IfOk result (λ n. IsWhole limit word.now n) }
    ensures only { (n : ℕ) → IsWhole limit word.now n → result ≡ Ok n }
    ensures bad { IfErr result (λ told. (told ≡ WplFault.BadWhole line field) × NotWhole limit word.now) }
{
    match whole(word, limit) {
        Some(number) => Ok(number),
        None => Err(WplFault::BadWhole(line, field)),
    }
}

/// A flag: a whole number that is 0 or not.
fn flag_word(word: &[u8], line: u32, field: u8) -> Result<bool, WplFault>
    ensures good { IfOk result (λ flag. ReadsFlag word.now flag) }
    ensures only { (flag : Bool) → ReadsFlag word.now flag → result ≡ Ok flag }
    ensures bad { IfErr result (λ told. (told ≡ WplFault.BadWhole line field) × NotWhole MAX_SMALL word.now) }
{
    match whole(word, MAX_SMALL) {
        Some(number) => Ok(number != 0),
        None => Err(WplFault::BadWhole(line, field)),
    }
}

/// A number at a scale.
fn number_word(word: &[u8], line: u32, field: u8, scale: u8) -> Result<i32, WplFault>
    requires { scale ≤ 9 }
    ensures good { IfOk result (λ n. ReadsAs word.now scale n) }
    ensures only { (n : ℤ) → ReadsAs word.now scale n → result ≡ Ok n }
    ensures bad { IfErr result (λ told. (fault : NumFault) × (told ≡ WplFault.Num line field fault) × HasFault word.now scale fault) }
{
    match read_scaled(word, scale) {
        Ok(number) => Ok(number),
        Err(fault) => Err(WplFault::Num(line, field, fault)),
    }
}

/// A parameter.
fn param_word(word: &[u8], line: u32, field: u8) -> Result<Param, WplFault>
    ensures good { IfOk result (λ param. ReadsParam word.now param) }
    ensures only { (param : Param) → ReadsParam word.now param → result ≡ Ok param }
    ensures bad { IfErr result (λ told. (fault : NumFault) × (told ≡ WplFault.Num line field fault) × (¬ (IsNan word.now)) × HasFault word.now PARAM_SCALE fault) }
{
    if word.eq_ignore_ascii_case(b"nan") {
        return Ok(Param::Unset);
    }
    match read_scaled(word, PARAM_SCALE) {
        Ok(number) => Ok(Param::Milli(number)),
        Err(fault) => Err(WplFault::Num(line, field, fault)),
    }
}

/// The whole number up to a limit in a field.
pub(crate) fn whole_at(
    text: &[u8],
    words: &[Span],
    line: u32,
    field: u8,
    limit: u32,
) -> Result<u32, WplFault>
    requires inside { All (IsInside text.now) words.now }
    requires first { 0 < field }
    requires last { field ≤ length words.now }
    ensures good { IfOk result (λ value. IsWhole limit (word_at (named text.now words.now) field) value) }
    ensures only { (value : ℕ) → IsWhole limit (word_at (named text.now words.now) field) value → result ≡ Ok value }
    ensures bad { IfErr result (λ told. (told ≡ WplFault.BadWhole line field) × NotWhole limit (word_at (named text.now words.now) field)) }
{
    whole_word(word(text, words, field), line, field, limit)
}

/// The flag in a field.
pub(crate) fn flag_at(text: &[u8], words: &[Span], line: u32, field: u8) -> Result<bool, WplFault>
    requires inside { All (IsInside text.now) words.now }
    requires first { 0 < field }
    requires last { field ≤ length words.now }
    ensures good { IfOk result (λ value. ReadsFlag (word_at (named text.now words.now) field) value) }
    ensures only { (value : Bool) → ReadsFlag (word_at (named text.now words.now) field) value → result ≡ Ok value }
    ensures bad { IfErr result (λ told. (told ≡ WplFault.BadWhole line field) × NotWhole MAX_SMALL (word_at (named text.now words.now) field)) }
{
    flag_word(word(text, words, field), line, field)
}

/// The number at a scale in a field.
pub(crate) fn number_at(
    text: &[u8],
    words: &[Span],
    line: u32,
    field: u8,
    scale: u8,
) -> Result<i32, WplFault>
    requires inside { All (IsInside text.now) words.now }
    requires first { 0 < field }
    requires last { field ≤ length words.now }
    requires scale { scale ≤ 9 }
    ensures good { IfOk result (λ value. ReadsAs (word_at (named text.now words.now) field) scale value) }
    ensures only { (value : ℤ) → ReadsAs (word_at (named text.now words.now) field) scale value → result ≡ Ok value }
    ensures bad { IfErr result (λ told. (fault : NumFault) × (told ≡ WplFault.Num line field fault) × HasFault (word_at (named text.now words.now) field) scale fault) }
{
    number_word(word(text, words, field), line, field, scale)
}

/// The parameter in a field.
pub(crate) fn param_at(text: &[u8], words: &[Span], line: u32, field: u8) -> Result<Param, WplFault>
    requires inside { All (IsInside text.now) words.now }
    requires first { 0 < field }
    requires last { field ≤ length words.now }
    ensures good { IfOk result (λ value. ReadsParam (word_at (named text.now words.now) field) value) }
    ensures only { (value : Param) → ReadsParam (word_at (named text.now words.now) field) value → result ≡ Ok value }
    ensures bad { IfErr result (λ told. (fault : NumFault) × (told ≡ WplFault.Num line field fault) × (¬ (IsNan (word_at (named text.now words.now) field))) × HasFault (word_at (named text.now words.now) field) PARAM_SCALE fault) }
{
    param_word(word(text, words, field), line, field)
}
