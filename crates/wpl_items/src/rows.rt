//! A row of a plan text, read field by field from left to right: its first faulty field is told.

ghost use Rattle.std.specs.Prelude.{◌≡◌, ℕ, ℤ, ◌<◌, ◌≤◌, Bool, length, All, IfOk, IfErr};
ghost use Rattle.nav_text.specs.Spans.{text_of, IsInside};
ghost use Rattle.nav_text.specs.Words.{words_in};
ghost use Rattle.mission_model.specs.declared.plan.Param.{Param};
ghost use Rattle.mission_model.specs.declared.plan.Item.{Item};
ghost use Rattle.wpl_items.specs.Fields.{named};
ghost use Rattle.wpl_items.specs.Rows.{HeadIs, ParamsAre, PositionIs, RowIs};
ghost use Rattle.wpl_items.specs.Faults.{FaultFrom, Gives, IsRowFault};

use crate::fault::WplFault;
use crate::fields::{
    AUTOCONTINUE, COMMAND, CURRENT, FIELDS, FRAME, HEIGHT, HEIGHT_SCALE, INDEX, LATITUDE,
    LONGITUDE, MAX_NUMBER, MAX_SMALL, PARAM1, PARAM2, PARAM3, PARAM4, PLACE_SCALE, flag_at,
    number_at, param_at, whole_at,
};
use mission_model::limits::MAX_PLAN_ROWS;
use mission_model::{Item, Param};
use nav_text::{MAX_TEXT_BYTES, Span, first_words};

const NO_WORD: Span = Span { from: 0, to: 0 };

/// What the first four fields tell.
#[derive(Clone, Copy)]
struct Head {
    frame: u16,
    command: u16,
}

/// What the parameters' fields tell.
#[derive(Clone, Copy)]
struct Params {
    p1: Param,
    p2: Param,
    p3: Param,
    p4: Param,
}

/// What the last four fields tell.
#[derive(Clone, Copy)]
struct Position {
    x: i32,
    y: i32,
    z: i32,
    auto: bool,
}

/// The first four fields. Which row is the current one is read and dropped.
fn read_head(text: &[u8], words: &[Span], line: u32, place: u32) -> Result<Head, WplFault>
    requires inside { All (IsInside text.now) words.now }
    requires count { length words.now ≡ FIELDS }
    ensures good { IfOk result (λ head. HeadIs (named text.now words.now) place head.frame head.command) }
    ensures only { (frame command : ℕ) → HeadIs (named text.now words.now) place frame command → result ≡ Ok (record { frame = frame; command = command }) }
    ensures bad { IfErr result (FaultFrom (named text.now words.now) place line 1) }
{
    let index = whole_at(text, words, line, INDEX, MAX_NUMBER)?;
    if index != place {
        return Err(WplFault::BadIndex(line));
    }
    let _current = whole_at(text, words, line, CURRENT, MAX_SMALL)?;
    let frame = whole_at(text, words, line, FRAME, MAX_SMALL)?;
    let command = whole_at(text, words, line, COMMAND, MAX_NUMBER)?;
    Ok(Head {
        frame: frame as u16,
        command: command as u16,
    })
}

/// The four parameters.
fn read_params(text: &[u8], words: &[Span], line: u32, place: u32) -> Result<Params, WplFault>
    requires inside { All (IsInside text.now) words.now }
    requires count { length words.now ≡ FIELDS }
    ensures good { IfOk result (λ ps. ParamsAre (named text.now words.now) ps.p1 ps.p2 ps.p3 ps.p4) }
    ensures only { (p1 p2 p3 p4 : Param) → ParamsAre (named text.now words.now) p1 p2 p3 p4 → result ≡ Ok (record { p1 = p1; p2 = p2; p3 = p3; p4 = p4 }) }
    ensures bad { IfErr result (FaultFrom (named text.now words.now) place line 5) }
{
    let p1 = param_at(text, words, line, PARAM1)?;
    let p2 = param_at(text, words, line, PARAM2)?;
    let p3 = param_at(text, words, line, PARAM3)?;
    let p4 = param_at(text, words, line, PARAM4)?;
    Ok(Params { p1, p2, p3, p4 })
}

/// The place on the globe, the height, and whether the vehicle goes on by itself.
fn read_position(text: &[u8], words: &[Span], line: u32, place: u32) -> Result<Position, WplFault>
    requires inside { All (IsInside text.now) words.now }
    requires count { length words.now ≡ FIELDS }
    ensures good { IfOk result (λ at. PositionIs (named text.now words.now) at.x at.y at.z at.auto) }
    ensures only { (x y z : ℤ) (auto : Bool) → PositionIs (named text.now words.now) x y z auto → result ≡ Ok (record { x = x; y = y; z = z; auto = auto }) }
    ensures bad { IfErr result (FaultFrom (named text.now words.now) place line 9) }
{
    let x = number_at(text, words, line, LATITUDE, PLACE_SCALE)?;
    let y = number_at(text, words, line, LONGITUDE, PLACE_SCALE)?;
    let z = number_at(text, words, line, HEIGHT, HEIGHT_SCALE)?;
    let auto = flag_at(text, words, line, AUTOCONTINUE)?;
    Ok(Position { x, y, z, auto })
}

/// A row of twelve words.
fn full_row(text: &[u8], words: &[Span], line: u32, place: u32) -> Result<Item, WplFault>
    requires inside { All (IsInside text.now) words.now }
    requires count { length words.now ≡ FIELDS }
    ensures good { IfOk result (λ item. RowIs (named text.now words.now) place item) }
    ensures only { (item : Item) → RowIs (named text.now words.now) place item → result ≡ Ok item }
    ensures bad { IfErr result (FaultFrom (named text.now words.now) place line 1) }
{
    let head = read_head(text, words, line, place)?;
    let params = read_params(text, words, line, place)?;
    let position = read_position(text, words, line, place)?;
    Ok(Item {
        frame: head.frame,
        command: head.command,
        p1: params.p1,
        p2: params.p2,
        p3: params.p3,
        p4: params.p4,
        x: position.x,
        y: position.y,
        z: position.z,
        auto: position.auto,
    })
}

/// The row in a line, of which the place is counted from 0.
pub(crate) fn read_row(text: &[u8], line: Span, place: u32) -> Result<Item, WplFault>
    requires room { length text.now ≤ MAX_TEXT_BYTES }
    requires inside { IsInside text.now line }
    requires small { place ≤ MAX_PLAN_ROWS }
    ensures below { IfOk result (λ item. place < MAX_PLAN_ROWS) }
    ensures good { IfOk result (λ item. RowIs (words_in (text_of text.now line)) place item) }
    ensures only { place < MAX_PLAN_ROWS → (item : Item) → RowIs (words_in (text_of text.now line)) place item → Gives result item }
    ensures bad { IfErr result (IsRowFault (words_in (text_of text.now line)) place) }
{
    let number = place + 2;
    if place >= u32::from(MAX_PLAN_ROWS) {
        return Err(WplFault::TooMany(number));
    }
    let mut words = [NO_WORD; FIELDS];
    if first_words(text, line, &mut words) != FIELDS {
        return Err(WplFault::FieldCount(number));
    }
    full_row(text, &words, number, place)
}
