//! The lines of the record, as text: each line's words with one space between them, ended by LF.

ghost use Rattle.std.specs.Prelude.{◌≡◌, ◌++◌, ◌↔◌, All, IsTrue, OnOk, IfOk};
ghost use Rattle.record_text.specs.Record.{IsOnMission, IsPrintable, IsOfReader, heads_text, asks_text, told_text, at_place_text, got_text, words_text, line_text_of, LineText, RecordText};
ghost use Rattle.record_text.specs.Messages.{IsPrintableSaid};
ghost use Rattle.mission_model.specs.declared.flight_line.Line.TheVariants as line;

use crate::messages::{is_printable_said, push_answer, push_said};
use crate::plans::{push_head, push_kind, push_pairs};
use crate::requests::{push_asked, push_client, push_reply};
use crate::text::{push_number, push_signed, push_word};
use crate::vehicle::{push_event, push_what};
use crate::watch::{push_note, push_watch_input};
use mission_model::{
    Answer, Asked, Client, Line, Mark, NavEntry, Note, PlanHead, Reply, Said, VehicleLine,
    WatchInput,
};
use std::alloc::{AllocError, Global};

fn push_heads(out: &mut Vec<u8>, heads: &[PlanHead; 3]) -> Result<(), AllocError>
    ensures { OnOk result (out.new.items ≡ out.old.items ++ heads_text heads.now) }
{
    let [mission, fence, safe] = heads;
    push_word(out, b" mission ")?;
    push_head(out, mission)?;
    push_word(out, b" fence ")?;
    push_head(out, fence)?;
    push_word(out, b" safe ")?;
    push_head(out, safe)
}

fn push_boot(
    out: &mut Vec<u8>,
    number: u16,
    heads: &[PlanHead; 3],
    mark: &Mark,
) -> Result<(), AllocError>
    ensures { OnOk result (out.new.items ≡ out.old.items ++ words_text (line.Boot number heads.now mark.now)) }
{
    push_word(out, b"boot ")?;
    push_number(out, number as u64)?;
    push_heads(out, heads)?;
    push_word(out, b" at ")?;
    push_number(out, mark.index as u64)?;
    push_pairs(out, &mark.counts)
}

fn push_at_place(
    out: &mut Vec<u8>,
    client: &Client,
    word: &[u8],
    place: u8,
) -> Result<(), AllocError>
    ensures { OnOk result (out.new.items ≡ out.old.items ++ at_place_text client.now word.now place) }
{
    push_client(out, client)?;
    push_word(out, word)?;
    push_number(out, place as u64)
}

fn push_sent(out: &mut Vec<u8>, link: u8, said: &Said, answer: &Answer) -> Result<(), AllocError>
    requires { IsPrintableSaid said.now }
    ensures { OnOk result (out.new.items ≡ out.old.items ++ words_text (line.Sent link said.now answer.now)) }
{
    push_word(out, b"link ")?;
    push_number(out, link as u64)?;
    push_word(out, b" ")?;
    push_said(out, said)?;
    push_word(out, b" > ")?;
    push_answer(out, answer)
}

fn push_heard(out: &mut Vec<u8>, link: u8, reply: &Reply, answer: &Answer) -> Result<(), AllocError>
    ensures { OnOk result (out.new.items ≡ out.old.items ++ words_text (line.Heard link reply.now answer.now)) }
{
    push_word(out, b"link ")?;
    push_number(out, link as u64)?;
    push_word(out, b" hears ")?;
    push_reply(out, reply)?;
    push_word(out, b" > ")?;
    push_answer(out, answer)
}

fn push_took(out: &mut Vec<u8>, client: &Client, asked: &Asked) -> Result<(), AllocError>
    ensures { OnOk result (out.new.items ≡ out.old.items ++ words_text (line.Took client.now asked.now)) }
{
    push_word(out, b"worker takes ")?;
    push_client(out, client)?;
    push_word(out, b" ")?;
    push_asked(out, asked)
}

fn push_served(out: &mut Vec<u8>, client: &Client, reply: &Reply) -> Result<(), AllocError>
    ensures { OnOk result (out.new.items ≡ out.old.items ++ words_text (line.Served client.now reply.now)) }
{
    push_word(out, b"worker serves ")?;
    push_client(out, client)?;
    push_word(out, b" ")?;
    push_reply(out, reply)
}

fn push_got(out: &mut Vec<u8>, asked: &Asked, reply: &Reply) -> Result<(), AllocError>
    ensures { OnOk result (out.new.items ≡ out.old.items ++ got_text asked.now reply.now) }
{
    push_word(out, b"got ")?;
    push_asked(out, asked)?;
    push_word(out, b" ")?;
    push_reply(out, reply)
}

fn push_asks(out: &mut Vec<u8>, number: u8) -> Result<(), AllocError>
    ensures { OnOk result (out.new.items ≡ out.old.items ++ asks_text number) }
{
    push_word(out, b" asks ")?;
    push_number(out, number as u64)
}

fn push_nav(out: &mut Vec<u8>, event: &VehicleLine, entry: &NavEntry) -> Result<(), AllocError>
    ensures { OnOk result (out.new.items ≡ out.old.items ++ words_text (line.Nav event.now entry.now)) }
{
    push_word(out, b"nav ")?;
    push_event(out, event)?;
    push_word(out, b" > ")?;
    push_what(out, &entry.what)?;
    push_asks(out, entry.asked)
}

fn push_told(out: &mut Vec<u8>, note: &Note, asks: u8) -> Result<(), AllocError>
    ensures { OnOk result (out.new.items ≡ out.old.items ++ told_text note.now asks) }
{
    push_word(out, b" > note ")?;
    push_note(out, note)?;
    push_asks(out, asks)
}

fn push_watch_did(
    out: &mut Vec<u8>,
    watch: u8,
    input: &WatchInput,
    note: &Note,
    asked: u8,
) -> Result<(), AllocError>
    ensures { OnOk result (
        out.new.items ≡ out.old.items ++ words_text (line.WatchDid watch input.now note.now asked)) }
{
    push_word(out, b"watch ")?;
    push_number(out, watch as u64)?;
    push_word(out, b" does ")?;
    push_watch_input(out, input)?;
    push_told(out, note, asked)
}

fn push_watch_got(
    out: &mut Vec<u8>,
    watch: u8,
    asked: &Asked,
    reply: &Reply,
    note: &Note,
    asks: u8,
) -> Result<(), AllocError>
    ensures { OnOk result (
        out.new.items ≡ out.old.items ++ words_text (line.WatchGot watch asked.now reply.now note.now asks)) }
{
    push_word(out, b"watch ")?;
    push_number(out, watch as u64)?;
    push_word(out, b" ")?;
    push_got(out, asked, reply)?;
    push_told(out, note, asks)
}

/// The words of the Navigator's and of a watcher's line.
fn push_reading(out: &mut Vec<u8>, line: &Line) -> Result<(), AllocError>
    requires { IsOfReader line.now }
    ensures { OnOk result (out.new.items ≡ out.old.items ++ words_text line.now) }
{
    match line {
        Line::Got { asked, reply } => {
            push_word(out, b"nav ")?;
            push_got(out, asked, reply)
        }
        Line::Nav { input, entry } => push_nav(out, input, entry),
        Line::Dropped { kind, seq } => {
            push_word(out, b"nav drop ")?;
            push_kind(out, *kind)?;
            push_word(out, b" ")?;
            push_number(out, *seq as u64)
        }
        Line::WatchDid {
            watch,
            input,
            note,
            asked,
        } => push_watch_did(out, *watch, input, note, *asked),
        Line::WatchGot {
            watch,
            asked,
            reply,
            note,
            asks,
        } => push_watch_got(out, *watch, asked, reply, note, *asks),
        _ => unreachable!(),
    }
}

fn push_words(out: &mut Vec<u8>, line: &Line) -> Result<(), AllocError>
    requires { IsPrintable line.now }
    ensures { OnOk result (out.new.items ≡ out.old.items ++ words_text line.now) }
{
    match line {
        Line::Boot {
            number,
            heads,
            mark,
        } => push_boot(out, *number, heads, mark),
        Line::BootCut { number } => {
            push_word(out, b"boot ")?;
            push_number(out, *number as u64)?;
            push_word(out, b" cut")
        }
        Line::Arrived { client, place } => push_at_place(out, client, b" arrives ", *place),
        Line::Met { client, place } => push_at_place(out, client, b" meets ", *place),
        Line::Waited { client } => {
            push_client(out, client)?;
            push_word(out, b" waits")
        }
        Line::Sent { link, said, answer } => push_sent(out, *link, said, answer),
        Line::Heard {
            link,
            reply,
            answer,
        } => push_heard(out, *link, reply, answer),
        Line::Took { client, asked } => push_took(out, client, asked),
        Line::Served { client, reply } => push_served(out, client, reply),
        Line::Got { .. }
        | Line::Nav { .. }
        | Line::Dropped { .. }
        | Line::WatchDid { .. }
        | Line::WatchGot { .. } => push_reading(out, line),
        Line::End => push_word(out, b"end"),
        Line::Stuck => push_word(out, b"stuck"),
    }
}

fn push_line(out: &mut Vec<u8>, line: &Line) -> Result<(), AllocError>
    requires { IsPrintable line.now }
    ensures { OnOk result (out.new.items ≡ out.old.items ++ line_text_of line.now) }
{
    push_words(out, line)?;
    push_word(out, b"\n")
}

fn is_on_mission(heads: &[PlanHead; 3], mark: &Mark) -> bool
    ensures { IsTrue result ↔ IsOnMission heads.now mark.now }
{
    let [mission, _, _] = heads;
    mark.id == mission.id
}

/// Whether the line has one reading: its message names a plan type by its number or all of them by
/// 255, and the mark of a boot is on the mission in force.
pub fn is_printable(line: &Line) -> bool
    ensures { IsTrue result ↔ IsPrintable line.now }
{
    match line {
        Line::Boot { heads, mark, .. } => is_on_mission(heads, mark),
        Line::Sent { said, .. } => is_printable_said(said),
        _ => true,
    }
}

/// Appends the text of a line, with its LF. Numbers are in the units of the line's types, as 1e-7 degree,
/// millimetre and thousandth. The only error is want of memory, which may leave a part of the text.
pub fn append_line(out: &mut Vec<u8>, line: &Line) -> Result<(), AllocError>
    requires { IsPrintable line.now }
    ensures { OnOk result (out.new.items ≡ out.old.items ++ line_text_of line.now) }
{
    push_line(out, line)
}

/// The text of one line, with its LF. The only error is want of memory.
pub fn line_text(alloc: Global, line: &Line) -> Result<Vec<u8>, AllocError>
    requires { IsPrintable line.now }
    ensures { IfOk result (λ bytes. LineText line.now bytes.items) }
{
    let mut out = Vec::new(alloc);
    append_line(&mut out, line)?;
    Ok(out)
}

/// The text of a record: the texts of its lines, one after the other, so that a record that is given
/// line by line is the same text. The only error is want of memory.
pub fn record_text(alloc: Global, lines: &[Line]) -> Result<Vec<u8>, AllocError>
    requires { All IsPrintable lines.now }
    ensures { IfOk result (λ bytes. RecordText lines.now bytes.items) }
{
    let mut out = Vec::new(alloc);
    for line in lines {
        append_line(&mut out, line)?;
    }
    Ok(out)
}
