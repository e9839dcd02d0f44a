//! A line at the front of bytes, leniently: of any bytes some line is read.

ghost use Rattle.std.specs.Prelude.{◌≡◌};
ghost use Rattle.record_text.specs.LineReading.{up_at, boot_at, meeting_at, is_meeting, sent_at, heard_at, link_at, told_at, did_at, watch_got_at, watch_at, worker_at, entry_at, got_at, drop_at, is_nav_meeting, is_nav_got, nav_at, line_at};

use crate::cursor::{byte, number_u8, number_u16, skip};
use crate::mark_cursor::read_index;
use crate::message_cursor::{read_answer, read_said};
use crate::plan_cursor::{read_head, read_kind};
use crate::request_cursor::{read_asked, read_client, read_reply};
use crate::vehicle_cursor::{read_event, read_note, read_watch_input, read_what};
use mission_model::{Client, Line, NavEntry, Note};

/// A boot that is up.
#[tactic(auto, unfolding(crate::specs::LineReading::up_at))]
fn read_up(number: u16, bytes: &[u8]) -> Line
    ensures { result ≡ up_at number bytes.now }
{
    let (mission, rest) = read_head(skip(bytes, 9));
    let (fence, rest) = read_head(skip(rest, 7));
    let (safe, rest) = read_head(skip(rest, 6));
    let (mark, _) = read_index(mission.id, skip(rest, 4));
    Line::Boot {
        number,
        heads: [mission, fence, safe],
        mark,
    }
}

/// A boot.
#[tactic(auto, unfolding(crate::specs::LineReading::boot_at))]
fn read_boot(bytes: &[u8]) -> Line
    ensures { result ≡ boot_at bytes.now }
{
    let (number, rest) = number_u16(bytes);
    if byte(rest, 1) == b'c' {
        return Line::BootCut { number };
    }
    read_up(number, rest)
}

/// A client's step at a meeting place, or its wait.
#[tactic(auto, unfolding(crate::specs::LineReading::meeting_at))]
fn read_meeting(client: Client, bytes: &[u8]) -> Line
    ensures { result ≡ meeting_at client bytes.now }
{
    match byte(bytes, 0) {
        b'a' => {
            let (place, _) = number_u8(skip(bytes, 8));
            Line::Arrived { client, place }
        }
        b'm' => {
            let (place, _) = number_u8(skip(bytes, 6));
            Line::Met { client, place }
        }
        _ => Line::Waited { client },
    }
}

/// Whether a letter begins a client's step at a meeting place, or its wait.
fn meets(byte: u8) -> bool
    ensures { result ≡ is_meeting byte }
{
    byte == b'a' || byte == b'm' || byte == b'w'
}

/// A message that was handled.
#[tactic(auto, unfolding(crate::specs::LineReading::sent_at))]
fn read_sent(link: u8, bytes: &[u8]) -> Line
    ensures { result ≡ sent_at link bytes.now }
{
    let (said, rest) = read_said(bytes);
    let (answer, _) = read_answer(skip(rest, 3));
    Line::Sent { link, said, answer }
}

/// A reply that a link took.
#[tactic(auto, unfolding(crate::specs::LineReading::heard_at))]
fn read_heard(link: u8, bytes: &[u8]) -> Line
    ensures { result ≡ heard_at link bytes.now }
{
    let (reply, rest) = read_reply(skip(bytes, 6));
    let (answer, _) = read_answer(skip(rest, 3));
    Line::Heard {
        link,
        reply,
        answer,
    }
}

/// A link's line.
#[tactic(auto, unfolding(crate::specs::LineReading::link_at))]
fn read_link(bytes: &[u8]) -> Line
    ensures { result ≡ link_at bytes.now }
{
    let (link, rest) = number_u8(bytes);
    let rest = skip(rest, 1);
    let first = byte(rest, 0);
    if first == b'h' {
        return read_heard(link, rest);
    }
    if meets(first) {
        return read_meeting(Client::Link(link), rest);
    }
    read_sent(link, rest)
}

/// A note, and how many requests were asked.
#[tactic(auto, unfolding(crate::specs::LineReading::told_at))]
fn read_told(bytes: &[u8]) -> (Note, u8)
    ensures { result ≡ told_at bytes.now }
{
    let (note, rest) = read_note(skip(bytes, 8));
    let (asks, _) = number_u8(skip(rest, 6));
    (note, asks)
}

/// An input that a watcher began.
#[tactic(auto, unfolding(crate::specs::LineReading::did_at))]
fn read_did(watch: u8, bytes: &[u8]) -> Line
    ensures { result ≡ did_at watch bytes.now }
{
    let (input, rest) = read_watch_input(skip(bytes, 5));
    let (note, asked) = read_told(rest);
    Line::WatchDid {
        watch,
        input,
        note,
        asked,
    }
}

/// A reply that a watcher took.
#[tactic(auto, unfolding(crate::specs::LineReading::watch_got_at))]
fn read_watch_got(watch: u8, bytes: &[u8]) -> Line
    ensures { result ≡ watch_got_at watch bytes.now }
{
    let (asked, rest) = read_asked(skip(bytes, 4));
    let (reply, rest) = read_reply(skip(rest, 1));
    let (note, asks) = read_told(rest);
    Line::WatchGot {
        watch,
        asked,
        reply,
        note,
        asks,
    }
}

/// A watcher's line.
#[tactic(auto, unfolding(crate::specs::LineReading::watch_at))]
fn read_watch(bytes: &[u8]) -> Line
    ensures { result ≡ watch_at bytes.now }
{
    let (watch, rest) = number_u8(bytes);
    let rest = skip(rest, 1);
    let first = byte(rest, 0);
    if meets(first) {
        return read_meeting(Client::Watch(watch), rest);
    }
    if first == b'd' {
        return read_did(watch, rest);
    }
    read_watch_got(watch, rest)
}

/// A line of the worker.
#[tactic(auto, unfolding(crate::specs::LineReading::worker_at))]
fn read_worker(bytes: &[u8]) -> Line
    ensures { result ≡ worker_at bytes.now }
{
    if byte(bytes, 0) == b't' {
        let (client, rest) = read_client(skip(bytes, 6));
        let (asked, _) = read_asked(skip(rest, 1));
        return Line::Took { client, asked };
    }
    let (client, rest) = read_client(skip(bytes, 7));
    let (reply, _) = read_reply(skip(rest, 1));
    Line::Served { client, reply }
}

/// An event and the entry that answers it.
#[tactic(auto, unfolding(crate::specs::LineReading::entry_at))]
fn read_entry(bytes: &[u8]) -> Line
    ensures { result ≡ entry_at bytes.now }
{
    let (input, rest) = read_event(bytes);
    let (what, rest) = read_what(skip(rest, 3));
    let (asked, _) = number_u8(skip(rest, 6));
    Line::Nav {
        input,
        entry: NavEntry { what, asked },
    }
}

/// A reply that the Navigator took.
#[tactic(auto, unfolding(crate::specs::LineReading::got_at))]
fn read_got(bytes: &[u8]) -> Line
    ensures { result ≡ got_at bytes.now }
{
    let (asked, rest) = read_asked(skip(bytes, 4));
    let (reply, _) = read_reply(skip(rest, 1));
    Line::Got { asked, reply }
}

/// A window that begins anew.
#[tactic(auto, unfolding(crate::specs::LineReading::drop_at))]
fn read_drop(bytes: &[u8]) -> Line
    ensures { result ≡ drop_at bytes.now }
{
    let (kind, rest) = read_kind(skip(bytes, 5));
    let (seq, _) = number_u16(skip(rest, 1));
    Line::Dropped { kind, seq }
}

/// Whether the Navigator's step at a meeting place, or its wait, stands at the front.
fn is_meeting_of_nav(bytes: &[u8]) -> bool
    ensures { result ≡ is_nav_meeting bytes.now }
{
    let first = byte(bytes, 0);
    first == b'a' || first == b'w' || first == b'm' && byte(bytes, 1) == b'e'
}

/// Whether a reply that the Navigator takes stands at the front.
fn is_got_of_nav(bytes: &[u8]) -> bool
    ensures { result ≡ is_nav_got bytes.now }
{
    byte(bytes, 0) == b'g' && byte(bytes, 2) == b't'
}

/// A line of the Navigator.
#[tactic(auto, unfolding(crate::specs::LineReading::nav_at))]
fn read_nav(bytes: &[u8]) -> Line
    ensures { result ≡ nav_at bytes.now }
{
    if is_meeting_of_nav(bytes) {
        return read_meeting(Client::Nav, bytes);
    }
    if byte(bytes, 0) == b'd' {
        return read_drop(bytes);
    }
    if is_got_of_nav(bytes) {
        return read_got(bytes);
    }
    read_entry(bytes)
}

/// The line at the front.
#[tactic(auto, unfolding(crate::specs::LineReading::line_at))]
pub(crate) fn read_line(bytes: &[u8]) -> Line
    ensures { result ≡ line_at bytes.now }
{
    match byte(bytes, 0) {
        b'b' => read_boot(skip(bytes, 5)),
        b'n' => read_nav(skip(bytes, 4)),
        b'l' => read_link(skip(bytes, 5)),
        b'w' => {
            if byte(bytes, 1) == b'o' {
                read_worker(skip(bytes, 7))
            } else {
                read_watch(skip(bytes, 6))
            }
        }
        b'e' => Line::End,
        _ => Line::Stuck,
    }
}
