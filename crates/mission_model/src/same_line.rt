//! Whether two lines of a record are the same, with a contract that says so exactly.

ghost use Rattle.std.specs.Prelude.{◌≡◌, ◌↔◌, IsTrue};

use crate::flight_line::Line;
use crate::message::{Answer, Said};
use crate::plan::{Home, PlanHead};
use crate::request::Client;
use crate::same::{is_same_asked, is_same_head, is_same_item, is_same_mark, is_same_reply};
use crate::vehicle::{NavEntry, NavWhat, VehicleLine};
use crate::watch::{Note, WatchInput};

/// Whether two clients are the same.
pub fn is_same_client(left: &Client, right: &Client) -> bool
    ensures { IsTrue result ↔ (left.now ≡ right.now) }
{
    *left == *right
}

/// Whether two messages, as they are shown, are the same.
pub fn is_same_said(left: &Said, right: &Said) -> bool
    ensures { IsTrue result ↔ (left.now ≡ right.now) }
{
    *left == *right
}

/// Whether two answers to a link are the same.
pub fn is_same_answer(left: &Answer, right: &Answer) -> bool
    ensures { IsTrue result ↔ (left.now ≡ right.now) }
{
    match (*left, *right) {
        (Answer::RequestInt(a), Answer::RequestInt(b)) => a == b,
        (Answer::Ack(a), Answer::Ack(b)) => a == b,
        (Answer::CurrentIs(a), Answer::CurrentIs(b)) => a == b,
        (
            Answer::Writes {
                kind: a,
                id: b,
                seq: c,
                item: d,
            },
            Answer::Writes {
                kind: e,
                id: f,
                seq: g,
                item: h,
            },
        ) => a == e && b == f && c == g && is_same_item(&d, &h),
        (
            Answer::Commits {
                kind: a,
                id: b,
                count: c,
            },
            Answer::Commits {
                kind: d,
                id: e,
                count: f,
            },
        ) => a == d && b == e && c == f,
        (Answer::Nothing, Answer::Nothing) => true,
        _ => false,
    }
}

/// Whether two events of the vehicle are the same.
pub fn is_same_event(left: &VehicleLine, right: &VehicleLine) -> bool
    ensures { IsTrue result ↔ (left.now ≡ right.now) }
{
    *left == *right
}

/// Whether two homes are the same.
pub fn is_same_home(left: &Home, right: &Home) -> bool
    ensures { IsTrue result ↔ (left.now ≡ right.now) }
{
    left.x == right.x && left.y == right.y && left.z == right.z
}

/// Whether two notes of a watcher are the same.
pub fn is_same_note(left: &Note, right: &Note) -> bool
    ensures { IsTrue result ↔ (left.now ≡ right.now) }
{
    left.code == right.code
        && left.a == right.a
        && left.b == right.b
        && left.x == right.x
        && left.y == right.y
}

/// Whether two inputs of a watcher are the same.
pub fn is_same_watch_input(left: &WatchInput, right: &WatchInput) -> bool
    ensures { IsTrue result ↔ (left.now ≡ right.now) }
{
    left.code == right.code && left.a == right.a && left.b == right.b
}

/// Whether the heads of the three plan types are the same.
pub fn is_same_heads(left: &[PlanHead; 3], right: &[PlanHead; 3]) -> bool
    ensures { IsTrue result ↔ (left.now ≡ right.now) }
{
    is_same_head(&left[0], &right[0])
        && is_same_head(&left[1], &right[1])
        && is_same_head(&left[2], &right[2])
}
