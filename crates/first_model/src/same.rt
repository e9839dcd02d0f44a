//! Whether two values are the same, with a contract that says so exactly.

ghost use Rattle.std.specs.Prelude.{◌≡◌, ◌↔◌, IsTrue};

use crate::counts::Mark;
use crate::plan::{Item, Param, PlanHead};
use crate::request::{Asked, Reply};

/// Whether two parameters are the same.
pub fn is_same_param(left: &Param, right: &Param) -> bool
    ensures { IsTrue result ↔ (left.now ≡ right.now) }
{
    match (*left, *right) {
        (Param::Unset, Param::Unset) => true,
        (Param::Milli(a), Param::Milli(b)) => a == b,
        _ => false,
    }
}

fn is_same_params(left: &Item, right: &Item) -> bool
    ensures { IsTrue result ↔ ((left.now.p1 ≡ right.now.p1) × (left.now.p2 ≡ right.now.p2) × (left.now.p3 ≡ right.now.p3) × (left.now.p4 ≡ right.now.p4)) }
{
    is_same_param(&left.p1, &right.p1)
        && is_same_param(&left.p2, &right.p2)
        && is_same_param(&left.p3, &right.p3)
        && is_same_param(&left.p4, &right.p4)
}

fn is_same_place(left: &Item, right: &Item) -> bool
    ensures { IsTrue result ↔ ((left.now.x ≡ right.now.x) × (left.now.y ≡ right.now.y) × (left.now.z ≡ right.now.z)) }
{
    left.x == right.x && left.y == right.y && left.z == right.z
}

/// Whether two items are the same.
pub fn is_same_item(left: &Item, right: &Item) -> bool
    ensures { IsTrue result ↔ (left.now ≡ right.now) }
{
    left.frame == right.frame
        && left.command == right.command
        && left.auto == right.auto
        && is_same_params(left, right)
        && is_same_place(left, right)
}

/// Whether two heads are the same.
pub fn is_same_head(left: &PlanHead, right: &PlanHead) -> bool
    ensures { IsTrue result ↔ (left.now ≡ right.now) }
{
    left.id == right.id && left.count == right.count
}

/// Whether two marks are the same.
pub fn is_same_mark(left: &Mark, right: &Mark) -> bool
    ensures { IsTrue result ↔ (left.now ≡ right.now) }
{
    left.id == right.id && left.index == right.index && left.counts.is_same(&right.counts)
}

/// Whether two requests, as they are shown, are the same.
pub fn is_same_asked(left: &Asked, right: &Asked) -> bool
    ensures { IsTrue result ↔ (left.now ≡ right.now) }
{
    match (*left, *right) {
        (
            Asked::Read {
                kind: a,
                id: b,
                seq: c,
            },
            Asked::Read {
                kind: d,
                id: e,
                seq: f,
            },
        ) => { a == d && b == e && c == f }
        (
            Asked::Write {
                kind: a,
                id: b,
                seq: c,
            },
            Asked::Write {
                kind: d,
                id: e,
                seq: f,
            },
        ) => { a == d && b == e && c == f }
        (
            Asked::Commit {
                kind: a,
                id: b,
                count: c,
            },
            Asked::Commit {
                kind: d,
                id: e,
                count: f,
            },
        ) => a == d && b == e && c == f,
        (Asked::SetMark(a), Asked::SetMark(b)) => is_same_mark(&a, &b),
        _ => false,
    }
}

/// Whether two replies are the same.
pub fn is_same_reply(left: &Reply, right: &Reply) -> bool
    ensures { IsTrue result ↔ (left.now ≡ right.now) }
{
    match (*left, *right) {
        (Reply::Item(a), Reply::Item(b)) => is_same_item(&a, &b),
        (Reply::Stale(a), Reply::Stale(b)) => a == b,
        (Reply::Done, Reply::Done) => true,
        (Reply::DiskFailed, Reply::DiskFailed) => true,
        (Reply::PowerOff, Reply::PowerOff) => true,
        (Reply::Spent(a), Reply::Spent(b)) => a == b,
        _ => false,
    }
}
