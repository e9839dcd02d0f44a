//! Clients, what they ask of the worker and what it replies, as text.

ghost use Rattle.std.specs.Prelude.{◌≡◌, ◌++◌, OnOk};
ghost use Rattle.record_text.specs.Requests.{client_text, place_in_plan_text, mark_text, asked_text, reply_text};

use crate::plans::{push_item, push_kind, push_pairs};
use crate::text::{push_number, push_signed, push_word};
use mission_model::{Asked, Client, Mark, PlanType, Reply};
use std::alloc::AllocError;

pub(crate) fn push_client(out: &mut Vec<u8>, client: &Client) -> Result<(), AllocError>
    ensures { OnOk result (out.new.items ≡ out.old.items ++ client_text client.now) }
{
    match client {
        Client::Nav => push_word(out, b"nav"),
        Client::Link(link) => {
            push_word(out, b"link ")?;
            push_number(out, *link as u64)
        }
        Client::Watch(watch) => {
            push_word(out, b"watch ")?;
            push_number(out, *watch as u64)
        }
    }
}

pub(crate) fn push_place_in_plan(
    out: &mut Vec<u8>,
    kind: PlanType,
    id: u32,
    number: u16,
) -> Result<(), AllocError>
    ensures { OnOk result (out.new.items ≡ out.old.items ++ place_in_plan_text kind id number) }
{
    push_kind(out, kind)?;
    push_word(out, b" ")?;
    push_number(out, id as u64)?;
    push_word(out, b"/")?;
    push_number(out, number as u64)
}

fn push_mark(out: &mut Vec<u8>, mark: &Mark) -> Result<(), AllocError>
    ensures { OnOk result (out.new.items ≡ out.old.items ++ mark_text mark.now) }
{
    push_number(out, mark.id as u64)?;
    push_word(out, b"/")?;
    push_number(out, mark.index as u64)?;
    push_pairs(out, &mark.counts)
}

pub(crate) fn push_asked(out: &mut Vec<u8>, asked: &Asked) -> Result<(), AllocError>
    ensures { OnOk result (out.new.items ≡ out.old.items ++ asked_text asked.now) }
{
    match asked {
        Asked::Read { kind, id, seq } => {
            push_word(out, b"read ")?;
            push_place_in_plan(out, *kind, *id, *seq)
        }
        Asked::Write { kind, id, seq } => {
            push_word(out, b"write ")?;
            push_place_in_plan(out, *kind, *id, *seq)
        }
        Asked::Commit { kind, id, count } => {
            push_word(out, b"commit ")?;
            push_place_in_plan(out, *kind, *id, *count)
        }
        Asked::SetMark(mark) => {
            push_word(out, b"mark ")?;
            push_mark(out, mark)
        }
    }
}

pub(crate) fn push_reply(out: &mut Vec<u8>, reply: &Reply) -> Result<(), AllocError>
    ensures { OnOk result (out.new.items ≡ out.old.items ++ reply_text reply.now) }
{
    match reply {
        Reply::Item(item) => {
            push_word(out, b"item ")?;
            push_item(out, item)
        }
        Reply::Stale(id) => {
            push_word(out, b"stale ")?;
            push_number(out, *id as u64)
        }
        Reply::Done => push_word(out, b"done"),
        Reply::DiskFailed => push_word(out, b"failed"),
        Reply::PowerOff => push_word(out, b"off"),
        Reply::Spent(generation) => {
            push_word(out, b"spent ")?;
            push_number(out, *generation)
        }
    }
}
