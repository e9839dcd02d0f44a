//! Clients, what they ask of the worker and what it replies, as text.

ghost use Rattle.std.specs.Prelude.{◌≡◌, ◌++◌, OnOk};
ghost use Rattle.first_record.specs.Requests.{client_text, place_in_plan_text, mark_text, asked_text, reply_text};

use crate::plans::{push_item, push_kind, push_pairs};
use crate::text::Text;
use first_model::{Asked, Client, Mark, PlanType, Reply};
use std::alloc::AllocError;

pub(crate) fn push_client(out: &mut Text, client: &Client) -> Result<(), AllocError>
    ensures { OnOk result (out.new ≡ out.old ++ client_text client.now) }
{
    match client {
        Client::Nav => out.push(b"nav"),
        Client::Link(link) => {
            out.push(b"link ")?;
            out.push_number(*link as u64)
        }
        Client::Watch(watch) => {
            out.push(b"watch ")?;
            out.push_number(*watch as u64)
        }
    }
}

pub(crate) fn push_place_in_plan(
    out: &mut Text,
    kind: PlanType,
    id: u32,
    number: u16,
) -> Result<(), AllocError>
    ensures { OnOk result (out.new ≡ out.old ++ place_in_plan_text kind id number) }
{
    push_kind(out, kind)?;
    out.push(b" ")?;
    out.push_number(id as u64)?;
    out.push(b"/")?;
    out.push_number(number as u64)
}

fn push_mark(out: &mut Text, mark: &Mark) -> Result<(), AllocError>
    ensures { OnOk result (out.new ≡ out.old ++ mark_text mark.now) }
{
    out.push_number(mark.id as u64)?;
    out.push(b"/")?;
    out.push_number(mark.index as u64)?;
    push_pairs(out, &mark.counts)
}

pub(crate) fn push_asked(out: &mut Text, asked: &Asked) -> Result<(), AllocError>
    ensures { OnOk result (out.new ≡ out.old ++ asked_text asked.now) }
{
    match asked {
        Asked::Read { kind, id, seq } => {
            out.push(b"read ")?;
            push_place_in_plan(out, *kind, *id, *seq)
        }
        Asked::Write { kind, id, seq } => {
            out.push(b"write ")?;
            push_place_in_plan(out, *kind, *id, *seq)
        }
        Asked::Commit { kind, id, count } => {
            out.push(b"commit ")?;
            push_place_in_plan(out, *kind, *id, *count)
        }
        Asked::SetMark(mark) => {
            out.push(b"mark ")?;
            push_mark(out, mark)
        }
    }
}

pub(crate) fn push_reply(out: &mut Text, reply: &Reply) -> Result<(), AllocError>
    ensures { OnOk result (out.new ≡ out.old ++ reply_text reply.now) }
{
    match reply {
        Reply::Item(item) => {
            out.push(b"item ")?;
            push_item(out, item)
        }
        Reply::Stale(id) => {
            out.push(b"stale ")?;
            out.push_number(*id as u64)
        }
        Reply::Done => out.push(b"done"),
        Reply::DiskFailed => out.push(b"failed"),
        Reply::PowerOff => out.push(b"off"),
        Reply::Spent(generation) => {
            out.push(b"spent ")?;
            out.push_number(*generation)
        }
    }
}
