//! The numbers of a line are those of its types: what a law on texts asks of a line, each line of a program has.

ghost use Rattle.std.specs.Prelude.{◌≡◌, length};
ghost use Rattle.std.specs.List.{AllByRecursion};
ghost use Rattle.mission_model.specs.CountsList.{pairs_of};
ghost use Rattle.record_text.specs.Record.{IsOfReader};
ghost use Rattle.record_text.specs.Vehicle.{IsMissionEntry, IsReturnEntry};
ghost use Rattle.record_text.specs.Typed.{IsU8, IsTypedParam, IsTypedPlace, IsTypedItem, IsTypedHead, IsTypedPair, IsTypedCounts, IsTypedMark, IsTypedClient, IsTypedAsked, IsTypedReply, IsTypedSaid, IsTypedAnswer, IsTypedEvent, IsTypedWhat, IsTypedInput, IsTypedNote, IsTyped};

use mission_model::{
    Answer, Asked, Client, Counts, Item, Line, Mark, NavEntry, NavWhat, Note, Param, PlanHead,
    Reply, Said, VehicleLine, WatchInput,
};

fn typed_param(param: &Param)
    ensures { IsTypedParam param.now }
{
    match param {
        Param::Unset => {}
        Param::Milli(thousandths) => {
            let _thousandths = *thousandths;
        }
    }
}

fn typed_item(item: &Item)
    ensures { IsTypedItem item.now }
{
    let _frame = item.frame;
    let _command = item.command;
    let _x = item.x;
    let _y = item.y;
    let _z = item.z;
    typed_param(&item.p1);
    typed_param(&item.p2);
    typed_param(&item.p3);
    typed_param(&item.p4);
}

fn typed_head(head: &PlanHead)
    ensures { IsTypedHead head.now }
{
    let _id = head.id;
    let _count = head.count;
}

fn typed_counts(counts: &Counts)
    ensures { IsTypedCounts counts.now }
{
    let _cells = counts.capacity();
    for place in 0..counts.len() {
        let (_seq, _used) = counts.pair(place);
    }
}

fn typed_mark(mark: &Mark)
    ensures { IsTypedMark mark.now }
{
    let _id = mark.id;
    let _index = mark.index;
    typed_counts(&mark.counts);
}

fn typed_client(client: &Client)
    ensures { IsTypedClient client.now }
{
    match client {
        Client::Nav => {}
        Client::Link(link) => {
            let _link = *link;
        }
        Client::Watch(watch) => {
            let _watch = *watch;
        }
    }
}

fn typed_asked(asked: &Asked)
    ensures { IsTypedAsked asked.now }
{
    match asked {
        Asked::Read { id, seq, .. } => {
            let _numbers = (*id, *seq);
        }
        Asked::Write { id, seq, .. } => {
            let _numbers = (*id, *seq);
        }
        Asked::Commit { id, count, .. } => {
            let _numbers = (*id, *count);
        }
        Asked::SetMark(mark) => typed_mark(mark),
    }
}

fn typed_reply(reply: &Reply)
    ensures { IsTypedReply reply.now }
{
    match reply {
        Reply::Item(item) => typed_item(item),
        Reply::Stale(id) => {
            let _id = *id;
        }
        Reply::Spent(generation) => {
            let _generation = *generation;
        }
        _ => {}
    }
}

fn typed_said(said: &Said)
    ensures { IsTypedSaid said.now }
{
    match said {
        Said::Count { count, .. } => {
            let _count = *count;
        }
        Said::Item(seq) => {
            let _seq = *seq;
        }
        Said::SetCurrent(seq) => {
            let _seq = *seq;
        }
        _ => {}
    }
}

fn typed_answer(answer: &Answer)
    ensures { IsTypedAnswer answer.now }
{
    match answer {
        Answer::RequestInt(seq) => {
            let _seq = *seq;
        }
        Answer::CurrentIs(seq) => {
            let _seq = *seq;
        }
        Answer::Writes { id, seq, item, .. } => {
            let _numbers = (*id, *seq);
            typed_item(item);
        }
        Answer::Commits { id, count, .. } => {
            let _numbers = (*id, *count);
        }
        _ => {}
    }
}

fn typed_event(event: &VehicleLine)
    ensures { IsTypedEvent event.now }
{
    match event {
        VehicleLine::Position { x, y } => {
            let _spot = (*x, *y);
        }
        _ => {}
    }
}

fn typed_note(note: &Note)
    ensures { IsTypedNote note.now }
{
    let _code = note.code;
    let _a = note.a;
    let _b = note.b;
    let _x = note.x;
    let _y = note.y;
}

fn typed_input(input: &WatchInput)
    ensures { IsTypedInput input.now }
{
    let _code = input.code;
    let _a = input.a;
    let _b = input.b;
}

/// What the Navigator does on the way home.
fn typed_return(what: &NavWhat)
    requires { IsReturnEntry what.now }
    ensures { IsTypedWhat what.now }
{
    match what {
        NavWhat::ReturnLeg {
            seq,
            mission,
            fence,
            item,
        } => {
            let _numbers = (*seq, *mission, *fence);
            typed_item(item);
        }
        NavWhat::ReturnSkip {
            seq,
            mission,
            fence,
        } => {
            let _numbers = (*seq, *mission, *fence);
        }
        NavWhat::ReturnHome(home) => {
            let _x = home.x;
            let _y = home.y;
            let _z = home.z;
        }
        NavWhat::ReturnSafe {
            seq,
            safe,
            fence,
            item,
        } => {
            let _numbers = (*seq, *safe, *fence);
            typed_item(item);
        }
        _ => {}
    }
}

/// What the Navigator does in a mission.
fn typed_mission(what: &NavWhat)
    requires { IsMissionEntry what.now }
    ensures { IsTypedWhat what.now }
{
    match what {
        NavWhat::Leg {
            seq,
            mission,
            fence,
            item,
        }
        | NavWhat::Action {
            seq,
            mission,
            fence,
            item,
        } => {
            let _numbers = (*seq, *mission, *fence);
            typed_item(item);
        }
        NavWhat::Jump {
            seq,
            to,
            used,
            mission,
            fence,
        } => {
            let _numbers = (*seq, *to, *used);
            let _plans = (*mission, *fence);
        }
        NavWhat::JumpSpent {
            seq,
            mission,
            fence,
        } => {
            let _numbers = (*seq, *mission, *fence);
        }
        NavWhat::Done { mission, fence } => {
            let _plans = (*mission, *fence);
        }
        _ => {}
    }
}

fn typed_what(what: &NavWhat)
    ensures { IsTypedWhat what.now }
{
    match what {
        NavWhat::Leg { .. }
        | NavWhat::Action { .. }
        | NavWhat::Jump { .. }
        | NavWhat::JumpSpent { .. }
        | NavWhat::Done { .. } => typed_mission(what),
        NavWhat::Pending { seq, .. } => {
            let _seq = *seq;
        }
        NavWhat::Hold {
            rule,
            seq,
            mission,
            fence,
        } => {
            let _numbers = (*rule, *seq);
            let _plans = (*mission, *fence);
        }
        NavWhat::Next(seq) => {
            let _seq = *seq;
        }
        NavWhat::HoldEmpty
        | NavWhat::Idle
        | NavWhat::Taken
        | NavWhat::NextReturn
        | NavWhat::Ignored => {}
        _ => typed_return(what),
    }
}

fn typed_entry(entry: &NavEntry)
    ensures what { IsTypedWhat entry.now.what }
    ensures asked { IsU8 entry.now.asked }
{
    typed_what(&entry.what);
    let _asked = entry.asked;
}

fn typed_heads(heads: &[PlanHead; 3])
    ensures count { length heads.now ≡ 3 }
    ensures heads { AllByRecursion IsTypedHead heads.now }
{
    let [mission, fence, safe] = heads;
    typed_head(mission);
    typed_head(fence);
    typed_head(safe);
}

/// The line of the Navigator or of a watcher.
fn typed_reading(line: &Line)
    requires { IsOfReader line.now }
    ensures { IsTyped line.now }
{
    match line {
        Line::Got { asked, reply } => {
            typed_asked(asked);
            typed_reply(reply);
        }
        Line::Nav { input, entry } => {
            typed_event(input);
            typed_entry(entry);
        }
        Line::Dropped { seq, .. } => {
            let _seq = *seq;
        }
        Line::WatchDid {
            watch,
            input,
            note,
            asked,
        } => {
            let _numbers = (*watch, *asked);
            typed_input(input);
            typed_note(note);
        }
        Line::WatchGot {
            watch,
            asked,
            reply,
            note,
            asks,
        } => {
            let _numbers = (*watch, *asks);
            typed_asked(asked);
            typed_reply(reply);
            typed_note(note);
        }
        _ => {}
    }
}

/// Each number of a line is one of its type. It takes no step that matters; its clause is what the law on texts asks.
pub fn line_is_typed(line: &Line)
    ensures { IsTyped line.now }
{
    match line {
        Line::Boot {
            number,
            heads,
            mark,
        } => {
            let _number = *number;
            typed_heads(heads);
            typed_mark(mark);
        }
        Line::BootCut { number } => {
            let _number = *number;
        }
        Line::Arrived { client, place } | Line::Met { client, place } => {
            typed_client(client);
            let _place = *place;
        }
        Line::Waited { client } => typed_client(client),
        Line::Sent { link, said, answer } => {
            let _link = *link;
            typed_said(said);
            typed_answer(answer);
        }
        Line::Heard {
            link,
            reply,
            answer,
        } => {
            let _link = *link;
            typed_reply(reply);
            typed_answer(answer);
        }
        Line::Took { client, asked } => {
            typed_client(client);
            typed_asked(asked);
        }
        Line::Served { client, reply } => {
            typed_client(client);
            typed_reply(reply);
        }
        Line::End | Line::Stuck => {}
        _ => typed_reading(line),
    }
}
