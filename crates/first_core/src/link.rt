//! An uploading link's steps: it takes its replies, and goes through its schedule one message at a time.

ghost use Rattle.std.specs.Prelude.{◌≡◌, ◌<◌, ◌∷◌, drop};
ghost use Rattle.first_model.specs.declared.limits.TheConstants.{MAX_PLACES};
ghost use Rattle.first_core.specs.LinkState.{new_link, link_done, Uploading, LinkFits, HearsFits, SessionFits, IsForLink, item_at};
ghost use Rattle.std.specs.List.{All};
ghost use Rattle.first_core.specs.Keeps.{LinkKeeps};
ghost use Rattle.first_core.specs.LinkLaw.{LinkStep, Answers, AnswersDone, IsFree};
ghost use Rattle.first_board.specs.BoardState.{HasClient, outstanding};

use crate::StepOut;
use crate::schedule::Schedule;
use crate::shared::Shared;
use first_model::{AckCode, Answer, Client, InputLine, Item, Line, PlanType, Reply, Request, Said};
use std::collections::VecDeque;
use std::marker::Model;

/// Where a link is in an upload: the plan's id, the count that it announced, and the seq of the item that is
/// requested or written.
#[derive(Clone, Copy, Debug, PartialEq, Eq)]
pub enum Session {
    Free,
    Receiving { id: u32, count: u16, seq: u16 },
    Writing { id: u32, count: u16, seq: u16 },
    Committing { id: u32, count: u16 },
}

/// An uploading link.
#[derive(Drop)]
pub struct Link {
    pub number: u8,
    pub schedule: Schedule,
    pub session: Session,
}

impl Model for Link {
    ghost use Rattle.first_core.specs.LinkState.{LinkState};

    ghost Value = { LinkState };

    ghost view = { λ a. record { number = a.number; schedule = a.schedule; session = a.session } };
}

impl Link {
    /// A link at the beginning of a boot.
    pub fn new(number: u8, inputs: VecDeque<InputLine>) -> Link
        ensures { result ≡ new_link number inputs.items }
    {
        Link {
            number,
            schedule: Schedule::new(inputs),
            session: Session::Free,
        }
    }

    /// The upload is over.
    fn finish(&mut self)
        ensures { self.new ≡ link_done self.old }
    {
        self.schedule.advance();
        self.session = Session::Free;
    }
}

/// One step of a link: it takes the reply that is posted to it, or, with nothing outstanding, goes on with its
/// schedule.
#[tactic(auto, using(crate::proofs::Inputs::inputs_stay))]
pub fn step(shared: &mut Shared, link: &mut Link) -> StepOut<Line>
    requires client { HasClient shared.old.board (Client.Link link.old.number) }
    requires fits { LinkFits shared.old link.old }
    ensures step { LinkStep shared.old link.old result shared.new link.new }
    ensures keeps { LinkKeeps shared.old link.old shared.new link.new }
{
    let client = Client::Link(link.number);
    match shared.board.take_reply(client) {
        Some((_, reply)) => {
            let answer = answer_to(shared, link, reply);
            StepOut::Made(Line::Heard {
                link: link.number,
                reply,
                answer,
            })
        }
        None => {
            if shared.board.room(client) == 0 {
                StepOut::Idle
            } else {
                go_on(shared, link)
            }
        }
    }
}

/// Answers a reply that was taken from the board.
#[tactic(auto, using(crate::proofs::Inputs::inputs_stay))]
fn answer_to(shared: &mut Shared, link: &mut Link, reply: Reply) -> Answer
    requires client { HasClient shared.old.board (Client.Link link.old.number) }
    requires free { outstanding shared.old.board (Client.Link link.old.number) ≡ 0 }
    requires session { HearsFits link.old.session }
    requires schedule { SessionFits link.old.schedule link.old.session }
    requires inputs { All IsForLink link.old.schedule.inputs }
    ensures answers { Answers shared.old link.old reply result shared.new link.new }
    ensures keeps { LinkKeeps shared.old link.old shared.new link.new }
{
    match (reply, link.session) {
        (Reply::Done, Session::Writing { id, count, seq }) => {
            written(shared, link, id, count, seq)
        }
        (Reply::Done, _) => {
            link.finish();
            Answer::Ack(AckCode::Accepted)
        }
        _ => {
            link.finish();
            Answer::Ack(AckCode::Error)
        }
    }
}

/// An item was written: the next one is requested, or the plan is committed.
#[tactic(auto, using(crate::proofs::Inputs::inputs_stay))]
fn written(shared: &mut Shared, link: &mut Link, id: u32, count: u16, seq: u16) -> Answer
    requires client { HasClient shared.old.board (Client.Link link.old.number) }
    requires free { outstanding shared.old.board (Client.Link link.old.number) ≡ 0 }
    requires session { link.old.session ≡ Session.Writing id count seq }
    requires schedule { SessionFits link.old.schedule link.old.session }
    requires inputs { All IsForLink link.old.schedule.inputs }
    ensures answers { AnswersDone shared.old link.old (Session.Writing id count seq) result shared.new link.new }
    ensures keeps { LinkKeeps shared.old link.old shared.new link.new }
{
    let next = seq + 1;
    if next < count {
        link.session = Session::Receiving {
            id,
            count,
            seq: next,
        };
        return Answer::RequestInt(next);
    }
    let kind = PlanType::Mission;
    let _ = shared.board.ask(
        Client::Link(link.number),
        Request::Commit { kind, id, count },
    );
    link.session = Session::Committing { id, count };
    Answer::Commits { kind, id, count }
}

/// Goes on with the upload, or with the schedule.
#[tactic(auto, using(crate::proofs::Inputs::inputs_stay))]
fn go_on(shared: &mut Shared, link: &mut Link) -> StepOut<Line>
    requires client { HasClient shared.old.board (Client.Link link.old.number) }
    requires fits { LinkFits shared.old link.old }
    requires free { IsFree shared.old link.old }
    ensures step { LinkStep shared.old link.old result shared.new link.new }
    ensures keeps { LinkKeeps shared.old link.old shared.new link.new }
{
    match link.session {
        Session::Receiving { id, count, seq } => send_item(shared, link, id, count, seq),
        _ => next_input(shared, link),
    }
}

/// The item that was requested.
fn requested(schedule: &Schedule, seq: u16) -> Option<Item>
    ensures { result ≡ item_at schedule.now.inputs seq }
{
    match schedule.current() {
        Some(InputLine::Upload { items, .. }) => items.as_slice().get(seq as usize).copied(),
        _ => None,
    }
}

/// Sends the item that was requested, which the worker is asked to write.
#[tactic(auto, using(crate::proofs::Inputs::inputs_stay))]
fn send_item(shared: &mut Shared, link: &mut Link, id: u32, count: u16, seq: u16) -> StepOut<Line>
    requires client { HasClient shared.old.board (Client.Link link.old.number) }
    requires fits { LinkFits shared.old link.old }
    requires free { IsFree shared.old link.old }
    requires session { link.old.session ≡ Session.Receiving id count seq }
    ensures step { LinkStep shared.old link.old result shared.new link.new }
    ensures keeps { LinkKeeps shared.old link.old shared.new link.new }
{
    match requested(&link.schedule, seq) {
        None => StepOut::Idle,
        Some(item) => {
            let kind = PlanType::Mission;
            let _ = shared.board.ask(
                Client::Link(link.number),
                Request::Write {
                    kind,
                    id,
                    seq,
                    item,
                },
            );
            link.session = Session::Writing { id, count, seq };
            StepOut::Made(Line::Sent {
                link: link.number,
                said: Said::Item(seq),
                answer: Answer::Writes {
                    kind,
                    id,
                    seq,
                    item,
                },
            })
        }
    }
}

/// Takes the first step of the next input, or the second of a meeting.
#[tactic(auto, using(crate::proofs::Inputs::inputs_stay))]
fn next_input(shared: &mut Shared, link: &mut Link) -> StepOut<Line>
    requires fits { LinkFits shared.old link.old }
    requires free { IsFree shared.old link.old }
    requires session { link.old.session ≡ Session.Free }
    ensures step { LinkStep shared.old link.old result shared.new link.new }
    ensures keeps { LinkKeeps shared.old link.old shared.new link.new }
{
    match link.schedule.current() {
        Some(InputLine::Upload { items, .. }) => {
            let count = items.as_slice().len() as u16;
            begin_upload(shared, link, count)
        }
        Some(InputLine::Meet { place, count }) => {
            let (place, count) = (*place, *count);
            meet(shared, link, place, count)
        }
        Some(InputLine::Wait) => {
            link.schedule.advance();
            StepOut::Made(Line::Waited {
                client: Client::Link(link.number),
            })
        }
        _ => StepOut::Idle,
    }
}

/// Sends the Count of an upload.
#[tactic(auto, using(crate::proofs::Inputs::inputs_stay))]
fn begin_upload(shared: &mut Shared, link: &mut Link, count: u16) -> StepOut<Line>
    requires fits { LinkFits shared.old link.old }
    requires free { IsFree shared.old link.old }
    requires session { link.old.session ≡ Session.Free }
    requires count { Uploading link.old.schedule.inputs count }
    ensures step { LinkStep shared.old link.old result shared.new link.new }
    ensures keeps { LinkKeeps shared.old link.old shared.new link.new }
{
    let said = Said::Count {
        kind: PlanType::Mission as u8,
        count,
    };
    match shared.ids[0].checked_add(1) {
        None => {
            link.finish();
            let answer = Answer::Ack(AckCode::NoSpace);
            StepOut::Made(Line::Sent {
                link: link.number,
                said,
                answer,
            })
        }
        Some(id) => {
            shared.ids[0] = id;
            link.schedule.begin();
            link.session = Session::Receiving { id, count, seq: 0 };
            let answer = Answer::RequestInt(0);
            StepOut::Made(Line::Sent {
                link: link.number,
                said,
                answer,
            })
        }
    }
}

/// Comes to a meeting place, or leaves it once enough clients came.
#[tactic(auto, using(crate::proofs::Inputs::inputs_stay))]
fn meet(shared: &mut Shared, link: &mut Link, place: u8, count: u8) -> StepOut<Line>
    requires fits { LinkFits shared.old link.old }
    requires session { link.old.session ≡ Session.Free }
    requires free { IsFree shared.old link.old }
    requires place { place < MAX_PLACES }
    requires input { link.old.schedule.inputs ≡ InputLine.Meet place count ∷ drop 1 link.old.schedule.inputs }
    ensures step { LinkStep shared.old link.old result shared.new link.new }
    ensures keeps { LinkKeeps shared.old link.old shared.new link.new }
{
    let client = Client::Link(link.number);
    if !link.schedule.has_begun() {
        shared.arrive(place);
        link.schedule.begin();
        return StepOut::Made(Line::Arrived { client, place });
    }
    if shared.arrivals(place) < count {
        return StepOut::Idle;
    }
    link.schedule.advance();
    StepOut::Made(Line::Met { client, place })
}
