//! A link's steps: it sends the messages of its schedule, takes its replies, and lets its session answer.

ghost use Rattle.std.specs.Prelude.{◌≡◌, ◌∷◌, [], ℕ, List, Some, true, false, drop};
ghost use Rattle.std.specs.List.{All};
ghost use Rattle.mission_model.specs.declared.plan.Item.{Item};
ghost use Rattle.mission_model.specs.declared.request.Client.TheVariants as client;
ghost use Rattle.mission_model.specs.declared.schedule.InputLine.TheVariants as input;
ghost use Rattle.mission_model.specs.BootScripts.{LinkInput};
ghost use Rattle.mission_model.specs.Replies.{CanHear};
ghost use Rattle.request_board.specs.BoardState.{HasClient, open_asks, posted};
ghost use Rattle.upload_session.specs.SessionState.{Awaits, SessionFits, GrantFits, HaveIds, Heard, IsReady, link_of, types_left};
ghost use Rattle.upload_session.specs.SessionLaw.{message_law, reply_law};
ghost use Rattle.vehicle_core.specs.ActorStep.{after_hearing, after_message, link_turn, message_of, upload_after};
ghost use Rattle.vehicle_core.specs.LinkActs.{LinkActs, LinkAnswers, LinkFits, SessionCalled, CanHearAll, link_told};
ghost use Rattle.vehicle_core.specs.Ready.{is_turn};
ghost use Rattle.vehicle_core.specs.SharedState.{Counted, shared_told};

use crate::client;
use crate::schedule::Schedule;
use crate::shared::Shared;
use mission_model::{Answer, Asked, Client, InputLine, Line, Message, Reply, said_of};
use turn_cell::StepOut;
use upload_session::Session;

/// A link: its session and the rest of its schedule.
#[derive(Drop)]
pub struct Link {
    pub number: u8,
    pub session: Session,
    pub schedule: Schedule,
}

/// One step of a link. A reply that waits goes first; else the schedule goes on once no request of the link is outstanding.
#[inline(never)]
pub fn step(shared: &mut Shared, link: &mut Link) -> StepOut<Line>
    requires { LinkFits shared.old link.old }
    ensures { LinkActs shared.old link.old result shared.new link.new }
{
    if !shared.power {
        return StepOut::Idle;
    }
    match shared.board.take_reply(Client::Link(link.number)) {
        Some((asked, reply)) => {
            let answer = hear(shared, link, &asked, &reply);
            StepOut::Made(Line::Heard {
                link: link.number,
                reply,
                answer,
            })
        }
        None => go_on(shared, link),
    }
}

/// Whether the link has something to do.
pub fn has_turn(shared: &Shared, link: &Link) -> bool
    requires { LinkFits shared.now link.now }
    ensures { (arrived : List ℕ) (items : List Item) → Counted arrived shared.now → result ≡ is_turn (link_turn (shared_told shared.now arrived) (link_told link.now items)) }
{
    client::has_turn(shared, Client::Link(link.number), &link.schedule)
}

/// The next step of the schedule, while no reply waits.
#[inline(never)]
fn go_on(shared: &mut Shared, link: &mut Link) -> StepOut<Line>
    requires fits { LinkFits shared.old link.old }
    requires none { posted shared.old.board (client.Link link.old.number) ≡ [] }
    requires power { shared.old.power ≡ true }
    ensures { LinkActs shared.old link.old result shared.new link.new }
{
    let client = Client::Link(link.number);
    if !client::is_free(&shared.board, client) {
        return StepOut::Idle;
    }
    match next_message(&link.schedule) {
        Some(message) => {
            let answer = say(shared, link, &message);
            StepOut::Made(Line::Sent {
                link: link.number,
                said: said_of(&message),
                answer,
            })
        }
        None => client::step(shared, client, &mut link.schedule),
    }
}

/// The message that the current input sends, if it is one that sends.
fn next_message(schedule: &Schedule) -> Option<Message>
    requires { All LinkInput schedule.now.inputs }
    ensures { result ≡ message_of schedule.now.inputs schedule.now.begun schedule.now.requested }
{
    match schedule.current() {
        Some(InputLine::Message(message)) => Some(*message),
        Some(InputLine::Upload { kind, items }) => {
            let items = items.as_slice();
            if !schedule.has_begun() {
                return Some(Message::Count {
                    kind: kind.number(),
                    count: items.len() as u16,
                });
            }
            let seq = schedule.requested();
            let item = *items.get(seq as usize)?;
            Some(Message::Item { seq, item })
        }
        _ => None,
    }
}

/// The session answers a message, and the schedule goes on by the answer.
#[inline(never)]
fn say(shared: &mut Shared, link: &mut Link, message: &Message) -> Answer
    requires number { link.old.session.link ≡ link.old.number }
    requires session { SessionFits link.old.session shared.old.transfer shared.old.board }
    requires free { open_asks shared.old.board (client.Link link.old.number) ≡ [] }
    ensures answers { (arrived : List ℕ) (heard : List Item) → Heard link.old.session.stage heard → LinkAnswers (message_law link.old.number (link_of link.old.session.stage heard) message.now shared.old.transfer shared.old.board) shared.old link.old arrived heard (after_message link.old.schedule.inputs result link.old.schedule) result shared.new link.new }
    ensures called { SessionCalled shared.old link.old shared.new link.new }
    ensures schedule { link.new.schedule ≡ after_message link.old.schedule.inputs result link.old.schedule }
{
    let answer = link
        .session
        .handle(message, &mut shared.transfer, &mut shared.board);
    match link.schedule.current() {
        Some(InputLine::Upload { .. }) => heed(&mut link.schedule, &answer),
        _ => link.schedule.advance(),
    }
    answer
}

/// The session answers a reply, and an upload that has begun goes on by the answer.
#[inline(never)]
fn hear(shared: &mut Shared, link: &mut Link, asked: &Asked, reply: &Reply) -> Answer
    requires number { link.old.session.link ≡ link.old.number }
    requires awaits { Awaits link.old.session.stage asked.now }
    requires hears { CanHear asked.now reply.now }
    requires ids { HaveIds shared.old.transfer (types_left link.old.session.stage) }
    requires grant { GrantFits link.old.session shared.old.transfer }
    requires client { HasClient shared.old.board (client.Link link.old.number) }
    requires free { open_asks shared.old.board (client.Link link.old.number) ≡ [] }
    ensures answers { (arrived : List ℕ) (heard : List Item) → Heard link.old.session.stage heard → LinkAnswers (reply_law link.old.number (link_of link.old.session.stage heard) reply.now shared.old.transfer shared.old.board) shared.old link.old arrived heard (after_hearing link.old.schedule.inputs link.old.schedule.begun result link.old.schedule) result shared.new link.new }
    ensures called { SessionCalled shared.old link.old shared.new link.new }
    ensures schedule { link.new.schedule ≡ after_hearing link.old.schedule.inputs link.old.schedule.begun result link.old.schedule }
{
    let answer = link
        .session
        .on_reply(asked, reply, &mut shared.transfer, &mut shared.board);
    if link.schedule.has_begun() {
        if let Some(InputLine::Upload { .. }) = link.schedule.current() {
            heed(&mut link.schedule, &answer);
        }
    }
    answer
}

/// The current upload goes on by an answer: it is done once it is acknowledged.
fn heed(schedule: &mut Schedule, answer: &Answer)
    ensures { schedule.new ≡ upload_after answer.now schedule.old }
{
    match *answer {
        Answer::Ack(_) => schedule.advance(),
        Answer::RequestInt(seq) => schedule.request(seq),
        _ => schedule.begin(),
    }
}
