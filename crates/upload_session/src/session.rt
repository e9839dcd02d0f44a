//! A link's session. All that it keeps of an upload is fixed in size: what the Count named, a check of the items, and the
//! grant of the transfer, which it gives back at each end of an upload or a clearing.

ghost use Rattle.std.specs.Prelude.{◌≡◌, ◌≢◌, ◌↔◌, ℕ, List, [], ◌∷◌, None, Some, IsTrue, length};
ghost use Rattle.mission_model.specs.declared.request.Asked.TheVariants as about;
ghost use Rattle.mission_model.specs.declared.request.Client.TheVariants as client;
ghost use Rattle.mission_model.specs.Replies.{CanHear};
ghost use Rattle.mission_model.specs.Shown.{asked_of};
ghost use Rattle.mission_model.specs.declared.plan.Item.{Item};
ghost use Rattle.request_board.specs.BoardState.{BoardState, HasClient, OpenStays, open_asks};
ghost use Rattle.request_board.specs.BoardCalls.{asked};

use crate::types::{have_ids, types_named};
use mission_model::{
    AckCode, Answer, Asked, Client, Item, Message, PlanCheck, PlanType, Reply, Request, limit_of,
};
use request_board::Board;
use std::marker::Model;
use transfer_lock::{Grant, Transfer};

/// A plan as it comes: what its Count named, its new id, and the check of the items so far.
#[derive(Clone, Copy)]
pub struct Draft {
    pub kind: PlanType,
    pub id: u32,
    pub count: u16,
    pub check: PlanCheck,
}

/// Where a session stands: between two messages of an upload, or between a request and its reply.
#[derive(Clone, Copy)]
pub enum Stage {
    Free,
    Receiving(Draft),
    Writing(Draft),
    /// A plan is being committed. A clearing goes on with this type.
    Committing(Option<PlanType>),
}

/// The session of one link. The grant that it may hold ends with it.
#[derive(Drop)]
pub struct Session {
    link: u8,
    grant: Option<Grant>,
    stage: Stage,
}

impl Model for Session {
    ghost use Rattle.upload_session.specs.SessionState.{SessionState};

    ghost Value = { SessionState };

    ghost use Rattle.upload_session.specs.Kept.{view_of, Kept};

    ghost view = { view_of };

    ghost invariant = { Kept };
}

impl Session {
    ghost use Rattle.transfer_lock.specs.TransferState.{TransferState};
    ghost use Rattle.upload_session.specs.UploadState.{type_of, types_named};
    ghost use Rattle.upload_session.specs.SessionLaw.{message_law, reply_law, count_law, clear_law, item_law, current_law, cancel_law};
    ghost use Rattle.upload_session.specs.SessionState.{GrantFits, HaveIds, types_left, types_from, IsReady, IsBusy, IsCommitting, Awaits, DraftHeard, Heard, link_of, Obeys, Keeps, given_back};

    /// The session of a link at the beginning of a boot.
    pub fn new(link: u8) -> Session
        ensures { result ≡ record { link = link; stage = Stage.Free } }
    {
        Session {
            link,
            grant: None,
            stage: Stage::Free,
        }
    }

    /// Whether the session may handle a message: no request of it is outstanding.
    pub fn is_ready(&self) -> bool
        ensures { IsTrue result ↔ IsReady self.now.stage }
    {
        matches!(self.stage, Stage::Free | Stage::Receiving(_))
    }

    /// Answers a message of the MAVLink mission protocol: MISSION_COUNT, MISSION_ITEM_INT, MISSION_CLEAR_ALL,
    /// MISSION_SET_CURRENT, a MISSION_ACK that cancels, or the time-out of an item. An item is for the plan that this link
    /// is bringing, whatever type the message names.
    pub fn handle(
        &mut self,
        message: &Message,
        transfer: &mut Transfer,
        board: &mut Board,
    ) -> Answer
        requires ready { IsReady self.old.stage }
        requires grant { GrantFits self.old transfer.old }
        requires client { HasClient board.old (client.Link self.old.link) }
        requires asks { open_asks board.old (client.Link self.old.link) ≡ [] }
        ensures obeys { (heard : List Item) → Heard self.old.stage heard → Obeys (message_law self.old.link (link_of self.old.stage heard) message.now transfer.old board.old) result self.new transfer.new board.new }
        ensures keeps { Keeps self.old transfer.old board.old self.new transfer.new board.new }
        ensures accepted { (heard : List Item) → Heard self.old.stage heard → result ≢ Answer.Ack AckCode.Accepted }
        ensures no_error { (heard : List Item) → Heard self.old.stage heard → result ≢ Answer.Ack AckCode.Error }
    {
        match *message {
            Message::Count { kind, count } => {
                self.end(transfer);
                self.begin_upload(kind, count, transfer, board)
            }
            Message::Item { seq, item } => self.take_item(seq, &item, transfer, board),
            Message::ClearAll { kind } => {
                self.end(transfer);
                self.begin_clearing(kind, transfer, board)
            }
            Message::SetCurrent(seq) => set_current(seq, board),
            Message::Cancel | Message::Timeout => self.cancel(transfer),
        }
    }

    /// Answers the reply on this link's request, which was taken from the board. A session has one request at a time, and
    /// knows it. Only here is a plan accepted: once its commit is done.
    pub fn on_reply(
        &mut self,
        asked: &Asked,
        reply: &Reply,
        transfer: &mut Transfer,
        board: &mut Board,
    ) -> Answer
        requires awaits { Awaits self.old.stage asked.now }
        requires hears { CanHear asked.now reply.now }
        requires ids { HaveIds transfer.old (types_left self.old.stage) }
        requires grant { GrantFits self.old transfer.old }
        requires client { HasClient board.old (client.Link self.old.link) }
        requires asks { open_asks board.old (client.Link self.old.link) ≡ [] }
        ensures obeys { (heard : List Item) → Heard self.old.stage heard → Obeys (reply_law self.old.link (link_of self.old.stage heard) reply.now transfer.old board.old) result self.new transfer.new board.new }
        ensures keeps { Keeps self.old transfer.old board.old self.new transfer.new board.new }
        ensures accepted { result ≡ Answer.Ack AckCode.Accepted → IsCommitting self.old.stage × (reply.now ≡ Reply.Done) }
        ensures error { result ≡ Answer.Ack AckCode.Error ↔ reply.now ≢ Reply.Done }
    {
        let Reply::Done = *reply else {
            self.end(transfer);
            return Answer::Ack(AckCode::Error);
        };
        match self.stage {
            Stage::Writing(draft) => self.written(draft, board),
            Stage::Committing(next) => self.committed(next, transfer, board),
            Stage::Free | Stage::Receiving(_) => unreachable!(),
        }
    }

    /// The link is free, and its grant is given back.
    fn end(&mut self, transfer: &mut Transfer)
        requires { GrantFits self.old transfer.old }
        ensures session { self.new ≡ record self.old { stage = Stage.Free } }
        ensures transfer { transfer.new ≡ given_back self.old.stage transfer.old }
    {
        self.stage = Stage::Free;
        if let Some(held) = self.grant.take() {
            transfer.finish(held);
        }
    }

    /// The link holds the transfer from here on.
    fn hold(&mut self, grant: Grant, stage: Stage)
        requires free { self.old.stage ≡ Stage.Free }
        requires grant { grant ≡ self.old.link }
        requires stage { IsBusy stage }
        ensures { self.new ≡ record self.old { stage = stage } }
    {
        self.stage = stage;
        self.grant = Some(grant);
    }

    /// Answers a Count, once no transfer of this link is left.
    fn begin_upload(
        &mut self,
        kind: u8,
        count: u16,
        transfer: &mut Transfer,
        board: &mut Board,
    ) -> Answer
        requires free { self.old.stage ≡ Stage.Free }
        requires grant { GrantFits self.old transfer.old }
        requires client { HasClient board.old (client.Link self.old.link) }
        requires asks { open_asks board.old (client.Link self.old.link) ≡ [] }
        ensures obeys { Obeys (count_law self.old.link (type_of kind) count transfer.old board.old) result self.new transfer.new board.new }
        ensures keeps { Keeps self.old transfer.old board.old self.new transfer.new board.new }
        ensures accepted { result ≢ Answer.Ack AckCode.Accepted }
        ensures no_error { result ≢ Answer.Ack AckCode.Error }
    {
        let Some(kind) = PlanType::of_number(kind) else {
            return Answer::Ack(AckCode::Unsupported);
        };
        let Ok(grant) = transfer.try_begin(self.link) else {
            return Answer::Ack(AckCode::Denied);
        };
        let id = if count > limit_of(kind) {
            None
        } else {
            transfer.take_id(kind)
        };
        let Some(id) = id else {
            transfer.finish(grant);
            return Answer::Ack(AckCode::NoSpace);
        };
        if count == 0 {
            self.hold(grant, Stage::Committing(None));
            return commit(self.link, kind, id, 0, board);
        }
        let check = PlanCheck::begin(kind, count);
        self.hold(
            grant,
            Stage::Receiving(Draft {
                kind,
                id,
                count,
                check,
            }),
        );
        Answer::RequestInt(0)
    }

    /// Answers a ClearAll, once no transfer of this link is left.
    fn begin_clearing(&mut self, kind: u8, transfer: &mut Transfer, board: &mut Board) -> Answer
        requires free { self.old.stage ≡ Stage.Free }
        requires grant { GrantFits self.old transfer.old }
        requires client { HasClient board.old (client.Link self.old.link) }
        requires asks { open_asks board.old (client.Link self.old.link) ≡ [] }
        ensures obeys { Obeys (clear_law self.old.link (types_named kind) transfer.old board.old) result self.new transfer.new board.new }
        ensures keeps { Keeps self.old transfer.old board.old self.new transfer.new board.new }
        ensures accepted { result ≢ Answer.Ack AckCode.Accepted }
        ensures no_error { result ≢ Answer.Ack AckCode.Error }
    {
        let Some((first, next)) = types_named(kind) else {
            return Answer::Ack(AckCode::Unsupported);
        };
        let Ok(grant) = transfer.try_begin(self.link) else {
            return Answer::Ack(AckCode::Denied);
        };
        let id = if have_ids(transfer, first, next) {
            transfer.take_id(first)
        } else {
            None
        };
        let Some(id) = id else {
            transfer.finish(grant);
            return Answer::Ack(AckCode::NoSpace);
        };
        self.hold(grant, Stage::Committing(next));
        commit(self.link, first, id, 0, board)
    }

    /// Answers an item.
    fn take_item(
        &mut self,
        seq: u16,
        item: &Item,
        transfer: &mut Transfer,
        board: &mut Board,
    ) -> Answer
        requires ready { IsReady self.old.stage }
        requires grant { GrantFits self.old transfer.old }
        requires client { HasClient board.old (client.Link self.old.link) }
        requires asks { open_asks board.old (client.Link self.old.link) ≡ [] }
        ensures obeys { (heard : List Item) → Heard self.old.stage heard → Obeys (item_law self.old.link (link_of self.old.stage heard) seq item.now transfer.old board.old) result self.new transfer.new board.new }
        ensures keeps { Keeps self.old transfer.old board.old self.new transfer.new board.new }
        ensures accepted { (heard : List Item) → Heard self.old.stage heard → result ≢ Answer.Ack AckCode.Accepted }
        ensures no_error { (heard : List Item) → Heard self.old.stage heard → result ≢ Answer.Ack AckCode.Error }
    {
        let Stage::Receiving(mut draft) = self.stage else {
            return Answer::Ack(AckCode::InvalidSequence);
        };
        let expected = draft.check.taken();
        if seq != expected {
            return Answer::RequestInt(expected);
        }
        if let Err(code) = draft.check.next(item) {
            self.end(transfer);
            return Answer::Ack(code);
        }
        self.stage = Stage::Writing(draft);
        write(self.link, draft.kind, draft.id, seq, item, board)
    }

    /// Answers a Cancel or a Timeout.
    fn cancel(&mut self, transfer: &mut Transfer) -> Answer
        requires ready { IsReady self.old.stage }
        requires grant { GrantFits self.old transfer.old }
        ensures obeys { (b : BoardState) (heard : List Item) → Heard self.old.stage heard → Obeys (cancel_law (link_of self.old.stage heard) transfer.old b) result self.new transfer.new b }
        ensures keeps { (b : BoardState) → open_asks b (client.Link self.old.link) ≡ [] → Keeps self.old transfer.old b self.new transfer.new b }
        ensures accepted { result ≢ Answer.Ack AckCode.Accepted }
        ensures no_error { result ≢ Answer.Ack AckCode.Error }
    {
        if let Stage::Free = self.stage {
            return Answer::Nothing;
        }
        self.end(transfer);
        Answer::Ack(AckCode::OperationCancelled)
    }

    /// Goes on after an item was written.
    fn written(&mut self, draft: Draft, board: &mut Board) -> Answer
        requires writing { self.old.stage ≡ Stage.Writing draft }
        requires client { HasClient board.old (client.Link self.old.link) }
        requires asks { open_asks board.old (client.Link self.old.link) ≡ [] }
        ensures obeys { (t : TransferState) (heard : List Item) → DraftHeard draft heard → Obeys (reply_law self.old.link (link_of (Stage.Writing draft) heard) Reply.Done t board.old) result self.new t board.new }
        ensures keeps { (t : TransferState) → GrantFits self.old t → Keeps self.old t board.old self.new t board.new }
        ensures accepted { result ≢ Answer.Ack AckCode.Accepted }
        ensures no_error { result ≢ Answer.Ack AckCode.Error }
    {
        if draft.check.has_room() {
            self.stage = Stage::Receiving(draft);
            return Answer::RequestInt(draft.check.taken());
        }
        self.stage = Stage::Committing(None);
        commit(self.link, draft.kind, draft.id, draft.count, board)
    }

    /// Goes on after a plan was committed.
    fn committed(
        &mut self,
        next: Option<PlanType>,
        transfer: &mut Transfer,
        board: &mut Board,
    ) -> Answer
        requires committing { self.old.stage ≡ Stage.Committing next }
        requires grant { GrantFits self.old transfer.old }
        requires ids { HaveIds transfer.old (types_from next) }
        requires client { HasClient board.old (client.Link self.old.link) }
        requires asks { open_asks board.old (client.Link self.old.link) ≡ [] }
        ensures obeys { (heard : List Item) → Obeys (reply_law self.old.link (link_of (Stage.Committing next) heard) Reply.Done transfer.old board.old) result self.new transfer.new board.new }
        ensures keeps { Keeps self.old transfer.old board.old self.new transfer.new board.new }
        ensures no_error { result ≢ Answer.Ack AckCode.Error }
    {
        let Some(kind) = next else {
            self.end(transfer);
            return Answer::Ack(AckCode::Accepted);
        };
        let Some(id) = transfer.take_id(kind) else {
            unreachable!()
        };
        self.stage = Stage::Committing(kind.after());
        commit(self.link, kind, id, 0, board)
    }
}

ghost use Rattle.transfer_lock.specs.TransferState.{TransferState};
ghost use Rattle.upload_session.specs.SessionLaw.{current_law};
ghost use Rattle.upload_session.specs.SessionState.{BoardKeeps, Heard, IsReady, Obeys, link_of};

/// Answers a SetCurrent.
fn set_current(seq: u16, board: &mut Board) -> Answer
    ensures obeys { (number : ℕ) (stage : Stage) (heard : List Item) (t : TransferState) → IsReady stage → Heard stage heard → Obeys (current_law (link_of stage heard) seq t board.old) result (record { link = number; stage = stage }) t board.new }
    ensures asks { OpenStays board.old board.new }
    ensures keeps { (number : ℕ) → BoardKeeps number board.old board.new }
    ensures accepted { result ≢ Answer.Ack AckCode.Accepted }
    ensures no_error { result ≢ Answer.Ack AckCode.Error }
{
    let mission = board.published()[0];
    if seq < mission.count {
        board.ask_index(mission.id, seq);
        Answer::CurrentIs(seq)
    } else {
        Answer::Ack(AckCode::InvalidSequence)
    }
}

/// Asks the worker, with whom this link has no other request.
fn ask(link: u8, request: Request, board: &mut Board)
    requires client { HasClient board.old (client.Link link) }
    requires asks { open_asks board.old (client.Link link) ≡ [] }
    ensures asked { board.new ≡ asked board.old (client.Link link) request }
    ensures asks { open_asks board.new (client.Link link) ≡ asked_of request ∷ [] }
    ensures keeps { BoardKeeps link board.old board.new }
{
    let _ = board.ask(Client::Link(link), request);
}

/// Asks the worker to write an item.
fn write(link: u8, kind: PlanType, id: u32, seq: u16, item: &Item, board: &mut Board) -> Answer
    requires client { HasClient board.old (client.Link link) }
    requires asks { open_asks board.old (client.Link link) ≡ [] }
    ensures answer { result ≡ Answer.Writes kind id seq item.now }
    ensures asked { board.new ≡ asked board.old (client.Link link) (Request.Write kind id seq item.now) }
    ensures asks { open_asks board.new (client.Link link) ≡ about.Write kind id seq ∷ [] }
    ensures keeps { BoardKeeps link board.old board.new }
{
    let item = *item;
    ask(
        link,
        Request::Write {
            kind,
            id,
            seq,
            item,
        },
        board,
    );
    Answer::Writes {
        kind,
        id,
        seq,
        item,
    }
}

/// Asks the worker to commit a plan.
fn commit(link: u8, kind: PlanType, id: u32, count: u16, board: &mut Board) -> Answer
    requires client { HasClient board.old (client.Link link) }
    requires asks { open_asks board.old (client.Link link) ≡ [] }
    ensures answer { result ≡ Answer.Commits kind id count }
    ensures asked { board.new ≡ asked board.old (client.Link link) (Request.Commit kind id count) }
    ensures asks { open_asks board.new (client.Link link) ≡ about.Commit kind id count ∷ [] }
    ensures keeps { BoardKeeps link board.old board.new }
{
    ask(link, Request::Commit { kind, id, count }, board);
    Answer::Commits { kind, id, count }
}
