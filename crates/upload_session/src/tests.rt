//! The answers of docs/FORMATS.md, "Answers of a link", told by two links over one transfer.
ghost use Rattle.std.specs.Prelude.{◌≡◌, ◌≢◌, ◌∷◌, ℕ, None, IfNone, IfSome};
ghost use Rattle.mission_model.specs.declared.request.Client.TheVariants as client;
ghost use Rattle.request_board.specs.BoardState.{HasClient, ClientsStay, open_asks};
ghost use Rattle.mission_model.specs.declared.plan.PlanType.{PlanType};
ghost use Rattle.mission_model.specs.declared.request.Asked.TheVariants as about;
ghost use Rattle.mission_model.specs.Replies.{CanHear};
ghost use Rattle.upload_session.specs.declared.session.Stage.{Stage};
ghost use Rattle.upload_session.specs.SessionState.{SessionState, SessionFits, Awaits};

use super::*;
use Event::*;
use Who::*;
use mission_model::AckCode::*;
use mission_model::Answer::{self, *};
use mission_model::PlanType::{Fence, Mission, Safe};
use mission_model::{Asked, Client, Item, Message, Param, PlanHead, Reply, asked_of};
use request_board::Board;
use std::alloc::{AllocError, Global};
use std::test::*;
use transfer_lock::Transfer;

/// Whose turn it is.
#[derive(Clone, Copy)]
enum Who {
    First,
    Second,
}

/// What happens: a message comes, or the worker serves the link's request and its reply comes.
#[derive(Clone, Copy)]
enum Event {
    Count(u8, u16),
    Sends(u16, Item),
    Clear(u8),
    Current(u16),
    Cancel,
    Timeout,
    Done,
    Failed,
    Spent,
}

/// The worker serves the first request, and the link takes its reply.
fn serve(board: &mut Board, link: u8, reply: Reply) -> Option<Asked>
    requires idle { board.old.service ≡ None }
    requires client { HasClient board.old (client.Link link) }
    ensures idle { board.new.service ≡ None }
    ensures clients { ClientsStay board.old board.new }
    ensures none { IfNone result (open_asks board.new (client.Link link) ≡ open_asks board.old (client.Link link)) }
    ensures some { IfSome result (λ asked. open_asks board.old (client.Link link) ≡ asked ∷ open_asks board.new (client.Link link)) }
    ensures others { (other : ℕ) → other ≢ link → open_asks board.new (client.Link other) ≡ open_asks board.old (client.Link other) }
{
    if let Some((client, request)) = board.take_next() {
        board.post(client, asked_of(&request), reply);
    }
    let (asked, _) = board.take_reply(Client::Link(link))?;
    Some(asked)
}

/// The session handles a message, where it may.
fn say(
    session: &mut Session,
    link: u8,
    message: Message,
    transfer: &mut Transfer,
    board: &mut Board,
) -> Answer
    requires link { session.old.link ≡ link }
    requires idle { board.old.service ≡ None }
    requires fits { SessionFits session.old transfer.old board.old }
    ensures link { session.new.link ≡ link }
    ensures idle { board.new.service ≡ None }
    ensures fits { SessionFits session.new transfer.new board.new }
    ensures others { (other : SessionState) → other.link ≢ link → SessionFits other transfer.old board.old → SessionFits other transfer.new board.new }
{
    if !session.is_ready() {
        return Answer::Nothing;
    }
    session.handle(&message, transfer, board)
}

/// The reply, or a failure where a write cannot have it.
fn fitting(asked: &Asked, reply: Reply) -> Reply
    requires served { (kind : PlanType) (id count : ℕ) → CanHear (about.Commit kind id count) reply }
    ensures { (at : Stage) → Awaits at asked.now → CanHear asked.now result }
{
    match *asked {
        Asked::Write { .. } => match reply {
            Reply::Done => Reply::Done,
            _ => Reply::DiskFailed,
        },
        Asked::Commit { .. } => reply,
        Asked::Read { .. } => reply,
        Asked::SetMark(_) => reply,
    }
}

/// The worker serves the session's request, where it has one, and the session hears the reply.
fn hear(
    session: &mut Session,
    link: u8,
    reply: Reply,
    transfer: &mut Transfer,
    board: &mut Board,
) -> Answer
    requires link { session.old.link ≡ link }
    requires idle { board.old.service ≡ None }
    requires fits { SessionFits session.old transfer.old board.old }
    requires served { (kind : PlanType) (id count : ℕ) → CanHear (about.Commit kind id count) reply }
    ensures link { session.new.link ≡ link }
    ensures idle { board.new.service ≡ None }
    ensures fits { SessionFits session.new transfer.new board.new }
    ensures others { (other : SessionState) → other.link ≢ link → SessionFits other transfer.old board.old → SessionFits other transfer.new board.new }
{
    if session.is_ready() {
        return Answer::Nothing;
    }
    match serve(board, link, reply) {
        Some(asked) => {
            let reply = fitting(&asked, reply);
            session.on_reply(&asked, &reply, transfer, board)
        }
        None => Answer::Nothing,
    }
}

/// Lets it happen to a link's session.
fn happen(
    session: &mut Session,
    link: u8,
    event: Event,
    transfer: &mut Transfer,
    board: &mut Board,
) -> Answer
    requires link { session.old.link ≡ link }
    requires idle { board.old.service ≡ None }
    requires fits { SessionFits session.old transfer.old board.old }
    ensures link { session.new.link ≡ link }
    ensures idle { board.new.service ≡ None }
    ensures fits { SessionFits session.new transfer.new board.new }
    ensures others { (other : SessionState) → other.link ≢ link → SessionFits other transfer.old board.old → SessionFits other transfer.new board.new }
{
    match event {
        Event::Count(kind, count) => {
            say(
                session,
                link,
                Message::Count { kind, count },
                transfer,
                board,
            )
        }
        Event::Sends(seq, item) => {
            say(session, link, Message::Item { seq, item }, transfer, board)
        }
        Event::Clear(kind) => say(session, link, Message::ClearAll { kind }, transfer, board),
        Event::Current(seq) => say(session, link, Message::SetCurrent(seq), transfer, board),
        Event::Cancel => say(session, link, Message::Cancel, transfer, board),
        Event::Timeout => say(session, link, Message::Timeout, transfer, board),
        Event::Done => hear(session, link, Reply::Done, transfer, board),
        Event::Failed => hear(session, link, Reply::DiskFailed, transfer, board),
        Event::Spent => hear(session, link, Reply::Spent(u64::MAX), transfer, board),
    }
}

const FREE_IDS: [PlanHead; 3] = [
    PlanHead { id: 7, count: 2 },
    PlanHead { id: 0, count: 0 },
    PlanHead { id: 9, count: 1 },
];

const NO_SAFE_ID: [PlanHead; 3] = [
    PlanHead { id: 7, count: 2 },
    PlanHead {
        id: 4_294_967_294,
        count: 0,
    },
    PlanHead {
        id: 4_294_967_295,
        count: 1,
    },
];

/// A row: whose turn it is, what happens, and what is answered.
type Row = (Who, Event, Answer);

/// Plays the rows on a new board, with a session for each of two links: the first row that is answered otherwise, and how.
fn first_difference(
    alloc: Global,
    heads: [PlanHead; 3],
    rows: &[Row],
) -> Result<Option<(usize, Answer)>, AllocError> {
    let mut board = Board::new(alloc, 2, 0, heads)?;
    let mut transfer = Transfer::new(heads);
    let mut first = Session::new(0);
    let mut second = Session::new(1);
    let mut difference = None;
    for (row, (who, event, want)) in rows.iter().enumerate() {
        let answer = match who {
            Who::First => happen(&mut first, 0, *event, &mut transfer, &mut board),
            Who::Second => happen(&mut second, 1, *event, &mut transfer, &mut board),
        };
        if difference.is_none() && answer != *want {
            difference = Some((row, answer));
        }
    }
    Ok(difference)
}

/// A waypoint of the global frame.
const WAYPOINT: Item = Item {
    frame: 0,
    command: 16,
    p1: Param::Milli(0),
    p2: Param::Milli(0),
    p3: Param::Milli(0),
    p4: Param::Milli(0),
    x: 473_760_000,
    y: 85_500_000,
    z: 10_000,
    auto: true,
};

static OUT_OF_PLACE: [Row; 18] = [
    (First, Timeout, Nothing),
    (First, Cancel, Nothing),
    (First, Sends(0, WAYPOINT), Ack(InvalidSequence)),
    (First, Count(255, 1), Ack(Unsupported)),
    (First, Count(3, 1), Ack(Unsupported)),
    (First, Clear(3), Ack(Unsupported)),
    (First, Clear(254), Ack(Unsupported)),
    (First, Current(1), CurrentIs(1)),
    (First, Current(2), Ack(InvalidSequence)),
    (First, Count(0, 2001), Ack(NoSpace)),
    (First, Count(1, 65), Ack(NoSpace)),
    (First, Count(2, 1), Ack(NoSpace)),
    (First, Clear(2), Ack(NoSpace)),
    (First, Clear(255), Ack(NoSpace)),
    (First, Count(0, 2000), RequestInt(0)),
    (First, Current(1), CurrentIs(1)),
    (First, Cancel, Ack(OperationCancelled)),
    (First, Sends(0, WAYPOINT), Ack(InvalidSequence)),
];

#[test]
fn messages_out_of_place(rt: HostRuntime) -> Result<(), Fail> {
    assert_eq!(rt;
        first_difference(rt.alloc(), NO_SAFE_ID, &OUT_OF_PLACE)?,
        None
    );
    Ok(())
}

static TWO_UPLOADS: [Row; 36] = [
    (First, Count(0, 2), RequestInt(0)),
    (Second, Count(0, 1), Ack(Denied)),
    (Second, Count(0, 2001), Ack(Denied)),
    (Second, Count(3, 1), Ack(Unsupported)),
    (Second, Clear(1), Ack(Denied)),
    (Second, Sends(0, WAYPOINT), Ack(InvalidSequence)),
    (Second, Timeout, Nothing),
    (Second, Current(0), CurrentIs(0)),
    (First, Sends(1, WAYPOINT), RequestInt(0)),
    (
        First,
        Sends(0, WAYPOINT),
        Writes {
            kind: Mission,
            id: 8,
            seq: 0,
            item: WAYPOINT,
        },
    ),
    (First, Done, RequestInt(1)),
    (First, Sends(0, WAYPOINT), RequestInt(1)),
    (
        First,
        Sends(1, WAYPOINT),
        Writes {
            kind: Mission,
            id: 8,
            seq: 1,
            item: WAYPOINT,
        },
    ),
    (
        First,
        Done,
        Commits {
            kind: Mission,
            id: 8,
            count: 2,
        },
    ),
    (Second, Count(0, 1), Ack(Denied)),
    (First, Done, Ack(Accepted)),
    (Second, Count(0, 1), RequestInt(0)),
    (First, Count(1, 1), Ack(Denied)),
    (Second, Count(1, 3), RequestInt(0)),
    (First, Timeout, Nothing),
    (Second, Timeout, Ack(OperationCancelled)),
    (
        First,
        Count(0, 0),
        Commits {
            kind: Mission,
            id: 10,
            count: 0,
        },
    ),
    (First, Done, Ack(Accepted)),
    (
        Second,
        Count(1, 0),
        Commits {
            kind: Fence,
            id: 2,
            count: 0,
        },
    ),
    (Second, Spent, Ack(Error)),
    (First, Count(0, 1), RequestInt(0)),
    (
        First,
        Sends(0, WAYPOINT),
        Writes {
            kind: Mission,
            id: 11,
            seq: 0,
            item: WAYPOINT,
        },
    ),
    (First, Failed, Ack(Error)),
    (Second, Count(0, 1), RequestInt(0)),
    (Second, Count(3, 1), Ack(Unsupported)),
    (First, Count(0, 1), RequestInt(0)),
    (
        First,
        Sends(0, WAYPOINT),
        Writes {
            kind: Mission,
            id: 13,
            seq: 0,
            item: WAYPOINT,
        },
    ),
    (
        First,
        Done,
        Commits {
            kind: Mission,
            id: 13,
            count: 1,
        },
    ),
    (First, Failed, Ack(Error)),
    (First, Current(0), Ack(InvalidSequence)),
    (Second, Current(0), Ack(InvalidSequence)),
];

#[test]
fn two_links_upload(rt: HostRuntime) -> Result<(), Fail> {
    assert_eq!(rt; first_difference(rt.alloc(), FREE_IDS, &TWO_UPLOADS)?, None);
    Ok(())
}

static CLEARINGS: [Row; 17] = [
    (First, Count(0, 1), RequestInt(0)),
    (
        First,
        Clear(1),
        Commits {
            kind: Fence,
            id: 1,
            count: 0,
        },
    ),
    (Second, Clear(255), Ack(Denied)),
    (First, Done, Ack(Accepted)),
    (
        Second,
        Clear(255),
        Commits {
            kind: Mission,
            id: 9,
            count: 0,
        },
    ),
    (
        Second,
        Done,
        Commits {
            kind: Fence,
            id: 2,
            count: 0,
        },
    ),
    (Second, Failed, Ack(Error)),
    (First, Current(0), Ack(InvalidSequence)),
    (
        First,
        Clear(255),
        Commits {
            kind: Mission,
            id: 10,
            count: 0,
        },
    ),
    (Second, Count(0, 1), Ack(Denied)),
    (
        First,
        Done,
        Commits {
            kind: Fence,
            id: 3,
            count: 0,
        },
    ),
    (
        First,
        Done,
        Commits {
            kind: Safe,
            id: 10,
            count: 0,
        },
    ),
    (First, Done, Ack(Accepted)),
    (
        First,
        Clear(0),
        Commits {
            kind: Mission,
            id: 11,
            count: 0,
        },
    ),
    (First, Done, Ack(Accepted)),
    (
        Second,
        Clear(2),
        Commits {
            kind: Safe,
            id: 11,
            count: 0,
        },
    ),
    (Second, Done, Ack(Accepted)),
];

#[test]
fn plans_are_cleared(rt: HostRuntime) -> Result<(), Fail> {
    assert_eq!(rt; first_difference(rt.alloc(), FREE_IDS, &CLEARINGS)?, None);
    Ok(())
}

static LAST_IDS: [Row; 4] = [
    (
        First,
        Count(1, 0),
        Commits {
            kind: Fence,
            id: 4_294_967_295,
            count: 0,
        },
    ),
    (First, Done, Ack(Accepted)),
    (First, Count(1, 0), Ack(NoSpace)),
    (Second, Clear(1), Ack(NoSpace)),
];

#[test]
fn ids_end(rt: HostRuntime) -> Result<(), Fail> {
    assert_eq!(rt; first_difference(rt.alloc(), NO_SAFE_ID, &LAST_IDS)?, None);
    Ok(())
}

#[test]
fn a_refused_item_ends_the_transfer(rt: HostRuntime) -> Result<(), Fail> {
    let refused = [
        (
            UnsupportedFrame,
            Item {
                frame: 7,
                ..WAYPOINT
            },
        ),
        (
            Unsupported,
            Item {
                command: 23,
                ..WAYPOINT
            },
        ),
        (
            InvalidParam1,
            Item {
                p1: Param::Milli(-1),
                ..WAYPOINT
            },
        ),
        (
            InvalidParam2,
            Item {
                command: 177,
                frame: 2,
                p2: Param::Unset,
                ..WAYPOINT
            },
        ),
        (
            InvalidParam5X,
            Item {
                x: 900_000_001,
                ..WAYPOINT
            },
        ),
        (
            InvalidParam6Y,
            Item {
                y: 1_800_000_001,
                ..WAYPOINT
            },
        ),
        (
            InvalidParam7,
            Item {
                z: i32::MIN,
                ..WAYPOINT
            },
        ),
        (
            Invalid,
            Item {
                command: 177,
                frame: 2,
                ..WAYPOINT
            },
        ),
    ];
    for (code, bad) in refused {
        let rows = [
            (First, Count(0, 1), RequestInt(0)),
            (First, Sends(0, bad), Ack(code)),
            (First, Sends(0, WAYPOINT), Ack(InvalidSequence)),
            (Second, Count(0, 1), RequestInt(0)),
        ];
        assert_eq!(rt;
            first_difference(rt.alloc(), FREE_IDS, &rows)?,
            None,
            "at {code:?}"
        );
    }
    Ok(())
}

#[test]
fn a_thirty_third_jump_has_no_space(rt: HostRuntime) -> Result<(), Fail> {
    let jump = Item {
        command: 177,
        frame: 2,
        p1: Param::Milli(33_000),
        ..WAYPOINT
    };
    let mut rows = Vec::new(rt.alloc());
    rows.push((First, Count(0, 34), RequestInt(0)))?;
    for seq in 0..32 {
        let written = Writes {
            kind: Mission,
            id: 8,
            seq,
            item: jump,
        };
        rows.push((First, Sends(seq, jump), written))?;
        rows.push((First, Done, RequestInt(seq + 1)))?;
    }
    rows.push((First, Sends(32, jump), Ack(NoSpace)))?;
    rows.push((Second, Count(0, 1), RequestInt(0)))?;
    assert_eq!(rt; first_difference(rt.alloc(), FREE_IDS, &rows)?, None);
    Ok(())
}
