//! The board up to each limit, the index and the heads that it keeps, and the watcher that reads nothing.
ghost use Rattle.std.specs.Prelude.{◌≡◌, None, pos, replicate};
ghost use Rattle.mission_model.specs.declared.request.Client.TheVariants.{Link, Watch};
ghost use Rattle.request_board.specs.BoardState.{HasClient, ClientsStay};

use super::*;
use mission_model::{Asked, Client, PlanHead, PlanType, Reply, Request, asked_of};
use std::test::*;

/// Who makes a call.
#[derive(Clone, Copy)]
enum Who {
    Nav,
    First,
    Second,
    Watcher,
}

/// A call, each request being a read of one seq.
#[derive(Clone, Copy)]
enum Call {
    Ask(u16),
    /// The worker takes the first request, and replies.
    Serve(Reply),
    TakeReply,
}

/// What came of it, and the room of the client then.
#[derive(Clone, Copy, Debug, PartialEq, Eq)]
enum Came {
    In(u8),
    Full(u8),
    Served(Client, u16),
    Told(u16, Reply, u8),
    Nothing(u8),
}

fn read(seq: u16) -> Request {
    Request::Read {
        kind: PlanType::Mission,
        id: 7,
        seq,
    }
}

fn seq_of(asked: Asked) -> u16 {
    match asked {
        Asked::Read { seq, .. } => seq,
        _ => u16::MAX,
    }
}

/// Makes the call.
#[tactic(auto, using(crate::specs::Frames::clients_after))]
fn make(board: &mut Board, who: Who, call: Call) -> Came
    requires idle { board.old.service ≡ None }
    requires first { HasClient board.old (Link 0) }
    requires second { HasClient board.old (Link 1) }
    requires watcher { HasClient board.old (Watch 0) }
    ensures idle { board.new.service ≡ None }
    ensures clients { ClientsStay board.old board.new }
{
    let client = match who {
        Who::Nav => Client::Nav,
        Who::First => Client::Link(0),
        Who::Second => Client::Link(1),
        Who::Watcher => Client::Watch(0),
    };
    match call {
        Call::Ask(seq) => match board.ask(client, read(seq)) {
            Ok(()) => Came::In(board.room(client)),
            Err(Full) => Came::Full(board.room(client)),
        },
        Call::Serve(reply) => serve(board, reply),
        Call::TakeReply => match board.take_reply(client) {
            Some((asked, reply)) => Came::Told(seq_of(asked), reply, board.room(client)),
            None => Came::Nothing(board.room(client)),
        },
    }
}

#[tactic(auto, using(crate::specs::Frames::clients_after))]
fn serve(board: &mut Board, reply: Reply) -> Came
    requires { board.old.service ≡ None }
    ensures idle { board.new.service ≡ None }
    ensures clients { ClientsStay board.old board.new }
{
    match board.take_next() {
        Some((client, request)) => {
            let asked = asked_of(&request);
            board.post(client, asked, reply);
            Came::Served(client, seq_of(asked))
        }
        None => Came::Nothing(0),
    }
}

const NO_PLANS: [PlanHead; 3] = [PlanHead { id: 0, count: 0 }; 3];

#[test]
fn clients_up_to_each_limit(rt: HostRuntime) -> Result<(), Fail> {
    let mut board = Board::new(rt.alloc(), 2, 1, NO_PLANS)?;
    let rows = [
        (Who::First, Call::TakeReply, Came::Nothing(1)),
        (Who::Nav, Call::Serve(Reply::Done), Came::Nothing(0)),
        (Who::Nav, Call::Ask(0), Came::In(7)),
        (Who::First, Call::Ask(100), Came::In(0)),
        (Who::First, Call::Ask(101), Came::Full(0)),
        (Who::Nav, Call::Ask(1), Came::In(6)),
        (Who::Nav, Call::Ask(2), Came::In(5)),
        (Who::Nav, Call::Ask(3), Came::In(4)),
        (Who::Nav, Call::Ask(4), Came::In(3)),
        (Who::Nav, Call::Ask(5), Came::In(2)),
        (Who::Nav, Call::Ask(6), Came::In(1)),
        (Who::Nav, Call::Ask(7), Came::In(0)),
        (Who::Nav, Call::Ask(8), Came::Full(0)),
        (Who::Second, Call::Ask(200), Came::In(0)),
        (
            Who::Nav,
            Call::Serve(Reply::Stale(9)),
            Came::Served(Client::Nav, 0),
        ),
        (
            Who::Nav,
            Call::Serve(Reply::DiskFailed),
            Came::Served(Client::Link(0), 100),
        ),
        (
            Who::Nav,
            Call::Serve(Reply::Done),
            Came::Served(Client::Nav, 1),
        ),
        (Who::Nav, Call::Ask(9), Came::Full(0)),
        (Who::Second, Call::TakeReply, Came::Nothing(0)),
        (Who::First, Call::Ask(102), Came::Full(0)),
        (
            Who::First,
            Call::TakeReply,
            Came::Told(100, Reply::DiskFailed, 1),
        ),
        (Who::First, Call::Ask(103), Came::In(0)),
        (Who::Nav, Call::TakeReply, Came::Told(0, Reply::Stale(9), 1)),
        (Who::Nav, Call::TakeReply, Came::Told(1, Reply::Done, 2)),
        (Who::Nav, Call::TakeReply, Came::Nothing(2)),
        (Who::Watcher, Call::Ask(300), Came::In(3)),
        (Who::Watcher, Call::Ask(301), Came::In(2)),
        (Who::Watcher, Call::Ask(302), Came::In(1)),
        (Who::Watcher, Call::Ask(303), Came::In(0)),
        (Who::Watcher, Call::Ask(304), Came::Full(0)),
        (Who::Watcher, Call::TakeReply, Came::Nothing(0)),
    ];
    for (who, call, want) in rows {
        assert_eq!(rt; make(&mut board, who, call), want);
    }
    Ok(())
}

#[test]
fn a_commit_that_is_done_publishes(rt: HostRuntime) -> Result<(), Fail> {
    let mut board = Board::new(rt.alloc(), 8, 4, NO_PLANS)?;
    let commit = Request::Commit {
        kind: PlanType::Fence,
        id: 5,
        count: 3,
    };
    assert!(rt; board.ask(Client::Link(7), commit).is_ok());
    serve(&mut board, Reply::DiskFailed);
    assert_eq!(rt; board.published(), NO_PLANS);
    assert!(rt; board.take_reply(Client::Link(7)).is_some());
    assert!(rt; board.ask(Client::Link(7), commit).is_ok());
    serve(&mut board, Reply::Done);
    let none = PlanHead { id: 0, count: 0 };
    assert_eq!(rt;
        board.published(),
        [none, PlanHead { id: 5, count: 3 }, none]
    );
    Ok(())
}

#[test]
fn the_last_index_is_taken_once(rt: HostRuntime) -> Result<(), Fail> {
    let mut board = Board::new(rt.alloc(), 0, 0, NO_PLANS)?;
    assert_eq!(rt; board.take_index(), None);
    board.ask_index(7, 3);
    board.ask_index(7, 4);
    assert_eq!(rt; board.take_index(), Some((7, 4)));
    assert_eq!(rt; board.take_index(), None);
    Ok(())
}

#[test]
fn what_waits_and_what_is_posted_is_told(rt: HostRuntime) -> Result<(), Fail> {
    let mut board = Board::new(rt.alloc(), 0, 0, NO_PLANS)?;
    assert!(rt; !board.has_waiting());
    assert!(rt; board.ask(Client::Nav, read(1)).is_ok());
    assert!(rt; board.has_waiting());
    assert!(rt; !board.has_reply(Client::Nav));
    serve(&mut board, Reply::Done);
    assert!(rt; !board.has_waiting());
    assert!(rt; board.has_reply(Client::Nav));
    assert!(rt; board.take_reply(Client::Nav).is_some());
    assert!(rt; !board.has_reply(Client::Nav));
    Ok(())
}

#[test]
fn the_watcher_that_reads_nothing_ends_at_once(rt: HostRuntime) -> Result<(), Fail> {
    let mut watcher = NoWatch;
    let out = begin(&mut watcher, 1);
    assert!(rt; out.read.is_none());
    assert!(rt; !out.more);
    assert_eq!(rt; out.note.code, 0);
    Ok(())
}

/// A watcher begins an input of this code, with no plan published.
fn begin<W: Watcher>(watcher: &mut W, code: u16) -> WatchOut
    ensures { W.works watcher.old (record { code = code; a = pos 0; b = pos 0 }) (replicate 3 (record { id = 0; count = 0 })) ≡ (result, watcher.new) }
{
    watcher.work(&WatchInput { code, a: 0, b: 0 }, NO_PLANS)
}
