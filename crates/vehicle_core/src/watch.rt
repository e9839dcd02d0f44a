//! A watcher's steps: it begins its inputs and takes its replies, and the read that it answers is asked.

ghost use Rattle.std.specs.Prelude.{◌≡◌, [], is_some, length};
ghost use Rattle.mission_model.specs.declared.request.Client.TheVariants as client;
ghost use Rattle.mission_model.specs.declared.flight_line.Line.TheVariants as line;
ghost use Rattle.request_board.specs.BoardState.{HasClient, open_asks};
ghost use Rattle.request_board.specs.WatchLaw.{reads_of};
ghost use Rattle.vehicle_core.specs.ActorStep.{all_asked};
ghost use Rattle.vehicle_core.specs.WatchActs.{WatchActs, WatchFits};

use crate::schedule::Schedule;
use crate::shared::Shared;
use crate::watch_turn::{Todo, ask, next};
use mission_model::{Asked, Line, Reply, WatchInput, WatchOut};
use request_board::Watcher;
use turn_cell::StepOut;

/// A watcher, whether it has a current input, and the rest of its schedule.
#[derive(Drop)]
pub struct WatchActor<W> {
    pub number: u8,
    pub watcher: W,
    pub busy: bool,
    pub schedule: Schedule,
}

/// One step of a watcher. A reply that waits goes first; else the next input is begun once no request of it is outstanding.
#[inline(never)]
pub fn step<W: Watcher>(shared: &mut Shared, watch: &mut WatchActor<W>) -> StepOut<Line>
    requires { WatchFits W.waits shared.old watch.old }
    ensures { WatchActs (record { works = W.works; tells = W.tells }) shared.old watch.old result shared.new watch.new }
{
    match next(shared, watch.number, &mut watch.schedule) {
        Todo::Rests => StepOut::Idle,
        Todo::Does(input) => {
            let out = watch.watcher.work(&input, shared.board.published());
            watch.busy = out.read.is_some();
            StepOut::Made(did(shared, watch.number, input, &out))
        }
        Todo::Hears(asked, reply) => {
            let out = watch.watcher.told(&asked, &reply, shared.board.published());
            watch.busy = out.read.is_some();
            StepOut::Made(got(shared, watch.number, asked, reply, &out))
        }
    }
}

/// The line of an input that was begun, whose read is asked.
#[inline(never)]
pub fn did(shared: &mut Shared, number: u8, input: WatchInput, out: &WatchOut) -> Line
    requires client { HasClient shared.old.board (client.Watch number) }
    requires free { open_asks shared.old.board (client.Watch number) ≡ [] }
    ensures shared { shared.new ≡ record shared.old { board = all_asked shared.old.board (client.Watch number) (reads_of out.now.read) } }
    ensures line { result ≡ line.WatchDid number input out.now.note (length (reads_of out.now.read)) }
{
    let asked = ask(shared, number, out.read);
    Line::WatchDid {
        watch: number,
        input,
        note: out.note,
        asked,
    }
}

/// The line of a reply that was taken, after which a read is asked.
#[inline(never)]
pub fn got(shared: &mut Shared, number: u8, asked: Asked, reply: Reply, out: &WatchOut) -> Line
    requires client { HasClient shared.old.board (client.Watch number) }
    requires free { open_asks shared.old.board (client.Watch number) ≡ [] }
    ensures shared { shared.new ≡ record shared.old { board = all_asked shared.old.board (client.Watch number) (reads_of out.now.read) } }
    ensures line { result ≡ line.WatchGot number asked reply out.now.note (length (reads_of out.now.read)) }
{
    let asks = ask(shared, number, out.read);
    Line::WatchGot {
        watch: number,
        asked,
        reply,
        note: out.note,
        asks,
    }
}
