//! What a watcher's turn is, and how its read is asked: all of its step but the watcher's own answer.

ghost use Rattle.std.specs.Prelude.{◌≡◌, [], length};
ghost use Rattle.std.specs.List.{All};
ghost use Rattle.mission_model.specs.declared.request.Client.TheVariants as client;
ghost use Rattle.mission_model.specs.BootScripts.{WatcherInput};
ghost use Rattle.request_board.specs.BoardState.{HasClient, open_asks};
ghost use Rattle.request_board.specs.WatchLaw.{reads_of};
ghost use Rattle.vehicle_core.specs.ActorStep.{all_asked};
ghost use Rattle.vehicle_core.specs.WatchActs.{TurnIs};

use crate::client;
use crate::schedule::Schedule;
use crate::shared::Shared;
use mission_model::{Asked, Client, InputLine, PlanType, Reply, Request, WatchInput};

/// What a watcher is to do.
#[derive(Clone, Copy, Debug)]
pub enum Todo {
    /// Nothing.
    Rests,
    /// Its next input.
    Does(WatchInput),
    /// The reply that it took.
    Hears(Asked, Reply),
}

/// The turn of the watcher of this number. A reply is taken from the board, and an input from the schedule.
pub fn next(shared: &mut Shared, number: u8, schedule: &mut Schedule) -> Todo
    requires client { HasClient shared.old.board (client.Watch number) }
    requires inputs { All WatcherInput schedule.old.inputs }
    ensures { TurnIs shared.old number schedule.old result shared.new schedule.new }
{
    if !shared.power {
        return Todo::Rests;
    }
    let client = Client::Watch(number);
    if let Some((asked, reply)) = shared.board.take_reply(client) {
        return Todo::Hears(asked, reply);
    }
    if !client::is_free(&shared.board, client) {
        return Todo::Rests;
    }
    match schedule.current() {
        Some(InputLine::Watch(input)) => {
            let input = *input;
            schedule.advance();
            Todo::Does(input)
        }
        _ => Todo::Rests,
    }
}

/// Asks the read that a watcher answered, if any, while it has no other request outstanding. It answers how many were asked.
pub fn ask(shared: &mut Shared, number: u8, read: Option<(PlanType, u32, u16)>) -> u8
    requires client { HasClient shared.old.board (client.Watch number) }
    requires free { open_asks shared.old.board (client.Watch number) ≡ [] }
    ensures shared { shared.new ≡ record shared.old { board = all_asked shared.old.board (client.Watch number) (reads_of read) } }
    ensures count { result ≡ length (reads_of read) }
{
    let Some((kind, id, seq)) = read else {
        return 0;
    };
    let _ = shared
        .board
        .ask(Client::Watch(number), Request::Read { kind, id, seq });
    1
}
