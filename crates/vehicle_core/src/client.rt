//! The steps that are the same for every client: the two of a meeting, and a wait.

ghost use Rattle.std.specs.Prelude.{◌≡◌, ◌∷◌, ◌<◌, List, drop, ℕ};
ghost use Rattle.mission_model.specs.declared.limits.TheConstants.{MAX_PLACES};
ghost use Rattle.mission_model.specs.declared.schedule.InputLine.TheVariants as input;
ghost use Rattle.request_board.specs.BoardState.{HasClient};
ghost use Rattle.vehicle_core.specs.Ready.{asking_turn, input_ready, is_free, is_turn};
ghost use Rattle.vehicle_core.specs.SharedState.{Counted, shared_told};
ghost use Rattle.vehicle_core.specs.ClientSteps.{MeetingFits, OnSchedule};

use crate::schedule::Schedule;
use crate::shared::Shared;
use mission_model::limits::{LINK_ROOM, NAV_ROOM, WATCH_ROOM};
use mission_model::{Client, InputLine, Line, VehicleLine};
use request_board::Board;
use turn_cell::StepOut;

/// Whether the client has no request outstanding.
pub fn is_free(board: &Board, client: Client) -> bool
    requires { HasClient board.now client }
    ensures { result ≡ is_free board.now client }
{
    let all = match client {
        Client::Nav => NAV_ROOM,
        Client::Link(_) => LINK_ROOM,
        Client::Watch(_) => WATCH_ROOM,
    };
    board.room(client) == all
}

/// Whether the client's current input is ready.
pub fn input_ready(shared: &Shared, client: Client, schedule: &Schedule) -> bool
    requires client { HasClient shared.now.board client }
    requires meeting { MeetingFits schedule.now.inputs }
    ensures { (arrived : List ℕ) → Counted arrived shared.now → result ≡ input_ready (shared_told shared.now arrived) client schedule.now.inputs schedule.now.begun schedule.now.requested }
{
    match schedule.current() {
        Some(InputLine::Wait) => is_free(&shared.board, client),
        Some(InputLine::Meet { place, count }) => {
            !schedule.has_begun() || *count <= shared.arrivals(*place)
        }
        Some(InputLine::Vehicle(VehicleLine::Go)) => {
            !schedule.has_begun() || is_free(&shared.board, client)
        }
        Some(InputLine::Upload { items, .. }) => {
            !schedule.has_begun() || (schedule.requested() as usize) < items.as_slice().len()
        }
        Some(_) => true,
        None => false,
    }
}

/// Whether a link or a watcher has something to do: a reply waits for it, or nothing of it is outstanding and its current
/// input is ready.
pub fn has_turn(shared: &Shared, client: Client, schedule: &Schedule) -> bool
    requires client { HasClient shared.now.board client }
    requires meeting { MeetingFits schedule.now.inputs }
    ensures { (arrived : List ℕ) → Counted arrived shared.now → result ≡ is_turn (asking_turn (shared_told shared.now arrived) client schedule.now) }
{
    shared.board.has_reply(client)
        || (is_free(&shared.board, client) && input_ready(shared, client, schedule))
}

/// A meeting or a wait, where that is the client's current input and ready.
#[inline(never)]
pub fn step(shared: &mut Shared, client: Client, schedule: &mut Schedule) -> StepOut<Line>
    requires client { HasClient shared.old.board client }
    requires meeting { MeetingFits schedule.old.inputs }
    ensures { OnSchedule client shared.old schedule.old result shared.new schedule.new }
{
    match schedule.current() {
        Some(InputLine::Wait) => wait(shared, client, schedule),
        Some(InputLine::Meet { place, count }) => {
            let (place, count) = (*place, *count);
            meet(shared, client, schedule, place, count)
        }
        _ => StepOut::Idle,
    }
}

/// A wait, until nothing of the client's own is outstanding.
#[inline(never)]
fn wait(shared: &mut Shared, client: Client, schedule: &mut Schedule) -> StepOut<Line>
    requires client { HasClient shared.old.board client }
    requires current { schedule.old.inputs ≡ input.Wait ∷ drop 1 schedule.old.inputs }
    ensures { OnSchedule client shared.old schedule.old result shared.new schedule.new }
{
    if is_free(&shared.board, client) {
        schedule.advance();
        StepOut::Made(Line::Waited { client })
    } else {
        StepOut::Idle
    }
}

/// A meeting: the client comes to the place, and goes on once enough clients came there.
#[inline(never)]
fn meet(
    shared: &mut Shared,
    client: Client,
    schedule: &mut Schedule,
    place: u8,
    count: u8,
) -> StepOut<Line>
    requires current { schedule.old.inputs ≡ input.Meet place count ∷ drop 1 schedule.old.inputs }
    requires place { place < MAX_PLACES }
    ensures { OnSchedule client shared.old schedule.old result shared.new schedule.new }
{
    if !schedule.has_begun() {
        shared.arrive(place);
        schedule.begin();
        return StepOut::Made(Line::Arrived { client, place });
    }
    if count <= shared.arrivals(place) {
        schedule.advance();
        StepOut::Made(Line::Met { client, place })
    } else {
        StepOut::Idle
    }
}
