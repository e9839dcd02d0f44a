//! The Navigator's steps: it takes its replies, moves the window for which a drop is owed, and goes on with its schedule.

ghost use Rattle.std.specs.Prelude.{◌≡◌, List, [], None, true, is_some, ℕ};
ghost use Rattle.mission_model.specs.declared.request.Client.TheVariants as client;
ghost use Rattle.request_board.specs.BoardState.{posted};
ghost use Rattle.navigator.specs.EventLaw.{CanTick};
ghost use Rattle.navigator.specs.Meeting.{drop_owed};
ghost use Rattle.vehicle_core.specs.ActorStep.{after_event};
ghost use Rattle.mission_model.specs.declared.plan.Item.{Item};
ghost use Rattle.vehicle_core.specs.NavActs.{NavActed, NavActs, NavFits, event_of, nav_told};
ghost use Rattle.vehicle_core.specs.Ready.{is_turn, nav_turn};
ghost use Rattle.vehicle_core.specs.SharedState.{Counted, shared_told};

use crate::client;
use crate::schedule::Schedule;
use crate::shared::Shared;
use mission_model::{Client, InputLine, Line, NavEntry, NavWhat, VehicleLine};
use navigator::Navigator;
use turn_cell::StepOut;

/// The Navigator and the rest of its schedule.
#[derive(Drop)]
pub struct NavActor {
    pub navigator: Navigator,
    pub schedule: Schedule,
}

/// One step of the Navigator. A reply that waits goes first, then a drop that is owed, then the schedule.
#[inline(never)]
pub fn step(shared: &mut Shared, nav: &mut NavActor) -> StepOut<Line>
    requires { NavFits shared.old nav.old }
    ensures { NavActs shared.old nav.old result shared.new nav.new }
{
    if !shared.power {
        return StepOut::Idle;
    }
    match shared.board.take_reply(Client::Nav) {
        Some((asked, reply)) => {
            nav.navigator.got(&asked, &reply);
            StepOut::Made(Line::Got { asked, reply })
        }
        None => go_on(shared, nav),
    }
}

/// Whether the Navigator has something to do: a reply waits for it, a drop is owed, or its current input is ready.
pub fn has_turn(shared: &Shared, nav: &NavActor) -> bool
    requires { NavFits shared.now nav.now }
    ensures { (arrived : List ℕ) (items : List Item) → Counted arrived shared.now → result ≡ is_turn (nav_turn (shared_told shared.now arrived) (nav_told nav.now items)) }
{
    shared.board.has_reply(Client::Nav)
        || nav.navigator.owed(&shared.board).is_some()
        || client::input_ready(shared, Client::Nav, &nav.schedule)
}

/// A drop or the next step of the schedule, while no reply waits.
#[inline(never)]
fn go_on(shared: &mut Shared, nav: &mut NavActor) -> StepOut<Line>
    requires fits { NavFits shared.old nav.old }
    requires none { posted shared.old.board client.Nav ≡ [] }
    requires power { shared.old.power ≡ true }
    ensures { NavActs shared.old nav.old result shared.new nav.new }
{
    if nav.navigator.owed(&shared.board).is_some() {
        let (kind, seq) = nav.navigator.drop_window(&shared.board);
        return StepOut::Made(Line::Dropped { kind, seq });
    }
    match next_event(shared, &nav.schedule) {
        Some(event) => {
            let entry = act(shared, nav, &event);
            StepOut::Made(Line::Nav {
                input: event,
                entry,
            })
        }
        None => client::step(shared, Client::Nav, &mut nav.schedule),
    }
}

/// The event of the current input, where it may happen: a go after a pending entry waits until no request is outstanding.
fn next_event(shared: &Shared, schedule: &Schedule) -> Option<VehicleLine>
    ensures { result ≡ event_of shared.now.board schedule.now.inputs schedule.now.begun }
{
    match schedule.current() {
        Some(InputLine::Vehicle(event)) => match *event {
            VehicleLine::Go => {
                if schedule.has_begun() && !client::is_free(&shared.board, Client::Nav) {
                    None
                } else {
                    Some(*event)
                }
            }
            _ => Some(*event),
        },
        _ => None,
    }
}

/// An event happens. A go stays after a pending entry.
#[inline(never)]
fn act(shared: &mut Shared, nav: &mut NavActor, event: &VehicleLine) -> NavEntry
    requires { CanTick nav.old.navigator shared.old.board }
    ensures { NavActed shared.old nav.old event.now result shared.new nav.new }
{
    let entry = nav.navigator.tick(&mut shared.board, event);
    match (*event, entry.what) {
        (VehicleLine::Go, NavWhat::Pending { .. }) => nav.schedule.begin(),
        _ => nav.schedule.advance(),
    }
    entry
}
