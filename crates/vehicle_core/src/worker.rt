//! The worker's steps: it takes the first request that waits, and posts the reply to the one that it has.

ghost use Rattle.std.specs.Prelude.{◌≡◌, None, Some, true, false};
ghost use Rattle.mission_model.specs.Replies.{Suits};
ghost use Rattle.mission_model.specs.Shown.{asked_of};
ghost use Rattle.vehicle_core.specs.Ready.{is_turn, worker_turn};
ghost use Rattle.vehicle_core.specs.WorkerActs.{ReplySuits, WorkerActs};

use crate::shared::Shared;
use mission_model::{Client, Line, Reply, Request, asked_of};
use turn_cell::StepOut;

/// One step of the worker, whose `taken` is the request that it has taken and not answered. A reply is given exactly where
/// there is one.
#[inline(never)]
pub fn step(
    shared: &mut Shared,
    taken: &mut Option<(Client, Request)>,
    reply: Option<Reply>,
) -> StepOut<Line>
    requires service { shared.old.board.service ≡ taken.old }
    requires power { shared.old.power ≡ false → taken.old ≡ None }
    requires suits { ReplySuits taken.old reply }
    ensures { WorkerActs shared.old taken.old reply result shared.new taken.new }
{
    if !shared.power {
        return StepOut::Idle;
    }
    match (*taken, reply) {
        (Some((client, request)), Some(reply)) => post(shared, taken, client, &request, reply),
        (None, None) => take(shared, taken),
        _ => unreachable!(),
    }
}

/// Whether the worker has something to do: it has a request to reply to, or one waits.
pub fn has_turn(shared: &Shared, taken: &Option<(Client, Request)>) -> bool
    requires { shared.now.board.service ≡ taken.now }
    ensures { result ≡ is_turn (worker_turn shared.now.board) }
{
    taken.is_some() || shared.board.has_waiting()
}

/// Posts the reply to the request that it has. With PowerOff the power is off.
#[inline(never)]
fn post(
    shared: &mut Shared,
    taken: &mut Option<(Client, Request)>,
    client: Client,
    request: &Request,
    reply: Reply,
) -> StepOut<Line>
    requires service { shared.old.board.service ≡ Some (client, request.now) }
    requires power { shared.old.power ≡ true }
    requires suits { Suits (asked_of request.now) reply }
    ensures { WorkerActs shared.old taken.old (Some reply) result shared.new taken.new }
{
    shared.board.post(client, asked_of(request), reply);
    shared.power = !matches!(reply, Reply::PowerOff);
    *taken = None;
    StepOut::Made(Line::Served { client, reply })
}

/// Takes the first request that waits.
#[inline(never)]
fn take(shared: &mut Shared, taken: &mut Option<(Client, Request)>) -> StepOut<Line>
    requires service { shared.old.board.service ≡ None }
    requires free { taken.old ≡ None }
    requires power { shared.old.power ≡ true }
    ensures { WorkerActs shared.old taken.old None result shared.new taken.new }
{
    let Some((client, request)) = shared.board.take_next() else {
        return StepOut::Idle;
    };
    *taken = Some((client, request));
    let asked = asked_of(&request);
    StepOut::Made(Line::Took { client, asked })
}
