//! The worker's steps: it takes the first request that waits, and posts the reply to the one that it has.

ghost use Rattle.std.specs.Prelude.{◌≡◌, None, length};
ghost use Rattle.first_board.specs.BoardState.{OutstandingStays};
ghost use Rattle.first_core.specs.WorkerLaw.{InputSuits, WorkerStep, request_of};

use crate::StepOut;
use crate::shared::Shared;
use first_board::asked_of;
use first_model::{Client, Line, Reply, Request};

/// One step of the worker, whose `taken` is the request that it has taken and not answered. A reply is given
/// exactly where there is one.
pub fn step(
    shared: &mut Shared,
    taken: &mut Option<(Client, Request)>,
    reply: Option<Reply>,
) -> StepOut<Line>
    requires fits { shared.old.board.service ≡ taken.old }
    requires suits { InputSuits (request_of taken.old) reply }
    ensures step { WorkerStep shared.old taken.old reply result shared.new taken.new }
    ensures service { shared.new.board.service ≡ taken.new }
    ensures links { length shared.new.board.link_posted ≡ length shared.old.board.link_posted }
    ensures counts { OutstandingStays shared.old.board shared.new.board }
{
    match (*taken, reply) {
        (Some((client, request)), Some(reply)) => {
            shared.board.post(client, asked_of(&request), reply);
            *taken = None;
            StepOut::Made(Line::Served { client, reply })
        }
        _ => take(shared, taken),
    }
}

/// Takes the first request that waits.
fn take(shared: &mut Shared, taken: &mut Option<(Client, Request)>) -> StepOut<Line>
    requires fits { shared.old.board.service ≡ None }
    requires free { taken.old ≡ None }
    ensures step { WorkerStep shared.old taken.old None result shared.new taken.new }
    ensures service { shared.new.board.service ≡ taken.new }
    ensures links { length shared.new.board.link_posted ≡ length shared.old.board.link_posted }
    ensures counts { OutstandingStays shared.old.board shared.new.board }
{
    let Some((client, request)) = shared.board.take_next() else {
        return StepOut::Idle;
    };
    *taken = Some((client, request));
    let asked = asked_of(&request);
    StepOut::Made(Line::Took { client, asked })
}
