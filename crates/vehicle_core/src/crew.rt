//! The locals of a boot, each with its schedule.

ghost use Rattle.std.specs.Prelude.{◌≡◌, ◌≤◌, ◌+◌, ◌<◌, IfOk, length};
ghost use Rattle.mission_model.specs.declared.limits.TheConstants.{MAX_LINKS, MAX_WATCHERS};
ghost use Rattle.vehicle_core.specs.Crew.{crew_of};

use crate::link::Link;
use crate::local::{Local, Role};
use crate::nav::NavActor;
use crate::schedule::Schedule;
use crate::watch::WatchActor;
use navigator::Navigator;
use std::alloc::{AllocError, Global};
use upload_session::Session;

/// The locals of worker, links, Navigator and watchers, with these schedules of all but the worker in the same order.
pub fn crew<W: Drop>(
    alloc: Global,
    links: u8,
    navigator: Navigator,
    schedules: Vec<Schedule>,
    watchers: Vec<W>,
) -> Result<Vec<Local<W>>, AllocError>
    requires count { length schedules.items ≡ links + 1 + length watchers.items }
    requires few { (links ≤ MAX_LINKS) × (length watchers.items ≤ MAX_WATCHERS) }
    ensures { IfOk result (λ locals. locals.items ≡ crew_of links navigator schedules.items watchers.items) }
{
    let mut locals = Vec::with_capacity(alloc, schedules.len() + 1)?;
    locals.push_reserved(Local {
        number: 0,
        role: Role::Worker(None),
    });
    let mut schedules = schedules.into_iter();
    for number in 0..links {
        let Some(schedule) = schedules.next() else {
            unreachable!()
        };
        locals.push_reserved(Local {
            number: 1 + number,
            role: Role::Link(Link {
                number,
                session: Session::new(number),
                schedule,
            }),
        });
    }
    let Some(schedule) = schedules.next() else {
        unreachable!()
    };
    locals.push_reserved(Local {
        number: 1 + links,
        role: Role::Nav(NavActor {
            navigator,
            schedule,
        }),
    });
    let mut number = 0;
    for watcher in watchers {
        let Some(schedule) = schedules.next() else {
            unreachable!()
        };
        locals.push_reserved(Local {
            number: 2 + links + number,
            role: Role::Watch(WatchActor {
                number,
                watcher,
                busy: false,
                schedule,
            }),
        });
        number += 1;
    }
    Ok(locals)
}
