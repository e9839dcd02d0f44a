//! Boots that are cut, services that fail, and what a restart finds then.

use super::lines::{boot, commits, mark, marks, reached, serves, waypoint, writes};
use super::{are_steps, not, step};
use mission_model::{Client, Line, NavWhat, PlanType, Reply};
use std::test::*;

const LINK: Client = Client::Link(0);

const LAST: u64 = 18_446_744_073_709_551_615;

#[test]
fn a_commit_that_was_cut_may_have_been_made(rt: HostRuntime) {
    let a = waypoint(473_760_000, 85_500_000);
    let rows = [
        not(
            Line::BootCut { number: 1 },
            boot(2, (0, 0), (0, 0), mark(0, 0)),
        ),
        not(Line::End, reached(NavWhat::Ignored)),
        not(
            boot(2, (0, 0), (0, 0), mark(0, 0)),
            boot(1, (0, 0), (0, 0), mark(0, 0)),
        ),
        step(writes(PlanType::Mission, 1, 0, a)),
        step(commits(PlanType::Mission, 1, 1)),
        step(serves(LINK, Reply::PowerOff)),
        not(
            Line::BootCut { number: 3 },
            boot(3, (1, 0), (0, 0), mark(1, 0)),
        ),
        not(
            boot(4, (1, 1), (0, 0), mark(1, 0)),
            boot(4, (1, 1), (0, 0), mark(0, 0)),
        ),
        not(
            boot(5, (1, 1), (0, 0), mark(1, 0)),
            boot(5, (0, 0), (0, 0), mark(0, 0)),
        ),
    ];
    are_steps(&rt, rt.alloc(), 0, None, &rows);
}

#[test]
fn a_restart_finds_one_change_at_most(rt: HostRuntime) {
    let a = waypoint(473_760_000, 85_500_000);
    let rows = [
        step(boot(1, (0, 0), (0, 0), mark(0, 0))),
        step(writes(PlanType::Mission, 1, 0, a)),
        step(commits(PlanType::Mission, 1, 1)),
        not(
            serves(LINK, Reply::DiskFailed),
            serves(LINK, Reply::Item(a)),
        ),
        step(commits(PlanType::Fence, 1, 0)),
        step(serves(LINK, Reply::DiskFailed)),
        step(commits(PlanType::Mission, 0, 0)),
        step(serves(LINK, Reply::DiskFailed)),
        not(
            boot(2, (0, 0), (1, 0), mark(0, 0)),
            boot(2, (1, 1), (1, 0), mark(1, 0)),
        ),
        not(
            boot(3, (0, 0), (1, 0), mark(0, 0)),
            boot(3, (1, 1), (1, 0), mark(1, 0)),
        ),
    ];
    are_steps(&rt, rt.alloc(), 0, None, &rows);
}

#[test]
fn a_reply_settles_what_may_have_been_made(rt: HostRuntime) {
    let a = waypoint(473_760_000, 85_500_000);
    let rows = [
        step(boot(1, (5, 1), (0, 0), mark(5, 0))),
        not(marks(mark(5, 0)), marks(mark(5, 1))),
        not(
            serves(Client::Nav, Reply::DiskFailed),
            serves(Client::Nav, Reply::Spent(LAST - 1)),
        ),
        step(writes(PlanType::Mission, 6, 0, a)),
        step(commits(PlanType::Mission, 6, 1)),
        step(serves(LINK, Reply::DiskFailed)),
        step(commits(PlanType::Mission, 7, 0)),
        step(serves(LINK, Reply::Spent(LAST))),
        not(
            boot(2, (5, 1), (0, 0), mark(5, 0)),
            boot(2, (6, 1), (0, 0), mark(6, 0)),
        ),
        step(commits(PlanType::Mission, 7, 1)),
        not(serves(LINK, Reply::DiskFailed), serves(LINK, Reply::Done)),
        not(
            boot(3, (5, 1), (0, 0), mark(5, 0)),
            boot(3, (7, 0), (0, 0), mark(7, 0)),
        ),
    ];
    are_steps(&rt, rt.alloc(), 0, None, &rows);
}
