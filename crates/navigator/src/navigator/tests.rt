//! Flights over boards that are answered by hand: each event has a new board with the heads that are published then, and its
//! reads and marks are answered by the rows.

ghost use Rattle.std.specs.Prelude.{◌≡◌, ◌≤◌, IsTrue, IfOk, true};
ghost use Rattle.mission_model.specs.declared.plan.PlanType.{PlanType as KindValue};
ghost use Rattle.mission_model.specs.BootStates.{StateInLimits};
ghost use Rattle.mission_model.specs.PlanTypes.{head_of, limit_of};
ghost use Rattle.request_board.specs.BoardCalls.{opened};
ghost use Rattle.navigator.specs.EventLaw.{CanTick};

use super::*;
use mission_model::Param::{Milli, Unset};
use mission_model::{Counts, Item, Mark, NavWhat, Param, PlanHead, limit_of};
use std::test::*;

/// What an entry shows, without the items and ids that it names.
#[derive(Clone, Copy, Debug, PartialEq, Eq)]
enum Shown {
    Leg(u16),
    Action(u16),
    Jump(u16, u16, u16),
    Spent(u16),
    Done,
    Pending(PlanType, u16),
    Hold(u8, u16),
    Empty,
    Idle,
    Taken,
    Next(u16),
    NextReturn,
    Ignored,
    BackLeg(u16),
    BackSkip(u16),
    BackHome,
    BackSafe(u16),
    BackNone,
    BackDone,
    /// The event may not happen.
    Wrong,
}

fn entry_form(what: &NavWhat) -> Shown {
    match *what {
        NavWhat::Leg { seq, .. } => Shown::Leg(seq),
        NavWhat::Action { seq, .. } => Shown::Action(seq),
        NavWhat::Jump { seq, to, used, .. } => Shown::Jump(seq, to, used),
        NavWhat::JumpSpent { seq, .. } => Shown::Spent(seq),
        NavWhat::Done { .. } => Shown::Done,
        NavWhat::Pending { kind, seq } => Shown::Pending(kind, seq),
        NavWhat::Hold { rule, seq, .. } => Shown::Hold(rule, seq),
        NavWhat::HoldEmpty => Shown::Empty,
        NavWhat::Idle => Shown::Idle,
        NavWhat::Taken => Shown::Taken,
        NavWhat::Next(index) => Shown::Next(index),
        NavWhat::NextReturn => Shown::NextReturn,
        NavWhat::Ignored => Shown::Ignored,
        NavWhat::ReturnLeg { seq, .. } => Shown::BackLeg(seq),
        NavWhat::ReturnSkip { seq, .. } => Shown::BackSkip(seq),
        NavWhat::ReturnHome(_) => Shown::BackHome,
        NavWhat::ReturnSafe { seq, .. } => Shown::BackSafe(seq),
        NavWhat::ReturnNone => Shown::BackNone,
        NavWhat::ReturnDone => Shown::BackDone,
    }
}

/// What answers an event.
#[derive(Clone, Copy)]
enum Answer {
    Nothing,
    /// The items of a plan from a seq on, so many.
    Items(PlanType, u16, u16),
    /// The read of an item is of a plan that is not in force any more.
    Stale(PlanType, u16),
    /// The mark is done.
    Marked,
    /// A head is published.
    Publish(PlanType, PlanHead),
    /// The window is moved for which a drop is owed.
    Drop,
}

fn is_within(heads: &[PlanHead; 3]) -> bool
    ensures { IsTrue result → (type : KindValue) → (head_of heads.now type).count ≤ limit_of type }
{
    let mission = head_of(heads, PlanType::Mission).count <= limit_of(PlanType::Mission);
    let fence = head_of(heads, PlanType::Fence).count <= limit_of(PlanType::Fence);
    let safe = head_of(heads, PlanType::Safe).count <= limit_of(PlanType::Safe);
    mission && fence && safe
}

fn can_tick(navigator: &Navigator, heads: &[PlanHead; 3]) -> bool
    ensures { IsTrue result → CanTick navigator.now (opened 1 0 heads.now) }
{
    let mission = head_of(heads, PlanType::Mission);
    if navigator.mission.has_id(mission.id) {
        if mission.count != navigator.mission.count() {
            return false;
        }
    }
    is_within(heads) && navigator.flight.is_quiet()
}

fn event(
    alloc: Global,
    navigator: &mut Navigator,
    heads: [PlanHead; 3],
    line: VehicleLine,
) -> Result<(Shown, u8), AllocError> {
    let mut board = Board::new(alloc, 1, 0, heads)?;
    if !can_tick(navigator, &heads) {
        return Ok((Shown::Wrong, 0));
    }
    let entry = navigator.tick(&mut board, &line);
    Ok((entry_form(&entry.what), entry.asked))
}

fn item(frame: u16, command: u16, p1: Param, p2: Param, x: i32, y: i32) -> Item {
    Item {
        frame,
        command,
        p1,
        p2,
        p3: Unset,
        p4: Unset,
        x,
        y,
        z: 10_000,
        auto: true,
    }
}

/// The item of a plan at a seq: latitudes rise by a tenth of a degree in mission 1, mission 2 ends with a jump, and mission 3
/// is a return; the fences go to 47.25, to 47.4 and to 47.0015.
fn planned(kind: PlanType, id: u32, seq: u16) -> Item {
    match (kind, id, seq) {
        (PlanType::Mission, 2, 1) => item(2, 177, Milli(0), Milli(2000), 0, 0),
        (PlanType::Mission, 3, _) => item(2, 20, Unset, Unset, 0, 0),
        (PlanType::Mission, _, _) => {
            let x = 470_000_000 + i32::from(seq.min(40)) * 1_000_000;
            item(0, 16, Unset, Unset, x, 80_000_000)
        }
        (PlanType::Fence, _, _) => corner(id, seq),
        (PlanType::Safe, _, 0) => item(0, 5100, Unset, Unset, 470_020_000, 80_000_000),
        (PlanType::Safe, _, _) => item(0, 5100, Unset, Unset, 470_010_000, 80_010_000),
    }
}

fn corner(id: u32, seq: u16) -> Item {
    let (low, high, west, east) = match id {
        1 => (469_000_000, 472_500_000, 79_000_000, 81_000_000),
        2 => (469_000_000, 474_000_000, 79_000_000, 81_000_000),
        _ => (469_900_000, 470_015_000, 79_900_000, 80_100_000),
    };
    let (x, y) = match seq {
        0 => (low, west),
        1 => (low, east),
        2 => (high, east),
        _ => (high, west),
    };
    item(0, 5001, Milli(4000), Unset, x, y)
}

fn reply_to(
    alloc: Global,
    navigator: &mut Navigator,
    heads: &mut [PlanHead; 3],
    answer: Answer,
) -> Result<(), AllocError> {
    match answer {
        Answer::Nothing => {}
        Answer::Items(kind, from, many) => {
            let id = head_of(heads, kind).id;
            for place in 0..many {
                let seq = from.saturating_add(place);
                let reply = Reply::Item(planned(kind, id, seq));
                navigator.got(&Asked::Read { kind, id, seq }, &reply);
            }
        }
        Answer::Stale(kind, seq) => {
            let id = head_of(heads, kind).id;
            navigator.got(&Asked::Read { kind, id, seq }, &Reply::Stale(id));
        }
        Answer::Marked => {
            let mark = mark_at(head_of(heads, PlanType::Mission).id, 0);
            navigator.got(&Asked::SetMark(mark), &Reply::Done);
        }
        Answer::Publish(kind, head) => heads[kind.place()] = head,
        Answer::Drop => {
            let board = Board::new(alloc, 1, 0, *heads)?;
            if navigator.owed(&board).is_some() {
                let _ = navigator.drop_window(&board);
            }
        }
    }
    Ok(())
}

fn mark_at(id: u32, index: u16) -> Mark {
    Mark {
        id,
        index,
        counts: Counts::new(),
    }
}

/// A flight: the heads of the boot, its mark's index, the type of returns, and whether the home is set.
#[derive(Clone, Copy)]
struct Trip {
    heads: [PlanHead; 3],
    index: u16,
    rtl_type: u8,
    has_home: bool,
}

fn is_boot(boot: &BootMark) -> bool
    ensures { IsTrue result → StateInLimits boot.now }
{
    let mission = head_of(&boot.heads, PlanType::Mission);
    if boot.mark.id != mission.id || boot.mark.index > mission.count {
        return false;
    }
    boot.mark.counts.len() == 0 && is_within(&boot.heads)
}

/// Flies the rows, up to one of which something else came: that row, and what came.
fn differs(
    alloc: Global,
    trip: &Trip,
    rows: &[(VehicleLine, (Shown, u8), Answer)],
) -> Result<Option<(usize, (Shown, u8))>, AllocError> {
    let mut heads = trip.heads;
    let boot = BootMark {
        heads,
        mark: mark_at(head_of(&heads, PlanType::Mission).id, trip.index),
    };
    if !is_boot(&boot) {
        return Ok(Some((rows.len(), (Shown::Wrong, 0))));
    }
    let params = Params {
        tko_land: 0,
        takeoff_min: 0,
        max_alt: 0,
        rtl_type: trip.rtl_type,
    };
    let home = trip.has_home.then_some(Home {
        x: 470_000_000,
        y: 80_000_000,
        z: 400_000,
    });
    let mut navigator = Navigator::new(alloc, params, home, &boot)?;
    for row in 0..rows.len() {
        let (line, want, then) = rows[row];
        let came = event(alloc, &mut navigator, heads, line)?;
        if came != want {
            return Ok(Some((row, came)));
        }
        reply_to(alloc, &mut navigator, &mut heads, then)?;
    }
    Ok(None)
}

const fn head(id: u32, count: u16) -> PlanHead {
    PlanHead { id, count }
}

const GO: VehicleLine = VehicleLine::Go;

const REACHED: VehicleLine = VehicleLine::Reached;

const FLY: VehicleLine = VehicleLine::Mode(Mode::Mission);

const BACK: VehicleLine = VehicleLine::Mode(Mode::Return);

const NONE: PlanHead = PlanHead { id: 0, count: 0 };

const FENCED: PlanType = PlanType::Fence;

const FLOWN: PlanType = PlanType::Mission;

const SAFES: PlanType = PlanType::Safe;

#[test]
fn a_mission_longer_than_its_window(rt: HostRuntime) -> Result<(), Fail> {
    let trip = Trip {
        heads: [head(1, 40), NONE, NONE],
        index: 0,
        rtl_type: 0,
        has_home: false,
    };
    let rows = [
        (GO, (Shown::Idle, 0), Answer::Nothing),
        (FLY, (Shown::Taken, 0), Answer::Nothing),
        (
            GO,
            (Shown::Pending(FLOWN, 0), 7),
            Answer::Items(FLOWN, 0, 7),
        ),
        (
            GO,
            (Shown::Pending(FLOWN, 7), 7),
            Answer::Items(FLOWN, 7, 7),
        ),
        (
            GO,
            (Shown::Pending(FLOWN, 14), 7),
            Answer::Items(FLOWN, 14, 7),
        ),
        (
            GO,
            (Shown::Pending(FLOWN, 21), 7),
            Answer::Items(FLOWN, 21, 7),
        ),
        (
            GO,
            (Shown::Pending(FLOWN, 28), 4),
            Answer::Items(FLOWN, 28, 4),
        ),
        (GO, (Shown::Pending(FLOWN, 32), 0), Answer::Drop),
        (
            GO,
            (Shown::Pending(FLOWN, 32), 7),
            Answer::Items(FLOWN, 32, 7),
        ),
        (
            GO,
            (Shown::Pending(FLOWN, 39), 1),
            Answer::Items(FLOWN, 39, 1),
        ),
        (GO, (Shown::Pending(FLOWN, 0), 0), Answer::Drop),
        (
            GO,
            (Shown::Pending(FLOWN, 0), 7),
            Answer::Items(FLOWN, 0, 7),
        ),
        (GO, (Shown::Leg(0), 7), Answer::Nothing),
        (REACHED, (Shown::Next(1), 1), Answer::Marked),
        (REACHED, (Shown::Ignored, 0), Answer::Nothing),
    ];
    assert_eq!(rt; differs(rt.alloc(), &trip, &rows)?, None);
    Ok(())
}

#[test]
fn jumps_are_used_up_and_marked(rt: HostRuntime) -> Result<(), Fail> {
    let trip = Trip {
        heads: [head(2, 2), NONE, NONE],
        index: 0,
        rtl_type: 0,
        has_home: false,
    };
    let rows = [
        (FLY, (Shown::Taken, 0), Answer::Nothing),
        (
            GO,
            (Shown::Pending(FLOWN, 0), 2),
            Answer::Items(FLOWN, 0, 2),
        ),
        (GO, (Shown::Leg(0), 0), Answer::Nothing),
        (REACHED, (Shown::Next(1), 1), Answer::Marked),
        (GO, (Shown::Jump(1, 0, 1), 1), Answer::Marked),
        (GO, (Shown::Leg(0), 0), Answer::Nothing),
        (REACHED, (Shown::Next(1), 1), Answer::Marked),
        (GO, (Shown::Jump(1, 0, 2), 1), Answer::Marked),
        (GO, (Shown::Leg(0), 0), Answer::Nothing),
        (REACHED, (Shown::Next(1), 1), Answer::Marked),
        (GO, (Shown::Spent(1), 1), Answer::Marked),
        (GO, (Shown::Done, 0), Answer::Nothing),
    ];
    assert_eq!(rt; differs(rt.alloc(), &trip, &rows)?, None);
    Ok(())
}

#[test]
fn new_heads_begin_the_verdict_again(rt: HostRuntime) -> Result<(), Fail> {
    let trip = Trip {
        heads: [head(1, 4), NONE, NONE],
        index: 0,
        rtl_type: 0,
        has_home: false,
    };
    let rows = [
        (FLY, (Shown::Taken, 0), Answer::Nothing),
        (GO, (Shown::Pending(FLOWN, 0), 4), Answer::Nothing),
        (
            GO,
            (Shown::Pending(FLOWN, 0), 0),
            Answer::Items(FLOWN, 0, 4),
        ),
        (GO, (Shown::Leg(0), 0), Answer::Publish(FENCED, head(1, 4))),
        (
            GO,
            (Shown::Pending(FENCED, 0), 4),
            Answer::Items(FENCED, 0, 4),
        ),
        (
            GO,
            (Shown::Hold(7, 3), 0),
            Answer::Publish(FENCED, head(2, 4)),
        ),
        (
            GO,
            (Shown::Pending(FENCED, 0), 4),
            Answer::Items(FENCED, 0, 4),
        ),
        (GO, (Shown::Leg(0), 0), Answer::Publish(FLOWN, head(5, 1))),
        (GO, (Shown::Pending(FLOWN, 0), 1), Answer::Stale(FLOWN, 0)),
        (
            GO,
            (Shown::Pending(FLOWN, 0), 1),
            Answer::Publish(FLOWN, head(4, 0)),
        ),
        (GO, (Shown::Empty, 0), Answer::Nothing),
    ];
    assert_eq!(rt; differs(rt.alloc(), &trip, &rows)?, None);
    Ok(())
}

#[test]
fn the_nearest_place_to_return_to(rt: HostRuntime) -> Result<(), Fail> {
    let trip = Trip {
        heads: [NONE, NONE, head(1, 2)],
        index: 0,
        rtl_type: 0,
        has_home: true,
    };
    let between = VehicleLine::Position {
        x: 470_015_000,
        y: 80_005_000,
    };
    let south = VehicleLine::Position {
        x: 470_010_000,
        y: 80_000_000,
    };
    let rows = [
        (between, (Shown::Taken, 0), Answer::Nothing),
        (BACK, (Shown::Taken, 0), Answer::Nothing),
        (
            GO,
            (Shown::Pending(SAFES, 0), 2),
            Answer::Items(SAFES, 0, 2),
        ),
        (GO, (Shown::BackSafe(0), 0), Answer::Nothing),
        (REACHED, (Shown::NextReturn, 0), Answer::Nothing),
        (GO, (Shown::BackDone, 0), Answer::Nothing),
        (south, (Shown::Taken, 0), Answer::Nothing),
        (BACK, (Shown::Taken, 0), Answer::Nothing),
        (
            GO,
            (Shown::BackHome, 0),
            Answer::Publish(FENCED, head(3, 4)),
        ),
        (between, (Shown::Taken, 0), Answer::Nothing),
        (
            GO,
            (Shown::Pending(FENCED, 0), 4),
            Answer::Items(FENCED, 0, 4),
        ),
        (GO, (Shown::BackSafe(1), 0), Answer::Nothing),
    ];
    assert_eq!(rt; differs(rt.alloc(), &trip, &rows)?, None);
    Ok(())
}

#[test]
fn back_along_the_mission(rt: HostRuntime) -> Result<(), Fail> {
    let trip = Trip {
        heads: [head(2, 2), NONE, NONE],
        index: 2,
        rtl_type: 2,
        has_home: true,
    };
    let rows = [
        (BACK, (Shown::Taken, 0), Answer::Nothing),
        (
            GO,
            (Shown::Pending(FLOWN, 0), 2),
            Answer::Items(FLOWN, 0, 2),
        ),
        (GO, (Shown::BackSkip(1), 0), Answer::Nothing),
        (GO, (Shown::BackLeg(0), 0), Answer::Nothing),
        (REACHED, (Shown::NextReturn, 0), Answer::Nothing),
        (GO, (Shown::BackHome, 0), Answer::Nothing),
    ];
    assert_eq!(rt; differs(rt.alloc(), &trip, &rows)?, None);
    Ok(())
}

#[test]
fn the_command_to_return(rt: HostRuntime) -> Result<(), Fail> {
    let trip = Trip {
        heads: [head(3, 1), NONE, NONE],
        index: 0,
        rtl_type: 1,
        has_home: false,
    };
    let rows = [
        (FLY, (Shown::Taken, 0), Answer::Nothing),
        (
            GO,
            (Shown::Pending(FLOWN, 0), 1),
            Answer::Items(FLOWN, 0, 1),
        ),
        (GO, (Shown::Action(0), 1), Answer::Marked),
        (GO, (Shown::BackNone, 0), Answer::Nothing),
    ];
    assert_eq!(rt; differs(rt.alloc(), &trip, &rows)?, None);
    Ok(())
}
