//! Missions that are flown call by call, beside what each call answers and the index behind it.
ghost use Rattle.std.specs.Prelude.{◌≡◌, ◌≤◌, length};
ghost use Rattle.mission_model.specs.declared.plan.PlanType.TheVariants.{Mission as OfMission};
ghost use Rattle.mission_model.specs.PlanCode.{PlanValid};

use super::*;
use mission_model::command::{
    DO_CHANGE_SPEED, DO_JUMP, DO_LAND_START, NAV_DELAY, NAV_RETURN_TO_LAUNCH, NAV_WAYPOINT,
};
use mission_model::{Param, PlanType, check_plan};
use std::test::*;

/// A call.
#[derive(Clone, Copy)]
enum Call {
    /// A step that is shown the item at the index, or nothing at the mission's end.
    Step,
    /// A step that is shown nothing.
    Wait,
    Reached,
    SetIndex(u16),
}

/// What came of it.
#[derive(Clone, Copy, Debug, PartialEq, Eq)]
enum Came {
    Out(LegOut),
    Moved(bool),
    Set,
    /// The call may not be made.
    Nothing,
}

/// Makes each row's call in turn, up to one of which something else came: that row, what came, and the index then.
fn differs(items: &[Item], rows: &[(Call, Came, u16)]) -> Option<(usize, Came, u16)> {
    if check_plan(PlanType::Mission, items).is_err() {
        return Some((0, Came::Nothing, 0));
    }
    let mut machine = LegMachine::new(items.len() as u16, 0, Counts::new());
    for row in 0..rows.len() {
        let (call, want, index) = rows[row];
        let came = make(&mut machine, items, call);
        if came != want || machine.index() != index {
            return Some((row, came, machine.index()));
        }
    }
    None
}

/// Makes the call.
fn make(machine: &mut LegMachine, items: &[Item], call: Call) -> Came
    requires valid { PlanValid OfMission items.now }
    requires count { length items.now ≡ machine.old.count }
    ensures { machine.new.count ≡ machine.old.count }
{
    match call {
        Call::Step => step_in(machine, items),
        Call::Wait => Came::Out(machine.step(Look::Pending)),
        Call::Reached => Came::Moved(machine.reached()),
        Call::SetIndex(seq) => {
            if seq as usize >= items.len() {
                return Came::Nothing;
            }
            machine.set_index(seq);
            Came::Set
        }
    }
}

/// A step that is shown the item at the index.
fn step_in(machine: &mut LegMachine, items: &[Item]) -> Came
    requires valid { PlanValid OfMission items.now }
    requires count { length items.now ≡ machine.old.count }
    ensures { machine.new.count ≡ machine.old.count }
{
    if !machine.counts().takes(machine.index()) {
        return Came::Nothing;
    }
    let index = machine.index() as usize;
    if index >= items.len() {
        return Came::Out(machine.step(Look::Pending));
    }
    Came::Out(machine.step(Look::Here(items[index])))
}

fn item(command: u16, p1: Param, p2: Param) -> Item {
    Item {
        frame: 0,
        command,
        p1,
        p2,
        p3: Param::Unset,
        p4: Param::Unset,
        x: 473_977_418,
        y: 85_455_939,
        z: 10_000,
        auto: true,
    }
}

fn plain(command: u16) -> Item {
    item(command, Param::Milli(0), Param::Milli(0))
}

/// A DO_JUMP to item 0.
fn jump_to_first(thousand_repeats: i32) -> Item {
    item(DO_JUMP, Param::Milli(0), Param::Milli(thousand_repeats))
}

#[test]
fn a_jump_is_taken_as_often_as_it_says(rt: HostRuntime) {
    let leg = (Call::Step, Came::Out(LegOut::Leg(0)), 0);
    let reached = (Call::Reached, Came::Moved(true), 1);
    let first = (
        Call::Step,
        Came::Out(LegOut::Jump {
            seq: 1,
            to: 0,
            used: 1,
        }),
        0,
    );
    let second = (
        Call::Step,
        Came::Out(LegOut::Jump {
            seq: 1,
            to: 0,
            used: 2,
        }),
        0,
    );
    let spent = (Call::Step, Came::Out(LegOut::JumpSpent(1)), 2);
    let done = (Call::Step, Came::Out(LegOut::Done), 2);
    let never = [leg, reached, spent, done];
    let once = [leg, reached, first, leg, reached, spent, done];
    let twice = [
        leg, reached, first, leg, reached, second, leg, reached, spent, done,
    ];
    let plan = |repeats| [plain(NAV_WAYPOINT), jump_to_first(repeats)];
    assert_eq!(rt; differs(&plan(0), &never), None);
    assert_eq!(rt; differs(&plan(1000), &once), None);
    assert_eq!(rt; differs(&plan(2000), &twice), None);
    // The first item empties the counts; another one keeps them.
    let again = [
        leg,
        reached,
        first,
        (Call::SetIndex(1), Came::Set, 1),
        second,
        (Call::SetIndex(1), Came::Set, 1),
        spent,
        (Call::SetIndex(0), Came::Set, 0),
        leg,
        reached,
        first,
    ];
    assert_eq!(rt; differs(&plan(2000), &again), None);
}

#[test]
fn a_leg_is_reached_once_and_after_it_was_shown(rt: HostRuntime) {
    let items = [
        plain(NAV_WAYPOINT),
        plain(NAV_RETURN_TO_LAUNCH),
        plain(DO_CHANGE_SPEED),
        plain(DO_LAND_START),
        plain(NAV_LOITER_UNLIM),
        plain(NAV_WAYPOINT),
        plain(NAV_DELAY),
    ];
    let rows = [
        (Call::Reached, Came::Moved(false), 0),
        (Call::Wait, Came::Out(LegOut::Pending), 0),
        (Call::Reached, Came::Moved(false), 0),
        (Call::Step, Came::Out(LegOut::Leg(0)), 0),
        (Call::Wait, Came::Out(LegOut::Pending), 0),
        (Call::Reached, Came::Moved(true), 1),
        (Call::Reached, Came::Moved(false), 1),
        (Call::Step, Came::Out(LegOut::Action(1)), 2),
        (Call::Step, Came::Out(LegOut::Action(2)), 3),
        (Call::Step, Came::Out(LegOut::Action(3)), 4),
        (Call::Step, Came::Out(LegOut::Leg(4)), 4),
        (Call::Reached, Came::Moved(false), 4),
        (Call::Step, Came::Out(LegOut::Leg(4)), 4),
        (Call::SetIndex(5), Came::Set, 5),
        (Call::Step, Came::Out(LegOut::Leg(5)), 5),
        (Call::SetIndex(5), Came::Set, 5),
        (Call::Reached, Came::Moved(false), 5),
        (Call::Step, Came::Out(LegOut::Leg(5)), 5),
        (Call::Step, Came::Out(LegOut::Leg(5)), 5),
        (Call::Reached, Came::Moved(true), 6),
        (Call::Step, Came::Out(LegOut::Leg(6)), 6),
        (Call::Reached, Came::Moved(true), 7),
        (Call::Wait, Came::Out(LegOut::Done), 7),
        (Call::Reached, Came::Moved(false), 7),
    ];
    assert_eq!(rt; differs(&items, &rows), None);
    assert_eq!(rt;
        differs(&[], &[(Call::Step, Came::Out(LegOut::Done), 0)]),
        None
    );
}

#[test]
fn all_legs_but_one_are_reached(rt: HostRuntime) {
    let rows = [
        (16, true),
        (17, false),
        (18, true),
        (19, true),
        (21, true),
        (22, true),
        (93, true),
    ];
    for (command, moves) in rows {
        let legs = [
            (Call::Step, Came::Out(LegOut::Leg(0)), 0),
            (Call::Reached, Came::Moved(moves), u16::from(moves)),
        ];
        assert_eq!(rt; differs(&[plain(command)], &legs), None, "of {command}");
    }
}
