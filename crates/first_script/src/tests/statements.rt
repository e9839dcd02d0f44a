//! What a script states: parameters, home, plans, and a boot with its inputs and turns.

use crate::bounds::MAX_SCRIPT_BYTES;
use crate::read::read_script;
use first_model::{
    Actor, Home, InputLine, Item, Mode, Param, Params, PlanType, Script, VehicleLine,
};
use std::alloc::Global;
use std::test::*;

const FLIGHT: &[u8] = b"# a flight\npx4 script 1\n\
param TKO_LAND 2\nparam TKO_LAND 4\nparam TAKEOFF_MIN 12.5\nparam MAX_ALT 120\nparam RTL_TYPE 2\nparam DIST_WPS 0\n\
home 1 2 3\nhome 47.3977 8.5456 488\n\
plan m mission home-first\nQGC WPL 110\r\n\
0\t1\t0\t16\t0\t0\t0\t0\t47.397742\t8.545594\t488.1\t1\r\n\
1\t0\t3\t22\t15\t0\t0\tnan\t47.3977419999999995\t8.545594\t10\t1\r\n\
2\t0\t2\t177\t1\t2\t0\t0\t0\t0\t0\t0\r\n\r\n\
 end\t\n\
plan f fence\nQGC WPL 110\nend\n\
boot\nlink 0 meet 0 2\nnav meet 00 2\n# turns\nturns w n\nturns l0\nnav wait\nlink 0 wait\n";

/// The parameters and the home that `FLIGHT` sets last.
const PARAMS: Params = Params {
    tko_land: 4,
    takeoff_min: 12_500,
    max_alt: 120_000,
    rtl_type: 2,
};

const HOME: Home = Home {
    x: 473_977_000,
    y: 85_456_000,
    z: 488_000,
};

const ZERO: Param = Param::Milli(0);

const TAKEOFF: Item = Item {
    frame: 3,
    command: 22,
    p1: Param::Milli(15_000),
    p2: ZERO,
    p3: ZERO,
    p4: Param::Unset,
    x: 473_977_420,
    y: 85_455_940,
    z: 10_000,
    auto: true,
};

const JUMP: Item = Item {
    frame: 2,
    command: 177,
    p1: ZERO,
    p2: Param::Milli(2000),
    p3: ZERO,
    p4: ZERO,
    x: 0,
    y: 0,
    z: 0,
    auto: false,
};

fn script(alloc: Global, text: &[u8]) -> Result<Script, Fail> {
    if text.len() > MAX_SCRIPT_BYTES {
        return Err("the text is short".into());
    }
    Ok(read_script(alloc, text).ok().ok_or("the text is a script")?)
}

#[test]
fn states_a_head(rt: HostRuntime) -> Result<(), Fail> {
    let script = script(rt.alloc(), FLIGHT)?;
    assert!(rt; script.params == PARAMS);
    assert!(rt; script.home == Some(HOME));
    let plans = script.plans.as_slice();
    assert_eq!(rt; plans.len(), 2);
    assert_eq!(rt; plans[0].name.as_slice(), b"m".as_slice());
    assert!(rt; plans[0].kind == PlanType::Mission);
    assert!(rt; plans[0].items.as_slice() == [TAKEOFF, JUMP].as_slice());
    assert!(rt; plans[1].kind == PlanType::Fence);
    assert!(rt; plans[1].items.as_slice().is_empty());
    Ok(())
}

#[test]
fn states_a_boot(rt: HostRuntime) -> Result<(), Fail> {
    let script = script(rt.alloc(), FLIGHT)?;
    let boots = script.boots.as_slice();
    assert_eq!(rt; boots.len(), 1);
    let boot = &boots[0];
    assert!(rt; boot.params == PARAMS);
    assert!(rt; boot.home == Some(HOME));
    assert_eq!(rt; (boot.links, boot.watchers), (1, 0));
    assert!(rt; boot.turns.as_slice() == [Actor::Worker, Actor::Nav, Actor::Link(0)].as_slice());
    let inputs = boot.inputs.as_slice();
    assert_eq!(rt; inputs.len(), 4);
    assert!(rt;
        matches!(
            inputs[0],
            (Actor::Link(0), InputLine::Meet { place: 0, count: 2 })
        )
    );
    assert!(rt;
        matches!(
            inputs[1],
            (Actor::Nav, InputLine::Meet { place: 0, count: 2 })
        )
    );
    assert!(rt; matches!(inputs[2], (Actor::Nav, InputLine::Wait)));
    assert!(rt; matches!(inputs[3], (Actor::Link(0), InputLine::Wait)));
    Ok(())
}

/// An input in few words.
fn told(input: &(Actor, InputLine)) -> &'static str {
    match input {
        (
            Actor::Link(0),
            InputLine::Upload {
                kind: PlanType::Mission,
                ..
            },
        ) => "upload",
        (Actor::Nav, InputLine::Vehicle(VehicleLine::Tick)) => "tick",
        (Actor::Nav, InputLine::Vehicle(VehicleLine::Go)) => "go",
        (Actor::Nav, InputLine::Vehicle(VehicleLine::Reached)) => "reached",
        (Actor::Nav, InputLine::Vehicle(VehicleLine::Mode(Mode::Hold))) => "hold",
        (Actor::Nav, InputLine::Vehicle(VehicleLine::Mode(Mode::Mission))) => "mission",
        _ => "other",
    }
}

const WAYPOINT: Item = Item {
    frame: 0,
    command: 16,
    p1: ZERO,
    p2: ZERO,
    p3: ZERO,
    p4: ZERO,
    x: 470_000_000,
    y: 80_000_000,
    z: 10_000,
    auto: true,
};

/// The items of an upload that comes last.
fn uploaded(inputs: &[(Actor, InputLine)]) -> &[Item] {
    match inputs.last() {
        Some((_, InputLine::Upload { items, .. })) => items.as_slice(),
        _ => &[],
    }
}

#[test]
fn states_uploads_and_events(rt: HostRuntime) -> Result<(), Fail> {
    let text = b"px4 script 1\nplan p mission\nQGC WPL 110\n0 1 0 16 0 0 0 0 47 8 10 1\nend\nboot\n\
nav tick\nnav go\nnav reached\nnav mode hold\nnav mode mission\nlink 00 upload p";
    let script = script(rt.alloc(), text)?;
    let wanted = ["tick", "go", "reached", "hold", "mission", "upload"];
    for boot in script.boots.as_slice() {
        let inputs = boot.inputs.as_slice();
        assert_eq!(rt; inputs.len(), wanted.len());
        for (input, want) in inputs.iter().zip(wanted) {
            assert_eq!(rt; told(input), want);
        }
        assert!(rt; uploaded(inputs) == [WAYPOINT].as_slice());
    }
    assert_eq!(rt; script.boots.as_slice().len(), 1);
    Ok(())
}
