//! Surveys of small scripts, their texts told by hand. Commands are written as MAVLink's numbers, places in 1e-7 degree.

use super::*;
use mission_model::Param::{Milli, Unset};
use mission_model::{Item, Items, Name, NamedPlan, PlanType};
use std::alloc::{AllocError, Global};
use std::test::*;

const WAYPOINT: u16 = 16;

const RETURN_TO_LAUNCH: u16 = 20;

const IN: u16 = 5001;

/// A number that is no command of a plan.
const UNKNOWN: u16 = 999;

const DEGREE: i32 = 10_000_000;

fn item(command: u16, count: i32, x: i32, y: i32) -> Item {
    Item {
        frame: 0,
        command,
        p1: if count == 0 {
            Unset
        } else {
            Milli(count.saturating_mul(1000))
        },
        p2: Unset,
        p3: Unset,
        p4: Unset,
        x,
        y,
        z: 0,
        auto: true,
    }
}

fn plan(
    alloc: Global,
    name: &[u8],
    kind: PlanType,
    items: &[Item],
) -> Result<NamedPlan, AllocError> {
    let mut bytes = Vec::new(alloc);
    bytes.extend_from_slice(name)?;
    let mut list = Vec::new(alloc);
    list.extend_from_slice(items)?;
    Ok(NamedPlan {
        name: Name::from_vec(bytes),
        kind,
        items: Items::from_vec(list),
    })
}

fn notched() -> [Item; 8] {
    let ten = 10 * DEGREE;
    let twenty = 20 * DEGREE;
    let thirty = 30 * DEGREE;
    [
        item(IN, 8, 0, 0),
        item(IN, 8, 0, thirty),
        item(IN, 8, twenty, thirty),
        item(IN, 8, twenty, twenty),
        item(IN, 8, ten, twenty),
        item(IN, 8, ten, ten),
        item(IN, 8, twenty, ten),
        item(IN, 8, twenty, 0),
    ]
}

#[test]
fn surveys_of_small_scripts(rt: HostRuntime) -> Result<(), Fail> {
    let alloc = rt.alloc();
    let square = [
        item(IN, 4, 469_000_000, 79_000_000),
        item(IN, 4, 469_000_000, 81_000_000),
        item(IN, 4, 472_500_000, 81_000_000),
        item(IN, 4, 472_500_000, 79_000_000),
    ];
    let north = [
        item(WAYPOINT, 0, 470_000_000, 80_000_000),
        item(WAYPOINT, 0, 471_000_000, 80_000_000),
        item(WAYPOINT, 0, 472_000_000, 80_000_000),
        item(WAYPOINT, 0, 473_000_000, 80_000_000),
    ];
    let over = [
        item(WAYPOINT, 0, 15 * DEGREE, 5 * DEGREE),
        item(RETURN_TO_LAUNCH, 0, 0, 0),
        item(WAYPOINT, 0, 15 * DEGREE, 25 * DEGREE),
    ];
    let unknown = [item(UNKNOWN, 0, 0, 0)];
    let mut plans = Vec::new(alloc);
    plans.push(plan(alloc, b"m", PlanType::Mission, &north)?)?;
    plans.push(plan(alloc, b"n", PlanType::Mission, &unknown)?)?;
    assert_eq!(rt;
        survey_text(alloc, plans.as_slice())?.as_slice(),
        b"fence none\nsurvey m legs 3 clear 3\nsurvey n refused 0 3\n".as_slice()
    );
    plans.push(plan(alloc, b"f", PlanType::Fence, &square)?)?;
    plans.push(plan(alloc, b"g", PlanType::Fence, &unknown)?)?;
    assert_eq!(rt;
        survey_text(alloc, plans.as_slice())?.as_slice(),
        b"fence f\nleg 2 3 outside 3\nsurvey m legs 3 clear 2\nsurvey n refused 0 3\n".as_slice()
    );
    let mut notch = Vec::new(alloc);
    notch.push(plan(alloc, b"u", PlanType::Fence, &notched())?)?;
    notch.push(plan(alloc, b"m", PlanType::Mission, &over)?)?;
    assert_eq!(rt;
        survey_text(alloc, notch.as_slice())?.as_slice(),
        b"fence u\nleg 0 2 edge 3\nsurvey m legs 1 clear 0\n".as_slice()
    );
    let mut refused = Vec::new(alloc);
    refused.push(plan(alloc, b"m", PlanType::Mission, &north)?)?;
    refused.push(plan(alloc, b"g", PlanType::Fence, &unknown)?)?;
    assert_eq!(rt;
        survey_text(alloc, refused.as_slice())?.as_slice(),
        b"fence g refused 0 3\n".as_slice()
    );
    Ok(())
}
