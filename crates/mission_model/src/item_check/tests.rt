//! Items at the edges of the table of the MAVLink mission protocol's commands. Commands, frames and codes are written
//! here as that protocol's numbers.

use super::*;
use crate::command::{has_position, is_leg};
use crate::plan::Param::{self, Milli, Unset};
use crate::plan::PlanType::{Fence, Mission, Safe};

const ACCEPTED: u8 = 0;

/// The number of an answer's code.
fn code(answer: Result<(), AckCode>) -> u8 {
    match answer {
        Ok(()) => ACCEPTED,
        Err(code) => code as u8,
    }
}

fn item(frame: u16, command: u16, p1: Param, p2: Param) -> Item {
    Item {
        frame,
        command,
        p1,
        p2,
        p3: Unset,
        p4: Milli(-1),
        x: 473_977_420,
        y: 85_455_940,
        z: 10_000,
        auto: true,
    }
}

const NIL: Param = Milli(0);

const BELOW: Param = Milli(-1);

const BROKEN: Param = Milli(3001);

const TOP: Param = Milli(65_535_000);

const PAST: Param = Milli(65_536_000);

/// Plan type, command, param1, param2 and the code.
static PARAMETERS: [(PlanType, u16, Param, Param, u8); 66] = [
    // waypoint
    (Mission, 16, NIL, NIL, ACCEPTED),
    (Mission, 16, Unset, Unset, ACCEPTED),
    (Mission, 16, Milli(i32::MAX), Milli(i32::MAX), ACCEPTED),
    (Mission, 16, BELOW, NIL, 6),
    (Mission, 16, NIL, BELOW, 7),
    (Mission, 16, BELOW, BELOW, 6),
    (Fence, 16, NIL, NIL, 3),
    (Safe, 16, NIL, NIL, 3),
    // loiter: unlimited, turns, time
    (Mission, 17, BELOW, BELOW, ACCEPTED),
    (Mission, 17, Unset, Unset, ACCEPTED),
    (Fence, 17, NIL, NIL, 3),
    (Mission, 18, NIL, BELOW, ACCEPTED),
    (Mission, 18, Unset, Unset, ACCEPTED),
    (Mission, 18, BELOW, NIL, 6),
    (Mission, 19, NIL, BELOW, ACCEPTED),
    (Mission, 19, Unset, Unset, ACCEPTED),
    (Mission, 19, BELOW, NIL, 6),
    // return, land, takeoff
    (Mission, 20, BELOW, BELOW, ACCEPTED),
    (Mission, 20, Unset, Unset, ACCEPTED),
    (Mission, 21, BELOW, BELOW, ACCEPTED),
    (Mission, 21, Unset, Unset, ACCEPTED),
    (Mission, 22, BELOW, BELOW, ACCEPTED),
    (Mission, 22, Unset, Unset, ACCEPTED),
    (Safe, 22, NIL, NIL, 3),
    // delay
    (Mission, 93, NIL, BELOW, ACCEPTED),
    (Mission, 93, Milli(1), Unset, ACCEPTED),
    (Mission, 93, Unset, NIL, 6),
    (Mission, 93, BELOW, NIL, 6),
    // jump
    (Mission, 177, NIL, NIL, ACCEPTED),
    (Mission, 177, TOP, TOP, ACCEPTED),
    (Mission, 177, PAST, NIL, 6),
    (Mission, 177, Milli(-1000), NIL, 6),
    (Mission, 177, BROKEN, NIL, 6),
    (Mission, 177, Unset, NIL, 6),
    (Mission, 177, NIL, PAST, 7),
    (Mission, 177, NIL, Milli(-1000), 7),
    (Mission, 177, NIL, BROKEN, 7),
    (Mission, 177, NIL, Unset, 7),
    (Fence, 177, NIL, NIL, 3),
    // speed, land start
    (Mission, 178, NIL, BELOW, ACCEPTED),
    (Mission, 178, Milli(3000), Unset, ACCEPTED),
    (Mission, 178, Milli(4000), NIL, 6),
    (Mission, 178, Milli(-1000), NIL, 6),
    (Mission, 178, Milli(1500), NIL, 6),
    (Mission, 178, Unset, NIL, 6),
    (Mission, 189, BELOW, BELOW, ACCEPTED),
    (Mission, 189, Unset, Unset, ACCEPTED),
    // vertices
    (Fence, 5001, Milli(3000), BELOW, ACCEPTED),
    (Fence, 5001, TOP, Unset, ACCEPTED),
    (Fence, 5001, Milli(2000), NIL, 6),
    (Fence, 5001, PAST, NIL, 6),
    (Fence, 5001, BROKEN, NIL, 6),
    (Fence, 5001, Unset, NIL, 6),
    (Mission, 5001, Milli(3000), NIL, 3),
    (Fence, 5002, Milli(3000), Unset, ACCEPTED),
    (Fence, 5002, TOP, BELOW, ACCEPTED),
    (Fence, 5002, Milli(2000), NIL, 6),
    (Fence, 5002, PAST, NIL, 6),
    (Safe, 5002, Milli(3000), NIL, 3),
    (Fence, 5003, Milli(3000), NIL, 3),
    // safe point
    (Safe, 5100, BELOW, BELOW, ACCEPTED),
    (Safe, 5100, Unset, Unset, ACCEPTED),
    (Fence, 5100, NIL, NIL, 3),
    (Mission, 5100, NIL, NIL, 3),
    // no command of the table
    (Mission, 0, NIL, NIL, 3),
    (Mission, 65_535, NIL, NIL, 3),
];

/// The commands that are legs.
static LEGS: [u16; 7] = [16, 17, 18, 19, 21, 22, 93];

#[test]
fn each_command_in_its_plan_with_its_parameters(rt: HostRuntime) {
    for &(kind, command, p1, p2, want) in &PARAMETERS {
        let item = item(3, command, p1, p2);
        assert_eq!(rt; code(check_item(kind, &item)), want, "command {command}");
        assert_eq!(rt;
            is_leg(command),
            LEGS.contains(&command),
            "command {command}"
        );
    }
}

#[test]
fn frames_come_after_the_command(rt: HostRuntime) {
    let cases = [
        (16, 0, ACCEPTED),
        (16, 1, 2),
        (16, 2, 2),
        (16, 3, ACCEPTED),
        (16, 4, 2),
        (16, 5, ACCEPTED),
        (16, 6, ACCEPTED),
        (16, 7, 2),
        (20, 0, ACCEPTED),
        (20, 1, 2),
        (20, 2, ACCEPTED),
        (20, 3, ACCEPTED),
        (20, 4, 2),
        (20, 5, ACCEPTED),
        (20, 6, ACCEPTED),
        (20, 65_535, 2),
        (15, 7, 3),
    ];
    for (command, frame, want) in cases {
        let item = item(frame, command, Unset, Unset);
        assert_eq!(rt;
            code(check_item(Mission, &item)),
            want,
            "command {command} frame {frame}"
        );
    }
}

#[test]
fn positions_at_the_edges(rt: HostRuntime) {
    let cases = [
        (900_000_000, 1_800_000_000, 100_000_000, ACCEPTED, true),
        (-900_000_000, -1_800_000_000, -10_000_000, ACCEPTED, true),
        (900_000_001, 1_800_000_001, 100_000_001, 10, true),
        (-900_000_001, 0, 0, 10, true),
        (0, 1_800_000_001, 100_000_001, 11, true),
        (0, -1_800_000_001, 0, 11, true),
        (0, 0, 100_000_001, 12, false),
        (0, 0, -10_000_001, 12, false),
        (0, 1, 0, ACCEPTED, true),
        (0, 0, 0, ACCEPTED, false),
    ];
    for (x, y, z, want, own) in cases {
        let landing = Item {
            x,
            y,
            z,
            ..item(3, 21, Unset, Unset)
        };
        assert_eq!(rt; code(check_item(Mission, &landing)), want, "{x} {y} {z}");
        assert_eq!(rt; has_position(&landing), own, "{x} {y} {z}");
        let waypoint = Item {
            command: 16,
            ..landing
        };
        assert_eq!(rt; code(check_item(Mission, &waypoint)), want, "{x} {y} {z}");
        assert!(rt; has_position(&waypoint));
        let land_start = Item {
            command: 189,
            ..landing
        };
        assert_eq!(rt;
            code(check_item(Mission, &land_start)),
            ACCEPTED,
            "{x} {y} {z}"
        );
        assert!(rt; !has_position(&land_start));
    }
}
