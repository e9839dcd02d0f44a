//! The commands of plan items in one table, after MAV_CMD and MAV_FRAME of the MAVLink common messages: which plan a
//! command belongs to, whether it has a position, and what its first two parameters may be. Which commands are legs stands
//! beside it. What a jump and a polygon vertex say in their parameters is read here, too.

ghost use Rattle.std.specs.Prelude.{◌≡◌};
ghost use Rattle.mission_model.specs.Command.{rule_of, rule_among, is_positioned, is_positioned_by, has_position, means_present_place, whole_number, jump_of, vertex_count, is_not_negative};
ghost use Rattle.mission_model.specs.Legs.{is_leg};

use crate::plan::{Item, Param, PlanType};

/// MAV_CMD_NAV_WAYPOINT: flies to a place.
pub const NAV_WAYPOINT: u16 = 16;
/// MAV_CMD_NAV_LOITER_UNLIM: loiters at a place without an end.
pub const NAV_LOITER_UNLIM: u16 = 17;
/// MAV_CMD_NAV_LOITER_TURNS: loiters at a place for so many turns.
pub const NAV_LOITER_TURNS: u16 = 18;
/// MAV_CMD_NAV_LOITER_TIME: loiters at a place for so long.
pub const NAV_LOITER_TIME: u16 = 19;
/// MAV_CMD_NAV_RETURN_TO_LAUNCH: begins the return.
pub const NAV_RETURN_TO_LAUNCH: u16 = 20;
/// MAV_CMD_NAV_LAND: lands at a place.
pub const NAV_LAND: u16 = 21;
/// MAV_CMD_NAV_TAKEOFF: takes off and flies to a place.
pub const NAV_TAKEOFF: u16 = 22;
/// MAV_CMD_NAV_DELAY: waits.
pub const NAV_DELAY: u16 = 93;
/// MAV_CMD_DO_JUMP: goes on at another item, so many times.
pub const DO_JUMP: u16 = 177;
/// MAV_CMD_DO_CHANGE_SPEED: changes the speed.
pub const DO_CHANGE_SPEED: u16 = 178;
/// MAV_CMD_DO_LAND_START: marks where the way to a landing begins.
pub const DO_LAND_START: u16 = 189;
/// MAV_CMD_NAV_FENCE_POLYGON_VERTEX_INCLUSION: a corner of a polygon to stay within.
pub const NAV_FENCE_POLYGON_VERTEX_INCLUSION: u16 = 5001;
/// MAV_CMD_NAV_FENCE_POLYGON_VERTEX_EXCLUSION: a corner of a polygon to stay out of.
pub const NAV_FENCE_POLYGON_VERTEX_EXCLUSION: u16 = 5002;
/// MAV_CMD_NAV_RALLY_POINT: a safe point.
pub const NAV_RALLY_POINT: u16 = 5100;
/// MAV_FRAME_GLOBAL: heights over the sea.
pub const FRAME_GLOBAL: u16 = 0;
/// MAV_FRAME_MISSION: no place at all.
pub const FRAME_MISSION: u16 = 2;
/// MAV_FRAME_GLOBAL_RELATIVE_ALT: heights over the home.
pub const FRAME_GLOBAL_RELATIVE_ALT: u16 = 3;
/// MAV_FRAME_GLOBAL_INT: as MAV_FRAME_GLOBAL.
pub const FRAME_GLOBAL_INT: u16 = 5;
/// MAV_FRAME_GLOBAL_RELATIVE_ALT_INT: as MAV_FRAME_GLOBAL_RELATIVE_ALT.
pub const FRAME_GLOBAL_RELATIVE_ALT_INT: u16 = 6;

/// The frames of a command with a position. The others take `FRAME_MISSION` as well.
pub const POSITION_FRAMES: [u16; 4] = [
    FRAME_GLOBAL,
    FRAME_GLOBAL_RELATIVE_ALT,
    FRAME_GLOBAL_INT,
    FRAME_GLOBAL_RELATIVE_ALT_INT,
];

/// Thousandths of one: parameters are kept in thousandths.
pub const MILLI: u32 = 1000;

/// What a parameter may be.
#[derive(Clone, Copy)]
pub enum ParamRule {
    Any,
    /// Not given, or a number of at least 0.
    UnsetOrNotNegative,
    /// A number of at least 0.
    NotNegative,
    /// A whole number from the first to the second.
    Whole(u16, u16),
}

/// One row of the table.
#[derive(Clone, Copy)]
pub struct CommandRule {
    pub command: u16,
    pub kind: PlanType,
    pub positioned: bool,
    pub param1: ParamRule,
    pub param2: ParamRule,
}

/// The table of commands, in the order of their numbers.
pub const COMMANDS: [CommandRule; 14] = [
    CommandRule {
        command: NAV_WAYPOINT,
        kind: PlanType::Mission,
        positioned: true,
        param1: ParamRule::UnsetOrNotNegative,
        param2: ParamRule::UnsetOrNotNegative,
    },
    CommandRule {
        command: NAV_LOITER_UNLIM,
        kind: PlanType::Mission,
        positioned: true,
        param1: ParamRule::Any,
        param2: ParamRule::Any,
    },
    CommandRule {
        command: NAV_LOITER_TURNS,
        kind: PlanType::Mission,
        positioned: true,
        param1: ParamRule::UnsetOrNotNegative,
        param2: ParamRule::Any,
    },
    CommandRule {
        command: NAV_LOITER_TIME,
        kind: PlanType::Mission,
        positioned: true,
        param1: ParamRule::UnsetOrNotNegative,
        param2: ParamRule::Any,
    },
    CommandRule {
        command: NAV_RETURN_TO_LAUNCH,
        kind: PlanType::Mission,
        positioned: false,
        param1: ParamRule::Any,
        param2: ParamRule::Any,
    },
    CommandRule {
        command: NAV_LAND,
        kind: PlanType::Mission,
        positioned: true,
        param1: ParamRule::Any,
        param2: ParamRule::Any,
    },
    CommandRule {
        command: NAV_TAKEOFF,
        kind: PlanType::Mission,
        positioned: true,
        param1: ParamRule::Any,
        param2: ParamRule::Any,
    },
    CommandRule {
        command: NAV_DELAY,
        kind: PlanType::Mission,
        positioned: false,
        param1: ParamRule::NotNegative,
        param2: ParamRule::Any,
    },
    CommandRule {
        command: DO_JUMP,
        kind: PlanType::Mission,
        positioned: false,
        param1: ParamRule::Whole(0, u16::MAX),
        param2: ParamRule::Whole(0, u16::MAX),
    },
    CommandRule {
        command: DO_CHANGE_SPEED,
        kind: PlanType::Mission,
        positioned: false,
        param1: ParamRule::Whole(0, 3),
        param2: ParamRule::Any,
    },
    CommandRule {
        command: DO_LAND_START,
        kind: PlanType::Mission,
        positioned: false,
        param1: ParamRule::Any,
        param2: ParamRule::Any,
    },
    CommandRule {
        command: NAV_FENCE_POLYGON_VERTEX_INCLUSION,
        kind: PlanType::Fence,
        positioned: true,
        param1: ParamRule::Whole(3, u16::MAX),
        param2: ParamRule::Any,
    },
    CommandRule {
        command: NAV_FENCE_POLYGON_VERTEX_EXCLUSION,
        kind: PlanType::Fence,
        positioned: true,
        param1: ParamRule::Whole(3, u16::MAX),
        param2: ParamRule::Any,
    },
    CommandRule {
        command: NAV_RALLY_POINT,
        kind: PlanType::Safe,
        positioned: true,
        param1: ParamRule::Any,
        param2: ParamRule::Any,
    },
];

/// The commands of legs.
const LEG_COMMANDS: [u16; 7] = [
    NAV_WAYPOINT,
    NAV_LOITER_UNLIM,
    NAV_LOITER_TURNS,
    NAV_LOITER_TIME,
    NAV_LAND,
    NAV_TAKEOFF,
    NAV_DELAY,
];

/// A DO_JUMP's target, the seq that it leads to, and how often it is taken.
#[derive(Clone, Copy)]
pub struct Jump {
    pub target: u16,
    pub repeats: u16,
}

/// The row of a command in plans of this type.
#[tactic(auto, unfolding(crate::specs::Command::rule_of))]
pub fn rule(kind: PlanType, command: u16) -> Option<CommandRule>
    ensures { result ≡ rule_of kind command }
{
    first_rule(&COMMANDS, kind, command)
}

fn first_rule(rules: &[CommandRule], kind: PlanType, command: u16) -> Option<CommandRule>
    ensures { result ≡ rule_among rules.now kind command }
{
    rules
        .iter()
        .copied()
        .find(|rule| rule.kind == kind && rule.command == command)
}

/// Whether an item's command has a position in some plan.
#[tactic(auto, unfolding(crate::specs::Command::is_positioned))]
pub fn is_positioned(command: u16) -> bool
    ensures { result ≡ is_positioned command }
{
    is_positioned_by(&COMMANDS, command)
}

fn is_positioned_by(rules: &[CommandRule], command: u16) -> bool
    ensures { result ≡ is_positioned_by rules.now command }
{
    rules
        .iter()
        .any(|rule| rule.command == command && rule.positioned)
}

/// Whether an item has a position of its own. A takeoff or a landing at latitude and longitude 0 means the present
/// place, and has none.
pub fn has_position(item: &Item) -> bool
    ensures { result ≡ has_position item.now }
{
    is_positioned(item.command) && !means_present_place(item)
}

fn means_present_place(item: &Item) -> bool
    ensures { result ≡ means_present_place item.now }
{
    (item.command == NAV_TAKEOFF || item.command == NAV_LAND) && item.x == 0 && item.y == 0
}

/// Whether a command is a leg, which is flown or waited at until it is reached.
pub fn is_leg(command: u16) -> bool
    ensures { result ≡ is_leg command }
{
    LEG_COMMANDS.contains(&command)
}

/// The whole number that a parameter is, in ones: none for one that is not given, negative or broken.
pub fn whole_number(param: Param) -> Option<u32>
    ensures { result ≡ whole_number param }
{
    match param {
        Param::Milli(milli) if milli >= 0 && milli.unsigned_abs() % MILLI == 0 => {
            Some(milli.unsigned_abs() / MILLI)
        }
        _ => None,
    }
}

/// The target and repeats of a DO_JUMP whose parameters are whole numbers to 65535: none for another item.
pub fn jump_of(item: &Item) -> Option<Jump>
    ensures { result ≡ jump_of item.now }
{
    if item.command != DO_JUMP {
        return None;
    }
    let target = u16::try_from(whole_number(item.p1)?).ok()?;
    let repeats = u16::try_from(whole_number(item.p2)?).ok()?;
    Some(Jump { target, repeats })
}

/// The number of vertices that a vertex says its polygon has: 0 where that is no whole number.
pub fn vertex_count(item: &Item) -> u32
    ensures { result ≡ vertex_count item.now }
{
    whole_number(item.p1).unwrap_or(0)
}

impl CommandRule {
    ghost use Rattle.mission_model.specs.ItemCode.{is_frame_of};

    /// Whether an item of this command may have this frame.
    pub fn allows_frame(&self, frame: u16) -> bool
        ensures { result ≡ is_frame_of self.now.positioned frame }
    {
        POSITION_FRAMES.contains(&frame) || !self.positioned && frame == FRAME_MISSION
    }
}

impl ParamRule {
    ghost use Rattle.mission_model.specs.ItemCode.{meets};

    /// Whether a parameter may be this one.
    pub fn allows(self, param: Param) -> bool
        ensures { result ≡ meets self param }
    {
        match self {
            ParamRule::Any => true,
            ParamRule::UnsetOrNotNegative => param == Param::Unset || is_not_negative(param),
            ParamRule::NotNegative => is_not_negative(param),
            ParamRule::Whole(least, greatest) => match whole_number(param) {
                Some(number) => u32::from(least) <= number && number <= u32::from(greatest),
                None => false,
            },
        }
    }
}

fn is_not_negative(param: Param) -> bool
    ensures { result ≡ is_not_negative param }
{
    match param {
        Param::Unset => false,
        Param::Milli(milli) => milli >= 0,
    }
}
