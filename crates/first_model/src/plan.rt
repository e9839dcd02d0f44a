//! Plans: their types, items and heads, the home and the parameters, after the MAVLink mission protocol.

/// What a plan is for. The numbers are those of MAV_MISSION_TYPE.
#[derive(Clone, Copy, Debug, PartialEq, Eq)]
pub enum PlanType {
    Mission = 0,
    Fence = 1,
    Safe = 2,
}

/// A parameter of an item: not given (`nan` in a plan text), or a number in thousandths.
#[derive(Clone, Copy, Debug, PartialEq, Eq)]
pub enum Param {
    Unset,
    Milli(i32),
}

/// A mission item, a fence vertex or a safe point.
/// `x` is latitude and `y` longitude in 1e-7 degree, `z` is in millimetres, `frame` is a MAV_FRAME and
/// `command` a MAV_CMD. `auto` (autocontinue) is kept and has no effect.
#[derive(Clone, Copy, Debug, PartialEq, Eq)]
pub struct Item {
    pub frame: u16,
    pub command: u16,
    pub p1: Param,
    pub p2: Param,
    pub p3: Param,
    pub p4: Param,
    pub x: i32,
    pub y: i32,
    pub z: i32,
    pub auto: bool,
}

/// A plan's name: its id and its number of items. Id 0 is the empty plan of a new store.
#[derive(Clone, Copy, Debug, PartialEq, Eq)]
pub struct PlanHead {
    pub id: u32,
    pub count: u16,
}

/// The home: latitude and longitude in 1e-7 degree, height in millimetres.
#[derive(Clone, Copy, Debug, PartialEq, Eq)]
pub struct Home {
    pub x: i32,
    pub y: i32,
    pub z: i32,
}

/// The vehicle's parameters. `takeoff_min` and `max_alt` are in millimetres, and 0 asks nothing.
/// `tko_land` is 0 to 4 and `rtl_type` 0 to 2.
#[derive(Clone, Copy, Debug, PartialEq, Eq)]
pub struct Params {
    pub tko_land: u8,
    pub takeoff_min: i32,
    pub max_alt: i32,
    pub rtl_type: u8,
}
