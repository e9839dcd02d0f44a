//! What goes into a watcher, a client that only reads, and what comes out.

use crate::plan::PlanType;

/// An input of a watcher: what to do, and two numbers.
#[derive(Clone, Copy, Debug, PartialEq, Eq)]
pub struct WatchInput {
    pub code: u16,
    pub a: i32,
    pub b: i32,
}

/// What a watcher tells.
#[derive(Clone, Copy, Debug, PartialEq, Eq)]
pub struct Note {
    pub code: u16,
    pub a: u32,
    pub b: u32,
    pub x: i32,
    pub y: i32,
}

/// What a watcher answers: a read of kind, id and seq to be asked, its note, and whether its input goes on.
#[derive(Clone, Copy, Debug, PartialEq, Eq)]
pub struct WatchOut {
    pub read: Option<(PlanType, u32, u16)>,
    pub note: Note,
    pub more: bool,
}
