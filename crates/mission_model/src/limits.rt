//! Every limit of the product that is no limit of a plain text, by name. Nothing else repeats these numbers.

/// Items of a mission.
pub const MAX_MISSION_ITEMS: u16 = 2_000;
/// Vertices of a fence.
pub const MAX_FENCE_VERTICES: u16 = 64;
/// Safe (rally) points.
pub const MAX_SAFE_POINTS: u16 = 32;
/// DO_JUMP items of a mission, and so pairs of a mark.
pub const MAX_JUMPS: usize = 32;
/// Rows of one plan text.
pub const MAX_PLAN_ROWS: u16 = 4096;

/// Links of a script.
pub const MAX_LINKS: u8 = 8;
/// Watchers of a script.
pub const MAX_WATCHERS: u8 = 4;
/// Plans of a script.
pub const MAX_PLANS: usize = 16;
/// Boots of a script.
pub const MAX_BOOTS: usize = 64;
/// Lines `link`, `nav` and `watch` of a script, over all its boots.
pub const MAX_SCHEDULE_LINES: usize = 20_000;
/// Actors named by the lines `turns` of a script, over all its boots.
pub const MAX_TURN_WORDS: usize = 20_000;
/// Lines `upload`, `count` and `clear` of a script, over all its boots.
pub const MAX_UPLOAD_LINES: usize = 256;
/// Meeting places, numbered from 0.
pub const MAX_PLACES: u8 = 16;
/// Characters of a plan's name.
pub const MAX_NAME_BYTES: usize = 16;
/// The greatest parameter TKO_LAND.
pub const MAX_TKO_LAND: u8 = 4;
/// The greatest parameter RTL_TYPE.
pub const MAX_RTL_TYPE: u8 = 2;

/// Requests that the Navigator may have outstanding at the board.
pub const NAV_ROOM: u8 = 8;
/// Requests that a link may have outstanding.
pub const LINK_ROOM: u8 = 1;
/// Requests that a watcher may have outstanding.
pub const WATCH_ROOM: u8 = 4;

/// Bytes of the store.
pub const STORE_BYTES: u64 = 267_264;

/// The last generation of a cell of the store.
pub const LAST_GENERATION: u64 = u64::MAX;
