//! The words that all crates share: plans and items, requests and replies, messages and answers, the lines of
//! a record and the parts of a script, all plain data; the limits of the product; and the checks of an item and of a
//! plan, item by item or whole. Its definitions say what a fence allows, what makes a mission feasible, what a step of a
//! mission does and where a return leads.
#![tactic(auto)]

pub mod command;
mod counts;
mod flight_line;
mod item_check;
pub mod limits;
mod message;
mod plan;
mod plan_check;
mod plan_type;
mod request;
mod same;
mod same_line;
mod schedule;
mod vehicle;
mod watch;

pub use counts::{Counts, Mark};
pub use flight_line::{Actor, Line};
pub use item_check::check_item;
pub use message::{AckCode, Answer, Message, Said, said_of};
pub use plan::{Home, Item, Param, Params, PlanHead, PlanType};
pub use plan_check::{PlanCheck, check_plan};
pub use plan_type::{ALL_TYPES, PlanTypeRow, head_of, limit_of};
pub use request::{Asked, Client, Reply, Request, asked_of};
pub use same::{
    is_same_asked, is_same_head, is_same_item, is_same_mark, is_same_param, is_same_reply,
};
pub use same_line::{
    is_same_answer, is_same_client, is_same_event, is_same_heads, is_same_home, is_same_note,
    is_same_said, is_same_watch_input,
};
pub use schedule::{
    BootScript, Boots, CutSpec, InputLine, Inputs, Items, Name, NamedPlan, Plans, Script, TearKind,
    Turns,
};
pub use vehicle::{BootMark, BootState, Look, Mode, NavEntry, NavWhat, VehicleLine};
pub use watch::{Note, WatchInput, WatchOut};
