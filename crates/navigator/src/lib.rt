//! The Navigator: one event of the vehicle, answered from the board and from three windows, one on each plan. It takes each plan
//! item by item from its beginning, so what it acts on is always a beginning of the plan in force.
#![tactic(auto)]

mod flight;
mod item_list;
mod laws;
mod marks;
mod navigator;
mod taken_list;
mod taken_mission;
mod taking;
mod uses;
mod verdict;
mod windows;

pub use laws::{an_event_leaves_the_next, looks_in_turn_ask_once, taken_of_one_plan};
pub use mission_model::BootMark;
pub use navigator::Navigator;
pub use taking::taken_is_a_beginning;
pub use windows::{MISSION_PLACES, OTHER_PLACES};
