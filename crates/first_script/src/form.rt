//! The forms of a line, by the words that select them.

use first_model::{PlanType, VehicleLine};

/// A line of the head whose numbers may have a fraction.
#[derive(Clone, Copy)]
pub enum Measure {
    /// The height that a takeoff must reach.
    Takeoff,
    /// The greatest height of an item.
    Ceiling,
    /// A greatest distance, of which only 0 is served.
    Distance,
    /// The home.
    Home,
}

/// A line of whole numbers and names.
#[derive(Clone, Copy)]
pub enum Entry {
    /// Which of takeoff and landing a mission must have.
    Landing,
    /// Where a return goes.
    Return,
    Boot,
    Upload,
    LinkWait,
    LinkMeet,
    NavWait,
    NavMeet,
    Event(VehicleLine),
    Turns,
}

/// The form of a line.
#[derive(Clone, Copy)]
pub enum Form {
    Measure(Measure),
    Entry(Entry),
    /// A plan's first line. With `home_first` the first row of its text is the home.
    Plan { kind: PlanType, home_first: bool },
}
