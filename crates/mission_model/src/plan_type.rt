//! The three plan types in one table: the number of each in a message, the most items of a plan of it, and its place in a
//! list of heads. Nothing else repeats these numbers.

ghost use Rattle.std.specs.Prelude.{◌≡◌, ◌<◌, length};
ghost use Rattle.mission_model.specs.PlanTypes.{number_of, limit_of, place_of, type_of, type_after, head_of};

use crate::limits::{MAX_FENCE_VERTICES, MAX_MISSION_ITEMS, MAX_SAFE_POINTS};
use crate::plan::{PlanHead, PlanType};

/// The number that names all types in a message: MAV_MISSION_TYPE_ALL.
pub const ALL_TYPES: u8 = 255;

/// What is fixed for a plan type.
#[derive(Clone, Copy, Debug, PartialEq, Eq)]
pub struct PlanTypeRow {
    /// In a message, as in MAV_MISSION_TYPE.
    pub number: u8,
    /// The most items of a plan.
    pub limit: u16,
    /// Where the type stands in a list with one entry for each type.
    pub place: usize,
}

impl PlanType {
    /// The row of this type.
    pub fn row(self) -> PlanTypeRow
        ensures { result ≡ record { number = number_of self; limit = limit_of self; place = place_of self } }
    {
        match self {
            PlanType::Mission => PlanTypeRow {
                number: 0,
                limit: MAX_MISSION_ITEMS,
                place: 0,
            },
            PlanType::Fence => PlanTypeRow {
                number: 1,
                limit: MAX_FENCE_VERTICES,
                place: 1,
            },
            PlanType::Safe => PlanTypeRow {
                number: 2,
                limit: MAX_SAFE_POINTS,
                place: 2,
            },
        }
    }

    /// The number of this type in a message.
    pub fn number(self) -> u8
        ensures { result ≡ number_of self }
    {
        self.row().number
    }

    /// The place of this type in a list with one entry for each type.
    pub fn place(self) -> usize
        ensures place { result ≡ place_of self }
        ensures among { result < 3 }
    {
        self.row().place
    }

    /// The type with this number in a message, if any has it.
    pub fn of_number(number: u8) -> Option<PlanType>
        ensures { result ≡ type_of number }
    {
        match number {
            0 => Some(PlanType::Mission),
            1 => Some(PlanType::Fence),
            2 => Some(PlanType::Safe),
            _ => None,
        }
    }

    /// The type behind this one in the table.
    pub fn after(self) -> Option<PlanType>
        ensures { result ≡ type_after self }
    {
        match self {
            PlanType::Mission => Some(PlanType::Fence),
            PlanType::Fence => Some(PlanType::Safe),
            PlanType::Safe => None,
        }
    }
}

/// The most items of a plan of this type.
pub fn limit_of(kind: PlanType) -> u16
    ensures { result ≡ limit_of kind }
{
    kind.row().limit
}

/// The head of a type among the heads of the three types.
pub fn head_of(heads: &[PlanHead; 3], kind: PlanType) -> PlanHead
    ensures { result ≡ head_of heads.now kind }
{
    heads[kind.place()]
}
