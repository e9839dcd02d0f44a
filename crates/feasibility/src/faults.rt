//! The first item that breaks each rule on what stands before an item and on the item alone.

ghost use Rattle.std.specs.Prelude.{◌≡◌};
ghost use Rattle.feasibility.specs.SoFar.{or_place};

/// The first item so far that breaks a rule, for each of five rules.
#[derive(Clone, Copy)]
pub struct Faults {
    pub takeoff_first: Option<u16>,
    pub takeoff_height: Option<u16>,
    pub allowed: Option<u16>,
    pub greatest_height: Option<u16>,
    pub home_set: Option<u16>,
}

impl Faults {
    ghost use Rattle.feasibility.specs.SoFar.{no_faults};

    pub fn new() -> Faults
        ensures { result ≡ no_faults }
    {
        Faults {
            takeoff_first: None,
            takeoff_height: None,
            allowed: None,
            greatest_height: None,
            home_set: None,
        }
    }
}

/// Notes an item that breaks a rule, where none before it does.
pub fn note(first: &mut Option<u16>, breaks: bool, place: u16)
    ensures { first.new ≡ or_place first.old breaks place }
{
    if breaks && first.is_none() {
        *first = Some(place);
    }
}
