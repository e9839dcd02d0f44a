//! The forms of a script's lines in one table, by their first words: a row for each form. A row tells what stands in each
//! place behind the first word.

ghost use Rattle.std.specs.Prelude.{◌≡◌};
ghost use Rattle.run_script.specs.Table.{rows_of, head_rows, flight_rows};

use mission_model::limits::{MAX_LINKS, MAX_PLACES, MAX_RTL_TYPE, MAX_TKO_LAND, MAX_WATCHERS};

/// Heights are millimetres.
pub(crate) const HEIGHT_SCALE: u8 = 3;
/// Latitude and longitude are 1e-7 degree.
pub(crate) const PLACE_SCALE: u8 = 7;

/// What a line is. Lines `turns` have no row.
#[derive(Clone, Copy)]
pub enum Form {
    Set(Setting),
    Home,
    Plan,
    PlanHomeFirst,
    Boot,
    Cut(Tear),
    Link(LinkForm),
    Nav(NavForm),
    Watch,
}

/// A parameter of the vehicle.
#[derive(Clone, Copy)]
pub enum Setting {
    TkoLand,
    TakeoffMin,
    MaxAlt,
    RtlType,
    Distance,
}

/// What a cut leaves.
#[derive(Clone, Copy)]
pub enum Tear {
    Old,
    New,
    Front,
    Fill,
}

/// An input of a link.
#[derive(Clone, Copy)]
pub enum LinkForm {
    Count,
    Item,
    Clear,
    SetCurrent,
    Cancel,
    Timeout,
    Upload,
    Wait,
    Meet,
}

/// An input of the Navigator.
#[derive(Clone, Copy)]
pub enum NavForm {
    Tick,
    Go,
    Reached,
    Mode,
    Position,
    Wait,
    Meet,
}

/// Words that select a form: one, or a few of which each has a number.
#[derive(Clone, Copy)]
pub enum Choice {
    TkoLand,
    TakeoffMin,
    MaxAlt,
    RtlType,
    /// `DIST_1WP` or `DIST_WPS`.
    Distance,
    /// `mission`, `fence` or `safe`.
    Kind,
    /// `mission`, `fence`, `safe` or `all`.
    Types,
    HomeFirst,
    /// `cut` or `cut-read`.
    Cut,
    Old,
    New,
    Front,
    Fill,
    Count,
    Item,
    Clear,
    SetCurrent,
    Cancel,
    Timeout,
    Upload,
    Wait,
    Meet,
    Tick,
    Go,
    Reached,
    Mode,
    /// `hold`, `mission` or `return`.
    Modes,
    Position,
    Do,
}

/// What stands in one place of a line.
#[derive(Clone, Copy)]
pub enum Slot {
    /// The line ends in front of this place: a word that stands here is one too many.
    End,
    /// No word: one that stands here selects no form.
    Nothing,
    /// A word that selects the form, and says no more.
    Word(Choice),
    /// A word that selects the form, and stands for its number.
    OneOf(Choice),
    /// A whole number that selects the form: this one.
    Code(u16),
    /// A whole number from the first to the second, one below 256.
    Byte(u8, u8),
    /// The same, one below 65536.
    Short(u16, u16),
    /// The same, one below 2^32.
    Long(u32, u32),
    /// A whole number from the first to the second, with a minus or without.
    Signed(i32, i32),
    /// A height from the first to the second, in millimetres.
    Height(i32, i32),
    /// A latitude or a longitude from the first to the second, in 1e-7 degree.
    Degrees(i32, i32),
    /// A byte, in two hexadecimal digits.
    Hex,
    /// A plan's name.
    Name,
    /// No number is wanted here.
    Never,
}

/// A form, and what stands in the places behind its first word.
#[derive(Clone, Copy)]
pub struct Row {
    pub form: Form,
    /// How many words a line has.
    pub words: usize,
    pub second: Slot,
    pub third: Slot,
    pub fourth: Slot,
    pub fifth: Slot,
    pub sixth: Slot,
}

const END: Slot = Slot::End;

const NOTHING: Slot = Slot::Nothing;

const NAME: Slot = Slot::Name;

const NEVER: Slot = Slot::Never;

const SHORT: Slot = Slot::Short(0, 65535);

const HEIGHT: Slot = Slot::Height(0, 2_147_483_647);

const ANY_HEIGHT: Slot = Slot::Height(-2_147_483_648, 2_147_483_647);

const LATITUDE: Slot = Slot::Degrees(-900_000_000, 900_000_000);

const LONGITUDE: Slot = Slot::Degrees(-1_800_000_000, 1_800_000_000);

const ALTITUDE: Slot = Slot::Height(-10_000_000, 100_000_000);

const KIND: Slot = Slot::OneOf(Choice::Kind);

const TYPES: Slot = Slot::OneOf(Choice::Types);

const CUT: Slot = Slot::OneOf(Choice::Cut);

const CALL: Slot = Slot::Long(1, 4_294_967_295);

const LINK: Slot = Slot::Byte(0, MAX_LINKS - 1);

const WATCHER: Slot = Slot::Byte(0, MAX_WATCHERS - 1);

const PLACE: Slot = Slot::Byte(0, MAX_PLACES - 1);

const ARRIVALS: Slot = Slot::Byte(1, 255);

/// Lines `param`.
pub(crate) const PARAM_ROWS: [Row; 5] = [
    Row {
        form: Form::Set(Setting::TkoLand),
        words: 3,
        second: Slot::Word(Choice::TkoLand),
        third: Slot::Byte(0, MAX_TKO_LAND),
        fourth: END,
        fifth: END,
        sixth: END,
    },
    Row {
        form: Form::Set(Setting::TakeoffMin),
        words: 3,
        second: Slot::Word(Choice::TakeoffMin),
        third: HEIGHT,
        fourth: END,
        fifth: END,
        sixth: END,
    },
    Row {
        form: Form::Set(Setting::MaxAlt),
        words: 3,
        second: Slot::Word(Choice::MaxAlt),
        third: HEIGHT,
        fourth: END,
        fifth: END,
        sixth: END,
    },
    Row {
        form: Form::Set(Setting::RtlType),
        words: 3,
        second: Slot::Word(Choice::RtlType),
        third: Slot::Byte(0, MAX_RTL_TYPE),
        fourth: END,
        fifth: END,
        sixth: END,
    },
    Row {
        form: Form::Set(Setting::Distance),
        words: 3,
        second: Slot::Word(Choice::Distance),
        third: ANY_HEIGHT,
        fourth: END,
        fifth: END,
        sixth: END,
    },
];

/// Lines `home`.
pub(crate) const HOME_ROWS: [Row; 1] = [Row {
    form: Form::Home,
    words: 4,
    second: LATITUDE,
    third: LONGITUDE,
    fourth: ALTITUDE,
    fifth: END,
    sixth: END,
}];

/// Lines `plan`.
pub(crate) const PLAN_ROWS: [Row; 2] = [
    Row {
        form: Form::Plan,
        words: 3,
        second: NAME,
        third: KIND,
        fourth: NOTHING,
        fifth: END,
        sixth: END,
    },
    Row {
        form: Form::PlanHomeFirst,
        words: 4,
        second: NAME,
        third: KIND,
        fourth: Slot::Word(Choice::HomeFirst),
        fifth: END,
        sixth: END,
    },
];

/// Lines `boot`.
pub(crate) const BOOT_ROWS: [Row; 5] = [
    Row {
        form: Form::Boot,
        words: 1,
        second: NOTHING,
        third: END,
        fourth: END,
        fifth: END,
        sixth: END,
    },
    Row {
        form: Form::Cut(Tear::Old),
        words: 4,
        second: CUT,
        third: CALL,
        fourth: Slot::Word(Choice::Old),
        fifth: END,
        sixth: END,
    },
    Row {
        form: Form::Cut(Tear::New),
        words: 4,
        second: CUT,
        third: CALL,
        fourth: Slot::Word(Choice::New),
        fifth: END,
        sixth: END,
    },
    Row {
        form: Form::Cut(Tear::Front),
        words: 5,
        second: CUT,
        third: CALL,
        fourth: Slot::Word(Choice::Front),
        fifth: SHORT,
        sixth: END,
    },
    Row {
        form: Form::Cut(Tear::Fill),
        words: 5,
        second: CUT,
        third: CALL,
        fourth: Slot::Word(Choice::Fill),
        fifth: Slot::Hex,
        sixth: END,
    },
];

/// Lines `link`.
pub(crate) const LINK_ROWS: [Row; 9] = [
    Row {
        form: Form::Link(LinkForm::Count),
        words: 5,
        second: LINK,
        third: Slot::Word(Choice::Count),
        fourth: TYPES,
        fifth: SHORT,
        sixth: END,
    },
    Row {
        form: Form::Link(LinkForm::Item),
        words: 6,
        second: LINK,
        third: Slot::Word(Choice::Item),
        fourth: SHORT,
        fifth: NAME,
        sixth: SHORT,
    },
    Row {
        form: Form::Link(LinkForm::Clear),
        words: 4,
        second: LINK,
        third: Slot::Word(Choice::Clear),
        fourth: TYPES,
        fifth: END,
        sixth: END,
    },
    Row {
        form: Form::Link(LinkForm::SetCurrent),
        words: 4,
        second: LINK,
        third: Slot::Word(Choice::SetCurrent),
        fourth: SHORT,
        fifth: END,
        sixth: END,
    },
    Row {
        form: Form::Link(LinkForm::Cancel),
        words: 3,
        second: LINK,
        third: Slot::Word(Choice::Cancel),
        fourth: END,
        fifth: END,
        sixth: END,
    },
    Row {
        form: Form::Link(LinkForm::Timeout),
        words: 3,
        second: LINK,
        third: Slot::Word(Choice::Timeout),
        fourth: END,
        fifth: END,
        sixth: END,
    },
    Row {
        form: Form::Link(LinkForm::Upload),
        words: 4,
        second: LINK,
        third: Slot::Word(Choice::Upload),
        fourth: NAME,
        fifth: END,
        sixth: END,
    },
    Row {
        form: Form::Link(LinkForm::Wait),
        words: 3,
        second: LINK,
        third: Slot::Word(Choice::Wait),
        fourth: END,
        fifth: END,
        sixth: END,
    },
    Row {
        form: Form::Link(LinkForm::Meet),
        words: 5,
        second: LINK,
        third: Slot::Word(Choice::Meet),
        fourth: PLACE,
        fifth: ARRIVALS,
        sixth: END,
    },
];

/// Lines `nav`.
pub(crate) const NAV_ROWS: [Row; 7] = [
    Row {
        form: Form::Nav(NavForm::Tick),
        words: 2,
        second: Slot::Word(Choice::Tick),
        third: END,
        fourth: END,
        fifth: END,
        sixth: END,
    },
    Row {
        form: Form::Nav(NavForm::Go),
        words: 2,
        second: Slot::Word(Choice::Go),
        third: END,
        fourth: END,
        fifth: END,
        sixth: END,
    },
    Row {
        form: Form::Nav(NavForm::Reached),
        words: 2,
        second: Slot::Word(Choice::Reached),
        third: END,
        fourth: END,
        fifth: END,
        sixth: END,
    },
    Row {
        form: Form::Nav(NavForm::Mode),
        words: 3,
        second: Slot::Word(Choice::Mode),
        third: Slot::OneOf(Choice::Modes),
        fourth: END,
        fifth: END,
        sixth: END,
    },
    Row {
        form: Form::Nav(NavForm::Position),
        words: 4,
        second: Slot::Word(Choice::Position),
        third: LATITUDE,
        fourth: LONGITUDE,
        fifth: END,
        sixth: END,
    },
    Row {
        form: Form::Nav(NavForm::Wait),
        words: 2,
        second: Slot::Word(Choice::Wait),
        third: END,
        fourth: END,
        fifth: END,
        sixth: END,
    },
    Row {
        form: Form::Nav(NavForm::Meet),
        words: 4,
        second: Slot::Word(Choice::Meet),
        third: PLACE,
        fourth: ARRIVALS,
        fifth: END,
        sixth: END,
    },
];

/// Lines `watch`: a download of a plan, a look at a place, and what is neither.
pub(crate) const WATCH_ROWS: [Row; 3] = [
    Row {
        form: Form::Watch,
        words: 6,
        second: WATCHER,
        third: Slot::Word(Choice::Do),
        fourth: Slot::Code(1),
        fifth: Slot::Signed(0, 2),
        sixth: Slot::Signed(0, 0),
    },
    Row {
        form: Form::Watch,
        words: 6,
        second: WATCHER,
        third: Slot::Word(Choice::Do),
        fourth: Slot::Code(2),
        fifth: Slot::Signed(-900_000_000, 900_000_000),
        sixth: Slot::Signed(-1_800_000_000, 1_800_000_000),
    },
    Row {
        form: Form::Watch,
        words: 6,
        second: WATCHER,
        third: Slot::Word(Choice::Do),
        fourth: NEVER,
        fifth: NEVER,
        sixth: NEVER,
    },
];

/// The rows of the lines that begin with a word, in front of the first boot or behind it.
#[tactic(auto, unfolding(crate::specs::Table::rows_of))]
pub(crate) fn rows_of(booted: bool, word: &[u8]) -> &'static [Row]
    ensures { result.now ≡ rows_of booted word.now }
{
    if word == b"boot".as_slice() {
        &BOOT_ROWS
    } else if booted {
        flight_rows(word)
    } else {
        head_rows(word)
    }
}

fn head_rows(word: &[u8]) -> &'static [Row]
    ensures { result.now ≡ head_rows word.now }
{
    if word == b"param".as_slice() {
        &PARAM_ROWS
    } else if word == b"home".as_slice() {
        &HOME_ROWS
    } else if word == b"plan".as_slice() {
        &PLAN_ROWS
    } else {
        &[]
    }
}

fn flight_rows(word: &[u8]) -> &'static [Row]
    ensures { result.now ≡ flight_rows word.now }
{
    if word == b"link".as_slice() {
        &LINK_ROWS
    } else if word == b"nav".as_slice() {
        &NAV_ROWS
    } else if word == b"watch".as_slice() {
        &WATCH_ROWS
    } else {
        &[]
    }
}
