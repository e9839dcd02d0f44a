//! What lines of each form state.

ghost use Rattle.std.specs.Prelude.{◌≡◌, ◌≤◌, MatchOption, None, Some, Ok, slice_get};
ghost use Rattle.mission_model.specs.declared.schedule.InputLine.TheVariants as input;
ghost use Rattle.run_script.specs.Lines.{word};
ghost use Rattle.run_script.specs.Plans.{kind_of};
ghost use Rattle.run_script.specs.Forms.{byte_of, short_of, long_of, signed_of, cut_of, plan_named, link_input, mode_of, nav_input, watch_input, item_stated, item_named, upload_named};
ghost use Rattle.run_script.specs.Statements.{is_upload};
ghost use Rattle.run_script.specs.Gathered.{Gives};

use crate::fault::{ScriptFault, Stop};
use crate::table::{LinkForm, NavForm, Tear};
use crate::value::{Value, Values};
use crate::words::Line;
use mission_model::{
    CutSpec, InputLine, Items, Message, Mode, NamedPlan, PlanType, TearKind, VehicleLine,
    WatchInput,
};
use std::alloc::Global;

impl Value {
    ghost use Rattle.run_script.specs.Forms.{byte_of, short_of, long_of, signed_of};

    pub(crate) fn byte(self) -> u8
        ensures { result ≡ byte_of self }
    {
        match self {
            Value::Byte(number) => number,
            _ => 0,
        }
    }

    pub(crate) fn short(self) -> u16
        ensures { result ≡ short_of self }
    {
        match self {
            Value::Short(number) => number,
            _ => 0,
        }
    }

    pub(crate) fn long(self) -> u32
        ensures { result ≡ long_of self }
    {
        match self {
            Value::Long(number) => number,
            _ => 0,
        }
    }

    pub(crate) fn signed(self) -> i32
        ensures { result ≡ signed_of self }
    {
        match self {
            Value::Signed(number) => number,
            _ => 0,
        }
    }
}

/// The cut of a line `boot`.
pub(crate) fn cut_of(tear: Tear, values: &Values) -> CutSpec
    ensures { result ≡ cut_of tear values.now }
{
    let read = values.second.byte() == 1;
    let call = values.third.long();
    match tear {
        Tear::Old => CutSpec {
            read,
            call,
            tear: TearKind::Old,
            arg: 0,
        },
        Tear::New => CutSpec {
            read,
            call,
            tear: TearKind::New,
            arg: 0,
        },
        Tear::Front => CutSpec {
            read,
            call,
            tear: TearKind::Front,
            arg: values.fifth.short(),
        },
        Tear::Fill => CutSpec {
            read,
            call,
            tear: TearKind::Fill,
            arg: u16::from(values.fifth.byte()),
        },
    }
}

/// The type of a plan, by the number of its word.
pub(crate) fn kind_of(number: u8) -> PlanType
    ensures { result ≡ kind_of number }
{
    match number {
        0 => PlanType::Mission,
        1 => PlanType::Fence,
        _ => PlanType::Safe,
    }
}

/// The plan of a name.
pub(crate) fn plan_named<'a>(plans: &'a [NamedPlan], name: &[u8]) -> Option<&'a NamedPlan>
    ensures { MatchOption result (plan_named plans.now name.now ≡ None) (λ plan. plan_named plans.now name.now ≡ Some plan.now) }
{
    match plans {
        [] => None,
        [plan, more @ ..] => {
            if plan.name.as_slice() == name {
                Some(plan)
            } else {
                plan_named(more, name)
            }
        }
    }
}

/// The item of a row of a plan.
fn item_input(plan: &NamedPlan, seq: u16, row: u16) -> Result<InputLine, ScriptFault>
    ensures { result ≡ item_stated seq (slice_get plan.now.items row) }
{
    match plan.items.as_slice().get(row as usize) {
        Some(item) => Ok(InputLine::Message(Message::Item { seq, item: *item })),
        None => Err(ScriptFault::Name),
    }
}

/// The upload of a plan.
fn upload(alloc: Global, plan: &NamedPlan) -> Result<InputLine, Stop>
    ensures { Gives result (Ok (input.Upload plan.now.kind plan.now.items)) }
{
    let items = Vec::from_slice(alloc, plan.items.as_slice())?;
    Ok(InputLine::Upload {
        kind: plan.kind,
        items: Items::from_vec(items),
    })
}

/// The item of a named plan.
fn named_item(plans: &[NamedPlan], name: &[u8], seq: u16, row: u16) -> Result<InputLine, Stop>
    ensures { Gives result (item_named (plan_named plans.now name.now) seq row) }
{
    match plan_named(plans, name) {
        Some(plan) => match item_input(plan, seq, row) {
            Ok(input) => Ok(input),
            Err(fault) => Err(Stop::Fault(fault)),
        },
        None => Err(Stop::Fault(ScriptFault::Name)),
    }
}

/// The upload of a named plan.
fn named_upload(alloc: Global, plans: &[NamedPlan], name: &[u8]) -> Result<InputLine, Stop>
    ensures { Gives result (upload_named (plan_named plans.now name.now)) }
{
    match plan_named(plans, name) {
        Some(plan) => upload(alloc, plan),
        None => Err(Stop::Fault(ScriptFault::Name)),
    }
}

/// An input of a link.
pub(crate) fn link_input(
    alloc: Global,
    plans: &[NamedPlan],
    form: LinkForm,
    values: &Values,
    line: &Line<'_>,
) -> Result<InputLine, Stop>
    ensures { Gives result (link_input plans.now form values.now line.now) }
{
    let message = match form {
        LinkForm::Count => Message::Count {
            kind: values.fourth.byte(),
            count: values.fifth.short(),
        },
        LinkForm::Item => {
            return named_item(
                plans,
                line.word(5),
                values.fourth.short(),
                values.sixth.short(),
            );
        }
        LinkForm::Clear => Message::ClearAll {
            kind: values.fourth.byte(),
        },
        LinkForm::SetCurrent => Message::SetCurrent(values.fourth.short()),
        LinkForm::Cancel => Message::Cancel,
        LinkForm::Timeout => Message::Timeout,
        LinkForm::Upload => return named_upload(alloc, plans, line.word(4)),
        LinkForm::Wait => return Ok(InputLine::Wait),
        LinkForm::Meet => {
            return Ok(InputLine::Meet {
                place: values.fourth.byte(),
                count: values.fifth.byte(),
            });
        }
    };
    Ok(InputLine::Message(message))
}

fn mode_of(number: u8) -> Mode
    ensures { result ≡ mode_of number }
{
    match number {
        0 => Mode::Hold,
        1 => Mode::Mission,
        _ => Mode::Return,
    }
}

/// An input of the Navigator.
pub(crate) fn nav_input(form: NavForm, values: &Values) -> InputLine
    ensures { result ≡ nav_input form values.now }
{
    match form {
        NavForm::Tick => InputLine::Vehicle(VehicleLine::Tick),
        NavForm::Go => InputLine::Vehicle(VehicleLine::Go),
        NavForm::Reached => InputLine::Vehicle(VehicleLine::Reached),
        NavForm::Mode => InputLine::Vehicle(VehicleLine::Mode(mode_of(values.third.byte()))),
        NavForm::Position => InputLine::Vehicle(VehicleLine::Position {
            x: values.third.signed(),
            y: values.fourth.signed(),
        }),
        NavForm::Wait => InputLine::Wait,
        NavForm::Meet => InputLine::Meet {
            place: values.third.byte(),
            count: values.fourth.byte(),
        },
    }
}

/// An input of a watcher.
pub(crate) fn watch_input(values: &Values) -> InputLine
    ensures { result ≡ watch_input values.now }
{
    InputLine::Watch(WatchInput {
        code: values.fourth.short(),
        a: values.fifth.signed(),
        b: values.sixth.signed(),
    })
}

/// Whether an input is counted as an upload.
pub(crate) fn is_upload(input: &InputLine) -> bool
    ensures { result ≡ is_upload input.now }
{
    match input {
        InputLine::Upload { .. } => true,
        InputLine::Message(Message::Count { .. }) => true,
        InputLine::Message(Message::ClearAll { .. }) => true,
        _ => false,
    }
}
