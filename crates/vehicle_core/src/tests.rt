//! Rows of links, the Navigator and watchers over replies that are given by hand, and which actor is ready when.

ghost use Rattle.std.specs.Prelude.{◌≡◌, ◌≤◌, IfOk, IfSome, IsTrue};
ghost use Rattle.std.specs.List.{All};
ghost use Rattle.mission_model.specs.declared.plan.PlanType.{PlanType as KindValue};
ghost use Rattle.mission_model.specs.PlanTypes.{head_of, limit_of};
ghost use Rattle.mission_model.specs.BootScripts.{ActorInput, BootInLimits, LinkInput, NavInput, NamesTypes};
ghost use Rattle.mission_model.specs.BootStates.{StateInLimits};
ghost use Rattle.mission_model.specs.Replies.{Suits};
ghost use Rattle.mission_model.specs.Shown.{asked_of};
ghost use Rattle.request_board.specs.Silence.{nothing_read};
ghost use Rattle.vehicle_core.specs.CoreState.{CoreFits};

use super::*;
use Todo::*;
use mission_model::AckCode::*;
use mission_model::Actor::{Nav, Watch, Worker};
use mission_model::Answer::{self, Ack, Commits, Nothing, RequestInt, Writes};
use mission_model::PlanType::{Fence, Mission};
use mission_model::limits::{MAX_PLACES, MAX_PLAN_ROWS};
use mission_model::{
    ALL_TYPES, BootScript, BootState, Counts, InputLine, Inputs, Item, Items, Line, Mark, Message,
    Mode, Param, Params, PlanHead, PlanType, Reply, Request, Turns, VehicleLine, WatchInput,
    head_of, limit_of,
};
use request_board::NoWatch;
use std::alloc::{AllocError, Global};
use std::test::*;

/// What an actor is to do.
#[derive(Clone, Copy)]
enum Todo {
    Says(Message),
    /// A plan of so many waypoints.
    Uploads(PlanType, u16),
    Does(VehicleLine),
    Looks(u16),
    Waits,
    Meets(u8, u8),
}

/// An actor and what it is to do.
type Given = (Actor, Todo);

const L0: Actor = Actor::Link(0);

const L1: Actor = Actor::Link(1);

const V0: Actor = Watch(0);

const V1: Actor = Watch(1);

/// A waypoint of the global frame.
const WAYPOINT: Item = Item {
    frame: 0,
    command: 16,
    p1: Param::Milli(0),
    p2: Param::Milli(0),
    p3: Param::Milli(0),
    p4: Param::Milli(0),
    x: 473_760_000,
    y: 85_500_000,
    z: 10_000,
    auto: true,
};

fn count(kind: u8, count: u16) -> Todo {
    Says(Message::Count { kind, count })
}

fn item(seq: u16) -> Todo {
    Says(Message::Item {
        seq,
        item: WAYPOINT,
    })
}

/// The input that says it.
fn input_of(alloc: Global, todo: Todo) -> Result<InputLine, AllocError> {
    Ok(match todo {
        Says(message) => InputLine::Message(message),
        Uploads(kind, rows) => {
            let mut items = Vec::new(alloc);
            for _ in 0..rows {
                items.push(WAYPOINT)?;
            }
            InputLine::Upload {
                kind,
                items: Items::from_vec(items),
            }
        }
        Does(event) => InputLine::Vehicle(event),
        Looks(code) => InputLine::Watch(WatchInput { code, a: 0, b: 0 }),
        Waits => InputLine::Wait,
        Meets(place, count) => InputLine::Meet { place, count },
    })
}

fn names_types(number: u8) -> bool
    ensures { IsTrue result → NamesTypes number }
{
    number <= 2 || number == ALL_TYPES
}

/// Whether a link can have the input.
fn is_of_link(input: &InputLine) -> bool
    ensures { IsTrue result → LinkInput input.now }
{
    match input {
        InputLine::Message(message) => match message {
            Message::Count { kind, .. } => names_types(*kind),
            Message::ClearAll { kind } => names_types(*kind),
            _ => true,
        },
        InputLine::Upload { items, .. } => items.as_slice().len() <= MAX_PLAN_ROWS as usize,
        InputLine::Wait => true,
        InputLine::Meet { place, count } => *place < MAX_PLACES && 1 <= *count,
        _ => false,
    }
}

/// Whether the Navigator can have the input; positions are not given here.
fn is_of_nav(input: &InputLine) -> bool
    ensures { IsTrue result → NavInput input.now }
{
    match input {
        InputLine::Vehicle(event) => !matches!(event, VehicleLine::Position { .. }),
        InputLine::Wait => true,
        InputLine::Meet { place, count } => *place < MAX_PLACES && 1 <= *count,
        _ => false,
    }
}

/// Whether the actor, of two links and two watchers, can have the input.
fn is_given(actor: Actor, input: &InputLine) -> bool
    ensures { IsTrue result → ActorInput 2 2 (actor, input.now) }
{
    match actor {
        Worker => false,
        Actor::Link(number) => number < 2 && is_of_link(input),
        Nav => is_of_nav(input),
        Watch(number) => number < 2 && matches!(input, InputLine::Watch(_)),
    }
}

/// The inputs in their order; one that its actor cannot have is left out.
fn inputs_of(alloc: Global, given: &[Given]) -> Result<Vec<(Actor, InputLine)>, AllocError>
    ensures { IfOk result (λ inputs. All (ActorInput 2 2) inputs.items) }
{
    let mut inputs = Vec::new(alloc);
    for (actor, todo) in given {
        let input = input_of(alloc, *todo)?;
        if is_given(*actor, &input) {
            inputs.push((*actor, input))?;
        }
    }
    Ok(inputs)
}

/// Whether each count is within its type's limit.
fn is_within(heads: &[PlanHead; 3]) -> bool
    ensures { IsTrue result → (type : KindValue) → (head_of heads.now type).count ≤ limit_of type }
{
    let mission = head_of(heads, PlanType::Mission).count <= limit_of(PlanType::Mission);
    let fence = head_of(heads, PlanType::Fence).count <= limit_of(PlanType::Fence);
    let safe = head_of(heads, PlanType::Safe).count <= limit_of(PlanType::Safe);
    mission && fence && safe
}

/// Whether heads and mark fit one another, with no jump counted.
fn is_state(state: &BootState) -> bool
    ensures { IsTrue result → StateInLimits state.now }
{
    let mission = head_of(&state.heads, PlanType::Mission);
    if state.mark.id != mission.id || state.mark.index > mission.count {
        return false;
    }
    state.mark.counts.len() == 0 && is_within(&state.heads)
}

/// A boot of two links and two watchers with these inputs.
fn boot_of(inputs: Inputs, turns: Turns) -> BootScript
    requires { All (ActorInput 2 2) inputs }
    ensures limits { BootInLimits result }
    ensures watchers { result.watchers ≡ 2 }
{
    BootScript {
        cut: None,
        inputs,
        turns,
        params: Params {
            tko_land: 0,
            takeoff_min: 0,
            max_alt: 0,
            rtl_type: 0,
        },
        home: None,
        links: 2,
        watchers: 2,
    }
}

/// A boot with these inputs, over a store with a mission of this id and of so many items and no other plan; none where that
/// is no store.
fn booted(
    alloc: Global,
    id: u32,
    count: u16,
    given: &[Given],
) -> Result<Option<Core<NoWatch>>, AllocError>
    ensures { IfOk result (λ core. IfSome core (CoreFits (λ w. nothing_read))) }
{
    let state = BootState {
        heads: [
            PlanHead { id, count },
            PlanHead { id: 0, count: 0 },
            PlanHead { id: 0, count: 0 },
        ],
        mark: Mark {
            id,
            index: 0,
            counts: Counts::new(),
        },
    };
    if !is_state(&state) {
        return Ok(None);
    }
    let inputs = Inputs::from_vec(inputs_of(alloc, given)?);
    let boot = boot_of(inputs, Turns::from_vec(Vec::new(alloc)));
    let mut watchers = Vec::new(alloc);
    watchers.push(NoWatch)?;
    watchers.push(NoWatch)?;
    Ok(Some(Core::new(alloc, boot, &state, watchers)?))
}

/// What a store replies in which all is well.
fn reply_to(request: &Request) -> Reply
    ensures { Suits (asked_of request.now) result }
{
    match request {
        Request::Read { .. } => Reply::Item(WAYPOINT),
        _ => Reply::Done,
    }
}

/// One turn; the worker has a reply for the request that it has taken, where the power stays on.
fn turn(core: &mut Core<NoWatch>, actor: Actor, power: bool) -> StepOut<Line>
    requires { CoreFits (λ w. nothing_read) core.old }
    ensures { CoreFits (λ w. nothing_read) core.new }
{
    if !matches!(actor, Worker) {
        return core.step(actor, None);
    }
    match core.taken() {
        Some(request) => {
            let reply = if power {
                reply_to(&request)
            } else {
                Reply::PowerOff
            };
            core.step(Worker, Some(reply))
        }
        None => core.step(Worker, None),
    }
}

/// These turns, whose lines are added.
fn play(core: &mut Core<NoWatch>, actors: &[Actor], lines: &mut Vec<Line>) -> Result<(), AllocError>
    requires { CoreFits (λ w. nothing_read) core.old }
    ensures { CoreFits (λ w. nothing_read) core.new }
{
    for actor in actors {
        if let StepOut::Made(line) = turn(core, *actor, true) {
            lines.push(line)?;
        }
    }
    Ok(())
}

static ROUND: [Actor; 6] = [Worker, L0, L1, Nav, V0, V1];

/// The lines of a boot with these inputs: these turns, and then so many rounds.
fn lines_of(
    alloc: Global,
    given: &[Given],
    turns: &[Actor],
    rounds: u8,
) -> Result<Vec<Line>, AllocError> {
    let mut lines = Vec::new(alloc);
    let Some(mut core) = booted(alloc, 0, 0, given)? else {
        return Ok(lines);
    };
    play(&mut core, turns, &mut lines)?;
    for _ in 0..rounds {
        play(&mut core, &ROUND, &mut lines)?;
    }
    Ok(lines)
}

/// What the links are answered, each with the link's number.
fn answers(alloc: Global, lines: &[Line]) -> Result<Vec<(u8, Answer)>, AllocError> {
    let mut all = Vec::new(alloc);
    for line in lines {
        match line {
            Line::Sent { link, answer, .. } => all.push((*link, *answer))?,
            Line::Heard { link, answer, .. } => all.push((*link, *answer))?,
            _ => {}
        }
    }
    Ok(all)
}

const fn writes(id: u32, seq: u16) -> Answer {
    Writes {
        kind: Mission,
        id,
        seq,
        item: WAYPOINT,
    }
}

const fn commits(id: u32, count: u16) -> Answer {
    Commits {
        kind: Mission,
        id,
        count,
    }
}

#[test]
fn items_out_of_order(rt: HostRuntime) -> Result<(), Fail> {
    let given = [
        (L0, count(0, 2)),
        (L0, item(1)),
        (L0, item(0)),
        (L0, item(0)),
        (L0, item(1)),
    ];
    let lines = lines_of(rt.alloc(), &given, &[], 20)?;
    assert_eq!(rt;
        answers(rt.alloc(), &lines)?.as_slice(),
        [
            (0, RequestInt(0)),
            (0, RequestInt(0)),
            (0, writes(1, 0)),
            (0, RequestInt(1)),
            (0, RequestInt(1)),
            (0, writes(1, 1)),
            (0, commits(1, 2)),
            (0, Ack(Accepted)),
        ]
        .as_slice()
    );
    Ok(())
}

#[test]
fn two_links_upload(rt: HostRuntime) -> Result<(), Fail> {
    let given = [
        (L0, count(0, 1)),
        (L0, Says(Message::Cancel)),
        (L1, count(0, 1)),
        (L1, Uploads(Mission, 1)),
    ];
    let lines = lines_of(rt.alloc(), &given, &[L0, L1, L0], 20)?;
    assert_eq!(rt;
        answers(rt.alloc(), &lines)?.as_slice(),
        [
            (0, RequestInt(0)),
            (1, Ack(Denied)),
            (0, Ack(OperationCancelled)),
            (1, RequestInt(0)),
            (1, writes(2, 0)),
            (1, commits(2, 1)),
            (1, Ack(Accepted)),
        ]
        .as_slice()
    );
    Ok(())
}

#[test]
fn messages_without_a_transfer(rt: HostRuntime) -> Result<(), Fail> {
    let given = [
        (L0, Says(Message::Timeout)),
        (L0, item(0)),
        (L0, count(ALL_TYPES, 1)),
        (L0, Uploads(Mission, 0)),
        (L0, Uploads(Mission, 2001)),
        (L0, Uploads(Fence, 65)),
    ];
    let lines = lines_of(rt.alloc(), &given, &[], 20)?;
    assert_eq!(rt;
        answers(rt.alloc(), &lines)?.as_slice(),
        [
            (0, Nothing),
            (0, Ack(InvalidSequence)),
            (0, Ack(Unsupported)),
            (0, commits(1, 0)),
            (0, Ack(Accepted)),
            (0, Ack(NoSpace)),
            (0, Ack(NoSpace)),
        ]
        .as_slice()
    );
    Ok(())
}

#[test]
fn two_watchers(rt: HostRuntime) -> Result<(), Fail> {
    let given = [(V0, Looks(7)), (V1, Looks(8)), (V0, Looks(9))];
    let lines = lines_of(rt.alloc(), &given, &[V1], 3)?;
    let mut seen = Vec::new(rt.alloc());
    for line in &lines {
        match line {
            Line::WatchDid {
                watch,
                input,
                note,
                asked,
            } => seen.push((*watch, input.code, note.code, *asked))?,
            _ => {}
        }
    }
    assert_eq!(rt;
        seen.as_slice(),
        [(1, 8, 0, 0), (0, 7, 0, 0), (0, 9, 0, 0)].as_slice()
    );
    Ok(())
}

/// Who is ready after these turns, in the order of a round.
fn ready_after(alloc: Global, given: &[Given], turns: &[Actor]) -> Result<[bool; 6], AllocError> {
    let Some(mut core) = booted(alloc, 1, 3, given)? else {
        return Ok([false; 6]);
    };
    let mut lines = Vec::new(alloc);
    play(&mut core, turns, &mut lines)?;
    Ok(who_is_ready(&core))
}

fn who_is_ready(core: &Core<NoWatch>) -> [bool; 6]
    requires { CoreFits (λ w. nothing_read) core.now }
{
    [
        core.ready(Worker),
        core.ready(L0),
        core.ready(L1),
        core.ready(Nav),
        core.ready(V0),
        core.ready(V1),
    ]
}

const NOBODY: [bool; 6] = [false; 6];

const WORKER: [bool; 6] = [true, false, false, false, false, false];

const FIRST_LINK: [bool; 6] = [false, true, false, false, false, false];

const NAVIGATOR: [bool; 6] = [false, false, false, true, false, false];

#[test]
fn links_are_ready(rt: HostRuntime) -> Result<(), Fail> {
    let alloc = rt.alloc();
    let clears = [(L0, Says(Message::ClearAll { kind: 1 })), (L0, Waits)];
    assert_eq!(rt; ready_after(alloc, &[], &[])?, NOBODY);
    assert_eq!(rt; ready_after(alloc, &clears, &[])?, FIRST_LINK);
    assert_eq!(rt; ready_after(alloc, &clears, &[L0])?, WORKER);
    assert_eq!(rt; ready_after(alloc, &clears, &[L0, Worker])?, WORKER);
    assert_eq!(rt;
        ready_after(alloc, &clears, &[L0, Worker, Worker])?,
        FIRST_LINK
    );
    assert_eq!(rt;
        ready_after(alloc, &clears, &[L0, Worker, Worker, L0])?,
        FIRST_LINK
    );
    assert_eq!(rt;
        ready_after(alloc, &clears, &[L0, Worker, Worker, L0, L0])?,
        NOBODY
    );
    let uploads = [(L0, Uploads(Mission, 1))];
    assert_eq!(rt; ready_after(alloc, &uploads, &[])?, FIRST_LINK);
    assert_eq!(rt; ready_after(alloc, &uploads, &[L0])?, FIRST_LINK);
    assert_eq!(rt; ready_after(alloc, &uploads, &[L0, L0])?, WORKER);
    Ok(())
}

#[test]
fn meetings_are_ready(rt: HostRuntime) -> Result<(), Fail> {
    let alloc = rt.alloc();
    let meets = [(L0, Meets(3, 2)), (L1, Meets(4, 1)), (Nav, Meets(3, 2))];
    let three = [false, true, true, true, false, false];
    let two = [false, false, true, true, false, false];
    assert_eq!(rt; ready_after(alloc, &meets, &[])?, three);
    assert_eq!(rt; ready_after(alloc, &meets, &[L0])?, two);
    assert_eq!(rt; ready_after(alloc, &meets, &[L0, L1])?, two);
    assert_eq!(rt; ready_after(alloc, &meets, &[L0, L1, Nav])?, three);
    assert_eq!(rt;
        ready_after(alloc, &meets, &[L0, L1, Nav, L1, L0])?,
        NAVIGATOR
    );
    Ok(())
}

#[test]
fn the_navigator_is_ready(rt: HostRuntime) -> Result<(), Fail> {
    let alloc = rt.alloc();
    let mode = (Nav, Does(VehicleLine::Mode(Mode::Mission)));
    let goes = [mode, (Nav, Does(VehicleLine::Go))];
    assert_eq!(rt; ready_after(alloc, &goes, &[Nav])?, NAVIGATOR);
    assert_eq!(rt; ready_after(alloc, &goes, &[Nav, Nav])?, WORKER);
    let ticks = [
        mode,
        (Nav, Does(VehicleLine::Tick)),
        (Nav, Does(VehicleLine::Reached)),
        (Nav, Waits),
    ];
    let both = [true, false, false, true, false, false];
    assert_eq!(rt; ready_after(alloc, &ticks, &[Nav, Nav])?, both);
    assert_eq!(rt; ready_after(alloc, &ticks, &[Nav, Nav, Nav])?, WORKER);
    assert_eq!(rt;
        ready_after(alloc, &ticks, &[Nav, Nav, Nav, Worker, Worker])?,
        both
    );
    Ok(())
}

#[test]
fn watchers_are_ready(rt: HostRuntime) -> Result<(), Fail> {
    let alloc = rt.alloc();
    let looks = [(V0, Looks(1)), (V1, Looks(1))];
    let first = [false, false, false, false, true, false];
    let both = [false, false, false, false, true, true];
    assert_eq!(rt; ready_after(alloc, &looks, &[])?, both);
    assert_eq!(rt; ready_after(alloc, &looks, &[V1])?, first);
    assert_eq!(rt; ready_after(alloc, &looks, &[V1, V0])?, NOBODY);
    Ok(())
}

#[test]
fn nobody_is_ready_without_power(rt: HostRuntime) -> Result<(), Fail> {
    let given = [
        (L0, Says(Message::ClearAll { kind: 1 })),
        (L1, Meets(0, 1)),
        (Nav, Waits),
        (V0, Looks(1)),
    ];
    let Some(mut core) = booted(rt.alloc(), 1, 3, &given)? else {
        assert!(rt; false);
        return Ok(());
    };
    turn(&mut core, L0, true);
    turn(&mut core, Worker, true);
    assert_eq!(rt; who_is_ready(&core), [true, false, true, true, true, false]);
    turn(&mut core, Worker, false);
    assert_eq!(rt; who_is_ready(&core), NOBODY);
    assert!(rt; !core.is_finished());
    Ok(())
}
