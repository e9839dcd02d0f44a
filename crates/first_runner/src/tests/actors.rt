//! A reader of a record, line by line, by what its lines tell of the actors: who asked what, who is ready, what each
//! actor's law allows, how the boot ends, and in which order the actors come.

use crate::fly::only_boot;
use crate::tests::flown;
use crate::tests::records::{
    ASKED_ONCE, ASKED_ONCE_RECORD, MEETING, MEETING_RECORD, NEW_PLAN, NEW_PLAN_RECORD, ONE_LEG,
    ONE_LEG_RECORD, TWO_LEGS, TWO_LEGS_RECORD, WAITED, WAITED_RECORD,
};
use first_model::limits::{LINK_ROOM, MAX_MISSION_ITEMS, NAV_ROOM};
use first_model::{
    AckCode, Actor, Answer, Asked, BootScript, Client, InputLine, Line, Mode, NavEntry, NavWhat,
    Params, PlanHead, PlanType, Reply, Said, VehicleLine,
};
use first_script::bounds::MAX_SCRIPT_BYTES;
use first_script::read_script;
use first_vehicle::VehicleCheck;
use std::alloc::{AllocError, Global};
use std::process::Abort;
use std::test::Fail;

const LINK: Client = Client::Link(0);

const PARAMS: Params = Params {
    tko_land: 0,
    takeoff_min: 0,
    max_alt: 0,
    rtl_type: 0,
};

/// The place of an actor's current input among its inputs, and whether that has begun.
#[derive(Clone, Copy)]
struct Left {
    at: usize,
    begun: bool,
}

const FRESH: Left = Left {
    at: 0,
    begun: false,
};

/// What the link is at, with the id, the count and the seq of its upload.
#[derive(Clone, Copy)]
enum Session {
    Free,
    Receiving(u32, u16, u16),
    Writing(u32, u16, u16),
    Committing,
}

/// What the lines tell so far; `begun` once the first line was read.
#[derive(Drop)]
struct Told<'a> {
    boot: &'a BootScript,
    begun: bool,
    asked: Vec<(Client, Asked)>,
    taken: usize,
    replies: Vec<Reply>,
    heard: Vec<Client>,
    arrived: Vec<u8>,
    last_id: u32,
    session: Session,
    link: Left,
    nav: Left,
    mission: PlanHead,
    index: u16,
    turn: usize,
    check: VehicleCheck,
}

/// Whose step a line is.
fn maker(line: &Line) -> Option<Actor> {
    match line {
        Line::Took { .. } | Line::Served { .. } => Some(Actor::Worker),
        Line::Sent { link, .. } | Line::Heard { link, .. } => Some(Actor::Link(*link)),
        Line::Got { .. } | Line::Nav { .. } => Some(Actor::Nav),
        Line::Arrived { client, .. } | Line::Met { client, .. } | Line::Waited { client } => {
            match client {
                Client::Nav => Some(Actor::Nav),
                Client::Link(number) => Some(Actor::Link(*number)),
                Client::Watch(number) => Some(Actor::Watch(*number)),
            }
        }
        _ => None,
    }
}

impl<'a> Told<'a> {
    /// Before the first line of a boot.
    fn new(alloc: Global, boot: &'a BootScript) -> Result<Told<'a>, AllocError> {
        Ok(Told {
            boot,
            begun: false,
            asked: Vec::new(alloc),
            taken: 0,
            replies: Vec::new(alloc),
            heard: Vec::new(alloc),
            arrived: Vec::new(alloc),
            last_id: 0,
            session: Session::Free,
            link: FRESH,
            nav: FRESH,
            mission: PlanHead { id: 0, count: 0 },
            index: 0,
            turn: 0,
            check: VehicleCheck::new(alloc, PARAMS, None)?,
        })
    }

    /// Whether the line may come next. It is told either way.
    fn read(&mut self, line: &Line) -> Result<bool, AllocError> {
        let lawful = self.is_lawful(line) && self.is_in_turn(line);
        let moves = self.check.feed(line)?;
        self.tell(line)?;
        self.begun = true;
        let within = self.unheard(Client::Nav) <= NAV_ROOM as usize
            && self.unheard(LINK) <= LINK_ROOM as usize;
        Ok(lawful && moves && within)
    }

    /// How many replies a client took.
    fn times(&self, client: Client) -> usize {
        let mut times = 0usize;
        for other in &self.heard {
            if *other == client {
                times = times.saturating_add(1);
            }
        }
        times
    }

    /// The next reply that a client may take.
    fn next_reply(&self, client: Client) -> Option<(Asked, Reply)> {
        let mut left = self.times(client);
        for (ask, reply) in self.asked.iter().zip(self.replies.iter()) {
            if ask.0 == client {
                if left == 0 {
                    return Some((ask.1, *reply));
                }
                left = left.saturating_sub(1);
            }
        }
        None
    }

    /// How many requests a client asked and took no reply to.
    fn unheard(&self, client: Client) -> usize {
        let mut asked = 0usize;
        for ask in &self.asked {
            if ask.0 == client {
                asked = asked.saturating_add(1);
            }
        }
        asked.saturating_sub(self.times(client))
    }

    /// Whether the Navigator took the item at a seq of the mission in force.
    fn is_known(&self, seq: u16) -> bool {
        let mut left = self.times(Client::Nav);
        for (ask, reply) in self.asked.iter().zip(self.replies.iter()) {
            if left > 0 && ask.0 == Client::Nav {
                left = left.saturating_sub(1);
                if ask.1 == self.read_of(seq) && matches!(reply, Reply::Item(_)) {
                    return true;
                }
            }
        }
        false
    }

    /// Whether it asked for that item and took no reply yet.
    fn is_in_flight(&self, seq: u16) -> bool {
        let mut heard = self.times(Client::Nav);
        for ask in &self.asked {
            if ask.0 == Client::Nav {
                if heard == 0 && ask.1 == self.read_of(seq) {
                    return true;
                }
                heard = heard.saturating_sub(1);
            }
        }
        false
    }

    fn read_of(&self, seq: u16) -> Asked {
        Asked::Read {
            kind: PlanType::Mission,
            id: self.mission.id,
            seq,
        }
    }

    /// How many seqs a look at the index asks, and up to which it looks for them.
    fn wanted(&self) -> (u8, u16) {
        let room = (NAV_ROOM as usize).saturating_sub(self.unheard(Client::Nav));
        let mut asks = 0u8;
        let mut end = self.index;
        for seq in self.index..self.mission.count {
            if (asks as usize).saturating_add(1) >= room {
                break;
            }
            if !self.is_known(seq) && !self.is_in_flight(seq) {
                asks = asks.saturating_add(1);
            }
            end = seq.saturating_add(1);
        }
        (asks, end)
    }

    fn left(&self, client: Client) -> Left {
        match client {
            Client::Nav => self.nav,
            _ => self.link,
        }
    }

    /// A client's current input.
    fn current(&self, client: Client) -> Option<&'a InputLine> {
        let actor = match client {
            Client::Nav => Actor::Nav,
            _ => Actor::Link(0),
        };
        let mut before = self.left(client).at;
        for entry in self.boot.inputs.as_slice() {
            if entry.0 == actor {
                if before == 0 {
                    return Some(&entry.1);
                }
                before = before.saturating_sub(1);
            }
        }
        None
    }

    fn arrivals(&self, place: u8) -> usize {
        let mut arrivals = 0usize;
        for other in &self.arrived {
            if *other == place {
                arrivals = arrivals.saturating_add(1);
            }
        }
        arrivals
    }

    /// Whether a client's schedule gives it a step.
    fn gives_step(&self, client: Client) -> bool {
        let begun = self.left(client).begun;
        let free = self.unheard(client) == 0;
        match self.current(client) {
            None => false,
            Some(InputLine::Wait) => free,
            Some(InputLine::Meet { place, count }) => {
                !begun || *count as usize <= self.arrivals(*place)
            }
            Some(InputLine::Vehicle(VehicleLine::Go)) => !begun || free,
            Some(_) => true,
        }
    }

    fn is_ready(&self, actor: Actor) -> bool {
        match actor {
            Actor::Worker => self.replies.len() < self.asked.len(),
            Actor::Link(0) => {
                self.next_reply(LINK).is_some()
                    || (self.unheard(LINK) == 0 && self.gives_step(LINK))
            }
            Actor::Nav => self.next_reply(Client::Nav).is_some() || self.gives_step(Client::Nav),
            _ => false,
        }
    }

    /// The actor at a place of the stated turns and then of the rounds.
    fn actor_at(&self, place: usize) -> Actor {
        let turns = self.boot.turns.as_slice();
        if let Some(actor) = turns.get(place) {
            return *actor;
        }
        let links = self.boot.links as usize;
        match place.saturating_sub(turns.len()) % (links + 2) {
            0 => Actor::Worker,
            1 if links > 0 => Actor::Link(0),
            _ => Actor::Nav,
        }
    }

    /// The next place in the stated order whose actor is ready.
    fn next_turn(&self) -> Option<usize> {
        let end = self.turn.max(self.boot.turns.as_slice().len());
        for place in self.turn..end.saturating_add(4) {
            if self.is_ready(self.actor_at(place)) {
                return Some(place);
            }
        }
        None
    }

    /// Whether the line is the next ready actor's, or ends the boot where nobody is ready.
    fn is_in_turn(&self, line: &Line) -> bool {
        let finished = self.current(LINK).is_none() && self.current(Client::Nav).is_none();
        match line {
            Line::Boot { .. } => !self.begun,
            Line::End => finished && self.next_turn().is_none(),
            Line::Stuck => !finished && self.next_turn().is_none(),
            _ if !self.begun => false,
            _ => match self.next_turn() {
                Some(place) => maker(line) == Some(self.actor_at(place)),
                None => false,
            },
        }
    }

    /// Whether the line is as its actor's law says.
    fn is_lawful(&self, line: &Line) -> bool {
        match line {
            Line::Boot { number, .. } => *number == 1,
            Line::Took { client, asked } => {
                self.replies.len() == self.taken
                    && self.asked.get(self.taken) == Some(&(*client, *asked))
            }
            Line::Served { client, .. } => {
                self.replies.len() < self.taken
                    && matches!(self.asked.get(self.replies.len()), Some(ask) if ask.0 == *client)
            }
            Line::Sent { said, answer, .. } => {
                self.next_reply(LINK).is_none() && self.says(said, answer)
            }
            Line::Heard { reply, answer, .. } => {
                matches!(self.next_reply(LINK), Some(next) if next.1 == *reply)
                    && self.hears(reply, answer)
            }
            Line::Got { asked, reply } => self.next_reply(Client::Nav) == Some((*asked, *reply)),
            Line::Nav { input, entry } => {
                self.next_reply(Client::Nav).is_none()
                    && matches!(self.current(Client::Nav), Some(InputLine::Vehicle(event)) if *event == *input)
                    && self.shows(entry)
            }
            Line::Arrived { client, place } => {
                self.next_reply(*client).is_none()
                    && !self.left(*client).begun
                    && matches!(self.current(*client), Some(InputLine::Meet { place: here, .. }) if *here == *place)
            }
            Line::Met { client, place } => {
                self.next_reply(*client).is_none()
                    && self.left(*client).begun
                    && matches!(self.current(*client), Some(InputLine::Meet { place: here, .. }) if *here == *place)
            }
            Line::Waited { client } => {
                self.next_reply(*client).is_none()
                    && matches!(self.current(*client), Some(InputLine::Wait))
            }
            Line::End | Line::Stuck => true,
            _ => false,
        }
    }

    /// The answer to a message of the upload that is the current input; that no id is left is out of reach here.
    fn says(&self, said: &Said, answer: &Answer) -> bool {
        let Some(InputLine::Upload { items, .. }) = self.current(LINK) else {
            return false;
        };
        match (said, self.session) {
            (Said::Count { kind, count }, _) => {
                !self.link.begun
                    && *kind == 0
                    && *count as usize == items.as_slice().len()
                    && *count > 0
                    && *count <= MAX_MISSION_ITEMS
                    && *answer == Answer::RequestInt(0)
            }
            (Said::Item(seq), Session::Receiving(id, _, next)) => {
                let Some(item) = items.as_slice().get(*seq as usize) else {
                    return false;
                };
                let writes = Answer::Writes {
                    kind: PlanType::Mission,
                    id,
                    seq: *seq,
                    item: *item,
                };
                *seq == next && *answer == writes
            }
            _ => false,
        }
    }

    /// The answer to a reply by the session.
    fn hears(&self, reply: &Reply, answer: &Answer) -> bool {
        if *reply != Reply::Done {
            return *answer == Answer::Ack(AckCode::Error);
        }
        match self.session {
            Session::Writing(id, count, seq) => {
                let next = seq.saturating_add(1);
                let commits = Answer::Commits {
                    kind: PlanType::Mission,
                    id,
                    count,
                };
                if next < count {
                    *answer == Answer::RequestInt(next)
                } else {
                    *answer == commits
                }
            }
            Session::Committing => *answer == Answer::Ack(AckCode::Accepted),
            _ => false,
        }
    }

    /// What an event may show of the item at the index, and how much it asks.
    fn shows(&self, entry: &NavEntry) -> bool {
        match entry.what {
            NavWhat::Pending { kind, seq } => {
                kind == PlanType::Mission
                    && seq == self.index
                    && self.index < self.mission.count
                    && !self.is_known(self.index)
                    && entry.asked == self.wanted().0
            }
            NavWhat::Leg { .. } => self.is_known(self.index) && entry.asked == self.wanted().0,
            _ => entry.asked == 0,
        }
    }

    fn go_on(&mut self, client: Client, begun: bool) {
        let old = self.left(client);
        let new = if begun {
            Left {
                at: old.at,
                begun: true,
            }
        } else {
            Left {
                at: old.at.saturating_add(1),
                begun: false,
            }
        };
        match client {
            Client::Nav => self.nav = new,
            _ => self.link = new,
        }
    }

    /// Takes the line in.
    fn tell(&mut self, line: &Line) -> Result<(), AllocError> {
        if maker(line).is_some() {
            self.turn = self.next_turn().unwrap_or(self.turn).saturating_add(1);
        }
        match line {
            Line::Boot { heads, .. } => {
                self.mission = heads[0];
                self.last_id = heads[0].id;
            }
            Line::Took { .. } => self.taken = self.taken.saturating_add(1),
            Line::Served { reply, .. } => self.tell_reply(*reply)?,
            Line::Sent { said, answer, .. } => self.tell_message(said, answer)?,
            Line::Heard { answer, .. } => self.tell_heard(answer)?,
            Line::Got { .. } => self.heard.push(Client::Nav)?,
            Line::Nav { input, entry } => self.tell_event(*input, entry)?,
            Line::Arrived { client, place } => {
                self.arrived.push(*place)?;
                self.go_on(*client, true);
            }
            Line::Met { client, .. } | Line::Waited { client } => self.go_on(*client, false),
            _ => {}
        }
        Ok(())
    }

    fn tell_reply(&mut self, reply: Reply) -> Result<(), AllocError> {
        if let Some((_, Asked::Commit { id, count, .. })) = self.asked.get(self.replies.len())
            && reply == Reply::Done
        {
            self.mission = PlanHead {
                id: *id,
                count: *count,
            };
            self.index = 0;
        }
        self.replies.push(reply)?;
        Ok(())
    }

    fn tell_message(&mut self, said: &Said, answer: &Answer) -> Result<(), AllocError> {
        match (said, answer, self.session) {
            (Said::Count { count, .. }, Answer::RequestInt(_), _) => {
                self.last_id = self.last_id.saturating_add(1);
                self.session = Session::Receiving(self.last_id, *count, 0);
            }
            (Said::Item(_), Answer::Writes { .. }, Session::Receiving(id, count, seq)) => {
                self.session = Session::Writing(id, count, seq);
            }
            _ => self.session = Session::Free,
        }
        self.tell_asks(answer)
    }

    fn tell_heard(&mut self, answer: &Answer) -> Result<(), AllocError> {
        self.heard.push(LINK)?;
        match (answer, self.session) {
            (Answer::RequestInt(next), Session::Writing(id, count, _)) => {
                self.session = Session::Receiving(id, count, *next);
            }
            (Answer::Commits { .. }, _) => self.session = Session::Committing,
            _ => self.session = Session::Free,
        }
        self.tell_asks(answer)
    }

    fn tell_asks(&mut self, answer: &Answer) -> Result<(), AllocError> {
        match answer {
            Answer::Writes { kind, id, seq, .. } => {
                let asked = Asked::Write {
                    kind: *kind,
                    id: *id,
                    seq: *seq,
                };
                self.asked.push((LINK, asked))?;
            }
            Answer::Commits { kind, id, count } => {
                let asked = Asked::Commit {
                    kind: *kind,
                    id: *id,
                    count: *count,
                };
                self.asked.push((LINK, asked))?;
            }
            _ => {}
        }
        self.go_on(LINK, !matches!(answer, Answer::Ack(_)));
        Ok(())
    }

    fn tell_event(&mut self, event: VehicleLine, entry: &NavEntry) -> Result<(), AllocError> {
        match entry.what {
            NavWhat::Pending { .. } | NavWhat::Leg { .. } => {
                let end = self.wanted().1;
                for seq in self.index..end {
                    if !self.is_known(seq) && !self.is_in_flight(seq) {
                        let asked = self.read_of(seq);
                        self.asked.push((Client::Nav, asked))?;
                    }
                }
            }
            NavWhat::Next(index) => self.index = index,
            _ => {}
        }
        if event == VehicleLine::Mode(Mode::Mission) && self.index == self.mission.count {
            self.index = 0;
        }
        let waits = matches!(
            (event, entry.what),
            (VehicleLine::Go, NavWhat::Pending { .. })
        );
        self.go_on(Client::Nav, waits);
        Ok(())
    }
}

/// The lines up to a place are those of a run of the boot's actors, and with another line there they are not.
fn expect_wrong(
    rt: &impl Abort,
    alloc: Global,
    boot: &BootScript,
    lines: &[Line],
    place: usize,
    other: &Line,
) -> Result<(), Fail> {
    let mut told = Told::new(alloc, boot)?;
    for line in lines.iter().take(place) {
        assert!(rt; told.read(line)?);
    }
    assert!(rt; !told.read(other)?, "the change in line {place}");
    Ok(())
}

/// The script's record is this one, a run of its actors at each of its lines, and with each of these changed lines in its
/// place it is none at that line.
fn expect_run(
    rt: &impl Abort,
    alloc: Global,
    script: &[u8],
    record: &[u8],
    changed: &[(usize, Line)],
) -> Result<(), Fail> {
    let (outcome, held) = flown(alloc, &["replay"], script, &[], &[])?;
    assert!(rt; held.as_slice() == record);
    assert!(rt; script.len() <= MAX_SCRIPT_BYTES);
    let Ok(script) = read_script(alloc, script) else {
        assert!(rt; false, "the script is not read");
        return Ok(());
    };
    let boot = only_boot(script);
    let mut told = Told::new(alloc, &boot)?;
    for (place, line) in outcome.lines.iter().enumerate() {
        assert!(rt; told.read(line)?, "line {place}");
    }
    for (place, other) in changed {
        expect_wrong(rt, alloc, &boot, outcome.lines.as_slice(), *place, other)?;
    }
    Ok(())
}

/// The Navigator waits for the first item, and asks for so many.
fn waits(input: VehicleLine, asked: u8) -> Line {
    let what = NavWhat::Pending {
        kind: PlanType::Mission,
        seq: 0,
    };
    Line::Nav {
        input,
        entry: NavEntry { what, asked },
    }
}

/// The worker takes the Navigator's read of the first item.
fn takes(id: u32) -> Line {
    Line::Took {
        client: Client::Nav,
        asked: read(id),
    }
}

fn read(id: u32) -> Asked {
    Asked::Read {
        kind: PlanType::Mission,
        id,
        seq: 0,
    }
}

const SECOND_ITEM: Line = Line::Heard {
    link: 0,
    reply: Reply::Done,
    answer: Answer::RequestInt(1),
};

const NAV_WAITS: Line = Line::Waited {
    client: Client::Nav,
};

const LINK_MEETS: Line = Line::Met {
    client: LINK,
    place: 0,
};

/// Each worked record is a run of its actors in the stated order at each of its lines, and with one thing changed it is
/// none at that line: a request is taken that waits behind another, or that nobody asked; a read in flight is asked again,
/// a new mission's is not; a reply is taken that was not served; the worker is left out, or the Navigator; a known item is
/// waited for; the boot ends stuck where all is finished, or finished where somebody is stuck; an item is requested that
/// the upload does not have; a client waits, or meets, while a reply waits for it or its turn is not there.
#[test]
fn records_are_runs_of_their_actors(rt: HostRuntime) -> Result<(), Fail> {
    let got = Line::Got {
        asked: read(2),
        reply: Reply::Stale(2),
    };
    let new_plan = [
        (5, SECOND_ITEM),
        (16, takes(1)),
        (17, waits(VehicleLine::Go, 1)),
        (20, takes(2)),
        (22, got),
        (23, waits(VehicleLine::Go, 0)),
        (24, waits(VehicleLine::Go, 0)),
        (27, waits(VehicleLine::Go, 1)),
        (28, Line::Stuck),
    ];
    expect_run(&rt, rt.alloc(), NEW_PLAN, NEW_PLAN_RECORD, &new_plan)?;
    let asked_once = [(12, waits(VehicleLine::Tick, 1))];
    expect_run(&rt, rt.alloc(), ASKED_ONCE, ASKED_ONCE_RECORD, &asked_once)?;
    expect_run(&rt, rt.alloc(), MEETING, MEETING_RECORD, &[(2, Line::End)])?;
    expect_run(
        &rt,
        rt.alloc(),
        TWO_LEGS,
        TWO_LEGS_RECORD,
        &[(15, LINK_MEETS)],
    )?;
    expect_run(
        &rt,
        rt.alloc(),
        ONE_LEG,
        ONE_LEG_RECORD,
        &[(21, Line::Stuck)],
    )?;
    expect_run(&rt, rt.alloc(), WAITED, WAITED_RECORD, &[(13, NAV_WAITS)])
}
