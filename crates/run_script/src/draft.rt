//! A script in the making: what its lines stated so far, changed in place line by line.

ghost use Rattle.std.specs.Prelude.{◌≡◌, ◌≤◌, ◌+◌, ◌++◌, ◌∷◌, [], length, max, Ok, Err, Option, Some, None, nat_lt, OnOk, IfErr, IfOk, map, drop};
ghost use Rattle.std.specs.List.{filter_map};
ghost use Rattle.nav_text.specs.Cursors.{IsWithin, words_left};
ghost use Rattle.nav_text.specs.Spans.{text_of};
ghost use Rattle.nav_text.specs.Words.{words_in};
ghost use Rattle.mission_model.specs.declared.flight_line.Actor.{Actor};
ghost use Rattle.run_script.specs.Actors.{actor_of};
ghost use Rattle.run_script.specs.Statements.{links_to, watchers_to, Begins, Unclosed, HomeIs, Plan};
ghost use Rattle.run_script.specs.Forms.{boot_stated, setting_stated, input_stated, has_room, stated, turns_stated, signed_of};
ghost use Rattle.run_script.specs.Gathered.{nothing_gathered, known, after, all_boots, own_boot, with_turns, filled_with, script_in, is_whole, no_params, Follows, IsMemory};

use crate::actors::{actor_of, are_actors};
use crate::fault::{ScriptFault, Stop};
use crate::forms::{cut_of, is_upload, link_input, nav_input, watch_input};
use crate::table::{Form, Setting};
use crate::value::Values;
use crate::words::Line;
use mission_model::limits::{MAX_BOOTS, MAX_SCHEDULE_LINES, MAX_TURN_WORDS, MAX_UPLOAD_LINES};
use mission_model::{
    Actor, BootScript, Boots, CutSpec, Home, InputLine, Inputs, NamedPlan, Params, Plans, Script,
    Turns,
};
use nav_text::{Span, WordCursor};
use std::alloc::Global;
use std::marker::Model;
use std::mem;

const NO_PARAMS: Params = Params {
    tko_land: 0,
    takeoff_min: 0,
    max_alt: 0,
    rtl_type: 0,
};

#[derive(Drop)]
pub(crate) struct Draft {
    begun: bool,
    unclosed: bool,
    params: Params,
    home: Option<Home>,
    plans: Vec<NamedPlan>,
    /// The boots that ended.
    ended: Vec<BootScript>,
    /// How many boots there are.
    boots: usize,
    cut: Option<CutSpec>,
    inputs: Vec<(Actor, InputLine)>,
    turns: Vec<Actor>,
    links: u16,
    watchers: u16,
    schedule: usize,
    uploads: usize,
    turn_words: usize,
}

impl Model for Draft {
    ghost use Rattle.run_script.specs.Gathered.{Gathered};

    ghost Value = { Gathered };

    ghost view = { λ d. record { begun = d.begun; unclosed = d.unclosed; params = d.params; home = d.home; plans = d.plans.items; ended = d.ended.items; boots = d.boots; cut = d.cut; inputs = d.inputs.items; turns = d.turns.items; links = d.links; watchers = d.watchers; schedule = d.schedule; uploads = d.uploads; turn_words = d.turn_words } };
}

/// One above the number of a link that an actor is.
fn links_to(actor: Actor) -> u16
    ensures { result ≡ links_to actor }
{
    match actor {
        Actor::Link(number) => u16::from(number) + 1,
        _ => 0,
    }
}

fn watchers_to(actor: Actor) -> u16
    ensures { result ≡ watchers_to actor }
{
    match actor {
        Actor::Watch(number) => u16::from(number) + 1,
        _ => 0,
    }
}

impl Draft {
    pub(crate) fn new(alloc: Global) -> Draft
        ensures { result ≡ nothing_gathered }
    {
        Draft {
            begun: false,
            unclosed: false,
            params: NO_PARAMS,
            home: None,
            plans: Vec::new(alloc),
            ended: Vec::new(alloc),
            boots: 0,
            cut: None,
            inputs: Vec::new(alloc),
            turns: Vec::new(alloc),
            links: 0,
            watchers: 0,
            schedule: 0,
            uploads: 0,
            turn_words: 0,
        }
    }

    pub(crate) fn is_begun(&self) -> bool
        ensures { result ≡ self.now.begun }
    {
        self.begun
    }

    pub(crate) fn is_booted(&self) -> bool
        ensures { result ≡ nat_lt 0 self.now.boots }
    {
        self.boots > 0
    }

    pub(crate) fn plans(&self) -> &[NamedPlan]
        ensures { result.now ≡ self.now.plans }
    {
        &self.plans
    }

    pub(crate) fn begin(&mut self)
        ensures { self.new ≡ after self.old Begins }
    {
        self.begun = true;
    }

    pub(crate) fn leave_open(&mut self)
        ensures { self.new ≡ after self.old Unclosed }
    {
        self.unclosed = true;
    }

    pub(crate) fn set_home(&mut self, home: Home)
        ensures { self.new ≡ after self.old (HomeIs home) }
    {
        self.home = Some(home);
    }

    /// A parameter; a distance has to be 0.
    pub(crate) fn set(&mut self, setting: Setting, values: &Values) -> Result<(), Stop>
        ensures { Follows self.old (setting_stated setting values.now) result self.new }
    {
        match setting {
            Setting::TkoLand => self.params.tko_land = values.third.byte(),
            Setting::TakeoffMin => self.params.takeoff_min = values.third.signed(),
            Setting::MaxAlt => self.params.max_alt = values.third.signed(),
            Setting::RtlType => self.params.rtl_type = values.third.byte(),
            Setting::Distance => {
                if values.third.signed() != 0 {
                    return Err(Stop::Fault(ScriptFault::Distance));
                }
            }
        }
        Ok(())
    }

    pub(crate) fn add_plan(&mut self, plan: NamedPlan) -> Result<(), Stop>
        ensures { Follows self.old (Ok (Plan plan)) result self.new }
    {
        self.plans.push(plan)?;
        Ok(())
    }

    /// Ends the last boot, if there is one.
    fn end_boot(&mut self, alloc: Global) -> Result<(), Stop>
        ensures boots { OnOk result (self.new ≡ record self.old { ended = all_boots self.old; inputs = []; turns = [] }) }
        ensures memory { IfErr result IsMemory }
    {
        let inputs = mem::replace(&mut self.inputs, Vec::new(alloc));
        let turns = mem::replace(&mut self.turns, Vec::new(alloc));
        if self.boots > 0 {
            self.ended.push(own_boot(self.cut, inputs, turns))?;
        }
        Ok(())
    }

    /// One more boot.
    pub(crate) fn begin_boot(&mut self, alloc: Global, cut: Option<CutSpec>) -> Result<(), Stop>
        ensures { Follows self.old (boot_stated self.old.boots cut) result self.new }
    {
        if self.boots >= MAX_BOOTS {
            return Err(Stop::Fault(ScriptFault::TooMany));
        }
        self.end_boot(alloc)?;
        self.boots += 1;
        self.cut = cut;
        Ok(())
    }

    /// Whether the limits let one more input in.
    fn has_room(&self, input: &InputLine) -> bool
        ensures { result ≡ has_room (known self.now) input.now }
    {
        self.schedule < MAX_SCHEDULE_LINES && (!is_upload(input) || self.uploads < MAX_UPLOAD_LINES)
    }

    /// Counts an actor among the links and watchers.
    fn count_actor(&mut self, actor: Actor)
        ensures { self.new ≡ record self.old { links = max self.old.links (links_to actor); watchers = max self.old.watchers (watchers_to actor) } }
    {
        self.links = self.links.max(links_to(actor));
        self.watchers = self.watchers.max(watchers_to(actor));
    }

    /// One more input of an actor.
    pub(crate) fn add_input(&mut self, actor: Actor, input: InputLine) -> Result<(), Stop>
        ensures { Follows self.old (input_stated (known self.old) actor input) result self.new }
    {
        if !self.has_room(&input) {
            return Err(Stop::Fault(ScriptFault::TooMany));
        }
        if is_upload(&input) {
            self.uploads += 1;
        }
        self.schedule += 1;
        self.count_actor(actor);
        self.inputs.push((actor, input))?;
        Ok(())
    }

    fn add_turn(&mut self, actor: Actor) -> Result<(), Stop>
        ensures turn { OnOk result (self.new ≡ record self.old { turns = self.old.turns ++ actor ∷ []; links = max self.old.links (links_to actor); watchers = max self.old.watchers (watchers_to actor) }) }
        ensures memory { IfErr result IsMemory }
    {
        self.count_actor(actor);
        self.turns.push(actor)?;
        Ok(())
    }

    /// The actors of the words that are left.
    fn add_turns(&mut self, text: &[u8], words: WordCursor) -> Result<(), Stop>
        requires { IsWithin text.now words }
        ensures turns { OnOk result (self.new ≡ with_turns self.old (filter_map actor_of (words_left text.now words))) }
        ensures memory { IfErr result IsMemory }
    {
        let mut rest = words;
        match rest.next(text) {
            Some(name) => {
                match actor_of(&text[name.from as usize..name.to as usize]) {
                    Some(actor) => self.add_turn(actor)?,
                    None => {}
                }
                self.add_turns(text, rest)
            }
            None => Ok(()),
        }
    }

    /// The turns of a line, whose words are those of the span.
    #[tactic(auto, unfolding(crate::specs::Forms::turns_stated))]
    pub(crate) fn take_turns(
        &mut self,
        text: &[u8],
        span: Span,
        line: &Line<'_>,
    ) -> Result<(), Stop>
        requires { line.now ≡ words_in (text_of text.now span) }
        ensures { Follows self.old (turns_stated (known self.old) line.now) result self.new }
    {
        let names = behind_first(text, span);
        if !are_actors(text, names) {
            return Err(Stop::Fault(ScriptFault::Unknown));
        }
        if line.count() == 1 {
            return Err(Stop::Fault(ScriptFault::Words));
        }
        let count = line.count().saturating_sub(1);
        if count > MAX_TURN_WORDS || self.turn_words > MAX_TURN_WORDS - count {
            return Err(Stop::Fault(ScriptFault::TooMany));
        }
        self.add_turns(text, names)?;
        self.turn_words += count;
        Ok(())
    }

    /// What a line of a form states that is no plan's.
    #[tactic(auto, unfolding(crate::specs::Forms::stated))]
    pub(crate) fn state(
        &mut self,
        alloc: Global,
        form: Form,
        values: &Values,
        line: &Line<'_>,
    ) -> Result<(), Stop>
        ensures { Follows self.old (stated (known self.old) form values.now line.now) result self.new }
    {
        match form {
            Form::Set(setting) => self.set(setting, values),
            Form::Home => {
                self.set_home(home_of(values));
                Ok(())
            }
            Form::Boot => self.begin_boot(alloc, None),
            Form::Cut(tear) => self.begin_boot(alloc, Some(cut_of(tear, values))),
            Form::Link(link) => {
                let input = link_input(alloc, &self.plans, link, values, line)?;
                self.add_input(Actor::Link(values.second.byte()), input)
            }
            Form::Nav(nav) => self.add_input(Actor::Nav, nav_input(nav, values)),
            Form::Watch => {
                self.add_input(Actor::Watch(values.second.byte()), watch_input(values))
            }
            Form::Plan | Form::PlanHomeFirst => Err(Stop::Fault(ScriptFault::Unknown)),
        }
    }

    /// Whether nothing is missing.
    pub(crate) fn is_whole(&self) -> bool
        ensures { result ≡ is_whole self.now }
    {
        self.boots > 0 && !self.unclosed
    }

    /// The script.
    pub(crate) fn finish(self, alloc: Global) -> Result<Script, Stop>
        requires links { self.links ≤ 255 }
        requires watchers { self.watchers ≤ 255 }
        ensures script { IfOk result (λ script. script ≡ script_in self) }
        ensures memory { IfErr result IsMemory }
    {
        let mut draft = self;
        draft.end_boot(alloc)?;
        let mut boots = draft.ended;
        fill(
            &mut boots,
            draft.params,
            draft.home,
            draft.links as u8,
            draft.watchers as u8,
        );
        Ok(Script {
            params: draft.params,
            home: draft.home,
            plans: Plans::from_vec(draft.plans),
            boots: Boots::from_vec(boots),
        })
    }
}

/// A boot of which only its own lines are known.
fn own_boot(cut: Option<CutSpec>, inputs: Vec<(Actor, InputLine)>, turns: Vec<Actor>) -> BootScript
    ensures { result ≡ own_boot cut inputs.items turns.items }
{
    BootScript {
        cut,
        inputs: Inputs::from_vec(inputs),
        turns: Turns::from_vec(turns),
        params: NO_PARAMS,
        home: None,
        links: 0,
        watchers: 0,
    }
}

fn home_of(values: &Values) -> Home
    ensures { result ≡ record { x = signed_of values.now.second; y = signed_of values.now.third; z = signed_of values.now.fourth } }
{
    Home {
        x: values.second.signed(),
        y: values.third.signed(),
        z: values.fourth.signed(),
    }
}

/// Gives a boot what is the script's.
fn fill_boot(boot: &mut BootScript, params: Params, home: Option<Home>, links: u8, watchers: u8)
    ensures { boot.new ≡ filled_with params home links watchers boot.old }
{
    boot.params = params;
    boot.home = home;
    boot.links = links;
    boot.watchers = watchers;
}

/// Gives each boot what is the script's.
fn fill(boots: &mut Vec<BootScript>, params: Params, home: Option<Home>, links: u8, watchers: u8)
    ensures { boots.new.items ≡ map (filled_with params home links watchers) boots.old.items }
{
    for place in 0..boots.len() {
        fill_boot(&mut boots[place], params, home, links, watchers);
    }
}

/// The words of a line behind its first one.
fn behind_first(text: &[u8], span: Span) -> WordCursor
    ensures within { IsWithin text.now result }
    ensures words { words_left text.now result ≡ drop 1 (words_in (text_of text.now span)) }
{
    let words = WordCursor::new(text, span);
    let mut behind = words;
    match behind.next(text) {
        Some(_) => behind,
        None => words,
    }
}
