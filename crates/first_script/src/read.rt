//! A whole script: its lines lead from place to place, and the place behind the last tells the script.

ghost use Rattle.std.specs.Prelude.{◌≡◌, ◌+◌, ◌≤◌, length, take, count_by, All, IfOk, IfErr, MatchOption, Err, None, Some};
ghost use Rattle.std.specs.List.{list_any};
ghost use Rattle.first_text.specs.Lines.{is_line_feed};
ghost use Rattle.first_text.specs.Spans.{text_of, IsInside};
ghost use Rattle.first_model.specs.declared.schedule.Script.{Script};
ghost use Rattle.first_script.specs.declared.place.Place.TheVariants.{Top};
ghost use Rattle.first_script.specs.Scripts.{is_link, links_of, script_of, script_at, ScriptFrom, FaultFrom, ScriptText, IsScriptFault, GivesScript, fault_line};
ghost use Rattle.first_text.specs.Words.{words_in};
ghost use Rattle.first_script.specs.Flyable.{IsFlyable};
ghost use Rattle.first_script.specs.Reads.{Gives, IsMemory, UnlessMemory, or_fault, told};

use crate::bounds::MAX_SCRIPT_BYTES;
use crate::draft::Draft;
use crate::fault::{ScriptFault, Stop};
use crate::place::{Place, after};
use crate::words::bytes_of;
use first_model::{Actor, BootScript, Boots, InputLine, Script};
use first_text::{Span, TextFault, split_lines};
use std::alloc::Global;

fn is_link(actor: &Actor) -> bool
    ensures { result ≡ is_link actor.now }
{
    matches!(actor, Actor::Link(_))
}

fn have_link_input(inputs: &[(Actor, InputLine)]) -> bool
    ensures { result ≡ list_any (λ input. is_link input.0) inputs.now }
{
    inputs.iter().any(|input| is_link(&input.0))
}

fn have_link(turns: &[Actor]) -> bool
    ensures { result ≡ list_any is_link turns.now }
{
    turns.iter().any(|actor| is_link(actor))
}

#[tactic(auto, unfolding(crate::specs::Scripts::links_of))]
fn links(inputs: &[(Actor, InputLine)], turns: &[Actor]) -> u8
    ensures { result ≡ links_of inputs.now turns.now }
{
    if have_link_input(inputs) || have_link(turns) {
        1
    } else {
        0
    }
}

/// The script of what is stated.
fn script_of(alloc: Global, draft: Draft) -> Result<Script, Stop>
    ensures script { IfOk result (λ script. script ≡ script_of draft) }
    ensures memory { IfErr result IsMemory }
{
    let links = links(draft.inputs.as_slice(), draft.turns.as_slice());
    let boot = BootScript {
        cut: None,
        links,
        inputs: draft.inputs.into_inputs(),
        turns: draft.turns,
        params: draft.params,
        home: draft.home,
        watchers: 0,
    };
    let mut boots = Vec::new(alloc);
    boots.push(boot)?;
    Ok(Script {
        params: draft.params,
        home: draft.home,
        plans: draft.plans,
        boots: Boots::from_vec(boots),
    })
}

/// The script whose lines end at a place.
#[tactic(auto, unfolding(crate::specs::Scripts::script_at))]
fn script_at(alloc: Global, place: Place) -> Result<Script, Stop>
    ensures { Gives result (or_fault ScriptFault.Unfinished (script_at place)) }
{
    match place {
        Place::Among(draft) if draft.booted => script_of(alloc, draft),
        _ => Err(Stop::Fault(ScriptFault::Unfinished)),
    }
}

/// The fault that is told of a line.
fn told(stop: Stop) -> ScriptFault
    ensures { result ≡ told stop }
{
    match stop {
        Stop::Fault(fault) => fault,
        Stop::Memory(source) => ScriptFault::Memory(source),
    }
}

/// The script of the lines of a text, or the first line with a fault.
fn read_lines(alloc: Global, text: &[u8], lines: &[Span]) -> Result<Script, (u32, ScriptFault)>
    requires room { length text.now ≤ MAX_SCRIPT_BYTES }
    requires inside { All (IsInside text.now) lines.now }
    requires few { length lines.now ≤ MAX_SCRIPT_BYTES + 1 }
    ensures good { IfOk result (λ script. ScriptFrom text.now Top lines.now script) }
    ensures only { (script : Script) → ScriptFrom text.now Top lines.now script → GivesScript result script }
    ensures fault { IfErr result (λ at. UnlessMemory (λ f. FaultFrom text.now 1 Top lines.now at.0 f) at.1) }
{
    let mut place = Place::Top;
    let mut number = 0;
    while number < lines.len() {
        let line = bytes_of(text, lines[number]);
        number += 1;
        place = match after(alloc, text, &lines[number..], place, line) {
            Ok(next) => next,
            Err(stop) => return Err((number as u32, told(stop))),
        };
    }
    match script_at(alloc, place) {
        Ok(script) => Ok(script),
        Err(stop) => Err((number as u32 + 1, told(stop))),
    }
}

/// The line in which a byte stands, from 1.
fn line_at(text: &[u8], place: usize) -> usize
    requires { place ≤ length text.now }
    ensures { result ≡ count_by is_line_feed (take place text.now) + 1 }
{
    text[..place].iter().filter(|byte| **byte == b'\n').count() + 1
}

/// Reads a text whose faults are told by its own parts.
fn read_text(alloc: Global, bytes: &[u8]) -> Result<Script, (u32, ScriptFault)>
    requires { length bytes.now ≤ MAX_SCRIPT_BYTES }
    ensures good { IfOk result (ScriptText bytes.now) }
    ensures only { (script : Script) → ScriptText bytes.now script → GivesScript result script }
    ensures fault { IfErr result (λ at. IsScriptFault bytes.now at.0 at.1) }
{
    match split_lines(alloc, bytes) {
        Ok(lines) => read_lines(alloc, bytes, &lines),
        Err(TextFault::Memory(source)) => Err((0, ScriptFault::Memory(source))),
        Err(TextFault::LongLine(number)) => {
            Err((number, ScriptFault::Text(TextFault::LongLine(number))))
        }
        Err(TextFault::NotAscii(place)) => {
            let number = line_at(bytes, place as usize);
            Err((number as u32, ScriptFault::Text(TextFault::NotAscii(place))))
        }
    }
}

/// Reads a script: the parameters and the home that the last lines of each kind set, the plans by their names, and a
/// boot with the inputs and turns of its actors. A fault has its line, from 1; what is missing at the end of the script
/// has the line behind the last.
#[tactic(auto, using(crate::proofs::Flying::text_flyable))]
pub fn read_script(alloc: Global, bytes: &[u8]) -> Result<Script, (u32, ScriptFault)>
    requires { length bytes.now ≤ MAX_SCRIPT_BYTES }
    // What is read is the script that the text is, and the text of every script is read.
    ensures good { IfOk result (ScriptText bytes.now) }
    ensures only { (script : Script) → ScriptText bytes.now script → GivesScript result script }
    // Any other text is refused with its first fault.
    ensures fault { IfErr result (λ at. IsScriptFault bytes.now at.0 at.1) }
    // What is read keeps within what is flown today.
    ensures flyable { IfOk result IsFlyable }
{
    read_text(alloc, bytes)
}
