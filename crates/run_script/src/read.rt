//! A whole script: its lines are gone over one by one, and what they stated is the script.

ghost use Rattle.std.specs.Prelude.{◌≡◌, ◌+◌, ◌≤◌, length, take, count_by, All, IfOk, IfErr};
ghost use Rattle.nav_text.specs.Lines.{is_line_feed};
ghost use Rattle.nav_text.specs.Spans.{text_of, IsInside};
ghost use Rattle.mission_model.specs.declared.schedule.Script.{Script};
ghost use Rattle.run_script.specs.Scripts.{LinesScript, LinesFault, ScriptText, IsScriptFault, GivesScript, UnlessMemory};
ghost use Rattle.run_script.specs.Limits.{ScriptInLimits};
ghost use Rattle.run_script.specs.Steps.{told};

use crate::draft::Draft;
use crate::fault::{ScriptFault, Stop};
use crate::lines::step;
use mission_model::Script;
use nav_text::{MAX_TEXT_BYTES, Span, TextFault, split_lines};
use std::alloc::Global;

/// The fault that is told of a line.
fn told(stop: Stop) -> ScriptFault
    ensures { result ≡ told stop }
{
    match stop {
        Stop::Fault(fault) => fault,
        Stop::Memory(source) => ScriptFault::Memory(source),
    }
}

/// The script of the lines of a text, or the first line with a fault.
fn read_lines(alloc: Global, text: &[u8], lines: &[Span]) -> Result<Script, (u32, ScriptFault)>
    requires room { length text.now ≤ MAX_TEXT_BYTES }
    requires inside { All (IsInside text.now) lines.now }
    requires few { length lines.now ≤ MAX_TEXT_BYTES + 1 }
    ensures good { IfOk result (λ script. LinesScript text.now lines.now script) }
    ensures only { (script : Script) → LinesScript text.now lines.now script → GivesScript result script }
    ensures fault { IfErr result (λ at. UnlessMemory (λ f. LinesFault text.now lines.now at.0 f) at.1) }
{
    let mut draft = Draft::new(alloc);
    let mut within = false;
    let mut number = 0;
    while number < lines.len() {
        let span = lines[number];
        number += 1;
        within = match step(&mut draft, alloc, text, &lines[number..], span, within) {
            Ok(next) => next,
            Err(stop) => return Err((number as u32, told(stop))),
        };
    }
    if !draft.is_whole() {
        return Err((number as u32 + 1, ScriptFault::Unfinished));
    }
    match draft.finish(alloc) {
        Ok(script) => Ok(script),
        Err(stop) => Err((number as u32 + 1, told(stop))),
    }
}

/// The line in which a byte stands, from 1.
fn line_at(text: &[u8], place: usize) -> usize
    requires { place ≤ length text.now }
    ensures { result ≡ count_by is_line_feed (take place text.now) + 1 }
{
    text[..place].iter().filter(|byte| **byte == b'\n').count() + 1
}

/// Reads a text whose faults are told by its own parts.
fn read_text(alloc: Global, bytes: &[u8]) -> Result<Script, (u32, ScriptFault)>
    requires { length bytes.now ≤ MAX_TEXT_BYTES }
    ensures good { IfOk result (ScriptText bytes.now) }
    ensures only { (script : Script) → ScriptText bytes.now script → GivesScript result script }
    ensures fault { IfErr result (λ at. IsScriptFault bytes.now at.0 at.1) }
{
    match split_lines(alloc, bytes) {
        Ok(lines) => read_lines(alloc, bytes, &lines),
        Err(TextFault::Memory(source)) => Err((0, ScriptFault::Memory(source))),
        Err(TextFault::LongLine(number)) => {
            Err((number, ScriptFault::Text(TextFault::LongLine(number))))
        }
        Err(TextFault::NotAscii(place)) => {
            let number = line_at(bytes, place as usize);
            Err((number as u32, ScriptFault::Text(TextFault::NotAscii(place))))
        }
    }
}

/// Reads a script: the parameters and the home that the last lines of each kind set, the plans by their names, and the
/// boots with their cuts and the inputs and turns of their actors. A fault has its line, from 1; what is missing at the
/// end of the script has the line behind the last.
pub fn read_script(alloc: Global, bytes: &[u8]) -> Result<Script, (u32, ScriptFault)>
    requires { length bytes.now ≤ MAX_TEXT_BYTES }
    // What is read is the script that the text is, and the text of every script is read.
    ensures good { IfOk result (ScriptText bytes.now) }
    ensures only { (script : Script) → ScriptText bytes.now script → GivesScript result script }
    // Any other text is refused with its first fault.
    ensures fault { IfErr result (λ at. IsScriptFault bytes.now at.0 at.1) }
    // What is read can be run.
    ensures limits { IfOk result ScriptInLimits }
{
    read_text(alloc, bytes)
}
