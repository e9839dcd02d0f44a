//! The commands of the program, and the words that name one.

ghost use Rattle.std.specs.Prelude.{◌≡◌, MatchResult, option_map};
ghost use Rattle.clap.specs.Walk.{texts};
ghost use Rattle.flight_words.specs.Commands.{named, told, task_in, Asks, IsRefused};

use crate::program::{Given, matched};
use crate::row::{row_of, word_named};
use mission_model::PlanType;
use std::alloc::Global;

/// A command of the program, with its value and its store.
#[derive(Clone, Copy, Debug, Drop)]
pub enum Command<'a> {
    /// `fly`, over the store at a path or over one in memory.
    Fly(Option<&'a str>),
    /// `replay`, over the store at a path or over one in memory.
    Replay(Option<&'a str>),
    /// `check` with a plan's type.
    Check(PlanType),
    /// `init` of a store at a path.
    Init(&'a str),
    /// `case` with a number.
    Case(u32),
    /// `survey`.
    Survey,
    /// `audit`.
    Audit,
}

/// Why words name no command.
#[derive(Clone, Copy, Debug, Drop)]
pub enum WordsFault {
    /// They are no command's.
    Usage,
    /// There was no memory to read them.
    Memory,
}

/// The command that the words after the program's name are: `fly [--store P]`, `replay [--store P]`, `check` with `mission`,
/// `fence` or `safe`, `init --store P`, `case` with a number below 2^32 of one to ten digits, `survey`, or `audit`.
pub fn read_words<'a>(alloc: Global, words: &'a [&'a str]) -> Result<Command<'a>, WordsFault>
    ensures { MatchResult result (λ command. Asks (texts words.entry.now) (named command)) (IsRefused (texts words.entry.now)) }
{
    match command_of(matched(alloc, words)?) {
        Some(command) => Ok(command),
        None => Err(WordsFault::Usage),
    }
}

/// The command that these are, if they are a row of the table.
fn command_of(given: Given<'_>) -> Option<Command<'_>>
    ensures { option_map named result ≡ task_in (told given.entry) }
{
    let word = word_named(given.name?)?;
    row_of(word, given.value, given.store)
}
