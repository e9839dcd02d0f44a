//! The words as `clap` takes them: a command's name, which is required, a value, and the option `--store`. No word in front
//! is the program's name, and no flag asks for help or a version.

ghost use Rattle.std.specs.Prelude.{◌≡◌, IfOk, MatchResult, [], map};
ghost use Rattle.clap.specs.Walk.{texts};
ghost use Rattle.clap.specs.Simple.{app_of};
ghost use Rattle.flight_words.specs.Commands.{program, told, Matches, IsUnmatched};
ghost use Rattle.clap.specs.Faults.{fault_of};
ghost use Rattle.clap.specs.Kinds.{FailsBy};

use crate::command::WordsFault;
use clap::error::ErrorKind;
use clap::{Arg, Command, Error};
use std::alloc::{AllocError, Global};

/// What the words give: the command's name, its value and the path of a store, each if it is there.
#[derive(Clone, Copy, Drop)]
pub(crate) struct Given<'a> {
    pub(crate) name: Option<&'a str>,
    pub(crate) value: Option<&'a str>,
    pub(crate) store: Option<&'a str>,
}

/// What the words give, if they are words that the program takes.
pub(crate) fn matched<'a>(alloc: Global, words: &'a [&'a str]) -> Result<Given<'a>, WordsFault>
    ensures { MatchResult result (λ given. Matches (texts words.entry.now) (told given)) (IsUnmatched (texts words.entry.now)) }
{
    match parsed(alloc, words) {
        Ok(given) => Ok(given),
        Err(error) => match error.kind() {
            ErrorKind::OutOfMemory => Err(WordsFault::Memory),
            _ => Err(WordsFault::Usage),
        },
    }
}

/// What `clap` makes of the words.
fn parsed<'a>(alloc: Global, words: &'a [&'a str]) -> Result<Given<'a>, Error>
    ensures faults { FailsBy (fault_of program (texts words.entry.now)) result }
    ensures matches { IfOk result (λ given. Matches (texts words.entry.now) (told given)) }
{
    let matches = program(alloc)?.try_get_matches_from(words)?;
    Ok(Given {
        name: matches.get_str("command"),
        value: matches.get_str("value"),
        store: matches.get_str("store"),
    })
}

/// The words that the program takes.
fn program<'a>(alloc: Global) -> Result<Command<'a>, AllocError>
    ensures { IfOk result (λ command. app_of command ≡ program) }
{
    let name = Arg::new(alloc, "command").required(true);
    let value = Arg::new(alloc, "value");
    let store = Arg::new(alloc, "store").long("store");
    let bare = Command::new(alloc, "px4_flight")
        .no_binary_name(true)
        .disable_help_flag(true)
        .disable_version_flag(true);
    bare.arg(name)?.arg(value)?.arg(store)
}
