//! The table of the commands: which names, values and stores go together.

ghost use Rattle.std.specs.Prelude.{◌≡◌, option_map};
ghost use Rattle.flight_words.specs.Commands.{named, row, text_of, word_named, kind_named, number_named, Check, Case};

use crate::command::Command;
use mission_model::PlanType;
use nav_num::read_whole;

/// The names of the commands.
#[derive(Clone, Copy, Drop)]
pub(crate) enum Word {
    Fly,
    Replay,
    Check,
    Init,
    Case,
    Survey,
    Audit,
}

/// The command that a name makes with this value and this store, if they are a row of the table.
pub(crate) fn row_of<'a>(
    word: Word,
    value: Option<&str>,
    store: Option<&'a str>,
) -> Option<Command<'a>>
    ensures { option_map named result ≡ row word (text_of value.entry) (text_of store.entry) }
{
    match (word, value, store) {
        (Word::Fly, None, path) => Some(Command::Fly(path)),
        (Word::Replay, None, path) => Some(Command::Replay(path)),
        (Word::Check, Some(kind), None) => check_of(kind),
        (Word::Init, None, Some(path)) => Some(Command::Init(path)),
        (Word::Case, Some(number), None) => case_of(number),
        (Word::Survey, None, None) => Some(Command::Survey),
        (Word::Audit, None, None) => Some(Command::Audit),
        _ => None,
    }
}

/// The command that a name is of.
pub(crate) fn word_named(name: &str) -> Option<Word>
    ensures { result ≡ word_named name.now }
{
    match name {
        "fly" => Some(Word::Fly),
        "replay" => Some(Word::Replay),
        "check" => Some(Word::Check),
        "init" => Some(Word::Init),
        "case" => Some(Word::Case),
        "survey" => Some(Word::Survey),
        "audit" => Some(Word::Audit),
        _ => None,
    }
}

/// `check` of the plan type of this name.
fn check_of<'a>(name: &str) -> Option<Command<'a>>
    ensures { option_map named result ≡ option_map Check (kind_named name.now) }
{
    match name {
        "mission" => Some(Command::Check(PlanType::Mission)),
        "fence" => Some(Command::Check(PlanType::Fence)),
        "safe" => Some(Command::Check(PlanType::Safe)),
        _ => None,
    }
}

/// `case` of this number.
fn case_of<'a>(number: &str) -> Option<Command<'a>>
    ensures { option_map named result ≡ option_map Case (number_named number.now) }
{
    match read_whole(number.as_bytes(), 0, u32::MAX) {
        Ok(number) => Some(Command::Case(number)),
        Err(_) => None,
    }
}
