//! The commands, by the words that name them.

ghost use Rattle.std.specs.Prelude.{◌≡◌, MatchOption};
ghost use Rattle.first_record.specs.Plans.{kind_text};
ghost use Rattle.first_runner.specs.Commands.{IsCommand};

use first_model::PlanType;

/// A command.
#[derive(Clone, Copy)]
pub enum Command {
    /// `replay`
    Replay,
    /// `check KIND`
    Check(PlanType),
}

/// The command that the words name, if they name one.
pub fn command_of(words: &[&str]) -> Option<Command>
    ensures { MatchOption result ((command : Command) → IsCommand words.now command → ⊥) (IsCommand words.now) }
{
    if words.len() == 1 && words[0] == "replay" {
        return Some(Command::Replay);
    }
    if words.len() == 2 && words[0] == "check" {
        let Some(kind) = kind_of(words[1]) else {
            return None;
        };
        return Some(Command::Check(kind));
    }
    None
}

/// The plan type that a word names, if it names one.
fn kind_of(word: &str) -> Option<PlanType>
    ensures { MatchOption result ((kind : PlanType) → word.now ≡ kind_text kind → ⊥) (λ kind. word.now ≡ kind_text kind) }
{
    match word {
        "mission" => Some(PlanType::Mission),
        "fence" => Some(PlanType::Fence),
        "safe" => Some(PlanType::Safe),
        _ => None,
    }
}
