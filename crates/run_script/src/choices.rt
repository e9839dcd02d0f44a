//! The words that select a form, and the numbers that some of them stand for.

ghost use Rattle.std.specs.Prelude.{◌≡◌, [], ◌∷◌};
ghost use Rattle.run_script.specs.Choices.{number_in, number_among};

use crate::table::Choice;
use mission_model::ALL_TYPES;

/// The number of a token where one word is wanted.
fn one(token: &[u8], word: &[u8]) -> Option<u8>
    ensures { result ≡ number_in ((word.now, 0) ∷ []) token.now }
{
    if token == word { Some(0) } else { None }
}

/// The number of a token where one of two words is wanted.
fn two(token: &[u8], first: &[u8], second: &[u8]) -> Option<u8>
    ensures { result ≡ number_in ((first.now, 0) ∷ (second.now, 1) ∷ []) token.now }
{
    if token == first {
        Some(0)
    } else if token == second {
        Some(1)
    } else {
        None
    }
}

/// The number of a token where one of three words is wanted.
fn three(token: &[u8], first: &[u8], second: &[u8], third: &[u8]) -> Option<u8>
    ensures { result ≡ number_in ((first.now, 0) ∷ (second.now, 1) ∷ (third.now, 2) ∷ []) token.now }
{
    if token == first {
        Some(0)
    } else if token == second {
        Some(1)
    } else if token == third {
        Some(2)
    } else {
        None
    }
}

/// The number of a token where a type of plans is wanted, or all of them.
#[tactic(auto, unfolding(crate::specs::Choices::number_among))]
fn types(token: &[u8]) -> Option<u8>
    ensures { result ≡ number_among Choice.Types token.now }
{
    if token == b"mission".as_slice() {
        Some(0)
    } else if token == b"fence".as_slice() {
        Some(1)
    } else if token == b"safe".as_slice() {
        Some(2)
    } else if token == b"all".as_slice() {
        Some(ALL_TYPES)
    } else {
        None
    }
}

/// The number of a token in a choice.
#[tactic(auto, unfolding(crate::specs::Choices::number_among))]
pub(crate) fn number_among(choice: Choice, token: &[u8]) -> Option<u8>
    ensures { result ≡ number_among choice token.now }
{
    match choice {
        Choice::TkoLand => one(token, b"TKO_LAND"),
        Choice::TakeoffMin => one(token, b"TAKEOFF_MIN"),
        Choice::MaxAlt => one(token, b"MAX_ALT"),
        Choice::RtlType => one(token, b"RTL_TYPE"),
        Choice::Distance => two(token, b"DIST_1WP", b"DIST_WPS"),
        Choice::Kind => three(token, b"mission", b"fence", b"safe"),
        Choice::Types => types(token),
        Choice::HomeFirst => one(token, b"home-first"),
        Choice::Cut => two(token, b"cut", b"cut-read"),
        Choice::Old => one(token, b"old"),
        Choice::New => one(token, b"new"),
        Choice::Front => one(token, b"front"),
        Choice::Fill => one(token, b"fill"),
        Choice::Count => one(token, b"count"),
        Choice::Item => one(token, b"item"),
        Choice::Clear => one(token, b"clear"),
        Choice::SetCurrent => one(token, b"set-current"),
        Choice::Cancel => one(token, b"cancel"),
        Choice::Timeout => one(token, b"timeout"),
        Choice::Upload => one(token, b"upload"),
        Choice::Wait => one(token, b"wait"),
        Choice::Meet => one(token, b"meet"),
        Choice::Tick => one(token, b"tick"),
        Choice::Go => one(token, b"go"),
        Choice::Reached => one(token, b"reached"),
        Choice::Mode => one(token, b"mode"),
        Choice::Modes => three(token, b"hold", b"mission", b"return"),
        Choice::Position => one(token, b"position"),
        Choice::Do => one(token, b"do"),
    }
}
