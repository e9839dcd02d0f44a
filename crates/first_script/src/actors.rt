//! The actors that a line `turns` names.

ghost use Rattle.std.specs.Prelude.{◌≡◌, ◌≤◌, length, drop, is_some};
ghost use Rattle.std.specs.List.{list_all};
ghost use Rattle.first_text.specs.Words.{words_in};
ghost use Rattle.first_script.specs.Actors.{is_actor, is_numbered, actor_of};

use crate::words::next_word;
use first_model::Actor;

/// Whether a name is a letter and a digit from 0 to a last one.
fn is_numbered(letter: u8, last: u8, name: &[u8]) -> bool
    ensures { result ≡ is_numbered letter last name.now }
{
    name.len() == 2 && name[0] == letter && b'0' <= name[1] && name[1] <= last
}

#[tactic(auto, unfolding(crate::specs::Actors::is_actor))]
fn is_actor(name: &[u8]) -> bool
    ensures { result ≡ is_actor name.now }
{
    name == b"w".as_slice()
        || name == b"n".as_slice()
        || is_numbered(b'l', b'7', name)
        || is_numbered(b'v', b'3', name)
}

/// The actor of a name, where a run of today may have it.
#[tactic(auto, unfolding(crate::specs::Actors::actor_of))]
pub(crate) fn actor_of(name: &[u8]) -> Option<Actor>
    ensures { result ≡ actor_of name.now }
{
    if name == b"w".as_slice() {
        Some(Actor::Worker)
    } else if name == b"n".as_slice() {
        Some(Actor::Nav)
    } else if name == b"l0".as_slice() {
        Some(Actor::Link(0))
    } else {
        None
    }
}

/// What stands behind the first word of a line.
pub(crate) fn behind_first(line: &[u8]) -> &[u8]
    ensures { words_in result.now ≡ drop 1 (words_in line.now) }
{
    match next_word(line) {
        Some((_, behind)) => behind,
        None => line,
    }
}

/// Whether each word is an actor's name.
pub(crate) fn are_actors(words: &[u8]) -> bool
    ensures { result ≡ list_all is_actor (words_in words.now) }
{
    match next_word(words) {
        Some((name, behind)) => is_actor(name) && are_actors(behind),
        None => true,
    }
}

/// Whether each word is the name of an actor that a run of today may have.
pub(crate) fn are_built_actors(words: &[u8]) -> bool
    ensures { result ≡ list_all (λ name. is_some (actor_of name)) (words_in words.now) }
{
    match next_word(words) {
        Some((name, behind)) => actor_of(name).is_some() && are_built_actors(behind),
        None => true,
    }
}
