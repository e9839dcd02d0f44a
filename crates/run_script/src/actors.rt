//! The actors that a line `turns` names.

ghost use Rattle.std.specs.Prelude.{◌≡◌, ◌≤◌, length, is_some};
ghost use Rattle.std.specs.List.{list_all};
ghost use Rattle.nav_text.specs.Cursors.{IsWithin, words_left};
ghost use Rattle.run_script.specs.Actors.{is_numbered, actor_of};

use mission_model::Actor;
use nav_text::{Span, WordCursor};

/// Whether a name is a letter and a digit from 0 to a last one.
fn is_numbered(letter: u8, last: u8, name: &[u8]) -> bool
    ensures { result ≡ is_numbered letter last name.now }
{
    name.len() == 2 && name[0] == letter && b'0' <= name[1] && name[1] <= last
}

/// The actor of a name.
#[tactic(auto, unfolding(crate::specs::Actors::actor_of))]
pub(crate) fn actor_of(name: &[u8]) -> Option<Actor>
    ensures { result ≡ actor_of name.now }
{
    if name == b"w".as_slice() {
        Some(Actor::Worker)
    } else if name == b"n".as_slice() {
        Some(Actor::Nav)
    } else if is_numbered(b'l', b'7', name) {
        Some(Actor::Link(name[1] - b'0'))
    } else if is_numbered(b'v', b'3', name) {
        Some(Actor::Watch(name[1] - b'0'))
    } else {
        None
    }
}

/// Whether each word that is left is the name of an actor.
pub(crate) fn are_actors(text: &[u8], words: WordCursor) -> bool
    requires { IsWithin text.now words }
    ensures { result ≡ list_all (λ name. is_some (actor_of name)) (words_left text.now words) }
{
    let mut rest = words;
    match rest.next(text) {
        Some(name) => {
            actor_of(&text[name.from as usize..name.to as usize]).is_some()
                && are_actors(text, rest)
        }
        None => true,
    }
}
