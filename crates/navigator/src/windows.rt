//! The windows on the plans: caches of a fixed number of places each, and what their adopted heads say.

ghost use Rattle.std.specs.Prelude.{◌≡◌, ◌<◌, IfOk};
ghost use Rattle.client_cache.specs.CacheState.{has_id, id_of};
ghost use Rattle.navigator.specs.EventLaw.{new_window};

use client_cache::Cache;
use mission_model::{Client, PlanHead, PlanType};
use std::alloc::{AllocError, Global};

/// How many items of the mission a window has places for.
pub const MISSION_PLACES: u16 = 32;
/// How many vertices of the fence, and how many safe points.
pub const OTHER_PLACES: u16 = 16;

/// A window of so many places on a plan of which nothing is known yet.
pub fn window(
    alloc: Global,
    kind: PlanType,
    places: u16,
    head: PlanHead,
) -> Result<Cache, AllocError>
    requires { 0 < places }
    ensures { IfOk result (λ cache. cache ≡ new_window kind places head) }
{
    let mut cache = Cache::new(alloc, Client::Nav, kind, places)?;
    cache.adopt(head);
    Ok(cache)
}

/// Whether the adopted plan has this id.
pub fn has_id(head: Option<PlanHead>, id: u32) -> bool
    ensures { result ≡ has_id head id }
{
    match head {
        Some(head) => head.id == id,
        None => false,
    }
}

/// The adopted plan's id, 0 where none was adopted.
pub fn id_of(head: Option<PlanHead>) -> u32
    ensures { result ≡ id_of head }
{
    match head {
        Some(head) => head.id,
        None => 0,
    }
}
