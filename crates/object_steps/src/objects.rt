//! What notes make of an object.

ghost use Rattle.std.specs.Prelude.{◌≡◌, ◌≤◌, ◌^◌, IfOk};
ghost use Rattle.pool_law.specs.Limits.{geometry_of};
ghost use Rattle.pool_law.specs.Histories.{
  arena_after,
  cache_after,
  bin_after,
  place_after,
  accepts,
};
ghost use Rattle.pool_law.specs.Leaks.{capacity_in};
ghost use Rattle.pool_law.specs.Logs.{present_in};
ghost use Rattle.object_steps.specs.Behind.{dids_behind};

use crate::arena::Arena;
use crate::bin::Bin;
use crate::cache::Cache;
use crate::place::RootPlace;
use crate::sizes::Sizes;
use pool_law::{Did, Object, RootId, Shape};
use std::alloc::{AllocError, Global};

/// An arena after these notes, and none where one of them may not stand.
pub fn arena_after(
    alloc: Global,
    shape: &Shape,
    sizes: &Sizes,
    number: u32,
    dids: &[&Did],
) -> Result<Option<Arena>, AllocError>
    requires sizes { sizes.now ≡ geometry_of shape.now }
    requires chunks { shape.now.chunks ≤ 2 ^ 16 }
    ensures { IfOk result (λ arena. arena ≡ arena_after shape.now number (dids_behind dids.now)) }
{
    let mut arena = Arena::new(alloc, sizes, shape.chunks)?;
    for did in dids {
        match arena.step(alloc, sizes, number, did)? {
            Some(next) => arena = next,
            None => return Ok(None),
        }
    }
    Ok(Some(arena))
}

/// The cache of a lane and class after these notes, and none where one of them may not stand.
pub fn cache_after(
    alloc: Global,
    lane: u32,
    class: u32,
    dids: &[&Did],
) -> Result<Option<Cache>, AllocError>
    ensures { IfOk result (λ cache. cache ≡ cache_after lane class (dids_behind dids.now)) }
{
    let mut cache = Cache::new(alloc);
    for did in dids {
        match cache.step(lane, class, did)? {
            Some(next) => cache = next,
            None => return Ok(None),
        }
    }
    Ok(Some(cache))
}

/// The bin of a lane after these notes, and none where one of them may not stand.
pub fn bin_after(
    alloc: Global,
    shape: &Shape,
    lane: u32,
    dids: &[&Did],
) -> Result<Option<Bin>, AllocError>
    requires { 1 ≤ shape.now.handles }
    ensures { IfOk result (λ bin. bin ≡ bin_after shape.now lane (dids_behind dids.now)) }
{
    let mut bin = Bin::new(alloc, lane, shape.handles)?;
    for did in dids {
        match bin.step(lane, shape.handles, did)? {
            Some(next) => bin = next,
            None => return Ok(None),
        }
    }
    Ok(Some(bin))
}

/// A root place after these notes, and none where one of them may not stand.
pub fn place_after(
    alloc: Global,
    number: u32,
    dids: &[&Did],
) -> Result<Option<RootPlace>, AllocError>
    ensures { IfOk result (λ place. place ≡ place_after number (dids_behind dids.now)) }
{
    let mut place = RootPlace::new();
    for did in dids {
        match place.step(alloc, number, did)? {
            Some(next) => place = next,
            None => return Ok(None),
        }
    }
    Ok(Some(place))
}

/// How many bytes a root has after these notes at its place: as many as are there, or those of its birth
/// where none lives there then.
pub fn capacity_after(alloc: Global, root: &RootId, dids: &[&Did]) -> Result<usize, AllocError>
    ensures { IfOk result (λ capacity. capacity
        ≡ capacity_in root.now (present_in (place_after root.now.place (dids_behind dids.now)))) }
{
    match place_after(alloc, root.place, dids)? {
        Some(place) => Ok(place.capacity_of(root)),
        None => Ok(root.capacity as usize),
    }
}

/// Whether these notes are a history of the object. A mail has none.
pub fn accepts(
    alloc: Global,
    shape: &Shape,
    sizes: &Sizes,
    object: &Object,
    dids: &[&Did],
) -> Result<bool, AllocError>
    requires sizes { sizes.now ≡ geometry_of shape.now }
    requires chunks { shape.now.chunks ≤ 2 ^ 16 }
    requires handles { 1 ≤ shape.now.handles }
    ensures { IfOk result (λ good. good ≡ accepts shape.now object.now (dids_behind dids.now)) }
{
    match object {
        Object::Arena(number) => {
            let arena = arena_after(alloc, shape, sizes, *number, dids)?;
            Ok(arena.is_some())
        }
        Object::Cache { lane, class } => {
            let cache = cache_after(alloc, *lane, *class, dids)?;
            Ok(cache.is_some())
        }
        Object::Bin(lane) => {
            let bin = bin_after(alloc, shape, *lane, dids)?;
            Ok(bin.is_some())
        }
        Object::Mail { from: _, to: _ } => Ok(false),
        Object::Root(number) => {
            let place = place_after(alloc, *number, dids)?;
            Ok(place.is_some())
        }
    }
}
