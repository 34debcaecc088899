//! What an object accepts of its notes, and what it tells of them.

ghost use Rattle.std.specs.Prelude.{◌≡◌, ◌+◌, ◌≤◌, ◌^◌, true, IfOk};
ghost use Rattle.pool_law.specs.Limits.{geometry_of};
ghost use Rattle.pool_law.specs.Logs.{Logs, History, dids, of_lane, own, has_history};
ghost use Rattle.object_steps.specs.Behind.{dids_behind};
ghost use Rattle.run_check.specs.Fronts.{AcceptsSoMany, IsBrokenAt, StopsAt};
ghost use Rattle.run_check.specs.Storing.{TellsOf};

use object_steps::{PlaceTold, Sizes, accepts, told_of_each};
use pool_law::{Did, Object, Shape};
use std::alloc::{AllocError, Global};

/// How many of these notes the object accepts, one after another. Where notes are accepted so is each front of
/// them, so the place is found by halves.
pub fn accepted_of(
    alloc: Global,
    shape: &Shape,
    sizes: &Sizes,
    object: &Object,
    dids: &[&Did],
) -> Result<usize, AllocError>
    requires sizes { sizes.now ≡ geometry_of shape.now }
    requires chunks { shape.now.chunks ≤ 2 ^ 16 }
    requires handles { 1 ≤ shape.now.handles }
    requires history { has_history object.now ≡ true }
    ensures { IfOk result (λ n. AcceptsSoMany shape.now object.now (dids_behind dids.now) n) }
{
    let mut accepted = 0;
    let mut beyond = dids.len() + 1;
    while accepted + 1 < beyond {
        let middle = accepted + (beyond - accepted) / 2;
        if accepts(alloc, shape, sizes, object, &dids[..middle])? {
            accepted = middle;
        } else {
            beyond = middle;
        }
    }
    Ok(accepted)
}

/// The first number at which an object does not hold whose notes are no history from this number on: it,
/// or that of a note before it which the object refuses.
pub fn broken_number(
    alloc: Global,
    shape: &Shape,
    sizes: &Sizes,
    object: &Object,
    done: &[&Did],
    number: u64,
) -> Result<u64, AllocError>
    requires sizes { sizes.now ≡ geometry_of shape.now }
    requires chunks { shape.now.chunks ≤ 2 ^ 16 }
    requires handles { 1 ≤ shape.now.handles }
    requires history { has_history object.now ≡ true }
    ensures { (logs : Logs) (h : History) → dids_behind done.now ≡ dids h
        → StopsAt (λ lane. own object.now (of_lane logs lane)) h number
        → IfOk result (IsBrokenAt shape.now logs object.now) }
{
    let accepted = accepted_of(alloc, shape, sizes, object, done)?;
    if accepted < done.len() {
        Ok(accepted as u64 + 1)
    } else {
        Ok(number)
    }
}

/// What an object's history tells of its notes, and none where the object does not accept it.
pub fn told_at(
    alloc: Global,
    shape: &Shape,
    sizes: &Sizes,
    object: &Object,
    dids: &[&Did],
) -> Result<Option<Vec<PlaceTold>>, AllocError>
    requires sizes { sizes.now ≡ geometry_of shape.now }
    requires chunks { shape.now.chunks ≤ 2 ^ 16 }
    requires handles { 1 ≤ shape.now.handles }
    ensures { IfOk result (λ told. TellsOf shape.now object.now (dids_behind dids.now) told) }
{
    if let Object::Root(place) = object {
        return told_of_each(alloc, *place, dids);
    }
    if accepts(alloc, shape, sizes, object, dids)? {
        Ok(Some(Vec::new(alloc)))
    } else {
        Ok(None)
    }
}
