//! What the history of a root place tells of its notes.

ghost use Rattle.std.specs.Prelude.{◌≡◌, option_map, IfOk};
ghost use Rattle.pool_law.specs.Roots.{new_place};
ghost use Rattle.pool_law.specs.Histories.{place_after};
ghost use Rattle.object_steps.specs.Behind.{dids_behind};
ghost use Rattle.object_steps.specs.Telling.{told_of_each};

use crate::place::RootPlace;
use crate::told::PlaceTold;
use pool_law::Did;
use std::alloc::{AllocError, Global};

/// What is told of each note at a root place, and none where one of them may not stand.
pub fn told_of_each(
    alloc: Global,
    number: u32,
    dids: &[&Did],
) -> Result<Option<Vec<PlaceTold>>, AllocError>
    ensures { IfOk result (λ told. option_map (λ t. t.items) told
        ≡ option_map (λ _. told_of_each number new_place (dids_behind dids.now))
        (place_after number (dids_behind dids.now))) }
{
    let mut told = Vec::new(alloc);
    let mut place = RootPlace::new();
    for did in dids {
        let here = place.told(did);
        match place.step(alloc, number, did)? {
            Some(next) => place = next,
            None => return Ok(None),
        }
        told.push(here)?;
    }
    Ok(Some(told))
}
