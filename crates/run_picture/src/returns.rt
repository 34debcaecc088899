//! By which note each taking came back, of the notes that were seen.

ghost use Rattle.std.specs.Prelude.{◌≡◌, Some, None, OnOk, if◌then◌else◌};
ghost use Rattle.pool_law.specs.declared.id.RegionId.{RegionId};
ghost use Rattle.pool_law.specs.Same.{same_taking};
ghost use Rattle.run_picture.specs.Returning.{key_of, return_in};

use crate::blocks::Return;
use pool_law::RegionId;
use std::alloc::{AllocError, Global};
use std::collections::HashMap;

/// What two regions must have in common to be one taking.
type Key = ((u32, (u32, (u32, u32))), (u32, (u64, u32)));

/// The note that gives each taking back.
#[derive(Drop)]
pub struct Returns {
    map: HashMap<Key, Return>,
}

fn key_of(r: &RegionId) -> Key
    ensures { result ≡ key_of r.now }
{
    (
        (
            r.place.arena,
            (r.place.chunk, (r.place.offset, r.place.len)),
        ),
        (r.class, (r.taking, r.owner)),
    )
}

impl Returns {
    /// Nothing has come back.
    pub fn new(alloc: Global) -> Returns
        ensures { (r : RegionId) → return_in result r ≡ None }
    {
        Returns {
            map: HashMap::new(alloc),
        }
    }

    /// The note that gives a taking back.
    pub fn of(&self, region: &RegionId) -> Option<Return>
        ensures { result ≡ return_in self.now region.now }
    {
        self.map.get(&key_of(region)).copied()
    }

    /// This note gives a taking back, and no other does.
    pub fn put(&mut self, region: &RegionId, back: Return) -> Result<(), AllocError>
        ensures { (r : RegionId) → OnOk result (return_in self.new r
            ≡ (if same_taking region.now r then Some back else return_in self.old r)) }
    {
        self.map.insert(key_of(region), back)?;
        Ok(())
    }
}
