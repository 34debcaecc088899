//! A root place: which root is there, and its bytes.

ghost use Rattle.std.specs.Prelude.{◌≡◌, IfOk, Some, None};
ghost use Rattle.pool_law.specs.Leaks.{capacity_in};
ghost use Rattle.pool_law.specs.Roots.{new_place, place_step, vacant_step, may_be_born};
ghost use Rattle.object_steps.specs.Telling.{told_by};

mod stepping;

use crate::place::stepping::present_step;
use crate::told::PlaceTold;
use pool_law::{Did, RegionId, RootId};
use std::alloc::{AllocError, Global};
use std::marker::Model;

/// A root that is present, with its region and its bytes.
#[derive(Drop)]
pub struct Present {
    root: RootId,
    region: RegionId,
    bytes: Vec<u8>,
}

impl Model for Present {
    ghost use Rattle.pool_law.specs.Roots.{Present};

    ghost Value = { Present };

    ghost view = { λ p. record { root = p.root; region = p.region; bytes = p.bytes.items } };
}

impl Present {
    // What is told of a note that comes next.
    fn told(&self, did: &Did) -> PlaceTold
        ensures { result ≡ told_by did.now (Some self.now) }
    {
        let (root, region) = match did {
            Did::Set { .. } | Did::Get { .. } | Did::Touch | Did::Room { .. } | Did::Extend(_) => (
                Some(self.root),
                None,
            ),
            Did::Grow { .. } => (Some(self.root), Some(self.region)),
            Did::End(_) => (None, Some(self.region)),
            _ => (None, None),
        };
        PlaceTold { root, region }
    }
}

/// A root place: the generation of the last birth there, and what is present.
#[derive(Drop)]
pub struct RootPlace {
    generation: u32,
    present: Option<Present>,
}

impl Model for RootPlace {
    ghost use Rattle.pool_law.specs.Roots.{RootPlace};

    ghost Value = { RootPlace };

    ghost view = { λ p. record { generation = p.generation; present = p.present } };
}

impl RootPlace {
    /// A root place at first.
    pub fn new() -> RootPlace
        ensures { result ≡ new_place }
    {
        RootPlace {
            generation: 0,
            present: None,
        }
    }

    /// How many bytes a root has here: as many as are there, or those of its birth where none lives.
    pub(crate) fn capacity_of(&self, root: &RootId) -> usize
        ensures { result ≡ capacity_in root.now self.now.present }
    {
        match &self.present {
            None => root.capacity as usize,
            Some(present) => present.bytes.len(),
        }
    }

    /// What is told of a note that comes next.
    pub(crate) fn told(&self, did: &Did) -> PlaceTold
        ensures { result ≡ told_by did.now self.now.present }
    {
        match &self.present {
            None => PlaceTold {
                root: None,
                region: None,
            },
            Some(present) => present.told(did),
        }
    }

    /// The place after a note, and none where the note may not stand.
    pub fn step(self, alloc: Global, place: u32, did: &Did) -> Result<Option<RootPlace>, AllocError>
        ensures { IfOk result (λ next. next ≡ place_step place self did.now) }
    {
        let RootPlace {
            generation,
            present,
        } = self;
        match present {
            None => vacant_step(alloc, place, generation, did),
            Some(root) => present_step(generation, root, did),
        }
    }
}

// A vacant place after a note.
fn vacant_step(
    alloc: Global,
    place: u32,
    generation: u32,
    did: &Did,
) -> Result<Option<RootPlace>, AllocError>
    ensures { IfOk result (λ next. next
        ≡ vacant_step place (record { generation = generation; present = None }) did.now) }
{
    match did {
        Did::Birth { root, region } => {
            if may_be_born(place, generation, root, region) {
                let bytes = vec![in alloc; 0u8; root.capacity as usize]?;
                Ok(Some(RootPlace {
                    generation: root.generation,
                    present: Some(Present {
                        root: *root,
                        region: *region,
                        bytes,
                    }),
                }))
            } else {
                Ok(None)
            }
        }
        _ => Ok(None),
    }
}

// Whether the root may be born at this place, which is vacant.
fn may_be_born(place: u32, generation: u32, root: &RootId, region: &RegionId) -> bool
    ensures { result ≡ may_be_born place (record { generation = generation; present = None })
        root.now region.now }
{
    root.place == place
        && (root.generation > generation
            && root.generation - 1 == generation
            && root.capacity <= region.place.len)
}
