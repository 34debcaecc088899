//! The takings of an arena: how many there were, and those that are out.

ghost use Rattle.std.specs.Prelude.{◌≡◌, ◌+◌, [], ◌∷◌, ◌++◌, filter, not, OnOk};
ghost use Rattle.std.specs.List.{list_any};
ghost use Rattle.pool_law.specs.Same.{same_taking};
ghost use Rattle.object_steps.specs.Numbering.{AreNumbered, IsPlaceOf, slot_at};

use crate::same::same_taking;
use pool_law::RegionId;
use std::alloc::{AllocError, Global};
use std::marker::Model;

/// The takings in order, each while it is out.
#[derive(Drop)]
pub struct Takings {
    slots: Vec<Option<RegionId>>,
}

impl Model for Takings {
    ghost use Rattle.std.specs.Prelude.{ℕ, List, length};
    ghost use Rattle.pool_law.specs.declared.id.RegionId.{RegionId};
    ghost use Rattle.object_steps.specs.Numbering.{out_in, AreNumbered};

    ghost Value = { ℕ × List RegionId };

    ghost view = { λ t. (length t.slots.items, out_in t.slots.items) };

    ghost invariant = { λ t. AreNumbered 1 t.slots.items };
}

impl Takings {
    /// No taking.
    pub fn new(alloc: Global) -> Takings
        ensures { result ≡ (0, []) }
    {
        Takings {
            slots: Vec::new(alloc),
        }
    }

    /// How many takings there were.
    pub fn count(&self) -> u64
        ensures { result ≡ self.now.0 }
    {
        self.slots.len() as u64
    }

    /// One more taking, which is out.
    pub fn push(&mut self, region: &RegionId) -> Result<(), AllocError>
        requires { region.now.taking ≡ self.old.0 + 1 }
        ensures { OnOk result (self.new ≡ (self.old.0 + 1, self.old.1 ++ region.now ∷ [])) }
    {
        self.slots.push(Some(*region))?;
        Ok(())
    }

    /// Whether a taking is out.
    pub fn has(&self, region: &RegionId) -> bool
        ensures { result ≡ list_any (λ other. same_taking region.now other) self.now.1 }
    {
        place_of(&self.slots, region).is_some()
    }

    /// A taking is out no more.
    pub fn remove(&mut self, region: &RegionId)
        ensures { self.new ≡ (
          self.old.0,
          filter (λ other. not (same_taking region.now other)) self.old.1,
        ) }
    {
        if let Some(place) = place_of(&self.slots, region) {
            self.slots[place] = None;
        }
    }
}

// The taking at a place, if it is out.
fn slot_at(slots: &[Option<RegionId>], place: usize) -> Option<RegionId>
    ensures { result ≡ slot_at slots.now place }
{
    match slots.get(place) {
        Some(slot) => *slot,
        None => None,
    }
}

// The place at which a taking is out, if it is.
fn place_of(slots: &[Option<RegionId>], region: &RegionId) -> Option<usize>
    requires { AreNumbered 1 slots.now }
    ensures { IsPlaceOf region.now slots.now result }
{
    if region.taking == 0 {
        return None;
    }
    let place = (region.taking - 1) as usize;
    match slot_at(slots, place) {
        Some(other) => {
            if same_taking(region, &other) {
                Some(place)
            } else {
                None
            }
        }
        None => None,
    }
}
