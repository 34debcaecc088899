//! A bin: the places of a lane that have no root and that nobody holds.

ghost use Rattle.std.specs.Prelude.{
  ◌≡◌,
  ◌≤◌,
  ◌∷◌,
  ◌++◌,
  [],
  false,
  IfOk,
  OnOk,
  IfSome,
  IfNone,
};
ghost use Rattle.pool_law.specs.Caches.{bin_step, new_bin, has_place};
ghost use Rattle.object_steps.specs.Homing.{AreAtHome};

use pool_law::Did;
use std::alloc::{AllocError, Global};
use std::collections::{BTreeSet, VecDeque};
use std::marker::Model;

/// The places of a bin, first in, first out, and the same places as a set.
///
/// A place is kept in 64 bits, since a run may name a lane that has no place in 32.
#[derive(Drop)]
pub struct Bin {
    places: VecDeque<u64>,
    home: BTreeSet<u64>,
}

impl Model for Bin {
    ghost use Rattle.std.specs.Prelude.{List, ℕ};
    ghost use Rattle.object_steps.specs.Homing.{AreAtHome};

    ghost Value = { List ℕ };

    ghost view = { λ b. b.places.items };

    ghost invariant = { λ b. AreAtHome b.home b.places.items };
}

impl Bin {
    /// The bin of a lane with so many handles, at first.
    #[tactic(auto, using(crate::proofs::BinLemmas::one_more))]
    pub fn new(alloc: Global, lane: u32, handles: u32) -> Result<Bin, AllocError>
        ensures { IfOk result (λ bin. bin ≡ new_bin lane handles) }
    {
        let mut places = VecDeque::new(alloc);
        let mut home = BTreeSet::new(alloc);
        let first = u64::from(lane) * u64::from(handles);
        for index in 0..handles {
            put_place(&mut places, &mut home, first + u64::from(index))?;
        }
        Ok(Bin { places, home })
    }

    /// The bin after a note, and none where the note may not stand.
    pub fn step(self, lane: u32, handles: u32, did: &Did) -> Result<Option<Bin>, AllocError>
        requires { 1 ≤ handles }
        ensures { IfOk result (λ next. next ≡ bin_step lane handles self did.now) }
    {
        let Bin {
            mut places,
            mut home,
        } = self;
        match did {
            Did::Handle(place) => match take_place(&mut places, &mut home) {
                Some(front) => {
                    if front == u64::from(*place) {
                        Ok(Some(Bin { places, home }))
                    } else {
                        Ok(None)
                    }
                }
                None => Ok(None),
            },
            Did::NoHandle => {
                if places.is_empty() {
                    Ok(Some(Bin { places, home }))
                } else {
                    Ok(None)
                }
            }
            Did::Home(place) => {
                if *place / handles == lane && !home.contains(&u64::from(*place)) {
                    put_place(&mut places, &mut home, u64::from(*place))?;
                    Ok(Some(Bin { places, home }))
                } else {
                    Ok(None)
                }
            }
            _ => Ok(None),
        }
    }
}

// One more place, which is not among these.
fn put_place(
    places: &mut VecDeque<u64>,
    home: &mut BTreeSet<u64>,
    place: u64,
) -> Result<(), AllocError>
    requires home { AreAtHome home.old places.old.items }
    requires other { has_place place places.old.items ≡ false }
    ensures items { OnOk result (places.new.items ≡ places.old.items ++ place ∷ []) }
    ensures home { OnOk result (AreAtHome home.new places.new.items) }
{
    places.push_back(place)?;
    home.insert(place)?;
    Ok(())
}

// The place in front, which is taken, and none where there is no place.
fn take_place(places: &mut VecDeque<u64>, home: &mut BTreeSet<u64>) -> Option<u64>
    requires { AreAtHome home.old places.old.items }
    ensures some { IfSome result (λ front. places.old.items ≡ front ∷ places.new.items) }
    ensures none { IfNone result (places.old.items ≡ []) }
    ensures home { AreAtHome home.new places.new.items }
{
    let front = places.pop_front()?;
    home.remove(&front);
    Some(front)
}
