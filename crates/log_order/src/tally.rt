//! How many steps of each kind were made, and whether a note fits them.

ghost use Rattle.std.specs.Prelude.{◌≡◌, ◌+◌, ◌≤◌, ◌^◌, nat_lt, OnOk};
ghost use Rattle.pool_law.specs.Kinds.{passing};
ghost use Rattle.pool_law.specs.declared.note.RefDid.TheVariants.{Born, Vacated};
ghost use Rattle.log_order.specs.Tallying.{Key, AreAtMost, one_at, note_key, note_key_beside, count_in, at_in, alike_in, finds_in, gained_in, lost_in, leaves_in, ref_fits_in, fits_in};

use crate::keys::{
    BORN, BORN_AT, COMES, END, GOES, Key, RELEASE, RETAIN, STAYS, VACATED, VACATED_AT, note_key,
    note_key_beside, place_key, root_key, way_key, way_of,
};
use crate::precedence::has_history;
use pool_law::{Did, Note, Object, RefDid, RootId};
use std::alloc::{AllocError, Global};
use std::collections::BTreeMap;

/// How many steps of each kind were made.
#[derive(Drop)]
pub struct Tally {
    map: BTreeMap<Key, u128>,
}

impl Tally {
    /// No step was made.
    pub(crate) fn new(alloc: Global) -> Tally
        ensures { (key : Key) → count_in result key ≡ 0 }
    {
        Tally {
            map: BTreeMap::new(alloc),
        }
    }

    // How many were counted under a key.
    fn of(&self, key: Key) -> u128
        ensures { result ≡ count_in self.now key }
    {
        match self.map.get(&key) {
            Some(count) => *count,
            None => 0,
        }
    }

    // How many were counted under a key, where they are few.
    fn few(&self, key: Key) -> u128
        requires { AreAtMost (2 ^ 66) self.now }
        ensures count { result ≡ count_in self.now key }
        ensures few { result ≤ 2 ^ 66 }
    {
        self.of(key)
    }

    // Counts one under a key, if there is one.
    fn add(&mut self, key: Option<Key>) -> Result<(), AllocError>
        requires { AreAtMost (2 ^ 66) self.old }
        ensures { (other : Key) → OnOk result
            (count_in self.new other ≡ count_in self.old other + one_at other key) }
    {
        let Some(key) = key else {
            return Ok(());
        };
        let count = self.few(key) + 1;
        self.map.insert(key, count)?;
        Ok(())
    }

    /// Counts a note.
    pub(crate) fn pass(&mut self, note: &Note) -> Result<(), AllocError>
        requires { AreAtMost (2 ^ 65) self.old }
        ensures { (key : Key) → OnOk result (count_in self.new key ≡ count_in self.old key
            + (one_at key (note_key note.now) + one_at key (note_key_beside note.now))) }
    {
        self.add(note_key(note))?;
        self.add(note_key_beside(note))
    }

    // How many notes were made at an object.
    fn at(&self, object: &Object) -> u128
        requires { AreAtMost (2 ^ 66) self.now }
        ensures count { result ≡ at_in self.now object.now }
        ensures few { result ≤ 2 ^ 68 }
    {
        let stays = self.few(way_key(STAYS, object));
        let goes = self.few(way_key(GOES, object));
        let comes = self.few(way_key(COMES, object));
        stays + goes + comes
    }

    // How many were made with which a note at an object is numbered.
    fn alike(&self, object: &Object, did: &Did) -> u128
        requires { AreAtMost (2 ^ 66) self.now }
        ensures count { result ≡ alike_in self.now object.now did.now }
        ensures few { result ≤ 2 ^ 68 }
    {
        if has_history(object) {
            self.at(object)
        } else {
            self.few(way_key(way_of(did), object))
        }
    }

    // Whether a fetch finds its post.
    fn finds(&self, object: &Object, number: u64, did: &Did) -> bool
        ensures { result ≡ finds_in self.now object.now number (passing did.now) }
    {
        match did {
            Did::Fetch(_) => number as u128 <= self.of(way_key(GOES, object)),
            _ => true,
        }
    }

    // The counts of a root that were gained.
    fn gained(&self, root: &RootId) -> u128
        requires { AreAtMost (2 ^ 66) self.now }
        ensures { result ≡ gained_in self.now root.now }
    {
        self.few(root_key(BORN, root)) + self.few(root_key(RETAIN, root))
    }

    // The counts of a root that were lost.
    fn lost(&self, root: &RootId) -> u128
        requires { AreAtMost (2 ^ 66) self.now }
        ensures count { result ≡ lost_in self.now root.now }
        ensures few { result ≤ 2 ^ 66 }
    {
        self.few(root_key(RELEASE, root))
    }

    // Whether so many counts of a root are left.
    fn leaves(&self, root: &RootId, count: u32) -> bool
        requires { AreAtMost (2 ^ 66) self.now }
        ensures { result ≡ leaves_in self.now root.now count }
    {
        self.gained(root) == self.lost(root) + count as u128
    }

    // Whether more than so many counts of a root are left.
    fn leaves_more(&self, root: &RootId, count: u32) -> bool
        requires { AreAtMost (2 ^ 66) self.now }
        ensures { result
            ≡ nat_lt (lost_in self.now root.now + count) (gained_in self.now root.now) }
    {
        self.lost(root) + (count as u128) < self.gained(root)
    }

    // Whether a root may be born.
    fn born_fits(&self, root: &RootId) -> bool
        requires { AreAtMost (2 ^ 66) self.now }
        ensures { result ≡ ref_fits_in self.now root.now Born }
    {
        let born = self.few(place_key(BORN_AT, root.place));
        let vacated = self.few(place_key(VACATED_AT, root.place));
        let none = self.leaves(root, 0);
        root.generation as u128 == born + 1 && (vacated == born && none)
    }

    // Whether the place of a root may be vacated of it.
    fn vacated_fits(&self, root: &RootId) -> bool
        requires { AreAtMost (2 ^ 66) self.now }
        ensures { result ≡ ref_fits_in self.now root.now Vacated }
    {
        let vacated = self.few(root_key(VACATED, root));
        let ends = self.few(root_key(END, root));
        let none = self.leaves(root, 0);
        ends == vacated + 1 && none
    }

    // Whether a step on the count of a root fits.
    fn ref_fits(&self, root: &RootId, did: RefDid) -> bool
        requires { AreAtMost (2 ^ 66) self.now }
        ensures { result ≡ ref_fits_in self.now root.now did }
    {
        match did {
            RefDid::Born => self.born_fits(root),
            RefDid::Retain => self.leaves_more(root, 0),
            RefDid::Kept => self.leaves_more(root, 1),
            RefDid::Ended => self.leaves(root, 1),
            RefDid::Vacated => self.vacated_fits(root),
            RefDid::Look(found) => {
                let exact = self.leaves(root, found);
                0 < found && exact
            }
        }
    }

    /// Whether less than so many counts of a root are left, if not just so many are.
    pub(crate) fn has_less(&self, root: &RootId, count: u32) -> Option<bool> {
        let born = self.of(root_key(BORN, root));
        let gained = born.saturating_add(self.of(root_key(RETAIN, root)));
        let lost = self.of(root_key(RELEASE, root));
        let told = lost.saturating_add(count as u128);
        if gained == told {
            None
        } else {
            Some(gained < told)
        }
    }

    /// Whether a note fits the steps that were counted.
    pub(crate) fn fits(&self, note: &Note) -> bool
        requires { AreAtMost (2 ^ 66) self.now }
        ensures { result ≡ fits_in self.now note.now }
    {
        match note {
            Note::At {
                object,
                number,
                did,
            } => {
                let next = self.alike(object, did) + 1;
                *number as u128 == next && self.finds(object, *number, did)
            }
            Note::Ref { root, did } => self.ref_fits(root, *did),
            Note::Busy(held) => {
                let made = self.at(&held.object);
                held.number as u128 == made
            }
        }
    }
}
