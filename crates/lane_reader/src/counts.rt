//! How often a lane counts each root.

ghost use Rattle.std.specs.Prelude.{◌≡◌, ◌+◌, ◌-◌, ◌<◌, ◌≤◌, ◌^◌, ℕ, if◌then◌else◌, take, length, OnOk};
ghost use Rattle.pool_law.specs.declared.id.RootId.{RootId};
ghost use Rattle.pool_law.specs.Same.{same_root};
ghost use Rattle.pool_law.specs.Counts.{note_gains, note_loses, view_is_of, count_from};
ghost use Rattle.lane_reader.specs.Reading.{entries};
ghost use Rattle.lane_reader.specs.Counting.{count_in, count_after, AreWithin};

use crate::log::{At, Log};
use pool_law::{Did, Note, Parcel, RefDid, RootId};
use std::alloc::{AllocError, Global};
use std::collections::BTreeMap;

/// The counts of a lane, by place, generation and capacity of a root.
#[derive(Drop)]
pub struct Counts {
    map: BTreeMap<(u32, u32, u32), u64>,
}

// The root of a parcel's view, if it has one, is this root.
fn is_of(root: &RootId, parcel: &Parcel) -> bool
    ensures { result ≡ view_is_of root.now parcel.now.view }
{
    match parcel.view {
        Some(view) => view.root == *root,
        None => false,
    }
}

// A note adds one to the count of the root.
fn gains(root: &RootId, note: &Note) -> bool
    ensures { result ≡ note_gains root.now note.now }
{
    match note {
        Note::Ref { root: other, did } => {
            other == root && matches!(did, RefDid::Born | RefDid::Retain)
        }
        Note::At {
            object: _,
            number: _,
            did: Did::Fetch(parcel),
        } => is_of(root, parcel),
        _ => false,
    }
}

// A note takes one from the count of the root.
fn loses(root: &RootId, note: &Note) -> bool
    ensures { result ≡ note_loses root.now note.now }
{
    match note {
        Note::Ref { root: other, did } => {
            other == root && matches!(did, RefDid::Kept | RefDid::Ended)
        }
        Note::At {
            object: _,
            number: _,
            did: Did::Post(parcel),
        } => is_of(root, parcel),
        _ => false,
    }
}

// The count of the root after a note.
fn count_after(root: &RootId, count: u64, note: &Note) -> u64
    requires { count + 1 < 2 ^ 64 }
    ensures same { result ≡ count_after root.now count note.now }
    ensures within { result ≤ count + 1 }
{
    if gains(root, note) {
        count + 1
    } else if loses(root, note) {
        count.saturating_sub(1)
    } else {
        count
    }
}

impl Log<'_> {
    /// The count of the root at a place, after so many before the log.
    pub(crate) fn count(&self, at: At, root: &RootId, first: u64) -> u64
        requires { first + length self.now.notes.now < 2 ^ 64 }
        ensures { result ≡ count_from root.now first (take at.place (entries self.now)) }
    {
        let mut count = first;
        for note in &self.notes[..at.place.min(self.notes.len())] {
            count = count_after(root, count, note);
        }
        count
    }
}

impl Counts {
    /// No root is counted.
    pub fn new(alloc: Global) -> Counts
        ensures { (root : RootId) → count_in result root ≡ 0 }
    {
        Counts {
            map: BTreeMap::new(alloc),
        }
    }

    /// How often a root is counted.
    pub fn of(&self, root: &RootId) -> u64
        ensures { result ≡ count_in self.now root.now }
    {
        let key = (root.place, root.generation, root.capacity);
        self.map.get(&key).copied().unwrap_or(0)
    }

    // A root is counted so often.
    fn put(&mut self, root: &RootId, count: u64) -> Result<(), AllocError>
        ensures { (other : RootId) → OnOk result (count_in self.new other
            ≡ (if same_root root.now other then count else count_in self.old other)) }
    {
        let key = (root.place, root.generation, root.capacity);
        self.map.insert(key, count)?;
        Ok(())
    }

    /// The counts after a note, where none is the last that 64 bits hold. A refusal is want of memory.
    pub fn pass(&mut self, note: &Note) -> Result<(), AllocError>
        requires { (root : RootId) → count_in self.old root + 1 < 2 ^ 64 }
        ensures { (other : RootId) → OnOk result (count_in self.new other
            ≡ count_after other (count_in self.old other) note.now) }
    {
        match note {
            Note::Ref { root, did } => match did {
                RefDid::Born | RefDid::Retain => self.add(root),
                RefDid::Kept | RefDid::Ended => self.take(root),
                RefDid::Vacated | RefDid::Look(_) => Ok(()),
            },
            Note::At {
                object: _,
                number: _,
                did,
            } => match did {
                Did::Fetch(parcel) => match parcel.view {
                    Some(view) => self.add(&view.root),
                    None => Ok(()),
                },
                Did::Post(parcel) => match parcel.view {
                    Some(view) => self.take(&view.root),
                    None => Ok(()),
                },
                _ => Ok(()),
            },
            Note::Busy(_) => Ok(()),
        }
    }

    // A root is counted once more.
    fn add(&mut self, root: &RootId) -> Result<(), AllocError>
        requires { count_in self.old root.now + 1 < 2 ^ 64 }
        ensures { (other : RootId) → OnOk result (count_in self.new other
            ≡ (if same_root root.now other then count_in self.old other + 1
            else count_in self.old other)) }
    {
        let count = self.of(root) + 1;
        self.put(root, count)
    }

    // A root is counted once less.
    fn take(&mut self, root: &RootId) -> Result<(), AllocError>
        ensures { (other : RootId) → OnOk result (count_in self.new other
            ≡ (if same_root root.now other then count_in self.old other - 1
            else count_in self.old other)) }
    {
        let count = self.of(root).saturating_sub(1);
        self.put(root, count)
    }
}
