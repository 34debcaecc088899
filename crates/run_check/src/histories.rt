//! The histories of all objects.

ghost use Rattle.std.specs.Prelude.{◌≡◌, ◌≤◌, ◌^◌, [], ◌∷◌, true, false, MatchOption, MatchResult, IfOk};
ghost use Rattle.std.specs.Option.{option_copied};
ghost use Rattle.pool_law.specs.declared.note.Object.{Object};
ghost use Rattle.pool_law.specs.Limits.{geometry_of};
ghost use Rattle.pool_law.specs.Logs.{Logs, dids};
ghost use Rattle.object_steps.specs.Behind.{dids_behind};
ghost use Rattle.run_check.specs.Merging.{dones_in};
ghost use Rattle.run_check.specs.ByObject.{notes_in, AreByObject};
ghost use Rattle.run_check.specs.Fronts.{IsBrokenAt};
ghost use Rattle.run_check.specs.Storing.{object_history_in, has_object_history, history_in, told_in, AreObjectHistories, Keeps, Covers, AreHistories};

mod object;

use crate::histories::object::object_history_of;
use crate::keys::object_key;
use crate::merging::Done;
use crate::object_notes::{ObjectNotes, notes_by_object};
use object_steps::{PlaceTold, Sizes};
use pool_law::{Did, LaneLog, Note, Object, Shape};
use std::alloc::{AllocError, Global};
use std::collections::BTreeMap;

/// The history of an object, and of a root place what is told of each of its notes.
#[derive(Drop)]
pub struct ObjectHistory<'a> {
    dones: Vec<Done<'a>>,
    told: Vec<PlaceTold>,
}

/// Where the law is broken at an object.
#[derive(Clone, Copy, Drop)]
pub struct BrokenAt {
    /// The object, or mail, that does not hold.
    pub object: Object,
    /// The first number of its notes at which it does not.
    pub number: u64,
}

/// The histories of the objects that notes name.
#[derive(Drop)]
pub struct Histories<'a> {
    map: BTreeMap<(u32, u32, u32), ObjectHistory<'a>>,
    // Of this nothing is read but an empty part.
    none: Vec<Done<'a>>,
}

// What was done, without the lanes.
pub(crate) fn dids_of<'a>(alloc: Global, dones: &[Done<'a>]) -> Result<Vec<&'a Did>, AllocError>
    ensures { IfOk result (λ all. dids_behind all.items ≡ dids (dones_in dones.now)) }
{
    let mut all = Vec::new(alloc);
    for done in dones {
        all.push(done.did)?;
    }
    Ok(all)
}

impl<'a> Histories<'a> {
    /// No history.
    fn new(alloc: Global) -> Histories<'a>
        ensures { (object : Object) → has_object_history result object ≡ false }
    {
        Histories {
            map: BTreeMap::new(alloc),
            none: Vec::new(alloc),
        }
    }

    // The history of an object, if it is there.
    fn found(&self, object: &Object) -> Option<&ObjectHistory<'a>>
        ensures { option_copied result ≡ object_history_in self.now object.now }
    {
        self.map.get(&object_key(object))
    }

    // The history of an object, if it is there.
    fn found_dones(&self, object: &Object) -> Option<&[Done<'a>]>
        ensures { MatchOption result (history_in self.now object.now ≡ [])
            (λ dones. dones_in dones.now ≡ history_in self.now object.now) }
    {
        let object_history = self.found(object)?;
        Some(&object_history.dones)
    }

    /// The history of an object.
    pub fn of(&self, object: &Object) -> &[Done<'a>]
        ensures { dones_in result.now ≡ history_in self.now object.now }
    {
        self.found_dones(object).unwrap_or(&self.none[..0])
    }

    // What is told of each note at a root place, if it is there.
    fn found_told(&self, place: u32) -> Option<&[PlaceTold]>
        ensures { MatchOption result (told_in self.now place ≡ [])
            (λ told. told.now ≡ told_in self.now place) }
    {
        let object_history = self.found(&Object::Root(place))?;
        Some(&object_history.told)
    }

    /// What is told of each note at a root place.
    pub fn told(&self, place: u32) -> &[PlaceTold]
        ensures { result.now ≡ told_in self.now place }
    {
        self.found_told(place).unwrap_or(&[])
    }

    // Adds the history of an object, if it is not there. Where it is broken, that comes back.
    fn add(
        &mut self,
        alloc: Global,
        shape: &Shape,
        sizes: &Sizes,
        lanes: &[ObjectNotes<'a>],
        object: &Object,
    ) -> Result<Option<BrokenAt>, AllocError>
        requires sizes { sizes.now ≡ geometry_of shape.now }
        requires chunks { shape.now.chunks ≤ 2 ^ 16 }
        requires handles { 1 ≤ shape.now.handles }
        ensures { (logs : Logs) → AreByObject lanes.now logs
            → AreObjectHistories shape.now logs self.old
            → IfOk result (λ broken. MatchOption broken
            (AreObjectHistories shape.now logs self.new × Keeps self.old self.new
            × (has_object_history self.new object.now ≡ true))
            (λ b. IsBrokenAt shape.now logs b.object b.number)) }
    {
        let key = object_key(object);
        if self.map.contains_key(&key) {
            return Ok(None);
        }
        match object_history_of(alloc, shape, sizes, lanes, object)? {
            Ok(object_history) => {
                self.map.insert(key, object_history)?;
                Ok(None)
            }
            Err(number) => Ok(Some(BrokenAt {
                object: *object,
                number,
            })),
        }
    }

    // Adds the history of the object that a note names. Where it is broken, that comes back.
    fn add_note(
        &mut self,
        alloc: Global,
        shape: &Shape,
        sizes: &Sizes,
        lanes: &[ObjectNotes<'a>],
        note: &Note,
    ) -> Result<Option<BrokenAt>, AllocError>
        requires sizes { sizes.now ≡ geometry_of shape.now }
        requires chunks { shape.now.chunks ≤ 2 ^ 16 }
        requires handles { 1 ≤ shape.now.handles }
        ensures { (logs : Logs) → AreByObject lanes.now logs
            → AreObjectHistories shape.now logs self.old
            → IfOk result (λ broken. MatchOption broken
            (AreObjectHistories shape.now logs self.new × Keeps self.old self.new
            × Covers self.new (note.now ∷ []))
            (λ b. IsBrokenAt shape.now logs b.object b.number)) }
    {
        match note {
            Note::At {
                object,
                number: _,
                did: _,
            } => {
                let broken = self.add(alloc, shape, sizes, lanes, object)?;
                Ok(broken)
            }
            Note::Ref { root: _, did: _ } => Ok(None),
            Note::Busy(_) => Ok(None),
        }
    }

    // Adds the histories of the objects that notes name. The first that is broken comes back.
    fn add_all(
        &mut self,
        alloc: Global,
        shape: &Shape,
        sizes: &Sizes,
        lanes: &[ObjectNotes<'a>],
        notes: &[Note],
    ) -> Result<Option<BrokenAt>, AllocError>
        requires sizes { sizes.now ≡ geometry_of shape.now }
        requires chunks { shape.now.chunks ≤ 2 ^ 16 }
        requires handles { 1 ≤ shape.now.handles }
        ensures { (logs : Logs) → AreByObject lanes.now logs
            → AreObjectHistories shape.now logs self.old
            → IfOk result (λ broken. MatchOption broken
            (AreObjectHistories shape.now logs self.new × Keeps self.old self.new
            × Covers self.new notes.now)
            (λ b. IsBrokenAt shape.now logs b.object b.number)) }
    {
        for note in notes {
            if let Some(broken) = self.add_note(alloc, shape, sizes, lanes, note)? {
                return Ok(Some(broken));
            }
        }
        Ok(None)
    }

    /// The histories of all objects, or the first object in the order of the logs whose notes are not whole or
    /// not accepted, or mail that does not hold, with the first number at which it is so.
    pub fn in_logs(
        alloc: Global,
        shape: &Shape,
        sizes: &Sizes,
        logs: &'a [LaneLog],
    ) -> Result<Result<Histories<'a>, BrokenAt>, AllocError>
        requires sizes { sizes.now ≡ geometry_of shape.now }
        requires chunks { shape.now.chunks ≤ 2 ^ 16 }
        requires handles { 1 ≤ shape.now.handles }
        ensures { IfOk result (λ found. MatchResult found
            (AreHistories shape.now (notes_in logs.now))
            (λ b. IsBrokenAt shape.now (notes_in logs.now) b.object b.number)) }
    {
        let lanes = notes_by_object(alloc, logs)?;
        let mut histories = Histories::new(alloc);
        for log in logs {
            let notes = log.notes.items();
            if let Some(broken) = histories.add_all(alloc, shape, sizes, &lanes, notes)? {
                return Ok(Err(broken));
            }
        }
        Ok(Ok(histories))
    }
}
