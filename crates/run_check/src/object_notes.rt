//! The notes of a lane, by object.

ghost use Rattle.std.specs.Prelude.{◌≡◌, ◌∷◌, ◌++◌, [], ℕ, None, if◌then◌else◌, IfOk, OnOk, MatchOption};
ghost use Rattle.std.specs.BTreeMap.{get, is_at};
ghost use Rattle.lane_reader.specs.Counting.{key_cmp};
ghost use Rattle.run_check.specs.Keying.{object_key};
ghost use Rattle.pool_law.specs.declared.note.Object.{Object};
ghost use Rattle.pool_law.specs.Same.{same_object};
ghost use Rattle.pool_law.specs.Logs.{own_note, own};
ghost use Rattle.run_check.specs.Gathering.{note_data, notes_data, left_of};
ghost use Rattle.run_check.specs.ByObject.{notes_at, notes_in, laned, AreByObject};

use crate::gathering::HistoryNote;
use crate::keys::object_key;
use pool_law::{LaneLog, Note, Object};
use std::alloc::{AllocError, Global};
use std::collections::BTreeMap;

/// The notes of a lane at each object, oldest first.
#[derive(Drop)]
pub struct ObjectNotes<'a> {
    map: BTreeMap<(u32, u32, u32), Vec<HistoryNote<'a>>>,
    // Of this nothing is read but an empty part.
    none: Vec<HistoryNote<'a>>,
}

impl<'a> ObjectNotes<'a> {
    /// No note.
    pub fn new(alloc: Global) -> ObjectNotes<'a>
        ensures { (object : Object) → notes_at result object ≡ [] }
    {
        ObjectNotes {
            map: BTreeMap::new(alloc),
            none: Vec::new(alloc),
        }
    }

    // The notes at an object, if there are any.
    fn found(&self, object: &Object) -> Option<&[HistoryNote<'a>]>
        ensures { MatchOption result (notes_at self.now object.now ≡ [])
            (λ notes. notes_data notes.now ≡ notes_at self.now object.now) }
    {
        let notes = self.map.get(&object_key(object))?;
        Some(notes)
    }

    /// The notes at an object.
    pub fn at(&self, object: &Object) -> &[HistoryNote<'a>]
        ensures { notes_data result.now ≡ notes_at self.now object.now }
    {
        self.found(object).unwrap_or(&self.none[..0])
    }

    // Takes the notes at an object out.
    fn take(&mut self, alloc: Global, object: &Object) -> Vec<HistoryNote<'a>>
        ensures items { notes_data result.items ≡ notes_at self.old object.now }
        ensures others { (q : ℕ × ℕ × ℕ) → get key_cmp self.new.map q
            ≡ (if is_at (key_cmp (object_key object.now)) q then None
            else get key_cmp self.old.map q) }
    {
        match self.map.remove(&object_key(object)) {
            Some(notes) => notes,
            None => Vec::new(alloc),
        }
    }

    // One more note at an object.
    fn put(
        &mut self,
        alloc: Global,
        object: &Object,
        note: HistoryNote<'a>,
    ) -> Result<(), AllocError>
        ensures { (other : Object) → OnOk result (notes_at self.new other
            ≡ (if same_object object.now other
            then notes_at self.old other ++ note_data note.entry ∷ []
            else notes_at self.old other)) }
    {
        let mut notes = self.take(alloc, object);
        notes.push(note)?;
        self.map.insert(object_key(object), notes)?;
        Ok(())
    }

    // A note, if it is at an object.
    fn put_note(&mut self, alloc: Global, note: &'a Note) -> Result<(), AllocError>
        ensures { (object : Object) → OnOk result (notes_at self.new object
            ≡ notes_at self.old object ++ own_note object note.now) }
    {
        match note {
            Note::At {
                object,
                number,
                did,
            } => self.put(
                alloc,
                object,
                HistoryNote {
                    number: *number,
                    did,
                },
            ),
            _ => Ok(()),
        }
    }

    /// The notes of a lane.
    pub fn of(alloc: Global, notes: &'a [Note]) -> Result<ObjectNotes<'a>, AllocError>
        ensures { IfOk result (λ by_object. (object : Object)
            → notes_at by_object object ≡ own object notes.now) }
    {
        let mut by_object = ObjectNotes::new(alloc);
        for note in notes {
            by_object.put_note(alloc, note)?;
        }
        Ok(by_object)
    }
}

/// The notes of each lane.
pub fn notes_by_object<'a>(
    alloc: Global,
    logs: &'a [LaneLog],
) -> Result<Vec<ObjectNotes<'a>>, AllocError>
    ensures { IfOk result (λ lanes. AreByObject lanes.items (notes_in logs.now)) }
{
    let mut lanes = Vec::new(alloc);
    for log in logs {
        let by_object = ObjectNotes::of(alloc, log.notes.items())?;
        lanes.push(by_object)?;
    }
    Ok(lanes)
}

/// What each lane has at an object.
pub fn left_at<'s, 'a>(
    alloc: Global,
    lanes: &'s [ObjectNotes<'a>],
    object: &Object,
) -> Result<Vec<&'s [HistoryNote<'a>]>, AllocError>
    ensures { IfOk result (λ left. (lane : ℕ)
        → left_of left.items lane ≡ laned lanes.now object.now lane) }
{
    let mut left = Vec::new(alloc);
    for by_object in lanes {
        left.push(by_object.at(object))?;
    }
    Ok(left)
}
