//! Whether busy marks are right.

ghost use Rattle.std.specs.Prelude.{◌≡◌, ◌≤◌, ◌↔◌, slice_get, if◌then◌else◌, IsTrue, IfOk, OnOk, MatchOption};
ghost use Rattle.pool_law.specs.declared.note.Object.{Object};
ghost use Rattle.pool_law.specs.Same.{same_object};
ghost use Rattle.pool_law.specs.Busy.{IsOfAnother, BusyHolds};
ghost use Rattle.run_check.specs.Marking.{none_had, had_of, least_after, had_note, had_mark, had_after, MayCome, MarkHolds};
ghost use Rattle.run_check.specs.Placing.{BreaksAt};
ghost use Rattle.run_check.specs.Storing.{history_in};

use crate::histories::Histories;
use crate::keys::object_key;
use pool_law::{Held, Note, Object};
use std::alloc::{AllocError, Global};
use std::collections::BTreeMap;

/// What a lane has of an object: the greatest number since its last mark, the mark's among them, and
/// the number of that mark.
#[derive(Clone, Copy, Drop)]
pub struct Had {
    pub number: u64,
    pub mark: Option<u64>,
}

impl Had {
    // Nothing.
    fn none() -> Had
        ensures { result ≡ none_had }
    {
        Had {
            number: 0,
            mark: None,
        }
    }

    // Whether a note may have this number.
    fn may_note(&self, number: u64) -> bool
        ensures { IsTrue result ↔ (least_after self.now.mark ≤ number) }
    {
        match self.mark {
            Some(mark) => mark < number,
            None => true,
        }
    }

    // After a note of this number.
    fn noted(&self, number: u64) -> Had
        ensures { result ≡ had_note self.now number }
    {
        Had {
            number: self.number.max(number),
            mark: self.mark,
        }
    }

    // After a mark of this number.
    fn marked(number: u64) -> Had
        ensures { result ≡ had_mark number }
    {
        Had {
            number,
            mark: Some(number),
        }
    }
}

/// What a lane has of each object.
#[derive(Drop)]
pub struct Marked {
    map: BTreeMap<(u32, u32, u32), Had>,
}

impl Marked {
    /// Nothing.
    fn new(alloc: Global) -> Marked
        ensures { (object : Object) → had_of result object ≡ none_had }
    {
        Marked {
            map: BTreeMap::new(alloc),
        }
    }

    // What is had of an object.
    fn of(&self, object: &Object) -> Had
        ensures { result ≡ had_of self.now object.now }
    {
        match self.map.get(&object_key(object)) {
            Some(had) => *had,
            None => Had::none(),
        }
    }

    // Whether a note may come next.
    fn may_come(&self, note: &Note) -> bool
        ensures { IsTrue result
            ↔ ((object : Object) → MayCome object (had_of self.now object) note.now) }
    {
        match note {
            Note::At {
                object,
                number,
                did: _,
            } => self.of(object).may_note(*number),
            Note::Busy(held) => self.of(&held.object).number <= held.number,
            Note::Ref { root: _, did: _ } => true,
        }
    }

    // What is had after a note.
    fn pass(&mut self, note: &Note) -> Result<(), AllocError>
        ensures { (object : Object) → OnOk result (had_of self.new object
            ≡ had_after object (had_of self.old object) note.now) }
    {
        match note {
            Note::At {
                object,
                number,
                did: _,
            } => {
                let had = self.of(object).noted(*number);
                self.put(object, had)
            }
            Note::Busy(held) => self.put(&held.object, Had::marked(held.number)),
            Note::Ref { root: _, did: _ } => Ok(()),
        }
    }

    // This is had of an object.
    fn put(&mut self, object: &Object, had: Had) -> Result<(), AllocError>
        ensures { (other : Object) → OnOk result (had_of self.new other
            ≡ (if same_object other object.now then had else had_of self.old other)) }
    {
        self.map.insert(object_key(object), had)?;
        Ok(())
    }
}

// Whether a mark stands before a note of another lane.
fn is_of_another(histories: &Histories, lane: usize, held: &Held) -> bool
    ensures { IsTrue result
        ↔ IsOfAnother lane (slice_get (history_in histories.now held.now.object) held.now.number) }
{
    let dones = histories.of(&held.object);
    let at = held.number as usize;
    at < dones.len() && dones[at].lane != lane
}

// Whether a note, if it is a mark, stands before a note of another lane.
fn mark_holds(histories: &Histories, lane: usize, note: &Note) -> bool
    ensures { IsTrue result ↔ MarkHolds lane (history_in histories.now) note.now }
{
    match note {
        Note::Busy(held) => is_of_another(histories, lane, held),
        _ => true,
    }
}

// Whether a note may come next, and stands before a note of another lane if it is a mark.
fn may_stand(marked: &Marked, histories: &Histories, lane: usize, note: &Note) -> bool
    ensures { IsTrue result
        ↔ (((object : Object) → MayCome object (had_of marked.now object) note.now)
        × MarkHolds lane (history_in histories.now) note.now) }
{
    marked.may_come(note) && mark_holds(histories, lane, note)
}

/// The place of the first note of a lane with which its marks are not right, if there is one: what it has of an
/// object doesn't fit, or a mark doesn't stand before a note of another lane.
pub fn mismarked_at(
    alloc: Global,
    histories: &Histories,
    lane: usize,
    notes: &[Note],
) -> Result<Option<usize>, AllocError>
    ensures { IfOk result
        (λ found. MatchOption found (BusyHolds lane (history_in histories.now) notes.now)
        (BreaksAt (BusyHolds lane (history_in histories.now)) notes.now)) }
{
    let mut marked = Marked::new(alloc);
    for (at, note) in notes.iter().enumerate() {
        if !may_stand(&marked, histories, lane, note) {
            return Ok(Some(at));
        }
        marked.pass(note)?;
    }
    Ok(None)
}
