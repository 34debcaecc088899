//! A log, and the places in it.

ghost use Rattle.std.specs.Prelude.{◌≡◌, [], drop, IsNone, IfSome};
ghost use Rattle.std.specs.Option.{option_copied};
ghost use Rattle.pool_law.specs.Readers.{ToldNotes, done_at, done_to, marked, note, step, busy, access, ending};
ghost use Rattle.pool_law.specs.Counts.{root_is};
ghost use Rattle.lane_reader.specs.Reading.{entries, told_at, log_from, reads, reads_did, IsNext};

use object_steps::PlaceTold;
use pool_law::{Did, Note, Object, RefDid, RegionId, RootId};

/// Notes of a lane, oldest first, each with what is told of it.
#[derive(Clone, Copy, Drop)]
pub struct Log<'a> {
    pub notes: &'a [Note],
    pub told: &'a [PlaceTold],
}

/// A place in a log: behind so many notes, and so many allocations that asked a cache since the last
/// sweep.
#[derive(Clone, Copy, Drop)]
pub(crate) struct At {
    pub(crate) place: usize,
    pub(crate) asked: u32,
}

/// A note, what is told of it, and the place behind it.
#[derive(Clone, Copy, Drop)]
pub(crate) struct Next<'a> {
    pub(crate) note: &'a Note,
    pub(crate) told: PlaceTold,
    pub(crate) behind: At,
}

/// What was done, where a note is at this object.
pub(crate) fn done_at<'a>(object: &Object, note: &'a Note) -> Option<&'a Did>
    ensures { option_copied result ≡ done_at object.now note.now }
{
    match note {
        Note::At {
            object: other,
            number: _,
            did,
        } => (object == other).then_some(did),
        _ => None,
    }
}

// What was done to the word of this root.
fn done_to(root: &RootId, note: &Note) -> Option<RefDid>
    ensures { result ≡ done_to root.now note.now }
{
    match note {
        Note::Ref { root: other, did } => (root == other).then_some(*did),
        _ => None,
    }
}

// The number of a busy mark on this object.
fn marked(object: &Object, note: &Note) -> Option<u64>
    ensures { result ≡ marked object.now note.now }
{
    match note {
        Note::Busy(held) => (*object == held.object).then_some(held.number),
        _ => None,
    }
}

/// Whether a root is this root, if there is one.
pub(crate) fn root_is(root: &RootId, other: Option<RootId>) -> bool
    ensures { result ≡ root_is root.now other }
{
    match other {
        Some(other) => other == *root,
        None => false,
    }
}

impl<'a> Log<'a> {
    // What is told of the note at a place.
    fn told_at(&self, place: usize) -> PlaceTold
        ensures { result ≡ told_at self.now place }
    {
        if place < self.told.len() {
            self.told[place]
        } else {
            PlaceTold {
                root: None,
                region: None,
            }
        }
    }

    /// The next note.
    pub(crate) fn next(&self, at: At) -> Option<Next<'a>>
        ensures last { IsNone result → drop at.place (entries self.now) ≡ [] }
        ensures next { (before : ToldNotes) → IfSome result (IsNext before self.now at) }
    {
        if at.place >= self.notes.len() {
            return None;
        }
        let behind = At {
            place: at.place + 1,
            asked: at.asked,
        };
        Some(Next {
            note: &self.notes[at.place],
            told: self.told_at(at.place),
            behind,
        })
    }

    /// A note at the object.
    pub(crate) fn note(&self, at: At, object: &Object) -> Option<(&'a Did, At)>
        ensures { (before : ToldNotes) → note object.now Some (log_from before self.now at)
            ≡ reads_did before self.now result }
    {
        let next = self.next(at)?;
        let did = done_at(object, next.note)?;
        Some((did, next.behind))
    }

    /// A step on the word of the root.
    pub(crate) fn step(&self, at: At, root: &RootId) -> Option<(RefDid, At)>
        ensures { (before : ToldNotes) → step root.now Some (log_from before self.now at)
            ≡ reads before self.now result }
    {
        let next = self.next(at)?;
        let did = done_to(root, next.note)?;
        Some((did, next.behind))
    }

    /// A busy mark on the object, and its number.
    pub(crate) fn busy(&self, at: At, object: &Object) -> Option<(u64, At)>
        ensures { (before : ToldNotes) → busy object.now (log_from before self.now at)
            ≡ reads before self.now result }
    {
        let next = self.next(at)?;
        let number = marked(object, next.note)?;
        Some((number, next.behind))
    }

    /// A note at the place of this root, which is present there.
    pub(crate) fn access(&self, at: At, root: &RootId) -> Option<(&'a Did, At)>
        ensures { (before : ToldNotes) → access root.now Some (log_from before self.now at)
            ≡ reads_did before self.now result }
    {
        let next = self.next(at)?;
        if !root_is(root, next.told.root) {
            return None;
        }
        let did = done_at(&Object::Root(root.place), next.note)?;
        Some((did, next.behind))
    }

    /// The end of the root, and the region that it takes out.
    pub(crate) fn ending(&self, at: At, root: &RootId) -> Option<(RegionId, At)>
        ensures { (before : ToldNotes) → ending root.now (log_from before self.now at)
            ≡ reads before self.now result }
    {
        let next = self.next(at)?;
        let Did::End(other) = done_at(&Object::Root(root.place), next.note)? else {
            return None;
        };
        if root != other {
            return None;
        }
        let region = next.told.region?;
        Some((region, next.behind))
    }
}
