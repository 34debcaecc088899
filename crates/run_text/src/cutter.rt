//! The notes of a lane, cut from the front.

use crate::bound::Standing;
use crate::known::RootKey;
use pool_law::{Did, Note, RefDid};
use std::alloc::AllocError;

// What a note means for where the notes of a command end.
#[derive(Clone, Copy)]
enum Kind {
    // The last of an allocation, or of the end of a root.
    Last,
    // A count less, and no more.
    Kept,
    // Bytes of a root are written or read, so many.
    Bytes(usize),
    // A sweep of the caches.
    Sweep,
    // Another.
    Other,
}

fn kind_of(note: &Note) -> Kind {
    match note {
        Note::At { did, .. } => match did {
            Did::NoHandle | Did::Home(_) => Kind::Last,
            Did::Set { bytes, .. } | Did::Get { bytes, .. } => Kind::Bytes(bytes.items().len()),
            Did::Trim(_) | Did::Shed(_) | Did::Give(_) => Kind::Sweep,
            Did::Take { .. }
            | Did::Full { .. }
            | Did::Hit(_)
            | Did::Miss
            | Did::Kept(_)
            | Did::Back { .. }
            | Did::Close(_)
            | Did::Handle(_)
            | Did::Post(_)
            | Did::Fetch(_)
            | Did::Birth { .. }
            | Did::Touch
            | Did::Room { .. }
            | Did::Extend(_)
            | Did::Grow { .. }
            | Did::End(_) => Kind::Other,
        },
        Note::Ref { did, .. } => match did {
            RefDid::Born => Kind::Last,
            RefDid::Kept => Kind::Kept,
            RefDid::Retain | RefDid::Ended | RefDid::Vacated | RefDid::Look(_) => Kind::Other,
        },
        Note::Busy(_) => Kind::Other,
    }
}

// Whether a root has the capacity that was asked of it.
fn is_enough(note: &Note) -> bool {
    match note {
        Note::At {
            did: Did::Room { asked, capacity },
            ..
        } => asked <= capacity,
        Note::At {
            did: Did::Extend(_),
            ..
        } => true,
        _ => false,
    }
}

// Whether it ends a growth out of a region: there is no other region, or one is put away.
fn ends_growth(note: &Note) -> bool {
    match note {
        Note::At { did, .. } => { matches!(did, Did::Full { .. } | Did::Kept(_) | Did::Give(_)) }
        _ => false,
    }
}

/// The notes of a lane, of which those before a place are those of the commands so far.
#[derive(Drop)]
pub struct Cutter<'a> {
    /// All notes of the lane.
    pub notes: &'a [Note],
    /// How many of them are those of the commands so far.
    pub at: usize,
    /// The lane behind these.
    pub standing: Standing,
}

impl Cutter<'_> {
    // The next note, by its kind.
    fn kind(&self) -> Option<Kind> {
        self.notes.get(self.at).map(kind_of)
    }

    /// The next note is the command's.
    pub fn pass(&mut self) -> Result<(), AllocError> {
        if let Some(note) = self.notes.get(self.at) {
            self.standing.pass(note)?;
            self.at = self.at.saturating_add(1);
        }
        Ok(())
    }

    /// The next notes are the command's, up to the last of an allocation or of the end of a root.
    pub fn pass_to_last(&mut self) -> Result<(), AllocError> {
        for _ in self.at..self.notes.len() {
            let kind = self.kind();
            self.pass()?;
            if let Some(Kind::Last) = kind {
                break;
            }
        }
        Ok(())
    }

    /// The notes of a sweep are those of the command before it.
    pub fn sweep(&mut self) -> Result<(), AllocError> {
        for _ in self.at..self.notes.len() {
            let Some(Kind::Sweep) = self.kind() else {
                break;
            };
            self.pass()?;
        }
        Ok(())
    }

    /// So many bytes of a name are written or read. No part of a composite has none, where a view has one.
    pub fn bytes(&mut self, name: u32, len: usize) -> Result<(), AllocError> {
        if len == 0 && self.standing.root_of(name).is_none() {
            return Ok(());
        }
        let mut total = 0usize;
        for _ in self.at..self.notes.len() {
            let Some(Kind::Bytes(count)) = self.kind() else {
                break;
            };
            self.pass()?;
            total = total.saturating_add(count);
            if total >= len {
                break;
            }
        }
        Ok(())
    }

    /// A root is asked for capacity: it has enough, or goes on in another region if there is one.
    pub fn pass_growth(&mut self) -> Result<(), AllocError> {
        let has_enough = self.notes.get(self.at).is_some_and(is_enough);
        self.pass()?;
        if has_enough {
            return Ok(());
        }
        for _ in self.at..self.notes.len() {
            let is_last = self.notes.get(self.at).is_some_and(ends_growth);
            self.pass()?;
            if is_last {
                break;
            }
        }
        Ok(())
    }

    /// A count of a view's root less.
    pub fn release(&mut self) -> Result<(), AllocError> {
        if let Some(Kind::Kept) = self.kind() {
            self.pass()
        } else {
            self.pass_to_last()
        }
    }

    /// A count less of each of these roots that the lane then counts.
    pub fn release_all(&mut self, roots: &[RootKey]) -> Result<(), AllocError> {
        for root in roots {
            if self.standing.count(*root) > 0 {
                self.release()?;
            }
        }
        Ok(())
    }

    /// The bytes of a composite are copied to a new root.
    pub fn move_bytes(&mut self) -> Result<(), AllocError> {
        for _ in self.at..self.notes.len() {
            let Some(Kind::Bytes(_)) = self.kind() else {
                break;
            };
            self.pass()?;
        }
        Ok(())
    }
}
