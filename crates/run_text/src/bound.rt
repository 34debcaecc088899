//! What a lane's names are bound to, and how often the lane counts each root.

use crate::known::{RootKey, key_of};
use pool_law::{Did, Note, RefDid};
use std::alloc::{AllocError, Global};
use std::collections::HashMap;

/// What a name is bound to.
#[derive(Drop)]
pub enum Bound {
    /// A view of this root.
    View(RootKey),
    /// A composite of parts of these roots.
    Whole(Vec<RootKey>),
}

/// A lane between two notes.
#[derive(Drop)]
pub struct Standing {
    alloc: Global,
    names: HashMap<u32, Bound>,
    counts: HashMap<RootKey, u64>,
    // The root that was born last.
    born: RootKey,
}

impl Standing {
    /// A lane before its first note.
    pub fn new(alloc: Global) -> Standing {
        Standing {
            alloc,
            names: HashMap::new(alloc),
            counts: HashMap::new(alloc),
            born: (0, 0),
        }
    }

    /// How often the lane counts a root.
    pub fn count(&self, root: RootKey) -> u64 {
        self.counts.get(&root).copied().unwrap_or(0)
    }

    fn set_count(&mut self, root: RootKey, count: u64) -> Result<(), AllocError> {
        self.counts.insert(root, count)?;
        Ok(())
    }

    fn gain(&mut self, root: RootKey) -> Result<(), AllocError> {
        let count = self.count(root).saturating_add(1);
        self.set_count(root, count)
    }

    fn lose(&mut self, root: RootKey) -> Result<(), AllocError> {
        let count = self.count(root).saturating_sub(1);
        self.set_count(root, count)
    }

    /// The lane once it made a note.
    pub fn pass(&mut self, note: &Note) -> Result<(), AllocError> {
        match note {
            Note::Ref { root, did } => self.pass_ref(key_of(root), *did),
            Note::At { did, .. } => self.pass_did(did),
            Note::Busy(_) => Ok(()),
        }
    }

    fn pass_ref(&mut self, root: RootKey, did: RefDid) -> Result<(), AllocError> {
        match did {
            RefDid::Born => {
                self.born = root;
                self.gain(root)
            }
            RefDid::Retain => self.gain(root),
            RefDid::Kept | RefDid::Ended => self.lose(root),
            RefDid::Vacated | RefDid::Look(_) => Ok(()),
        }
    }

    fn pass_did(&mut self, did: &Did) -> Result<(), AllocError> {
        match did {
            Did::Post(parcel) => match &parcel.view {
                Some(view) => self.lose(key_of(&view.root)),
                None => Ok(()),
            },
            Did::Fetch(parcel) => match &parcel.view {
                Some(view) => self.gain(key_of(&view.root)),
                None => Ok(()),
            },
            _ => Ok(()),
        }
    }

    /// The root that was born last.
    pub fn born(&self) -> RootKey {
        self.born
    }

    /// A name is bound.
    pub fn bind(&mut self, name: u32, bound: Bound) -> Result<(), AllocError> {
        self.names.insert(name, bound)?;
        Ok(())
    }

    /// A name is bound to a view of the root of another.
    pub fn bind_as(&mut self, fresh: u32, name: u32) -> Result<(), AllocError> {
        match self.root_of(name) {
            Some(root) => self.bind(fresh, Bound::View(root)),
            None => Ok(()),
        }
    }

    /// The root of a name, where it is bound to a view.
    pub fn root_of(&self, name: u32) -> Option<RootKey> {
        match self.names.get(&name) {
            Some(Bound::View(root)) => Some(*root),
            _ => None,
        }
    }

    /// The roots of these names.
    pub fn roots_of(&self, names: &[u32]) -> Result<Vec<RootKey>, AllocError> {
        let mut roots = Vec::new(self.alloc);
        for name in names {
            if let Some(root) = self.root_of(*name) {
                roots.push(root)?;
            }
        }
        Ok(roots)
    }

    /// The roots of a composite, whose name is bound no more.
    pub fn taken_apart(&mut self, name: u32) -> Vec<RootKey> {
        match self.names.remove(&name) {
            Some(Bound::Whole(roots)) => roots,
            _ => Vec::new(self.alloc),
        }
    }

    /// A name is bound to a composite of the root that was born last.
    pub fn bind_moved(&mut self, name: u32) -> Result<(), AllocError> {
        let mut roots = Vec::new(self.alloc);
        roots.push(self.born)?;
        self.bind(name, Bound::Whole(roots))
    }
}
