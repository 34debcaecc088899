//! The subpages of a class that have a free element.

ghost use Rattle.std.specs.Prelude.{◌≡◌, [], ◌∷◌, slice_get, OnOk};
ghost use Rattle.pool_law.specs.Arenas.{without_subpage, is_alone};

use std::alloc::{AllocError, Global};
use std::marker::Model;

/// Subpages, each by its chunk and first page, from the front.
#[derive(Drop)]
pub struct SubpageList {
    subpages: Vec<(u32, u32)>,
}

impl Model for SubpageList {
    ghost use Rattle.std.specs.Prelude.{List, ℕ};

    ghost Value = { List (ℕ × ℕ) };

    ghost view = { λ l. l.subpages.items };
}

impl SubpageList {
    /// No subpage.
    pub fn new(alloc: Global) -> SubpageList
        ensures { result ≡ [] }
    {
        SubpageList {
            subpages: Vec::new(alloc),
        }
    }

    /// The subpage at the front.
    pub fn first(&self) -> Option<(u32, u32)>
        ensures { result ≡ slice_get self.now 0 }
    {
        self.subpages.first().copied()
    }

    /// A subpage comes to the front.
    pub fn push(&mut self, chunk: u32, page: u32) -> Result<(), AllocError>
        ensures { OnOk result (self.new ≡ (chunk, page) ∷ self.old) }
    {
        self.subpages.insert(0, (chunk, page))?;
        Ok(())
    }

    /// A subpage leaves.
    pub fn remove(&mut self, chunk: u32, page: u32)
        ensures { self.new ≡ without_subpage chunk page self.old }
    {
        self.subpages
            .retain(|subpage| !(subpage.0 == chunk && subpage.1 == page));
    }

    /// Whether at most one subpage is there.
    pub fn is_alone(&self) -> bool
        ensures { result ≡ is_alone self.now }
    {
        self.subpages.len() < 2
    }
}
