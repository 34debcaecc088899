//! The six lists of an arena's chunks.

ghost use Rattle.std.specs.Prelude.{◌≡◌, ◌∷◌, OnOk};
ghost use Rattle.pool_law.specs.ChunkLists.{no_chunks, entered, without, left, has, list_of, list_named};
ghost use Rattle.pool_law.specs.ChunkLists.{same_list};

pub(crate) mod settling;

use pool_law::ListName;
use std::alloc::{AllocError, Global};
use std::marker::Model;

/// The numbers of the chunks in each list, from its head.
#[derive(Drop)]
pub struct Lists {
    init: Vec<u32>,
    q000: Vec<u32>,
    q025: Vec<u32>,
    q050: Vec<u32>,
    q075: Vec<u32>,
    q100: Vec<u32>,
}

impl Model for Lists {
    ghost use Rattle.pool_law.specs.ChunkLists.{Lists};

    ghost Value = { Lists };

    ghost view = { λ l. record {
      init = l.init.items;
      q000 = l.q000.items;
      q025 = l.q025.items;
      q050 = l.q050.items;
      q075 = l.q075.items;
      q100 = l.q100.items;
    } };
}

impl Lists {
    /// No chunk is in a list.
    pub fn new(alloc: Global) -> Lists
        ensures { result ≡ no_chunks }
    {
        Lists {
            init: Vec::new(alloc),
            q000: Vec::new(alloc),
            q025: Vec::new(alloc),
            q050: Vec::new(alloc),
            q075: Vec::new(alloc),
            q100: Vec::new(alloc),
        }
    }

    /// The list in which a chunk is.
    pub fn list_of(&self, chunk: u32) -> Option<ListName>
        ensures { result ≡ list_of self.now chunk }
    {
        if has(&self.init, chunk) {
            Some(ListName::QInit)
        } else if has(&self.q000, chunk) {
            Some(ListName::Q000)
        } else if has(&self.q025, chunk) {
            Some(ListName::Q025)
        } else if has(&self.q050, chunk) {
            Some(ListName::Q050)
        } else if has(&self.q075, chunk) {
            Some(ListName::Q075)
        } else if has(&self.q100, chunk) {
            Some(ListName::Q100)
        } else {
            None
        }
    }

    /// The chunks of a list, from its head.
    pub fn named(&self, name: ListName) -> &[u32]
        ensures { result.now ≡ list_named self.now name }
    {
        match name {
            ListName::QInit => &self.init,
            ListName::Q000 => &self.q000,
            ListName::Q025 => &self.q025,
            ListName::Q050 => &self.q050,
            ListName::Q075 => &self.q075,
            ListName::Q100 => &self.q100,
        }
    }

    /// A chunk enters a list at its head.
    pub fn enter(&mut self, name: ListName, chunk: u32) -> Result<(), AllocError>
        ensures { OnOk result (self.new ≡ entered self.old name chunk) }
    {
        match name {
            ListName::QInit => put_first(&mut self.init, chunk),
            ListName::Q000 => put_first(&mut self.q000, chunk),
            ListName::Q025 => put_first(&mut self.q025, chunk),
            ListName::Q050 => put_first(&mut self.q050, chunk),
            ListName::Q075 => put_first(&mut self.q075, chunk),
            ListName::Q100 => put_first(&mut self.q100, chunk),
        }
    }

    /// A chunk leaves the lists.
    pub fn leave(&mut self, chunk: u32)
        ensures { self.new ≡ left self.old chunk }
    {
        drop_from(&mut self.init, chunk);
        drop_from(&mut self.q000, chunk);
        drop_from(&mut self.q025, chunk);
        drop_from(&mut self.q050, chunk);
        drop_from(&mut self.q075, chunk);
        drop_from(&mut self.q100, chunk);
    }
}

// Whether a number is among these.
fn has(chunks: &[u32], chunk: u32) -> bool
    ensures { result ≡ has chunk chunks.now }
{
    chunks.iter().any(|x| *x == chunk)
}

// A list with a number before the others.
fn put_first(chunks: &mut Vec<u32>, chunk: u32) -> Result<(), AllocError>
    ensures { OnOk result (chunks.new.items ≡ chunk ∷ chunks.old.items) }
{
    chunks.insert(0, chunk)?;
    Ok(())
}

// A list without a number.
fn drop_from(chunks: &mut Vec<u32>, chunk: u32)
    ensures { chunks.new.items ≡ without chunk chunks.old.items }
{
    chunks.retain(|x| *x != chunk);
}

/// Whether two names are one list.
pub(crate) fn same_list(a: ListName, b: ListName) -> bool
    ensures { result ≡ same_list a b }
{
    a == b
}
