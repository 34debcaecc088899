//! The lists of an arena's chunks, from the least used to the full.

ghost use Rattle.std.specs.Prelude.{◌≡◌, ◌*◌, ◌<◌, ◌≤◌, false, Some, None, IfOk, IsSome, slice_get};
ghost use Rattle.pool_law.specs.ChunkLists.{list_of, walk, entered, left, list_named, has};

use crate::list::ChunkList;
use crate::settle::{settle, up_from};
use pool_law::ListName;
use std::alloc::{AllocError, Global};
use std::marker::Model;

/// Where a chunk is once it has settled.
#[derive(Clone, Copy, PartialEq, Eq, Debug, Drop)]
pub enum Settled {
    /// In this list.
    At(ListName),
    /// In none: its usage is below the least of the second list.
    Destroyed,
}

/// The chunks of an arena in six lists by usage (Netty: `PoolArena`, `PoolChunkList`).
///
/// A chunk is known by the number of its chunk place. A usage is in hundredths.
#[derive(Drop)]
pub struct ChunkLists {
    init: ChunkList,
    q000: ChunkList,
    q025: ChunkList,
    q050: ChunkList,
    q075: ChunkList,
    q100: ChunkList,
}

impl Model for ChunkLists {
    ghost use Rattle.chunk_list.specs.Listing.{Listing, listing_in, IsListing};

    ghost Value = { Listing };

    ghost view = { listing_in };

    ghost invariant = { IsListing };
}

impl ChunkLists {
    ghost use Rattle.chunk_list.specs.Listing.{new_listing, with_lists};
    ghost use Rattle.chunk_list.specs.Settling.{settled, added, goes_to, answer_of, IfAt, IsWithin};

    /// Six empty lists for an arena with so many chunk places. All memory is taken here.
    pub fn new(alloc: Global, chunks: u32) -> Result<ChunkLists, AllocError>
        ensures { IfOk result (λ lists. lists ≡ new_listing chunks) }
    {
        Ok(ChunkLists {
            init: ChunkList::new(alloc, chunks)?,
            q000: ChunkList::new(alloc, chunks)?,
            q025: ChunkList::new(alloc, chunks)?,
            q050: ChunkList::new(alloc, chunks)?,
            q075: ChunkList::new(alloc, chunks)?,
            q100: ChunkList::new(alloc, chunks)?,
        })
    }

    /// The list in which a chunk is. None comes exactly where it is in no list.
    pub fn list_of(&self, chunk: u32) -> Option<ListName>
        ensures list { result ≡ list_of self.now.lists chunk }
        ensures place { IsSome result → chunk < self.now.places }
    {
        if self.init.has(chunk) {
            Some(ListName::QInit)
        } else if self.q000.has(chunk) {
            Some(ListName::Q000)
        } else if self.q025.has(chunk) {
            Some(ListName::Q025)
        } else if self.q050.has(chunk) {
            Some(ListName::Q050)
        } else if self.q075.has(chunk) {
            Some(ListName::Q075)
        } else if self.q100.has(chunk) {
            Some(ListName::Q100)
        } else {
            None
        }
    }

    /// A new chunk enters the first list, and settles up by its usage.
    /// Answers the list in which it then is.
    #[tactic(auto, using(crate::proofs::ListsLemmas::in_none, crate::proofs::Usages::risen_within))]
    pub fn add(&mut self, chunk: u32, usage: u32) -> ListName
        requires place { chunk < self.old.places }
        requires new { list_of self.old.lists chunk ≡ None }
        ensures lists { self.new ≡ with_lists self.old (added self.old.lists chunk usage) }
        ensures list { list_of self.new.lists chunk ≡ Some result }
        ensures within { usage ≤ 100 → IsWithin usage result }
    {
        let list = up_from(ListName::QInit, usage);
        self.enter(list, chunk);
        list
    }

    /// A chunk that is in a list settles by its usage, up or else down.
    /// One that stays in its list keeps its place there.
    pub fn moved(&mut self, chunk: u32, usage: u32) -> Settled
        requires { IsSome (list_of self.old.lists chunk) }
        ensures lists { self.new ≡ with_lists self.old (settled self.old.lists chunk usage) }
        ensures settled { result ≡ answer_of (goes_to usage (list_of self.old.lists chunk)) }
        ensures list { result ≡ answer_of (list_of self.new.lists chunk) }
        ensures within { usage ≤ 100 → IfAt result (IsWithin usage) }
    {
        let Some(here) = self.list_of(chunk) else {
            unreachable!()
        };
        match settle(here, usage) {
            Some(there) => {
                if there != here {
                    self.leave(chunk);
                    self.enter(there, chunk);
                }
                Settled::At(there)
            }
            None => {
                self.leave(chunk);
                Settled::Destroyed
            }
        }
    }

    /// The k-th chunk, from 0, in the order in which chunks are asked for a run.
    /// None comes exactly past the last. The chunks of the last list are not asked.
    pub fn nth(&self, k: u32) -> Option<u32>
        ensures chunk { result ≡ slice_get (walk self.now.lists) k }
        ensures few { IsSome result → k < 5 * self.now.places }
    {
        let last = self.init.chunks().iter().chain(self.q075.chunks().iter());
        let rest = self.q000.chunks().iter().chain(last);
        let rest = self.q025.chunks().iter().chain(rest);
        let mut asked = self.q050.chunks().iter().chain(rest);
        asked.nth(k as usize).copied()
    }

    // A chunk enters a list at its head.
    fn enter(&mut self, list: ListName, chunk: u32)
        requires place { chunk < self.old.places }
        requires new { has chunk (list_named self.old.lists list) ≡ false }
        ensures { self.new ≡ with_lists self.old (entered self.old.lists list chunk) }
    {
        match list {
            ListName::QInit => self.init.enter(chunk),
            ListName::Q000 => self.q000.enter(chunk),
            ListName::Q025 => self.q025.enter(chunk),
            ListName::Q050 => self.q050.enter(chunk),
            ListName::Q075 => self.q075.enter(chunk),
            ListName::Q100 => self.q100.enter(chunk),
        }
    }

    // A chunk leaves the lists.
    fn leave(&mut self, chunk: u32)
        ensures { self.new ≡ with_lists self.old (left self.old.lists chunk) }
    {
        self.init.leave(chunk);
        self.q000.leave(chunk);
        self.q025.leave(chunk);
        self.q050.leave(chunk);
        self.q075.leave(chunk);
        self.q100.leave(chunk);
    }
}
