//! One list of chunks.

ghost use Rattle.std.specs.Prelude.{◌≡◌, ◌<◌, ◌≤◌, ◌∷◌, false, length, IsTrue, IfOk};
ghost use Rattle.pool_law.specs.ChunkLists.{has, without};

use std::alloc::{AllocError, Global};
use std::collections::VecDeque;
use std::marker::Model;

/// Chunks by number, the one that entered last first (Netty: `PoolChunkList`).
#[derive(Drop)]
pub(crate) struct ChunkList {
    chunks: VecDeque<u32>,
}

impl Model for ChunkList {
    ghost use Rattle.chunk_list.specs.Members.{Members};

    ghost Value = { Members };

    ghost use Rattle.chunk_list.specs.Kept.{members_in, IsChunkList};

    ghost view = { members_in };

    ghost invariant = { IsChunkList };
}

impl ChunkList {
    ghost use Rattle.chunk_list.specs.Members.{no_members, with_numbers};

    /// An empty list with room for all chunks.
    pub(crate) fn new(alloc: Global, places: u32) -> Result<ChunkList, AllocError>
        ensures { IfOk result (λ list. list ≡ no_members places) }
    {
        let chunks = VecDeque::with_capacity(alloc, places as usize)?;
        Ok(ChunkList { chunks })
    }

    /// Whether a chunk is in the list.
    #[tactic(auto, using(crate::proofs::MemberLemmas::below_limit))]
    pub(crate) fn has(&self, chunk: u32) -> bool
        ensures found { result ≡ has chunk self.now.numbers }
        ensures below { IsTrue result → chunk < self.now.places }
    {
        is_among(&self.chunks, chunk)
    }

    /// Its chunks, from the head: no more than there are.
    #[tactic(auto, using(crate::proofs::MemberLemmas::most_places))]
    pub(crate) fn chunks(&self) -> &VecDeque<u32>
        ensures items { result.now.items ≡ self.now.numbers }
        ensures few { length self.now.numbers ≤ self.now.places }
    {
        &self.chunks
    }

    /// A chunk enters the list at its head.
    #[tactic(auto, using(crate::proofs::MemberLemmas::has_room))]
    pub(crate) fn enter(&mut self, chunk: u32)
        requires place { chunk < self.old.places }
        requires new { has chunk self.old.numbers ≡ false }
        ensures { self.new ≡ with_numbers self.old (chunk ∷ self.old.numbers) }
    {
        self.chunks.push_front_reserved(chunk);
    }

    /// A chunk leaves the list, if it is there.
    pub(crate) fn leave(&mut self, chunk: u32)
        ensures { self.new ≡ with_numbers self.old (without chunk self.old.numbers) }
    {
        self.chunks.retain(|x| *x != chunk);
    }
}

// Whether a number is among these.
fn is_among(chunks: &VecDeque<u32>, chunk: u32) -> bool
    ensures { result ≡ has chunk chunks.now.items }
{
    chunks.iter().any(|x| *x == chunk)
}
