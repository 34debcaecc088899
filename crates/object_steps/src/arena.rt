//! An arena: its chunks, and what its notes make of them.

ghost use Rattle.std.specs.Prelude.{◌≡◌, ◌≤◌, ◌^◌, [], ◌∷◌, ◌++◌, Some, None, replicate};
ghost use Rattle.std.specs.Prelude.{slice_get, slice_set, IfOk, OnOk};
ghost use Rattle.pool_law.specs.Caches.{if_so};
ghost use Rattle.pool_law.specs.Arenas.{new_arena, chunk_at, front_of, with_front};
ghost use Rattle.pool_law.specs.Arenas.{without_subpage, is_alone};
ghost use Rattle.pool_law.specs.Arenas.{arena_step, chunk_end, chunk_ends};

mod gives;
mod runs;
mod takes;

use crate::chunk::Chunk;
use crate::lists::Lists;
use crate::sizes::Sizes;
use crate::subpage_list::SubpageList;
use crate::takings::Takings;
use pool_law::{ChunkEnd, Did};
use std::alloc::{AllocError, Global};
use std::marker::Model;

/// The state of an arena.
#[derive(Drop)]
pub struct Arena {
    chunks: Vec<Option<Chunk>>,
    lists: Lists,
    subpages: Vec<SubpageList>,
    takings: Takings,
}

impl Model for Arena {
    ghost use Rattle.std.specs.Prelude.{◌≤◌, ◌^◌, length};
    ghost use Rattle.pool_law.specs.Arenas.{Arena};

    ghost Value = { Arena };

    ghost view = { λ a. record {
      chunks = a.chunks.items;
      lists = a.lists;
      fronts = a.subpages.items;
      takings = a.takings.0;
      out = a.takings.1;
    } };

    ghost invariant = { λ a. length a.chunks.items ≤ 2 ^ 16 };
}

impl Arena {
    /// An arena at first.
    pub fn new(alloc: Global, sizes: &Sizes, chunks: u32) -> Result<Arena, AllocError>
        requires { chunks ≤ 2 ^ 16 }
        ensures { IfOk result (λ arena. arena ≡ new_arena sizes.now chunks) }
    {
        Ok(Arena {
            chunks: no_chunks(alloc, chunks)?,
            lists: Lists::new(alloc),
            subpages: no_subpages(alloc, sizes.count())?,
            takings: Takings::new(alloc),
        })
    }

    /// The arena of this number after a note, and none where the note may not stand.
    pub fn step(
        mut self,
        alloc: Global,
        sizes: &Sizes,
        number: u32,
        did: &Did,
    ) -> Result<Option<Arena>, AllocError>
        ensures { IfOk result (λ next. next ≡ arena_step sizes.now number self did.now) }
    {
        if self.noted(alloc, sizes, number, did)? {
            Ok(Some(self))
        } else {
            Ok(None)
        }
    }

    // Takes up a note. Answers whether it may stand.
    fn noted(
        &mut self,
        alloc: Global,
        sizes: &Sizes,
        number: u32,
        did: &Did,
    ) -> Result<bool, AllocError>
        ensures { IfOk result (λ stands. if_so stands self.new
            ≡ arena_step sizes.now number self.old did.now) }
    {
        match did {
            Did::Take { class, region } => self.taken(alloc, sizes, number, *class, region),
            Did::Full { class } => self.full(alloc, sizes, *class),
            Did::Give(region) => self.given(alloc, sizes, region),
            _ => Ok(false),
        }
    }

    /// Puts the chunks that are in a list behind others.
    pub fn push_ends(
        &self,
        sizes: &Sizes,
        number: u32,
        ends: &mut Vec<ChunkEnd>,
    ) -> Result<(), AllocError>
        ensures { OnOk result
            (ends.new.items ≡ ends.old.items ++ chunk_ends sizes.now number self.now) }
    {
        let places = self.chunks.len();
        for place in 0..places {
            if let Some(chunk) = &self.chunks[place] {
                self.push_end(sizes, number, place as u32, chunk, ends)?;
            }
        }
        Ok(())
    }

    // Puts a chunk behind others, if it is in a list.
    fn push_end(
        &self,
        sizes: &Sizes,
        number: u32,
        place: u32,
        chunk: &Chunk,
        ends: &mut Vec<ChunkEnd>,
    ) -> Result<(), AllocError>
        ensures { OnOk result (ends.new.items
            ≡ ends.old.items ++ chunk_end sizes.now number self.now place (Some chunk.now)) }
    {
        if let Some(list) = self.lists.list_of(place) {
            ends.push(ChunkEnd {
                arena: number,
                chunk: place,
                list,
                used: sizes.page() * chunk.used_pages(),
                free: sizes.page() * chunk.free_pages(),
            })?;
        }
        Ok(())
    }

    // The chunk at a place, which leaves it; one without runs where there is none.
    fn take_chunk(&mut self, alloc: Global, place: u32) -> Chunk
        ensures chunk { result ≡ chunk_at self.old place }
        ensures rest { self.new
            ≡ record self.old { chunks = slice_set self.old.chunks place None } }
    {
        let index = place as usize;
        if index < self.chunks.len() {
            let taken = self.chunks[index].take();
            match taken {
                Some(chunk) => chunk,
                None => Chunk::empty(alloc),
            }
        } else {
            Chunk::empty(alloc)
        }
    }

    // A place has this chunk, or none.
    fn put_chunk(&mut self, place: u32, chunk: Option<Chunk>)
        ensures { self.new ≡ record self.old { chunks = slice_set self.old.chunks place chunk } }
    {
        let index = place as usize;
        if index < self.chunks.len() {
            self.chunks[index] = chunk;
        }
    }

    // The subpage at the front of a class.
    fn first_subpage(&self, class: u32) -> Option<(u32, u32)>
        ensures { result ≡ slice_get (front_of self.now class) 0 }
    {
        match self.subpages.get(class as usize) {
            Some(list) => list.first(),
            None => None,
        }
    }

    // A subpage comes to the front of its class.
    fn push_subpage(&mut self, class: u32, chunk: u32, page: u32) -> Result<(), AllocError>
        ensures { OnOk result
            (self.new ≡ with_front self.old class ((chunk, page) ∷ front_of self.old class)) }
    {
        let index = class as usize;
        if index < self.subpages.len() {
            self.subpages[index].push(chunk, page)?;
        }
        Ok(())
    }

    // A subpage leaves the front of its class.
    fn drop_subpage(&mut self, class: u32, chunk: u32, page: u32)
        ensures { self.new
            ≡ with_front self.old class (without_subpage chunk page (front_of self.old class)) }
    {
        let index = class as usize;
        if index < self.subpages.len() {
            self.subpages[index].remove(chunk, page);
        }
    }

    // Whether a class has at most one subpage at its front.
    fn is_alone(&self, class: u32) -> bool
        ensures { result ≡ is_alone (front_of self.now class) }
    {
        match self.subpages.get(class as usize) {
            Some(list) => list.is_alone(),
            None => true,
        }
    }
}

// So many places without a chunk.
fn no_chunks(alloc: Global, count: u32) -> Result<Vec<Option<Chunk>>, AllocError>
    ensures { IfOk result (λ chunks. chunks.items ≡ replicate count None) }
{
    let mut chunks = Vec::new(alloc);
    for _place in 0..count {
        chunks.push(None)?;
    }
    Ok(chunks)
}

// So many classes without a subpage.
fn no_subpages(alloc: Global, count: u32) -> Result<Vec<SubpageList>, AllocError>
    ensures { IfOk result (λ subpages. subpages.items ≡ replicate count []) }
{
    let mut subpages = Vec::new(alloc);
    for _class in 0..count {
        subpages.push(SubpageList::new(alloc))?;
    }
    Ok(subpages)
}
