//! Runs that an arena gives.

ghost use Rattle.std.specs.Prelude.{◌≡◌, ◌≤◌, ◌<◌, ℕ, Some, length, option_map};
ghost use Rattle.std.specs.Prelude.{IfOk, IfSome, OnOk};
ghost use Rattle.size_classes.specs.Pages.{Used, free_runs, chosen, run_at};
ghost use Rattle.pool_law.specs.Chunks.{Use};
ghost use Rattle.pool_law.specs.ChunkLists.{walk};
ghost use Rattle.pool_law.specs.Arenas.{chunk_at, first_holding, first_unused, opened, with_run};
ghost use Rattle.pool_law.specs.Arenas.{take_run};
ghost use Rattle.object_steps.specs.Runs.{IsCapped, use_of};
ghost use Rattle.object_steps.specs.Moves.{HasRoomAt, GivesYielded, with_run_at};

use crate::arena::Arena;
use crate::chunk::Chunk;
use crate::run::Purpose;
use crate::sizes::Sizes;
use pool_law::ListName;
use std::alloc::{AllocError, Global};

impl Arena {
    /// A run of so many pages: its chunk and its first page. None where the arena is full.
    pub(crate) fn take_run(
        &mut self,
        alloc: Global,
        sizes: &Sizes,
        pages: u32,
        what: Purpose,
    ) -> Result<Option<(u32, u32)>, AllocError>
        requires { 0 < pages }
        ensures spot { (wanted : ℕ) → IsCapped wanted pages → IfOk result (λ spot. GivesYielded
            (take_run sizes.now self.old wanted (use_of what)) self.old self.new spot) }
        ensures begins { IfOk result (λ spot. IfSome spot (λ s.
            run_at s.1 (chunk_at self.new s.0) ≡ Some (Used pages (use_of what)))) }
    {
        let Some((place, page)) = self.room_for(alloc, sizes, pages)? else {
            return Ok(None);
        };
        self.give_run(alloc, sizes, place, page, pages, what)?;
        Ok(Some((place, page)))
    }

    // A chunk with a free run of so many pages, which is opened where no chunk has one, and the
    // first page of the run. None where the arena is full.
    fn room_for(
        &mut self,
        alloc: Global,
        sizes: &Sizes,
        pages: u32,
    ) -> Result<Option<(u32, u32)>, AllocError>
        requires { 0 < pages }
        ensures spot { (wanted : ℕ) → IsCapped wanted pages → (what : Use) → IfOk result (λ spot.
            GivesYielded (take_run sizes.now self.old wanted what) self.old
            (with_run_at sizes.now self.new pages what spot) spot) }
        ensures room { IfOk result (λ spot. IfSome spot
            (λ s. HasRoomAt self.new s.0 s.1 pages)) }
    {
        if let Some((place, page)) = self.first_holding(alloc, sizes, pages)? {
            return Ok(Some((place, page)));
        }
        let Some(place) = self.first_unused() else {
            return Ok(None);
        };
        if pages > sizes.chunk_pages() {
            return Ok(None);
        }
        self.open(alloc, sizes, place)?;
        Ok(Some((place, 0)))
    }

    // The first page of the free run that so many pages take from a chunk.
    fn choose_in(
        &self,
        alloc: Global,
        sizes: &Sizes,
        pages: u32,
        place: u32,
    ) -> Result<Option<u32>, AllocError>
        requires { 0 < pages }
        ensures page { (wanted : ℕ) → IsCapped wanted pages → IfOk result (λ page. page
            ≡ option_map (λ run. run.0)
            (chosen sizes.now wanted (free_runs 0 (chunk_at self.now place)))) }
        ensures room { IfOk result (λ page. IfSome page
            (λ at. HasRoomAt self.now place at pages)) }
    {
        match self.chunks.get(place as usize) {
            Some(Some(chunk)) => chunk.choose(alloc, sizes, pages),
            _ => Ok(None),
        }
    }

    // The first chunk that has a free run of so many pages, and the first page of the run chosen.
    #[tactic(auto, using(crate::proofs::ArenaLemmas::holding_append))]
    fn first_holding(
        &self,
        alloc: Global,
        sizes: &Sizes,
        pages: u32,
    ) -> Result<Option<(u32, u32)>, AllocError>
        requires { 0 < pages }
        ensures spot { (wanted : ℕ) → IsCapped wanted pages → IfOk result (λ spot. spot
            ≡ first_holding sizes.now self.now wanted (walk self.now.lists)) }
        ensures room { IfOk result (λ spot. IfSome spot
            (λ s. HasRoomAt self.now s.0 s.1 pages)) }
    {
        for name in [
            ListName::Q050,
            ListName::Q025,
            ListName::Q000,
            ListName::QInit,
            ListName::Q075,
        ] {
            let places = self.lists.named(name);
            if let Some(spot) = self.first_of(alloc, sizes, pages, places)? {
                return Ok(Some(spot));
            }
        }
        Ok(None)
    }

    // The same, of these chunks.
    fn first_of(
        &self,
        alloc: Global,
        sizes: &Sizes,
        pages: u32,
        places: &[u32],
    ) -> Result<Option<(u32, u32)>, AllocError>
        requires { 0 < pages }
        ensures spot { (wanted : ℕ) → IsCapped wanted pages → IfOk result (λ spot. spot
            ≡ first_holding sizes.now self.now wanted places.now) }
        ensures room { IfOk result (λ spot. IfSome spot
            (λ s. HasRoomAt self.now s.0 s.1 pages)) }
    {
        for place in places {
            if let Some(page) = self.choose_in(alloc, sizes, pages, *place)? {
                return Ok(Some((*place, page)));
            }
        }
        Ok(None)
    }

    // The lowest chunk place that has no chunk.
    fn first_unused(&self) -> Option<u32>
        ensures place { result ≡ first_unused self.now.chunks }
        ensures within { IfSome result (λ place. place < length self.now.chunks) }
    {
        match first_none(&self.chunks) {
            Some(place) => Some(place as u32),
            None => None,
        }
    }

    // A chunk gives the front pages of a free run, and settles upwards.
    #[tactic(auto, using(crate::proofs::ArenaLemmas::set_twice))]
    fn give_run(
        &mut self,
        alloc: Global,
        sizes: &Sizes,
        place: u32,
        page: u32,
        pages: u32,
        what: Purpose,
    ) -> Result<(), AllocError>
        requires { HasRoomAt self.old place page pages }
        ensures { OnOk result
            (self.new ≡ with_run sizes.now self.old place page pages (use_of what)) }
    {
        let old = self.take_chunk(alloc, place);
        let chunk = old.taken(alloc, page, pages, what)?;
        let usage = chunk.usage(sizes);
        let here = self.lists.list_of(place);
        self.put_chunk(place, Some(chunk));
        self.lists.settle_up(place, usage, here)?;
        Ok(())
    }

    // A place gets a chunk of one free run, which enters the first list.
    fn open(&mut self, alloc: Global, sizes: &Sizes, place: u32) -> Result<(), AllocError>
        ensures { OnOk result (self.new ≡ opened sizes.now self.old place) }
    {
        let chunk = Chunk::new(alloc, sizes.chunk_pages())?;
        self.put_chunk(place, Some(chunk));
        self.lists.enter(ListName::QInit, place)?;
        Ok(())
    }
}

// The first that is none.
#[tactic(auto, using(crate::proofs::ArenaLemmas::unused_behind))]
fn first_none(chunks: &[Option<Chunk>]) -> Option<usize>
    ensures place { result ≡ first_unused chunks.now }
    ensures within { IfSome result (λ place. place < length chunks.now) }
{
    for (place, chunk) in chunks.iter().enumerate() {
        if chunk.is_none() {
            return Some(place);
        }
    }
    None
}
