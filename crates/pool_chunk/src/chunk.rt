//! A chunk, and its calls.

ghost use Rattle.std.specs.Prelude.{◌≡◌, ◌+◌, ◌<◌, ◌≤◌, ◌↔◌, true, MatchResult, IfSome, IfNone, IsNone, None};
ghost use Rattle.ground.specs.Ground.{IsWhole};
ghost use Rattle.size_classes.specs.Sizes.{IsGeometry, IsPageClass, chunk_bytes, class_count, is_small, subpage_pages};
ghost use Rattle.size_classes.specs.Pages.{free_runs, chosen, run_start};
ghost use Rattle.size_classes.specs.Elements.{is_full};
ghost use Rattle.pool_law.specs.Chunks.{new_chunk, used_bytes, free_bytes, IsChunk};
ghost use Rattle.pool_chunk.specs.ChunkStates.{geometry_on, all_free, IsChunkGround, HasSubpage, IsInUse};
ghost use Rattle.pool_chunk.specs.Outcomes.{TakesRun, TakesSubpage, TakesElement};

mod gives;

use crate::place::place_pack;
use crate::slot::{CutRun, PageUse, fill, no_runs, spend};
use ground::Piece;
use run_map::RunMap;
use size_classes::SizeClasses;
use std::alloc::Global;
use std::marker::Model;
use std::mem::ManuallyDrop;
use subpage_bits::Subpage;

/// What was given back: an element of a subpage, the last one that was out, or a run.
#[derive(Debug, Clone, Copy, PartialEq, Eq)]
pub enum Freed {
    Element,
    Idle,
    Run,
}

/// A chunk of `2^order` pages: free runs, runs in use, and runs that are cut into elements.
///
/// After `new` no call takes memory. A chunk has no `Drop`: it ends by `into_piece` or by `leave`.
/// Its rules are those of Netty's `PoolChunk`.
pub struct Chunk {
    map: RunMap,
    classes: SizeClasses,
    bytes: u32,
    slots: Vec<PageUse>,
}

impl Model for Chunk {
    ghost use Rattle.pool_chunk.specs.ChunkStates.{ChunkState};

    ghost Value = { ChunkState };

    ghost use Rattle.pool_chunk.specs.Held.{state_in, IsHeld};

    ghost view = { state_in };

    ghost invariant = { IsHeld };
}

impl Chunk {
    /// The chunk of `2^order` pages that is a whole ground, all of it free. Want of memory hands
    /// the ground back.
    pub fn new(alloc: Global, order: u32, piece: Piece) -> Result<Chunk, Piece>
        requires sizes { IsGeometry (geometry_on order piece) }
        requires chunk { IsChunkGround (geometry_on order piece) piece }
        ensures { MatchResult result
            (λ chunk. chunk ≡ all_free (geometry_on order piece) piece) (λ back. back ≡ piece) }
    {
        let page = (piece.len() >> order) as u32;
        let Ok(classes) = SizeClasses::new(alloc, order, page) else {
            return Err(piece);
        };
        let Ok(slots) = no_runs(alloc, 2usize.pow(order)) else {
            return Err(piece);
        };
        let bytes = piece.len() as u32;
        match RunMap::new(alloc, order, piece) {
            Ok(map) => Ok(Chunk {
                map,
                classes,
                bytes,
                slots,
            }),
            Err(piece) => {
                spend(slots);
                Err(piece)
            }
        }
    }

    /// The bytes of the runs in use, idle subpages among them.
    pub fn used(&self) -> u32
        ensures bytes { result ≡ used_bytes self.now.geometry self.now.runs }
        ensures whole { result + free_bytes self.now.geometry self.now.runs
            ≡ chunk_bytes self.now.geometry }
    {
        self.bytes - self.map.free_bytes()
    }

    /// The bytes of the free runs.
    pub fn free(&self) -> u32
        ensures bytes { result ≡ free_bytes self.now.geometry self.now.runs }
        ensures chunk { IsChunk self.now.geometry self.now.runs }
    {
        self.map.free_bytes()
    }

    /// Whether every element of the subpage that begins at a page is out.
    pub fn is_full_subpage(&self, page: u32) -> bool
        requires { HasSubpage self.now page }
        ensures { (subpage : HasSubpage self.now page) → result ≡ is_full subpage.elements }
    {
        let slot = &self.slots[page as usize];
        let PageUse::Cut(run) = slot else {
            unreachable!();
        };
        run.subpage.is_full()
    }

    /// The first page of the run in use in which a page lies.
    ///
    /// It takes a step for each page between the two: six at most in a subpage.
    pub fn start_of(&self, page: u32) -> u32
        requires { IsInUse self.now page }
        ensures start { result ≡ run_start page self.now.runs }
        ensures before { result ≤ page }
        ensures chunk { IsChunk self.now.geometry self.now.runs }
    {
        let mut at = page;
        while self.slots[at as usize].is_nothing() {
            at -= 1;
        }
        at
    }

    /// So many pages, a page class, from the front of the free run that the rule chooses, and the
    /// word of their place. What is left of the run stays free.
    ///
    /// None where no free run has so many pages, and then nothing changes.
    pub fn take_run(&mut self, pages: u32) -> Option<(Piece, u64)>
        requires { IsPageClass self.old.geometry pages }
        ensures none { IfNone result ((self.new ≡ self.old)
            × (chosen self.old.geometry pages (free_runs 0 self.old.runs) ≡ None)) }
        ensures some { IfSome result (λ x. TakesRun self.old self.new pages x.0 x.1) }
    {
        match self.map.take(pages) {
            None => None,
            Some((piece, page)) => {
                fill(&mut self.slots, page as usize, PageUse::Run(pages));
                Some((piece, place_pack(page, pages, true, false, 0)))
            }
        }
    }

    /// A subpage of a small class, in the fewest pages that are whole elements: its first page.
    ///
    /// None where no free run has so many pages, and then nothing changes.
    pub fn take_subpage(&mut self, class: u32) -> Option<u32>
        requires { (class < class_count self.old.geometry)
            × (is_small self.old.geometry class ≡ true) }
        ensures none { IfNone result ((self.new ≡ self.old)
            × (chosen self.old.geometry (subpage_pages self.old.geometry class)
            (free_runs 0 self.old.runs) ≡ None)) }
        ensures some { IfSome result (λ page. TakesSubpage self.old self.new class page) }
    {
        let pages = self.classes.subpage_pages(class);
        let size = self.classes.size_of(class);
        match self.map.take(pages) {
            None => None,
            Some((piece, page)) => {
                let subpage = Subpage::of(piece, size);
                let run = CutRun {
                    class,
                    pages,
                    subpage,
                };
                fill(&mut self.slots, page as usize, PageUse::Cut(run));
                Some(page)
            }
        }
    }

    /// The next element of the subpage that begins at a page, and the word of its place.
    ///
    /// None where every element is out, and then nothing changes.
    pub fn take_element(&mut self, page: u32) -> Option<(Piece, u64)>
        requires { HasSubpage self.old page }
        ensures full { (subpage : HasSubpage self.old page)
            → IsNone result ↔ (is_full subpage.elements ≡ true) }
        ensures none { IfNone result (self.new ≡ self.old) }
        ensures some { IfSome result (λ x. TakesElement self.old self.new page x.0 x.1) }
    {
        let slot = &mut self.slots[page as usize];
        let PageUse::Cut(run) = slot else {
            unreachable!();
        };
        run.hand_out(page)
    }

    /// The whole ground, where all of it is free.
    pub fn into_piece(self) -> Piece
        requires { self.runs ≡ new_chunk self.geometry }
        ensures { IsWhole result × (result.origin ≡ self.origin) }
    {
        let Chunk {
            map,
            classes: _,
            bytes: _,
            slots,
        } = self;
        spend(slots);
        map.into_piece()
    }

    /// Spends the chunk and keeps its memory until the program ends.
    pub fn leave(self) {
        let _left = unsafe { ManuallyDrop::new_unchecked(self) };
    }
}
