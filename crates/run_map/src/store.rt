//! Free runs by the page where they begin, each with its memory: put among the others, and pulled.
//!
//! The pages of each run stand at both of its ends, and its first page in the bits of its page
//! class.

ghost use Rattle.std.specs.Prelude.{◌≡◌, ℕ, ◌*◌, ◌+◌, ◌<◌, ◌≤◌, ◌^◌, [], None, IfOk, length, slice_index_or};
ghost use Rattle.size_classes.specs.PageCounts.{IsLastAtMost};
ghost use Rattle.size_classes.specs.Spans.{AreSpacedFrom, placed_in};
ghost use Rattle.run_map.specs.Lengths.{beginning, without};
ghost use Rattle.run_map.specs.Spaced.{IsRunLayout, IsRun, span_of_run};
ghost use Rattle.run_map.specs.Stored.{IsStore, stored};

use crate::runs::{FreeRun, RunLayout};
use bit_words::WIDTH;
use ground::Piece;
use size_classes::last_at_most;
use std::alloc::{AllocError, Global};
use std::mem::replace;

// The page classes of a chunk of 2^11 pages, which is the largest.
pub(crate) const CLASSES: u32 = 40;

// The free runs of a chunk. No two of them meet.
pub(crate) struct Store {
    // For each page the pages of the free run that begins there, or 0.
    pub(crate) begins: Vec<u32>,
    // For each page, and for the end of the chunk, the pages of the free run that ends there, or 0.
    pub(crate) ends: Vec<u32>,
    // For each page the memory of the free run that begins there.
    pub(crate) pieces: Vec<Option<Piece>>,
    // So many words have a bit for each page.
    pub(crate) width: usize,
    // For each page class so many words, with the first pages of the free runs that stand under it.
    pub(crate) firsts: Vec<u64>,
    // A bit for each page class that has a free run.
    pub(crate) noted: u64,
}

// The page class under which a run of so many pages stands.
pub(crate) fn class_under(pages: u32) -> u32
    requires { (0 < pages) × (pages ≤ 2 ^ 11) }
    ensures last { IsLastAtMost pages result }
    ensures few { result < 40 }
{
    last_at_most(pages)
}

// The memory of no run, for each of so many pages.
fn no_pieces(alloc: Global, pages: usize) -> Result<Vec<Option<Piece>>, AllocError>
    ensures none { IfOk result (λ v. (i : ℕ) → slice_index_or v.items i None ≡ None) }
    ensures len { IfOk result (λ v. (length v.items ≡ pages) × (v.len ≡ pages)) }
{
    let mut pieces = Vec::with_capacity(alloc, pages)?;
    for _ in 0..pages {
        match pieces.push(None) {
            Ok(()) => {}
            Err(_) => unreachable!(),
        }
    }
    Ok(pieces)
}

impl Store {
    // The runs of a chunk that has none.
    pub(crate) fn new(alloc: Global, layout: &RunLayout) -> Result<Store, AllocError>
        requires { layout.now.pages ≤ 2 ^ 11 }
        ensures { IfOk result (λ s. IsStore layout.now s × (stored s ≡ [])) }
    {
        let pages = layout.pages as usize;
        let width = pages.div_ceil(WIDTH as usize);
        let begins = vec![in alloc; 0; pages]?;
        let ends = vec![in alloc; 0; pages + 1]?;
        let firsts = vec![in alloc; 0; width * CLASSES as usize]?;
        let pieces = no_pieces(alloc, pages)?;
        Ok(Store {
            begins,
            ends,
            pieces,
            width,
            firsts,
            noted: 0,
        })
    }

    // Spends a store that has no run.
    pub(crate) fn close(self, layout: &RunLayout)
        requires { IsStore layout.now self × (stored self ≡ []) }
    {
        let Store {
            begins: _,
            ends: _,
            mut pieces,
            width: _,
            firsts: _,
            noted: _,
        } = self;
        while let Some(piece) = pieces.pop() {
            match piece {
                None => {}
                Some(_) => unreachable!(),
            }
        }
        pieces.destroy_empty();
    }

    // The run that begins at a page, which goes.
    pub(crate) fn pull(&mut self, layout: &RunLayout, first: u32) -> FreeRun
        requires store { IsRunLayout layout.now × IsStore layout.now self.old }
        requires run { 0 < beginning first (stored self.old) }
        ensures store { IsStore layout.now self.new }
        ensures runs { stored self.new ≡ without first (stored self.old) }
        ensures place { (result.first ≡ first)
            × (result.pages ≡ beginning first (stored self.old)) }
        ensures run { IsRun layout.now result }
    {
        let pages = replace(&mut self.begins[first as usize], 0);
        self.ends[(first + pages) as usize] = 0;
        self.unmark(class_under(pages), first);
        match self.pieces[first as usize].take() {
            Some(piece) => FreeRun {
                first,
                pages,
                piece,
            },
            None => unreachable!(),
        }
    }

    // A run comes to the others.
    pub(crate) fn put(&mut self, layout: &RunLayout, run: FreeRun)
        requires store { IsRunLayout layout.now × IsStore layout.now self.old }
        requires run { IsRun layout.now run }
        requires spaced { AreSpacedFrom 0 (placed_in (span_of_run run) (stored self.old)) }
        ensures store { IsStore layout.now self.new }
        ensures runs { stored self.new ≡ placed_in (span_of_run run) (stored self.old) }
    {
        let FreeRun {
            first,
            pages,
            piece,
        } = run;
        self.begins[first as usize] = pages;
        self.ends[(first + pages) as usize] = pages;
        self.note(class_under(pages), first);
        match replace(&mut self.pieces[first as usize], Some(piece)) {
            None => {}
            Some(_) => unreachable!(),
        }
    }
}
