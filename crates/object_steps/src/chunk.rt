//! A chunk, as the list of its runs.

ghost use Rattle.std.specs.Prelude.{◌≡◌, ◌<◌, ◌≤◌, ◌^◌, [], ◌∷◌, IfOk};
ghost use Rattle.std.specs.Option.{option_copied};
ghost use Rattle.size_classes.specs.Pages.{Free, run_at, run_start, free_pages};
ghost use Rattle.pool_law.specs.Chunks.{used_pages, usage};
ghost use Rattle.pool_law.specs.Arenas.{elements_in};

mod changing;
mod choosing;

use crate::elements::Elements;
use crate::run::{Kind, Run};
use crate::sizes::Sizes;
use std::alloc::{AllocError, Global};
use std::collections::VecDeque;
use std::marker::Model;

/// The runs of a chunk, in order of offset.
#[derive(Drop)]
pub struct Chunk {
    runs: VecDeque<Run>,
}

impl Model for Chunk {
    ghost use Rattle.pool_law.specs.Chunks.{Chunk};
    ghost use Rattle.object_steps.specs.Runs.{AreRuns};

    ghost Value = { Chunk };

    ghost view = { λ c. c.runs.items };

    ghost invariant = { λ c. AreRuns c.runs.items };
}

impl Chunk {
    /// A chunk of one free run.
    pub fn new(alloc: Global, pages: u32) -> Result<Chunk, AllocError>
        requires { (0 < pages) × (pages ≤ 2 ^ 16) }
        ensures { IfOk result (λ chunk. chunk ≡ Free pages ∷ []) }
    {
        let mut runs = VecDeque::new(alloc);
        runs.push_back(Run {
            pages,
            kind: Kind::Free,
        })?;
        Ok(Chunk { runs })
    }

    /// A chunk without runs.
    pub fn empty(alloc: Global) -> Chunk
        ensures { result ≡ [] }
    {
        Chunk {
            runs: VecDeque::new(alloc),
        }
    }

    /// The usage of the chunk, in hundredths.
    pub fn usage(&self, sizes: &Sizes) -> u32
        ensures { result ≡ usage sizes.now self.now }
    {
        let free = sizes.page() * self.free_pages();
        if free == 0 {
            return 100;
        }
        let size = sizes.page() * sizes.chunk_pages();
        let percent = u64::from(free) * 100 / u64::from(size);
        if percent == 0 {
            99
        } else {
            100u64.saturating_sub(percent) as u32
        }
    }

    /// The elements of a class where a subpage of it begins at a page.
    pub fn elements_at(&self, page: u32, class: u32) -> Option<&Elements>
        ensures { option_copied result ≡ elements_in class (run_at page self.now) }
    {
        let mut left = page;
        for index in 0..self.runs.len() {
            let run = &self.runs[index];
            if left == 0 {
                return run.elements(class);
            }
            if left < run.pages() {
                return None;
            }
            left -= run.pages();
        }
        None
    }

    /// The first page of the run in which a page lies.
    pub fn start_of(&self, page: u32) -> u32
        ensures { result ≡ run_start page self.now }
    {
        let mut left = page;
        let mut start = 0;
        for index in 0..self.runs.len() {
            let pages = self.runs[index].pages();
            if left < pages {
                return start;
            }
            start += pages;
            left -= pages;
        }
        start
    }

    /// The pages of all runs in use.
    pub fn used_pages(&self) -> u32
        ensures pages { result ≡ used_pages self.now }
        ensures few { result ≤ 2 ^ 16 }
    {
        let mut used = 0;
        for index in 0..self.runs.len() {
            used += self.runs[index].used();
        }
        used
    }

    /// The pages of all free runs.
    pub fn free_pages(&self) -> u32
        ensures pages { result ≡ free_pages self.now }
        ensures few { result ≤ 2 ^ 16 }
    {
        let mut free = 0;
        for index in 0..self.runs.len() {
            free += self.runs[index].free();
        }
        free
    }
}
