//! A chunk place: the memory of a chunk, whether or not the arena has a chunk there.

ghost use Rattle.std.specs.Prelude.{◌≡◌, ◌+◌, ◌/◌, ◌^◌, ◌<◌, ◌≤◌, false, is_some, IsSome, Some, None, IfOk, IfSome, IfNone};
ghost use Rattle.size_classes.specs.Sizes.{of_pages, IsGeometry, chunk_bytes};
ghost use Rattle.size_classes.specs.Pages.{run_start, given_at};
ghost use Rattle.size_classes.specs.Elements.{is_full, is_idle, with_back};
ghost use Rattle.pool_law.specs.Chunks.{new_chunk, used_bytes, free_bytes, usage, IsChunk};
ghost use Rattle.pool_chunk.specs.ChunkStates.{IsInUse, HasSubpage, HasIdleSubpage, IsRunOut, IsElementOut};
ghost use Rattle.pool_chunk.specs.Outcomes.{element_back};
ghost use Rattle.pool_arena.specs.Closing.{IsAllFree};

use ground::{Deed, Ground, Piece};
use pool_chunk::{Chunk, Freed};
use std::alloc::{AllocError, Global};
use std::marker::Model;

/// What a chunk is asked for: a run of so many pages, or a subpage of a class.
#[derive(Clone, Copy, Drop)]
pub(crate) enum Wanted {
    Run(u32),
    Subpage(u32),
}

/// What it cuts off: the bytes of a run, or a subpage by its first page.
pub(crate) enum Cut {
    Run(Piece),
    Subpage(u32),
}

/// The memory of a chunk, and whether the arena has a chunk there.
///
/// The chunk of an unused place is all free, so that no memory is taken when it comes into use.
pub(crate) struct ChunkPlace {
    chunk: Chunk,
    deed: Deed,
    used: bool,
}

impl Model for ChunkPlace {
    ghost use Rattle.pool_arena.specs.Places.{PlaceState};

    ghost Value = { PlaceState };

    ghost use Rattle.pool_arena.specs.Places.{place_in, IsPlace};

    ghost view = { place_in };

    ghost invariant = { IsPlace };
}

impl ChunkPlace {
    ghost use Rattle.pool_arena.specs.Places.{with_chunk, runs_of, state_of, Cuts, HasNone, HandsOut, IsWanted};

    /// An unused place, with the memory of a chunk of `2^order` pages of so many bytes.
    pub(crate) fn new(alloc: Global, page: u32, order: u32) -> Result<ChunkPlace, AllocError>
        requires { IsGeometry (of_pages order page) }
        ensures geometry { IfOk result (λ place. place.geometry ≡ of_pages order page) }
        ensures unused { IfOk result (λ place. place.chunk ≡ None) }
    {
        let (piece, deed) = Ground::new(alloc, page as usize * 2usize.pow(order))?;
        match Chunk::new(alloc, order, piece) {
            Ok(chunk) => Ok(ChunkPlace {
                chunk,
                deed,
                used: false,
            }),
            Err(piece) => {
                piece.close(deed);
                Err(AllocError)
            }
        }
    }

    /// Whether the arena has a chunk here.
    pub(crate) fn is_used(&self) -> bool
        ensures { result ≡ is_some self.now.chunk }
    {
        self.used
    }

    /// The bytes of its chunk that are used.
    pub(crate) fn used(&self) -> u32
        requires { IsSome self.now.chunk }
        ensures bytes { result ≡ used_bytes self.now.geometry (runs_of self.now) }
        ensures whole { result + free_bytes self.now.geometry (runs_of self.now)
            ≡ chunk_bytes self.now.geometry }
    {
        self.chunk.used()
    }

    /// The bytes of its chunk that are free.
    pub(crate) fn free(&self) -> u32
        requires { IsSome self.now.chunk }
        ensures bytes { result ≡ free_bytes self.now.geometry (runs_of self.now) }
        ensures chunk { IsChunk self.now.geometry (runs_of self.now) }
    {
        self.chunk.free()
    }

    /// How much of its chunk is used, in hundredths.
    pub(crate) fn usage(&self) -> u32
        requires used { IsSome self.now.chunk }
        requires bytes { chunk_bytes self.now.geometry ≤ 2 ^ 24 }
        ensures usage { result ≡ usage self.now.geometry (runs_of self.now) }
        ensures most { result ≤ 100 }
        ensures chunk { IsChunk self.now.geometry (runs_of self.now) }
    {
        let free = self.free();
        let size = self.used() + free;
        if free == 0 {
            return 100;
        }
        let percent = free * 100 / size;
        if percent == 0 { 99 } else { 100 - percent }
    }

    /// The arena has a chunk here from now on, all of it free.
    pub(crate) fn start(&mut self)
        requires { self.old.chunk ≡ None }
        ensures { self.new ≡ with_chunk self.old (Some (new_chunk self.old.geometry)) }
    {
        self.used = true;
    }

    /// It has none from now on. The chunk that it had was all free.
    pub(crate) fn end(&mut self)
        requires { self.old.chunk ≡ Some (new_chunk self.old.geometry) }
        ensures { self.new ≡ with_chunk self.old None }
    {
        self.used = false;
    }

    /// Cuts what is wanted from the front of the free run that the rule chooses.
    /// None where no free run has the pages, and then nothing changes.
    pub(crate) fn cut(&mut self, wanted: Wanted) -> Option<Cut>
        requires used { IsSome self.old.chunk }
        requires wanted { IsWanted self.old.geometry wanted }
        ensures none { IfNone result ((self.new ≡ self.old) × HasNone self.old wanted) }
        ensures some { IfSome result (λ cut. Cuts self.old wanted self.new cut) }
    {
        match wanted {
            Wanted::Run(pages) => match self.chunk.take_run(pages) {
                Some((piece, _word)) => Some(Cut::Run(piece)),
                None => None,
            },
            Wanted::Subpage(class) => match self.chunk.take_subpage(class) {
                Some(page) => Some(Cut::Subpage(page)),
                None => None,
            },
        }
    }

    /// Whether every element of the subpage that begins at a page is out.
    pub(crate) fn is_full(&self, page: u32) -> bool
        requires { HasSubpage (state_of self.now) page }
        ensures { (sub : HasSubpage (state_of self.now) page) → result ≡ is_full sub.elements }
    {
        self.chunk.is_full_subpage(page)
    }

    /// The next element of the subpage that begins at a page.
    pub(crate) fn take_element(&mut self, page: u32) -> Piece
        requires { (sub : HasSubpage (state_of self.old) page) × (is_full sub.elements ≡ false) }
        ensures { (sub : HasSubpage (state_of self.old) page)
            → HandsOut self.old page sub self.new result }
    {
        let Some((piece, _word)) = self.chunk.take_element(page) else {
            unreachable!();
        };
        piece
    }

    /// The first page of the run in use in which a page lies.
    pub(crate) fn start_of(&self, page: u32) -> u32
        requires { IsInUse (state_of self.now) page }
        ensures start { result ≡ run_start page (runs_of self.now) }
        ensures before { result ≤ page }
        ensures chunk { IsChunk self.now.geometry (runs_of self.now) }
    {
        self.chunk.start_of(page)
    }

    /// A run comes back, that begins at a page.
    pub(crate) fn give_run(&mut self, piece: Piece, page: u32)
        requires { IsRunOut (state_of self.old) page piece }
        ensures { self.new ≡ with_chunk self.old (Some (given_at page (runs_of self.old))) }
    {
        self.chunk.give_run(piece, page);
    }

    /// An element comes back, of the subpage that begins at a page.
    /// Answers whether none is out any more.
    pub(crate) fn give_element(&mut self, piece: Piece, page: u32, index: u32) -> bool
        requires { IsElementOut (state_of self.old) page index piece }
        ensures idle { (out : IsElementOut (state_of self.old) page index piece)
            → result ≡ is_idle (with_back out.subpage.elements index) }
        ensures chunk { (out : IsElementOut (state_of self.old) page index piece)
            → self.new ≡ with_chunk self.old
            (Some (element_back (state_of self.old) page out.subpage index).runs) }
    {
        match self.chunk.give_element(piece, page, index) {
            Freed::Idle => true,
            Freed::Element => false,
            Freed::Run => unreachable!(),
        }
    }

    /// An idle subpage gives its run back.
    pub(crate) fn drop_subpage(&mut self, page: u32)
        requires { HasIdleSubpage (state_of self.old) page }
        ensures { self.new ≡ with_chunk self.old (Some (given_at page (runs_of self.old))) }
    {
        self.chunk.drop_subpage(page);
    }

    /// Gives the memory back. All of it is free.
    pub(crate) fn close(self)
        requires { IsAllFree self }
    {
        let ChunkPlace {
            chunk,
            deed,
            used: _,
        } = self;
        // Its runs are a chunk.
        let _free = chunk.free();
        chunk.into_piece().close(deed);
    }

    /// Keeps the memory until the program ends.
    pub(crate) fn leave(self) {
        let ChunkPlace {
            chunk,
            deed,
            used: _,
        } = self;
        chunk.leave();
        deed.leave();
    }
}
