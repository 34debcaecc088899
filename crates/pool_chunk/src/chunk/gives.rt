//! How a chunk takes bytes back: runs, and elements of its subpages.

ghost use Rattle.std.specs.Prelude.{◌≡◌};
ghost use Rattle.pool_chunk.specs.ChunkStates.{HasIdleSubpage, IsRunOut, IsElementOut, IsRunPlace, IsElementPlace, IsPlaceOut};
ghost use Rattle.pool_chunk.specs.Outcomes.{run_back, element_back, freed_by};
ghost use Rattle.pool_chunk.specs.declared.chunk.Freed.{Freed};

use super::{Chunk, Freed};
use crate::place::place_unpack;
use crate::slot::{CutRun, PageUse, clear, take_cut};
use ground::Piece;

impl Chunk {
    /// Gives the place of a word back, whose bytes are the piece. A run is merged with the free
    /// runs beside it. An element is remembered by its subpage, which keeps its run even if it is
    /// now idle.
    pub fn give(&mut self, piece: Piece, word: u64) -> Freed
        requires { IsPlaceOut self.old piece word }
        ensures run { (out : IsRunPlace self.old piece word)
            → (result ≡ Freed.Run) × (self.new ≡ run_back self.old out.page) }
        ensures element { (out : IsElementPlace self.old piece word)
            → (result ≡ freed_by out.element.subpage.elements out.index)
            × (self.new ≡ element_back self.old out.page out.element.subpage out.index) }
    {
        // A chunk has so few bytes that a word has room for each of its pages.
        prove!(self.bytes <= 1 << 24);
        let (page, _, _, sub, index) = place_unpack(word);
        if sub {
            return self.give_element(piece, page, index);
        }
        self.give_run(piece, page);
        Freed::Run
    }

    /// Gives an element of the subpage that begins at a page back, as `give` does by its word.
    pub fn give_element(&mut self, piece: Piece, page: u32, index: u32) -> Freed
        requires { IsElementOut self.old page index piece }
        ensures freed { (out : IsElementOut self.old page index piece)
            → result ≡ freed_by out.subpage.elements index }
        ensures chunk { (out : IsElementOut self.old page index piece)
            → self.new ≡ element_back self.old page out.subpage index }
    {
        let slot = &mut self.slots[page as usize];
        let PageUse::Cut(run) = slot else {
            unreachable!();
        };
        run.take_back(piece, index)
    }

    /// Gives the run that begins at a page back, as `give` does by its word.
    pub fn give_run(&mut self, piece: Piece, page: u32)
        requires { IsRunOut self.old page piece }
        ensures { self.new ≡ run_back self.old page }
    {
        clear(&mut self.slots, page as usize);
        self.map.give(piece);
    }

    /// Gives the run of an idle subpage back, as `give` does.
    pub fn drop_subpage(&mut self, page: u32)
        requires { HasIdleSubpage self.old page }
        ensures { self.new ≡ run_back self.old page }
    {
        let CutRun {
            class: _,
            pages: _,
            subpage,
        } = take_cut(&mut self.slots, page as usize);
        self.map.give(subpage.into_run());
    }
}
