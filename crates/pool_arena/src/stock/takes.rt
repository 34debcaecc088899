//! How a stock of chunks gives bytes: runs, and elements of subpages.

ghost use Rattle.std.specs.Prelude.{◌≡◌, ◌<◌, [], true, false, length, None, IfSome, IfNone, position, not, is_some};
ghost use Rattle.size_classes.specs.Sizes.{class_count, is_small};
ghost use Rattle.size_classes.specs.Pages.{NoneEmpty};
ghost use Rattle.pool_law.specs.Arenas.{first_unused, opened, take_element, take_class, front_of, chunk_at};
ghost use Rattle.arena_laws.specs.Orderly.{IsOrderly};
ghost use Rattle.pool_arena.specs.Places.{PlaceState, IsWanted};
ghost use Rattle.pool_arena.specs.declared.place.Wanted.{Wanted};

use super::{ChunkStock, settle};
use crate::place::{ChunkPlace, Cut, Wanted};
use crate::subpage_list::SubpageAt;
use ground::Piece;

impl ChunkStock {
    ghost use Rattle.pool_arena.specs.Stocks.{arena_in, Becomes, YieldsNone, HasChunk, HasNoChunk, CutsFrom, CutsOff, FindsNone, FindsIn, found_in, run_wanted, NewFront, IsOpen, GivesPlace};

    /// A place for a class, from the chunk at a place: its bytes.
    /// None where nothing is free for it and each place has a chunk, and then nothing changes.
    pub(crate) fn take(&mut self, class: u32) -> Option<(u32, Piece)>
        requires class { class < class_count self.old.geometry }
        requires orderly { IsOrderly self.old.geometry (arena_in self.old) }
        ensures none { IfNone result ((self.new ≡ self.old)
            × YieldsNone self.old (λ a. take_class self.old.geometry a class)) }
        ensures some { IfSome result (λ x. GivesPlace self.old
            (λ a. take_class self.old.geometry a class) class self.new x.0 x.1) }
    {
        if self.classes.is_small(class) {
            self.take_small(class)
        } else {
            self.take_whole(class)
        }
    }

    // A run of the pages of a class, as a whole.
    fn take_whole(&mut self, class: u32) -> Option<(u32, Piece)>
        requires class { class < class_count self.old.geometry }
        requires whole { is_small self.old.geometry class ≡ false }
        requires orderly { IsOrderly self.old.geometry (arena_in self.old) }
        ensures none { IfNone result ((self.new ≡ self.old)
            × YieldsNone self.old (λ a. take_class self.old.geometry a class)) }
        ensures some { IfSome result (λ x. GivesPlace self.old
            (λ a. take_class self.old.geometry a class) class self.new x.0 x.1) }
    {
        let pages = self.classes.pages_of(class);
        let (chunk, cut) = self.cut(Wanted::Run(pages))?;
        let Cut::Run(piece) = cut else {
            unreachable!();
        };
        Some((chunk, piece))
    }

    // An element of the front subpage of a class, or of a new one where there is none.
    fn take_small(&mut self, class: u32) -> Option<(u32, Piece)>
        requires class { (class < class_count self.old.geometry)
            × (is_small self.old.geometry class ≡ true) }
        requires orderly { IsOrderly self.old.geometry (arena_in self.old) }
        ensures none { IfNone result ((self.new ≡ self.old)
            × YieldsNone self.old (λ a. take_class self.old.geometry a class)) }
        ensures some { IfSome result (λ x. GivesPlace self.old
            (λ a. take_class self.old.geometry a class) class self.new x.0 x.1) }
    {
        if let Some(spot) = self.fronts[class as usize].first() {
            let piece = self.take_element(class, spot);
            return Some((spot.chunk, piece));
        }
        let spot = self.new_subpage(class)?;
        let piece = self.take_element(class, spot);
        Some((spot.chunk, piece))
    }

    // A subpage of a class that has none, which is then its front.
    fn new_subpage(&mut self, class: u32) -> Option<SubpageAt>
        requires class { (class < class_count self.old.geometry)
            × (is_small self.old.geometry class ≡ true) }
        requires orderly { IsOrderly self.old.geometry (arena_in self.old) }
        requires none { front_of (arena_in self.old) class ≡ [] }
        ensures none { IfNone result ((self.new ≡ self.old)
            × YieldsNone self.old (run_wanted self.old (Wanted.Subpage class))) }
        ensures some { IfSome result (λ spot.
            NewFront self.old class self.new spot.chunk spot.page) }
    {
        let (chunk, cut) = self.cut(Wanted::Subpage(class))?;
        let Cut::Subpage(page) = cut else {
            unreachable!();
        };
        let spot = SubpageAt { chunk, page };
        self.fronts[class as usize].enter(spot);
        Some(spot)
    }

    // The next element of a subpage, which leaves its list if it is then full.
    fn take_element(&mut self, class: u32, spot: SubpageAt) -> Piece
        requires class { class < class_count self.old.geometry }
        requires room { IsOpen self.old class spot.chunk spot.page }
        requires some { NoneEmpty (chunk_at (arena_in self.old) spot.chunk) }
        ensures { GivesPlace self.old
            (λ a. take_element self.old.geometry a class (spot.chunk, spot.page))
            class self.new spot.chunk result }
    {
        let place = &mut self.places[spot.chunk as usize];
        let piece = place.take_element(spot.page);
        if place.is_full(spot.page) {
            self.fronts[class as usize].leave(spot);
        }
        piece
    }

    // What is wanted, from the first chunk that has it or from a new one, which settles.
    fn cut(&mut self, wanted: Wanted) -> Option<(u32, Cut)>
        requires wanted { IsWanted self.old.geometry wanted }
        requires orderly { IsOrderly self.old.geometry (arena_in self.old) }
        ensures none { IfNone result ((self.new ≡ self.old)
            × YieldsNone self.old (run_wanted self.old wanted)) }
        ensures some { IfSome result (λ x. CutsOff self.old wanted self.new x.0 x.1) }
    {
        if let Some((chunk, cut)) = self.cut_first(wanted) {
            return Some((chunk, cut));
        }
        let chunk = self.first_unused()?;
        self.start(chunk);
        let Some(cut) = self.cut_from(chunk, wanted) else {
            unreachable!();
        };
        Some((chunk, cut))
    }

    // What is wanted, from the first of the chunks in the order in which they are asked.
    fn cut_first(&mut self, wanted: Wanted) -> Option<(u32, Cut)>
        requires wanted { IsWanted self.old.geometry wanted }
        requires orderly { IsOrderly self.old.geometry (arena_in self.old) }
        ensures none { IfNone result ((self.new ≡ self.old) × FindsNone self.old wanted) }
        ensures some { IfSome result (λ x. FindsIn self.old wanted self.new x.0 x.1) }
    {
        let mut k = 0;
        while let Some(chunk) = self.lists.nth(k) {
            if let Some(cut) = self.cut_from(chunk, wanted) {
                return Some((chunk, cut));
            }
            k += 1;
        }
        None
    }

    // What is wanted, from the chunk at a place, which settles.
    fn cut_from(&mut self, chunk: u32, wanted: Wanted) -> Option<Cut>
        requires wanted { IsWanted self.old.geometry wanted }
        requires there { HasChunk self.old chunk }
        requires some { NoneEmpty (chunk_at (arena_in self.old) chunk) }
        ensures none { IfNone result ((self.new ≡ self.old)
            × (found_in self.old chunk wanted ≡ None)) }
        ensures some { IfSome result (λ cut. CutsFrom self.old chunk wanted self.new cut) }
    {
        let place = &mut self.places[chunk as usize];
        let cut = place.cut(wanted)?;
        settle(place, &mut self.lists, chunk);
        Some(cut)
    }

    // The lowest chunk place without a chunk.
    fn first_unused(&self) -> Option<u32>
        ensures { result ≡ first_unused self.now.chunks }
    {
        match first_unused(&self.places) {
            Some(chunk) => Some(chunk as u32),
            None => None,
        }
    }

    // A chunk comes into use.
    fn start(&mut self, chunk: u32)
        requires { HasNoChunk self.old chunk }
        ensures { Becomes self.old (λ a. opened self.old.geometry a chunk) self.new }
    {
        self.places[chunk as usize].start();
        let _list = self.lists.add(chunk, 0);
    }
}

// The place of the first chunk place without a chunk.
fn first_unused(places: &[ChunkPlace]) -> Option<usize>
    ensures place { result ≡ position (λ (p : PlaceState). not (is_some p.chunk)) places.now }
    ensures within { IfSome result (λ i. i < length places.now) }
{
    places.iter().position(|place| !place.is_used())
}
