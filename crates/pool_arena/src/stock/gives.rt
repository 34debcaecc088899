//! How a stock of chunks takes bytes back: runs and elements, and subpages that are idle.

ghost use Rattle.std.specs.Prelude.{◌≡◌, ◌≢◌, ◌-◌, ◌*◌, ◌/◌, ◌<◌, [], true, false, Some, ℕ};
ghost use Rattle.size_classes.specs.Sizes.{class_count, is_small};
ghost use Rattle.size_classes.specs.Pages.{NoneEmpty};
ghost use Rattle.size_classes.specs.Elements.{is_idle, with_back};
ghost use Rattle.pool_law.specs.Arenas.{front_of, given_place, chunk_at};
ghost use Rattle.arena_laws.specs.Orderly.{IsOrderly};
ghost use Rattle.pool_arena.specs.Closing.{IsResting, HasNoFront};

use super::{ChunkStock, settle};
use crate::subpage_list::SubpageAt;
use ground::Piece;

impl ChunkStock {
    ghost use Rattle.pool_arena.specs.Stocks.{arena_in, Becomes, HasChunk, IsPlaceOut, IsElementOutOf, IsIdleAt, element_back, subpage_given};

    /// The place of a class in the chunk at a place comes back.
    pub(crate) fn give(&mut self, class: u32, chunk: u32, piece: Piece)
        requires orderly { IsOrderly self.old.geometry (arena_in self.old) }
        requires out { IsPlaceOut self.old class chunk piece }
        ensures { Becomes self.old
            (λ a. given_place self.old.geometry a class chunk piece.start) self.new }
    {
        if self.is_small(class) {
            self.give_element(class, chunk, piece);
        } else {
            self.give_run(class, chunk, piece);
        }
    }

    // A run of the pages of a class comes back, and its chunk settles.
    fn give_run(&mut self, class: u32, chunk: u32, piece: Piece)
        requires whole { is_small self.old.geometry class ≡ false }
        requires orderly { IsOrderly self.old.geometry (arena_in self.old) }
        requires out { IsPlaceOut self.old class chunk piece }
        ensures { Becomes self.old
            (λ a. given_place self.old.geometry a class chunk piece.start) self.new }
    {
        let page = piece.start() as u32 / self.page;
        let place = &mut self.places[chunk as usize];
        place.give_run(piece, page);
        settle(place, &mut self.lists, chunk);
    }

    // An element of a class comes back. Its subpage enters its list if it was full. If it is then
    // idle and not alone there, it gives its run back.
    fn give_element(&mut self, class: u32, chunk: u32, piece: Piece)
        requires small { is_small self.old.geometry class ≡ true }
        requires orderly { IsOrderly self.old.geometry (arena_in self.old) }
        requires out { IsPlaceOut self.old class chunk piece }
        ensures { Becomes self.old
            (λ a. given_place self.old.geometry a class chunk piece.start) self.new }
    {
        let offset = piece.start() as u32;
        let page = self.places[chunk as usize].start_of(offset / self.page);
        let index = (offset - self.page * page) / self.classes.size_of(class);
        let spot = SubpageAt { chunk, page };
        let idle = self.element_back(class, spot, index, piece);
        if !idle {
            return;
        }
        let alone = self.fronts[class as usize].is_alone();
        if !alone {
            self.drop_subpage(class, spot);
        }
    }

    // An element of a subpage comes back, and the subpage enters its list if it was full.
    // Answers whether it is idle.
    fn element_back(&mut self, class: u32, spot: SubpageAt, index: u32, piece: Piece) -> bool
        requires class { (class < class_count self.old.geometry)
            × (is_small self.old.geometry class ≡ true) }
        requires out { IsElementOutOf self.old class spot.chunk spot.page index piece }
        requires some { NoneEmpty (chunk_at (arena_in self.old) spot.chunk) }
        ensures idle { (out : IsElementOutOf self.old class spot.chunk spot.page index piece)
            → result ≡ is_idle (with_back out.elements index) }
        ensures back { (out : IsElementOutOf self.old class spot.chunk spot.page index piece)
            → Becomes self.old
            (element_back class spot.chunk spot.page index out.elements) self.new }
    {
        let place = &mut self.places[spot.chunk as usize];
        let was_full = place.is_full(spot.page);
        let idle = place.give_element(piece, spot.page, index);
        if was_full {
            self.fronts[class as usize].enter(spot);
        }
        idle
    }

    // An idle subpage leaves its list and gives its run back, and its chunk settles.
    fn drop_subpage(&mut self, class: u32, spot: SubpageAt)
        requires class { class < class_count self.old.geometry }
        requires idle { IsIdleAt self.old class spot.chunk spot.page }
        requires some { NoneEmpty (chunk_at (arena_in self.old) spot.chunk) }
        requires there { HasChunk self.old spot.chunk }
        ensures { Becomes self.old
            (subpage_given self.old.geometry class spot.chunk spot.page) self.new }
    {
        self.fronts[class as usize].leave(spot);
        let place = &mut self.places[spot.chunk as usize];
        place.drop_subpage(spot.page);
        settle(place, &mut self.lists, spot.chunk);
    }

    // The subpages of a class that have a free element give their runs back. All are idle.
    fn drop_front(&mut self, class: u32)
        requires small { is_small self.old.geometry class ≡ true }
        requires rests { IsResting self.old }
        ensures rests { IsResting self.new }
        ensures geometry { self.new.geometry ≡ self.old.geometry }
        ensures none { front_of (arena_in self.new) class ≡ [] }
        ensures others { (k : ℕ) → k ≢ class
            → front_of (arena_in self.new) k ≡ front_of (arena_in self.old) k }
    {
        while let Some(spot) = self.fronts[class as usize].first() {
            self.drop_subpage(class, spot);
        }
    }

    // All subpages give their runs back. All are idle.
    pub(crate) fn drop_idle(&mut self)
        requires { IsResting self.old }
        ensures rests { IsResting self.new }
        ensures none { HasNoFront self.new }
    {
        for class in 0..self.classes.count() {
            if self.is_small(class) {
                self.drop_front(class);
            }
        }
    }
}
