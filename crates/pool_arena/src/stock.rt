//! What an arena has to give: its chunks in their lists, and its subpages by class.

ghost use Rattle.std.specs.Prelude.{◌≡◌, ◌^◌, ◌<◌, ◌≤◌, length, map, All, Some, None, IfOk, IfSome, IfNone, IsSome};
ghost use Rattle.size_classes.specs.Sizes.{below, of_pages, IsGeometry, chunk_bytes, class_count, is_small};
ghost use Rattle.pool_law.specs.Chunks.{usage, used_bytes, free_bytes};
ghost use Rattle.pool_law.specs.declared.report.ListName.{ListName};
ghost use Rattle.pool_law.specs.ChunkLists.{list_of};
ghost use Rattle.pool_law.specs.Arenas.{new_arena, unless_gone, chunk_at};
ghost use Rattle.arena_laws.specs.Orderly.{chunk_of};
ghost use Rattle.chunk_list.specs.Listing.{with_lists};
ghost use Rattle.chunk_list.specs.Settling.{settled, goes_to, IsWithin};
ghost use Rattle.pool_arena.specs.Held.{front_for};
ghost use Rattle.pool_arena.specs.Places.{PlaceState, with_chunk, runs_of};
ghost use Rattle.pool_arena.specs.Closing.{IsAllFree, IsResting};

mod gives;
mod takes;

use crate::place::ChunkPlace;
use crate::subpage_list::SubpageList;
use chunk_list::{ChunkLists, Settled};
use pool_law::ListName;
use size_classes::SizeClasses;
use std::alloc::{AllocError, Global};
use std::marker::Model;

/// The chunks of an arena in their lists, and the subpages that have a free element.
///
/// Only `new` takes memory. It must be spent.
pub(crate) struct ChunkStock {
    classes: SizeClasses,
    page: u32,
    places: Vec<ChunkPlace>,
    lists: ChunkLists,
    fronts: Vec<SubpageList>,
}

impl Model for ChunkStock {
    ghost use Rattle.pool_arena.specs.Stocks.{StockState};

    ghost Value = { StockState };

    ghost use Rattle.pool_arena.specs.Held.{stock_in, IsStock};

    ghost view = { stock_in };

    ghost invariant = { IsStock };
}

impl ChunkStock {
    ghost use Rattle.pool_arena.specs.Stocks.{arena_in, HasChunk, AreListed};

    /// Chunk places with chunks of `2^order` pages of so many bytes, none of them in use.
    pub(crate) fn new(
        alloc: Global,
        page: u32,
        order: u32,
        chunks: u32,
    ) -> Result<ChunkStock, AllocError>
        requires sizes { IsGeometry (of_pages order page) }
        requires chunks { (1 ≤ chunks) × (chunks ≤ 8) }
        ensures geometry { IfOk result (λ stock. stock.geometry ≡ of_pages order page) }
        ensures grounds { IfOk result (λ stock. length stock.grounds ≡ chunks) }
        ensures new { IfOk result (λ stock.
            arena_in stock ≡ new_arena (of_pages order page) chunks) }
    {
        let classes = SizeClasses::new(alloc, order, page)?;
        let lists = ChunkLists::new(alloc, chunks)?;
        let room = chunks as usize * 2usize.pow(order);
        let fronts = new_fronts(alloc, &classes, room)?;
        let places = new_places(alloc, page, order, chunks)?;
        Ok(ChunkStock {
            classes,
            page,
            places,
            lists,
            fronts,
        })
    }

    /// The list, the used bytes and the free bytes of the chunk of a place, if it has one.
    pub(crate) fn end_of(&self, chunk: u32) -> Option<(ListName, u32, u32)>
        requires within { chunk < length self.now.chunks }
        requires listed { AreListed self.now }
        ensures none { IfNone result (chunk_of (arena_in self.now) chunk ≡ None) }
        ensures some { IfSome result (λ e. HasChunk self.now chunk
            × (list_of self.now.lists chunk ≡ Some e.0)
            × (e.1 ≡ used_bytes self.now.geometry (chunk_at (arena_in self.now) chunk))
            × (e.2 ≡ free_bytes self.now.geometry (chunk_at (arena_in self.now) chunk))) }
    {
        let list = self.lists.list_of(chunk)?;
        let place = &self.places[chunk as usize];
        Some((list, place.used(), place.free()))
    }

    // Whether a number is that of a small class.
    fn is_small(&self, class: u32) -> bool
        ensures { result ≡ is_small self.now.geometry class }
    {
        if class >= self.classes.count() {
            return false;
        }
        self.classes.is_small(class)
    }

    /// Gives all memory back. Nothing is out.
    pub(crate) fn close(mut self)
        requires { IsResting self }
    {
        self.drop_idle();
        let ChunkStock {
            classes: _,
            page: _,
            places,
            lists: _,
            fronts: _,
        } = self;
        close_all(places);
    }

    /// Keeps all memory until the program ends.
    pub(crate) fn leave(self) {
        let ChunkStock {
            classes: _,
            page: _,
            mut places,
            lists: _,
            fronts: _,
        } = self;
        while let Some(place) = places.pop() {
            place.leave();
        }
        places.destroy_empty();
    }
}

// A chunk settles by its usage. One that is destroyed leaves its place.
fn settle(place: &mut ChunkPlace, lists: &mut ChunkLists, chunk: u32)
    requires used { IsSome place.old.chunk }
    requires bytes { chunk_bytes place.old.geometry ≤ 2 ^ 24 }
    requires listed { IsSome (list_of lists.old.lists chunk) }
    ensures lists { lists.new ≡ with_lists lists.old
        (settled lists.old.lists chunk (usage place.old.geometry (runs_of place.old))) }
    ensures place { place.new ≡ with_chunk place.old (unless_gone (list_of lists.old.lists chunk)
        (goes_to (usage place.old.geometry (runs_of place.old)) (list_of lists.old.lists chunk))
        (runs_of place.old)) }
    ensures list { list_of lists.new.lists chunk
        ≡ goes_to (usage place.old.geometry (runs_of place.old)) (list_of lists.old.lists chunk) }
    ensures within { (name : ListName) → list_of lists.new.lists chunk ≡ Some name
        → IsWithin (usage place.old.geometry (runs_of place.old)) name }
{
    match lists.moved(chunk, place.usage()) {
        Settled::At(_) => {}
        Settled::Destroyed => place.end(),
    }
}

// A front for each class, without a subpage: those of small classes have room for so many.
fn new_fronts(
    alloc: Global,
    classes: &SizeClasses,
    room: usize,
) -> Result<Vec<SubpageList>, AllocError>
    ensures { IfOk result (λ fronts. fronts.items
        ≡ map (front_for classes.now room) (below (class_count classes.now))) }
{
    let mut fronts = Vec::with_capacity(alloc, classes.count() as usize)?;
    for class in 0..classes.count() {
        let room = if classes.is_small(class) { room } else { 0 };
        let front = SubpageList::new(alloc, room)?;
        fronts.push(front)?;
    }
    Ok(fronts)
}

// So many unused chunk places.
fn new_places(
    alloc: Global,
    page: u32,
    order: u32,
    chunks: u32,
) -> Result<Vec<ChunkPlace>, AllocError>
    requires { IsGeometry (of_pages order page) }
    ensures count { IfOk result (λ places. length places.items ≡ chunks) }
    ensures unused { IfOk result (λ places. All (λ (p : PlaceState).
        (p.geometry ≡ of_pages order page) × (p.chunk ≡ None)) places.items) }
{
    let mut places = Vec::with_capacity(alloc, chunks as usize)?;
    for _ in 0..chunks {
        match ChunkPlace::new(alloc, page, order) {
            Ok(place) => match places.push(place) {
                Ok(()) => {}
                Err(_) => unreachable!(),
            },
            Err(error) => {
                close_all(places);
                return Err(error);
            }
        }
    }
    Ok(places)
}

// Gives the memory of chunk places back, of which all is free.
fn close_all(mut places: Vec<ChunkPlace>)
    requires { All IsAllFree places.items }
{
    while let Some(place) = places.pop() {
        place.close();
    }
    places.destroy_empty();
}
