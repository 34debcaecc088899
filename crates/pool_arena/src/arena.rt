//! An arena and its calls.

ghost use Rattle.std.specs.Prelude.{◌≡◌, ℕ, ◌+◌, ◌^◌, ◌<◌, ◌≤◌, length, IfOk, IfSome, IfNone, OnSome, Option};
ghost use Rattle.size_classes.specs.Sizes.{of_pages, IsGeometry, class_count};
ghost use Rattle.pool_law.specs.Arenas.{listed};

use crate::stock::ChunkStock;
use pool_law::{ChunkEnd, Place, Region, RegionId};
use std::alloc::{AllocError, Global};
use std::marker::Model;

/// An arena of the pool (Netty: `PoolArena`).
///
/// It gives regions of the size classes of its chunks: elements of subpages for the small classes,
/// runs of pages for the others. Only `new` takes memory. It must be spent.
pub struct Arena {
    number: u32,
    stock: ChunkStock,
    takings: u64,
}

impl Model for Arena {
    ghost use Rattle.pool_arena.specs.ArenaStates.{ArenaState};

    ghost Value = { ArenaState };

    ghost use Rattle.pool_arena.specs.Held.{state_in, IsArena};

    ghost view = { state_in };

    ghost invariant = { IsArena };
}

impl Arena {
    ghost use Rattle.pool_law.specs.declared.note.Did.{Did};
    ghost use Rattle.pool_arena.specs.ArenaStates.{IsNew, IsOutOf, IsInPlaceAt, IsInPlaceUnder, Takes, IsFullFor, Gives, AtRest, end_of};
    ghost use Rattle.pool_arena.specs.Standing.{StandsMore, taken_or_full};

    /// An arena with so many chunk places of `2^order` pages of so many bytes, none of them in use.
    /// It takes the memory of all its chunks and of their tables.
    pub fn new(
        alloc: Global,
        number: u32,
        page: u32,
        order: u32,
        chunks: u32,
    ) -> Result<Arena, AllocError>
        requires number { number < 8 }
        requires sizes { IsGeometry (of_pages order page) }
        requires chunks { (1 ≤ chunks) × (chunks ≤ 8) }
        ensures { IfOk result (λ arena. IsNew number page order chunks arena) }
    {
        let stock = ChunkStock::new(alloc, page, order, chunks)?;
        Ok(Arena {
            number,
            stock,
            takings: 0,
        })
    }

    /// A region of a class for an owner, with the next taking number.
    ///
    /// None comes exactly where nothing is free for the class and each chunk place has a chunk.
    /// Then nothing changes.
    pub fn take(&mut self, class: u32, owner: u32) -> Option<Region>
        requires class { class < class_count self.old.geometry }
        requires takings { self.old.takings < 2 ^ 63 }
        ensures none { IfNone result (self.new ≡ self.old) }
        ensures full { IfNone result (IsFullFor self.old class owner) }
        ensures some { IfSome result (λ r. Takes self.old class owner self.new r.id) }
        ensures place { IfSome result (λ r. IsInPlaceAt self.old r.id r.piece) }
        ensures stands { StandsMore self.old (taken_or_full class result) self.new }
    {
        let (chunk, piece) = self.stock.take(class)?;
        self.takings += 1;
        let place = Place {
            arena: self.number,
            chunk,
            offset: piece.start() as u32,
            len: piece.len() as u32,
        };
        let id = RegionId {
            place,
            class,
            taking: self.takings,
            uses: 0,
            owner,
        };
        Some(Region::new(id, piece))
    }

    /// A region that is out comes back.
    pub fn give(&mut self, region: Region)
        requires out { IsOutOf self.old region.id }
        requires place { IsInPlaceUnder self.old region.id region.piece }
        ensures gives { Gives self.old region.id self.new }
        ensures stands { StandsMore self.old (Did.Give region.id) self.new }
    {
        let (id, piece) = region.into_parts();
        self.stock.give(id.class, id.place.chunk, piece);
    }

    /// What a report tells of the chunk at a place: its list, and its used and free bytes.
    /// None comes exactly where the place is unused.
    pub fn chunk_now(&self, chunk: u32) -> Option<ChunkEnd>
        requires { chunk < length self.now.chunks }
        ensures { end_of self.now chunk ≡ listed result (λ e. e) }
    {
        let (list, used, free) = self.stock.end_of(chunk)?;
        Some(ChunkEnd {
            arena: self.number,
            chunk,
            list,
            used,
            free,
        })
    }

    /// How many regions were taken so far.
    pub fn takings(&self) -> u64
        ensures { result ≡ self.now.takings }
    {
        self.takings
    }

    /// Gives all memory back. Nothing is out.
    pub fn close(self)
        requires { AtRest self }
    {
        let Arena {
            number: _,
            stock,
            takings: _,
        } = self;
        stock.close();
    }

    /// Spends the arena in any state. Its memory stays taken until the program ends.
    pub fn leave(self) {
        let Arena {
            number: _,
            stock,
            takings: _,
        } = self;
        stock.leave();
    }
}
