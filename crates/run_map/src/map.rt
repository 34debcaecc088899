//! The map of a chunk's free runs, and its calls.

ghost use Rattle.std.specs.Prelude.{◌≡◌, ◌*◌, ◌^◌, ◌<◌, ◌≤◌, [], ◌∷◌, sum, None, MatchResult, IfSome, IfNone, IsNone, ◌↔◌};
ghost use Rattle.ground.specs.Ground.{IsWhole};
ghost use Rattle.size_classes.specs.Sizes.{IsPageClass};
ghost use Rattle.size_classes.specs.Pages.{chosen};
ghost use Rattle.size_classes.specs.Spans.{run_lengths, given_back, IsOut, AreShorter};
ghost use Rattle.run_map.specs.FreeRuns.{IsPagesGround, all_free, with_runs, span_of, geometry_in, IsPages, IsTaken, ArePagesOut, KeepsOut, KeepsOutBut};

use crate::runs::{FreeRun, RunLayout, give_to, take_from};
use crate::store::Store;
use ground::{Piece, Site};
use std::alloc::Global;
use std::marker::Model;
use std::mem::ManuallyDrop;

/// The free runs of a chunk of `2^order` pages, with their memory.
///
/// No two of them meet. After `new` no call takes memory. A map has no `Drop`: it ends by
/// `into_piece` or by `leave`. The rule of the choice and of the merging is that of Netty's
/// `PoolChunk`.
pub struct RunMap {
    store: Store,
    order: u32,
    layout: RunLayout,
    // The bytes of all free runs.
    total: u32,
}

impl Model for RunMap {
    ghost use Rattle.run_map.specs.FreeRuns.{FreeRuns};

    ghost Value = { FreeRuns };

    ghost use Rattle.run_map.specs.Held.{free_runs, IsRunMap};

    ghost view = { free_runs };

    ghost invariant = { IsRunMap };
}

impl RunMap {
    /// The map of a whole ground, all of it free. Want of memory hands the ground back.
    pub fn new(alloc: Global, order: u32, piece: Piece) -> Result<RunMap, Piece>
        requires order { (3 ≤ order) × (order ≤ 11) }
        requires chunk { IsPagesGround order piece }
        ensures { MatchResult result (λ map. map ≡ all_free order piece) (λ back. back ≡ piece) }
    {
        let pages = 2u32.pow(order);
        let bytes = piece.len();
        let layout = RunLayout {
            page: bytes / pages as usize,
            pages,
            site: Site::of(&piece),
        };
        let Ok(mut store) = Store::new(alloc, &layout) else {
            return Err(piece);
        };
        let run = FreeRun {
            first: 0,
            pages,
            piece,
        };
        store.put(&layout, run);
        Ok(RunMap {
            store,
            order,
            layout,
            total: bytes as u32,
        })
    }

    /// The bytes of all free runs. It takes constant time.
    pub fn free_bytes(&self) -> u32
        ensures { result ≡ sum (run_lengths self.now.runs) * self.now.page }
    {
        self.total
    }

    /// So many pages and the first of them: the front of the lowest run that stands under the least
    /// page class that serves. What is left of the run stays free.
    ///
    /// `pages` is a page class. None exactly where every free run is shorter, and then nothing
    /// changes.
    pub fn take(&mut self, pages: u32) -> Option<(Piece, u32)>
        requires { IsPageClass (geometry_in self.old) pages }
        ensures none { IfNone result ((self.new ≡ self.old)
            × (chosen (geometry_in self.old) pages self.old.runs ≡ None)) }
        ensures short { IsNone result ↔ AreShorter pages self.old.runs }
        ensures some { IfSome result (λ x. IsTaken self.old self.new pages x.0 x.1) }
        // It may be given back, and what else is out stays out.
        ensures out { IfSome result (λ x. ArePagesOut self.new x.0) }
        ensures kept { KeepsOut self.old self.new }
    {
        match self.store.serving(&self.layout, pages) {
            None => None,
            Some(first) => {
                let piece = take_from(&mut self.store, &self.layout, first, pages);
                self.total -= piece.len() as u32;
                Some((piece, first))
            }
        }
    }

    /// Frees whole pages that were taken: they are merged with the free run before them and with
    /// the one after them.
    pub fn give(&mut self, piece: Piece)
        requires pages { IsPages self.old piece }
        requires out { IsOut (2 ^ self.old.order) self.old.runs (span_of self.old.page piece) }
        ensures back { self.new
            ≡ with_runs self.old (given_back (span_of self.old.page piece) self.old.runs) }
        // What else is out stays out.
        ensures kept { KeepsOutBut (span_of self.old.page piece) self.old self.new }
    {
        let bytes = piece.len();
        let run = FreeRun {
            first: (piece.start() / self.layout.page) as u32,
            pages: (bytes / self.layout.page) as u32,
            piece,
        };
        self.total += bytes as u32;
        give_to(&mut self.store, &self.layout, run);
    }

    /// The whole ground, where all of it is free.
    pub fn into_piece(self) -> Piece
        requires { self.runs ≡ (0, 2 ^ self.order) ∷ [] }
        ensures { IsWhole result × (result.origin ≡ self.origin) }
    {
        let RunMap {
            mut store,
            order: _,
            layout,
            total: _,
        } = self;
        let FreeRun {
            first: _,
            pages: _,
            piece,
        } = store.pull(&layout, 0);
        store.close(&layout);
        piece
    }

    /// Spends the map and keeps its memory until the program ends.
    pub fn leave(self) {
        let _left = unsafe { ManuallyDrop::new_unchecked(self) };
    }
}
