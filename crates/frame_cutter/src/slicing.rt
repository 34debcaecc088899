//! How a block is cut into slices of frames, where it lies.

ghost use Rattle.std.specs.Prelude.{◌≡◌, ◌≢◌, ℕ, ◌-◌, ◌<◌, ◌≤◌, Bool, List, [], ◌∷◌, ◌++◌, Ok, Some, slice_get, vec_capacity, vec_len};
ghost use Rattle.pool_table.specs.Counts.{HasCount};
ghost use Rattle.seat_work.specs.Changes.{once_less, once_more};
ghost use Rattle.seat_work.specs.Hands.{empty_hand};
ghost use Rattle.seat_work.specs.Works.{IsLater, Proceeds, Works};
ghost use Rattle.shared_pool.specs.SeatViews.{view_of};
ghost use Rattle.frame_hash.specs.declared.shared.Shared.{Shared};
ghost use Rattle.frame_hash.specs.declared.turns.TheConstants.{RELEASE_TURNS};
ghost use Rattle.frame_cutter.specs.Finds.{slice_at, stage_at};
ghost use Rattle.frame_cutter.specs.Standing.{CutterStands, SameCutter};

use crate::cutter::Cutter;
use crate::stage::Stage;
use frame_hash::{RELEASE_TURNS, Shared};
use frame_slices::Found;
use pool_law::{RootId, ViewData};
use seat_work::{release, retain};
use shared_pool::SharedPool;
use std::alloc::AllocError;
use std::sync::Wait;
use work_table::Stepped;

impl Cutter {
    /// Goes on with the block, which is in this root, behind so many finds.
    pub(crate) fn cut<W: Wait>(
        &mut self,
        rt: &W,
        shared: &Shared,
        root: RootId,
        used: usize,
    ) -> Result<Stepped, AllocError>
        requires stands { (read : List ℕ) × CutterStands shared.now self.old read }
        requires stage { self.old.stage ≡ Stage.Cutting root used }
        ensures stands { (read : List ℕ) → CutterStands shared.now self.old read →
            CutterStands shared.now self.new read }
        ensures same { SameCutter self.old self.new }
        ensures more { result ≢ Ok Stepped.Finished }
    {
        if self.turns < RELEASE_TURNS {
            return Ok(Stepped::Waiting);
        }
        let Some(found) = self.finds.get(used).copied() else {
            self.leave(rt, shared, root);
            return Ok(Stepped::Went);
        };
        if self.moves == 0 {
            return Ok(Stepped::Waiting);
        }
        self.slices.reserve(1)?;
        self.take(shared, root, used, found);
        Ok(Stepped::Went)
    }

    // Takes what was found in the block for the present frame.
    fn take(&mut self, shared: &Shared, root: RootId, used: usize, found: Found)
        requires stands { (read : List ℕ) × CutterStands shared.now self.old read }
        requires stage { self.old.stage ≡ Stage.Cutting root used }
        requires found { slice_get self.old.finds.items used ≡ Some found }
        requires moves { 0 < self.old.moves }
        requires room { vec_len self.old.slices < vec_capacity self.old.slices }
        ensures stands { (read : List ℕ) → CutterStands shared.now self.old read →
            CutterStands shared.now self.new read }
        ensures same { SameCutter self.old self.new }
    {
        self.stage = behind(root, used + 1, found.ended);
        if found.start < found.used {
            self.slice(shared.pool, root, found.start as u32, found.used as u32);
        }
    }

    // Makes a slice of the root from one place to another. The root is counted once more.
    fn slice(&mut self, pool: &SharedPool, root: RootId, start: u32, end: u32)
        requires works { Works pool.now empty_hand self.old.turns self.old.moves self.old.seat }
        requires moves { 0 < self.old.moves }
        requires counts { HasCount root (view_of self.old.seat) }
        requires room { vec_len self.old.slices < vec_capacity self.old.slices }
        requires order { start ≤ end }
        ensures cutter { self.new ≡ record self.old {
          seat = self.new.seat;
          moves = self.old.moves - 1;
          slices = self.new.slices;
        } }
        ensures slices { self.new.slices.items
            ≡ self.old.slices.items ++ slice_at root start end ∷ [] }
        ensures retained { Proceeds pool.now empty_hand 0 1 (once_more root)
            self.old.seat self.new.seat }
        ensures later { IsLater pool.now self.old.seat self.new.seat }
    {
        retain(pool, &mut self.seat, root);
        self.moves -= 1;
        let len = end - start;
        self.slices.push_reserved(ViewData {
            root,
            offset: start,
            len,
            reader: 0,
            writer: len,
        });
    }

    // The block is cut: its root is let go, and the next block is read, if there is one.
    fn leave<W: Wait>(&mut self, rt: &W, shared: &Shared, root: RootId)
        requires stands { (read : List ℕ) × CutterStands shared.now self.old read }
        requires stage { (used : ℕ) × (self.old.stage ≡ Stage.Cutting root used)
            × (vec_len self.old.finds ≤ used) }
        requires turns { RELEASE_TURNS ≤ self.old.turns }
        ensures stands { (read : List ℕ) → CutterStands shared.now self.old read →
            CutterStands shared.now self.new read }
        ensures same { SameCutter self.old self.new }
    {
        self.drop_root(rt, shared.pool, root);
        self.stage = Stage::Filling;
        if self.last {
            self.finish();
        }
    }

    /// Counts a root once less.
    pub(crate) fn drop_root<W: Wait>(&mut self, rt: &W, pool: &SharedPool, root: RootId)
        requires works { Works pool.now empty_hand self.old.turns self.old.moves self.old.seat }
        requires turns { RELEASE_TURNS ≤ self.old.turns }
        requires counts { HasCount root (view_of self.old.seat) }
        ensures cutter { self.new
            ≡ record self.old { seat = self.new.seat; turns = self.old.turns - RELEASE_TURNS } }
        ensures released { (last : Bool) × Proceeds pool.now empty_hand RELEASE_TURNS 0
            (once_less root last) self.old.seat self.new.seat }
        ensures later { IsLater pool.now self.old.seat self.new.seat }
    {
        release(rt, pool, &mut self.seat, root);
        self.turns -= RELEASE_TURNS;
    }
}

// What comes next where a frame ended behind so many finds of the block, or didn't.
fn behind(root: RootId, used: usize, ended: bool) -> Stage
    ensures { result ≡ stage_at root used ended }
{
    if ended {
        Stage::Handing {
            root,
            used,
            posted: 0,
        }
    } else {
        Stage::Cutting { root, used }
    }
}
