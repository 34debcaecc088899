//! How a block comes into a root.

ghost use Rattle.std.specs.Prelude.{◌≡◌, ◌≢◌, ℕ, ◌+◌, ◌-◌, ◌/◌, ◌≤◌, Bool, List, [], length, Ok, vec_capacity};
ghost use Rattle.pool_law.specs.declared.note.Did.{Did};
ghost use Rattle.pool_law.specs.declared.note.Object.TheVariants.{Root};
ghost use Rattle.pool_table.specs.Capacities.{knows_of};
ghost use Rattle.pool_table.specs.Counts.{HasCount};
ghost use Rattle.seat_work.specs.Changes.{no_change, once_less};
ghost use Rattle.seat_work.specs.Hands.{empty_hand};
ghost use Rattle.seat_work.specs.Works.{IsLater, Proceeds, Works};
ghost use Rattle.shared_pool.specs.RootNotes.{access};
ghost use Rattle.shared_pool.specs.Seats.{IsNoted};
ghost use Rattle.shared_pool.specs.SeatViews.{view_of};
ghost use Rattle.frame_hash.specs.declared.turns.TheConstants.{RELEASE_TURNS};
ghost use Rattle.frame_slices.specs.Slices.{HasCut};
ghost use Rattle.frame_cutter.specs.Loads.{IsLoaded};
ghost use Rattle.frame_cutter.specs.Standing.{CutterCame};

use crate::cutter::Cutter;
use crate::loading::{Loaded, Loading, load};
use crate::stage::{Stage, Verdict};
use frame_hash::{RELEASE_TURNS, Shared};
use frame_slices::Slicer;
use pool_law::RootId;
use seat_work::{allocate, with_bytes_mut};
use shared_pool::SharedPool;
use std::alloc::AllocError;
use std::mem::replace;
use std::sync::Wait;
use text_ends::Source;
use work_table::Stepped;

/// A root is allocated, and its bytes are written.
pub const FILL_TURNS: u64 = 7;

/// The bytes that give a frame's length: no two frames end nearer to each other.
const HEAD: usize = 4;

/// Reads the next block into a new root, and goes through it there. Where there is no root to be had
/// nothing is read, and it is tried again later, when a worker has let go of another.
pub(crate) fn fill<S: Source, W: Wait>(
    rt: &W,
    shared: &Shared,
    source: &mut S,
    cutter: &mut Cutter,
) -> Result<Stepped, AllocError>
    requires stage { cutter.old.stage ≡ Stage.Filling }
    requires came { (first : S) × (begun : Cutter)
        × CutterCame S.left S.faults shared.now first source.old begun cutter.old }
    ensures came { (first : S) (begun : Cutter) →
        CutterCame S.left S.faults shared.now first source.old begun cutter.old →
        CutterCame S.left S.faults shared.now first source.new begun cutter.new }
    ensures more { result ≢ Ok Stepped.Finished }
{
    if cutter.turns < FILL_TURNS + RELEASE_TURNS {
        return Ok(Stepped::Waiting);
    }
    cutter.finds.clear();
    cutter.finds.reserve(cutter.block as usize / HEAD + 2)?;
    cutter.turns -= FILL_TURNS;
    let Ok(root) = allocate(
        rt,
        shared.pool,
        &mut cutter.seat,
        cutter.block,
        cutter.class,
        None,
    ) else {
        return Ok(Stepped::Waiting);
    };
    match load_into(rt, shared.pool, source, cutter, root) {
        Loaded::Block { last } => {
            cutter.last = last;
            cutter.stage = Stage::Cutting { root, used: 0 };
        }
        Loaded::Refused(why) => cutter.stop(rt, shared.pool, root, Verdict::Refused(why)),
        Loaded::Fault => cutter.stop(rt, shared.pool, root, Verdict::Fault),
    }
    Ok(Stepped::Went)
}

// Loads the next block straight into the bytes of a root.
fn load_into<S: Source, W: Wait>(
    rt: &W,
    pool: &SharedPool,
    source: &mut S,
    cutter: &mut Cutter,
    root: RootId,
) -> Loaded
    requires works { Works pool.now empty_hand 1 0 cutter.old.seat }
    requires counts { HasCount root (view_of cutter.old.seat) }
    requires range { cutter.old.block ≤ knows_of root (view_of cutter.old.seat) }
    requires cut { (bytes : List ℕ) × (own : List ℕ) × HasCut cutter.old.slicer bytes own }
    requires room { (cutter.old.finds.items ≡ [])
        × (cutter.old.block / 4 + 2 ≤ vec_capacity cutter.old.finds) }
    ensures cutter { cutter.new ≡ record cutter.old {
      seat = cutter.new.seat;
      slicer = cutter.new.slicer;
      finds = cutter.new.finds;
    } }
    ensures proceeds { Proceeds pool.now empty_hand 1 0 no_change cutter.old.seat cutter.new.seat }
    ensures counts { HasCount root (view_of cutter.new.seat) }
    ensures loaded { (block : List ℕ) × (number : ℕ) × (length block ≡ cutter.old.block)
        × IsNoted pool.now cutter.old.seat cutter.new.seat (Root root.place) number
        (access root (Did.Set 0 block))
        × IsLoaded S.left S.faults result source.old source.new
        cutter.old.slicer cutter.new.slicer cutter.new.finds.items block }
{
    let slicer = replace(&mut cutter.slicer, Slicer::new());
    let finds = replace(&mut cutter.finds, Vec::new(cutter.alloc));
    let size = cutter.block;
    let (loading, _source) = with_bytes_mut(
        rt,
        pool,
        &mut cutter.seat,
        root,
        0,
        size,
        move |block: &mut [u8]|
            requires cut { (bytes : List ℕ) × (own : List ℕ) × HasCut slicer bytes own }
            requires room { (finds.items ≡ []) × (size / 4 + 2 ≤ vec_capacity finds) }
            ensures len { length block.new ≡ length block.old }
            ensures loaded { length block.old ≡ size →
                IsLoaded S.left S.faults result.0.loaded source.entry.now result.1.now
                slicer result.0.slicer result.0.finds.items block.new }
            ensures source { result.1.ghost_name ≡ source.entry.ghost_name }
        {
            let loading = load(&mut *source, slicer, finds, size as usize, block);
            (loading, source)
        },
    );
    let Loading {
        loaded,
        slicer,
        finds,
    } = loading;
    cutter.slicer = slicer;
    cutter.finds = finds;
    loaded
}

impl Cutter {
    // The root is let go at once, and the stream is read no further.
    fn stop<W: Wait>(&mut self, rt: &W, pool: &SharedPool, root: RootId, verdict: Verdict)
        requires works { Works pool.now empty_hand self.old.turns self.old.moves self.old.seat }
        requires turns { RELEASE_TURNS ≤ self.old.turns }
        requires counts { HasCount root (view_of self.old.seat) }
        ensures cutter { self.new ≡ record self.old {
          seat = self.new.seat;
          turns = self.old.turns - RELEASE_TURNS;
          stage = Stage.LettingGo;
          verdict = verdict;
        } }
        ensures released { (last : Bool) × Proceeds pool.now empty_hand RELEASE_TURNS 0
            (once_less root last) self.old.seat self.new.seat }
        ensures later { IsLater pool.now self.old.seat self.new.seat }
    {
        self.drop_root(rt, pool, root);
        self.verdict = verdict;
        self.stage = Stage::LettingGo;
    }
}
