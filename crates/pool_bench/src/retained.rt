//! The workload of one buffer that is retained and released, again and again.

ghost use Rattle.std.specs.Prelude.{◌≡◌};
ghost use Rattle.pool_law.specs.Limits.{geometry_of};
ghost use Rattle.pool_table.specs.Counts.{HasCount};
ghost use Rattle.shared_pool.specs.SeatViews.{view_of};
ghost use Rattle.seat_work.specs.Hands.{empty_hand};
ghost use Rattle.seat_work.specs.Works.{Works, Goes};
ghost use Rattle.pool_bench.specs.Runs.{MayRun, HasRun};

use crate::work::Tally;
use pool_law::RootId;
use seat_work::{allocate, release, retain};
use shared_pool::{PoolSeat, Release, SharedPool};
use size_classes::SizeClasses;
use std::sync::Wait;

/// A buffer of `size` bytes is retained and released, so many times. Where there is none, or no
/// turns and moves for one, all blocks are refused.
pub fn run_retained<W: Wait>(
    rt: &W,
    pool: &SharedPool,
    sizes: &SizeClasses,
    size: u32,
    blocks: u32,
    budget: u32,
    seat: &mut PoolSeat,
) -> Tally
    requires sizes { sizes.now ≡ geometry_of pool.now.table.layout.shape }
    requires may { MayRun pool.now budget seat.old }
    ensures { HasRun pool.now seat.old seat.new }
{
    if budget == 0 {
        return Tally::none_of(blocks);
    }
    let Some(class) = sizes.class_of(size) else {
        return Tally::none_of(blocks);
    };
    let Ok(root) = allocate(rt, pool, seat, size, class, None) else {
        return Tally::none_of(blocks);
    };
    retain_often(pool, seat, root, blocks);
    release(rt, pool, seat, root);
    Tally::none_of(0)
}

// So many retains of a buffer, each with its release, on one move.
fn retain_often(pool: &SharedPool, seat: &mut PoolSeat, root: RootId, blocks: u32)
    requires works { Works pool.now empty_hand 0 1 seat.old }
    requires counts { HasCount root (view_of seat.old) }
    ensures goes { Goes pool.now empty_hand 0 0 seat.old seat.new }
    ensures counts { HasCount root (view_of seat.new) }
{
    for _ in 0..blocks {
        retain_once(pool, seat, root);
    }
}

// One retain of a buffer, and its release, which gives back the move.
fn retain_once(pool: &SharedPool, seat: &mut PoolSeat, root: RootId)
    requires works { Works pool.now empty_hand 0 1 seat.old }
    requires counts { HasCount root (view_of seat.old) }
    ensures goes { Goes pool.now empty_hand 0 0 seat.old seat.new }
    ensures counts { HasCount root (view_of seat.new) }
{
    retain(pool, seat, root);
    match pool.release(seat, root) {
        Release::Kept => (),
        Release::Ended(_token) => unreachable!(),
    }
}
