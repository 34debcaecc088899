//! Blocks of which each stands alone, one after another.

ghost use Rattle.std.specs.Prelude.{◌≡◌};
ghost use Rattle.pool_law.specs.Limits.{geometry_of};
ghost use Rattle.pool_table.specs.Counts.{HasCount};
ghost use Rattle.shared_pool.specs.SeatViews.{view_of};
ghost use Rattle.seat_work.specs.Hands.{empty_hand};
ghost use Rattle.seat_work.specs.Works.{Works, Goes};
ghost use Rattle.pool_bench.specs.Runs.{MayRun, HasRun, block_turns, block_moves};

use crate::bytes::{count_wrong, sum_of, write_and_read};
use crate::draws::Draws;
use crate::work::{Tally, Workload, asked};
use pool_law::RootId;
use seat_work::{allocate, get, release, set};
use shared_pool::{PoolSeat, SharedPool};
use size_classes::SizeClasses;
use std::sync::Wait;

/// So many blocks of a workload in which each block stands alone. Mixed blocks that draw their sizes
/// and plain blocks have a loop each, in which it is known which workload it is.
pub fn run_alone<W: Wait>(
    rt: &W,
    pool: &SharedPool,
    sizes: &SizeClasses,
    work: Workload,
    blocks: u32,
    draws: &mut Draws,
    seat: &mut PoolSeat,
) -> Tally
    requires sizes { sizes.now ≡ geometry_of pool.now.table.layout.shape }
    requires may { MayRun pool.now blocks seat.old }
    ensures { HasRun pool.now seat.old seat.new }
{
    match work {
        Workload::Mixed(None) => run_mixed(rt, pool, sizes, blocks, *draws, seat),
        Workload::Plain(size) => {
            run_blocks(rt, pool, sizes, Workload::Plain(size), blocks, draws, seat)
        }
        _ => run_blocks(rt, pool, sizes, work, blocks, draws, seat),
    }
}

// So many mixed blocks that draw their sizes.
fn run_mixed<W: Wait>(
    rt: &W,
    pool: &SharedPool,
    sizes: &SizeClasses,
    blocks: u32,
    mut draws: Draws,
    seat: &mut PoolSeat,
) -> Tally
    requires sizes { sizes.now ≡ geometry_of pool.now.table.layout.shape }
    requires may { MayRun pool.now blocks seat.old }
    ensures { HasRun pool.now seat.old seat.new }
{
    let mut tally = Tally::none_of(0);
    for _done in 0..blocks {
        let size = 16 + draws.next() % 1009;
        let byte = (draws.next() % 256) as u8;
        let Some(class) = sizes.class_of(size) else {
            tally.add(None);
            continue;
        };
        let Ok(root) = allocate(rt, pool, seat, size, class, None) else {
            tally.add(None);
            continue;
        };
        set(rt, pool, seat, root, 0, &[byte, byte, byte, byte]);
        let mut out = [0u8; 4];
        get(rt, pool, seat, root, 2, &mut out);
        release(rt, pool, seat, root);
        tally.add(Some(sum_of(&out)));
    }
    tally
}

// So many blocks, one after another.
#[inline(always)]
fn run_blocks<W: Wait>(
    rt: &W,
    pool: &SharedPool,
    sizes: &SizeClasses,
    work: Workload,
    blocks: u32,
    draws: &mut Draws,
    seat: &mut PoolSeat,
) -> Tally
    requires sizes { sizes.now ≡ geometry_of pool.now.table.layout.shape }
    requires may { MayRun pool.now blocks seat.old }
    ensures { HasRun pool.now seat.old seat.new }
{
    let mut tally = Tally::none_of(0);
    for done in 0..blocks {
        let (size, byte) = asked(work, sizes, done, draws);
        one_block(rt, pool, sizes, work, size, byte, seat, &mut tally);
    }
    tally
}

// One block, which the tally then has.
#[inline(always)]
fn one_block<W: Wait>(
    rt: &W,
    pool: &SharedPool,
    sizes: &SizeClasses,
    work: Workload,
    size: u32,
    byte: u8,
    seat: &mut PoolSeat,
    tally: &mut Tally,
)
    requires sizes { sizes.now ≡ geometry_of pool.now.table.layout.shape }
    requires works { Works pool.now empty_hand block_turns block_moves seat.old }
    ensures { Goes pool.now empty_hand block_turns block_moves seat.old seat.new }
{
    let Some(class) = sizes.class_of(size) else {
        return tally.add(None);
    };
    let Ok(root) = allocate(rt, pool, seat, size, class, None) else {
        return tally.add(None);
    };
    let sum = access(rt, pool, seat, root, work, byte);
    tally.add(Some(sum));
    if work == Workload::Left && byte % 32 == 0 {
        return;
    }
    release(rt, pool, seat, root);
}

// What a block does with its buffer.
#[inline(always)]
fn access<W: Wait>(
    rt: &W,
    pool: &SharedPool,
    seat: &mut PoolSeat,
    root: RootId,
    work: Workload,
    byte: u8,
) -> u64
    requires works { Works pool.now empty_hand 3 0 seat.old }
    requires counts { HasCount root (view_of seat.old) }
    ensures goes { Goes pool.now empty_hand 3 0 seat.old seat.new }
    ensures counts { HasCount root (view_of seat.new) }
{
    match work {
        Workload::Mixed(_) => write_and_read(rt, pool, seat, root, byte),
        Workload::Left | Workload::Buffers | Workload::Lone => {
            write_and_read(rt, pool, seat, root, byte)
        }
        Workload::Checked => count_wrong(rt, pool, seat, root, byte),
        Workload::Passed(_) | Workload::Counted => 0,
        Workload::Plain(_) | Workload::Retained(_) | Workload::Batches(_) | Workload::Places => 0,
    }
}
