//! The workload of many buffers at once: a batch of one class is allocated, then released.

ghost use Rattle.std.specs.Prelude.{◌≡◌, ◌*◌, ◌≤◌, Some, vec_len};
ghost use Rattle.size_classes.specs.Sizes.{class_of};
ghost use Rattle.pool_law.specs.Limits.{geometry_of};
ghost use Rattle.shared_pool.specs.SeatViews.{view_of};
ghost use Rattle.seat_work.specs.Hands.{empty_hand};
ghost use Rattle.seat_work.specs.Changes.{Holds};
ghost use Rattle.seat_work.specs.Works.{Works, Goes};
ghost use Rattle.pool_bench.specs.Runs.{MayRun, HasRun};

use crate::runner::Runner;
use crate::work::{Tally, class_size};
use seat_work::{allocate, release};
use shared_pool::SharedPool;
use size_classes::SizeClasses;
use std::sync::Wait;

/// Batches of 512 buffers, of the classes up to 2,048 bytes in turn, or of `size` bytes.
pub fn run_batches<W: Wait>(
    rt: &W,
    pool: &SharedPool,
    sizes: &SizeClasses,
    size: Option<u32>,
    blocks: u32,
    runner: &mut Runner,
) -> Tally
    requires sizes { sizes.now ≡ geometry_of pool.now.table.layout.shape }
    requires may { MayRun pool.now blocks runner.old.seat }
    ensures { HasRun pool.now runner.old.seat runner.new.seat }
{
    let mut tally = Tally::none_of(0);
    for done in 0..blocks / 512 {
        let bytes = size.unwrap_or(class_size(sizes, done % 24));
        let refused = one_batch(rt, pool, sizes, bytes, runner);
        tally.refused = tally.refused.wrapping_add(refused);
    }
    tally
}

// One batch. The answer is how many buffers weren't to be had.
fn one_batch<W: Wait>(
    rt: &W,
    pool: &SharedPool,
    sizes: &SizeClasses,
    size: u32,
    runner: &mut Runner,
) -> u64
    requires sizes { sizes.now ≡ geometry_of pool.now.table.layout.shape }
    requires works { Works pool.now empty_hand 5120 512 runner.old.seat }
    ensures goes { Goes pool.now empty_hand 5120 512 runner.old.seat runner.new.seat }
{
    let Some(class) = sizes.class_of(size) else {
        return 512;
    };
    let refused = fill(rt, pool, size, class, 512, runner);
    release_all(rt, pool, runner);
    refused
}

// A list of so many new buffers, as far as they are to be had. The answer is how many weren't.
fn fill<W: Wait>(
    rt: &W,
    pool: &SharedPool,
    size: u32,
    class: u32,
    count: u32,
    runner: &mut Runner,
) -> u64
    requires works { Works pool.now empty_hand (6 * count) 0 runner.old.seat }
    requires class { class_of (geometry_of pool.now.table.layout.shape) size ≡ Some class }
    requires few { count ≤ 512 }
    ensures goes { Goes pool.now empty_hand (6 * count) 0 runner.old.seat runner.new.seat }
    ensures holds { Holds runner.new.roots.items (view_of runner.new.seat) }
    ensures few { vec_len runner.new.roots ≤ count }
{
    runner.roots.clear();
    let mut refused = 0u64;
    for done in 0..count {
        match allocate(rt, pool, &mut runner.seat, size, class, None) {
            Ok(root) => runner.roots.push_reserved(root),
            Err(_no) => refused = refused.wrapping_add(1),
        }
    }
    refused
}

/// All these buffers are released.
pub fn release_all<W: Wait>(rt: &W, pool: &SharedPool, runner: &mut Runner)
    requires works { Works pool.now empty_hand (4 * vec_len runner.old.roots) 0 runner.old.seat }
    requires holds { Holds runner.old.roots.items (view_of runner.old.seat) }
    ensures goes { Goes pool.now empty_hand (4 * vec_len runner.old.roots) 0
        runner.old.seat runner.new.seat }
{
    while let Some(root) = runner.roots.pop() {
        release(rt, pool, &mut runner.seat, root);
    }
}
