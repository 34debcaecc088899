//! The workload of places: buffers of all sizes come and go in any order.

ghost use Rattle.std.specs.Prelude.{◌≡◌, ◌+◌, ◌-◌, ◌*◌, ◌<◌, ◌≤◌, [], vec_len};
ghost use Rattle.pool_law.specs.Limits.{geometry_of};
ghost use Rattle.pool_table.specs.Counts.{HasCount};
ghost use Rattle.shared_pool.specs.SeatViews.{view_of};
ghost use Rattle.seat_work.specs.Hands.{empty_hand};
ghost use Rattle.seat_work.specs.Changes.{Holds, no_change};
ghost use Rattle.seat_work.specs.Works.{Works, Goes, Proceeds};
ghost use Rattle.pool_bench.specs.Runs.{MayRun, HasRun};

use crate::batches::release_all;
use crate::draws::Draws;
use crate::runner::Runner;
use crate::work::Tally;
use pool_law::RootId;
use seat_work::{allocate, get, release, set};
use shared_pool::{PoolSeat, SharedPool};
use size_classes::SizeClasses;
use std::sync::Wait;

/// Blocks of which each draws one of 64 places, releases the buffer there, where there is one, and
/// puts a new buffer of 16 bytes to 4 MiB there, small ones more often. In the end all places are
/// emptied.
pub fn run_places<W: Wait>(
    rt: &W,
    pool: &SharedPool,
    sizes: &SizeClasses,
    blocks: u32,
    draws: &mut Draws,
    runner: &mut Runner,
) -> Tally
    requires sizes { sizes.now ≡ geometry_of pool.now.table.layout.shape }
    requires may { MayRun pool.now blocks runner.old.seat }
    ensures { HasRun pool.now runner.old.seat runner.new.seat }
{
    runner.roots.clear();
    let mut tally = Tally::none_of(0);
    for done in 0..blocks {
        tally.add(replace(rt, pool, sizes, draws, runner));
    }
    release_all(rt, pool, runner);
    tally
}

// One block. The list has the buffers at the places below its length, and the places from there on
// are empty. None where no buffer was to be had.
fn replace<W: Wait>(
    rt: &W,
    pool: &SharedPool,
    sizes: &SizeClasses,
    draws: &mut Draws,
    runner: &mut Runner,
) -> Option<u64>
    requires sizes { sizes.now ≡ geometry_of pool.now.table.layout.shape }
    requires works { Works pool.now empty_hand 13 0 runner.old.seat }
    requires holds { Holds runner.old.roots.items (view_of runner.old.seat) }
    requires few { vec_len runner.old.roots ≤ 64 }
    ensures goes { Goes pool.now empty_hand
        (13 + 4 * vec_len runner.old.roots - 4 * vec_len runner.new.roots) 0
        runner.old.seat runner.new.seat }
    ensures holds { Holds runner.new.roots.items (view_of runner.new.seat) }
    ensures few { vec_len runner.new.roots ≤ 64 }
    ensures one_more { vec_len runner.new.roots ≤ vec_len runner.old.roots + 1 }
{
    let place = draws.next() % 64;
    let size = draw_size(draws);
    let byte = (draws.next() % 256) as u8;
    empty(rt, pool, runner, place as usize);
    put(rt, pool, sizes, size, byte, runner)
}

// A size from 16 bytes to 4 MiB. It is at most 16 doubled so often as the lesser says of two
// numbers that are drawn, so small ones come more often.
fn draw_size(draws: &mut Draws) -> u32
    ensures least { 16 ≤ result }
    ensures most { result ≤ 4194304 }
{
    let doublings = (draws.next() % 19).min(draws.next() % 19);
    16 + draws.next() % (doubled(doublings) - 15)
}

// 16 doubled so often.
fn doubled(times: u32) -> u32
    requires { times ≤ 18 }
    ensures least { 16 ≤ result }
    ensures most { result ≤ 4194304 }
{
    16 << times
}

// The buffer at a place is released, where there is one. The last one gets its place.
fn empty<W: Wait>(rt: &W, pool: &SharedPool, runner: &mut Runner, place: usize)
    requires works { Works pool.now empty_hand 4 0 runner.old.seat }
    requires holds { Holds runner.old.roots.items (view_of runner.old.seat) }
    requires few { vec_len runner.old.roots ≤ 64 }
    requires place { place < 64 }
    ensures goes { Goes pool.now empty_hand
        (4 * (vec_len runner.old.roots - vec_len runner.new.roots)) 0
        runner.old.seat runner.new.seat }
    ensures holds { Holds runner.new.roots.items (view_of runner.new.seat) }
    ensures few { vec_len runner.new.roots < 64 }
    ensures none_more { vec_len runner.new.roots ≤ vec_len runner.old.roots }
    ensures one_less { vec_len runner.old.roots ≤ vec_len runner.new.roots + 1 }
{
    if place >= runner.roots.len() {
        return;
    }
    let root = runner.roots.swap_remove(place);
    release(rt, pool, &mut runner.seat, root);
}

// A new buffer is put behind the others, and its ends are marked with a byte. The answer is the sum
// of what was read. None where no buffer was to be had.
fn put<W: Wait>(
    rt: &W,
    pool: &SharedPool,
    sizes: &SizeClasses,
    size: u32,
    byte: u8,
    runner: &mut Runner,
) -> Option<u64>
    requires sizes { sizes.now ≡ geometry_of pool.now.table.layout.shape }
    requires works { Works pool.now empty_hand 9 0 runner.old.seat }
    requires holds { Holds runner.old.roots.items (view_of runner.old.seat) }
    requires few { vec_len runner.old.roots < 64 }
    ensures goes { Goes pool.now empty_hand 9 0 runner.old.seat runner.new.seat }
    ensures holds { Holds runner.new.roots.items (view_of runner.new.seat) }
    ensures one_more { vec_len runner.new.roots ≤ vec_len runner.old.roots + 1 }
{
    let class = sizes.class_of(size)?;
    let Ok(root) = allocate(rt, pool, &mut runner.seat, size, class, None) else {
        return None;
    };
    let sum = mark_ends(rt, pool, &mut runner.seat, root, byte);
    runner.roots.push_reserved(root);
    Some(sum)
}

// The first and the last four bytes are written, and the last four read. The answer is their sum.
fn mark_ends<W: Wait>(rt: &W, pool: &SharedPool, seat: &mut PoolSeat, root: RootId, byte: u8) -> u64
    requires works { Works pool.now empty_hand 3 0 seat.old }
    requires counts { HasCount root (view_of seat.old) }
    ensures { Proceeds pool.now empty_hand 3 0 no_change seat.old seat.new }
{
    if root.capacity < 4 {
        return 0;
    }
    let last = root.capacity - 4;
    set(rt, pool, seat, root, 0, &[byte, byte, byte, byte]);
    set(rt, pool, seat, root, last, &[byte, byte, byte, byte]);
    let mut out = [0u8; 4];
    get(rt, pool, seat, root, last, &mut out);
    out[0] as u64 + out[1] as u64 + out[2] as u64 + out[3] as u64
}
