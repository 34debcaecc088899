//! The workload of buffers that go to the next lane: it reads and releases them.

ghost use Rattle.std.specs.Prelude.{◌≡◌, ◌<◌, ◌≤◌, IfSome};
ghost use Rattle.pool_law.specs.Limits.{geometry_of};
ghost use Rattle.pool_law.specs.Views as views;
ghost use Rattle.pool_table.specs.Counts.{HasCount};
ghost use Rattle.shared_pool.specs.Knowing.{ReachesKnown};
ghost use Rattle.shared_pool.specs.SeatViews.{view_of};
ghost use Rattle.seat_work.specs.HandOvers.{Sends};
ghost use Rattle.seat_work.specs.Hands.{empty_hand};
ghost use Rattle.seat_work.specs.Works.{Works, Goes};
ghost use Rattle.pool_bench.specs.Runs.{MayRun, HasRun};
ghost use Rattle.pool_bench.specs.Mails.{HasMail, next_lane};

use crate::bytes::{count_others, sum_of, write_and_read};
use crate::draws::Draws;
use crate::work::{Tally, Workload, asked};
use pool_law::{Parcel, RootId, Shape, ViewData};
use seat_work::{allocate, fetch, get, post, release};
use shared_pool::{PoolSeat, SharedPool};
use size_classes::SizeClasses;
use std::sync::Wait;
use std::thread::yield_now;

/// Each block posts its buffer to the next lane, or an empty parcel where no buffer was to be had,
/// and takes one from the lane before, for which it waits. So no lane gets further ahead of another
/// than there are lanes, and in the end all mails are empty. No more are posted than `mail` has
/// room for.
pub fn run_passed<W: Wait>(
    rt: &W,
    pool: &SharedPool,
    shape: &Shape,
    sizes: &SizeClasses,
    work: Workload,
    blocks: u32,
    mail: u32,
    draws: &mut Draws,
    seat: &mut PoolSeat,
) -> Tally
    requires shape { shape.now ≡ pool.now.table.layout.shape }
    requires sizes { sizes.now ≡ geometry_of shape.now }
    requires may { MayRun pool.now blocks seat.old }
    requires mail { HasMail pool.now mail seat.old }
    ensures { HasRun pool.now seat.old seat.new }
{
    let passes = blocks.min(mail);
    let mut tally = Tally::none_of(blocks - passes);
    for done in 0..passes {
        let (size, byte) = asked(work, sizes, done, draws);
        tally.add(send_one(rt, pool, shape, sizes, work, size, byte, seat));
        let parcel = fetch_next(rt, pool, shape, seat);
        let read = take(rt, pool, work, parcel, done, seat);
        tally.sum = tally.sum.wrapping_add(read);
    }
    tally
}

// A new buffer is written, read and posted, or an empty parcel where none was to be had.
fn send_one<W: Wait>(
    rt: &W,
    pool: &SharedPool,
    shape: &Shape,
    sizes: &SizeClasses,
    work: Workload,
    size: u32,
    byte: u8,
    seat: &mut PoolSeat,
) -> Option<u64>
    requires shape { shape.now ≡ pool.now.table.layout.shape }
    requires sizes { sizes.now ≡ geometry_of shape.now }
    requires works { Works pool.now empty_hand 8 0 seat.old }
    requires mail { HasMail pool.now 1 seat.old }
    ensures goes { Goes pool.now empty_hand 8 0 seat.old seat.new }
    ensures sends { Sends 1 (view_of seat.old) (view_of seat.new) }
{
    match make_one(rt, pool, sizes, size, byte, seat) {
        Some((root, sum)) => {
            post_next(rt, pool, shape, seat, Some(whole_of(root)));
            Some(if work == Workload::Counted { 0 } else { sum })
        }
        None => {
            post_next(rt, pool, shape, seat, None);
            None
        }
    }
}

// A new buffer, written and read, with the sum of what was read. None where none was to be had.
fn make_one<W: Wait>(
    rt: &W,
    pool: &SharedPool,
    sizes: &SizeClasses,
    size: u32,
    byte: u8,
    seat: &mut PoolSeat,
) -> Option<(RootId, u64)>
    requires sizes { sizes.now ≡ geometry_of pool.now.table.layout.shape }
    requires works { Works pool.now empty_hand 8 0 seat.old }
    ensures goes { Goes pool.now empty_hand 8 0 seat.old seat.new }
    ensures sends { Sends 0 (view_of seat.old) (view_of seat.new) }
    ensures counts { IfSome result (λ r. HasCount r.0 (view_of seat.new)) }
    ensures small { IfSome result (λ r. r.0.capacity ≤ views.most_capacity) }
{
    let class = sizes.class_of(size)?;
    let Ok(root) = allocate(rt, pool, seat, size, class, None) else {
        return None;
    };
    let sum = write_and_read(rt, pool, seat, root, byte);
    Some((root, sum))
}

// A parcel goes to the next lane, with this buffer, which the seat then counts once less, or empty.
fn post_next<W: Wait>(
    rt: &W,
    pool: &SharedPool,
    shape: &Shape,
    seat: &mut PoolSeat,
    view: Option<ViewData>,
)
    requires shape { shape.now ≡ pool.now.table.layout.shape }
    requires works { Works pool.now empty_hand 0 0 seat.old }
    requires view { IfSome view views.IsView }
    requires known { IfSome view (ReachesKnown (view_of seat.old)) }
    requires counts { IfSome view (λ v. HasCount v.root (view_of seat.old)) }
    requires mail { HasMail pool.now 1 seat.old }
    ensures goes { Goes pool.now empty_hand 0 0 seat.old seat.new }
    ensures sends { Sends 1 (view_of seat.old) (view_of seat.new) }
{
    let Some(lane) = seat.number() else {
        unreachable!()
    };
    let to = next_lane(shape.lanes, lane);
    post(rt, pool, seat, to, Parcel { view });
}

/// The lane behind this one, of so many.
pub fn next_lane(lanes: u32, lane: u32) -> u32
    requires { lane < lanes }
    ensures next { result ≡ next_lane lanes lane }
    ensures below { result < lanes }
{
    if lane + 1 < lanes { lane + 1 } else { 0 }
}

// A buffer, all of whose bytes are to be written.
fn whole_of(root: RootId) -> ViewData
    ensures { result ≡ views.view_of root }
{
    ViewData {
        root,
        offset: 0,
        len: root.capacity,
        reader: 0,
        writer: 0,
    }
}

// The next parcel from the lane before, when it has come.
fn fetch_next<W: Wait>(rt: &W, pool: &SharedPool, shape: &Shape, seat: &mut PoolSeat) -> Parcel
    requires shape { shape.now ≡ pool.now.table.layout.shape }
    requires works { Works pool.now empty_hand 0 0 seat.old }
    ensures goes { Goes pool.now empty_hand 0 0 seat.old seat.new }
    ensures counts { IfSome result.view (λ w. HasCount w.root (view_of seat.new)) }
    ensures sends { Sends 0 (view_of seat.old) (view_of seat.new) }
{
    let Some(lane) = seat.number() else {
        unreachable!()
    };
    let before = if lane == 0 { shape.lanes - 1 } else { lane - 1 };
    for _ in rt.forever() {
        match fetch(rt, pool, seat, before) {
            Some(parcel) => return parcel,
            None => yield_now(),
        }
    }
    unreachable!()
}

// A buffer that was fetched as the `count`-th is read and released.
fn take<W: Wait>(
    rt: &W,
    pool: &SharedPool,
    work: Workload,
    parcel: Parcel,
    count: u32,
    seat: &mut PoolSeat,
) -> u64
    requires works { Works pool.now empty_hand 5 0 seat.old }
    requires counts { IfSome parcel.view (λ w. HasCount w.root (view_of seat.old)) }
    ensures goes { Goes pool.now empty_hand 5 0 seat.old seat.new }
    ensures sends { Sends 0 (view_of seat.old) (view_of seat.new) }
{
    let Some(view) = parcel.view else { return 0 };
    let sum = read_first(rt, pool, work, view.root, count, seat);
    release(rt, pool, seat, view.root);
    sum
}

// The sum of the first four bytes, or of counted blocks how many of them were wrong.
fn read_first<W: Wait>(
    rt: &W,
    pool: &SharedPool,
    work: Workload,
    root: RootId,
    count: u32,
    seat: &mut PoolSeat,
) -> u64
    requires works { Works pool.now empty_hand 1 0 seat.old }
    requires counts { HasCount root (view_of seat.old) }
    ensures goes { Goes pool.now empty_hand 1 0 seat.old seat.new }
    ensures counts { HasCount root (view_of seat.new) }
    ensures sends { Sends 0 (view_of seat.old) (view_of seat.new) }
{
    if root.capacity < 4 {
        return 0;
    }
    let mut out = [0u8; 4];
    get(rt, pool, seat, root, 0, &mut out);
    match work {
        Workload::Counted => count_others(&out, (count % 256) as u8),
        _ => sum_of(&out),
    }
}
