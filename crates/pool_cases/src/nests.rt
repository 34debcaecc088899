//! A nest of as many views as it has room for, of which one is held as often as it may be: `nest_run` reads fewer calls.

ghost use Rattle.std.specs.Prelude.{◌≡◌, ◌+◌, ◌≤◌, ◌∷◌, [], IfOk};
ghost use Rattle.pool_table.specs.Counts.{gained_of, lost_of};
ghost use Rattle.shared_pool.specs.SeatViews.{view_of};
ghost use Rattle.shared_pool.specs.Opening.{IsOpened};
ghost use Rattle.shared_pool.specs.Seats.{IsPoolSeat};
ghost use Rattle.counted_view.specs.NestSeats.{CountsRoot};

use counted_view::{Nest, NestEnd, NestNo};
use pool_law::{Level, RootId, Shape};
use pool_table::Layout;
use shared_pool::{PoolSeat, SharedPool, Went};
use size_classes::DEFAULT_PAGE;
use std::alloc::{AllocError, Global};
use std::mem::ManuallyDrop;
use std::process::Abort;
use std::test::Fail;

// One lane with one handle, over one chunk of 65,536 bytes.
const LAYOUT: Layout = Layout {
    shape: Shape {
        page: DEFAULT_PAGE,
        order: 3,
        arenas: 1,
        chunks: 1,
        handles: 1,
        lanes: 1,
        level: Level::Disabled,
        interval: 128,
    },
    moves: 4,
    turns: 8,
};

// A pool, the seat of its one lane, and the nest of a root.
struct Trial {
    pool: SharedPool,
    seat: PoolSeat,
    nest: Nest,
}

fn open(alloc: Global) -> Result<(SharedPool, PoolSeat), AllocError>
    ensures layout { IfOk result (λ o. o.0.layout ≡ LAYOUT) }
    ensures seat { IfOk result (λ o. IsOpened LAYOUT o.0 0 o.1) }
{
    let (pool, mut seats) = SharedPool::new(alloc, LAYOUT, &[1])?;
    let Some(seat) = seats.pop() else {
        unreachable!()
    };
    seats.destroy_empty();
    Ok((pool, seat))
}

// Spends a pool and its seat.
fn leave(pool: SharedPool, seat: PoolSeat) {
    let _pool = unsafe { ManuallyDrop::new_unchecked(pool) };
    let _seat = unsafe { ManuallyDrop::new_unchecked(seat) };
}

// A root of a new pool, which its seat counts once.
fn born(rt: &impl Abort, pool: &SharedPool, seat: &mut PoolSeat, capacity: u32) -> RootId
    requires layout { pool.now.layout ≡ LAYOUT }
    requires seat { IsPoolSeat pool.now seat.old }
    requires notes { (view_of seat.old).own.notes ≡ [] }
    requires turns { 3 ≤ (view_of seat.old).turns }
    requires moves { 2 ≤ (view_of seat.old).moves }
    ensures seat { IsPoolSeat pool.now seat.new }
    ensures counts { gained_of result (view_of seat.new) ≡ lost_of result (view_of seat.new) + 1 }
    ensures moves { 1 ≤ (view_of seat.new).moves }
    ensures capacity { result.capacity ≡ capacity }
{
    let handle = match pool.pop_handle(seat) {
        Went::Did(_, Some(handle)) => handle,
        Went::Did(_, None) | Went::Held(_, ()) => panic!(rt; "no handle"),
    };
    let region = match pool.take(seat, 39) {
        Went::Did(_, Some(region)) => region,
        Went::Did(_, None) | Went::Held(_, ()) => {
            handle.leave();
            panic!(rt; "no region")
        }
    };
    assert!(rt; capacity <= region.id.place.len);
    let (_number, root) = pool.birth(seat, handle, region, capacity, None);
    root
}

// The nest of a new root, with room for so many slices.
fn start(rt: &impl Abort, alloc: Global, capacity: u32, views: u32) -> Result<Trial, AllocError>
    requires capacity { capacity ≤ 32768 }
    requires views { (1 ≤ views) × (views ≤ 4096) }
    ensures seat { IfOk result (λ t. IsPoolSeat t.pool t.seat) }
    ensures counts { IfOk result (λ t. CountsRoot t.nest t.seat) }
    ensures moves { IfOk result (λ t. 1 ≤ (view_of t.seat).moves) }
{
    let (pool, mut seat) = open(alloc)?;
    let root = born(rt, &pool, &mut seat, capacity);
    match Nest::new(alloc, root, views) {
        Ok(nest) => Ok(Trial { pool, seat, nest }),
        Err(e) => {
            leave(pool, seat);
            Err(e)
        }
    }
}

fn end(trial: Trial) {
    let Trial { pool, seat, nest } = trial;
    nest.leave();
    leave(pool, seat);
}

// Holds a view once less: how many ended, and whether the root's count did.
fn let_go(
    pool: &SharedPool,
    seat: &mut PoolSeat,
    nest: &mut Nest,
    v: u32,
) -> Result<(u32, bool), NestNo>
    requires seat { IsPoolSeat pool.now seat.old }
    requires counts { CountsRoot nest.old seat.old }
    ensures seat { IsPoolSeat pool.now seat.new }
    ensures counts { CountsRoot nest.new seat.new }
{
    let NestEnd { ended, token } = nest.release(pool, seat, v)?;
    match token {
        None => Ok((ended, false)),
        Some(token) => {
            token.leave();
            Ok((ended, true))
        }
    }
}

#[test]
fn a_view_is_held_so_often_and_no_more(rt: HostRuntime) -> Result<(), Fail> {
    let Trial {
        pool,
        mut seat,
        mut nest,
    } = start(&rt, rt.alloc(), 16, 1)?;
    assert!(rt; nest.slice(&pool, &mut seat, 0, 0, 16) == Ok(1));
    assert!(rt; nest.slice(&pool, &mut seat, 1, 0, 1) == Err(NestNo::Full));
    for _ in 1..65535u32 {
        assert!(rt; nest.retain(&pool, &mut seat, 1) == Ok(()));
    }
    assert!(rt; nest.retain(&pool, &mut seat, 1) == Err(NestNo::Full));
    assert!(rt; let_go(&pool, &mut seat, &mut nest, 1) == Ok((0, false)));
    assert!(rt; nest.retain(&pool, &mut seat, 1) == Ok(()));
    end(Trial { pool, seat, nest });
    Ok(())
}
