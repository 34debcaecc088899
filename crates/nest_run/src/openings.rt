//! A pool with one seat, and the root on which calls are played.
ghost use Rattle.std.specs.Prelude.{◌≡◌, ◌<◌, ◌≤◌, ◌∷◌, [], IfOk, IfSome, vec_capacity};
ghost use Rattle.shared_pool.specs.Opening.{IsOpened};
ghost use Rattle.shared_pool.specs.Seats.{IsPoolSeat};
ghost use Rattle.nest_run.specs.Inputs.{capacity_limit};
ghost use Rattle.nest_run.specs.Standing.{IsBorn};

use crate::steps::{pop_handle, take};
use pool_law::{Level, RootId, Shape};
use pool_table::Layout;
use shared_pool::{PoolSeat, SharedPool};
use size_classes::DEFAULT_PAGE;
use std::alloc::{AllocError, Global};
use std::sync::Wait;

/// One lane with one handle, over one chunk as long as the longest root that may be asked for. Each
/// call of an input takes at most one move and four turns, and the birth of the root three turns.
pub const LAYOUT: Layout = Layout {
    shape: Shape {
        page: DEFAULT_PAGE,
        order: 9,
        arenas: 1,
        chunks: 1,
        handles: 1,
        lanes: 1,
        level: Level::Disabled,
        interval: 128,
    },
    moves: 4096,
    turns: 16_387,
};

/// The class of a whole chunk, which the root may have: no other is ever born here.
const WHOLE_CHUNK: u32 = 67;

/// A pool, its seat, and the vector in which that came.
pub fn open(alloc: Global) -> Result<(SharedPool, PoolSeat, Vec<PoolSeat>), AllocError>
    ensures layout { IfOk result (λ o. o.0.layout ≡ LAYOUT) }
    ensures seat { IfOk result (λ o. IsOpened LAYOUT o.0 0 o.1) }
    ensures spare { IfOk result (λ o. (o.2.items ≡ []) × (0 < vec_capacity o.2)) }
{
    let (pool, mut seats) = SharedPool::new(alloc, LAYOUT, &[0])?;
    let Some(seat) = seats.pop() else {
        unreachable!()
    };
    Ok((pool, seat, seats))
}

/// A new root, which the seat counts once. The pool is new, so there is one.
pub fn bear<W: Wait>(
    rt: &W,
    pool: &SharedPool,
    seat: &mut PoolSeat,
    capacity: u32,
) -> Option<RootId>
    requires layout { pool.now.layout ≡ LAYOUT }
    requires seat { IsOpened LAYOUT pool.now 0 seat.old }
    requires capacity { capacity ≤ capacity_limit }
    ensures seat { IsPoolSeat pool.now seat.new }
    ensures born { IfSome result (λ root. IsBorn pool.now capacity root seat.new) }
{
    let handle = pop_handle(rt, pool, seat)?;
    let Some(region) = take(rt, pool, seat, WHOLE_CHUNK) else {
        handle.leave();
        return None;
    };
    let (_number, root) = pool.birth(seat, handle, region, capacity, None);
    Some(root)
}
