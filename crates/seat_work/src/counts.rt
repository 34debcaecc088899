//! How a seat counts a root once more, and once less.

ghost use Rattle.std.specs.Prelude.{◌≡◌, ◌<◌, true, false};
ghost use Rattle.pool_table.specs.Counts.{HasCount};
ghost use Rattle.shared_pool.specs.SeatViews.{view_of};
ghost use Rattle.seat_work.specs.Hands.{empty_hand};
ghost use Rattle.seat_work.specs.Changes.{once_more, once_less};
ghost use Rattle.seat_work.specs.Works.{IsLater, Proceeds, Works};

use crate::ending::{put_handle, retire};
use crate::regions::put_back;
use pool_law::RootId;
use shared_pool::{PoolSeat, Release, SharedPool};
use std::sync::Wait;

/// The seat counts the root once more, for one of its moves.
#[inline]
pub fn retain(pool: &SharedPool, seat: &mut PoolSeat, root: RootId)
    requires works { Works pool.now empty_hand 0 1 seat.old }
    requires counts { HasCount root (view_of seat.old) }
    ensures proceeds { Proceeds pool.now empty_hand 0 1 (once_more root) seat.old seat.new }
    ensures counts { HasCount root (view_of seat.new) }
    ensures later { IsLater pool.now seat.old seat.new }
{
    pool.retain(seat, root);
}

/// The seat counts the root once less. True exactly where that was the last count of all seats and
/// parcels: the root ended then, its region went into its owner's cache or back to its arena, and
/// the handle of its place came home. Else the seat gets one move more.
pub fn release<W: Wait>(rt: &W, pool: &SharedPool, seat: &mut PoolSeat, root: RootId) -> bool
    requires works { Works pool.now empty_hand 4 0 seat.old }
    requires counts { HasCount root (view_of seat.old) }
    ensures proceeds { Proceeds pool.now empty_hand 4 0 (once_less root result) seat.old seat.new }
    ensures moves { result ≡ false → (view_of seat.old).moves < (view_of seat.new).moves }
    ensures later { IsLater pool.now seat.old seat.new }
{
    match pool.release(seat, root) {
        Release::Kept => false,
        Release::Ended(token) => {
            let (handle, region) = retire(pool, seat, token);
            put_back(rt, pool, seat, Some(&handle), region);
            put_handle(rt, pool, seat, handle);
            true
        }
    }
}
