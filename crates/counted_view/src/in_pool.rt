//! What a nest's calls do with the count of its root in the pool.

ghost use Rattle.std.specs.Prelude.{◌≡◌, ◌<◌, IsTrue};
ghost use Rattle.pool_table.specs.Counts.{HasCount};
ghost use Rattle.shared_pool.specs.SeatViews.{view_of, SameSeat};
ghost use Rattle.shared_pool.specs.Seats.{IsPoolSeat};
ghost use Rattle.counted_view.specs.NestSeats.{IsCountedIn, IsReleasedIf};

use pool_law::RootId;
use pool_table::EndToken;
use shared_pool::{PoolSeat, Release, SharedPool};

/// What depends on view 0 is counted in the pool.
pub(crate) fn count_in(pool: &SharedPool, seat: &mut PoolSeat, root: RootId, number: u32)
    requires seat { IsPoolSeat pool.now seat.old }
    requires counts { number ≡ 0 → HasCount root (view_of seat.old) }
    requires moves { number ≡ 0 → 0 < (view_of seat.old).moves }
    ensures same { SameSeat seat.old seat.new }
    ensures seat { IsPoolSeat pool.now seat.new }
    ensures did { IsCountedIn number root seat.old seat.new }
{
    if number == 0 {
        pool.retain(seat, root);
    }
}

/// Releases the root in the pool, if the nest counts it once less.
pub(crate) fn release_if(
    pool: &SharedPool,
    seat: &mut PoolSeat,
    root: RootId,
    lost: bool,
) -> Option<EndToken>
    requires seat { IsPoolSeat pool.now seat.old }
    requires counts { IsTrue lost → HasCount root (view_of seat.old) }
    ensures same { SameSeat seat.old seat.new }
    ensures seat { IsPoolSeat pool.now seat.new }
    ensures did { IsReleasedIf lost root result seat.old seat.new }
{
    if !lost {
        return None;
    }
    match pool.release(seat, root) {
        Release::Kept => None,
        Release::Ended(token) => Some(token),
    }
}
