//! How a seat counts a root once less. (Netty: `PooledByteBuf.deallocate`)

ghost use Rattle.std.specs.Prelude.{◌≡◌, ◌<◌, false};
ghost use Rattle.pool_table.specs.Counts.{HasCount};
ghost use Rattle.shared_pool.specs.RootNotes.{HoldsToken};
ghost use Rattle.shared_pool.specs.SeatViews.{view_of};
ghost use Rattle.seat_work.specs.Hands.{empty_hand};
ghost use Rattle.seat_work.specs.Changes.{no_change, once_less};
ghost use Rattle.seat_work.specs.Works.{Works};
ghost use Rattle.seat_work.specs.Answers.{with_token};
ghost use Rattle.seat_tries.specs.Leaving.{GoesOn};

use crate::begun::{Begun, put_away};
use pool_law::RootId;
use pool_table::EndToken;
use shared_pool::{PoolSeat, Release, Retired, SharedPool};

/// The seat counts the root once less, and answers what is left to put away. True exactly where
/// that was the last count of all seats and parcels: the root ended then. Else the seat gets one
/// move more.
pub fn release(pool: &SharedPool, seat: &mut PoolSeat, root: RootId) -> (bool, Begun)
    requires works { Works pool.now empty_hand 4 0 seat.old }
    requires counts { HasCount root (view_of seat.old) }
    ensures goes { GoesOn pool.now 4 (once_less root result.0) seat.old seat.new result.1 }
    ensures moves { result.0 ≡ false → (view_of seat.old).moves < (view_of seat.new).moves }
{
    match pool.release(seat, root) {
        Release::Kept => (false, Begun::Nothing),
        Release::Ended(token) => (true, end(pool, seat, token)),
    }
}

// A root whose count ended, ends.
fn end(pool: &SharedPool, seat: &mut PoolSeat, token: EndToken) -> Begun
    requires works { Works pool.now (with_token token.root) 4 0 seat.old }
    requires token { HoldsToken seat.old token }
    ensures { GoesOn pool.now 4 no_change seat.old seat.new result }
{
    let Retired {
        number: _,
        region,
        handle,
    } = pool.retire(seat, token);
    put_away(pool, seat, handle, region)
}
