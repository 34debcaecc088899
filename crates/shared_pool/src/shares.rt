//! Moves that one seat hands to another. No call here waits, and none claims an object.

ghost use Rattle.std.specs.Prelude.{◌≡◌, ◌≤◌};
ghost use Rattle.shared_pool.specs.SeatViews.{view_of, HasView, SameSeat};
ghost use Rattle.pool_table.specs.Steps.{share_left, share_added};
ghost use Rattle.shared_pool.specs.Seats.{IsPoolSeat};
ghost use Rattle.shared_pool.specs.Shares.{IsShareOf};

use crate::pool::SharedPool;
use crate::seat::PoolSeat;
use crate::share::Share;

impl SharedPool {
    /// Takes so many moves out of a seat, for the seat that accepts them. Where one lane retains
    /// what others release, the moves go to those others; so they hand them back, and nobody ever
    /// runs out.
    pub fn share(&self, seat: &mut PoolSeat, moves: u32) -> Share
        requires seat { IsPoolSeat self.now seat.old }
        requires moves { moves ≤ (view_of seat.old).moves }
        ensures same { SameSeat seat.old seat.new }
        ensures seat { IsPoolSeat self.now seat.new }
        ensures left { HasView seat.new (share_left moves (view_of seat.old)) }
        ensures share { IsShareOf self.now result × (result.moves ≡ moves) }
    {
        let taken = self.table.share(&mut seat.seat, moves);
        Share { seat: taken, moves }
    }

    /// The seat has the moves of a share too, and nothing else of it changes.
    pub fn accept(&self, seat: &mut PoolSeat, share: Share)
        requires seat { IsPoolSeat self.now seat.old }
        requires share { IsShareOf self.now share }
        ensures same { SameSeat seat.old seat.new }
        ensures seat { IsPoolSeat self.now seat.new }
        ensures more { HasView seat.new (share_added share.moves (view_of seat.old)) }
    {
        self.table.accept(&mut seat.seat, share.into_seat());
    }
}
