//! The counts of roots. No call here waits, and none claims an object.

ghost use Rattle.std.specs.Prelude.{◌≡◌, ◌-◌, ◌<◌};
ghost use Rattle.pool_law.specs.declared.note.RefDid.TheVariants.{Retain, Look};
ghost use Rattle.pool_table.specs.Counts.{HasCount, with_ref};
ghost use Rattle.shared_pool.specs.SeatViews.{view_of, HasView, SameSeat};
ghost use Rattle.shared_pool.specs.RootNotes.{IsReleasedAs};
ghost use Rattle.shared_pool.specs.Seats.{IsPoolSeat};

use crate::pool::SharedPool;
use crate::seat::PoolSeat;
use crate::went::Release;
use pool_law::RootId;
use pool_table::Dropped;

impl SharedPool {
    /// One count more of a root that the seat counts. It takes one of the seat's moves.
    pub fn retain(&self, seat: &mut PoolSeat, root: RootId)
        requires seat { IsPoolSeat self.now seat.old }
        requires counts { HasCount root (view_of seat.old) }
        requires moves { 0 < (view_of seat.old).moves }
        ensures same { SameSeat seat.old seat.new }
        ensures seat { IsPoolSeat self.now seat.new }
        ensures did { let v = view_of seat.old in
            HasView seat.new (with_ref v root Retain (v.moves - 1)) }
    {
        self.table.retain(&mut seat.seat, root);
    }

    /// One count less of a root that the seat counts. Ended comes exactly where it was the last
    /// one: the seat then has the right to retire the root. Else the seat gets one move more, so
    /// that who gives back as many counts as he takes never runs out.
    pub fn release(&self, seat: &mut PoolSeat, root: RootId) -> Release
        requires seat { IsPoolSeat self.now seat.old }
        requires counts { HasCount root (view_of seat.old) }
        ensures same { SameSeat seat.old seat.new }
        ensures seat { IsPoolSeat self.now seat.new }
        ensures did { IsReleasedAs result root seat.old seat.new }
    {
        match self.table.release(&mut seat.seat, root) {
            Dropped::Kept => Release::Kept,
            Dropped::Ended(token) => Release::Ended(token),
        }
    }

    /// The count of a root that the seat counts, over all seats and parcels, as this one step found
    /// it.
    pub fn look(&self, seat: &mut PoolSeat, root: RootId) -> u32
        requires seat { IsPoolSeat self.now seat.old }
        requires counts { HasCount root (view_of seat.old) }
        ensures same { SameSeat seat.old seat.new }
        ensures seat { IsPoolSeat self.now seat.new }
        ensures did { let v = view_of seat.old in
            HasView seat.new (with_ref v root (Look result) v.moves) }
    {
        self.table.look(&mut seat.seat, root)
    }
}
