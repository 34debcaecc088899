//! How roots go from one lane to another: in parcels, by the mail of the two lanes.

ghost use Rattle.std.specs.Prelude.{ℕ, ◌<◌, IfSome, IfNone};
ghost use Rattle.pool_law.specs.Views.{IsView};
ghost use Rattle.pool_table.specs.Counts.{HasCount};
ghost use Rattle.shared_pool.specs.Knowing.{ReachesKnown};
ghost use Rattle.shared_pool.specs.MailAnswers.{HasRoom, IsDrained, IsFetched, IsPosted};
ghost use Rattle.shared_pool.specs.SeatLanes.{lane_of};
ghost use Rattle.shared_pool.specs.SeatViews.{view_of};
ghost use Rattle.seat_work.specs.Hands.{empty_hand};
ghost use Rattle.seat_work.specs.Changes.{Changes};
ghost use Rattle.seat_work.specs.HandOvers.{Sends, posted, fetched};
ghost use Rattle.seat_work.specs.Works.{Works, Goes, Proceeds};

use pool_law::Parcel;
use shared_pool::{Fetched, PoolSeat, SharedPool};
use std::sync::Wait;

/// A parcel goes to a lane, as the post of the number that is answered. Its view reaches no further
/// than the seat knows of its root's capacity. The seat then counts its root once less. It costs no
/// turn.
#[inline]
pub fn post<W: Wait>(rt: &W, pool: &SharedPool, seat: &mut PoolSeat, to: u32, parcel: Parcel) -> u64
    requires works { Works pool.now empty_hand 0 0 seat.old }
    requires to { to < pool.now.table.layout.shape.lanes }
    requires room { HasRoom pool.now (lane_of seat.old) to (view_of seat.old) }
    requires view { IfSome parcel.view IsView }
    requires known { IfSome parcel.view (ReachesKnown (view_of seat.old)) }
    requires counts { IfSome parcel.view (λ v. HasCount v.root (view_of seat.old)) }
    ensures goes { Goes pool.now empty_hand 0 0 seat.old seat.new }
    ensures changes { Changes (posted parcel) (view_of seat.old) (view_of seat.new) }
    ensures sends { Sends 1 (view_of seat.old) (view_of seat.new) }
    ensures noted { IsPosted seat.old seat.new to result parcel }
{
    pool.post(rt, seat, to, parcel)
}

/// The next parcel from a lane, whose root the seat then counts once more, with a capacity that
/// reaches as far as its view. None comes exactly where the mail's queue was empty at this call's
/// own step on it. It costs no turn.
#[inline]
pub fn fetch<W: Wait>(rt: &W, pool: &SharedPool, seat: &mut PoolSeat, from: u32) -> Option<Parcel>
    requires works { Works pool.now empty_hand 0 0 seat.old }
    requires lane { «from» < pool.now.table.layout.shape.lanes }
    ensures proceeds { Proceeds pool.now empty_hand 0 0 (fetched result) seat.old seat.new }
    ensures view { IfSome result (λ p. IfSome p.view IsView) }
    ensures known { IfSome result (λ p. IfSome p.view (ReachesKnown (view_of seat.new))) }
    ensures counts { IfSome result (λ p.
        IfSome p.view (λ v. HasCount v.root (view_of seat.new))) }
    ensures noted { IfSome result (λ p. (number : ℕ) ×
        IsFetched seat.old seat.new «from» number p) }
    ensures drained { IfNone result (IsDrained «from» seat.old) }
{
    match pool.fetch(rt, seat, from) {
        Fetched::Got(_number, parcel) => Some(parcel),
        Fetched::Empty => None,
    }
}
