//! How a seat gets a handle of its lane's bin.

ghost use Rattle.std.specs.Prelude.{◌≡◌, ℕ, IfSome};
ghost use Rattle.pool_law.specs.Patterns.{allot};
ghost use Rattle.shared_pool.specs.SeatLanes.{lane_of};
ghost use Rattle.shared_pool.specs.SeatViews.{view_of};
ghost use Rattle.seat_work.specs.Hands.{empty_hand, IsHandle};
ghost use Rattle.seat_work.specs.Readings.{NotesOn};
ghost use Rattle.seat_work.specs.Works.{IsLater, Proceeds, Works};
ghost use Rattle.seat_work.specs.Answers.{hand_got, handle_told, with_got, TookHandle};

use handle_bin::Handle;
use shared_pool::{PoolSeat, SharedPool, Went};
use std::sync::Wait;

/// The next handle of the seat's lane.
#[inline]
pub(crate) fn pop_handle<W: Wait>(rt: &W, pool: &SharedPool, seat: &mut PoolSeat) -> Option<Handle>
    requires { Works pool.now empty_hand 1 0 seat.old }
    ensures proceeds { Proceeds pool.now (hand_got result) 1 0 (handle_told result)
        seat.old seat.new }
    ensures handle { IfSome result (IsHandle pool.now) }
    ensures later { IsLater pool.now seat.old seat.new }
    ensures took { IfSome result (λ h. TookHandle pool.now h.place seat.old seat.new) }
    ensures own { IfSome result (λ h. h.lane ≡ lane_of seat.old) }
    ensures reads { let shape = pool.now.table.layout.shape in let lane = lane_of seat.old in
        (size : ℕ) → NotesOn (allot shape lane size) (with_got shape lane size result)
        (view_of seat.old) (view_of seat.new) }
{
    match pool.pop_handle(seat) {
        Went::Did(_number, handle) => handle,
        Went::Held(_held, ()) => wait_for_handle(rt, pool, seat),
    }
}

// The same, as often as another seat is in the way.
#[inline(never)]
fn wait_for_handle<W: Wait>(rt: &W, pool: &SharedPool, seat: &mut PoolSeat) -> Option<Handle>
    requires { Works pool.now empty_hand 1 0 seat.old }
    ensures proceeds { Proceeds pool.now (hand_got result) 1 0 (handle_told result)
        seat.old seat.new }
    ensures handle { IfSome result (IsHandle pool.now) }
    ensures later { IsLater pool.now seat.old seat.new }
    ensures took { IfSome result (λ h. TookHandle pool.now h.place seat.old seat.new) }
    ensures own { IfSome result (λ h. h.lane ≡ lane_of seat.old) }
    ensures reads { let shape = pool.now.table.layout.shape in let lane = lane_of seat.old in
        (size : ℕ) → NotesOn (allot shape lane size) (with_got shape lane size result)
        (view_of seat.old) (view_of seat.new) }
{
    for _ in rt.forever() {
        match pool.pop_handle(seat) {
            Went::Did(_number, handle) => return handle,
            Went::Held(_held, ()) => (),
        }
    }
    unreachable!()
}
