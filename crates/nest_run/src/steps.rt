//! Steps at the pool, each tried again where another seat is in the way.
ghost use Rattle.std.specs.Prelude.{◌≡◌, ℕ, ◌<◌, IfSome};
ghost use Rattle.std.specs.Prelude.{◌%◌};
ghost use Rattle.size_classes.specs.Sizes.{class_count};
ghost use Rattle.pool_arena.specs.Standing.{taken_or_full};
ghost use Rattle.pool_law.specs.declared.note.Did.{Did};
ghost use Rattle.pool_law.specs.declared.note.Object.TheVariants.{Arena, Bin};
ghost use Rattle.pool_law.specs.Limits.{geometry_of};
ghost use Rattle.shared_pool.specs.SeatViews.{view_of};
ghost use Rattle.shared_pool.specs.Holding.{HoldsHandle, HoldsRegion};
ghost use Rattle.shared_pool.specs.Notes.{plain, popped};
ghost use Rattle.shared_pool.specs.SeatLanes.{lane_of};
ghost use Rattle.shared_pool.specs.Seats.{IsPoolSeat, IsNoted};

use handle_bin::Handle;
use pool_law::Region;
use shared_pool::{PoolSeat, SharedPool, Went};
use std::sync::Wait;

/// The next handle of the seat's lane, if there is one.
pub fn pop_handle<W: Wait>(rt: &W, pool: &SharedPool, seat: &mut PoolSeat) -> Option<Handle>
    requires seat { IsPoolSeat pool.now seat.old }
    requires turn { 0 < (view_of seat.old).turns }
    ensures seat { IsPoolSeat pool.now seat.new }
    ensures did { (number : ℕ) × IsNoted pool.now seat.old seat.new (Bin (lane_of seat.old)) number
        (plain (popped result)) }
    ensures handle { IfSome result (λ h. HoldsHandle pool.now seat.new h) }
{
    for _ in rt.forever() {
        match pool.pop_handle(seat) {
            Went::Did(_number, handle) => return handle,
            Went::Held(_held, ()) => (),
        }
    }
    unreachable!()
}

/// A region of a class from the arena of the seat's lane, if there is one.
pub fn take<W: Wait>(rt: &W, pool: &SharedPool, seat: &mut PoolSeat, class: u32) -> Option<Region>
    requires seat { IsPoolSeat pool.now seat.old }
    requires turn { 0 < (view_of seat.old).turns }
    requires class { class < class_count (geometry_of pool.now.table.layout.shape) }
    ensures seat { IsPoolSeat pool.now seat.new }
    ensures did { (number : ℕ) × IsNoted pool.now seat.old seat.new
        (Arena (lane_of seat.old % pool.now.table.layout.shape.arenas)) number
        (plain (taken_or_full class result)) }
    ensures region { IfSome result (λ r. HoldsRegion pool.now seat.new r × (r.id.class ≡ class)) }
{
    for _ in rt.forever() {
        match pool.take(seat, class) {
            Went::Did(_number, region) => return region,
            Went::Held(_held, ()) => (),
        }
    }
    unreachable!()
}

/// A region goes back to its arena.
pub fn give<W: Wait>(rt: &W, pool: &SharedPool, seat: &mut PoolSeat, own: Region)
    requires seat { IsPoolSeat pool.now seat.old }
    requires turn { 0 < (view_of seat.old).turns }
    requires region { HoldsRegion pool.now seat.old own }
    ensures seat { IsPoolSeat pool.now seat.new }
    ensures did { (number : ℕ) × IsNoted pool.now seat.old seat.new
        (Arena own.id.place.arena) number (plain (Did.Give own.id)) }
{
    let mut region = own;
    for _ in rt.forever() {
        match pool.give(seat, region) {
            Went::Did(_number, ()) => return,
            Went::Held(_held, back) => region = back,
        }
    }
    unreachable!()
}

/// A handle goes home.
pub fn put_handle<W: Wait>(rt: &W, pool: &SharedPool, seat: &mut PoolSeat, own: Handle)
    requires seat { IsPoolSeat pool.now seat.old }
    requires turn { 0 < (view_of seat.old).turns }
    requires handle { HoldsHandle pool.now seat.old own }
    ensures seat { IsPoolSeat pool.now seat.new }
    ensures did { (number : ℕ) × IsNoted pool.now seat.old seat.new (Bin own.lane) number
        (plain (Did.Home own.place)) }
{
    let mut handle = own;
    for _ in rt.forever() {
        match pool.put_handle(seat, handle) {
            Went::Did(_number, ()) => return,
            Went::Held(_held, back) => handle = back,
        }
    }
    unreachable!()
}
