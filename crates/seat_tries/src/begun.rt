//! What a seat began and could not end, since another seat was in the way.

ghost use Rattle.std.specs.Prelude.{◌≡◌, ◌<◌};
ghost use Rattle.pool_law.specs.declared.note.Object.TheVariants.{Bin};
ghost use Rattle.pool_law.specs.Dids as says;
ghost use Rattle.pool_law.specs.Limits.{cached_classes};
ghost use Rattle.pool_law.specs.Readers.{note};
ghost use Rattle.shared_pool.specs.SeatViews.{view_of};
ghost use Rattle.seat_work.specs.Hands.{IsHandle, IsRegion};
ghost use Rattle.seat_work.specs.Changes.{no_change};
ghost use Rattle.seat_work.specs.Readings.{NotesOn};
ghost use Rattle.seat_work.specs.Works.{Works};
ghost use Rattle.seat_work.specs.Answers.{with_place, with_both};
ghost use Rattle.seat_tries.specs.Leaving.{hand_of, left_of, owed, IsBegun, GoesOn};
ghost use Rattle.seat_tries.specs.Taking.{taken};

use handle_bin::Handle;
use pool_law::Region;
use shared_pool::{PoolSeat, Put, SharedPool, Went};
use size_classes::CACHED_CLASSES;

/// What a seat has still to put away.
pub enum Begun {
    /// Nothing.
    Nothing,
    /// A handle is to go home.
    Place(Handle),
    /// A region is to go back to its arena, and then a handle home.
    Both(Handle, Region),
}

/// Goes on with what was begun, and answers what is left of it. No region is taken on the way.
pub fn finish(pool: &SharedPool, seat: &mut PoolSeat, begun: Begun) -> Begun
    requires works { Works pool.now (hand_of begun) (owed begun) 0 seat.old }
    requires begun { IsBegun pool.now seat.old begun }
    ensures goes { GoesOn pool.now (owed begun) no_change seat.old seat.new result }
    ensures took { taken seat.new ≡ taken seat.old }
{
    match begun {
        Begun::Nothing => Begun::Nothing,
        Begun::Place(handle) => put_handle(pool, seat, handle),
        Begun::Both(handle, region) => give_region(pool, seat, handle, region),
    }
}

// The region goes into its owner's cache or back to its arena, and the handle home.
pub(crate) fn put_away(
    pool: &SharedPool,
    seat: &mut PoolSeat,
    handle: Handle,
    region: Region,
) -> Begun
    requires works { Works pool.now (with_both handle.place region.id) 3 0 seat.old }
    requires handle { IsHandle pool.now handle }
    requires region { IsRegion pool.now seat.old region }
    ensures { GoesOn pool.now 3 no_change seat.old seat.new result }
{
    if region.id.class >= CACHED_CLASSES {
        return give_region(pool, seat, handle, region);
    }
    put_cached(pool, seat, handle, region)
}

// The region goes into its owner's cache, if that takes it, or else back to its arena, and the
// handle home.
fn put_cached(pool: &SharedPool, seat: &mut PoolSeat, handle: Handle, own: Region) -> Begun
    requires works { Works pool.now (with_both handle.place own.id) 3 0 seat.old }
    requires handle { IsHandle pool.now handle }
    requires region { IsRegion pool.now seat.old own }
    requires class { own.id.class < cached_classes }
    ensures { GoesOn pool.now 3 no_change seat.old seat.new result }
{
    match pool.put_cached(seat, own) {
        Went::Did(_number, Put::Kept) => put_handle(pool, seat, handle),
        Went::Did(_number, Put::Back(region, _no)) => give_region(pool, seat, handle, region),
        Went::Held(_held, region) => give_region(pool, seat, handle, region),
    }
}

// The region goes back to its arena, and the handle home.
fn give_region(pool: &SharedPool, seat: &mut PoolSeat, handle: Handle, own: Region) -> Begun
    requires works { Works pool.now (with_both handle.place own.id) 2 0 seat.old }
    requires handle { IsHandle pool.now handle }
    requires region { IsRegion pool.now seat.old own }
    ensures goes { GoesOn pool.now 2 no_change seat.old seat.new result }
    ensures took { taken seat.new ≡ taken seat.old }
{
    match pool.give(seat, own) {
        Went::Did(_number, ()) => put_handle(pool, seat, handle),
        Went::Held(_held, region) => Begun::Both(handle, region),
    }
}

// The handle goes home.
pub(crate) fn put_handle(pool: &SharedPool, seat: &mut PoolSeat, own: Handle) -> Begun
    requires works { Works pool.now (with_place own.place) 1 0 seat.old }
    requires handle { IsHandle pool.now own }
    ensures goes { GoesOn pool.now 1 no_change seat.old seat.new result }
    ensures took { taken seat.new ≡ taken seat.old }
    ensures reads { NotesOn (note (Bin own.lane) (says.home own.place)) (left_of result)
        (view_of seat.old) (view_of seat.new) }
{
    match pool.put_handle(seat, own) {
        Went::Did(_number, ()) => Begun::Nothing,
        Went::Held(_held, handle) => Begun::Place(handle),
    }
}
