//! What follows the release that ended a root's count: the root ends, its region goes into its
//! owner's cache or back to its arena, and the handle of its place goes home. (Netty:
//! `PooledByteBuf.deallocate`)

ghost use Rattle.pool_law.specs.declared.note.Object.TheVariants.{Bin};
ghost use Rattle.pool_law.specs.Dids as says;
ghost use Rattle.pool_law.specs.Readers.{note};
ghost use Rattle.shared_pool.specs.RootNotes.{HoldsToken};
ghost use Rattle.shared_pool.specs.SeatViews.{view_of};
ghost use Rattle.seat_work.specs.Hands.{empty_hand, IsHandle, IsRegion};
ghost use Rattle.seat_work.specs.Changes.{no_change};
ghost use Rattle.seat_work.specs.Readings.{NotesAs};
ghost use Rattle.seat_work.specs.Works.{Works, Proceeds, IsLater};
ghost use Rattle.seat_work.specs.Answers.{with_token, with_place, with_both};

use crate::regions::put_back;
use handle_bin::Handle;
use pool_law::Region;
use pool_table::EndToken;
use shared_pool::{PoolSeat, Retired, SharedPool, Went};
use std::sync::Wait;

// The root's end is noted, and the handle of its place and its region come.
#[inline(always)]
pub(crate) fn retire(pool: &SharedPool, seat: &mut PoolSeat, token: EndToken) -> (Handle, Region)
    requires works { Works pool.now (with_token token.root) 1 0 seat.old }
    requires token { HoldsToken seat.old token }
    ensures proceeds { Proceeds pool.now (with_both result.0.place result.1.id) 1 0 no_change
        seat.old seat.new }
    ensures handle { IsHandle pool.now result.0 }
    ensures region { IsRegion pool.now seat.new result.1 }
    ensures later { IsLater pool.now seat.old seat.new }
{
    let Retired {
        number: _,
        region,
        handle,
    } = pool.retire(seat, token);
    (handle, region)
}

// The region goes into its owner's cache or back to its arena, and the handle home.
#[inline(always)]
fn put_away<W: Wait>(rt: &W, pool: &SharedPool, seat: &mut PoolSeat, handle: Handle, region: Region)
    requires works { Works pool.now (with_both handle.place region.id) 3 0 seat.old }
    requires handle { IsHandle pool.now handle }
    requires region { IsRegion pool.now seat.old region }
    ensures proceeds { Proceeds pool.now empty_hand 3 0 no_change seat.old seat.new }
    ensures later { IsLater pool.now seat.old seat.new }
{
    put_back(rt, pool, seat, Some(&handle), region);
    put_handle(rt, pool, seat, handle);
}

// The same, where a root that was to be born is not. Here the copies of both are made that go to the
// call, and not at the head of each allocation.
#[inline(always)]
pub(crate) fn return_both<W: Wait>(
    rt: &W,
    pool: &SharedPool,
    seat: &mut PoolSeat,
    handle: Handle,
    region: Region,
)
    requires works { Works pool.now (with_both handle.place region.id) 3 0 seat.old }
    requires handle { IsHandle pool.now handle }
    requires region { IsRegion pool.now seat.old region }
    ensures proceeds { Proceeds pool.now empty_hand 3 0 no_change seat.old seat.new }
    ensures later { IsLater pool.now seat.old seat.new }
{
    return_apart(rt, pool, seat, handle, region);
}

// The same: seldom, so apart.
#[inline(never)]
fn return_apart<W: Wait>(
    rt: &W,
    pool: &SharedPool,
    seat: &mut PoolSeat,
    handle: Handle,
    region: Region,
)
    requires works { Works pool.now (with_both handle.place region.id) 3 0 seat.old }
    requires handle { IsHandle pool.now handle }
    requires region { IsRegion pool.now seat.old region }
    ensures proceeds { Proceeds pool.now empty_hand 3 0 no_change seat.old seat.new }
    ensures later { IsLater pool.now seat.old seat.new }
{
    put_away(rt, pool, seat, handle, region);
}

// The handle goes home.
#[inline(always)]
pub(crate) fn put_handle<W: Wait>(rt: &W, pool: &SharedPool, seat: &mut PoolSeat, own: Handle)
    requires works { Works pool.now (with_place own.place) 1 0 seat.old }
    requires handle { IsHandle pool.now own }
    ensures proceeds { Proceeds pool.now empty_hand 1 0 no_change seat.old seat.new }
    ensures later { IsLater pool.now seat.old seat.new }
    ensures reads { NotesAs (note (Bin own.lane) (says.home own.place)) tt
        (view_of seat.old) (view_of seat.new) }
{
    match pool.put_handle(seat, own) {
        Went::Did(_number, ()) => (),
        Went::Held(_held, back) => wait_to_put_handle(rt, pool, seat, back),
    }
}

// The same, as often as another seat is in the way.
#[inline(never)]
fn wait_to_put_handle<W: Wait>(rt: &W, pool: &SharedPool, seat: &mut PoolSeat, own: Handle)
    requires works { Works pool.now (with_place own.place) 1 0 seat.old }
    requires handle { IsHandle pool.now own }
    ensures proceeds { Proceeds pool.now empty_hand 1 0 no_change seat.old seat.new }
    ensures later { IsLater pool.now seat.old seat.new }
    ensures reads { NotesAs (note (Bin own.lane) (says.home own.place)) tt
        (view_of seat.old) (view_of seat.new) }
{
    let mut handle = own;
    for _ in rt.forever() {
        match pool.put_handle(seat, handle) {
            Went::Did(_number, ()) => return,
            Went::Held(_held, back) => handle = back,
        }
    }
    unreachable!()
}
