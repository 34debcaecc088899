//! How a seat asks a root for capacity in one try. Where another seat is in the way, the region that
//! it has in hand goes back, or is left.

ghost use Rattle.std.specs.Prelude.{◌≡◌, ◌<◌, ◌≤◌, None, Some};
ghost use Rattle.size_classes.specs.Sizes.{class_of, size_at};
ghost use Rattle.pool_law.specs.Limits.{cached_classes, geometry_of};
ghost use Rattle.pool_law.specs.Patterns.{grow_with, put_away as puts_away, regrow};
ghost use Rattle.pool_table.specs.Counts.{HasCount};
ghost use Rattle.shared_pool.specs.Regrowing.{back_of, grown_capacity};
ghost use Rattle.shared_pool.specs.SeatLanes.{lane_of};
ghost use Rattle.shared_pool.specs.SeatViews.{view_of};
ghost use Rattle.seat_work.specs.Answers.{hand_with};
ghost use Rattle.seat_work.specs.Hands.{empty_hand, IsRegion};
ghost use Rattle.seat_work.specs.Readings.{NotesOn};
ghost use Rattle.seat_work.specs.Regrowths.{grow_over};
ghost use Rattle.seat_work.specs.Works.{Works};
ghost use Rattle.pool_member.specs.Growths.{grow_taken, AsksOn, Regrows};
ghost use Rattle.pool_member.specs.Pendings.{left_of, PutsAway};

use crate::pending::Pending;
use crate::work::settling::{give, nothing};
use pool_law::{Region, RootId};
use shared_pool::{Grown, PoolSeat, Put, Room, SharedPool, Went};
use size_classes::CACHED_CLASSES;

/// Why a root did not get the capacity that was asked.
#[derive(Clone, Copy, PartialEq, Eq, Debug, Drop)]
pub enum AskNo {
    /// Another seat was at the root or at the lane's arena.
    Busy,
    /// Its region does not hold so much, and the lane's arena is full for the class.
    Full,
}

/// The root has a capacity of at least `size` from now on, which is answered, with what is left to
/// put away. `class` is that of the size.
pub(crate) fn ask(
    pool: &SharedPool,
    seat: &mut PoolSeat,
    root: RootId,
    size: u32,
    class: u32,
) -> (Result<u32, AskNo>, Pending)
    requires works { Works pool.now empty_hand 6 0 seat.old }
    requires counts { HasCount root (view_of seat.old) }
    requires class { class_of (geometry_of pool.now.table.layout.shape) size ≡ Some class }
    ensures asks { AsksOn pool.now 6 root size seat.old seat.new result.0 result.1 }
    ensures reads { let shape = pool.now.table.layout.shape in
        Regrows (regrow shape (lane_of seat.old) root size) result.0 result.1
        (view_of seat.old) (view_of seat.new) }
{
    match pool.room(seat, root, size) {
        Went::Did(_number, Room::Enough(capacity)) => (Ok(capacity), nothing()),
        Went::Did(_number, Room::Extended) => (Ok(size), nothing()),
        Went::Did(_number, Room::Short(_capacity)) => ask_out(pool, seat, root, size, class),
        Went::Held(_held, ()) => (Err(AskNo::Busy), nothing()),
    }
}

// The root goes on in a region of the lane's cache or arena, unless it has enough by then.
fn ask_out(
    pool: &SharedPool,
    seat: &mut PoolSeat,
    root: RootId,
    size: u32,
    class: u32,
) -> (Result<u32, AskNo>, Pending)
    requires works { Works pool.now empty_hand 5 0 seat.old }
    requires counts { HasCount root (view_of seat.old) }
    requires class { class_of (geometry_of pool.now.table.layout.shape) size ≡ Some class }
    ensures asks { AsksOn pool.now 5 root size seat.old seat.new result.0 result.1 }
    ensures reads { let shape = pool.now.table.layout.shape in
        Regrows (grow_over shape (lane_of seat.old) class root size) result.0 result.1
        (view_of seat.old) (view_of seat.new) }
{
    if class >= CACHED_CLASSES {
        return from_arena(pool, seat, root, size, class);
    }
    from_cache(pool, seat, root, size, class)
}

// The same where the lane has a cache of the class. It is passed by where it is empty, or where
// another seat is in it.
fn from_cache(
    pool: &SharedPool,
    seat: &mut PoolSeat,
    root: RootId,
    size: u32,
    class: u32,
) -> (Result<u32, AskNo>, Pending)
    requires works { Works pool.now empty_hand 5 0 seat.old }
    requires counts { HasCount root (view_of seat.old) }
    requires class { class_of (geometry_of pool.now.table.layout.shape) size ≡ Some class }
    requires cached { class < cached_classes }
    ensures asks { AsksOn pool.now 5 root size seat.old seat.new result.0 result.1 }
    ensures reads { let shape = pool.now.table.layout.shape in
        Regrows (grow_over shape (lane_of seat.old) class root size) result.0 result.1
        (view_of seat.old) (view_of seat.new) }
{
    match pool.pop_cached(seat, class) {
        Went::Did(_number, Some(region)) => move_into(pool, seat, root, size, region),
        Went::Did(_number, None) => from_arena(pool, seat, root, size, class),
        Went::Held(_held, ()) => from_arena(pool, seat, root, size, class),
    }
}

// The same with a region of the lane's arena.
fn from_arena(
    pool: &SharedPool,
    seat: &mut PoolSeat,
    root: RootId,
    size: u32,
    class: u32,
) -> (Result<u32, AskNo>, Pending)
    requires works { Works pool.now empty_hand 4 0 seat.old }
    requires counts { HasCount root (view_of seat.old) }
    requires class { class_of (geometry_of pool.now.table.layout.shape) size ≡ Some class }
    ensures asks { AsksOn pool.now 4 root size seat.old seat.new result.0 result.1 }
    ensures reads { let shape = pool.now.table.layout.shape in
        Regrows (grow_taken shape (lane_of seat.old) class root size) result.0 result.1
        (view_of seat.old) (view_of seat.new) }
{
    match pool.take(seat, class) {
        Went::Did(_number, Some(region)) => move_into(pool, seat, root, size, region),
        Went::Did(_number, None) => (Err(AskNo::Full), nothing()),
        Went::Held(_held, ()) => (Err(AskNo::Busy), nothing()),
    }
}

// The root has enough with a region that holds so much. The one that is left goes back.
fn move_into(
    pool: &SharedPool,
    seat: &mut PoolSeat,
    root: RootId,
    size: u32,
    own: Region,
) -> (Result<u32, AskNo>, Pending)
    requires works { Works pool.now (hand_with None (Some own)) 3 0 seat.old }
    requires counts { HasCount root (view_of seat.old) }
    requires region { IsRegion pool.now seat.old own }
    requires long { size ≤ size_at own.id.class }
    ensures asks { AsksOn pool.now 3 root size seat.old seat.new result.0 result.1 }
    ensures reads { Regrows (grow_with root size (Some own.id)) result.0 result.1
        (view_of seat.old) (view_of seat.new) }
{
    match pool.grow(seat, root, size, own) {
        Went::Did(_number, grown) => {
            let (capacity, left) = parts_of(grown, size);
            (Ok(capacity), put_back(pool, seat, left))
        }
        Went::Held(_held, region) => (Err(AskNo::Busy), put_back(pool, seat, region)),
    }
}

// The capacity that a root then has that was asked for so much, and the region that is left.
fn parts_of(grown: Grown, asked: u32) -> (u32, Region)
    ensures { result ≡ (grown_capacity asked grown, back_of grown) }
{
    match grown {
        Grown::Enough(capacity, region) => (capacity, region),
        Grown::Extended(region) | Grown::Replaced(region) => (asked, region),
    }
}

// The region goes into its owner's cache or back to its arena, or is left.
fn put_back(pool: &SharedPool, seat: &mut PoolSeat, region: Region) -> Pending
    requires works { Works pool.now (hand_with None (Some region)) 2 0 seat.old }
    requires region { IsRegion pool.now seat.old region }
    ensures away { PutsAway pool.now 2 seat.old seat.new result }
    ensures reads { NotesOn (puts_away region.id) (left_of result)
        (view_of seat.old) (view_of seat.new) }
{
    if region.id.class >= CACHED_CLASSES {
        return give(pool, seat, region);
    }
    put_cached(pool, seat, region)
}

// The same where its owner has a cache of the class.
fn put_cached(pool: &SharedPool, seat: &mut PoolSeat, own: Region) -> Pending
    requires works { Works pool.now (hand_with None (Some own)) 2 0 seat.old }
    requires region { IsRegion pool.now seat.old own }
    requires class { own.id.class < cached_classes }
    ensures away { PutsAway pool.now 2 seat.old seat.new result }
    ensures reads { NotesOn (puts_away own.id) (left_of result)
        (view_of seat.old) (view_of seat.new) }
{
    match pool.put_cached(seat, own) {
        Went::Did(_number, Put::Kept) => nothing(),
        Went::Did(_number, Put::Back(region, _no)) => give(pool, seat, region),
        Went::Held(_held, region) => give(pool, seat, region),
    }
}
