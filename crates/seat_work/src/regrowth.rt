//! How a root gets more capacity: in its own region, or in another one from the lane's cache or
//! arena. (Netty: `PooledByteBuf.capacity`)

ghost use Rattle.std.specs.Prelude.{◌≡◌, ◌<◌, ◌≤◌, None, Some, IfOk, IfSome, Ok, option_map};
ghost use Rattle.size_classes.specs.Sizes.{class_count, class_of, size_at};
ghost use Rattle.pool_law.specs.Limits.{geometry_of};
ghost use Rattle.pool_law.specs.Patterns.{found_room, grow_with, grown as grows, obtain as obtains, regrow};
ghost use Rattle.pool_table.specs.Counts.{HasCount};
ghost use Rattle.shared_pool.specs.Regrowing.{back_of, grown_capacity, room_capacity, IsGrownFor, IsRoomFor};
ghost use Rattle.shared_pool.specs.SeatLanes.{lane_of};
ghost use Rattle.shared_pool.specs.SeatViews.{view_of};
ghost use Rattle.seat_work.specs.Answers.{hand_with, region_told};
ghost use Rattle.seat_work.specs.Capacities.{IsLearned};
ghost use Rattle.seat_work.specs.Changes.{no_change};
ghost use Rattle.seat_work.specs.Hands.{empty_hand, IsRegion};
ghost use Rattle.seat_work.specs.Readings.{NotesAs};
ghost use Rattle.seat_work.specs.Regrowths.{as_grown, grow_over, grown, reply_of, IsTold};
ghost use Rattle.seat_work.specs.Works.{IsLater, IsLaterBut, Proceeds, Works};

use crate::regions::{pop_region, put_back, take_region};
use pool_law::{Region, RootId};
use shared_pool::{Grown, PoolSeat, Room, SharedPool, Went};
use size_classes::CACHED_CLASSES;
use std::sync::Wait;

/// Why a root did not get the capacity that was asked.
#[derive(Clone, Copy, PartialEq, Eq, Debug, Drop)]
pub enum GrowNo {
    /// Its region does not hold so much, and the lane's arena is full for the class.
    Full,
}

/// A root that the seat counts has a capacity of at least `size` from now on, with zeros in what is
/// new, and keeps its bytes. The capacity that it has is answered. `class` is that of the size. A
/// refusal leaves the seat with nothing in hand, and its counts as they were. On the way no bytes
/// are accessed, no other root is asked, and no parcel is passed.
pub fn grow<W: Wait>(
    rt: &W,
    pool: &SharedPool,
    seat: &mut PoolSeat,
    root: RootId,
    size: u32,
    class: u32,
) -> Result<u32, GrowNo>
    requires works { Works pool.now empty_hand 6 0 seat.old }
    requires counts { HasCount root (view_of seat.old) }
    requires class { class_of (geometry_of pool.now.table.layout.shape) size ≡ Some class }
    ensures proceeds { Proceeds pool.now empty_hand 6 0 (grown result) seat.old seat.new }
    ensures counts { HasCount root (view_of seat.new) }
    ensures enough { IfOk result (λ capacity. size ≤ capacity) }
    ensures capacity { IfOk result (λ capacity.
        IsLearned root capacity (view_of seat.old) (view_of seat.new)) }
    ensures told { IfOk result (λ capacity. IsTold pool.now root capacity seat.old seat.new) }
    ensures later { IsLaterBut root pool.now seat.old seat.new }
    ensures reads { let shape = pool.now.table.layout.shape in
        NotesAs (regrow shape (lane_of seat.old) root size) (reply_of result)
        (view_of seat.old) (view_of seat.new) }
{
    match ask(rt, pool, seat, root, size) {
        Room::Enough(capacity) => Ok(capacity),
        Room::Extended => Ok(size),
        Room::Short(_capacity) => grow_out(rt, pool, seat, root, size, class),
    }
}

// What the root answers that is asked for so much.
#[inline]
fn ask<W: Wait>(rt: &W, pool: &SharedPool, seat: &mut PoolSeat, root: RootId, size: u32) -> Room
    requires works { Works pool.now empty_hand 1 0 seat.old }
    requires counts { HasCount root (view_of seat.old) }
    ensures proceeds { Proceeds pool.now empty_hand 1 0 no_change seat.old seat.new }
    ensures counts { HasCount root (view_of seat.new) }
    ensures answer { IsRoomFor size result }
    ensures capacity { IsLearned root (room_capacity size result)
        (view_of seat.old) (view_of seat.new) }
    ensures told { IsTold pool.now root (room_capacity size result) seat.old seat.new }
    ensures later { IsLaterBut root pool.now seat.old seat.new }
    ensures reads { NotesAs (found_room root size) (room_capacity size result)
        (view_of seat.old) (view_of seat.new) }
{
    for _ in rt.forever() {
        match pool.room(seat, root, size) {
            Went::Did(_number, room) => return room,
            Went::Held(_held, ()) => (),
        }
    }
    unreachable!()
}

// The root goes on in a region of the lane's cache or arena, unless it has enough by then. The
// region that is left goes back.
#[inline(never)]
fn grow_out<W: Wait>(
    rt: &W,
    pool: &SharedPool,
    seat: &mut PoolSeat,
    root: RootId,
    size: u32,
    class: u32,
) -> Result<u32, GrowNo>
    requires works { Works pool.now empty_hand 5 0 seat.old }
    requires counts { HasCount root (view_of seat.old) }
    requires class { class_of (geometry_of pool.now.table.layout.shape) size ≡ Some class }
    ensures proceeds { Proceeds pool.now empty_hand 5 0 (grown result) seat.old seat.new }
    ensures counts { HasCount root (view_of seat.new) }
    ensures enough { IfOk result (λ capacity. size ≤ capacity) }
    ensures capacity { IfOk result (λ capacity.
        IsLearned root capacity (view_of seat.old) (view_of seat.new)) }
    ensures told { IfOk result (λ capacity. IsTold pool.now root capacity seat.old seat.new) }
    ensures later { IsLaterBut root pool.now seat.old seat.new }
    ensures reads { let shape = pool.now.table.layout.shape in
        NotesAs (grow_over shape (lane_of seat.old) class root size) (reply_of result)
        (view_of seat.old) (view_of seat.new) }
{
    match obtain(rt, pool, seat, class) {
        Some(region) => Ok(grow_by(rt, pool, seat, root, size, region)),
        None => Err(GrowNo::Full),
    }
}

// A region of the lane's cache, or else of its arena.
#[inline]
fn obtain<W: Wait>(rt: &W, pool: &SharedPool, seat: &mut PoolSeat, class: u32) -> Option<Region>
    requires works { Works pool.now empty_hand 2 0 seat.old }
    requires class { class < class_count (geometry_of pool.now.table.layout.shape) }
    ensures proceeds { Proceeds pool.now (hand_with None result) 2 0 (region_told result)
        seat.old seat.new }
    ensures region { IfSome result (λ r. IsRegion pool.now seat.new r × (r.id.class ≡ class)) }
    ensures later { IsLater pool.now seat.old seat.new }
    ensures reads { let shape = pool.now.table.layout.shape in
        NotesAs (obtains shape (lane_of seat.old) class) (option_map (λ r. r.id) result)
        (view_of seat.old) (view_of seat.new) }
{
    if class >= CACHED_CLASSES {
        return take_region(rt, pool, seat, None, class);
    }
    match pop_region(pool, seat, None, class) {
        Some(region) => Some(region),
        None => take_region(rt, pool, seat, None, class),
    }
}

// The root has enough with a region in hand that holds so much. The region that is left goes back,
// and the capacity is answered.
#[inline]
fn grow_by<W: Wait>(
    rt: &W,
    pool: &SharedPool,
    seat: &mut PoolSeat,
    root: RootId,
    size: u32,
    region: Region,
) -> u32
    requires works { Works pool.now (hand_with None (Some region)) 3 0 seat.old }
    requires counts { HasCount root (view_of seat.old) }
    requires region { IsRegion pool.now seat.old region }
    requires long { size ≤ size_at region.id.class }
    ensures proceeds { Proceeds pool.now empty_hand 3 0 no_change seat.old seat.new }
    ensures counts { HasCount root (view_of seat.new) }
    ensures enough { size ≤ result }
    ensures capacity { IsLearned root result (view_of seat.old) (view_of seat.new) }
    ensures told { IsTold pool.now root result seat.old seat.new }
    ensures later { IsLaterBut root pool.now seat.old seat.new }
    ensures reads { NotesAs (grow_with root size (Some region.id)) (Ok result)
        (view_of seat.old) (view_of seat.new) }
{
    let grown = move_into(rt, pool, seat, root, size, region);
    let (capacity, left) = parts_of(grown, size);
    put_back(rt, pool, seat, None, left);
    capacity
}

// What comes of the root that is given a region.
#[inline]
fn move_into<W: Wait>(
    rt: &W,
    pool: &SharedPool,
    seat: &mut PoolSeat,
    root: RootId,
    size: u32,
    own: Region,
) -> Grown
    requires works { Works pool.now (hand_with None (Some own)) 1 0 seat.old }
    requires counts { HasCount root (view_of seat.old) }
    requires region { IsRegion pool.now seat.old own }
    requires long { size ≤ size_at own.id.class }
    ensures proceeds { Proceeds pool.now (hand_with None (Some (back_of result))) 1 0 no_change
        seat.old seat.new }
    ensures counts { HasCount root (view_of seat.new) }
    ensures answer { IsGrownFor size own result }
    ensures capacity { IsLearned root (grown_capacity size result)
        (view_of seat.old) (view_of seat.new) }
    ensures told { IsTold pool.now root (grown_capacity size result) seat.old seat.new }
    ensures region { IsRegion pool.now seat.new (back_of result) }
    ensures later { IsLaterBut root pool.now seat.old seat.new }
    ensures reads { NotesAs (grows root size own.id) (as_grown size result)
        (view_of seat.old) (view_of seat.new) }
{
    let mut region = own;
    for _ in rt.forever() {
        match pool.grow(seat, root, size, region) {
            Went::Did(_number, grown) => return grown,
            Went::Held(_held, back) => region = back,
        }
    }
    unreachable!()
}

// The capacity that a root then has that was asked for so much, and the region that is left.
#[inline(always)]
fn parts_of(grown: Grown, asked: u32) -> (u32, Region)
    ensures { result ≡ (grown_capacity asked grown, back_of grown) }
{
    match grown {
        Grown::Enough(capacity, region) => (capacity, region),
        Grown::Extended(region) | Grown::Replaced(region) => (asked, region),
    }
}
