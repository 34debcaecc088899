//! How a region comes into a seat's hand, from its lane's cache or arena, and how it goes back. The
//! seat may have a handle in hand beside. (Netty: `PoolThreadCache`, `PoolArena`)

ghost use Rattle.std.specs.Prelude.{◌≡◌, ◌<◌, None, Some, IfSome, option_map};
ghost use Rattle.size_classes.specs.Sizes.{class_count};
ghost use Rattle.pool_law.specs.Limits.{geometry_of, cached_classes};
ghost use Rattle.pool_law.specs.Patterns.{ask_arena, ask_cache, give_back, put_away as puts_away};
ghost use Rattle.shared_pool.specs.SeatLanes.{lane_of};
ghost use Rattle.shared_pool.specs.SeatViews.{view_of};
ghost use Rattle.seat_work.specs.Hands.{IsRegion};
ghost use Rattle.seat_work.specs.Changes.{no_change};
ghost use Rattle.seat_work.specs.Readings.{NotesAs};
ghost use Rattle.seat_work.specs.Works.{IsLater, Proceeds, Works};
ghost use Rattle.seat_work.specs.Answers.{hand_with, region_told};

use handle_bin::Handle;
use pool_law::Region;
use shared_pool::{PoolSeat, Put, SharedPool, Went};
use size_classes::CACHED_CLASSES;
use std::sync::Wait;

// The front region of the lane's cache. None where there is none, or where another seat is in it.
#[inline(always)]
pub(crate) fn pop_region(
    pool: &SharedPool,
    seat: &mut PoolSeat,
    beside: Option<&Handle>,
    class: u32,
) -> Option<Region>
    requires works { let place = option_map (λ h. h.now.place) beside in
        Works pool.now (hand_with place None) 1 0 seat.old }
    requires class { class < cached_classes }
    ensures proceeds { let place = option_map (λ h. h.now.place) beside.entry in
        Proceeds pool.now (hand_with place result) 1 0 no_change seat.old seat.new }
    ensures region { IfSome result (λ r. IsRegion pool.now seat.new r × (r.id.class ≡ class)) }
    ensures later { IsLater pool.now seat.old seat.new }
    ensures reads { NotesAs (ask_cache (lane_of seat.old) class) (option_map (λ r. r.id) result)
        (view_of seat.old) (view_of seat.new) }
{
    match pool.pop_cached(seat, class) {
        Went::Did(_number, region) => region,
        Went::Held(_held, ()) => None,
    }
}

// A region of the lane's arena.
#[inline]
pub(crate) fn take_region<W: Wait>(
    rt: &W,
    pool: &SharedPool,
    seat: &mut PoolSeat,
    beside: Option<&Handle>,
    class: u32,
) -> Option<Region>
    requires works { let place = option_map (λ h. h.now.place) beside in
        Works pool.now (hand_with place None) 1 0 seat.old }
    requires class { class < class_count (geometry_of pool.now.table.layout.shape) }
    ensures proceeds { let place = option_map (λ h. h.now.place) beside.entry in
        Proceeds pool.now (hand_with place result) 1 0 (region_told result) seat.old seat.new }
    ensures region { IfSome result (λ r. IsRegion pool.now seat.new r × (r.id.class ≡ class)) }
    ensures later { IsLater pool.now seat.old seat.new }
    ensures reads { let shape = pool.now.table.layout.shape in
        NotesAs (ask_arena shape (lane_of seat.old) class) (option_map (λ r. r.id) result)
        (view_of seat.old) (view_of seat.new) }
{
    for _ in rt.forever() {
        match pool.take(seat, class) {
            Went::Did(_number, region) => return region,
            Went::Held(_held, ()) => (),
        }
    }
    unreachable!()
}

// The region goes into its owner's cache or back to its arena.
#[inline(always)]
pub(crate) fn put_back<W: Wait>(
    rt: &W,
    pool: &SharedPool,
    seat: &mut PoolSeat,
    beside: Option<&Handle>,
    region: Region,
)
    requires works { let place = option_map (λ h. h.now.place) beside in
        Works pool.now (hand_with place (Some region)) 2 0 seat.old }
    requires region { IsRegion pool.now seat.old region }
    ensures proceeds { let place = option_map (λ h. h.now.place) beside.entry in
        Proceeds pool.now (hand_with place None) 2 0 no_change seat.old seat.new }
    ensures later { IsLater pool.now seat.old seat.new }
    ensures reads { NotesAs (puts_away region.id) tt (view_of seat.old) (view_of seat.new) }
{
    if region.id.class >= CACHED_CLASSES {
        give_region(rt, pool, seat, beside, region);
        return;
    }
    match pool.put_cached(seat, region) {
        Went::Did(_number, Put::Kept) => (),
        Went::Did(_number, Put::Back(region, _no)) => give_region(rt, pool, seat, beside, region),
        Went::Held(_held, region) => give_region(rt, pool, seat, beside, region),
    }
}

// The region goes back to its arena. Here the copy of it is made that goes to the call, and not at
// the head of each release.
#[inline(always)]
fn give_region<W: Wait>(
    rt: &W,
    pool: &SharedPool,
    seat: &mut PoolSeat,
    beside: Option<&Handle>,
    own: Region,
)
    requires works { let place = option_map (λ h. h.now.place) beside in
        Works pool.now (hand_with place (Some own)) 1 0 seat.old }
    requires region { IsRegion pool.now seat.old own }
    ensures proceeds { let place = option_map (λ h. h.now.place) beside.entry in
        Proceeds pool.now (hand_with place None) 1 0 no_change seat.old seat.new }
    ensures later { IsLater pool.now seat.old seat.new }
    ensures reads { NotesAs (give_back own.id) tt (view_of seat.old) (view_of seat.new) }
{
    give_apart(rt, pool, seat, beside, own);
}

// The same: seldom, so apart.
#[inline(never)]
fn give_apart<W: Wait>(
    rt: &W,
    pool: &SharedPool,
    seat: &mut PoolSeat,
    beside: Option<&Handle>,
    own: Region,
)
    requires works { let place = option_map (λ h. h.now.place) beside in
        Works pool.now (hand_with place (Some own)) 1 0 seat.old }
    requires region { IsRegion pool.now seat.old own }
    ensures proceeds { let place = option_map (λ h. h.now.place) beside.entry in
        Proceeds pool.now (hand_with place None) 1 0 no_change seat.old seat.new }
    ensures later { IsLater pool.now seat.old seat.new }
    ensures reads { NotesAs (give_back own.id) tt (view_of seat.old) (view_of seat.new) }
{
    let mut region = own;
    for _ in rt.forever() {
        match pool.give(seat, region) {
            Went::Did(_number, ()) => return,
            Went::Held(_held, back) => region = back,
        }
    }
    unreachable!()
}
