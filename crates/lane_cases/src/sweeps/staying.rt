//! A seat that stays at another lane's cache: it puts a region there again and again, which comes back
//! as long as the cache is full.

ghost use Rattle.std.specs.Prelude.{◌≡◌, ◌<◌, IfSome};
ghost use Rattle.pool_law.specs.Limits.{cached_classes};
ghost use Rattle.pool_table.specs.Counts.{HasCount};
ghost use Rattle.shared_pool.specs.SeatViews.{view_of};
ghost use Rattle.seat_work.specs.Answers.{with_both};
ghost use Rattle.seat_work.specs.Changes.{no_change};
ghost use Rattle.seat_work.specs.Hands.{IsRegion, empty_hand};
ghost use Rattle.seat_work.specs.Works.{Proceeds, Works};

use crate::sweeps::filled::LAYOUT;
use handle_bin::Handle;
use pool_law::{Parcel, Region, RootId};
use seat_work::fetch;
use shared_pool::{PoolSeat, Put, Release, Retired, SharedPool, Went};
use size_classes::CACHED_CLASSES;
use std::process::Abort;
use std::sync::Wait;
use std::sync::atomic::{AtomicBool, Ordering};

// How often it puts its region at most.
const PUTS: u32 = 1_000_000;

// The root that the first lane sent.
pub(super) fn fetched(rt: &(impl Abort + Wait), pool: &SharedPool, seat: &mut PoolSeat) -> RootId
    requires layout { pool.now.layout ≡ LAYOUT }
    requires works { Works pool.now empty_hand 1000001 0 seat.old }
    ensures works { Works pool.now empty_hand 1000001 0 seat.new }
    ensures counts { HasCount result (view_of seat.new) }
{
    match fetch(rt, pool, seat, 0) {
        Some(Parcel { view: Some(view) }) => view.root,
        Some(Parcel { view: None }) | None => panic!(rt; "nothing came"),
    }
}

// Ends the root: its region and its place's handle are then in the seat's hands.
fn ended(pool: &SharedPool, seat: &mut PoolSeat, root: RootId) -> Option<Retired>
    requires works { Works pool.now empty_hand 1000001 0 seat.old }
    requires counts { HasCount root (view_of seat.old) }
    ensures works { IfSome result (λ r.
        Works pool.now (with_both r.handle.place r.region.id) 1000000 0 seat.new) }
    ensures region { IfSome result (λ r. IsRegion pool.now seat.new r.region) }
{
    match pool.release(seat, root) {
        Release::Kept => None,
        Release::Ended(token) => Some(pool.retire(seat, token)),
    }
}

// Puts a region into its owner's cache, or gets it back.
fn put(pool: &SharedPool, seat: &mut PoolSeat, beside: &Handle, region: Region) -> Option<Region>
    requires works { Works pool.now (with_both beside.now.place region.id) 1 0 seat.old }
    requires region { IsRegion pool.now seat.old region }
    requires class { region.id.class < cached_classes }
    ensures proceeds { IfSome result (λ r. Proceeds pool.now (with_both beside.now.place r.id)
        1 0 no_change seat.old seat.new) }
    ensures region { IfSome result (IsRegion pool.now seat.new) }
    ensures same { IfSome result (λ r. r.id ≡ region.id) }
{
    match pool.put_cached(seat, region) {
        Went::Did(_number, Put::Kept) => None,
        Went::Did(_number, Put::Back(region, _no)) => Some(region),
        Went::Held(_held, region) => Some(region),
    }
}

// Puts a region again and again, until it is kept or the other thread is through.
fn put_often(
    pool: &SharedPool,
    seat: &mut PoolSeat,
    beside: &Handle,
    own: Region,
    inside: &AtomicBool,
    over: &AtomicBool,
) -> Option<Region>
    requires works { Works pool.now (with_both beside.now.place own.id) 1000000 0 seat.old }
    requires region { IsRegion pool.now seat.old own }
    requires class { own.id.class < cached_classes }
{
    let mut region = own;
    for _round in 0..PUTS {
        let Some(back) = put(pool, seat, beside, region) else {
            return None;
        };
        region = back;
        inside.store(true, Ordering::SeqCst);
        if over.load(Ordering::SeqCst) {
            break;
        }
    }
    Some(region)
}

// Ends the root, and is at the cache of its region from then on.
pub(super) fn stays(
    pool: &SharedPool,
    seat: &mut PoolSeat,
    root: RootId,
    inside: &AtomicBool,
    over: &AtomicBool,
)
    requires works { Works pool.now empty_hand 1000001 0 seat.old }
    requires counts { HasCount root (view_of seat.old) }
{
    let Some(retired) = ended(pool, seat, root) else {
        return;
    };
    let Retired {
        number: _,
        region,
        handle,
    } = retired;
    let left = if region.id.class < CACHED_CLASSES {
        put_often(pool, seat, &handle, region, inside, over)
    } else {
        Some(region)
    };
    handle.leave();
    if let Some(region) = left {
        region.into_parts().1.leave();
    }
}
