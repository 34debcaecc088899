//! How the parts of a composite come into a pool: each in a root of its own.

ghost use Rattle.std.specs.Prelude.{◌≡◌, ℕ, ◌+◌, ◌*◌, ◌≤◌, IfSome, length};
ghost use Rattle.pool_law.specs.Limits.{geometry_of};
ghost use Rattle.shared_pool.specs.Seats.{IsPoolSeat};
ghost use Rattle.seat_work.specs.Hands.{empty_hand};
ghost use Rattle.seat_work.specs.Works.{Works};
ghost use Rattle.share_run.specs.Standing.{HasPlaced, IsBounded, IsFilled, IsFresh};

use composite_buf::{Composite, PartList};
use pool_law::{Bytes, Part, Watch};
use seat_work::{allocate, set};
use shared_pool::{PoolSeat, SharedPool};
use size_classes::SizeClasses;
use std::alloc::{AllocError, Global};
use std::sync::Wait;

/// A composite of these parts, each in a new root, which the seat then counts once. None is want of
/// memory; then the seat may count some of them.
pub fn fill<W: Wait>(
    rt: &W,
    alloc: Global,
    pool: &SharedPool,
    seat: &mut PoolSeat,
    sizes: &SizeClasses,
    lane: u32,
    parts: &[Bytes],
) -> Option<Composite>
    requires sizes { sizes.now ≡ geometry_of pool.now.table.layout.shape }
    requires fresh { IsFresh pool.now lane seat.old }
    requires parts { IsBounded parts.now }
    ensures filled { IfSome result (λ c. IsFilled pool.now lane parts.now c seat.new) }
    ensures seat { IsPoolSeat pool.now seat.new }
{
    let Ok(mut placed) = Vec::with_capacity(alloc, parts.len()) else {
        return None;
    };
    for number in 0..parts.len() {
        let watch = Watch {
            lane,
            serial: number as u32 + 1,
            keeps: false,
        };
        let part = place(rt, pool, seat, sizes, watch, parts[number].items())?;
        placed.push_reserved(part);
    }
    match Composite::new(alloc, &PartList::of(placed)) {
        Ok(composite) => Some(composite),
        Err(AllocError) => None,
    }
}

// A new root with these bytes, which the seat then counts once, as a part. Its birth is watched, so
// that the close of the pool tells of it if it is live then.
fn place<W: Wait>(
    rt: &W,
    pool: &SharedPool,
    seat: &mut PoolSeat,
    sizes: &SizeClasses,
    watch: Watch,
    bytes: &[u8],
) -> Option<Part>
    requires sizes { sizes.now ≡ geometry_of pool.now.table.layout.shape }
    requires works { Works pool.now empty_hand 7 0 seat.old }
    requires few { length bytes.now ≤ 2048 }
    ensures placed { IfSome result (λ p. HasPlaced pool.now bytes.now p seat.old seat.new) }
    ensures seat { IsPoolSeat pool.now seat.new }
{
    let len = bytes.len() as u32;
    let class = sizes.class_of(len)?;
    let Ok(root) = allocate(rt, pool, seat, len, class, Some(watch)) else {
        return None;
    };
    set(rt, pool, seat, root, 0, bytes);
    Some(Part {
        root,
        offset: 0,
        len,
    })
}
