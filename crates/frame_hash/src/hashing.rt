//! How a slice is hashed where it is, and let go.
ghost use Rattle.std.specs.Prelude.{◌≡◌, ◌++◌, List, ℕ, IfSome, length, Some};
ghost use Rattle.pool_table.specs.Counts.{HasCount};
ghost use Rattle.seat_work.specs.Hands.{empty_hand};
ghost use Rattle.seat_work.specs.Works.{Works};
ghost use Rattle.sha2.specs.Hashers.{Holds256};
ghost use Rattle.shared_pool.specs.Knowing.{ReachesKnown};
ghost use Rattle.shared_pool.specs.SeatViews.{view_of};
ghost use Rattle.frame_hash.specs.Takes.{HasSpent};
ghost use Rattle.frame_hash.specs.declared.turns.TheConstants.{HASH_TURNS};

use pool_law::{Parcel, ViewData};
use seat_work::{release, with_bytes};
use sha2::{Digest, Sha256};
use shared_pool::{PoolSeat, SharedPool};
use std::sync::Wait;

/// The hasher with the bytes of a parcel's slice, if it has one, and how many those are. The slice is
/// let go.
pub fn hash_parcel<W: Wait>(
    rt: &W,
    pool: &SharedPool,
    seat: &mut PoolSeat,
    parcel: Parcel,
    hasher: Sha256,
) -> (Sha256, u32)
    requires works { Works pool.now empty_hand HASH_TURNS 0 seat.old }
    requires known { IfSome parcel.view (ReachesKnown (view_of seat.old)) }
    requires counts { IfSome parcel.view (λ v. HasCount v.root (view_of seat.old)) }
    ensures { (piece : List ℕ) × HasSpent pool.now parcel.view piece seat.old seat.new
        × (length piece ≡ result.1)
        × ((m : List ℕ) → Holds256 hasher m → Holds256 result.0 (m ++ piece)) }
{
    match parcel.view {
        None => (hasher, 0),
        Some(view) => (hash_slice(rt, pool, seat, &view, hasher), view.len),
    }
}

// The hasher with the bytes of a slice, which is let go.
fn hash_slice<W: Wait>(
    rt: &W,
    pool: &SharedPool,
    seat: &mut PoolSeat,
    view: &ViewData,
    hasher: Sha256,
) -> Sha256
    requires works { Works pool.now empty_hand HASH_TURNS 0 seat.old }
    requires known { ReachesKnown (view_of seat.old) view.now }
    requires counts { HasCount view.now.root (view_of seat.old) }
    ensures { (piece : List ℕ) × HasSpent pool.now (Some view.now) piece seat.old seat.new
        × (length piece ≡ view.now.len)
        × ((m : List ℕ) → Holds256 hasher m → Holds256 result (m ++ piece)) }
{
    let ViewData {
        root,
        offset,
        len,
        ..
    } = *view;
    let hasher = with_bytes(rt, pool, seat, root, offset, len, move |bytes: &[u8]| {
        updated(hasher, bytes)
    });
    release(rt, pool, seat, root);
    hasher
}

// The hasher with bytes more.
fn updated(hasher: Sha256, bytes: &[u8]) -> Sha256
    ensures { (m : List ℕ) → Holds256 hasher m → Holds256 result (m ++ bytes.now) }
{
    let mut hasher = hasher;
    hasher.update(bytes);
    hasher
}
