//! Accesses to the bytes of a root that the seat counts, as far as the seat knows of its capacity.
//! Each is one note at the root's place.

ghost use Rattle.std.specs.Prelude.{◌≡◌, ℕ, ◌+◌, ◌≤◌, List, length};
ghost use Rattle.std.specs.Fn.{FnOnceReturnsAt, FnOnceReturnsAtMut};
ghost use Rattle.pool_law.specs.Roots.{bytes_at};
ghost use Rattle.pool_law.specs.declared.note.Did.{Did};
ghost use Rattle.pool_law.specs.declared.note.Object.TheVariants.{Root};
ghost use Rattle.pool_table.specs.Capacities.{knows_of};
ghost use Rattle.pool_table.specs.Counts.{HasCount};
ghost use Rattle.pool_table.specs.Lone.{IsLone, own_bytes};
ghost use Rattle.shared_pool.specs.SeatViews.{view_of};
ghost use Rattle.shared_pool.specs.RootNotes.{access, IsSetOver};
ghost use Rattle.shared_pool.specs.Seats.{IsNoted};
ghost use Rattle.seat_work.specs.Hands.{empty_hand};
ghost use Rattle.seat_work.specs.Changes.{no_change};
ghost use Rattle.seat_work.specs.Works.{Works, Proceeds};

use pool_law::RootId;
use shared_pool::{PoolSeat, SharedPool, Went};
use std::sync::Wait;

/// Bytes are laid over those of a root, from an offset on.
#[inline(always)]
pub fn set<W: Wait>(
    rt: &W,
    pool: &SharedPool,
    seat: &mut PoolSeat,
    root: RootId,
    offset: u32,
    bytes: &[u8],
)
    requires works { Works pool.now empty_hand 1 0 seat.old }
    requires counts { HasCount root (view_of seat.old) }
    requires range { offset + length bytes.now ≤ knows_of root (view_of seat.old) }
    ensures proceeds { Proceeds pool.now empty_hand 1 0 no_change seat.old seat.new }
    ensures counts { HasCount root (view_of seat.new) }
    ensures noted { (number : ℕ) × IsNoted pool.now seat.old seat.new (Root root.place) number
        (access root (Did.Set offset bytes.now)) }
{
    match pool.write(seat, root, offset, bytes, false) {
        Went::Did(_number, ()) => (),
        Went::Held(_held, ()) => wait_to_set(rt, pool, seat, root, offset, bytes),
    }
}

// The same, as often as another seat is in the way.
#[inline(never)]
fn wait_to_set<W: Wait>(
    rt: &W,
    pool: &SharedPool,
    seat: &mut PoolSeat,
    root: RootId,
    offset: u32,
    bytes: &[u8],
)
    requires works { Works pool.now empty_hand 1 0 seat.old }
    requires counts { HasCount root (view_of seat.old) }
    requires range { offset + length bytes.now ≤ knows_of root (view_of seat.old) }
    ensures proceeds { Proceeds pool.now empty_hand 1 0 no_change seat.old seat.new }
    ensures counts { HasCount root (view_of seat.new) }
    ensures noted { (number : ℕ) × IsNoted pool.now seat.old seat.new (Root root.place) number
        (access root (Did.Set offset bytes.now)) }
{
    for _ in rt.forever() {
        match pool.write(seat, root, offset, bytes, false) {
            Went::Did(_number, ()) => return,
            Went::Held(_held, ()) => (),
        }
    }
    unreachable!()
}

/// Bytes of a root are copied out, from an offset on.
#[inline(always)]
pub fn get<W: Wait>(
    rt: &W,
    pool: &SharedPool,
    seat: &mut PoolSeat,
    root: RootId,
    offset: u32,
    out: &mut [u8],
)
    requires works { Works pool.now empty_hand 1 0 seat.old }
    requires counts { HasCount root (view_of seat.old) }
    requires range { offset + length out.old ≤ knows_of root (view_of seat.old) }
    ensures proceeds { Proceeds pool.now empty_hand 1 0 no_change seat.old seat.new }
    ensures counts { HasCount root (view_of seat.new) }
    ensures len { length out.new ≡ length out.old }
    ensures noted { (number : ℕ) × IsNoted pool.now seat.old seat.new (Root root.place) number
        (access root (Did.Get offset out.new)) }

    // A seat that bore the root and posted it to nobody reads what its own notes laid.
    ensures lone { IsLone root (view_of seat.old) →
        out.new ≡ bytes_at (own_bytes root (view_of seat.old)) offset (length out.new) }
{
    match pool.read(seat, root, offset, out, false) {
        Went::Did(_number, ()) => (),
        Went::Held(_held, ()) => wait_to_get(rt, pool, seat, root, offset, out),
    }
}

// The same, as often as another seat is in the way.
#[inline(never)]
fn wait_to_get<W: Wait>(
    rt: &W,
    pool: &SharedPool,
    seat: &mut PoolSeat,
    root: RootId,
    offset: u32,
    out: &mut [u8],
)
    requires works { Works pool.now empty_hand 1 0 seat.old }
    requires counts { HasCount root (view_of seat.old) }
    requires range { offset + length out.old ≤ knows_of root (view_of seat.old) }
    ensures proceeds { Proceeds pool.now empty_hand 1 0 no_change seat.old seat.new }
    ensures counts { HasCount root (view_of seat.new) }
    ensures len { length out.new ≡ length out.old }
    ensures noted { (number : ℕ) × IsNoted pool.now seat.old seat.new (Root root.place) number
        (access root (Did.Get offset out.new)) }

    // A seat that bore the root and posted it to nobody reads what its own notes laid.
    ensures lone { IsLone root (view_of seat.old) →
        out.new ≡ bytes_at (own_bytes root (view_of seat.old)) offset (length out.new) }
{
    for _ in rt.forever() {
        match pool.read(seat, root, offset, out, false) {
            Went::Did(_number, ()) => return,
            Went::Held(_held, ()) => (),
        }
    }
    unreachable!()
}

/// `f` is called once with bytes of a root, from an offset on, and none are copied. It is noted as
/// a get of all of them.
#[inline]
pub fn with_bytes<W: Wait, R, F: FnOnce(&[u8]) -> R>(
    rt: &W,
    pool: &SharedPool,
    seat: &mut PoolSeat,
    root: RootId,
    offset: u32,
    len: u32,
    f: F,
) -> R
    requires works { Works pool.now empty_hand 1 0 seat.old }
    requires counts { HasCount root (view_of seat.old) }
    requires range { offset + len ≤ knows_of root (view_of seat.old) }
    requires callable { F.IsAlwaysCallable f }
    ensures proceeds { Proceeds pool.now empty_hand 1 0 no_change seat.old seat.new }
    ensures counts { HasCount root (view_of seat.new) }
    ensures shown { (bytes : List ℕ) × (number : ℕ) × (length bytes ≡ len)
        × FnOnceReturnsAt F.FnOnce f bytes result
        × IsNoted pool.now seat.old seat.new (Root root.place) number
        (access root (Did.Get offset bytes)) }

    // For a seat that bore the root and posted it to nobody these are what its own notes laid.
    ensures lone { IsLone root (view_of seat.old) → FnOnceReturnsAt F.FnOnce f
        (bytes_at (own_bytes root (view_of seat.old)) offset len) result }
{
    let mut f = f;
    for _ in rt.forever() {
        match pool.with_bytes(seat, root, offset, len, f) {
            Went::Did(_number, answer) => return answer,
            Went::Held(_held, back) => f = back,
        }
    }
    unreachable!()
}

/// `f` is called once with bytes of a root in place, from an offset on, which it may change, and
/// none are copied. It is noted as a set of all of them, as `f` leaves them. Where the seat bore the
/// root and posted it to nobody, they are first what its own notes laid.
#[inline]
pub fn with_bytes_mut<W: Wait, R, F: FnOnce(&mut [u8]) -> R>(
    rt: &W,
    pool: &SharedPool,
    seat: &mut PoolSeat,
    root: RootId,
    offset: u32,
    len: u32,
    f: F,
) -> R
    requires works { Works pool.now empty_hand 1 0 seat.old }
    requires counts { HasCount root (view_of seat.old) }
    requires range { offset + len ≤ knows_of root (view_of seat.old) }
    requires callable { F.IsAlwaysCallable f }
    ensures proceeds { Proceeds pool.now empty_hand 1 0 no_change seat.old seat.new }
    ensures counts { HasCount root (view_of seat.new) }
    ensures set { (before : List ℕ) × (bytes : List ℕ) × (number : ℕ)
        × (length before ≡ len) × (length bytes ≡ len)
        × FnOnceReturnsAtMut F.FnOnce f before result bytes
        × IsSetOver pool.now seat.old seat.new root number offset before bytes }
{
    let mut f = f;
    for _ in rt.forever() {
        match pool.with_bytes_mut(seat, root, offset, len, f) {
            Went::Did(_number, answer) => return answer,
            Went::Held(_held, back) => f = back,
        }
    }
    unreachable!()
}
