//! What a block does with the bytes of its buffer.

ghost use Rattle.pool_table.specs.Counts.{HasCount};
ghost use Rattle.shared_pool.specs.SeatViews.{view_of};
ghost use Rattle.seat_work.specs.Hands.{empty_hand};
ghost use Rattle.seat_work.specs.Changes.{no_change};
ghost use Rattle.seat_work.specs.Works.{Works, Goes, Proceeds};

use pool_law::RootId;
use seat_work::{get, set};
use shared_pool::{PoolSeat, SharedPool};
use std::sync::Wait;

/// Four bytes are written, and four are read through the slice of eight from the third on. The
/// answer is their sum.
#[inline(always)]
pub fn write_and_read<W: Wait>(
    rt: &W,
    pool: &SharedPool,
    seat: &mut PoolSeat,
    root: RootId,
    byte: u8,
) -> u64
    requires works { Works pool.now empty_hand 2 0 seat.old }
    requires counts { HasCount root (view_of seat.old) }
    ensures proceeds { Proceeds pool.now empty_hand 2 0 no_change seat.old seat.new }
    ensures counts { HasCount root (view_of seat.new) }
{
    if root.capacity < 10 {
        return 0;
    }
    set(rt, pool, seat, root, 0, &[byte, byte, byte, byte]);
    let mut out = [0u8; 4];
    get(rt, pool, seat, root, 2, &mut out);
    sum_of(&out)
}

/// The sum of four bytes.
pub fn sum_of(bytes: &[u8; 4]) -> u64 {
    bytes[0] as u64 + bytes[1] as u64 + bytes[2] as u64 + bytes[3] as u64
}

/// The last 64 bytes are read, written and read again. The answer is how many were wrong.
pub fn count_wrong<W: Wait>(
    rt: &W,
    pool: &SharedPool,
    seat: &mut PoolSeat,
    root: RootId,
    byte: u8,
) -> u64
    requires works { Works pool.now empty_hand 3 0 seat.old }
    requires counts { HasCount root (view_of seat.old) }
    ensures goes { Goes pool.now empty_hand 3 0 seat.old seat.new }
    ensures counts { HasCount root (view_of seat.new) }
{
    if root.capacity < 64 {
        return 0;
    }
    let offset = root.capacity - 64;
    let mut out = [7u8; 64];
    get(rt, pool, seat, root, offset, &mut out);
    let before = count_others(&out, 0);
    set(rt, pool, seat, root, offset, &[byte; 64]);
    get(rt, pool, seat, root, offset, &mut out);
    before.wrapping_add(count_others(&out, byte))
}

/// How many of these bytes are others.
pub fn count_others(bytes: &[u8], byte: u8) -> u64 {
    bytes.iter().filter(|other| **other != byte).count() as u64
}
