//! What buffers answer that are asked for more bytes, and how long they are then.

use crate::rounds::{accepted, buffer, ends, parcel};
use buffer_pool::{Buffer, CapacityNo, Pool, PoolName, PoolThread};
use std::process::Abort;
use std::sync::Wait;

// The asks of a buffer of 16 bytes, one after another, and what they find: it has enough, it goes on in
// another region, it has enough there, it is extended there, no chunk is so large, and the one chunk has
// no room.
const ASKS: [(u32, Result<u32, CapacityNo>); 6] = [
    (10, Ok(16)),
    (100, Ok(100)),
    (99, Ok(100)),
    (112, Ok(112)),
    (65_537, Err(CapacityNo::TooLarge)),
    (65_536, Err(CapacityNo::Full)),
];

// Its first bytes are those that were laid, and its last ones are 0.
fn asked<B: PoolName, R: Abort + Wait>(
    rt: &R,
    pool: &Pool<B>,
    me: &mut PoolThread<B>,
    all: &mut Buffer<B>,
) {
    assert!(rt; me.set(rt, pool, &*all, 15, &[255]) == Ok(()));
    for k in 0..6usize {
        let (size, answer) = ASKS[k];
        assert!(rt; me.capacity(rt, pool, all, size) == answer);
    }
    let mut out = [9u8; 3];
    assert!(rt;
        all.len() == 112
            && me.get(rt, pool, &*all, 14, &mut out) == Ok(())
            && out == [0, 255, 0]
            && me.get(rt, pool, &*all, 109, &mut out) == Ok(())
            && out == [0, 0, 0]
    );
}

// A slice that was there before stays, until it reaches as far by its own. The other thread knows of the
// bytes by the parcel alone.
fn reached<B: PoolName, R: Abort + Wait>(
    rt: &R,
    pool: &Pool<B>,
    first: &mut PoolThread<B>,
    second: &mut PoolThread<B>,
    mut part: Buffer<B>,
) {
    assert!(rt;
        part.len() == 4
            && part.ends() == (0, 4)
            && second.capacity(rt, pool, &mut part, 10) == Err(CapacityNo::NotHere)
            && first.capacity(rt, pool, &mut part, 10) == Ok(112)
            && part.len() == 104
            && part.ends() == (0, 4)
            && part.offset() == 8
    );
    let sent = parcel(rt, pool, first, part);
    let part = accepted(rt, pool, second, sent);
    let mut out = [9u8; 2];
    assert!(rt; second.get(rt, pool, &part, 102, &mut out) == Ok(()) && out == [0, 0]);
    ends(rt, pool, second, part, false);
}

// A buffer of 16 bytes and a slice of it.
pub(crate) fn grows<B: PoolName, R: Abort + Wait>(
    rt: &R,
    pool: &Pool<B>,
    first: &mut PoolThread<B>,
    second: &mut PoolThread<B>,
) {
    let mut all = buffer(rt, first.alloc(rt, pool, 16));
    let part = buffer(rt, first.slice(pool, &all, 8, 4));
    asked(rt, pool, first, &mut all);
    reached(rt, pool, first, second, part);
    ends(rt, pool, first, all, true);
}
