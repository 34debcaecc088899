//! What calls that never wait answer where nobody is in the way, and where somebody is.

use crate::rounds::{CHUNK, accepted, buffer, first_of, parcel, refused, turn};
use buffer_pool::{
    AccessNo, AllocNo, Buffer, CapacityNo, Pool, PoolName, PoolThread, TryAllocNo, TryBack,
    TryCapacityNo, TryNo,
};
use std::process::Abort;
use std::sync::Wait;

// Half of the chunk, which a cache keeps.
const HALF: u32 = 32_768;

// Bytes are laid, written, read and shown, and refused as by the calls that wait.
fn accesses<B: PoolName, R: Abort>(
    rt: &R,
    pool: &Pool<B>,
    me: &mut PoolThread<B>,
    buffer: &mut Buffer<B>,
) {
    let mut out = [9u8; 3];
    assert!(rt;
        me.try_set(pool, buffer, 6, &[1, 2]) == Ok(())
            && me.try_set(pool, buffer, 7, &[3, 4]) == Err(TryNo::Refused(AccessNo::Range))
            && me.try_get(pool, buffer, 5, &mut out) == Ok(())
            && out == [0, 1, 2]
            && me.try_write(pool, buffer, &[5, 6, 7, 8]) == Ok(())
            && me.try_read(pool, buffer, &mut out) == Ok(())
            && out == [5, 6, 7]
            && me.try_read(pool, buffer, &mut out) == Err(TryNo::Refused(AccessNo::Range))
            && buffer.ends() == (3, 4)
            && out == [5, 6, 7]
    );
    let Ok(byte) = me.try_with_bytes(pool, buffer, 3, 1, first_of) else {
        panic!(rt; "the byte is shown")
    };
    let Ok(()) = me.try_with_bytes_mut(pool, buffer, 1, 3, turn) else {
        panic!(rt; "the bytes are lent")
    };
    assert!(rt;
        byte == Some(8)
            && me.try_get(pool, buffer, 1, &mut out) == Ok(())
            && out == [8, 7, 6]
            && me.try_touch(pool, buffer) == Ok(())
    );
}

// The buffer is released, and that was its last count.
fn ends<B: PoolName, R: Abort>(rt: &R, pool: &Pool<B>, me: &mut PoolThread<B>, buffer: Buffer<B>) {
    match me.try_release(pool, buffer) {
        Ok(last) => assert!(rt; last && me.is_settled()),
        Err(TryBack { why: _, buffer }) => {
            buffer.leave();
            panic!(rt; "it is released")
        }
    }
}

// One thread takes its only handle: for half of the chunk, for all of it once its cache gave the half
// back, and for few bytes, which then are more.
fn takes_all<B: PoolName, R: Abort + Wait>(rt: &R, pool: &Pool<B>, me: &mut PoolThread<B>) {
    let none = Some(TryAllocNo::Refused(AllocNo::NoHandle));
    let full = TryCapacityNo::Refused(CapacityNo::Full);
    for size in [HALF, CHUNK, 8] {
        let Ok(mut buffer) = me.try_alloc(pool, size) else {
            panic!(rt; "there is a buffer")
        };
        assert!(rt; refused(me.try_alloc(pool, 8)) == none);
        if size == HALF {
            assert!(rt; me.try_capacity(pool, &mut buffer, CHUNK) == Err(full));
        }
        if size == 8 {
            accesses(rt, pool, me, &mut buffer);
            assert!(rt; me.try_capacity(pool, &mut buffer, 512) == Ok(512) && buffer.len() == 512);
        }
        ends(rt, pool, me, buffer);
        assert!(rt; me.try_trim(pool) == Ok(()) && me.trim(rt, pool) == Ok(()));
    }
    let large = Some(TryAllocNo::Refused(AllocNo::TooLarge));
    assert!(rt; refused(me.try_alloc(pool, CHUNK + 1)) == large && me.try_settle(pool));
    me.settle(rt, pool);
}

// While one thread looks at a buffer's bytes, the other finds it there.
fn meets<B: PoolName, R: Abort + Wait>(
    rt: &R,
    pool: &Pool<B>,
    first: &mut PoolThread<B>,
    second: &mut PoolThread<B>,
) {
    let mine = buffer(rt, first.alloc(rt, pool, 8));
    let twin = buffer(rt, first.retain(pool, &mine));
    let sent = parcel(rt, pool, first, twin);
    let theirs = accepted(rt, pool, second, sent);
    let met = first.with_bytes(rt, pool, &mine, 0, 8, |_bytes: &[u8]| {
        second.try_set(pool, &theirs, 0, &[1])
    });
    assert!(rt; met == Ok(Err(TryNo::Busy)));
    theirs.leave();
    mine.leave();
}

// The first thread does all this, and then both. One buffer is left.
pub(crate) fn tries<B: PoolName, R: Abort + Wait>(
    rt: &R,
    pool: &Pool<B>,
    first: &mut PoolThread<B>,
    second: &mut PoolThread<B>,
) {
    takes_all(rt, pool, first);
    meets(rt, pool, first, second);
}
