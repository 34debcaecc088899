//! What a buffer reads that its thread alone has.

use crate::rounds::{ends, first_of, turn};
use buffer_pool::{AccessNo, Pool, PoolName, PoolThread};
use std::process::Abort;
use std::sync::Wait;

// It reads as it was written, in its thread alone, and is then a buffer as any other.
pub(crate) fn owns<B: PoolName, R: Abort + Wait>(
    rt: &R,
    pool: &Pool<B>,
    first: &mut PoolThread<B>,
    second: &mut PoolThread<B>,
) {
    let lone = match first.alloc_lone(rt, pool, 16) {
        Ok(lone) => lone,
        Err(_no) => panic!(rt; "there is a buffer"),
    };
    let mut out = [9u8; 4];
    assert!(rt;
        lone.len() == 16
            && lone.set(rt, first, pool, 3, &[1, 2]) == Ok(())
            && lone.get(rt, second, pool, 2, &mut out) == Err(AccessNo::NotHere)
            && lone.get(rt, first, pool, 2, &mut out) == Ok(())
            && out == [0, 1, 2, 0]
            && lone.set(rt, first, pool, 15, &[1, 2]) == Err(AccessNo::Range)
    );
    let turned = lone.with_bytes_mut(rt, first, pool, 3, 3, turn);
    let byte = lone.with_bytes(rt, first, pool, 5, 1, first_of);
    assert!(rt; turned == Ok(()) && byte == Ok(Some(1)));
    ends(rt, pool, first, lone.into_buffer(), true);
}
