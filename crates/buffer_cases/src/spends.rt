//! What a thread may do that has no moves, and turns for one allocation and few accesses.

use crate::rounds::{SHAPE, buffer, refused};
use buffer_pool::{
    AccessNo, AllocNo, Back, CapacityNo, Config, Pool, PoolName, PoolThread, Serve, open,
};
use std::process::Abort;
use std::sync::Wait;

// The turns of a thread, and how many it has left behind an allocation: too few for one more, and
// for more bytes.
const ROWS: [(u64, u64); 2] = [(7, 1), (11, 5)];

#[derive(Drop)]
struct Spends<'a, R: Abort + Wait> {
    rt: &'a R,
    left: u64,
}

impl<'a, R: Abort + Wait> Serve for Spends<'a, R> {
    type Out = ();

    fn serve<B: PoolName + Send + Sync>(self, pool: Pool<B>, mut threads: Vec<PoolThread<B>>) {
        let Spends { rt, left } = self;
        let Some(mut me) = threads.pop() else {
            panic!(rt; "there is a thread")
        };
        let mut only = buffer(rt, me.alloc(rt, &pool, 8));
        assert!(rt;
            me.left() == (left, 0)
                && refused(me.retain(&pool, &only)) == Some(AccessNo::Spent)
                && me.capacity(rt, &pool, &mut only, 9) == Err(CapacityNo::Spent)
                && only.len() == 8
        );
        for _turn in 0..left {
            assert!(rt; me.touch(rt, &pool, &only) == Ok(()));
        }
        assert!(rt;
            me.touch(rt, &pool, &only) == Err(AccessNo::Spent)
                && refused(me.alloc(rt, &pool, 8)) == Some(AllocNo::Spent)
        );
        match me.release(rt, &pool, only) {
            Ok(_last) => panic!(rt; "no turns are left"),
            Err(Back { why, buffer }) => {
                assert!(rt; why == AccessNo::Spent);
                buffer.leave();
            }
        }
        threads.push_reserved(me);
        pool.abandon(threads);
    }
}

#[test]
fn a_thread_spends_what_it_has(rt: HostRuntime) {
    for (turns, left) in ROWS {
        let config = Config {
            shape: SHAPE,
            moves: 0,
            turns,
        };
        assert!(rt; open(rt.alloc(), &config, Spends { rt: &rt, left }).is_ok());
    }
}
