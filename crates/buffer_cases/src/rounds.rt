//! What calls on buffers answer, one after another, on the two threads of a pool.

use crate::grows::grows;
use crate::lones::owns;
use crate::tries::tries;
use buffer_pool::{
    AcceptNo, AccessNo, AllocNo, Buffer, CloseNo, Config, Level, NotAccepted, NotClosed, Parcel,
    PartNo, Pool, PoolName, PoolThread, Serve, Shape, Unsent, open,
};
use std::alloc::Global;
use std::process::Abort;
use std::sync::Wait;

// Two threads with two handles each, over one chunk of 65,536 bytes. All roots are watched.
pub(crate) const SHAPE: Shape = Shape {
    page: 8192,
    order: 3,
    arenas: 1,
    chunks: 1,
    handles: 2,
    lanes: 2,
    level: Level::Paranoid,
    interval: 1,
};

pub(crate) const CHUNK: u32 = 65_536;

// The first of the bytes that are shown.
pub(crate) fn first_of(bytes: &[u8]) -> Option<u8> {
    bytes.first().copied()
}

// Turns the bytes that are lent.
pub(crate) fn turn(bytes: &mut [u8]) {
    bytes.reverse();
}

// Why a buffer was not had. One that was is left.
pub(crate) fn refused<B: PoolName, E: Drop>(answer: Result<Buffer<B>, E>) -> Option<E> {
    match answer {
        Ok(buffer) => {
            buffer.leave();
            None
        }
        Err(no) => Some(no),
    }
}

pub(crate) fn buffer<B: PoolName, E: Drop, R: Abort>(
    rt: &R,
    answer: Result<Buffer<B>, E>,
) -> Buffer<B> {
    match answer {
        Ok(buffer) => buffer,
        Err(_no) => panic!(rt; "there is a buffer"),
    }
}

// The first allocates all that there is, and writes, reads and slices it.
fn accesses<B: PoolName, R: Abort + Wait>(
    rt: &R,
    pool: &Pool<B>,
    me: &mut PoolThread<B>,
) -> Buffer<B> {
    assert!(rt; refused(me.alloc(rt, pool, CHUNK + 1)) == Some(AllocNo::TooLarge));
    let mut all = buffer(rt, me.alloc(rt, pool, CHUNK));
    assert!(rt;
        all.len() == CHUNK
            && all.offset() == 0
            && all.thread() == 0
            && refused(me.alloc(rt, pool, CHUNK)) == Some(AllocNo::Full)
            && me.set(rt, pool, &all, CHUNK - 2, &[1, 2]) == Ok(())
            && me.set(rt, pool, &all, CHUNK - 1, &[3, 4]) == Err(AccessNo::Range)
    );
    let mut out = [9u8; 3];
    assert!(rt;
        me.get(rt, pool, &all, CHUNK - 3, &mut out) == Ok(())
            && out == [0, 1, 2]
            && me.write(rt, pool, &mut all, &[5, 6, 7, 8]) == Ok(())
            && me.read(rt, pool, &mut all, &mut out) == Ok(())
            && out == [5, 6, 7]
            && me.read(rt, pool, &mut all, &mut out) == Err(AccessNo::Range)
            && all.ends() == (3, 4)
            && out == [5, 6, 7]
    );
    all
}

// A slice of a slice lies at both starts.
fn slices<B: PoolName, R: Abort + Wait>(
    rt: &R,
    pool: &Pool<B>,
    me: &mut PoolThread<B>,
    all: &Buffer<B>,
) -> Buffer<B> {
    let part = buffer(rt, me.slice(pool, all, 1, 3));
    assert!(rt;
        part.len() == 3
            && part.offset() == 1
            && part.ends() == (0, 3)
            && refused(me.slice(pool, &part, 2, 2)) == Some(AccessNo::Range)
    );
    let last = buffer(rt, me.slice(pool, &part, 2, 1));
    assert!(rt; last.offset() == 3 && me.refcnt(pool, all) == Ok(3));
    let byte = me.with_bytes(rt, pool, &last, 0, 1, first_of);
    let turned = me.with_bytes_mut(rt, pool, &part, 0, 3, turn);
    assert!(rt; byte == Ok(Some(8)) && turned == Ok(()));
    ends(rt, pool, me, last, false);
    part
}

// The parcel of a buffer for the second thread. None is made for a thread that is not there.
pub(crate) fn parcel<B: PoolName, R: Abort>(
    rt: &R,
    pool: &Pool<B>,
    me: &mut PoolThread<B>,
    buffer: Buffer<B>,
) -> Parcel<B> {
    let buffer = match me.part(pool, buffer, 2) {
        Ok(parcel) => {
            parcel.leave();
            panic!(rt; "there is no thread 2")
        }
        Err(Unsent { why, buffer }) => {
            assert!(rt; why == PartNo::NoThread);
            buffer
        }
    };
    match me.part(pool, buffer, 1) {
        Ok(parcel) => parcel,
        Err(back) => {
            back.leave();
            panic!(rt; "there is a parcel")
        }
    }
}

// The buffer of a parcel.
pub(crate) fn accepted<B: PoolName, R: Abort>(
    rt: &R,
    pool: &Pool<B>,
    me: &mut PoolThread<B>,
    parcel: Parcel<B>,
) -> Buffer<B> {
    match me.accept(pool, parcel) {
        Ok(buffer) => buffer,
        Err(back) => {
            back.leave();
            panic!(rt; "it is accepted")
        }
    }
}

// A parcel that comes back for this cause.
fn comes_back<B: PoolName, R: Abort>(
    rt: &R,
    pool: &Pool<B>,
    me: &mut PoolThread<B>,
    parcel: Parcel<B>,
    want: AcceptNo,
) -> Parcel<B> {
    match me.accept(pool, parcel) {
        Ok(buffer) => {
            buffer.leave();
            panic!(rt; "it is not accepted")
        }
        Err(NotAccepted { why, parcel }) => {
            assert!(rt; why == want);
            parcel
        }
    }
}

// Two buffers go from the first to the second: by number, to no other, and in order.
fn hand_over<B: PoolName, R: Abort + Wait>(
    rt: &R,
    pool: &Pool<B>,
    first: &mut PoolThread<B>,
    second: &mut PoolThread<B>,
    all: Buffer<B>,
    part: Buffer<B>,
) {
    let mut out = [0u8];
    assert!(rt; second.get(rt, pool, &all, 0, &mut out) == Err(AccessNo::NotHere));
    let one = parcel(rt, pool, first, all);
    let two = parcel(rt, pool, first, part);
    assert!(rt; one.from() == 0 && one.to() == 1 && one.number() == 1 && two.number() == 2);
    let one = comes_back(rt, pool, first, one, AcceptNo::NotHere);
    let two = comes_back(rt, pool, second, two, AcceptNo::OutOfOrder);
    let all = accepted(rt, pool, second, one);
    let part = accepted(rt, pool, second, two);
    assert!(rt;
        all.thread() == 1
            && all.ends() == (3, 4)
            && part.offset() == 1
            && second.get(rt, pool, &part, 2, &mut out) == Ok(())
            && out == [6]
    );
    ends(rt, pool, second, all, false);
    ends(rt, pool, second, part, true);
}

// The release of a buffer is that of the last count, or isn't.
pub(crate) fn ends<B: PoolName, R: Abort + Wait>(
    rt: &R,
    pool: &Pool<B>,
    me: &mut PoolThread<B>,
    buffer: Buffer<B>,
    last: bool,
) {
    match me.release(rt, pool, buffer) {
        Ok(ended) => assert!(rt; ended == last),
        Err(back) => {
            back.leave();
            panic!(rt; "it is released")
        }
    }
}

// Closes a pool whose threads come last first: they come back, and then are in order. So many roots
// are live.
fn closes<B: PoolName, R: Abort>(
    rt: &R,
    alloc: Global,
    pool: Pool<B>,
    threads: Vec<PoolThread<B>>,
    live: u32,
) {
    let Err(
        NotClosed {
            why,
            pool,
            mut threads,
        },
    ) = pool.close(alloc, threads)
    else {
        panic!(rt; "the threads are out of order")
    };
    assert!(rt; why == CloseNo::Threads && threads.len() == 2);
    threads.swap(0, 1);
    match pool.close(alloc, threads) {
        Ok(closed) => assert!(rt; closed.leaks.items().len() == live as usize),
        Err(back) => {
            back.leave();
            panic!(rt; "all threads are there")
        }
    }
}

// All that waits: buffers are passed on, owned and grow, and then two take all handles of the first
// thread.
fn waits<B: PoolName, R: Abort + Wait>(
    rt: &R,
    pool: &Pool<B>,
    first: &mut PoolThread<B>,
    second: &mut PoolThread<B>,
) {
    let all = accesses(rt, pool, first);
    let part = slices(rt, pool, first, &all);
    hand_over(rt, pool, first, second, all, part);
    owns(rt, pool, first, second);
    grows(rt, pool, first, second);
    buffer(rt, first.alloc(rt, pool, 100)).leave();
    buffer(rt, first.alloc(rt, pool, 100)).leave();
    assert!(rt; refused(first.alloc(rt, pool, 100)) == Some(AllocNo::NoHandle));
}

// What a pool does whose threads have so many handles each: with one of them all that never waits,
// with two all that waits. As many roots are live at its end.
#[derive(Drop)]
struct Round<'a, R: Abort + Wait> {
    rt: &'a R,
    alloc: Global,
    handles: u32,
}

impl<'a, R: Abort + Wait> Serve for Round<'a, R> {
    type Out = ();

    fn serve<B: PoolName + Send + Sync>(self, pool: Pool<B>, mut threads: Vec<PoolThread<B>>) {
        let Round { rt, alloc, handles } = self;
        let Some(mut second) = threads.pop() else {
            panic!(rt; "there are two threads")
        };
        let Some(mut first) = threads.pop() else {
            panic!(rt; "there are two threads")
        };
        if handles == 1 {
            tries(rt, &pool, &mut first, &mut second);
        } else {
            waits(rt, &pool, &mut first, &mut second);
        }
        threads.push_reserved(second);
        threads.push_reserved(first);
        closes(rt, alloc, pool, threads, handles);
    }
}

#[test]
fn two_threads_work_with_a_pool(rt: HostRuntime) {
    let alloc = rt.alloc();
    for handles in 1..3u32 {
        let config = Config::of(Shape { handles, ..SHAPE });
        let round = Round {
            rt: &rt,
            alloc,
            handles,
        };
        assert!(rt; open(alloc, &config, round).is_ok());
    }
}
