//! With which measures a pool opens.

use buffer_pool::{Config, Level, OpenNo, Pool, PoolName, PoolThread, Serve, Shape, open};
use std::alloc::Global;

// One thread with one handle, over one chunk of 65,536 bytes.
const SHAPE: Shape = Shape {
    page: 8192,
    order: 3,
    arenas: 1,
    chunks: 1,
    handles: 1,
    lanes: 1,
    level: Level::Paranoid,
    interval: 1,
};

// Tells how many threads the pool has, and how many it was given, and leaves it.
#[derive(Drop)]
struct Counts;

impl Serve for Counts {
    type Out = (u32, usize);

    fn serve<B: PoolName + Send + Sync>(
        self,
        pool: Pool<B>,
        threads: Vec<PoolThread<B>>,
    ) -> (u32, usize) {
        let counts = (pool.threads(), threads.len());
        pool.abandon(threads);
        counts
    }
}

// Lanes, order, page, moves and turns of a pool, and what opening it answers. The first has as many
// moves and turns as a pool can have, 2^30 - 1 and 2^62 - 1.
const ROWS: [(u32, u32, u32, u32, u64, Result<(u32, usize), OpenNo>); 8] = [
    (
        1,
        3,
        8192,
        1_073_741_823,
        4_611_686_018_427_387_903,
        Ok((1, 1)),
    ),
    (16, 3, 4096, 67_108_863, 64, Ok((16, 16))),
    (16, 3, 4096, 67_108_864, 64, Err(OpenNo::Budget)),
    (
        1,
        3,
        8192,
        0,
        4_611_686_018_427_387_904,
        Err(OpenNo::Budget),
    ),
    (1, 3, 8192, 0, 0, Ok((1, 1))),
    (1, 2, 8192, 0, 0, Err(OpenNo::Shape)),
    (1, 12, 4096, 0, 0, Err(OpenNo::Shape)),
    (1, 3, 8000, 0, 0, Err(OpenNo::Shape)),
];

// How many threads a pool is asked for, and what opening it answers.
const THREADS: [(u32, Result<(u32, usize), OpenNo>); 3] = [
    (2, Ok((2, 2))),
    (0, Err(OpenNo::Shape)),
    (17, Err(OpenNo::Shape)),
];

fn opened(alloc: Global, config: &Config) -> Result<(u32, usize), OpenNo> {
    match open(alloc, config, Counts) {
        Ok(counts) => Ok(counts),
        Err((no, _server)) => Err(no),
    }
}

#[test]
fn measures_open_or_are_refused(rt: HostRuntime) {
    let alloc = rt.alloc();
    for k in 0..8usize {
        let (lanes, order, page, moves, turns, want) = ROWS[k];
        let shape = Shape {
            lanes,
            order,
            page,
            ..SHAPE
        };
        let config = Config {
            shape,
            moves,
            turns,
        };
        assert!(rt; opened(alloc, &config) == want, "row {k}");
    }
    for (threads, want) in THREADS {
        assert!(rt;
            opened(alloc, &Config::for_threads(threads)) == want,
            "{threads} threads"
        );
    }
}
