//! What a pool is opened with.

ghost use Rattle.std.specs.Prelude.{◌≡◌, ◌-◌, ◌/◌, ◌^◌, max, MatchResult};
ghost use Rattle.pool_member.specs.Configs.{IsLayoutOf, IsRefused};

use crate::answers::OpenNo;
use pool_law::{Level, Shape, is_shape};
use pool_table::Layout;
use size_classes::DEFAULT_PAGE;

/// The most moves that all threads of a pool can have together, and the most turns.
const MOST_MOVES: u32 = 1_073_741_823;

const MOST_TURNS: u64 = 4_611_686_018_427_387_903;

/// What `Config::for_threads` takes: chunks of 2^9 pages, handles, and the interval.
const DEFAULT_ORDER: u32 = 9;

const DEFAULT_HANDLES: u32 = 1024;

const DEFAULT_INTERVAL: u32 = 128;

/// The most arenas that a pool can have.
const MOST_ARENAS: u32 = 8;

/// What a pool is opened with. It is tested as the pool is opened.
#[derive(Clone, Copy, PartialEq, Eq, Debug, Drop)]
pub struct Config {
    /// The measures of the pool. It has a thread for each lane.
    pub shape: Shape,
    /// How many more buffers each thread may have retained than it released, at most 2^30 - 1 for
    /// all threads together.
    pub moves: u32,
    /// How many turns each thread has, at most 2^62 - 1 for all threads together. An allocation and
    /// an ask for capacity take 6 of them, a release 4, a trim at most 2 for each cache, each region
    /// that goes back and each time that another thread is in one of its caches, and any other call
    /// 1 or none. They take no memory.
    pub turns: u64,
}

impl Config {
    /// That of a pool with these measures, and as many moves and turns as it can have.
    pub fn of(shape: Shape) -> Config
        ensures shape { result.shape ≡ shape }
        ensures moves { result.moves ≡ (2 ^ 30 - 1) / max shape.lanes 1 }
        ensures turns { result.turns ≡ (2 ^ 62 - 1) / max shape.lanes 1 }
    {
        let threads = shape.lanes.max(1);
        Config {
            shape,
            moves: MOST_MOVES / threads,
            turns: MOST_TURNS / threads as u64,
        }
    }

    /// That of a pool for so many threads, 1 to 16: an arena for each, but 8 at most, of one chunk of
    /// 4 MiB, and up to 1,024 live buffers of each thread's own. One of 128 allocations of a thread
    /// is watched.
    pub fn for_threads(threads: u32) -> Config
        ensures threads { result.shape.lanes ≡ threads }
    {
        Config::of(Shape {
            page: DEFAULT_PAGE,
            order: DEFAULT_ORDER,
            arenas: threads.clamp(1, MOST_ARENAS),
            chunks: 1,
            handles: DEFAULT_HANDLES,
            lanes: threads,
            level: Level::Simple,
            interval: DEFAULT_INTERVAL,
        })
    }

    /// The layout of the pool, if that is inside the limits.
    pub fn layout(&self) -> Result<Layout, OpenNo>
        ensures { MatchResult result (IsLayoutOf self.now) (IsRefused self.now) }
    {
        if !is_shape(&self.shape) {
            return Err(OpenNo::Shape);
        }
        let threads = self.shape.lanes;
        if self.moves > MOST_MOVES / threads || self.turns > MOST_TURNS / threads as u64 {
            return Err(OpenNo::Budget);
        }
        Ok(Layout {
            shape: self.shape,
            moves: self.moves,
            turns: self.turns,
        })
    }
}
