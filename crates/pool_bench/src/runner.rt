//! A lane's seat, and the memory for its work.

ghost use Rattle.std.specs.Prelude.{◌≤◌, vec_capacity};

use pool_law::RootId;
use shared_pool::PoolSeat;

/// How many words keep the runners of two lanes apart, so that no lane writes on a cache line that
/// another reads.
const APART: usize = 25;

/// What lies behind a lane's runner in a list of them, and is never read.
#[derive(Clone, Copy, Drop)]
pub struct Apart {
    _words: [u64; APART],
}

impl Apart {
    /// Words that keep runners apart.
    pub fn new() -> Apart {
        Apart { _words: [0; APART] }
    }
}

/// A lane's seat, with the memory that its work needs. It is taken before the clock starts.
pub struct Runner {
    pub seat: PoolSeat,
    pub roots: Vec<RootId>,
    pub apart: Apart,
    ghost root_room: { 512 ≤ vec_capacity roots },
}
