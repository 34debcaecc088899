//! What C calls to close a pool.

ghost use Rattle.pool_c.specs.Closing.{AreKnown, Closes};

use crate::closing::{PoolEnd, close};
use crate::codes::give;
use crate::handle::PoolThread;
use std::alloc::Global;

/// Closes the pool whose threads are behind these handles, by number: all of them. The handles are
/// empty then.
#[unsafe(no_mangle)]
pub extern "C" fn pool_close(alloc: Global, threads: &mut [PoolThread], end: &mut PoolEnd) -> i32
    requires known { AreKnown threads.old }
    ensures { Closes threads.old threads.new end.old end.new result }
{
    give(close(alloc, threads), end)
}
