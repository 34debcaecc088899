//! What C calls to have a buffer get longer, to give memory back, and to look at counts.

ghost use Rattle.pool_c.specs.Growing.{Grows, Looks, Touches, Trims};
ghost use Rattle.pool_c.specs.Handles.{Acts, Calls};

use crate::buffer::PoolBuffer;
use crate::codes::{code, give};
use crate::handle::PoolThread;
use std::alloc::Global;

/// Has the bytes in which a buffer lies be at least so many in all, and lets it reach up to the last
/// of them.
#[unsafe(no_mangle)]
pub extern "C" fn pool_capacity(
    alloc: Global,
    thread: &mut PoolThread,
    buffer: &mut PoolBuffer,
    size: u32,
) -> i32
    ensures { Calls thread.old thread.new buffer.old buffer.new result (Grows buffer.old size) }
{
    let mut held = match thread.take(alloc) {
        Ok(held) => held,
        Err(why) => return why.code(),
    };
    let answer = held.capacity(&*buffer, size);
    thread.put(held);
    give(answer, buffer)
}

/// Gives the memory that the thread's caches keep back to the arenas.
#[unsafe(no_mangle)]
pub extern "C" fn pool_trim(alloc: Global, thread: &mut PoolThread) -> i32
    ensures { Acts thread.old thread.new result Trims }
{
    let mut held = match thread.take(alloc) {
        Ok(held) => held,
        Err(why) => return why.code(),
    };
    let answer = held.trim();
    thread.put(held);
    code(answer)
}

/// How often a buffer's bytes are counted over all threads and parcels.
#[unsafe(no_mangle)]
pub extern "C" fn pool_refcnt(
    alloc: Global,
    thread: &mut PoolThread,
    buffer: &PoolBuffer,
    count: &mut u32,
) -> i32
    ensures { Calls thread.old thread.new count.old count.new result (Looks buffer.now) }
{
    let mut held = match thread.take(alloc) {
        Ok(held) => held,
        Err(why) => return why.code(),
    };
    let answer = held.refcnt(buffer);
    thread.put(held);
    give(answer, count)
}

/// Notes that a buffer was touched, which a report of leaks tells.
#[unsafe(no_mangle)]
pub extern "C" fn pool_touch(alloc: Global, thread: &mut PoolThread, buffer: &PoolBuffer) -> i32
    ensures { Acts thread.old thread.new result (Touches buffer.now) }
{
    let mut held = match thread.take(alloc) {
        Ok(held) => held,
        Err(why) => return why.code(),
    };
    let answer = held.touch(buffer);
    thread.put(held);
    code(answer)
}
