//! What C calls.

ghost use Rattle.std.specs.Prelude.{◌≡◌, ◌≢◌, length};
ghost use Rattle.pool_c.specs.Answers.{Allocs, Gets, Releases, Sets, Settling, Slices};
ghost use Rattle.pool_c.specs.Codes.{ok};
ghost use Rattle.pool_c.specs.Handles.{Acts, Calls, Leaves};
ghost use Rattle.pool_c.specs.Opening.{Opens};

use crate::buffer::PoolBuffer;
use crate::codes::{code, give};
use crate::config::PoolConfig;
use crate::handle::PoolThread;
use crate::opening::open;
use std::alloc::Global;

/// Opens a pool: a thread behind each of the handles, in the order of their numbers.
#[unsafe(no_mangle)]
pub extern "C" fn pool_open(alloc: Global, config: &PoolConfig, threads: &mut [PoolThread]) -> i32
    ensures { Opens config.now threads.old threads.new result }
{
    code(open(alloc, config, threads))
}

/// Allocates a buffer of so many bytes, all 0.
#[unsafe(no_mangle)]
pub extern "C" fn pool_alloc(
    alloc: Global,
    thread: &mut PoolThread,
    size: u32,
    out: &mut PoolBuffer,
) -> i32
    ensures { Calls thread.old thread.new out.old out.new result (Allocs size) }
{
    let mut held = match thread.take(alloc) {
        Ok(held) => held,
        Err(why) => return why.code(),
    };
    let answer = held.alloc(size);
    thread.put(held);
    give(answer, out)
}

/// Lays bytes over those of a buffer, from `start` on.
#[unsafe(no_mangle)]
pub extern "C" fn pool_set(
    alloc: Global,
    thread: &mut PoolThread,
    buffer: &PoolBuffer,
    start: u32,
    bytes: &[u8],
) -> i32
    ensures { Acts thread.old thread.new result (Sets buffer.now start bytes.now) }
{
    let mut held = match thread.take(alloc) {
        Ok(held) => held,
        Err(why) => return why.code(),
    };
    let answer = held.set(buffer, start, bytes);
    thread.put(held);
    code(answer)
}

/// Copies bytes of a buffer out, from `start` on.
#[unsafe(no_mangle)]
pub extern "C" fn pool_get(
    alloc: Global,
    thread: &mut PoolThread,
    buffer: &PoolBuffer,
    start: u32,
    out: &mut [u8],
) -> i32
    ensures call { Acts thread.old thread.new result (Gets buffer.now start out.new) }
    ensures len { length out.new ≡ length out.old }
    ensures unread { result ≢ ok → out.new ≡ out.old }
{
    let mut held = match thread.take(alloc) {
        Ok(held) => held,
        Err(why) => return why.code(),
    };
    let answer = held.get(buffer, start, out);
    thread.put(held);
    code(answer)
}

/// Gives the count of a buffer back. `ended` is 1 where that was the last of all threads.
#[unsafe(no_mangle)]
pub extern "C" fn pool_release(
    alloc: Global,
    thread: &mut PoolThread,
    buffer: &PoolBuffer,
    ended: &mut i32,
) -> i32
    ensures { Calls thread.old thread.new ended.old ended.new result (Releases buffer.now) }
{
    let mut held = match thread.take(alloc) {
        Ok(held) => held,
        Err(why) => return why.code(),
    };
    let answer = held.release(buffer);
    thread.put(held);
    give(answer, ended)
}

/// Another buffer on a part of the bytes of one, with a count of its own.
#[unsafe(no_mangle)]
pub extern "C" fn pool_slice(
    alloc: Global,
    thread: &mut PoolThread,
    buffer: &PoolBuffer,
    start: u32,
    length: u32,
    out: &mut PoolBuffer,
) -> i32
    ensures { Calls thread.old thread.new out.old out.new result (Slices buffer.now start length) }
{
    let mut held = match thread.take(alloc) {
        Ok(held) => held,
        Err(why) => return why.code(),
    };
    let answer = held.slice(buffer, start, length);
    thread.put(held);
    give(answer, out)
}

/// Another buffer on the same bytes, with a count of its own.
#[unsafe(no_mangle)]
pub extern "C" fn pool_retain(
    alloc: Global,
    thread: &mut PoolThread,
    buffer: &PoolBuffer,
    out: &mut PoolBuffer,
) -> i32
    ensures { let b = buffer.now in
        Calls thread.old thread.new out.old out.new result (Slices b 0 b.length) }
{
    let mut held = match thread.take(alloc) {
        Ok(held) => held,
        Err(why) => return why.code(),
    };
    let answer = held.slice(buffer, 0, buffer.length);
    thread.put(held);
    give(answer, out)
}

/// Puts away what the thread has begun and could not end.
#[unsafe(no_mangle)]
pub extern "C" fn pool_settle(alloc: Global, thread: &mut PoolThread) -> i32
    ensures { Acts thread.old thread.new result Settling }
{
    let mut held = match thread.take(alloc) {
        Ok(held) => held,
        Err(why) => return why.code(),
    };
    let answer = held.settle();
    thread.put(held);
    code(answer)
}

/// Leaves a thread behind. The handle is empty then.
#[unsafe(no_mangle)]
pub extern "C" fn pool_leave(alloc: Global, thread: &mut PoolThread) -> i32
    ensures { Leaves thread.old thread.new result }
{
    code(thread.leave(alloc))
}
