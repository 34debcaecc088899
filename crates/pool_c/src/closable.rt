//! Whether the threads behind handles may close their pool.

ghost use Rattle.std.specs.Prelude.{◌≡◌, ◌↔◌, All, IsTrue, map, MatchResult, Some, box_value};
ghost use Rattle.pool_c.specs.Closing.{AreSettled, AreWhole, HaveNumbers, IsIdle, IsNoThread, IsReady, MayNotClose};
ghost use Rattle.pool_c.specs.Handles.{handle_refusal};

use crate::codes::Refusal;
use crate::handle::PoolThread;
use crate::held::Held;
use crate::thread::{EMPTY, READY};
use pool_member::work::settling::is_nothing;
use std::alloc::Global;

/// Whether a thread is behind each handle, ready for a call.
pub(crate) fn are_ready(threads: &[PoolThread]) -> Result<(), Refusal>
    ensures { MatchResult result (λ _. All IsReady threads.now) (IsIdle threads.now) }
{
    for thread in threads {
        may_call(thread)?;
    }
    Ok(())
}

// Whether a thread is behind the handle, ready for a call; or why not.
fn may_call(thread: &PoolThread) -> Result<(), Refusal>
    ensures { let no = handle_refusal thread.now.state in
        MatchResult result (λ _. IsReady thread.now)
        (λ why. (no ≡ Some why) × IsNoThread why) }
{
    if thread.state == EMPTY {
        return Err(Refusal::Empty);
    }
    if thread.state != READY {
        return Err(Refusal::InCall);
    }
    Ok(())
}

/// Whether these are all threads of a pool, by number, with nothing to put away.
pub(crate) fn may_close(all: &[Box<Held, Global>]) -> Result<(), Refusal>
    ensures { let hs = map box_value all.now in
        MatchResult result (λ _. AreWhole hs × AreSettled hs) (MayNotClose hs) }
{
    let Some(first) = all.first() else {
        return Err(Refusal::Threads);
    };
    if !are_all(first.common.name, first.common.threads, all) {
        return Err(Refusal::Threads);
    }
    if !are_settled(all) {
        return Err(Refusal::Unsettled);
    }
    Ok(())
}

// Whether these are all threads of a pool with this name, in the order of their numbers.
fn are_all(name: u32, threads: u32, all: &[Box<Held, Global>]) -> bool
    ensures { IsTrue result ↔ HaveNumbers name threads (map box_value all.now) }
{
    if all.len() != threads as usize {
        return false;
    }
    for number in 0..threads {
        let held = &all[number as usize];
        if held.common.name != name || held.member.account.lane != number {
            return false;
        }
    }
    true
}

// Whether none of these threads has anything to put away.
fn are_settled(all: &[Box<Held, Global>]) -> bool
    ensures { IsTrue result ↔ AreSettled (map box_value all.now) }
{
    for held in all {
        if !is_nothing(&held.member.pending) {
            return false;
        }
    }
    true
}
