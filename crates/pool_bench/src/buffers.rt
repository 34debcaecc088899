//! Mixed blocks by the calls of `buffer_pool`, on a pool that is opened as a server's.

use crate::bytes::sum_of;
use crate::draws::Draws;
use crate::words::Plan;
use crate::work::{Measured, Tally, Workload, draws_of};
use anyhow::anyhow;
use buffer_pool::{Config, Mails, Pool, PoolName, PoolThread, Work, open_in_threads};
use std::rt::Clock;
use std::sync::Wait;
use std::sync::atomic::{AtomicU64, Ordering};
use std::thread::Threads;
use std::time::Instant;

/// Opens a pool for the threads of a plan, lets all of them work, and closes it. The time is that from
/// the begin of the first thread's work to the end of the last one's.
pub fn measure_buffers<R: Threads + Wait + Sync + Clock + AllocGlobal>(
    rt: &R,
    plan: &Plan,
) -> anyhow::Result<Measured> {
    let blocks = Blocks::new(*plan, Instant::now(rt)?);
    match open_in_threads(rt, rt.alloc(), &Config::for_threads(plan.threads), &blocks) {
        Ok(_closed) => blocks.measured(),
        Err(no) => Err(anyhow!("no pool was closed: {no:?}")),
    }
}

// What the threads work, and what all of it came to. Times are nanoseconds since the origin.
#[derive(Drop)]
struct Blocks {
    plan: Plan,
    origin: Instant,
    begun: AtomicU64,
    ended: AtomicU64,
    // how often the time couldn't be told
    lost: AtomicU64,
    sum: AtomicU64,
    refused: AtomicU64,
}

impl Blocks {
    fn new(plan: Plan, origin: Instant) -> Blocks {
        Blocks {
            plan,
            origin,
            begun: AtomicU64::new(u64::MAX),
            ended: AtomicU64::new(0),
            lost: AtomicU64::new(0),
            sum: AtomicU64::new(0),
            refused: AtomicU64::new(0),
        }
    }

    // The time by now, where it can be told.
    fn time<R: Clock>(&self, rt: &R) -> Option<u64> {
        let Ok(now) = Instant::now(rt) else {
            return None;
        };
        u64::try_from(now.saturating_duration_since(self.origin).as_nanos()).ok()
    }

    // The time by now, which `of` has then where it is the least or the most.
    fn note<R: Clock>(&self, rt: &R, of: &AtomicU64, is_begin: bool) {
        let Some(nanoseconds) = self.time(rt) else {
            self.lost.fetch_add(1, Ordering::SeqCst);
            return;
        };
        if is_begin {
            of.fetch_min(nanoseconds, Ordering::SeqCst);
        } else {
            of.fetch_max(nanoseconds, Ordering::SeqCst);
        }
    }

    // What all threads came to.
    fn measured(&self) -> anyhow::Result<Measured> {
        if self.lost.load(Ordering::SeqCst) > 0 {
            return Err(anyhow!("the time could not be told"));
        }
        let begun = self.begun.load(Ordering::SeqCst);
        let ended = self.ended.load(Ordering::SeqCst);
        Ok(Measured {
            took: ended.saturating_sub(begun) as u128,
            sum: self.sum.load(Ordering::SeqCst),
            refused: self.refused.load(Ordering::SeqCst),
        })
    }
}

impl<R: Wait + Clock> Work<R> for Blocks {
    fn work<B: PoolName>(&self, rt: &R, pool: &Pool<B>, _mails: &Mails<B>, me: &mut PoolThread<B>) {
        let Plan {
            work,
            blocks,
            start,
            ..
        } = self.plan;
        let mut draws = Draws::new(start);
        draws.skip((me.number() as u64).wrapping_mul(draws_of(work) * blocks as u64));
        self.note(rt, &self.begun, true);
        let tally = if work == Workload::Lone {
            run_lone(rt, pool, blocks, draws, me)
        } else {
            run_buffers(rt, pool, blocks, draws, me)
        };
        self.note(rt, &self.ended, false);
        self.sum.fetch_add(tally.sum, Ordering::SeqCst);
        self.refused.fetch_add(tally.refused, Ordering::SeqCst);
    }
}

// So many blocks of a thread, one after another.
fn run_buffers<B: PoolName, W: Wait>(
    rt: &W,
    pool: &Pool<B>,
    blocks: u32,
    mut draws: Draws,
    me: &mut PoolThread<B>,
) -> Tally {
    let mut tally = Tally::none_of(0);
    for _done in 0..blocks {
        let size = 16 + draws.next() % 1009;
        let byte = (draws.next() % 256) as u8;
        let Ok(buffer) = me.alloc(rt, pool, size) else {
            tally.add(None);
            continue;
        };
        let mut out = [0u8; 4];
        let _set = me.set(rt, pool, &buffer, 0, &[byte, byte, byte, byte]);
        let _got = me.get(rt, pool, &buffer, 2, &mut out);
        match me.release(rt, pool, buffer) {
            Ok(_last) => tally.add(Some(sum_of(&out))),
            Err(back) => {
                back.leave();
                tally.add(None);
            }
        }
    }
    tally
}

// The same with buffers that the thread alone has, each an ordinary one for its release.
fn run_lone<B: PoolName, W: Wait>(
    rt: &W,
    pool: &Pool<B>,
    blocks: u32,
    mut draws: Draws,
    me: &mut PoolThread<B>,
) -> Tally {
    let mut tally = Tally::none_of(0);
    for _done in 0..blocks {
        let size = 16 + draws.next() % 1009;
        let byte = (draws.next() % 256) as u8;
        let Ok(buffer) = me.alloc_lone(rt, pool, size) else {
            tally.add(None);
            continue;
        };
        let mut out = [0u8; 4];
        let _set = buffer.set(rt, me, pool, 0, &[byte, byte, byte, byte]);
        let _got = buffer.get(rt, me, pool, 2, &mut out);
        match me.release(rt, pool, buffer.into_buffer()) {
            Ok(_last) => tally.add(Some(sum_of(&out))),
            Err(back) => {
                back.leave();
                tally.add(None);
            }
        }
    }
    tally
}
