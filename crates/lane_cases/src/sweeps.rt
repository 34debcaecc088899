//! A lane's sweep of its caches meets another lane in one of them.
//!
//! No call stays in a cache. But a cache that is full gives back what is put into it, so a lane that
//! has a region of another lane's can put it there again and again: until that lane's sweep has made
//! room, it is in that cache for much of the time.

ghost use Rattle.std.specs.Prelude.{◌≡◌, true, false};
ghost use Rattle.pool_table.specs.Counts.{HasCount};
ghost use Rattle.shared_pool.specs.SeatViews.{view_of};
ghost use Rattle.seat_work.specs.Hands.{empty_hand};
ghost use Rattle.seat_work.specs.Works.{Works};
ghost use Rattle.lane_core.specs.Lanes.{IsFinished, IsLane};

use crate::sweeps::filled::{Begun, LAYOUT, STEPS, begin, leave};
use crate::sweeps::staying::{fetched, stays};
use lane_core::{Gate, Lane, Pass, Stepped};
use pool_law::{Did, Held, Note, Object, RootId};
use shared_pool::{PoolSeat, SharedPool};
use size_classes::CACHED_CLASSES;
use std::alloc::{AllocError, Global};
use std::mem::ManuallyDrop;
use std::process::Abort;
use std::sync::Wait;
use std::sync::atomic::{AtomicBool, Ordering};
use std::test::Fail;
use std::thread::{Threads, join_mut, yield_now};

mod filled;
mod staying;

// A gate that stops no lane.
struct OpenGate;

impl Gate for OpenGate {
    ghost stops = { λ g lane line. false };

    fn pass(&self, _lane: u32, _line: u32) -> Pass {
        Pass::Go
    }
}

// How many lanes are tried. A try meets two times of five, on a busy machine too.
const TRIES: u32 = 64;

// How often a thread looks whether the other one has begun.
const LOOKS: u32 = 300_000;

// Waits for the other thread, but not for ever.
fn wait(flag: &AtomicBool) {
    for _ in 0..LOOKS {
        if flag.load(Ordering::SeqCst) {
            return;
        }
        yield_now();
    }
}

// Steps the lane to its end, or so often. The answer is whether it ended, and what held it up first.
fn step_on<R: Abort + Wait>(
    rt: &R,
    alloc: Global,
    pool: &SharedPool,
    lane: &mut Lane,
    most: u64,
) -> (bool, Option<Held>)
    requires lane { IsLane pool.now lane.old }
    ensures lane { IsLane pool.now lane.new }
    ensures finished { result.0 ≡ true → IsFinished lane.new }
{
    let mut first = None;
    for _step in 0..most {
        let Ok(stepped) = lane.step(rt, alloc, pool, &OpenGate) else {
            panic!(rt; "ample memory")
        };
        match stepped {
            Stepped::Went => (),
            Stepped::Finished => return (true, first),
            Stepped::Pending(held) => {
                if first.is_none() {
                    first = Some(held);
                }
                yield_now();
            }
            Stepped::Waiting { from: _ } => panic!(rt; "it receives nothing"),
        }
    }
    (false, first)
}

// The same to its end, once the other one is at its cache, which is told when it is through.
fn sweeps<R: Abort + Wait>(
    rt: &R,
    alloc: Global,
    pool: &SharedPool,
    lane: &mut Lane,
    inside: &AtomicBool,
    over: &AtomicBool,
) -> Option<Held>
    requires lane { IsLane pool.now lane.old }
    ensures finished { IsFinished lane.new }
{
    wait(inside);
    let (ended, held) = step_on(rt, alloc, pool, lane, u64::MAX);
    over.store(true, Ordering::SeqCst);
    assert!(rt; ended);
    held
}

// Both at once.
fn meet<R: Threads + Abort + Wait + Sync>(
    rt: &R,
    alloc: Global,
    pool: &SharedPool,
    lane: &mut Lane,
    other: &mut PoolSeat,
    root: RootId,
) -> Option<Held>
    requires lane { IsLane pool.now lane.old }
    requires works { Works pool.now empty_hand 1000001 0 other.old }
    requires counts { HasCount root (view_of other.old) }
    ensures finished { IsFinished lane.new }
{
    let inside = AtomicBool::new(false);
    let over = AtomicBool::new(false);
    let (held, ()) = join_mut(
        rt,
        &mut || sweeps(rt, alloc, pool, lane, &inside, &over),
        &mut || stays(pool, other, root, &inside, &over),
    );
    held
}

// A new lane goes up to its sweep, and then through it, while the other one is at its first cache.
fn swept<R: Threads + Abort + Wait + Sync>(
    rt: &R,
    alloc: Global,
    pool: &SharedPool,
    lane: &mut Lane,
    other: &mut PoolSeat,
) -> Option<Held>
    requires layout { pool.now.layout ≡ LAYOUT }
    requires lane { IsLane pool.now lane.old }
    requires other { Works pool.now empty_hand 1000001 0 other.old }
    ensures finished { IsFinished lane.new }
{
    let (ended, held) = step_on(rt, alloc, pool, lane, STEPS);
    assert!(rt; !ended && held.is_none());
    let root = fetched(rt, pool, other);
    meet(rt, alloc, pool, lane, other, root)
}

// Whether the sweep's first trim was held up. Whether it was or not, each cache was trimmed once, the
// first had all 256 to shed that fill it, no mark was noted, and nothing but the first cache held
// the lane up. The trim comes behind what the other lane did there meanwhile.
fn waited(rt: &impl Abort, notes: &[Note], held: Option<Held>) -> bool {
    let cache = Object::Cache { lane: 0, class: 0 };
    let mut trims = 0u32;
    let mut first = 0u64;
    for note in notes {
        match note {
            Note::At {
                object,
                number,
                did: Did::Trim(shed),
            } => {
                trims = trims.saturating_add(1);
                if *object == cache && *shed == 256 {
                    first = *number;
                }
            }
            Note::Busy(_) => panic!(rt; "it noted a mark"),
            _ => (),
        }
    }
    assert!(rt; trims == CACHED_CLASSES && first != 0);
    let Some(held) = held else {
        return false;
    };
    assert!(rt; held.object == cache);
    held.number < first
}

// Whether the sweep of a new lane found the other one in the cache that it trims first. The log is
// left as it is.
fn meets<R: Threads + Abort + Wait + Sync>(rt: &R, alloc: Global) -> Result<bool, AllocError> {
    let Begun {
        pool,
        mut lane,
        mut other,
    } = begin(alloc)?;
    let held = swept(rt, alloc, &pool, &mut lane, &mut other);
    let (_, log, first) = lane.into_log();
    leave(pool, first, other);
    let met = waited(rt, log.notes.items(), held);
    let _log = unsafe { ManuallyDrop::new_unchecked(log) };
    Ok(met)
}

// Each try takes the lane to its end. It is the threads' luck whether the two meet there.
#[test]
fn a_sweep_waits_for_another_lane_in_a_cache(rt: HostRuntime) -> Result<(), Fail> {
    for _try in 0..TRIES {
        if meets(&rt, rt.alloc())? {
            return Ok(());
        }
    }
    panic!(rt; "no sweep found the other lane")
}
