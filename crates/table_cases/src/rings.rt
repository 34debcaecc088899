//! Runners in a ring, stepped by one thread and by several.
ghost use Rattle.table_cases.specs.Rings.{HasRun};

use crate::ring::{ROUNDS, RUNNERS, Ring, Runner, runners};
use std::sync::atomic::{AtomicU64, Ordering};
use std::test::Fail;
use work_table::{step_beside, step_together};

// How many threads step the runners, and which of them finds no memory; none, where it is as many as there
// are.
const TOGETHER: [(u32, u64); 7] = [(0, 5), (1, 5), (2, 5), (4, 5), (9, 5), (1, 2), (3, 2)];

// The same where the last one is this thread's own.
const BESIDE: [(u32, u64); 6] = [(0, 5), (1, 5), (2, 5), (4, 5), (1, 4), (3, 4)];

// A baton that nobody has had.
fn new_ring() -> Ring {
    Ring {
        handed: AtomicU64::new(0),
    }
}

// This thread's own runner, which is the last.
fn own_runner(fails: bool) -> Runner
    ensures { HasRun result result }
{
    Runner {
        number: RUNNERS - 1,
        rounds: ROUNDS,
        fails,
    }
}

// How many rounds are left to a runner once all have ended: one to whom finds no memory in its last, and to
// each behind it.
fn left_to(number: u64, failing: u64) -> u64 {
    if number < failing { 0 } else { 1 }
}

// Whether these runners stand at their places, each with the rounds that are left to it.
fn have_run(all: &[Runner], failing: u64) -> bool {
    let mut place = 0u64;
    for runner in all {
        if runner.number != place || runner.rounds != left_to(place, failing) {
            return false;
        }
        place = place.saturating_add(1);
    }
    true
}

// How often the baton is handed on then.
fn handed_to(failing: u64) -> u64 {
    match failing {
        2 => RUNNERS * (ROUNDS - 1) + 2,
        4 => RUNNERS * (ROUNDS - 1) + 4,
        _ => RUNNERS * ROUNDS,
    }
}

#[test]
fn all_runners_run_their_rounds(rt: HostRuntime) -> Result<(), Fail> {
    for (threads, failing) in TOGETHER {
        let ring = new_ring();
        let all = runners(rt.alloc(), RUNNERS, failing)?;
        let (all, ended) = step_together(&rt, rt.alloc(), &ring, all, threads);
        let handed = ring.handed.load(Ordering::SeqCst);
        assert!(rt; ended.is_ok() == (failing == RUNNERS) && handed == handed_to(failing));
        assert!(rt; all.len() as u64 == RUNNERS && have_run(&all, failing));
    }
    Ok(())
}

#[test]
fn this_thread_steps_one_of_them(rt: HostRuntime) -> Result<(), Fail> {
    for (threads, failing) in BESIDE {
        let ring = new_ring();
        let mut own = own_runner(failing == RUNNERS - 1);
        let all = runners(rt.alloc(), RUNNERS - 1, failing)?;
        let (all, ended) = step_beside(&rt, rt.alloc(), &ring, &mut own, all, threads);
        let handed = ring.handed.load(Ordering::SeqCst);
        assert!(rt; ended.is_ok() == (failing == RUNNERS) && handed == handed_to(failing));
        assert!(rt; all.len() as u64 == RUNNERS - 1 && have_run(&all, failing));
        assert!(rt; own.number == RUNNERS - 1 && own.rounds == left_to(RUNNERS - 1, failing));
    }
    Ok(())
}
