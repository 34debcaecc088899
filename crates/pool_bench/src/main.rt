//! Measures the shared pool, by the calls of its seats and through `buffer_pool`. Without words it does
//! nothing.
//!
//! The words are a workload, how many threads work, how many blocks each, 1, how often all is
//! repeated, and with which number the draws begin, if not 0. Each repetition writes one line: the
//! first four words, the nanoseconds that it took, 0, the sum of what was read, and how many blocks
//! were refused. Other words are told on standard error, with status 2; a failure has status 1.
#![tactic(auto)]

ghost use Rattle.std.specs.Prelude.{◌≡◌, ◌<◌, All};
ghost use Rattle.pool_law.specs.Limits.{geometry_of};
ghost use Rattle.pool_bench.specs.Runs.{MayRun, HasRun, HaveRun};
ghost use Rattle.pool_bench.specs.Mails.{HasMail};
ghost use Rattle.pool_bench.specs.Plans.{IsPlan};
ghost use Rattle.shared_pool.specs.Seated.{AreDone};

use pool_law::Shape;
use shared_pool::{PoolSeat, SharedPool};
use size_classes::SizeClasses;
use std::alloc::{AllocError, Global};
use std::env::Env;
use std::io::Write;
use std::process::ExitCode;
use std::rt::Clock;
use std::sync::Wait;
use std::sync::atomic::{AtomicU64, Ordering};
use std::thread::Threads;
use std::time::Instant;
use std::{env, thread};

mod alone;
mod batches;
mod buffers;
mod bytes;
mod draws;
mod passed;
mod places;
mod retained;
mod runner;
mod runners;
mod words;
mod work;

use buffers::measure_buffers;
use draws::Draws;
use runner::Runner;
use runners::{memory_for, runners_of, seats_of};
use words::{Plan, layout_of, mail_for, plan_of};
use work::{Measured, Workload, draws_of, run};

/// The status of words that ask for no measure.
const WRONG_WORDS: u8 = 2;

/// What the words may be.
const USAGE: &str = "\
usage: pool_bench WORKLOAD THREADS BLOCKS 1 REPEATS [START]
WORKLOAD is w1, w2, w4, w5hit or w5batch, with @ and a size or without, or w3, buffers, lone, checked, left, counted
";

fn main(rt: HostRuntime) -> ExitCode {
    match measure_all(&rt) {
        Ok(true) => ExitCode::SUCCESS,
        Ok(false) => {
            let _ = rt.stderr().write_all(USAGE.as_bytes());
            ExitCode::from(WRONG_WORDS)
        }
        Err(error) => {
            let _ = writeln!(rt.stderr(), "pool_bench: {error}");
            ExitCode::FAILURE
        }
    }
}

// Measures what the words ask for. Answers whether they ask for something that can be measured.
fn measure_all<R>(rt: &R) -> anyhow::Result<bool>
where
    R: Threads + Wait + Sync + Clock + Env + Print + AllocGlobal,
{
    let words: Vec<String> = env::args(rt)?.skip(1).collect(rt.alloc())?;
    if words.is_empty() {
        return Ok(true);
    }
    let Some(plan) = plan_of(&words) else {
        return Ok(false);
    };
    for _ in 0..plan.repeats {
        let Measured { took, sum, refused } = match plan.work {
            Workload::Buffers | Workload::Lone => measure_buffers(rt, &plan)?,
            _ => measure(rt, &plan)?,
        };
        println!(rt;
            "{} {} {} 1 {} 0 {} {}",
            words[0], plan.threads, plan.asked, took, sum, refused
        )?;
    }
    Ok(true)
}

// A pool is opened, all lanes work, and it is closed. The time is that of the work alone.
fn measure<R: Threads + Wait + Sync + Clock + AllocGlobal>(
    rt: &R,
    plan: &Plan,
) -> anyhow::Result<Measured>
    requires { IsPlan plan.now }
{
    let mail = mail_for(rt.alloc(), plan)?;
    let layout = layout_of(plan);
    let shape = layout.shape;
    let sizes = SizeClasses::new(rt.alloc(), shape.order, shape.page)?;
    let memory = memory_for(rt.alloc(), plan.threads)?;
    let (pool, seats) = SharedPool::new(rt.alloc(), layout, mail.as_slice())?;
    let (mut runners, spare) = match runners_of(rt.alloc(), seats, memory) {
        Ok(made) => made,
        Err(seats) => {
            close(rt, rt.alloc(), pool, seats)?;
            return Err(AllocError.into());
        }
    };
    let start = Instant::now(rt);
    let (sum, refused) = work_all(rt, &pool, &shape, &sizes, plan, runners.as_mut_slice());
    let end = Instant::now(rt);
    close(rt, rt.alloc(), pool, seats_of(runners, spare))?;
    let took = end?.saturating_duration_since(start?).as_nanos();
    Ok(Measured { took, sum, refused })
}

// Closes a pool, or abandons it where memory is refused.
fn close<W: Wait>(
    rt: &W,
    alloc: Global,
    pool: SharedPool,
    seats: Vec<PoolSeat>,
) -> Result<(), AllocError>
    requires { AreDone pool seats.items }
{
    match pool.close(rt, alloc, seats) {
        Ok(_end) => Ok(()),
        Err((pool, seats)) => {
            pool.abandon(seats);
            Err(AllocError)
        }
    }
}

// All lanes at work at once. The answer is the sum of what they read, and how many blocks were
// refused.
fn work_all<R: Threads + Wait + Sync>(
    rt: &R,
    pool: &SharedPool,
    shape: &Shape,
    sizes: &SizeClasses,
    plan: &Plan,
    runners: &mut [Runner],
) -> (u64, u64)
    requires threads { 0 < plan.now.threads }
    requires shape { shape.now ≡ pool.now.table.layout.shape }
    requires sizes { sizes.now ≡ geometry_of shape.now }
    requires mail { All (λ r. HasMail pool.now plan.now.mail r.seat) runners.old }
    requires may { All (λ r. MayRun pool.now plan.now.blocks r.seat) runners.old }
    ensures { HaveRun pool.now runners.old runners.new }
{
    let sum = AtomicU64::new(0);
    let refused = AtomicU64::new(0);
    thread::for_each_mut(
        rt,
        runners,
        plan.threads as usize,
        &|lane: usize, runner: &mut Runner|
            requires { (shape.now ≡ pool.now.table.layout.shape)
                × (sizes.now ≡ geometry_of shape.now)
                × HasMail pool.now plan.now.mail runner.now.seat
                × MayRun pool.now plan.now.blocks runner.now.seat }
            ensures { HasRun pool.entry.now runner.entry.now.seat runner.exit.now.seat }
        {
            let mut draws = Draws::new(plan.start);
            draws.skip((lane as u64).wrapping_mul(draws_of(plan.work) * plan.blocks as u64));
            let tally = run(rt, pool, shape, sizes, plan, &mut draws, runner);
            sum.fetch_add(tally.sum, Ordering::SeqCst);
            refused.fetch_add(tally.refused, Ordering::SeqCst);
        },
    );
    (sum.into_inner(), refused.into_inner())
}
