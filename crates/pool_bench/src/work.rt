//! The workloads: what one lane does, block after block.

ghost use Rattle.std.specs.Prelude.{◌≡◌, ◌≤◌};
ghost use Rattle.pool_law.specs.Limits.{geometry_of};
ghost use Rattle.pool_bench.specs.Runs.{MayRun, HasRun};
ghost use Rattle.pool_bench.specs.Mails.{HasMail};

use crate::alone::run_alone;
use crate::batches::run_batches;
use crate::draws::Draws;
use crate::passed::run_passed;
use crate::places::run_places;
use crate::retained::run_retained;
use crate::runner::Runner;
use crate::words::Plan;
use pool_law::Shape;
use shared_pool::SharedPool;
use size_classes::SizeClasses;
use std::sync::Wait;

/// What a block is.
#[derive(Clone, Copy, PartialEq, Eq, Debug, Drop)]
pub enum Workload {
    /// A new buffer of 16 to 1,024 bytes, or of so many, four bytes written, four read from the
    /// third on, and its release.
    Mixed(Option<u32>),
    /// A new buffer and its release, at each class with a cache but the last, one after the other,
    /// or at the class of so many bytes.
    Plain(Option<u32>),
    /// A new buffer, mostly of 64 to 1,024 bytes, whose last 64 bytes are read, written and read
    /// again, and its release. The sum is how many bytes were wrong.
    Checked,
    /// Mixed blocks, of which one in 32 doesn't release its buffer.
    Left,
    /// Mixed blocks by the calls of `buffer_pool`.
    Buffers,
    /// The same with buffers that their thread alone has.
    Lone,
    /// Mixed blocks whose buffers go to the next lane, in place of their release. It reads the
    /// first four bytes and releases them.
    Passed(Option<u32>),
    /// Passed blocks whose bytes are their numbers. The sum is how many bytes were wrong.
    Counted,
    /// A retain and a release of one buffer, of 256 bytes, or of so many.
    Retained(Option<u32>),
    /// 512 new buffers, then their releases, of each class up to 2,048 bytes, one after the other,
    /// or of so many bytes.
    Batches(Option<u32>),
    /// At one of 64 places the buffer is released, and a new one of 16 bytes to 4 MiB is put there,
    /// small ones more often, whose first and last four bytes are written, and the last four read.
    Places,
}

/// How many numbers a block draws at most.
pub fn draws_of(work: Workload) -> u64
    ensures { result ≤ 5 }
{
    match work {
        Workload::Places => 5,
        _ => 2,
    }
}

/// What a lane's blocks came to: the sum of the bytes that it read, and how many were refused.
#[derive(Clone, Copy, PartialEq, Eq, Debug, Drop)]
pub struct Tally {
    pub sum: u64,
    pub refused: u64,
}

impl Tally {
    /// What blocks come to of which none could be made.
    pub fn none_of(blocks: u32) -> Tally {
        Tally {
            sum: 0,
            refused: blocks as u64,
        }
    }

    /// One more block: the sum of the bytes that it read, or None where it was refused.
    #[inline(always)]
    pub fn add(&mut self, block: Option<u64>) {
        match block {
            Some(sum) => self.sum = self.sum.wrapping_add(sum),
            None => self.refused = self.refused.wrapping_add(1),
        }
    }
}

/// One repetition: its nanoseconds, what was read, and what was refused.
#[derive(Clone, Copy, Debug, Drop)]
pub struct Measured {
    pub took: u128,
    pub sum: u64,
    pub refused: u64,
}

/// All blocks of a plan's workload, by the calls of a seat.
pub fn run<W: Wait>(
    rt: &W,
    pool: &SharedPool,
    shape: &Shape,
    sizes: &SizeClasses,
    plan: &Plan,
    draws: &mut Draws,
    runner: &mut Runner,
) -> Tally
    requires shape { shape.now ≡ pool.now.table.layout.shape }
    requires sizes { sizes.now ≡ geometry_of shape.now }
    requires may { MayRun pool.now plan.now.blocks runner.old.seat }
    requires mail { HasMail pool.now plan.now.mail runner.old.seat }
    ensures { HasRun pool.now runner.old.seat runner.new.seat }
{
    let Plan {
        work,
        asked,
        blocks,
        mail,
        ..
    } = *plan;
    let seat = &mut runner.seat;
    match work {
        Workload::Passed(_) | Workload::Counted => {
            run_passed(rt, pool, shape, sizes, work, blocks, mail, draws, seat)
        }
        Workload::Retained(size) => {
            run_retained(rt, pool, sizes, size.unwrap_or(256), asked, blocks, seat)
        }
        Workload::Batches(size) => run_batches(rt, pool, sizes, size, blocks, runner),
        Workload::Places => run_places(rt, pool, sizes, blocks, draws, runner),
        _ => run_alone(rt, pool, sizes, work, blocks, draws, seat),
    }
}

/// The size of the next buffer, and the byte that is written.
#[inline(always)]
pub fn asked(work: Workload, sizes: &SizeClasses, done: u32, draws: &mut Draws) -> (u32, u8) {
    match work {
        Workload::Mixed(size) | Workload::Passed(size) => {
            let drawn = 16 + draws.next() % 1009;
            (size.unwrap_or(drawn), (draws.next() % 256) as u8)
        }
        Workload::Checked => {
            let drawn = 64 + draws.next() % 961;
            let size = if done % 8 == 7 { 40 * drawn } else { drawn };
            (size, (draws.next() % 256) as u8)
        }
        Workload::Left | Workload::Buffers | Workload::Lone => {
            (16 + draws.next() % 1009, (draws.next() % 256) as u8)
        }
        Workload::Counted => (16 + draws.next() % 1009, (done % 256) as u8),
        Workload::Plain(Some(size)) => (size, 0),
        Workload::Plain(None) => (class_size(sizes, done % 39), 0),
        Workload::Retained(_) | Workload::Batches(_) | Workload::Places => (16, 0),
    }
}

/// The size of a class, where there is one.
pub fn class_size(sizes: &SizeClasses, class: u32) -> u32 {
    if class < sizes.count() {
        sizes.size_of(class)
    } else {
        16
    }
}
