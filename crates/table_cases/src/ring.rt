//! Runners in a ring, of which each hands a baton to the next one.
ghost use Rattle.std.specs.Prelude.{◌≡◌, ◌<◌};
ghost use Rattle.table_cases.specs.Rings.{HasRun};

use std::alloc::{AllocError, Global};
use std::sync::Wait;
use std::sync::atomic::{AtomicU64, Ordering};
use work_table::{Machine, Stepped};

/// How many runners there are.
pub const RUNNERS: u64 = 5;

/// How many rounds each runs.
pub const ROUNDS: u64 = 200;

/// How often the baton was handed on.
#[derive(Drop)]
pub struct Ring {
    pub handed: AtomicU64,
}

/// It has the baton in its turn, by its number.
#[derive(Clone, Copy, PartialEq, Eq, Debug)]
pub struct Runner {
    pub number: u64,
    pub rounds: u64,
    /// It finds no memory in its last round.
    pub fails: bool,
}

impl Machine<Ring> for Runner {
    ghost comes = { λ ring first now. HasRun first now };

    ghost finished = { λ runner. runner.rounds ≡ 0 };

    fn step<R: Wait>(&mut self, _rt: &R, ring: &Ring) -> Result<Stepped, AllocError> {
        if self.rounds == 0 {
            return Ok(Stepped::Finished);
        }
        let turn = ring.handed.load(Ordering::SeqCst);
        if turn % RUNNERS != self.number {
            return Ok(if turn % 2 == 0 {
                Stepped::Waiting
            } else {
                Stepped::Pending
            });
        }
        if self.fails && self.rounds == 1 {
            return Err(AllocError);
        }
        self.rounds -= 1;
        ring.handed.fetch_add(1, Ordering::SeqCst);
        Ok(Stepped::Went)
    }
}

/// So many runners, of which one finds no memory in its last round.
pub fn runners(alloc: Global, count: u64, failing: u64) -> Result<Vec<Runner>, AllocError> {
    let mut all = Vec::new(alloc);
    for number in 0..count {
        all.push(Runner {
            number,
            rounds: ROUNDS,
            fails: number == failing,
        })?;
    }
    Ok(all)
}
