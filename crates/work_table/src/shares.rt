//! The parts of the ledger that workers have, each its own.
ghost use Rattle.std.specs.Prelude.{◌≡◌, ◌+◌, ◌≤◌, [], vec_len, vec_capacity};

use crate::pace::Pace;
use crate::worker::Worker;
use std::sync::ledger::{Ledger, Share};

/// So many workers, each with one part of the ledger, of which one part is left.
pub fn with_shares<T: Ledger>(
    mut workers: Vec<Worker<T>>,
    mut all: Share<T>,
    count: usize,
    pace: Pace,
) -> (Vec<Worker<T>>, Share<T>)
    requires workers { (workers.items ≡ []) × (count ≤ vec_capacity workers) }
    requires all { (all.parts ≡ count + 1) × (all.amount ≡ 0) }
    ensures count { vec_len result.0 ≡ count }
    ensures left { (result.1.parts ≡ 1) × (result.1.amount ≡ 0) }
{
    for _i in 0..count {
        let share = all.split_off(1, 0);
        workers.push_reserved(Worker { share, pace });
    }
    (workers, all)
}

/// The shares of all workers with this one.
pub fn merged<T: Ledger>(mut workers: Vec<Worker<T>>, mut all: Share<T>) -> Share<T>
    requires { (all.parts ≡ 1) × (all.amount ≡ 0) }
    ensures { (result.parts ≡ vec_len workers + 1) × (result.amount ≡ 0) }
{
    while let Some(worker) = workers.pop() {
        let Worker { share, pace: _ } = worker;
        all.merge(share);
    }
    all
}
