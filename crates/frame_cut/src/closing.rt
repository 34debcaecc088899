//! How all that the workers told comes together, and the pool is closed.

ghost use Rattle.std.specs.Prelude.{◌≡◌, ℕ, ◌+◌, ◌≤◌, [], ◌∷◌, ◌++◌, length, map, Some, OnOk, slice_get, vec_capacity, vec_len};
ghost use Rattle.frame_hash.specs.declared.worker.Worker.{Worker};
ghost use Rattle.frame_cut.specs.Closed.{AreSpent, NoneIsLive};
ghost use Rattle.frame_cut.specs.Tellings.{HasEnds, HasGot};
ghost use Rattle.shared_pool.specs.Closing.{AreWhole};
ghost use Rattle.shared_pool.specs.Seated.{AreDone, parts_in};

use frame_cutter::{Cutter, Verdict};
use frame_hash::{HashOf, Worker};
use job_queue::{JobEnd, JobQueue, reunite};
use shared_pool::{PoolSeat, SharedPool};
use std::alloc::{AllocError, Global};
use std::sync::Wait;

/// What a stream came to, and what each worker told of its frames.
#[derive(Drop)]
pub struct StreamEnd {
    pub verdict: Verdict,
    pub frames: u32,
    pub hashes: Vec<Vec<HashOf>>,
}

/// Brings the seats of the workers and of the cutter back into their vector, in order, and joins the
/// ends of the queues. What the workers told goes into theirs.
pub fn gather(
    queues: &[JobQueue],
    mut workers: Vec<Worker>,
    cutter: Cutter,
    seats: &mut Vec<PoolSeat>,
    mut hashes: Vec<Vec<HashOf>>,
) -> StreamEnd
    requires many { vec_len workers ≡ length queues.now }
    requires ends { (k : ℕ) (w : Worker) → slice_get workers.items k ≡ Some w →
        HasEnds queues.now cutter.ends.items k w.jobs }
    requires seats { (seats.old.items ≡ []) × (vec_len workers + 1 ≤ vec_capacity seats.old) }
    requires room { (hashes.items ≡ []) × (vec_len workers ≤ vec_capacity hashes) }
    ensures seats { seats.new.items ≡ map (λ w. w.seat) workers.items ++ cutter.seat ∷ [] }
    ensures hashes { result.hashes.items ≡ map (λ w. w.hashes) workers.items }
    ensures verdict { (result.verdict ≡ cutter.verdict) × (result.frames ≡ cutter.frames) }
    ensures jobs { (k : ℕ) (w : Worker) → slice_get workers.items k ≡ Some w →
        HasGot cutter.ends.items k w.jobs }
{
    let Cutter {
        alloc: _,
        seat: own,
        mut ends,
        frames,
        verdict,
        workers: _,
        slicer: _,
        block: _,
        finds: _,
        last: _,
        class: _,
        turns: _,
        moves: _,
        rooms: _,
        slices: _,
        stage: _,
    } = cutter;
    for number in 0..workers.len() {
        let (seat, jobs, told) = parts(workers.remove(0));
        reunite(&queues[number], &mut ends[number], jobs);
        seats.push_reserved(seat);
        hashes.push_reserved(told);
    }
    workers.destroy_empty();
    seats.push_reserved(own);
    StreamEnd {
        verdict,
        frames,
        hashes,
    }
}

// A worker's seat, its end of its queue, and what it told.
fn parts(worker: Worker) -> (PoolSeat, JobEnd, Vec<HashOf>)
    ensures seat { result.0 ≡ worker.seat }
    ensures jobs { result.1 ≡ worker.jobs }
    ensures hashes { result.2 ≡ worker.hashes }
{
    let Worker {
        seat,
        jobs,
        hashes,
        number: _,
        cutter: _,
        turns: _,
        work: _,
    } = worker;
    (seat, jobs, hashes)
}

/// Closes the pool, in which no root is live: no seat counts one, and no parcel is left.
pub fn close<W: Wait>(
    rt: &W,
    alloc: Global,
    pool: SharedPool,
    seats: Vec<PoolSeat>,
) -> Result<(), AllocError>
    requires done { AreDone pool seats.items }
    requires spent { AreSpent seats.items }
    ensures whole { OnOk result (AreWhole pool.table.layout.shape (parts_in seats.items)) }
    ensures live { OnOk result (NoneIsLive (parts_in seats.items)) }
{
    match pool.close(rt, alloc, seats) {
        Ok(_end) => Ok(()),
        Err((pool, seats)) => {
            pool.abandon(seats);
            Err(AllocError)
        }
    }
}
