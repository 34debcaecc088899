//! The workers and the cutter, as they start.

ghost use Rattle.std.specs.Prelude.{◌≡◌, ◌≤◌, [], drop, vec_capacity, vec_len};
ghost use Rattle.frame_cut.specs.Openings.{AreNewWorkers, IsNewCutter, IsNewWorker};

use crate::openings::SEAT_TURNS;
use frame_cutter::{Cutter, MOST_SLICES, Stage, Verdict};
use frame_hash::{Work, Worker};
use frame_slices::Slicer;
use job_queue::JobEnd;
use shared_pool::PoolSeat;
use std::alloc::Global;

/// The workers, each with the seat of its number and its end of its queue.
pub fn new_workers(
    alloc: Global,
    count: u32,
    seats: &mut Vec<PoolSeat>,
    mut receivers: Vec<JobEnd>,
    mut workers: Vec<Worker>,
) -> Vec<Worker>
    requires seats { count ≤ vec_len seats.old }
    requires receivers { vec_len receivers ≡ count }
    requires workers { (workers.items ≡ []) × (count ≤ vec_capacity workers) }
    ensures ready { AreNewWorkers count seats.old.items receivers.items count result.items }
    ensures left { seats.new.items ≡ drop count seats.old.items }
    ensures room { vec_capacity seats.new ≡ vec_capacity seats.old }
{
    for number in 0..count {
        let seat = seats.remove(0);
        let jobs = receivers.remove(0);
        workers.push_reserved(new_worker(alloc, count, number, seat, jobs));
    }
    workers
}

// A worker that has nothing to do yet.
fn new_worker(alloc: Global, cutter: u32, number: u32, seat: PoolSeat, jobs: JobEnd) -> Worker
    ensures { IsNewWorker cutter number seat jobs result }
{
    Worker {
        seat,
        number,
        cutter,
        jobs,
        turns: SEAT_TURNS,
        hashes: Vec::new(alloc),
        work: Work::Idle,
    }
}

/// A cutter that has read nothing yet.
pub fn new_cutter(
    alloc: Global,
    workers: u32,
    seat: PoolSeat,
    ends: Vec<JobEnd>,
    rooms: Vec<u32>,
    block: u32,
    class: u32,
) -> Cutter
    ensures { IsNewCutter workers seat ends.items rooms.items block class result }
{
    Cutter {
        alloc,
        seat,
        workers,
        ends,
        slicer: Slicer::new(),
        block,
        finds: Vec::new(alloc),
        last: false,
        class,
        turns: SEAT_TURNS,
        moves: MOST_SLICES,
        rooms,
        frames: 0,
        slices: Vec::new(alloc),
        stage: Stage::Filling,
        verdict: Verdict::Whole,
    }
}
