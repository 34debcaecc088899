//! How a stream is cut and its frames are hashed.

ghost use Rattle.std.specs.Prelude.{◌≡◌, false, [], All, IfOk, OnErr, OnOk, vec_len};
ghost use Rattle.work_table.specs.Places.{EachCame};
ghost use Rattle.shared_pool.specs.Closing.{AreWhole};
ghost use Rattle.shared_pool.specs.Seated.{AreDone, parts_in};
ghost use Rattle.shared_pool.specs.Seats.{IsPoolSeat};
ghost use Rattle.text_ends.specs.Spans.{source_span};
ghost use Rattle.frame_words.specs.Words.{AreOptions};
ghost use Rattle.frame_hash.specs.declared.worker.Work.{Work};
ghost use Rattle.frame_hash.specs.Standing.{WorkerCame, WorkerStands};
ghost use Rattle.frame_cutter.specs.declared.stage.Stage.{Stage};
ghost use Rattle.frame_cutter.specs.declared.stage.Verdict.{Verdict};
ghost use Rattle.frame_cutter.specs.Standing.{CutterCame, CutterStands, is_fault};
ghost use Rattle.frame_cut.specs.Closed.{AreSpent, NoneIsLive};
ghost use Rattle.frame_cut.specs.Tellings.{HasTold};

use crate::closing::{StreamEnd, close, gather};
use crate::openings::{Opened, open};
use crate::pages::touch_pages;
use frame_cutter::{Cutter, Cutting, Verdict};
use frame_hash::{Shared, Worker};
use frame_words::CutOptions;
use shared_pool::{PoolSeat, SharedPool};
use std::alloc::{AllocError, Global};
use std::sync::Wait;
use std::thread::Threads;
use text_ends::Source;
use work_table::step_beside;

/// Reads a stream, and has workers hash its frames. A read that failed is told of whatever else came.
/// What else it tells comes of a pool that was closed, in which no root is live.
pub fn hash_stream<R: Threads + Wait + Sync, S: Source>(
    rt: &R,
    alloc: Global,
    options: CutOptions,
    source: &mut S,
) -> Result<StreamEnd, AllocError>
    requires { AreOptions options }
    ensures told { IfOk result (λ told. HasTold told.verdict told options.block
        (source_span S.left S.faults source.old source.new)) }
    ensures none { OnErr result (S.faults source.new ≡ S.faults source.old) }
{
    touch_pages(rt, alloc);
    let Opened {
        pool,
        queues,
        workers,
        cutter,
        mut seats,
        told,
    } = open(alloc, options)?;
    let shared = Shared {
        pool: &pool,
        queues: &queues,
    };
    let (cutter, workers, ended) = step_all(rt, alloc, &shared, source, cutter, workers);
    let told = gather(&queues, workers, cutter, &mut seats, told);
    let closed = close_or_abandon(rt, alloc, pool, seats, ended);
    told_or_none(told, closed)
}

// Steps the cutter and its workers, each on a thread, until all have finished or one finds no memory.
fn step_all<R: Threads + Wait + Sync, S: Source>(
    rt: &R,
    alloc: Global,
    shared: &Shared,
    source: &mut S,
    mut cutter: Cutter,
    workers: Vec<Worker>,
) -> (Cutter, Vec<Worker>, Result<(), AllocError>)
    requires cutter { CutterStands shared.now cutter [] }
    requires begun { (cutter.last ≡ false) × (cutter.verdict ≡ Verdict.Whole) }
    requires workers { All (WorkerStands shared.now) workers.items }
    ensures cutter { CutterCame S.left S.faults shared.now source.old source.new cutter result.0 }
    ensures workers { EachCame (WorkerCame shared.now) workers.items result.1.items }
    ensures count { vec_len result.1 ≡ vec_len workers }
    ensures finished { OnOk result.2 ((result.0.stage ≡ Stage.Over)
        × All (λ w. w.work ≡ Work.Done) result.1.items) }
{
    let threads = cutter.workers.saturating_add(1);
    let mut cutting = Cutting {
        source,
        cutter: &mut cutter,
    };
    let (workers, ended) = step_beside(rt, alloc, shared, &mut cutting, workers, threads);
    let Cutting {
        source: _,
        cutter: _,
    } = cutting;
    (cutter, workers, ended)
}

// Closes the pool where all have finished. Else its memory stays taken.
fn close_or_abandon<W: Wait>(
    rt: &W,
    alloc: Global,
    pool: SharedPool,
    seats: Vec<PoolSeat>,
    ended: Result<(), AllocError>,
) -> Result<(), AllocError>
    requires seats { All (IsPoolSeat pool) seats.items }
    requires done { OnOk ended (AreDone pool seats.items) }
    requires spent { OnOk ended (AreSpent seats.items) }
    ensures ended { OnOk result (OnErr ended ⊥) }
    ensures whole { OnOk result (AreWhole pool.table.layout.shape (parts_in seats.items)) }
    ensures live { OnOk result (NoneIsLive (parts_in seats.items)) }
{
    match ended {
        Ok(()) => close(rt, alloc, pool, seats),
        Err(AllocError) => {
            pool.abandon(seats);
            Err(AllocError)
        }
    }
}

// What was told, where the pool was closed or a read failed.
fn told_or_none(told: StreamEnd, closed: Result<(), AllocError>) -> Result<StreamEnd, AllocError>
    ensures told { IfOk result (λ answer. answer ≡ told) }
    ensures closed { OnOk result (is_fault told.verdict ≡ false → OnErr closed ⊥) }
    ensures none { OnErr result (is_fault told.verdict ≡ false) }
{
    match told.verdict {
        Verdict::Fault => Ok(told),
        Verdict::Whole | Verdict::Refused(_) => match closed {
            Ok(()) => Ok(told),
            Err(AllocError) => Err(AllocError),
        },
    }
}
