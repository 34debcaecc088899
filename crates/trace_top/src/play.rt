//! The run of a trace: a pool is made, workers step its lanes until all have finished, and it is
//! closed.
ghost use Rattle.std.specs.Prelude.{◌≡◌, ℕ, All, IfOk, length};
ghost use Rattle.pool_law.specs.Legal.{AreCommands};
ghost use Rattle.pool_law.specs.Limits.{IsShape};
ghost use Rattle.pool_law.specs.Logs.{of_lane};
ghost use Rattle.lane_core.specs.Played.{IsHeeded};

use crate::lanes::{all_lanes, given_back};
use crate::needs::{layout_for, mail_for};
use crate::workers::step_together;
use lane_core::{Gate, Played, finish};
use pool_law::{Shape, Trace};
use shared_pool::SharedPool;
use std::alloc::{AllocError, Global};
use std::sync::Wait;
use std::thread::Threads;

/// The run of a trace over a new pool of this shape, by so many workers.
pub fn play<R: Threads + Wait + Sync, G: Gate>(
    rt: &R,
    alloc: Global,
    trace: Trace,
    shape: &Shape,
    workers: u32,
    gate: &G,
) -> Result<Played, AllocError>
    requires shape { IsShape shape.now }
    requires lanes { shape.now.lanes ≡ length trace.lanes }
    requires commands { (lane : ℕ) → AreCommands shape.now (of_lane trace.lanes lane) }
    ensures trace { IfOk result (λ run. run.trace.lanes ≡ trace.lanes) }
    ensures shape { IfOk result (λ run. run.shape ≡ shape.now) }
    ensures stopped { IfOk result (IsHeeded (G.stops gate.now)) }
{
    let Trace { lanes: commands } = trace;
    let layout = layout_for(commands.items(), shape);
    let mail = mail_for(alloc, commands.items())?;
    let (pool, seats) = SharedPool::new(alloc, layout, &mail)?;
    let (lanes, room) = match all_lanes(alloc, &pool, shape, commands.into_items(), seats) {
        Ok(made) => made,
        Err(seats) => {
            pool.abandon(seats);
            return Err(AllocError);
        }
    };
    let (lanes, ended) = step_together(rt, alloc, &pool, gate, lanes, workers);
    match ended {
        Ok(()) => {
            room.destroy_empty();
            finish(rt, alloc, pool, shape, lanes)
        }
        Err(AllocError) => {
            let seats = given_back(&pool, lanes, room);
            pool.abandon(seats);
            Err(AllocError)
        }
    }
}
