//! How workers step the lanes of a pool together.
ghost use Rattle.std.specs.Prelude.{◌≡◌, List, vec_len, All, Ok, OnOk};
ghost use Rattle.pool_law.specs.declared.command.Command.{Command};
ghost use Rattle.lane_core.specs.Lanes.{IsFinished, IsLane};
ghost use Rattle.work_table.specs.Places.{EachCame};
ghost use Rattle.trace_top.specs.Standing.{AllFinished, AllRun, AreLanes, AreNumbered, HasCome};

use crate::environment::{Environment, step_lane};
use lane_core::{Gate, Lane};
use shared_pool::SharedPool;
use std::alloc::{AllocError, Global};
use std::sync::Wait;
use std::thread::Threads;
use work_table::Stepped;

/// Steps the lanes on so many workers, or as many as there are lanes, until all have finished or
/// one finds no memory. All lanes come back, each at its place.
pub fn step_together<R: Threads + Wait + Sync, G: Gate>(
    rt: &R,
    alloc: Global,
    pool: &SharedPool,
    gate: &G,
    lanes: Vec<Lane>,
    workers: u32,
) -> (Vec<Lane>, Result<(), AllocError>)
    requires lanes { AreNumbered (G.stops gate.now) pool.now lanes.items }
    ensures lanes { AreLanes pool.now result.0.items }
    ensures runs { let stops = G.stops gate.now in (trace : List (List Command)) →
        AllRun trace stops pool.now lanes.items → AllRun trace stops pool.now result.0.items }
    ensures count { vec_len result.0 ≡ vec_len lanes }
    ensures finished { OnOk result.1 (AllFinished result.0.items) }
{
    stepped(rt, alloc, pool, gate, lanes, workers)
}

// The same, told of each lane by itself.
fn stepped<R: Threads + Wait + Sync, G: Gate>(
    rt: &R,
    alloc: Global,
    pool: &SharedPool,
    gate: &G,
    lanes: Vec<Lane>,
    workers: u32,
) -> (Vec<Lane>, Result<(), AllocError>)
    requires lanes { All (λ lane. HasCome (G.stops gate.now) pool.now lane lane) lanes.items }
    ensures lanes { EachCame (HasCome (G.stops gate.now) pool.now) lanes.items result.0.items }
    ensures count { vec_len result.0 ≡ vec_len lanes }
    ensures finished { OnOk result.1 (All IsFinished result.0.items) }
{
    let step = |lane: &mut Lane| -> Result<Stepped, AllocError>
        requires { IsLane pool.now lane.old }
        ensures came { HasCome (G.stops gate.entry.now) pool.entry.now lane.old lane.new }
        ensures finished { result ≡ Ok Stepped.Finished → IsFinished lane.new }
    { step_lane(rt, alloc, pool, gate, lane) };
    let environment = Environment { pool, gate, step };
    work_table::step_together(rt, alloc, &environment, lanes, workers)
}
