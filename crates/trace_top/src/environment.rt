//! What the lanes of a pool share, and how each of them is stepped over it.
ghost use Rattle.std.specs.Prelude.{◌≡◌, Ok};
ghost use Rattle.lane_core.specs.Lanes.{IsFinished, IsLane};
ghost use Rattle.trace_top.specs.Standing.{HasCome, StepsLanes};

use lane_core::{Gate, Lane};
use shared_pool::SharedPool;
use std::alloc::{AllocError, Global};
use std::sync::Wait;
use work_table::{Machine, Stepped};

/// The pool, the gate that may stop a lane, and what steps a lane over them.
#[derive(Drop)]
pub struct Environment<'a, G, F> {
    pub pool: &'a SharedPool,
    pub gate: &'a G,
    pub step: F,
}

impl<'a, G: Gate, F: Fn(&mut Lane) -> Result<Stepped, AllocError>> Machine<Environment<'a, G, F>>
    for Lane {
    ghost comes = { λ environment first lane.
        StepsLanes F.Fn environment.step (G.stops environment.gate.now) environment.pool.now
        × HasCome (G.stops environment.gate.now) environment.pool.now first lane };

    ghost finished = { IsFinished };

    fn step<R: Wait>(
        &mut self,
        _rt: &R,
        environment: &Environment<'a, G, F>,
    ) -> Result<Stepped, AllocError> {
        (environment.step)(self)
    }
}

/// Does the next thing that a lane has to do.
pub fn step_lane<R: Wait, G: Gate>(
    rt: &R,
    alloc: Global,
    pool: &SharedPool,
    gate: &G,
    lane: &mut Lane,
) -> Result<Stepped, AllocError>
    requires { IsLane pool.now lane.old }
    ensures came { HasCome (G.stops gate.now) pool.now lane.old lane.new }
    ensures finished { result ≡ Ok Stepped.Finished → IsFinished lane.new }
{
    let stepped = match lane.step(rt, alloc, pool, gate)? {
        lane_core::Stepped::Went => Stepped::Went,
        lane_core::Stepped::Pending(_) => Stepped::Pending,
        lane_core::Stepped::Waiting { from: _ } => Stepped::Waiting,
        lane_core::Stepped::Finished => Stepped::Finished,
    };
    Ok(stepped)
}
