//! How the lanes of a trace are made, and how their seats are given back.
ghost use Rattle.std.specs.Prelude.{◌≡◌, ℕ, ◌+◌, ◌≤◌, Bool, [], vec_len, vec_capacity, IfOk, IfErr};
ghost use Rattle.trace_top.specs.Standing.{AllOf, AllRun, AreLanes, AreReady};

use lane_core::Lane;
use pool_law::{CommandList, Shape};
use shared_pool::{PoolSeat, SharedPool};
use std::alloc::Global;

/// The lanes of a trace, by number, and the list that held their seats, emptied. Want of memory
/// gives the seats back.
pub fn all_lanes(
    alloc: Global,
    pool: &SharedPool,
    shape: &Shape,
    mut trace: Vec<CommandList>,
    mut seats: Vec<PoolSeat>,
) -> Result<(Vec<Lane>, Vec<PoolSeat>), Vec<PoolSeat>>
    requires count { vec_len seats ≡ vec_len trace }
    requires ready { AreReady pool.now shape.now trace.items seats.items }
    ensures count { IfOk result (λ r. vec_len r.0 ≡ vec_len trace) }
    // No gate was asked, and so any was heeded.
    ensures lanes { IfOk result (λ r. (stops : ℕ → ℕ → Bool) →
        AllRun trace.items stops pool.now r.0.items) }
    ensures room { IfOk result
        (λ r. (r.1.items ≡ []) × (vec_len trace ≤ vec_capacity r.1)) }
    ensures err { IfErr result (λ back. AllOf pool.now back.items) }
{
    let count = trace.len();
    let Ok(mut lanes) = Vec::with_capacity(alloc, count) else {
        return Err(seats);
    };
    for _i in 0..count {
        let commands = trace.remove(0);
        let seat = seats.remove(0);
        match Lane::new(alloc, commands, shape, seat) {
            Ok(lane) => lanes.push_reserved(lane),
            Err((_, seat)) => {
                seats.push_reserved(seat);
                return Err(given_back(pool, lanes, seats));
            }
        }
    }
    Ok((lanes, seats))
}

/// These seats with those of the lanes.
pub fn given_back(
    pool: &SharedPool,
    mut lanes: Vec<Lane>,
    mut seats: Vec<PoolSeat>,
) -> Vec<PoolSeat>
    requires room { vec_len lanes + vec_len seats ≤ vec_capacity seats }
    requires lanes { AreLanes pool.now lanes.items }
    requires seats { AllOf pool.now seats.items }
    ensures seats { AllOf pool.now result.items }
{
    while let Some(lane) = lanes.pop() {
        seats.push_reserved(lane.abandon());
    }
    lanes.destroy_empty();
    seats
}
