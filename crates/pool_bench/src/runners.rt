//! How the runners are made from the seats of a pool, and how the seats are given back.

ghost use Rattle.std.specs.Prelude.{◌≡◌, ◌≤◌, [], map, vec_len, vec_capacity, IfOk, IfErr};

use crate::runner::{Apart, Runner};
use pool_law::RootId;
use shared_pool::PoolSeat;
use std::alloc::{AllocError, Global};

/// The memory for the work of one lane.
#[derive(Drop)]
pub struct LaneMemory {
    roots: Vec<RootId>,
    ghost root_room: { 512 ≤ vec_capacity roots },
}

/// The memory for the work of so many lanes.
pub fn memory_for(alloc: Global, lanes: u32) -> Result<Vec<LaneMemory>, AllocError>
    ensures { IfOk result (λ memory. vec_len memory ≡ lanes) }
{
    let mut memory = Vec::with_capacity(alloc, lanes as usize)?;
    for _made in 0..lanes {
        let roots = Vec::with_capacity(alloc, 512)?;
        memory.push_reserved(LaneMemory { roots });
    }
    Ok(memory)
}

/// A runner for each of these seats, in order, and the list that held them, emptied. Want of memory
/// gives the seats back.
pub fn runners_of(
    alloc: Global,
    mut seats: Vec<PoolSeat>,
    mut memory: Vec<LaneMemory>,
) -> Result<(Vec<Runner>, Vec<PoolSeat>), Vec<PoolSeat>>
    requires many { vec_len memory ≡ vec_len seats }
    ensures seats { IfOk result (λ r. map (λ q. q.seat) r.0.items ≡ seats.items) }
    ensures room { IfOk result (λ r.
        (r.1.items ≡ []) × (vec_len r.0 ≤ vec_capacity r.1)) }
    ensures err { IfErr result (λ back. back ≡ seats) }
{
    let count = seats.len();
    let Ok(mut runners) = Vec::with_capacity(alloc, count) else {
        return Err(seats);
    };
    for _made in 0..count {
        let seat = seats.remove(0);
        let LaneMemory { roots } = memory.remove(0);
        runners.push_reserved(Runner {
            seat,
            roots,
            apart: Apart::new(),
        });
    }
    Ok((runners, seats))
}

/// The seats of these runners, in order, in a list with room for them.
pub fn seats_of(mut runners: Vec<Runner>, mut seats: Vec<PoolSeat>) -> Vec<PoolSeat>
    requires empty { seats.items ≡ [] }
    requires room { vec_len runners ≤ vec_capacity seats }
    ensures { result.items ≡ map (λ q. q.seat) runners.items }
{
    for _taken in 0..runners.len() {
        let Runner {
            seat,
            roots: _,
            apart: _,
        } = runners.remove(0);
        seats.push_reserved(seat);
    }
    runners.destroy_empty();
    seats
}
