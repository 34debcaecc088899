//! The cores of all composites of an input.

ghost use Rattle.std.specs.Prelude.{◌≡◌, ◌≤◌, ◌+◌, [], All, IfOk, OnErr, length, vec_capacity, vec_len};
ghost use Rattle.pool_law.specs.Limits.{geometry_of};
ghost use Rattle.shared_pool.specs.declared.pool.SharedPool.{SharedPool};
ghost use Rattle.shared_pool.specs.Seats.{IsPoolSeat};
ghost use Rattle.share_run.specs.Standing.{AreFresh, AreCoresOf, IsBounded};

use crate::parts::fill;
use share_text::Parts;
use shared_composite::Core;
use shared_pool::{PoolSeat, SharedPool};
use size_classes::SizeClasses;
use std::alloc::{AllocError, Global};
use std::sync::Wait;

/// A core for each composite, in order, each with the seat of its number. Err is want of memory;
/// then all seats are in their list, and may count some roots.
pub fn make_cores<W: Wait>(
    rt: &W,
    alloc: Global,
    pool: &SharedPool,
    seats: &mut Vec<PoolSeat>,
    sizes: &SizeClasses,
    composites: &[Parts],
) -> Result<Vec<Core>, AllocError>
    requires sizes { sizes.now ≡ geometry_of pool.now.table.layout.shape }
    requires fresh { AreFresh pool.now 0 seats.old.items }
    requires many { vec_len seats.old ≡ length composites.now }
    requires few { length composites.now ≤ 16 }
    requires parts { All IsBounded composites.now }
    ensures ok { IfOk result (λ cores. AreCoresOf pool.now composites.now cores.items
        × (seats.new.items ≡ [])) }
    ensures err { OnErr result (All (IsPoolSeat pool.now) seats.new.items) }
    ensures room { vec_capacity seats.new ≡ vec_capacity seats.old }
{
    let mut cores = Vec::with_capacity(alloc, composites.len())?;
    for lane in 0..composites.len() {
        let mut seat = seats.remove(0);
        match fill(
            rt,
            alloc,
            pool,
            &mut seat,
            sizes,
            lane as u32,
            composites[lane].items(),
        ) {
            Some(parts) => cores.push_reserved(Core::new(seat, parts)),
            None => {
                seats.push_reserved(seat);
                give_up(cores, seats);
                return Err(AllocError);
            }
        }
    }
    Ok(cores)
}

/// Spends cores, and puts their seats behind others, where there is room for them.
pub fn give_up(mut cores: Vec<Core>, seats: &mut Vec<PoolSeat>)
    requires { vec_len seats.old + vec_len cores ≤ vec_capacity seats.old }
    ensures all { (pool : SharedPool) → All (IsPoolSeat pool) seats.old.items →
        All (λ c. IsPoolSeat pool c.seat) cores.items → All (IsPoolSeat pool) seats.new.items }
    ensures room { vec_capacity seats.new ≡ vec_capacity seats.old }
{
    while let Some(core) = cores.pop() {
        seats.push_reserved(core.leave());
    }
    cores.destroy_empty();
}
