//! A board's whole life: on one thread, then on two, and on one again.

ghost use Rattle.std.specs.Prelude.{◌≡◌, ◌<◌, ◌≤◌, [], All, length, vec_capacity};
ghost use Rattle.pool_law.specs.Limits.{geometry_of};
ghost use Rattle.seat_work.specs.Hands.{empty_hand};
ghost use Rattle.seat_work.specs.Works.{Works};
ghost use Rattle.shared_composite.specs.Cores.{IsEmptied};
ghost use Rattle.board_cases.specs.Seats.{Can, Stays, used};
ghost use Rattle.board_cases.specs.Texts.{IsText, Shows};

use crate::cores::{Opened, close, core, open, open_board, stepped_out};
use crate::races::{READS, join_one, race};
use crate::seats::hand_on;
use shared_composite::{Board, BoardSeat, Core};
use shared_pool::{PoolSeat, SharedPool};
use size_classes::SizeClasses;
use std::alloc::Global;
use std::process::Abort;
use std::sync::Wait;
use std::test::Fail;

// A move for the seat that is handed on, and one for each count that a thread passes on.
const MOVES: u32 = 1 + READS;

// The turns of each of two threads: for its first read, for those of the race, and for the core.
const TURNS: u64 = 130;

// A core of each of these seats.
fn both_cores<R: Abort + Wait>(
    rt: &R,
    alloc: Global,
    pool: &SharedPool,
    sizes: &SizeClasses,
    first: PoolSeat,
    second: PoolSeat,
    mut cores: Vec<Core>,
) -> Vec<Core>
    requires sizes { sizes.now ≡ geometry_of pool.now.table.layout.shape }
    requires works { Works pool.now empty_hand 10000 8 first
        × Works pool.now empty_hand 10000 8 second }
    requires emptied { IsEmptied pool.now first × IsEmptied pool.now second }
    requires cores { (cores.items ≡ []) × (2 ≤ vec_capacity cores) }
    ensures some { 0 < length result.items }
    ensures many { length result.items ≤ 16 }
    ensures texts { All (IsText pool.now) result.items }
{
    cores.push_reserved(core(rt, alloc, pool, sizes, first));
    cores.push_reserved(core(rt, alloc, pool, sizes, second));
    cores
}

// Reads from the middle of the composite's first part into its third one, in the section of this
// number.
pub(crate) fn read_middle<R: Abort>(
    rt: &R,
    board: &Board,
    pool: &SharedPool,
    seat: &mut BoardSeat,
    want: u64,
)
    requires shows { Shows pool.now board.now }
    requires can { Can board.now 0 1 seat.old }
    ensures stays { Stays board.now 0 1 seat.old seat.new }
    ensures used { used seat.new ≡ used seat.old }
{
    let mut out = [0u8; 3];
    match board.read(pool, seat, 0, 2, &mut out) {
        Ok(number) => assert!(rt; number == want && out == *b"rdb"),
        Err(_busy) => panic!(rt; "nobody is there"),
    }
}

#[test]
fn a_board_lives_until_one_of_two_threads_ends_it(rt: HostRuntime) -> Result<(), Fail> {
    let alloc = rt.alloc();
    let Opened {
        pool,
        first,
        second,
        spare,
        cores,
        sizes,
    } = open(alloc)?;
    let cores = both_cores(&rt, alloc, &pool, &sizes, first, second, cores);
    let (board, mut seat) = open_board(&rt, &pool, alloc, MOVES, 2 * TURNS, cores);
    let mut other = hand_on(&board, &mut seat, TURNS);
    read_middle(&rt, &board, &pool, &mut other, 1);
    read_middle(&rt, &board, &pool, &mut seat, 2);
    let Some(ended) = race(&rt, &board, &pool, &mut other, &mut seat) else {
        panic!(rt; "it ended")
    };
    join_one(&board, &mut seat, other);
    let mut cores = board.close(seat);
    let Some(left) = cores.pop() else {
        panic!(rt; "one core was not taken")
    };
    assert!(rt; cores.is_empty());
    cores.destroy_empty();
    let first = stepped_out(&rt, &pool, ended);
    let second = stepped_out(&rt, &pool, left);
    close(&rt, alloc, pool, first, second, spare);
    Ok(())
}
