//! How the composites end: their cores are taken, and their components released.

ghost use Rattle.std.specs.Prelude.{◌≡◌, ◌+◌, ◌<◌, ◌≤◌, [], length, map, vec_capacity, vec_len, slice_index_or};
ghost use Rattle.shared_composite.specs.Boards.{IsAtHome};
ghost use Rattle.shared_composite.specs.Cores.{IsOver};
ghost use Rattle.share_run.specs.declared.openings.TheConstants.{BOARD_TURNS};
ghost use Rattle.share_run.specs.Standing.{AreSpent, IsBoardOf, IsChief, IsCoreOf, IsEnding, spent_by};

use board_table::Let;
use lane_stages::Stepped;
use pool_law::Bytes;
use share_text::Parts;
use shared_composite::{Board, BoardSeat, Core};
use shared_pool::{PoolSeat, SharedPool};
use std::alloc::{AllocError, Global};
use std::sync::Wait;
use std::thread::yield_now;

/// Ends all composites, releases their components, and closes the board. The seats of the cores go into
/// their list, and how many components were released of each into the other.
pub fn end_all<W: Wait>(
    rt: &W,
    pool: &SharedPool,
    board: Board,
    mut chief: BoardSeat,
    composites: &[Parts],
    seats: &mut Vec<PoolSeat>,
    released: &mut Vec<u32>,
)
    requires board { IsBoardOf board pool.now composites.now }
    requires chief { IsChief board (length composites.now) 0 chief }
    requires spent { spent_by chief ≡ BOARD_TURNS }
    requires seats { (seats.old.items ≡ []) × (length composites.now ≤ vec_capacity seats.old) }
    requires released { (released.old.items ≡ [])
        × (length composites.now ≤ vec_capacity released.old) }
    ensures seats { AreSpent pool.now seats.new.items }
    ensures many { vec_len seats.new ≡ length composites.now }
    ensures released { released.new.items ≡ map length composites.now }
{
    let many = composites.len() as u32;
    for k in 0..many {
        let core = end(rt, &board, &mut chief, many, k);
        let core = finish(rt, pool, core, k, composites[k as usize].items());
        released.push_reserved(core.released());
        seats.push_reserved(core.into_seat());
    }
    board.close(chief).destroy_empty();
}

// Ends a composite, which no reader counts any more, and takes its core. No contract of one call says
// what other seats count.
fn end<W: Wait>(rt: &W, board: &Board, chief: &mut BoardSeat, many: u32, k: u32) -> Core
    requires chief { IsChief board.now many k chief.old }
    requires k { k < many }
    ensures chief { IsChief board.now many (k + 1) chief.new }
    ensures core { IsAtHome board.now k result }
    ensures spent { spent_by chief.new ≡ spent_by chief.old }
{
    let _ = many;
    match board.release(chief, k) {
        Let::Ended(mark) => board.take_core(chief, mark),
        Let::Kept => {
            for _ in rt.forever() {
                yield_now();
            }
            unreachable!()
        }
    }
}

// Steps a core until its components are released.
fn finish<W: Wait>(rt: &W, pool: &SharedPool, mut core: Core, lane: u32, parts: &[Bytes]) -> Core
    requires { IsCoreOf pool.now lane parts.now core }
    ensures core { IsEnding pool.now lane parts.now result }
    ensures over { IsOver result }
    ensures released { result.next ≡ length parts.now }
{
    let _ = lane;
    let _ = parts;
    for _ in rt.forever() {
        match core.step(pool) {
            Stepped::Finished => return core,
            Stepped::Went => {}
            Stepped::Pending(_held) => yield_now(),
            Stepped::Waiting { from: _sender } => yield_now(),
        }
    }
    unreachable!()
}

/// Closes the pool, in which nothing is live: the close tells of each live root that is watched.
pub fn close<W: Wait>(
    rt: &W,
    alloc: Global,
    pool: SharedPool,
    seats: Vec<PoolSeat>,
) -> Result<(), AllocError>
    requires many { vec_len seats ≡ pool.table.layout.shape.lanes }
    requires seats { AreSpent pool seats.items }
{
    match pool.close(rt, alloc, seats) {
        Ok(end) => {
            let none_live = end.live.items().is_empty();
            prove!(none_live);
            Ok(())
        }
        Err((pool, seats)) => {
            pool.abandon(seats);
            Err(AllocError)
        }
    }
}
