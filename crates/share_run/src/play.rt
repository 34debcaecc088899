//! The play of an input: its composites in a pool, its readers on threads, and their text.

ghost use Rattle.std.specs.Prelude.{◌≡◌, ◌≤◌, [], All, IfErr, IfOk, OnOk, length, map, vec_capacity, vec_len};
ghost use Rattle.std.specs.List.{concat};
ghost use Rattle.board_table.specs.Views.{first_view};
ghost use Rattle.shared_composite.specs.Boards.{HasView, IsSeatOf};
ghost use Rattle.shared_pool.specs.declared.pool.SharedPool.{SharedPool};
ghost use Rattle.share_text.specs.Inputs.{IsFew, IsInput, composite_limit, read_count, read_limit, reader_limit};
ghost use Rattle.share_text.specs.Lines.{seen_of, text_of};
ghost use Rattle.share_run.specs.declared.openings.TheConstants.{BOARD_MOVES, BOARD_TURNS};
ghost use Rattle.share_run.specs.Standing.{AreBounded, AreSpent, AreCoresOf, IsBoardOf};
ghost use Rattle.share_run.specs.Reading.{AreBlank, HaveSeen, asked_of};

use crate::closing::{close, end_all};
use crate::cores::{give_up, make_cores};
use crate::dealing::{deal_all, gather};
use crate::openings::{BOARD_MOVES, BOARD_TURNS, ORDER, open};
use crate::readers::{Reader, readers_of};
use crate::reading::run_all;
use crate::wholes::wholes_of;
use pool_law::Bytes;
use share_text::{Input, Parts, SeenList, text_with};
use shared_composite::{Board, BoardSeat, Core};
use shared_pool::{PoolSeat, SharedPool};
use size_classes::{DEFAULT_PAGE, SizeClasses};
use std::alloc::{AllocError, Global};
use std::sync::Wait;
use std::thread::Threads;

/// Plays an input, and answers its text.
pub fn play<R: Threads + Wait + Sync>(
    rt: &R,
    alloc: Global,
    input: &Input,
) -> Result<Bytes, AllocError>
    requires { IsInput input.now }
    ensures { IfOk result (λ text. text ≡ text_of input.now) }
{
    let composites = input.composites.items();
    let wholes = wholes_of(alloc, composites)?;
    let mut readers = readers_of(alloc, &wholes, input.readers.items())?;
    let mut released = Vec::with_capacity(alloc, composites.len())?;
    let slice = readers.as_mut_slice();
    play_in_pool(rt, alloc, composites, &wholes, slice, &mut released)?;
    let seen = seen_by(alloc, readers)?;
    text_with(alloc, &seen, &released)
}

// What the readers saw, reader by reader.
fn seen_by(alloc: Global, readers: Vec<Reader>) -> Result<Vec<SeenList>, AllocError>
    ensures { IfOk result (λ seen. seen.items ≡ map (λ r. r.seen.items) readers.items) }
{
    let mut seen = Vec::with_capacity(alloc, readers.len())?;
    for reader in readers {
        seen.push_reserved(SeenList::of(reader.seen));
    }
    Ok(seen)
}

// Has the readers read composites in a pool of their own, which is closed then.
fn play_in_pool<R: Threads + Wait + Sync>(
    rt: &R,
    alloc: Global,
    composites: &[Parts],
    wholes: &[Bytes],
    readers: &mut [Reader],
    released: &mut Vec<u32>,
) -> Result<(), AllocError>
    requires composites { IsFew composite_limit composites.now }
    requires bounded { AreBounded composites.now }
    requires wholes { wholes.now ≡ map concat composites.now }
    requires readers { IsFew reader_limit readers.old }
    requires few { read_count (asked_of readers.old) ≤ read_limit }
    requires blank { AreBlank wholes.now readers.old }
    requires room { (released.old.items ≡ [])
        × (length composites.now ≤ vec_capacity released.old) }
    ensures seen { OnOk result (HaveSeen composites.now readers.old readers.new) }
    ensures released { OnOk result (released.new.items ≡ map length composites.now) }
{
    let sizes = SizeClasses::new(alloc, ORDER, DEFAULT_PAGE)?;
    let (pool, mut seats) = open(alloc, composites.len() as u32)?;
    match make_cores(rt, alloc, &pool, &mut seats, &sizes, composites) {
        Ok(cores) => match board_of(alloc, &pool, composites, cores) {
            Ok((board, chief)) => {
                meet(
                    rt, alloc, &pool, board, chief, &mut seats, composites, wholes, readers,
                    released,
                );
                close(rt, alloc, pool, seats)
            }
            Err(cores) => {
                give_up(cores, &mut seats);
                pool.abandon(seats);
                Err(AllocError)
            }
        },
        Err(AllocError) => {
            pool.abandon(seats);
            Err(AllocError)
        }
    }
}

// The board of the cores of composites in a pool, with its first seat. Err is want of memory; then the
// cores come back.
fn board_of(
    alloc: Global,
    pool: &SharedPool,
    composites: &[Parts],
    cores: Vec<Core>,
) -> Result<(Board, BoardSeat), Vec<Core>>
    ghost here: { SharedPool }
    requires same { here ≡ pool.now }
    requires few { IsFew composite_limit composites.now }
    requires cores { AreCoresOf pool.now composites.now cores.items }
    ensures board { IfOk result (λ r. IsBoardOf r.0 pool.now composites.now) }
    ensures own { IfOk result (λ r. IsSeatOf r.0 r.1) }
    ensures view { IfOk result (λ r.
        HasView r.1 (first_view (length composites.now) BOARD_MOVES BOARD_TURNS)) }
    ensures err { IfErr result (λ back. back.items ≡ cores.items) }
{
    let _ = pool;
    let _ = composites;
    Board::new(alloc, BOARD_MOVES, BOARD_TURNS, cores)
}

// Has the readers meet at a board, and releases what they read.
fn meet<R: Threads + Wait + Sync>(
    rt: &R,
    alloc: Global,
    pool: &SharedPool,
    board: Board,
    mut chief: BoardSeat,
    seats: &mut Vec<PoolSeat>,
    composites: &[Parts],
    wholes: &[Bytes],
    readers: &mut [Reader],
    released: &mut Vec<u32>,
)
    requires board { IsBoardOf board pool.now composites.now }
    requires few { IsFew composite_limit composites.now }
    requires own { IsSeatOf board chief }
    requires view { HasView chief (first_view (length composites.now) BOARD_MOVES BOARD_TURNS) }
    requires seats { (seats.old.items ≡ []) × (length composites.now ≤ vec_capacity seats.old) }
    requires wholes { wholes.now ≡ map concat composites.now }
    requires readers { IsFew reader_limit readers.old }
    requires few_reads { read_count (asked_of readers.old) ≤ read_limit }
    requires blank { AreBlank wholes.now readers.old }
    requires room { (released.old.items ≡ [])
        × (length composites.now ≤ vec_capacity released.old) }
    ensures seats { AreSpent pool.now seats.new.items }
    ensures many { vec_len seats.new ≡ length composites.now }
    ensures seen { HaveSeen composites.now readers.old readers.new }
    ensures released { released.new.items ≡ map length composites.now }
{
    let many = composites.len() as u32;
    let share = (BOARD_TURNS - u64::from(many)) / readers.len() as u64;
    deal_all(&board, &mut chief, many, wholes, share, readers);
    run_all(rt, &board, pool, wholes, readers);
    gather(&board, &mut chief, many, readers);
    end_all(rt, pool, board, chief, composites, seats, released);
}
