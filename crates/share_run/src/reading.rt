//! How readers read, and let go of what they read.

ghost use Rattle.std.specs.Prelude.{◌≡◌, ◌+◌, ◌<◌, ◌≤◌, true, All, IsTrue, OnOk, length, map, sum};
ghost use Rattle.pool_law.specs.Composites.{size_of};
ghost use Rattle.board_table.specs.Seats.{Counts};
ghost use Rattle.board_table.specs.Views.{released};
ghost use Rattle.shared_composite.specs.Boards.{view_of, IsSeatOf, IsPoolOf, parts_of};
ghost use Rattle.share_run.specs.Standing.{spent_by};
ghost use Rattle.share_run.specs.Reading.{AreSized, Covers, FitsWhole, HasRun, HaveRun, IsReady, Keeps, asked_in, seen_whole};

use crate::readers::Reader;
use board_table::Let;
use pool_law::Bytes;
use share_text::Seen;
use shared_composite::{Board, BoardSeat, Busy};
use shared_pool::SharedPool;
use std::alloc::Global;
use std::mem::replace;
use std::sync::Wait;
use std::thread::{Threads, for_each_mut, yield_now};

/// All readers at work, each on a thread of its own where one can be made.
pub fn run_all<R: Threads + Wait + Sync>(
    rt: &R,
    board: &Board,
    pool: &SharedPool,
    wholes: &[Bytes],
    readers: &mut [Reader],
)
    requires pool { IsPoolOf board.now pool.now }
    requires sizes { AreSized board.now wholes.now }
    requires ready { All (IsReady board.now wholes.now) readers.old }
    ensures { HaveRun board.now wholes.now readers.old readers.new }
{
    let threads = readers.len().max(1);
    for_each_mut(
        rt,
        readers,
        threads,
        &|_place, reader: &mut Reader|
            requires pool { IsPoolOf board.now pool.now }
            requires sizes { AreSized board.now wholes.now }
            requires ready { IsReady board.now wholes.now reader.now }
            ensures { HasRun board.entry.now wholes.entry.now reader.entry.now reader.exit.now }
        { run(rt, board, pool, wholes, reader) },
    );
}

// A reader at work: it reads each composite that it is to read, and lets go of all that it counts.
fn run<W: Wait>(rt: &W, board: &Board, pool: &SharedPool, wholes: &[Bytes], reader: &mut Reader)
    requires pool { IsPoolOf board.now pool.now }
    requires sizes { AreSized board.now wholes.now }
    requires ready { IsReady board.now wholes.now reader.old }
    ensures { HasRun board.now wholes.now reader.old reader.new }
{
    let Some(mut seat) = replace(&mut reader.seat, None) else {
        return;
    };
    let alloc = *reader.names.allocator();
    let mut turns = reader.turns;
    let seen = reader.seen.as_mut_slice();
    see_all(rt, alloc, board, pool, wholes, &mut seat, &mut turns, seen);
    let_go_all(rt, board, &mut seat, &reader.names);
    reader.seat = Some(seat);
}

// Makes all reads, each in a section of its own at least.
fn see_all<W: Wait>(
    rt: &W,
    alloc: Global,
    board: &Board,
    pool: &SharedPool,
    wholes: &[Bytes],
    seat: &mut BoardSeat,
    turns: &mut u64,
    seen: &mut [Seen],
)
    requires pool { IsPoolOf board.now pool.now }
    requires sizes { AreSized board.now wholes.now }
    requires fits { All (FitsWhole wholes.now) seen.old }
    requires own { IsSeatOf board.now seat.old }
    requires turns { (view_of seat.old).turns ≡ turns.old }
    requires counts { All (λ s. Counts s.composite (view_of seat.old)) seen.old }
    ensures seen { seen.new ≡ map (seen_whole wholes.now) (asked_in seen.old) }
    ensures kept { Keeps board.now seat.old seat.new }
    ensures sections { (view_of seat.new).turns + length seen.old ≤ (view_of seat.old).turns }
{
    for read in seen.iter_mut() {
        let whole = wholes[read.composite as usize].items();
        see(rt, alloc, board, pool, seat, turns, read, whole);
    }
}

// Makes a read.
fn see<W: Wait>(
    rt: &W,
    alloc: Global,
    board: &Board,
    pool: &SharedPool,
    seat: &mut BoardSeat,
    turns: &mut u64,
    read: &mut Seen,
    whole: &[u8],
)
    requires pool { IsPoolOf board.now pool.now }
    requires size { length whole.now ≡ size_of (parts_of board.now read.old.composite) }
    requires len { length read.old.bytes ≡ length whole.now }
    requires own { IsSeatOf board.now seat.old }
    requires turns { (view_of seat.old).turns ≡ turns.old }
    requires counts { Counts read.old.composite (view_of seat.old) }
    ensures composite { read.new.composite ≡ read.old.composite }
    ensures bytes { read.new.bytes ≡ whole.now }
    ensures kept { Keeps board.now seat.old seat.new }
    ensures turns { (view_of seat.new).turns ≡ turns.new }
    ensures section { turns.new < turns.old }
{
    let mut bytes = replace(&mut read.bytes, Bytes::of(Vec::new(alloc))).into_items();
    read_whole(
        rt,
        board,
        pool,
        seat,
        turns,
        read.composite,
        whole,
        bytes.as_mut_slice(),
    );
    read.bytes = Bytes::of(bytes);
}

// Reads the whole of a composite. A read that finds another seat is tried again while a turn is left,
// and so is one whose bytes are not those that were written, which is none. Without a turn it doesn't
// return.
fn read_whole<W: Wait>(
    rt: &W,
    board: &Board,
    pool: &SharedPool,
    seat: &mut BoardSeat,
    turns: &mut u64,
    k: u32,
    whole: &[u8],
    out: &mut [u8],
)
    requires pool { IsPoolOf board.now pool.now }
    requires size { length out.old ≤ size_of (parts_of board.now k) }
    requires own { IsSeatOf board.now seat.old }
    requires turns { (view_of seat.old).turns ≡ turns.old }
    requires counts { Counts k (view_of seat.old) }
    ensures read { out.new ≡ whole.now }
    ensures kept { Keeps board.now seat.old seat.new }
    ensures turns { (view_of seat.new).turns ≡ turns.new }
    ensures section { turns.new < turns.old }
{
    for _ in rt.forever() {
        if *turns > 0 && try_read(board, pool, seat, turns, k, out) && *out == *whole {
            return;
        }
        yield_now();
    }
    unreachable!()
}

// Tries to read the whole of a composite. False is that another seat was there.
fn try_read(
    board: &Board,
    pool: &SharedPool,
    seat: &mut BoardSeat,
    turns: &mut u64,
    k: u32,
    out: &mut [u8],
) -> bool
    requires pool { IsPoolOf board.now pool.now }
    requires size { length out.old ≤ size_of (parts_of board.now k) }
    requires own { IsSeatOf board.now seat.old }
    requires turn { 0 < turns.old }
    requires turns { (view_of seat.old).turns ≡ turns.old }
    requires counts { Counts k (view_of seat.old) }
    ensures len { length out.new ≡ length out.old }
    ensures kept { Keeps board.now seat.old seat.new }
    ensures turns { (view_of seat.new).turns ≡ turns.new }
    ensures no_more { turns.new ≤ turns.old }
    ensures section { IsTrue result → turns.new < turns.old }
{
    match board.read(pool, seat, k, 0, out) {
        Ok(_number) => {
            *turns -= 1;
            true
        }
        Err(Busy::Board { .. }) => false,
        Err(Busy::Pool(_held)) => {
            *turns -= 1;
            false
        }
    }
}

// Lets go of composites.
fn let_go_all<W: Wait>(rt: &W, board: &Board, seat: &mut BoardSeat, names: &[u32])
    requires own { IsSeatOf board.now seat.old }
    requires counts { Covers names.now (view_of seat.old) }
    ensures own { IsSeatOf board.now seat.new }
    ensures spent { spent_by seat.new ≡ spent_by seat.old }
{
    for k in names {
        let_go(rt, board, seat, *k);
    }
}

// Lets go of a composite. The first seat counts each until all readers have ended, so that none of
// them ends one; no contract of one call says what other seats count.
fn let_go<W: Wait>(rt: &W, board: &Board, seat: &mut BoardSeat, k: u32)
    requires own { IsSeatOf board.now seat.old }
    requires counts { Counts k (view_of seat.old) }
    ensures own { IsSeatOf board.now seat.new }
    ensures let_go { view_of seat.new ≡ released k (view_of seat.old) }
{
    match board.release(seat, k) {
        Let::Kept => {}
        Let::Ended(_mark) => {
            for _ in rt.forever() {
                yield_now();
            }
            unreachable!()
        }
    }
}
