//! Two threads use one composite at once, and the last of them to let it go ends it.

ghost use Rattle.std.specs.Prelude.{◌≡◌, ◌+◌, ◌⊎◌, IfSome};
ghost use Rattle.shared_composite.specs.Boards.{IsSeatOf};
ghost use Rattle.shared_composite.specs.Cores.{IsUnderway};
ghost use Rattle.board_cases.specs.Seats.{Can, Goes, Stays, used};
ghost use Rattle.board_cases.specs.Texts.{Shows};

use crate::cores::TEXT;
use crate::seats::{hand_on, let_go, take_back};
use shared_composite::{Board, BoardSeat, Busy, Core};
use shared_pool::SharedPool;
use std::process::Abort;
use std::sync::Wait;
use std::thread::{Threads, join_mut, yield_now};

// How many reads each of two threads makes. It has a turn for each, and one for the core, which it
// takes if it ends the composite.
pub(crate) const READS: u32 = 128;

// The number of the last section before theirs, and of the last one that either makes.
const BEFORE: u64 = 2;

const LAST: u64 = BEFORE + 2 * READS as u64;

// Reads the composite in a later section than the last one, again where the other thread is in its
// section. The answer is the number of its own section.
fn read_once<R: Abort + Wait>(
    rt: &R,
    board: &Board,
    pool: &SharedPool,
    seat: &mut BoardSeat,
    last: u64,
) -> u64
    requires shows { Shows pool.now board.now }
    requires can { Can board.now 0 1 seat.old }
    ensures stays { Stays board.now 0 1 seat.old seat.new }
    ensures used { used seat.new ≡ used seat.old }
{
    for _ in rt.forever() {
        let mut out = [0u8; 6];
        match board.read(pool, seat, 0, 0, &mut out) {
            Ok(number) => {
                assert!(rt; out == TEXT && last < number && number <= LAST);
                return number;
            }
            Err(
                Busy::Board {
                    composite,
                    number: _,
                },
            ) => {
                assert!(rt; composite == 0);
                yield_now();
            }
            Err(Busy::Pool(_)) => panic!(rt; "no other seat of the pool is there"),
        }
    }
    unreachable!()
}

// Reads the composite often, each time in a later section, and lets it go.
fn reads<R: Abort + Wait>(
    rt: &R,
    board: &Board,
    pool: &SharedPool,
    seat: &mut BoardSeat,
) -> Option<Core>
    requires shows { Shows pool.now board.now }
    requires can { Can board.now 0 129 seat.old }
    ensures goes { Goes board.now seat.old seat.new }
    ensures core { IfSome result (IsUnderway pool.now) }
{
    let mut last = BEFORE;
    for _round in 0..READS {
        let number = read_once(rt, board, pool, seat, last);
        last = number;
    }
    let_go(board, pool, seat)
}

// One count more goes to a seat of its own and comes back.
fn passes_once<R: Abort>(rt: &R, board: &Board, seat: &mut BoardSeat)
    requires { Can board.now 1 1 seat.old }
    ensures stays { Stays board.now 1 0 seat.old seat.new }
    ensures used { used seat.new ≡ used seat.old }
{
    let other = hand_on(board, seat, 1);
    take_back(rt, board, seat, other);
}

// Reads it as often, passes a count to and fro behind each read, and lets it go.
fn mixes<R: Abort + Wait>(
    rt: &R,
    board: &Board,
    pool: &SharedPool,
    seat: &mut BoardSeat,
) -> Option<Core>
    requires shows { Shows pool.now board.now }
    requires can { Can board.now 128 129 seat.old }
    ensures goes { Goes board.now seat.old seat.new }
    ensures core { IfSome result (IsUnderway pool.now) }
{
    let mut last = BEFORE;
    for _round in 0..READS {
        let number = read_once(rt, board, pool, seat, last);
        passes_once(rt, board, seat);
        last = number;
    }
    let_go(board, pool, seat)
}

// The core that one of two has.
fn one_of<R: Abort>(rt: &R, one: Option<Core>, other: Option<Core>) -> Option<Core>
    ensures { (result ≡ one) ⊎ (result ≡ other) }
{
    match one {
        None => other,
        Some(core) => match other {
            None => Some(core),
            Some(_second) => panic!(rt; "it ended twice"),
        },
    }
}

// Two threads read, and one of them passes counts to and fro. The core, which one of them took.
pub(crate) fn race<R: Threads + Abort + Wait + Sync>(
    rt: &R,
    board: &Board,
    pool: &SharedPool,
    one: &mut BoardSeat,
    other: &mut BoardSeat,
) -> Option<Core>
    requires shows { Shows pool.now board.now }
    requires can { Can board.now 0 129 one.old × Can board.now 128 129 other.old }
    ensures one { Goes board.now one.old one.new }
    ensures other { Goes board.now other.old other.new }
    ensures core { IfSome result (IsUnderway pool.now) }
{
    let (a, b) = join_mut(
        rt,
        &mut || reads(rt, board, pool, one),
        &mut || mixes(rt, board, pool, other),
    );
    one_of(rt, a, b)
}

// The seat gets what another one has.
pub(crate) fn join_one(board: &Board, seat: &mut BoardSeat, other: BoardSeat)
    requires own { IsSeatOf board.now seat.old }
    requires other { IsSeatOf board.now other }
    ensures own { IsSeatOf board.now seat.new }
    ensures used { used seat.new ≡ used seat.old + used other }
{
    board.join(seat, other);
}
