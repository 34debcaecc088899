//! What a seat of a board does with the board's first composite.

ghost use Rattle.std.specs.Prelude.{◌≡◌, ◌+◌, ◌≤◌, IfSome};
ghost use Rattle.shared_composite.specs.Boards.{IsPoolOf, view_of};
ghost use Rattle.shared_composite.specs.Cores.{IsUnderway};
ghost use Rattle.board_cases.specs.Seats.{Can, Goes, Stays, used};

use shared_composite::{Board, BoardSeat, Core, Let};
use shared_pool::SharedPool;
use std::process::Abort;

// Retains the composite, and hands the new count on, with so many turns.
pub(crate) fn hand_on(board: &Board, seat: &mut BoardSeat, turns: u64) -> BoardSeat
    requires { Can board.now 1 turns seat.old }
    ensures stays { Stays board.now 1 turns seat.old seat.new }
    ensures handed { Can board.now 0 turns result }
    ensures used { used seat.new + used result ≡ used seat.old }
{
    board.retain(seat, 0);
    board.hand(seat, 0, turns)
}

// Takes back what another seat has, and lets one of the counts go. The seat itself counts the
// composite still, so that this is not the last.
pub(crate) fn take_back<R: Abort>(rt: &R, board: &Board, seat: &mut BoardSeat, other: BoardSeat)
    requires can { Can board.now 0 0 seat.old }
    requires other { Can board.now 0 0 other }
    ensures stays { Stays board.now 0 0 seat.old seat.new }
    ensures turns { (view_of seat.old).turns + (view_of other).turns ≤ (view_of seat.new).turns }
    ensures used { used seat.new ≡ used seat.old + used other }
{
    board.join(seat, other);
    match board.release(seat, 0) {
        Let::Kept => (),
        Let::Ended(_mark) => panic!(rt; "the seat counts it still"),
    }
}

// Lets the composite go. Who ends it takes its core.
pub(crate) fn let_go(board: &Board, pool: &SharedPool, seat: &mut BoardSeat) -> Option<Core>
    requires can { Can board.now 0 1 seat.old }
    requires pool { IsPoolOf board.now pool.now }
    ensures goes { Goes board.now seat.old seat.new }
    ensures core { IfSome result (IsUnderway pool.now) }
{
    match board.release(seat, 0) {
        Let::Kept => None,
        Let::Ended(mark) => Some(board.take_core(seat, mark)),
    }
}
