//! A board and its seats.

ghost use Rattle.std.specs.Prelude.{◌≡◌, ◌≤◌, [], vec_capacity};

use crate::cores::Core;
use crate::home::{Home, Origin};
use board_table::BoardTable;
use std::mem::ManuallyDrop;

/// The board of 1 to 16 composites that many threads share, each with a seat. It must be spent, by
/// `close`.
pub struct Board {
    pub(crate) table: BoardTable<Home, Origin>,
    // The vector of slots and that of cores, empty, for the close.
    pub(crate) slots: Vec<Option<Home>>,
    pub(crate) cores: Vec<Core>,
    ghost room_for_slots: { (slots.items ≡ []) × (table.composites ≤ vec_capacity slots) },
    ghost room_for_cores: { (cores.items ≡ []) × (table.composites ≤ vec_capacity cores) },
}

/// The pass with which one thread works on a board: it counts composites, and has end marks, moves and
/// turns. What a seat has that is dropped, no other seat gets.
pub struct BoardSeat {
    pub(crate) seat: board_table::BoardSeat<Home>,
}

impl Drop for BoardSeat {
    // A seat has nothing that is to be freed.
    fn drop(self) {
        let BoardSeat { seat } = self;
        let _seat = unsafe { ManuallyDrop::new_unchecked(seat) };
    }
}

impl BoardSeat {
    // The seat of the board's table.
    pub(crate) fn into_seat(self) -> board_table::BoardSeat<Home>
        ensures { result ≡ self.seat }
    {
        let BoardSeat { seat } = self;
        seat
    }
}
