//! The close of a board: its cores come out of their slots.

ghost use Rattle.std.specs.Prelude.{◌≡◌, ◌+◌, ◌≤◌, ◌++◌, length, vec_capacity};
ghost use Rattle.board_table.specs.Seats as table;
ghost use Rattle.board_table.specs.Closed.{HasAll};
ghost use Rattle.shared_composite.specs.Homes.{cores_in};
ghost use Rattle.shared_composite.specs.Boards.{view_of, IsSeatOf, AreLeft};

use crate::board::{Board, BoardSeat};
use crate::cores::Core;
use crate::home::Home;

impl Board {
    /// The cores that the seat didn't take, in order, in the vector that the board was made from. The
    /// seat has all turns and sections of the board, its own and those of seats that were joined into
    /// it, so no other seat is in a section.
    pub fn close(self, seat: BoardSeat) -> Vec<Core>
        requires own { IsSeatOf self seat }
        requires all { HasAll (table.opening_of self.table) (view_of seat) }
        ensures { AreLeft self (view_of seat) result.items }
    {
        let Board {
            table,
            slots,
            mut cores,
        } = self;
        let slots = table.close(seat.into_seat(), slots);
        unboxed(slots, &mut cores);
        cores
    }
}

// Puts the cores of these slots behind others, in order, where there is room for them.
pub(crate) fn unboxed(mut slots: Vec<Option<Home>>, cores: &mut Vec<Core>)
    requires { length cores.old.items + length (cores_in slots.items) ≤ vec_capacity cores.old }
    ensures { cores.new.items ≡ cores.old.items ++ cores_in slots.items }
{
    slots.as_mut_slice().reverse();
    while let Some(slot) = slots.pop() {
        if let Some(Home { core }) = slot {
            let pushed = cores.push(Box::into_inner(core));
            let Ok(()) = pushed else { unreachable!() };
        }
    }
    slots.destroy_empty();
}
