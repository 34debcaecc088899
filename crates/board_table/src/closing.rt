//! The close: the home values come out of the table.

ghost use Rattle.std.specs.Prelude.{◌≡◌, ℕ, ◌<◌, ◌≤◌, [], length, false, vec_capacity, slice_index_or};
ghost use lib.ListN.{get_elem?};
ghost use Rattle.std.specs.Mem.Slots.{slots_items, slots_filled, slots_len, IsFull};
ghost use Rattle.board_table.specs.Seats.{opening_of, view_of, IsSeatOf, IsOutside};
ghost use Rattle.board_table.specs.Closed.{HasAll, AreClosed};

use crate::rule::Homed;
use crate::table::{BoardSeat, BoardTable};
use atomic_table::Closed;
use std::alloc::Global;

impl<T, H: Homed<T>> BoardTable<H, T> {
    /// The slots in order, in the vector that is given, each with the home value of its composite, or
    /// empty where the seat took it. The seat has all sections and turns, so no section is open.
    pub fn close(self, seat: BoardSeat<H>, slots: Vec<Option<H>>) -> Vec<Option<H>>
        requires own { IsSeatOf self seat }
        requires outside { IsOutside seat }
        requires all { HasAll (opening_of self) (view_of seat) }
        requires room { (slots.items ≡ []) × (self.composites ≤ vec_capacity slots) }
        ensures { AreClosed H.stands (opening_of self) (view_of seat) result.items }
    {
        let BoardTable { table, composites } = self;
        let BoardSeat { seat } = seat;
        let mut closed = table.close_with(seat);
        let slots = take_homes(&mut closed, composites, slots);
        closed.free();
        slots
    }
}

// The slots of a closed table in order, into a vector that has room.
fn take_homes<H>(
    closed: &mut Closed<Option<H>, Global>,
    composites: u32,
    mut slots: Vec<Option<H>>,
) -> Vec<Option<H>>
    requires full { IsFull closed.old.slots × (slots_len closed.old.slots ≡ composites) }
    requires room { (slots.items ≡ []) × (composites ≤ vec_capacity slots) }
    ensures many { length result.items ≡ composites }
    ensures laid { (k : ℕ) → k < composites →
        get_elem? result.items k ≡ get_elem? (slots_items closed.old.slots) k }
    ensures empty { (k : ℕ) → k < slots_len closed.new.slots →
        slice_index_or (slots_filled closed.new.slots) k false ≡ false }
{
    for k in 0..composites {
        let pushed = slots.push(closed.take(k as usize));
        let Ok(()) = pushed else { unreachable!() };
    }
    slots
}
