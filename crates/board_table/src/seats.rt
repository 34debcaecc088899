//! Seats: how a count and turns are handed on, and how two seats are joined. No step here changes a
//! word.

ghost use Rattle.std.specs.Prelude.{◌≡◌, ◌≤◌, None, []};
ghost use Rattle.board_table.specs.Views.{hand_left, handed, joined};
ghost use Rattle.board_table.specs.Seats.{view_of, Counts, IsSeatOf, IsOutside, HasView, SameSeat};

use crate::rule::{HandStep, Handing, Homed, JoinStep};
use crate::table::{BoardSeat, BoardTable};
use crate::views::BoardView;
use atomic_table::Seat;
use std::marker::Brand;

impl<T, H: Homed<T>> BoardTable<H, T> {
    // The split, by the numbers that its type has.
    #[inline(always)]
    fn hand_seat<C: Handing>(
        &self,
        seat: &mut Seat<Option<H>, BoardView>,
        k: u32,
        turns: u64,
    ) -> Seat<Option<H>, BoardView>
        requires named { (C.composite ≡ k) × (C.turns ≡ turns) }
        requires own { seat.old.table_id ≡ self.now.table.shared.table_id }
        requires outside { seat.old.me.0.inside ≡ None }
        requires counts { Counts k seat.old.me.0 }
        requires turns { turns ≤ seat.old.me.0.turns }
        ensures same { (seat.new.table_id ≡ seat.old.table_id) × (seat.new.id ≡ seat.old.id) }
        ensures left { seat.new.me ≡ (hand_left k turns seat.old.me.0, seat.old.me.1) }
        ensures made { result.table_id ≡ seat.old.table_id }
        ensures handed { result.me ≡ (handed k turns seat.old.me.0, []) }
    {
        self.table.shared.split_seat::<HandStep<C>>(seat)
    }

    /// A new seat, which takes over one of the seat's counts of a composite and so many of its turns. It
    /// has no moves.
    pub fn hand(&self, seat: &mut BoardSeat<H>, k: u32, turns: u64) -> BoardSeat<H>
        requires own { IsSeatOf self.now seat.old }
        requires outside { IsOutside seat.old }
        requires counts { Counts k (view_of seat.old) }
        requires turns { turns ≤ (view_of seat.old).turns }
        ensures same { SameSeat seat.old seat.new }
        ensures left { HasView seat.new (hand_left k turns (view_of seat.old)) }
        ensures made { IsSeatOf self.now result }
        ensures handed { HasView result (handed k turns (view_of seat.old)) }
    {
        BoardSeat {
            seat: self.hand_seat::<Brand>(&mut seat.seat, k, turns),
        }
    }

    /// The seat gets all counts, marks, moves and turns of the other one, which is spent.
    pub fn join(&self, seat: &mut BoardSeat<H>, other: BoardSeat<H>)
        requires own { IsSeatOf self.now seat.old }
        requires other_own { IsSeatOf self.now other }
        requires outside { IsOutside seat.old }
        requires other_outside { IsOutside other }
        ensures same { SameSeat seat.old seat.new }
        ensures joined { HasView seat.new (joined (view_of seat.old) (view_of other)) }
    {
        let BoardSeat { seat: other } = other;
        self.table
            .shared
            .join_seat::<JoinStep>(&mut seat.seat, other);
    }
}
