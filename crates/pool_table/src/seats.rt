//! Seats: their numbers, and how they are split off and joined. No step here changes a word.

ghost use Rattle.std.specs.Prelude.{◌≡◌, ◌≤◌, None, []};
ghost use Rattle.pool_table.specs.Views.{blank, joined};
ghost use Rattle.pool_table.specs.Letters.{first_letter};
ghost use Rattle.pool_table.specs.Steps.{share_left, share_of, share_added, IsShare};
ghost use Rattle.pool_table.specs.Seats.{view_of, IsSeatOf, IsOutside, HasView, SameSeat};

use crate::bare_slot::BareSlot;
use crate::rule::{AcceptStep, BlankStep, JoinStep, ShareStep, Sharing};
use crate::table::{PoolSeat, PoolTable};
use crate::views::{Letter, SeatView};
use atomic_table::Seat;
use pool_law::Noted;
use std::marker::Brand;
use step_law::Told;

impl<H: Told<Note = Noted>> PoolSeat<H> {
    /// The lane of a first seat, and none for every other seat.
    pub fn number(&self) -> Option<u32>
        ensures { result ≡ (view_of self.now).own.number }
    {
        self.number
    }

    /// The first letter that it holds, and none where it holds no letter.
    pub fn letter(&self) -> Option<Letter>
        ensures { result ≡ first_letter (view_of self.now).letters }
    {
        self.letter
    }
}

impl<H: Told<Note = Noted>> PoolTable<H> {
    // A seat without a number.
    #[inline(always)]
    pub(crate) fn unnumbered(
        &self,
        seat: Seat<BareSlot<H>, SeatView>,
        letter: Option<Letter>,
    ) -> PoolSeat<H>
        requires number { seat.me.0.own.number ≡ None }
        requires letter { first_letter seat.me.0.letters ≡ letter }
        ensures { result.seat ≡ seat }
    {
        PoolSeat {
            seat,
            number: None,
            letter,
            sent: Vec::new(self.alloc),
        }
    }

    /// A new seat without notes, moves and turns.
    pub fn split(&self, seat: &mut PoolSeat<H>) -> PoolSeat<H>
        requires own { IsSeatOf self.now seat.old }
        requires outside { IsOutside seat.old }
        ensures same { SameSeat seat.old seat.new }
        ensures unchanged { HasView seat.new (view_of seat.old) }
        ensures made { IsSeatOf self.now result }
        ensures empty { HasView result (blank (view_of seat.old).setting) }
    {
        let other = self.table.shared.split_seat::<BlankStep>(&mut seat.seat);
        self.unnumbered(other, None)
    }

    // The split, by the number that its type has.
    #[inline(always)]
    fn share_seat<M: Sharing>(
        &self,
        seat: &mut Seat<BareSlot<H>, SeatView>,
        moves: u32,
    ) -> Seat<BareSlot<H>, SeatView>
        requires named { M.moves ≡ moves }
        requires own { seat.old.table_id ≡ self.now.table.shared.table_id }
        requires outside { seat.old.me.0.inside ≡ None }
        requires moves { moves ≤ seat.old.me.0.moves }
        ensures same { (seat.new.table_id ≡ seat.old.table_id) × (seat.new.id ≡ seat.old.id) }
        ensures left { seat.new.me ≡ (share_left moves seat.old.me.0, seat.old.me.1) }
        ensures made { result.table_id ≡ seat.old.table_id }
        ensures share { result.me ≡ (share_of moves seat.old.me.0, []) }
    {
        self.table.shared.split_seat::<ShareStep<M>>(seat)
    }

    /// A new seat with so many of the seat's moves, and without notes and turns. A seat of another
    /// lane takes it in by `accept`: where retained roots go one way only, the moves go with them,
    /// and this sends them back.
    pub fn share(&self, seat: &mut PoolSeat<H>, moves: u32) -> PoolSeat<H>
        requires own { IsSeatOf self.now seat.old }
        requires outside { IsOutside seat.old }
        requires moves { moves ≤ (view_of seat.old).moves }
        ensures same { SameSeat seat.old seat.new }
        ensures left { HasView seat.new (share_left moves (view_of seat.old)) }
        ensures made { IsSeatOf self.now result }
        ensures share { HasView result (share_of moves (view_of seat.old)) }
    {
        let other = self.share_seat::<Brand>(&mut seat.seat, moves);
        self.unnumbered(other, None)
    }

    /// The seat gets the moves of a share, and nothing of it stays. The share is spent.
    pub fn accept(&self, seat: &mut PoolSeat<H>, share: PoolSeat<H>)
        requires own { IsSeatOf self.now seat.old }
        requires share_own { IsSeatOf self.now share }
        requires outside { IsOutside seat.old }
        requires share_outside { IsOutside share }
        requires share { IsShare (view_of share) }
        ensures same { SameSeat seat.old seat.new }
        ensures added { HasView seat.new (share_added (view_of share).moves (view_of seat.old)) }
    {
        let (share, _letter) = share.into_parts();
        self.table
            .shared
            .join_seat::<AcceptStep>(&mut seat.seat, share);
    }

    /// The seat gets what the other one has. The other one is spent.
    pub fn join(&self, seat: &mut PoolSeat<H>, other: PoolSeat<H>)
        requires own { IsSeatOf self.now seat.old }
        requires other_own { IsSeatOf self.now other }
        requires outside { IsOutside seat.old }
        requires other_outside { IsOutside other }
        ensures same { SameSeat seat.old seat.new }
        ensures joined { HasView seat.new (joined (view_of seat.old) (view_of other)) }
    {
        let (other, letter) = other.into_parts();
        self.table
            .shared
            .join_seat::<JoinStep>(&mut seat.seat, other);
        if seat.letter.is_none() {
            seat.letter = letter;
        }
    }
}
