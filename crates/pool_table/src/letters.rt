//! Letters: how a lane's seat sends one to another lane, and how that lane's seat receives it.

ghost use Rattle.std.specs.Prelude.{◌≡◌, ℕ, ◌+◌, ◌<◌, None, Some, []};
ghost use mathlib.Core.Option.{none};
ghost use Rattle.pool_table.specs.Counts.{CountsOne};
ghost use Rattle.pool_table.specs.Learned.{KnowsCounts};
ghost use Rattle.pool_table.specs.Letters.{first_letter, letter_view, next_letter, receives, sends, sent_on};
ghost use Rattle.pool_table.specs.Mailing.{HoldsParcel, MayReceive, MaySend};
ghost use Rattle.pool_table.specs.Seats.{view_of, IsSeatOf, IsOutside, HasView, SameSeat};
ghost use Rattle.pool_table.specs.Steps.{letter_beside, sends_next};

use crate::bare_slot::BareSlot;
use crate::rule::{Claiming, Lettered, ReceiveStep, SendStep, StayStep};
use crate::table::{PoolSeat, PoolTable};
use crate::views::{Letter, SeatView};
use atomic_table::Seat;
use pool_law::{Noted, Parcel};
use std::marker::Brand;
use step_law::Told;

impl<H: Told<Note = Noted>> PoolTable<H> {
    // The split, by the letter that its type has.
    #[inline(always)]
    fn send_seat<X: Lettered>(
        &self,
        seat: &mut Seat<BareSlot<H>, SeatView>,
        to: u32,
        parcel: Parcel,
    ) -> Seat<BareSlot<H>, SeatView>
        requires named { (X.to ≡ to) × (X.parcel ≡ parcel) }
        requires own { seat.old.table_id ≡ self.now.table.shared.table_id }
        requires outside { seat.old.me.0.inside ≡ None }
        requires may { MaySend self.now.layout.shape seat.old.me.0 to parcel }
        ensures same { (seat.new.table_id ≡ seat.old.table_id) × (seat.new.id ≡ seat.old.id) }
        ensures left { seat.new.me ≡ (sends_next to parcel seat.old.me.0, seat.old.me.1) }
        ensures made { result.table_id ≡ seat.old.table_id }
        ensures letter { result.me ≡ (letter_beside to parcel seat.old.me.0, []) }
    {
        self.table.shared.split_seat::<SendStep<X>>(seat)
    }

    // A step that notes nothing, after which the seat knows what it counts.
    #[inline(always)]
    fn stay<C: Claiming>(&self, seat: &mut Seat<BareSlot<H>, SeatView>)
        requires named { C.layout ≡ self.now.layout }
        requires own { seat.old.table_id ≡ self.now.table.shared.table_id }
        ensures same { (seat.new.table_id ≡ seat.old.table_id) × (seat.new.id ≡ seat.old.id) }
        ensures unchanged { seat.new.me ≡ seat.old.me }
        ensures counts { CountsOne seat.new.me.0 }
        ensures knows { KnowsCounts self.now.layout seat.new.me.0 }
    {
        self.table.shared.load::<StayStep<C>>(seat, 0);
    }

    // The same, in this table's layout.
    #[inline(always)]
    fn look_round(&self, seat: &mut Seat<BareSlot<H>, SeatView>)
        requires own { seat.old.table_id ≡ self.now.table.shared.table_id }
        ensures same { (seat.new.table_id ≡ seat.old.table_id) × (seat.new.id ≡ seat.old.id) }
        ensures unchanged { seat.new.me ≡ seat.old.me }
        ensures counts { CountsOne seat.new.me.0 }
        ensures knows { KnowsCounts self.now.layout seat.new.me.0 }
    {
        self.stay::<Brand>(seat);
    }

    // The next letter of the seat's lane to another.
    fn letter_to(&self, seat: &PoolSeat<H>, to: u32, parcel: Parcel) -> Letter
        requires may { MaySend self.now.layout.shape (view_of seat.now) to parcel }
        ensures { result ≡ next_letter to parcel (view_of seat.now) }
    {
        let Some(from) = seat.number else {
            unreachable!()
        };
        Letter {
            from,
            to,
            number: seat.sent[to as usize] + 1,
            parcel,
        }
    }

    /// Sends a parcel to a lane: the letter comes with a seat of its own, which holds nothing else.
    /// The letter's number is one above those that the seat sent there before. It takes no memory.
    pub fn send(&self, seat: &mut PoolSeat<H>, to: u32, parcel: Parcel) -> PoolSeat<H>
        requires own { IsSeatOf self.now seat.old }
        requires outside { IsOutside seat.old }
        requires may { MaySend self.now.layout.shape (view_of seat.old) to parcel }
        ensures same { SameSeat seat.old seat.new }
        ensures noted { let v = view_of seat.old in
            HasView seat.new (sends v (next_letter to parcel v)) }
        ensures counts { CountsOne (view_of seat.new) }
        ensures made { IsSeatOf self.now result }
        ensures letter { let v = view_of seat.old in
            HasView result (letter_view v.setting (next_letter to parcel v)) }
    {
        let letter = self.letter_to(seat, to, parcel);
        let other = self.send_seat::<Brand>(&mut seat.seat, to, parcel);
        seat.sent[to as usize] = letter.number;
        self.look_round(&mut seat.seat);
        self.unnumbered(other, Some(letter))
    }

    /// Receives the letter that the other seat holds, which is spent. It takes no memory.
    pub fn receive(&self, seat: &mut PoolSeat<H>, other: PoolSeat<H>) -> Letter
        requires own { IsSeatOf self.now seat.old }
        requires other_own { IsSeatOf self.now other }
        requires outside { IsOutside seat.old }
        requires other_outside { IsOutside other }
        requires may { MayReceive (view_of seat.old) (view_of other) }
        ensures same { SameSeat seat.old seat.new }
        ensures came { let w = view_of other in w ≡ letter_view w.setting result }
        ensures noted { HasView seat.new (receives (view_of seat.old) result) }
        ensures counts { CountsOne (view_of seat.new) }
        ensures holds { HoldsParcel self.now.layout.shape result.parcel (view_of seat.new) }
    {
        let (other, letter) = other.into_parts();
        let Some(letter) = letter else { unreachable!() };
        self.look_round(&mut seat.seat);
        self.table
            .shared
            .join_seat::<ReceiveStep>(&mut seat.seat, other);
        self.look_round(&mut seat.seat);
        letter
    }
}
