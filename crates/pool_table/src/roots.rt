//! The counts of roots: births, retains, looks, releases, and the vacating of a place.
//!
//! A count's word has the root's generation in its high half and a raw count in its low half: twice
//! the count while the root is live, 0 from the release that ended it on, and 1 once its place is
//! vacant.

ghost use Rattle.std.specs.Prelude.{◌≡◌, ◌-◌, ◌<◌};
ghost use Rattle.pool_law.specs.declared.id.RootId.{RootId};
ghost use Rattle.pool_law.specs.declared.note.RefDid.TheVariants.{Born, Retain, Look, Vacated};
ghost use Rattle.pool_table.specs.Counts.{CountsOne, HasCount, HasToken, with_ref};
ghost use Rattle.pool_table.specs.Hands.{HasEnded, InHand, IsAwaited, Waits};
ghost use Rattle.pool_table.specs.Seats.{view_of, IsSeatOf, IsOutside, HasView, SameSeat};
ghost use Rattle.pool_table.specs.Dropping.{IsDroppedAs};

use crate::table::{PoolSeat, PoolTable};
use pool_law::{Noted, RootId};
use std::marker::Brand;
use step_law::Told;

/// The right to note the end of a root whose count has ended, and to vacate its place. It must be
/// spent.
pub struct EndToken {
    pub(crate) root: RootId,
}

/// What a release came to.
pub enum Dropped {
    Kept,
    Ended(EndToken),
}

impl<H: Told<Note = Noted>> PoolTable<H> {
    /// The birth of the next root at a place that the seat has in its hands, after the note of that
    /// birth. It makes the root's first count, and takes no move. A place is worn out once its last
    /// generation is the greatest that fits a word's half: no birth may be noted there any more.
    #[inline(always)]
    pub fn birth(&self, seat: &mut PoolSeat<H>, place: u32, capacity: u32) -> RootId
        requires own { IsSeatOf self.now seat.old }
        requires outside { IsOutside seat.old }
        requires hand { InHand place (view_of seat.old) }
        requires waits { IsAwaited place capacity (view_of seat.old) }
        ensures same { SameSeat seat.old seat.new }
        ensures place { result.place ≡ place }
        ensures capacity { result.capacity ≡ capacity }
        ensures root { (r : RootId) → r.place ≡ place → r.capacity ≡ capacity →
            Waits r (view_of seat.old) → result ≡ r }
        ensures counts { HasCount result (view_of seat.new) }
        ensures counts_one { CountsOne (view_of seat.new) }
        ensures noted { let v = view_of seat.old in
            HasView seat.new (with_ref v result Born v.moves) }
    {
        let root = RootId {
            place,
            generation: 0,
            capacity,
        };
        let word = self.birth_word::<Brand>(&mut seat.seat, root);
        RootId {
            place,
            generation: (word / (1 << 32) + 1) as u32,
            capacity,
        }
    }

    /// One count more of a root that the seat counts, for one of its moves.
    #[inline(always)]
    pub fn retain(&self, seat: &mut PoolSeat<H>, root: RootId)
        requires own { IsSeatOf self.now seat.old }
        requires outside { IsOutside seat.old }
        requires counts { HasCount root (view_of seat.old) }
        requires moves { 0 < (view_of seat.old).moves }
        ensures same { SameSeat seat.old seat.new }
        ensures counts { CountsOne (view_of seat.new) }
        ensures noted { let v = view_of seat.old in
            HasView seat.new (with_ref v root Retain (v.moves - 1)) }
    {
        self.retain_word::<Brand>(&mut seat.seat, root);
    }

    /// One count less of a root that the seat counts. The release that finds one count left ends
    /// the root, and any other gives the seat a move.
    #[inline(always)]
    pub fn release(&self, seat: &mut PoolSeat<H>, root: RootId) -> Dropped
        requires own { IsSeatOf self.now seat.old }
        requires outside { IsOutside seat.old }
        requires counts { HasCount root (view_of seat.old) }
        ensures same { SameSeat seat.old seat.new }
        ensures outside { IsOutside seat.new }
        ensures counts { CountsOne (view_of seat.new) }
        ensures noted { IsDroppedAs result root (view_of seat.old) (view_of seat.new) }
    {
        let word = self.release_word::<Brand>(&mut seat.seat, root);
        if word % (1 << 32) == 2 {
            Dropped::Ended(EndToken { root })
        } else {
            Dropped::Kept
        }
    }

    /// Makes the place of an ended root vacant, after the note of its end.
    #[inline(always)]
    pub fn vacate(&self, seat: &mut PoolSeat<H>, token: EndToken)
        requires own { IsSeatOf self.now seat.old }
        requires outside { IsOutside seat.old }
        requires token { HasToken token.root (view_of seat.old) }
        requires ended { HasEnded token.root (view_of seat.old) }
        ensures same { SameSeat seat.old seat.new }
        ensures hand { InHand token.root.place (view_of seat.new) }
        ensures counts { CountsOne (view_of seat.new) }
        ensures noted { let v = view_of seat.old in
            HasView seat.new (with_ref v token.root Vacated v.moves) }
    {
        let EndToken { root } = token;
        self.vacate_word::<Brand>(&mut seat.seat, root);
    }

    /// The root's count, by its word.
    #[inline(always)]
    pub fn look(&self, seat: &mut PoolSeat<H>, root: RootId) -> u32
        requires own { IsSeatOf self.now seat.old }
        requires outside { IsOutside seat.old }
        requires counts { HasCount root (view_of seat.old) }
        ensures same { SameSeat seat.old seat.new }
        ensures counts { CountsOne (view_of seat.new) }
        ensures noted { let v = view_of seat.old in
            HasView seat.new (with_ref v root (Look result) v.moves) }
    {
        let word = self.look_word::<Brand>(&mut seat.seat, root);
        (word % (1 << 32) / 2) as u32
    }
}
