//! The claim of a root place by a seat that may be in its section.

ghost use Rattle.std.specs.Prelude.{◌≡◌, ℕ, None, [], ◌<◌, ◌*◌, IfOk, IfErr, MatchBool};
ghost use mathlib.Core.Option.{none};
ghost use Rattle.atomic_table.specs.Table.{step};
ghost use Rattle.pool_law.specs.declared.note.Object.TheVariants.{Root};
ghost use Rattle.pool_table.specs.Words.{word_of, words_of};
ghost use Rattle.pool_table.specs.Slots.{slots_of};
ghost use Rattle.pool_table.specs.Hands.{MayEnter};
ghost use Rattle.pool_table.specs.Seats.{view_of, IsSeatOf, IsOutside, SameSeat};
ghost use Rattle.pool_table.specs.Holders.{HoldsPlace};
ghost use Rattle.pool_table.specs.Steps.{claims, marks_claims};
ghost use Rattle.pool_table.specs.Sections.{GotSection, FoundHeld};

use crate::bare_slot::{BareSlot, taken};
use crate::index::place_slot;
use crate::rule::{ClaimStep, Claiming, MarkStep};
use crate::table::{HomeSlot, PoolSeat, PoolTable, Section};
use crate::views::SeatView;
use atomic_table::Seat;
use pool_law::{Held, Noted, Object};
use std::marker::Brand;
use step_law::Told;

impl<H: Told<Note = Noted>> PoolTable<H> {
    // The one step of a claim of a root place. Its answer is the word that it found.
    #[inline(always)]
    fn claim_place_word<C: Claiming>(
        &self,
        seat: &mut Seat<BareSlot<H>, SeatView>,
        place: u32,
        slot: HomeSlot,
        mark: bool,
    ) -> u64
        requires named { (C.object ≡ Root place) × (C.layout ≡ self.now.layout) }
        requires within { slot.word < words_of self.now.layout.shape }
        requires word { let shape = self.now.layout.shape in
            place < shape.lanes * shape.handles → slot.word ≡ word_of shape (Root place) }
        requires own { seat.old.table_id ≡ self.now.table.shared.table_id }
        requires outside { (seat.old.me.0.inside ≡ None) × (seat.old.me.1 ≡ []) }
        requires turn { 0 < seat.old.me.0.turns }
        requires enters { MayEnter place seat.old.me.0 }
        ensures same { (seat.new.table_id ≡ seat.old.table_id) × (seat.new.id ≡ seat.old.id) }
        ensures number { seat.new.me.0.own.number ≡ seat.old.me.0.own.number }
        ensures told { let shape = self.now.layout.shape in
            let s = step (slots_of shape) (word_of shape (Root place)) 1 0 none in
            MatchBool mark
            (marks_claims H.stands self.now.layout (Root place) s seat.old.me result seat.new.me)
            (claims H.stands self.now.layout (Root place) s seat.old.me result seat.new.me) }
    {
        if mark {
            self.table
                .shared
                .fetch_or::<MarkStep<C>>(seat, slot.word, 1)
        } else {
            self.table
                .shared
                .fetch_or::<ClaimStep<C>>(seat, slot.word, 1)
        }
    }

    /// Enters the section of a root place, as `claim` does. The seat counts the root that is there,
    /// has its end token, or has the place in its hands; so the place is one of the table's.
    #[inline(always)]
    pub fn claim_place(
        &self,
        seat: &mut PoolSeat<H>,
        place: u32,
        mark: bool,
    ) -> Result<Section<H>, Held>
        requires own { IsSeatOf self.now seat.old }
        requires outside { IsOutside seat.old }
        requires turn { 0 < (view_of seat.old).turns }
        requires enters { MayEnter place (view_of seat.old) }
        ensures same { SameSeat seat.old seat.new }
        ensures got { IfOk result
            (GotSection H.stands self.now.layout (Root place) seat.old seat.new) }
        ensures held { IfErr result
            (FoundHeld H.stands self.now.layout (Root place) mark seat.old seat.new) }

        // A seat with the place in its hands, or with the end token of its root, is never held up.
        ensures free { IfErr result (λ _. HoldsPlace place (view_of seat.old) → ⊥) }
    {
        let object = Object::Root(place);
        let slot = place_slot(&self.layout.shape, &self.firsts, place);
        let found = self.claim_place_word::<Brand>(&mut seat.seat, place, slot, mark);
        if found % 2 == 1 {
            return Err(Held {
                object,
                number: found / 2,
            });
        }
        let home = taken(&self.table.shared, &mut seat.seat, slot.home);
        Ok(Section { home, object, slot })
    }
}
