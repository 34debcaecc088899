//! Sections: a claim takes the home value out of its slot, and the step that ends the section
//! follows its return.

ghost use Rattle.std.specs.Prelude.{◌≡◌, ℕ, [], None, ◌+◌, ◌-◌, ◌<◌, true, IfOk, IfErr, IfSome, MatchBool};
ghost use mathlib.Core.Option.{none};
ghost use Rattle.atomic_table.specs.Table.{step};
ghost use Rattle.pool_law.specs.Homes.{IsObjectOf};
ghost use Rattle.pool_law.specs.Naming.{noted_by};
ghost use Rattle.pool_law.specs.declared.note.Object.TheVariants.{Root};
ghost use Rattle.pool_table.specs.declared.views.Entry.TheVariants.{At};
ghost use Rattle.pool_table.specs.Counts.{CountsOne};
ghost use Rattle.pool_table.specs.Words.{word_of};
ghost use Rattle.pool_table.specs.Slots.{slots_of};
ghost use Rattle.pool_table.specs.Hands.{MayEnter};
ghost use Rattle.pool_table.specs.Views.{after_leaving, with_entry};
ghost use Rattle.pool_law.specs.NotedHistories.{MayNote};
ghost use Rattle.pool_table.specs.Sound.{IsMarked};
ghost use Rattle.pool_table.specs.Seats.{view_of, IsSeatOf, IsOutside, HasView, SameSeat};
ghost use Rattle.pool_table.specs.Hands.{MayLeave, PutsDown};
ghost use Rattle.pool_table.specs.Holders.{HoldsPlace};
ghost use Rattle.pool_table.specs.Steps.{claims, marks_claims};
ghost use Rattle.pool_table.specs.Sections.{GotSection, FoundHeld, MayEnd, MayIdle};

use crate::bare_slot::{BareSlot, put_back, taken};
use crate::index::object_slot;
use crate::rule::{ClaimStep, Claiming, DoneStep, IdleStep, MarkStep};
use crate::table::{HomeSlot, PoolSeat, PoolTable, Section};
use crate::views::SeatView;
use atomic_table::Seat;
use pool_law::{Held, Named, Noted, Object};
use std::marker::Brand;
use step_law::Told;

impl<H: Told<Note = Noted>> PoolTable<H> {
    // The one step of a claim. Its answer is the word that it found.
    #[inline(always)]
    fn claim_word<C: Claiming>(
        &self,
        seat: &mut Seat<BareSlot<H>, SeatView>,
        object: Object,
        slot: HomeSlot,
        mark: bool,
    ) -> u64
        requires named { (C.object ≡ object) × (C.layout ≡ self.now.layout) }
        requires word { slot.word ≡ word_of self.now.layout.shape object }
        requires own { seat.old.table_id ≡ self.now.table.shared.table_id }
        requires outside { (seat.old.me.0.inside ≡ None) × (seat.old.me.1 ≡ []) }
        requires object { IsObjectOf self.now.layout.shape object }
        requires turn { 0 < seat.old.me.0.turns }
        requires enters { (p : ℕ) → object ≡ Root p → MayEnter p seat.old.me.0 }
        requires marks { mark ≡ true → IsMarked object }
        ensures same { (seat.new.table_id ≡ seat.old.table_id) × (seat.new.id ≡ seat.old.id) }
        ensures number { seat.new.me.0.own.number ≡ seat.old.me.0.own.number }
        ensures told { let shape = self.now.layout.shape in
            let s = step (slots_of shape) (word_of shape object) 1 0 none in
            MatchBool mark
            (marks_claims H.stands self.now.layout object s seat.old.me result seat.new.me)
            (claims H.stands self.now.layout object s seat.old.me result seat.new.me) }
    {
        if mark {
            self.table
                .shared
                .fetch_or::<MarkStep<C>>(seat, slot.word, 1)
        } else {
            self.table
                .shared
                .fetch_or::<ClaimStep<C>>(seat, slot.word, 1)
        }
    }

    /// Enters the section of an object, or finds another seat there, which with `mark` the seat
    /// notes. A root place asks that the seat counts its root, has its end token, or has the place
    /// in its hands.
    #[inline(always)]
    pub fn claim(
        &self,
        seat: &mut PoolSeat<H>,
        object: Object,
        mark: bool,
    ) -> Result<Section<H>, Held>
        requires own { IsSeatOf self.now seat.old }
        requires outside { IsOutside seat.old }
        requires object { IsObjectOf self.now.layout.shape object }
        requires turn { 0 < (view_of seat.old).turns }
        requires enters { (p : ℕ) → object ≡ Root p → MayEnter p (view_of seat.old) }
        requires marks { mark ≡ true → IsMarked object }
        ensures same { SameSeat seat.old seat.new }
        ensures got { IfOk result (GotSection H.stands self.now.layout object seat.old seat.new) }
        ensures held { IfErr result
            (FoundHeld H.stands self.now.layout object mark seat.old seat.new) }

        // A seat with the place in its hands, or with the end token of its root, is never held up.
        ensures free { IfErr result (λ _.
            (p : ℕ) → object ≡ Root p → HoldsPlace p (view_of seat.old) → ⊥) }
    {
        let slot = object_slot(&self.layout.shape, object);
        let found = self.claim_word::<Brand>(&mut seat.seat, object, slot, mark);
        if found % 2 == 1 {
            return Err(Held {
                object,
                number: found / 2,
            });
        }
        let home = taken(&self.table.shared, &mut seat.seat, slot.home);
        Ok(Section { home, object, slot })
    }

    /// Ends a section with the note that `N` names, and answers its number.
    #[inline(always)]
    pub fn done<N: Named>(&self, seat: &mut PoolSeat<H>, section: Section<H>) -> u64
        requires own { IsSeatOf self.now seat.old }
        requires turn { 0 < (view_of seat.old).turns }
        requires section { MayEnd H.stands self.now.layout.shape seat.old section N.note }
        requires lane { let v = view_of seat.old in
            MayNote self.now.layout.shape v.own.number section.object N.note.did }
        requires hands { PutsDown (view_of seat.old) N.note.did }
        ensures same { SameSeat seat.old seat.new }
        ensures number { IfSome (view_of seat.old).inside (λ x. result ≡ x.number + 1) }
        ensures counts { CountsOne (view_of seat.new) }
        ensures noted { let v = view_of seat.old in
            let note = At section.object result (noted_by v.own.number N.note) in
            HasView seat.new (with_entry v note (v.turns - 1)) }
    {
        let Section {
            home,
            object: _,
            slot,
        } = section;
        put_back(&self.table.shared, &mut seat.seat, slot.home, home);
        let found = self
            .table
            .shared
            .fetch_add::<DoneStep<N>>(&mut seat.seat, slot.word, 1);
        found / 2 + 1
    }

    /// Ends a section with no note, where its home value is as it was: that of a root place in the
    /// seat's hands where no birth waits, as where the place is worn out.
    #[inline(always)]
    pub fn idle(&self, seat: &mut PoolSeat<H>, section: Section<H>)
        requires own { IsSeatOf self.now seat.old }
        requires section { MayIdle H.stands self.now.layout.shape seat.old section }
        requires leaves { MayLeave (view_of seat.old) section.object }
        ensures same { SameSeat seat.old seat.new }
        ensures left { HasView seat.new (after_leaving (view_of seat.old)) }
    {
        let Section {
            home,
            object: _,
            slot,
        } = section;
        put_back(&self.table.shared, &mut seat.seat, slot.home, home);
        self.table
            .shared
            .fetch_sub::<IdleStep>(&mut seat.seat, slot.word, 1);
    }
}
