//! The one atomic step of each call on the word of a root's count. The answer is the word that it
//! found.

ghost use Rattle.std.specs.Prelude.{◌≡◌, ◌-◌, ◌%◌, ◌/◌, ◌<◌, None};
ghost use mathlib.Core.Option.{none};
ghost use Rattle.atomic_table.specs.Table.{step};
ghost use Rattle.pool_law.specs.declared.note.RefDid.TheVariants.{Retain, Look, Vacated};
ghost use Rattle.pool_table.specs.Words.{count_word_of};
ghost use Rattle.pool_table.specs.Slots.{slots_of};
ghost use Rattle.pool_table.specs.Counts.{CountsOne, HasCount, HasToken, with_ref};
ghost use Rattle.pool_table.specs.Hands.{HasEnded, InHand, IsAwaited};
ghost use Rattle.pool_table.specs.Steps.{births, releases};

use crate::bare_slot::BareSlot;
use crate::index::root_index;
use crate::root_rule::{BirthStep, LookStep, ReleaseStep, RetainStep, Rooted, VacateStep};
use crate::table::PoolTable;
use crate::views::SeatView;
use atomic_table::Seat;
use pool_law::{Noted, RootId};
use step_law::Told;

impl<H: Told<Note = Noted>> PoolTable<H> {
    #[inline(always)]
    pub(crate) fn birth_word<R: Rooted>(
        &self,
        seat: &mut Seat<BareSlot<H>, SeatView>,
        root: RootId,
    ) -> u64
        requires named { R.root ≡ root }
        requires own { seat.old.table_id ≡ self.now.table.shared.table_id }
        requires outside { seat.old.me.0.inside ≡ None }
        requires hand { InHand root.place seat.old.me.0 }
        requires waits { IsAwaited root.place root.capacity seat.old.me.0 }
        ensures same { (seat.new.table_id ≡ seat.old.table_id) × (seat.new.id ≡ seat.old.id) }
        ensures counts { CountsOne seat.new.me.0 }
        ensures told { let shape = self.now.layout.shape in
            let s = step (slots_of shape) (count_word_of shape root.place) 4294967297 0 none in
            births root s seat.old.me result seat.new.me }
    {
        let word = root_index(&self.layout.shape, &self.firsts, root.place);
        self.table
            .shared
            .fetch_add::<BirthStep<R>>(seat, word, (1 << 32) + 1)
    }

    #[inline(always)]
    pub(crate) fn retain_word<R: Rooted>(
        &self,
        seat: &mut Seat<BareSlot<H>, SeatView>,
        root: RootId,
    ) -> u64
        requires named { R.root ≡ root }
        requires own { seat.old.table_id ≡ self.now.table.shared.table_id }
        requires outside { seat.old.me.0.inside ≡ None }
        requires counts { HasCount root seat.old.me.0 }
        requires moves { 0 < seat.old.me.0.moves }
        ensures same { (seat.new.table_id ≡ seat.old.table_id) × (seat.new.id ≡ seat.old.id) }
        ensures counts { CountsOne seat.new.me.0 }
        ensures noted { let v = seat.old.me.0 in
            seat.new.me ≡ (with_ref v root Retain (v.moves - 1), seat.old.me.1) }
    {
        let word = root_index(&self.layout.shape, &self.firsts, root.place);
        self.table.shared.fetch_add::<RetainStep<R>>(seat, word, 2)
    }

    #[inline(always)]
    pub(crate) fn release_word<R: Rooted>(
        &self,
        seat: &mut Seat<BareSlot<H>, SeatView>,
        root: RootId,
    ) -> u64
        requires named { R.root ≡ root }
        requires own { seat.old.table_id ≡ self.now.table.shared.table_id }
        requires outside { seat.old.me.0.inside ≡ None }
        requires counts { HasCount root seat.old.me.0 }
        ensures same { (seat.new.table_id ≡ seat.old.table_id) × (seat.new.id ≡ seat.old.id) }
        ensures counts { CountsOne seat.new.me.0 }
        ensures number { seat.new.me.0.own.number ≡ seat.old.me.0.own.number }
        ensures told { let shape = self.now.layout.shape in
            let s = step (slots_of shape) (count_word_of shape root.place) 2 0 none in
            releases root s seat.old.me result seat.new.me }
    {
        let word = root_index(&self.layout.shape, &self.firsts, root.place);
        self.table.shared.fetch_sub::<ReleaseStep<R>>(seat, word, 2)
    }

    #[inline(always)]
    pub(crate) fn vacate_word<R: Rooted>(
        &self,
        seat: &mut Seat<BareSlot<H>, SeatView>,
        root: RootId,
    ) -> u64
        requires named { R.root ≡ root }
        requires own { seat.old.table_id ≡ self.now.table.shared.table_id }
        requires outside { seat.old.me.0.inside ≡ None }
        requires token { HasToken root seat.old.me.0 }
        requires ended { HasEnded root seat.old.me.0 }
        ensures same { (seat.new.table_id ≡ seat.old.table_id) × (seat.new.id ≡ seat.old.id) }
        ensures counts { CountsOne seat.new.me.0 }
        ensures hand { InHand root.place seat.new.me.0 }
        ensures noted { let v = seat.old.me.0 in
            seat.new.me ≡ (with_ref v root Vacated v.moves, seat.old.me.1) }
    {
        let word = root_index(&self.layout.shape, &self.firsts, root.place);
        self.table.shared.fetch_add::<VacateStep<R>>(seat, word, 1)
    }

    #[inline(always)]
    pub(crate) fn look_word<R: Rooted>(
        &self,
        seat: &mut Seat<BareSlot<H>, SeatView>,
        root: RootId,
    ) -> u64
        requires named { R.root ≡ root }
        requires own { seat.old.table_id ≡ self.now.table.shared.table_id }
        requires outside { seat.old.me.0.inside ≡ None }
        requires counts { HasCount root seat.old.me.0 }
        ensures same { (seat.new.table_id ≡ seat.old.table_id) × (seat.new.id ≡ seat.old.id) }
        ensures counts { CountsOne seat.new.me.0 }
        ensures noted { let look = Look (result % 4294967296 / 2) in
            seat.new.me ≡ (with_ref seat.old.me.0 root look seat.old.me.0.moves, seat.old.me.1) }
    {
        let word = root_index(&self.layout.shape, &self.firsts, root.place);
        self.table.shared.load::<LookStep<R>>(seat, word)
    }
}
