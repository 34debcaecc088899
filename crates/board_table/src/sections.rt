//! Sections: a claim takes the home value out of its slot, and the step that ends the section
//! follows its return.

ghost use Rattle.std.specs.Prelude.{◌≡◌, ℕ, ◌+◌, ◌*◌, ◌<◌, ◌≤◌, Option, None, [], ◌∷◌, Some, IfOk, IfErr, IfSome};
ghost use mathlib.Core.Option.{none};
ghost use Rattle.atomic_table.specs.Table.{step, State};
ghost use Rattle.board_table.specs.declared.views.BoardView.{BoardView};
ghost use Rattle.board_table.specs.declared.views.Inside.{Inside};
ghost use Rattle.board_table.specs.Views.{done, took};
ghost use Rattle.board_table.specs.Sound.{IsSound, section_word};
ghost use Rattle.board_table.specs.Steps.{claims};
ghost use Rattle.board_table.specs.Seats.{opening_of, view_of, HasMark, HasView, IsSeatOf, IsOutside, MayEnter, SameSeat};
ghost use Rattle.board_table.specs.Sections.{FoundHeld, GotSection, MayEnd, EndsAt, StandsFor};

use crate::counts::EndMark;
use crate::rule::{ClaimStep, DoneStep, Homed, Stepping, TakeStep};
use crate::table::{APART, BoardSeat, BoardTable, Section};
use crate::views::BoardView;
use atomic_table::Seat;
use std::marker::Brand;

impl<T, H: Homed<T>> BoardTable<H, T> {
    // The one step of a claim. Its answer is the word that it found.
    #[inline(always)]
    fn claim_word<C: Stepping<H>>(&self, seat: &mut Seat<Option<H>, BoardView>, k: u32) -> u64
        requires named { C.composite ≡ k }
        requires holds { (s : State (Option H) BoardView) →
            IsSound H.stands H.left (opening_of self.now) s → C.holds s }
        requires fits { (x : H) (turns : ℕ) →
            StandsFor H.stands H.left (opening_of self.now) k turns x → C.fits x turns }
        requires own { seat.old.table_id ≡ self.now.table.shared.table_id }
        requires outside { (seat.old.me.0.inside ≡ None) × (seat.old.me.1 ≡ []) }
        requires within { k < self.now.composites }
        requires enters { MayEnter k seat.old.me.0 }
        requires turn { 0 < seat.old.me.0.turns }
        ensures same { (seat.new.table_id ≡ seat.old.table_id) × (seat.new.id ≡ seat.old.id) }
        ensures told { let s = step self.now.composites (section_word k) 1 0 none in
            claims C.holds C.fits k s seat.old.me result seat.new.me }
    {
        let word = APART * k as usize;
        self.table.shared.fetch_or::<ClaimStep<C>>(seat, word, 1)
    }

    /// Enters the section of a composite that the seat counts or has the end mark of. Where another
    /// seat is in it, nothing changes, and the answer is how many sections were made before. A seat
    /// with the mark is never held up.
    #[inline(always)]
    pub fn claim(&self, seat: &mut BoardSeat<H>, k: u32) -> Result<Section<H>, u64>
        requires own { IsSeatOf self.now seat.old }
        requires outside { IsOutside seat.old }
        requires enters { MayEnter k (view_of seat.old) }
        requires turn { 0 < (view_of seat.old).turns }
        ensures same { SameSeat seat.old seat.new }
        ensures got { IfOk result
            (GotSection H.stands H.left (opening_of self.now) k seat.old seat.new) }
        ensures held { IfErr result (λ n.
            FoundHeld (IsSound H.stands H.left (opening_of self.now)) k n seat.old seat.new) }
        ensures free { IfErr result (λ n. HasMark k (view_of seat.old) → ⊥) }
    {
        let found = self.claim_word::<Brand>(&mut seat.seat, k);
        if found % 2 == 1 {
            return Err(found / 2);
        }
        let taken = self.table.shared.exchange(&mut seat.seat, k as usize, None);
        let Some(home) = taken else { unreachable!() };
        Ok(Section { home, composite: k })
    }

    // The one step that ends a section, with the home value back in its slot. Its answer is the word that
    // it found.
    #[inline(always)]
    fn done_word(&self, seat: &mut Seat<Option<H>, BoardView>, k: u32, home: H) -> u64
        requires own { seat.old.table_id ≡ self.now.table.shared.table_id }
        requires within { k < self.now.composites }
        requires end { EndsAt H.stands H.left (opening_of self.now) k home seat.old.me.0 }
        requires holds { seat.old.me.1 ≡ (k, None) ∷ [] }
        ensures same { (seat.new.table_id ≡ seat.old.table_id) × (seat.new.id ≡ seat.old.id) }
        ensures told { IfSome seat.old.me.0.inside (λ x. result ≡ 2 * x.number + 1) }
        ensures view { seat.new.me ≡ (done k seat.old.me.0, []) }
    {
        let empty = self.table.shared.exchange(seat, k as usize, Some(home));
        let None = empty else { unreachable!() };
        let word = APART * k as usize;
        self.table.shared.fetch_add::<DoneStep>(seat, word, 1)
    }

    // The same, with nothing in the slot.
    #[inline(always)]
    fn take_word(&self, seat: &mut Seat<Option<H>, BoardView>, k: u32)
        requires own { seat.old.table_id ≡ self.now.table.shared.table_id }
        requires within { k < self.now.composites }
        requires inside { (x : Inside) × (seat.old.me.0.inside ≡ Some x) × (x.composite ≡ k) }
        requires mark { HasMark k seat.old.me.0 }
        requires holds { seat.old.me.1 ≡ (k, None) ∷ [] }
        ensures same { (seat.new.table_id ≡ seat.old.table_id) × (seat.new.id ≡ seat.old.id) }
        ensures view { seat.new.me ≡ (took k seat.old.me.0, []) }
    {
        let word = APART * k as usize;
        self.table.shared.fetch_add::<TakeStep>(seat, word, 1);
    }

    /// Ends a section, with the home value at home again. The answer is the section's number, from 1.
    #[inline(always)]
    pub fn done(&self, seat: &mut BoardSeat<H>, section: Section<H>) -> u64
        requires own { IsSeatOf self.now seat.old }
        requires end { MayEnd H.stands H.left (opening_of self.now) seat.old section }
        ensures same { SameSeat seat.old seat.new }
        ensures number { IfSome (view_of seat.old).inside (λ x. result ≡ x.number + 1) }
        ensures done { HasView seat.new (done section.composite (view_of seat.old)) }
    {
        let Section { home, composite } = section;
        let found = self.done_word(&mut seat.seat, composite, home);
        found / 2 + 1
    }

    /// Takes the home value of a composite that nobody counts any more, for its mark. Nobody else can be
    /// in its section.
    #[inline(always)]
    pub fn take(&self, seat: &mut BoardSeat<H>, mark: EndMark) -> H
        requires own { IsSeatOf self.now seat.old }
        requires outside { IsOutside seat.old }
        requires mark { HasMark mark.composite (view_of seat.old) }
        requires turn { 0 < (view_of seat.old).turns }
        ensures same { SameSeat seat.old seat.new }
        ensures home { (turns : ℕ) × ((view_of seat.old).turns ≤ turns)
            × StandsFor H.stands H.left (opening_of self.now) mark.composite turns result }
        ensures took { HasView seat.new (took mark.composite (view_of seat.old)) }
    {
        let EndMark { composite } = mark;
        let Ok(section) = self.claim(seat, composite) else {
            unreachable!()
        };
        let Section { home, composite } = section;
        self.take_word(&mut seat.seat, composite);
        home
    }
}
