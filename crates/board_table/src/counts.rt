//! The counts of composites: how many holds all seats have of each.

ghost use Rattle.std.specs.Prelude.{◌≡◌, ◌-◌, ◌*◌, ◌+◌, ◌<◌, ◌≤◌, Option, None, []};
ghost use mathlib.Core.Option.{none};
ghost use Rattle.atomic_table.specs.Table.{step, State};
ghost use Rattle.board_table.specs.declared.views.BoardView.{BoardView};
ghost use Rattle.board_table.specs.Views.{retained};
ghost use Rattle.board_table.specs.Sound.{IsSound, count_word};
ghost use Rattle.board_table.specs.Steps.{releases};
ghost use Rattle.board_table.specs.Seats.{opening_of, view_of, Counts, IsSeatOf, IsOutside, HasView, SameSeat};
ghost use Rattle.board_table.specs.Releases.{IsReleased};

use crate::rule::{Homed, ReleaseStep, RetainStep, Stepping};
use crate::table::{APART, BoardSeat, BoardTable};
use crate::views::BoardView;
use atomic_table::Seat;
use std::marker::Brand;

/// The right to take a composite that nobody counts any more. It must be spent.
pub struct EndMark {
    pub(crate) composite: u32,
}

/// What a release came to.
pub enum Let {
    /// Others count the composite.
    Kept,
    /// It was the last count.
    Ended(EndMark),
}

impl<T, H: Homed<T>> BoardTable<H, T> {
    #[inline(always)]
    fn retain_word<C: Stepping<H>>(&self, seat: &mut Seat<Option<H>, BoardView>, k: u32)
        requires named { C.composite ≡ k }
        requires own { seat.old.table_id ≡ self.now.table.shared.table_id }
        requires outside { (seat.old.me.0.inside ≡ None) × (seat.old.me.1 ≡ []) }
        requires within { k < self.now.composites }
        requires counts { Counts k seat.old.me.0 }
        requires moves { 0 < seat.old.me.0.moves }
        ensures same { (seat.new.table_id ≡ seat.old.table_id) × (seat.new.id ≡ seat.old.id) }
        ensures told { seat.new.me ≡ (retained k seat.old.me.0, []) }
    {
        let word = APART * k as usize + 1;
        self.table.shared.fetch_add::<RetainStep<C>>(seat, word, 1);
    }

    // Its answer is the word that it found.
    #[inline(always)]
    fn release_word<C: Stepping<H>>(&self, seat: &mut Seat<Option<H>, BoardView>, k: u32) -> u64
        requires named { C.composite ≡ k }
        requires holds { (s : State (Option H) BoardView) →
            IsSound H.stands H.left (opening_of self.now) s → C.holds s }
        requires own { seat.old.table_id ≡ self.now.table.shared.table_id }
        requires outside { (seat.old.me.0.inside ≡ None) × (seat.old.me.1 ≡ []) }
        requires within { k < self.now.composites }
        requires counts { Counts k seat.old.me.0 }
        ensures same { (seat.new.table_id ≡ seat.old.table_id) × (seat.new.id ≡ seat.old.id) }
        ensures told { let s = step self.now.composites (count_word k) 1 0 none in
            releases C.holds k s seat.old.me result seat.new.me }
    {
        let word = APART * k as usize + 1;
        self.table.shared.fetch_sub::<ReleaseStep<C>>(seat, word, 1)
    }

    /// One count more of a composite that the seat counts, for one of its moves.
    #[inline(always)]
    pub fn retain(&self, seat: &mut BoardSeat<H>, k: u32)
        requires own { IsSeatOf self.now seat.old }
        requires outside { IsOutside seat.old }
        requires counts { Counts k (view_of seat.old) }
        requires moves { 0 < (view_of seat.old).moves }
        ensures same { SameSeat seat.old seat.new }
        ensures retained { HasView seat.new (retained k (view_of seat.old)) }
    {
        self.retain_word::<Brand>(&mut seat.seat, k);
    }

    /// One count less of a composite that the seat counts. The release that finds one count left ends
    /// the composite: the seat then has its mark, with which it can be taken.
    #[inline(always)]
    pub fn release(&self, seat: &mut BoardSeat<H>, k: u32) -> Let
        requires own { IsSeatOf self.now seat.old }
        requires outside { IsOutside seat.old }
        requires counts { Counts k (view_of seat.old) }
        ensures same { SameSeat seat.old seat.new }
        ensures outside { IsOutside seat.new }
        ensures released { IsReleased (IsSound H.stands H.left (opening_of self.now)) result k
            (view_of seat.old) (view_of seat.new) }
    {
        let found = self.release_word::<Brand>(&mut seat.seat, k);
        if found == 1 {
            Let::Ended(EndMark { composite: k })
        } else {
            Let::Kept
        }
    }
}
