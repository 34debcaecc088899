//! The bits of a store: which runs stand under each page class, and which page classes have one.

ghost use Rattle.std.specs.Prelude.{◌≡◌, ◌*◌, ◌<◌, ◌≤◌, ◌^◌, [], ◌∷◌, length, MatchOption};
ghost use Rattle.bit_words.specs.Words.{ChangesBit};
ghost use Rattle.run_map.specs.Spaced.{IsRunLayout};
ghost use Rattle.run_map.specs.Stored.{IsStore, IsNotedAnew, IsUnmarked, IsLowestMarked, IsLeastNoted, AreUnnoted, IsServing, IsUnserved, mark_of};

use crate::runs::RunLayout;
use crate::store::{CLASSES, Store, class_under};
use bit_words::{WIDTH, clear, lowest_set, set};

impl Store {
    // The place of a page in the bits of a page class.
    fn mark(&self, class: u32, first: u32) -> u32
        requires { (class < 40) × (first < 64 * self.now.width) × (self.now.width ≤ 32) }
        ensures place { result ≡ mark_of self.now class first }
        ensures within { result < 64 * (self.now.width * 40) }
    {
        WIDTH * (self.width as u32 * class) + first
    }

    // A free run begins at a page and stands under a page class.
    pub(crate) fn note(&mut self, class: u32, first: u32)
        requires place { (class < 40) × (first < 64 * self.old.width) }
        requires long { (self.old.width ≤ 32)
            × (length self.old.firsts.items ≡ self.old.width * 40) }
        ensures firsts { ChangesBit (mark_of self.old class first) 1
            self.old.firsts.items self.new.firsts.items }
        ensures noted { ChangesBit class 1 (self.old.noted ∷ []) (self.new.noted ∷ []) }
        ensures rest { self.new
            ≡ record self.old { firsts = self.new.firsts; noted = self.new.noted } }
    {
        let place = self.mark(class, first);
        set(&mut self.firsts, place);
        self.noted |= 1 << class;
    }

    // No free run begins any more at a page and stands under a page class.
    pub(crate) fn unmark(&mut self, class: u32, first: u32)
        requires place { (class < 40) × (first < 64 * self.old.width) }
        requires long { (self.old.width ≤ 32)
            × (length self.old.firsts.items ≡ self.old.width * 40) }
        ensures firsts { ChangesBit (mark_of self.old class first) 0
            self.old.firsts.items self.new.firsts.items }
        ensures noted { IsNotedAnew class self.old.noted self.new }
        ensures rest { self.new
            ≡ record self.old { firsts = self.new.firsts; noted = self.new.noted } }
    {
        let place = self.mark(class, first);
        clear(&mut self.firsts, place);
        match self.first_under(class) {
            None => self.noted &= !(1 << class),
            Some(_) => {}
        }
    }

    // The first page of the lowest free run that stands under a page class.
    fn first_under(&self, class: u32) -> Option<u32>
        requires class { class < 40 }
        requires long { (self.now.width ≤ 32)
            × (length self.now.firsts.items ≡ self.now.width * 40) }
        ensures { MatchOption result (IsUnmarked self.now class) (IsLowestMarked self.now class) }
    {
        let from = self.width * class as usize;
        lowest_set(&self.firsts[from..from + self.width])
    }

    // The least page class, from one on, that has a free run.
    fn least_noted(&self, class: u32) -> Option<u32>
        requires { class < 40 }
        ensures { MatchOption result (AreUnnoted self.now class 40) (IsLeastNoted self.now class) }
    {
        let word = self.noted >> class;
        if word == 0 {
            return None;
        }
        let found = class + word.trailing_zeros();
        if found < CLASSES { Some(found) } else { None }
    }

    // The first page of the run that serves a request for so many pages: the lowest that stands
    // under the least page class that has one, from theirs on.
    pub(crate) fn serving(&self, layout: &RunLayout, pages: u32) -> Option<u32>
        requires store { IsStore layout.now self.now }
        requires pages { (0 < pages) × (pages ≤ 2 ^ 11) }
        ensures { MatchOption result (IsUnserved self.now pages) (IsServing self.now pages) }
    {
        match self.least_noted(class_under(pages)) {
            None => None,
            Some(class) => match self.first_under(class) {
                None => unreachable!(),
                Some(first) => Some(first),
            },
        }
    }
}
