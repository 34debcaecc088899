//! What comes back to an arena.

ghost use Rattle.std.specs.Prelude.{◌≡◌, ◌<◌, ℕ, Some, is_some, not, filter, IfOk, OnOk};
ghost use Rattle.size_classes.specs.Pages.{run_at, run_start};
ghost use Rattle.size_classes.specs.Elements.{Elements, with_back, is_full, is_idle};
ghost use Rattle.pool_law.specs.declared.note.Did.{Did};
ghost use Rattle.pool_law.specs.Caches.{if_so};
ghost use Rattle.pool_law.specs.Same.{same_taking};
ghost use Rattle.pool_law.specs.Arenas.{chunk_at, elements_in, elements_at, with_elements};
ghost use Rattle.pool_law.specs.Arenas.{unless_gone, run_given, element_given, small_given};
ghost use Rattle.pool_law.specs.Arenas.{given_place, is_out_of, arena_step};

use crate::arena::Arena;
use crate::arena::takes::is_full_at;
use crate::chunk::Chunk;
use crate::lists::settling::down_to;
use crate::sizes::{Sizes, size_of};
use pool_law::{ListName, RegionId};
use std::alloc::{AllocError, Global};

impl Arena {
    /// Takes back the region that a note names as given back. Answers whether it was out.
    pub(crate) fn given(
        &mut self,
        alloc: Global,
        sizes: &Sizes,
        region: &RegionId,
    ) -> Result<bool, AllocError>
        ensures { (number : ℕ) → IfOk result (λ stands. if_so stands self.new
            ≡ arena_step sizes.now number self.old (Did.Give region.now)) }
    {
        if !self.is_out(region) {
            return Ok(false);
        }
        self.give_place(
            alloc,
            sizes,
            region.class,
            region.place.chunk,
            region.place.offset,
        )?;
        self.forget(region);
        Ok(true)
    }

    // Whether the taking is out.
    fn is_out(&self, region: &RegionId) -> bool
        ensures { result ≡ is_out_of self.now region.now }
    {
        self.takings.has(region)
    }

    // The taking is out no more.
    fn forget(&mut self, region: &RegionId)
        ensures { self.new ≡ record self.old {
          out = filter (λ other. not (same_taking region.now other)) self.old.out;
        } }
    {
        self.takings.remove(region);
    }

    // A place of a class is given back.
    fn give_place(
        &mut self,
        alloc: Global,
        sizes: &Sizes,
        class: u32,
        place: u32,
        offset: u32,
    ) -> Result<(), AllocError>
        ensures arena { OnOk result
            (self.new ≡ given_place sizes.now self.old class place offset) }
        ensures out { OnOk result (self.new.out ≡ self.old.out) }
    {
        if sizes.is_small(class) {
            self.give_small(alloc, sizes, class, place, offset)
        } else {
            self.give_back(alloc, sizes, place, offset / sizes.page())
        }
    }

    // A place of a small class is given back, if it is an element of a subpage of the class.
    fn give_small(
        &mut self,
        alloc: Global,
        sizes: &Sizes,
        class: u32,
        place: u32,
        offset: u32,
    ) -> Result<(), AllocError>
        requires { class < 47 }
        ensures arena { OnOk result
            (self.new ≡ small_given sizes.now self.old class place offset) }
        ensures out { OnOk result (self.new.out ≡ self.old.out) }
    {
        let page = self.start_of(place, offset / sizes.page());
        let begin = sizes.wide_page() * u64::from(page);
        let element = (u64::from(offset).saturating_sub(begin) / size_of(class)) as u32;
        if self.has_elements(class, place, page) {
            self.give_element(alloc, sizes, class, place, page, element)?;
        }
        Ok(())
    }

    // The first page of the run in which a page of a chunk lies.
    fn start_of(&self, place: u32, page: u32) -> u32
        ensures { result ≡ run_start page (chunk_at self.now place) }
    {
        match self.chunks.get(place as usize) {
            Some(Some(chunk)) => chunk.start_of(page),
            _ => 0,
        }
    }

    // Whether a subpage of the class begins at a page.
    fn has_elements(&self, class: u32, place: u32, page: u32) -> bool
        ensures { result ≡ is_some (elements_at self.now class place page) }
    {
        match self.chunks.get(place as usize) {
            Some(Some(chunk)) => chunk.elements_at(page, class).is_some(),
            _ => false,
        }
    }

    // Whether all elements of a subpage are out.
    fn is_full(&self, class: u32, place: u32, page: u32) -> bool
        ensures { (e : Elements) → elements_at self.now class place page ≡ Some e
            → result ≡ is_full e }
    {
        match self.chunks.get(place as usize) {
            Some(Some(chunk)) => is_full_at(chunk, page, class),
            _ => false,
        }
    }

    // An element is given back, and its subpage enters its list if it was full. One that is then
    // idle gives its run back, if it is not alone.
    fn give_element(
        &mut self,
        alloc: Global,
        sizes: &Sizes,
        class: u32,
        place: u32,
        page: u32,
        element: u32,
    ) -> Result<(), AllocError>
        ensures arena { (e : Elements) → elements_at self.old class place page ≡ Some e
            → OnOk result (self.new ≡ element_given sizes.now self.old class place page element e) }
        ensures out { OnOk result (self.new.out ≡ self.old.out) }
    {
        let was_full = self.is_full(class, place, page);
        let is_idle = self.take_back(alloc, class, place, page, element)?;
        if was_full {
            self.push_subpage(class, place, page)?;
        }
        if is_idle && !self.is_alone(class) {
            self.drop_subpage(class, place, page);
            self.give_back(alloc, sizes, place, page)?;
        }
        Ok(())
    }

    // An element of a subpage is taken back. Answers whether none is then out.
    fn take_back(
        &mut self,
        alloc: Global,
        class: u32,
        place: u32,
        page: u32,
        element: u32,
    ) -> Result<bool, AllocError>
        ensures arena { (e : Elements) → elements_at self.old class place page ≡ Some e
            → IfOk result (λ idle. (idle ≡ is_idle (with_back e element))
            × (self.new ≡ with_elements self.old place page class (with_back e element))) }
        ensures out { OnOk result (self.new.out ≡ self.old.out) }
    {
        let chunk = self
            .take_chunk(alloc, place)
            .taken_back(alloc, page, element)?;
        let is_idle = is_idle_at(&chunk, page, class);
        self.put_chunk(place, Some(chunk));
        Ok(is_idle)
    }

    // A run is given back, and its chunk settles downwards.
    #[tactic(auto, using(crate::proofs::ArenaLemmas::set_twice))]
    fn give_back(
        &mut self,
        alloc: Global,
        sizes: &Sizes,
        place: u32,
        page: u32,
    ) -> Result<(), AllocError>
        ensures arena { OnOk result (self.new ≡ run_given sizes.now self.old place page) }
        ensures out { OnOk result (self.new.out ≡ self.old.out) }
    {
        let old = self.take_chunk(alloc, place);
        let chunk = old.given(alloc, page)?;
        let here = self.lists.list_of(place);
        let there = down_to(chunk.usage(sizes), here);
        let left = unless_gone(here, there, chunk);
        self.put_chunk(place, left);
        self.lists.settle_down(place, here, there)?;
        Ok(())
    }
}

// A chunk that was in a list and is in none any more is destroyed.
fn unless_gone(here: Option<ListName>, there: Option<ListName>, chunk: Chunk) -> Option<Chunk>
    ensures { result ≡ unless_gone here there chunk }
{
    match (here, there) {
        (Some(_), None) => None,
        _ => Some(chunk),
    }
}

// Whether no element of the subpage that begins at a page is out.
fn is_idle_at(chunk: &Chunk, page: u32, class: u32) -> bool
    ensures { (e : Elements) → elements_in class (run_at page chunk.now) ≡ Some e
        → result ≡ is_idle e }
{
    match chunk.elements_at(page, class) {
        Some(elements) => elements.is_idle(),
        None => false,
    }
}
