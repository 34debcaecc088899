//! What an arena gives.

ghost use Rattle.std.specs.Prelude.{◌≡◌, ◌+◌, ◌<◌, ℕ, Some, true};
ghost use Rattle.std.specs.Prelude.{option_and_then, IsTrue, IfOk};
ghost use Rattle.size_classes.specs.Sizes.{is_small};
ghost use Rattle.size_classes.specs.Pages.{run_at};
ghost use Rattle.size_classes.specs.Elements.{Elements, next_element, with_out, is_full};
ghost use Rattle.pool_law.specs.declared.note.Did.{Did};
ghost use Rattle.pool_law.specs.Caches.{if_so};
ghost use Rattle.pool_law.specs.Same.{same_region};
ghost use Rattle.pool_law.specs.Arenas.{take_element, take_small, take_class, front_of};
ghost use Rattle.pool_law.specs.Arenas.{elements_at, elements_in, with_elements, region_of, arena_step};
ghost use Rattle.object_steps.specs.Moves.{GivesYielded};

use crate::arena::Arena;
use crate::chunk::Chunk;
use crate::elements::Elements;
use crate::run::Purpose;
use crate::sizes::{Sizes, has_size, size_of};
use pool_law::RegionId;
use std::alloc::{AllocError, Global};

impl Arena {
    /// Takes the region that a note names as taken. Answers whether it is the one that is taken.
    pub(crate) fn taken(
        &mut self,
        alloc: Global,
        sizes: &Sizes,
        number: u32,
        class: u32,
        region: &RegionId,
    ) -> Result<bool, AllocError>
        ensures { IfOk result (λ stands. if_so stands self.new
            ≡ arena_step sizes.now number self.old (Did.Take class region.now)) }
    {
        let Some((place, offset)) = self.take_class(alloc, sizes, class)? else {
            return Ok(false);
        };
        if !is_region(region, number, class, self.takings.count(), place, offset) {
            return Ok(false);
        }
        self.takings.push(region)?;
        Ok(true)
    }

    /// Answers whether the arena is full for a class, as a note says.
    pub(crate) fn full(
        &mut self,
        alloc: Global,
        sizes: &Sizes,
        class: u32,
    ) -> Result<bool, AllocError>
        ensures { (number : ℕ) → IfOk result (λ stands. if_so stands self.new
            ≡ arena_step sizes.now number self.old (Did.Full class)) }
    {
        if class >= sizes.count() {
            return Ok(false);
        }
        let spot = self.take_class(alloc, sizes, class)?;
        Ok(spot.is_none())
    }

    // The chunk and the offset that a class is given. None where the arena is full.
    fn take_class(
        &mut self,
        alloc: Global,
        sizes: &Sizes,
        class: u32,
    ) -> Result<Option<(u32, u64)>, AllocError>
        ensures { IfOk result
            (GivesYielded (take_class sizes.now self.old class) self.old self.new) }
    {
        if sizes.is_small(class) {
            return self.take_small(alloc, sizes, class);
        }
        let pages = sizes.pages_of(class);
        let Some((place, page)) = self.take_run(alloc, sizes, pages, Purpose::Whole)? else {
            return Ok(None);
        };
        Ok(Some((place, sizes.wide_page() * u64::from(page))))
    }

    // An element of the front subpage, or of a new one where there is none.
    fn take_small(
        &mut self,
        alloc: Global,
        sizes: &Sizes,
        class: u32,
    ) -> Result<Option<(u32, u64)>, AllocError>
        requires small { is_small sizes.now class ≡ true }
        requires few { class < 47 }
        ensures { IfOk result (GivesYielded
            (take_small sizes.now self.old class (front_of self.old class)) self.old self.new) }
    {
        if let Some((place, page)) = self.first_subpage(class) {
            return self.take_element(alloc, sizes, class, place, page);
        }
        let elements = Elements::new(alloc, sizes.element_count(class))?;
        let pages = sizes.subpage_pages(class);
        let what = Purpose::Sub { class, elements };
        let Some((place, page)) = self.take_run(alloc, sizes, pages, what)? else {
            return Ok(None);
        };
        self.push_subpage(class, place, page)?;
        self.take_element(alloc, sizes, class, place, page)
    }

    // The next element of a subpage, where it has one.
    fn take_element(
        &mut self,
        alloc: Global,
        sizes: &Sizes,
        class: u32,
        place: u32,
        page: u32,
    ) -> Result<Option<(u32, u64)>, AllocError>
        requires { class < 47 }
        ensures { IfOk result (GivesYielded
            (take_element sizes.now self.old class (place, page)) self.old self.new) }
    {
        let Some(element) = self.next_element(class, place, page) else {
            return Ok(None);
        };
        let is_full = self.hand_out(alloc, class, place, page, element)?;
        if is_full {
            self.drop_subpage(class, place, page);
        }
        let offset = sizes.wide_page() * u64::from(page) + u64::from(element) * size_of(class);
        Ok(Some((place, offset)))
    }

    // The element of a subpage that is handed out next.
    fn next_element(&self, class: u32, place: u32, page: u32) -> Option<u32>
        ensures { result ≡ option_and_then next_element (elements_at self.now class place page) }
    {
        match self.chunks.get(place as usize) {
            Some(Some(chunk)) => match chunk.elements_at(page, class) {
                Some(elements) => elements.next(),
                None => None,
            },
            _ => None,
        }
    }

    // An element of a subpage is handed out. Answers whether all are then out.
    fn hand_out(
        &mut self,
        alloc: Global,
        class: u32,
        place: u32,
        page: u32,
        element: u32,
    ) -> Result<bool, AllocError>
        ensures { (e : Elements) → elements_at self.old class place page ≡ Some e → IfOk result
            (λ full. (full ≡ is_full (with_out e element))
            × (self.new ≡ with_elements self.old place page class (with_out e element))) }
    {
        let chunk = self
            .take_chunk(alloc, place)
            .handed_out(alloc, page, element)?;
        let is_full = is_full_at(&chunk, page, class);
        self.put_chunk(place, Some(chunk));
        Ok(is_full)
    }
}

// Whether all elements of the subpage that begins at a page are out.
pub(crate) fn is_full_at(chunk: &Chunk, page: u32, class: u32) -> bool
    ensures { (e : Elements) → elements_in class (run_at page chunk.now) ≡ Some e
        → result ≡ is_full e }
{
    match chunk.elements_at(page, class) {
        Some(elements) => elements.is_full(),
        None => false,
    }
}

// Whether a region is that of the next taking, which has these numbers.
fn is_region(
    region: &RegionId,
    number: u32,
    class: u32,
    takings: u64,
    place: u32,
    offset: u64,
) -> bool
    ensures same { result ≡ same_region region.now
        (region_of number class region.now.owner (takings + 1) place offset) }
    ensures taking { IsTrue result → region.now.taking ≡ takings + 1 }
{
    region.place.arena == number
        && region.place.chunk == place
        && u64::from(region.place.offset) == offset
        && has_size(class, region.place.len)
        && region.class == class
        && region.taking > takings
        && region.taking - 1 == takings
        && region.uses == 0
}
