//! The size classes of a run, with its page classes as they stand.

ghost use Rattle.std.specs.Prelude.{◌≡◌, ◌==◌, ◌*◌, ◌/◌, ◌^◌, ◌<◌, ◌≤◌, true, IfOk, IsTrue};
ghost use Rattle.size_classes.specs.Sizes.{IsGeometry, size_at, is_small, pages_of};
ghost use Rattle.size_classes.specs.Sizes.{class_of, page_of, chunk_pages, subpage_pages, element_count};
ghost use Rattle.object_steps.specs.Runs.{IsCapped};
ghost use Rattle.size_classes.specs.Sizes.{
  of_pages,
  class_count,
  first_sizes,
  whole_pages,
  page_class_under,
  greatest_at_most,
};

use size_classes::SizeClasses;
use std::alloc::{AllocError, Global};
use std::marker::Model;

// The classes whose sizes are numbers of 33 bits: those below this number.
const SIZED_CLASSES: u32 = 112;

// More pages than a chunk has.
const MORE_PAGES: u32 = 131_072;

/// The size classes of chunks of `2^order` pages of so many bytes.
#[derive(Drop)]
pub struct Sizes {
    order: u32,
    page: u32,
    classes: SizeClasses,
    pages: Vec<u32>,
}

impl Model for Sizes {
    ghost use Rattle.size_classes.specs.Sizes.{Geometry};

    ghost Value = { Geometry };

    ghost use Rattle.object_steps.specs.Sized.{geometry_in, AreSizes};

    ghost view = { geometry_in };

    ghost invariant = { AreSizes };
}

impl Sizes {
    /// The classes of chunks of `2^order` pages of so many bytes.
    pub fn new(alloc: Global, order: u32, page: u32) -> Result<Sizes, AllocError>
        requires { IsGeometry (of_pages order page) }
        ensures { IfOk result (λ sizes. sizes ≡ of_pages order page) }
    {
        let classes = SizeClasses::new(alloc, order, page)?;
        let sizes = all_sizes(alloc, &classes)?;
        let pages = whole_pages(alloc, page, &sizes)?;
        Ok(Sizes {
            order,
            page,
            classes,
            pages,
        })
    }

    /// The classes alone.
    pub fn classes(&self) -> &SizeClasses
        ensures { result.now ≡ self.now }
    {
        &self.classes
    }

    /// The bytes of a page.
    pub fn page(&self) -> u32
        ensures page { result ≡ page_of self.now }
        ensures within { (0 < result) × (result ≤ 2 ^ 15) }
    {
        self.page
    }

    /// The bytes of a page, as a number of 64 bits.
    pub fn wide_page(&self) -> u64
        ensures page { result ≡ page_of self.now }
        ensures within { (0 < result) × (result ≤ 2 ^ 15) }
    {
        u64::from(self.page)
    }

    /// The pages of a chunk.
    pub fn chunk_pages(&self) -> u32
        ensures pages { result ≡ chunk_pages self.now }
        ensures within { (0 < result) × (result ≤ 2 ^ 11) }
    {
        2u32.pow(self.order)
    }

    /// The pages of a subpage of a small class.
    pub fn subpage_pages(&self, class: u32) -> u32
        requires { is_small self.now class ≡ true }
        ensures pages { result ≡ subpage_pages self.now class }
        ensures within { (0 < result) × (result ≤ 7) }
    {
        self.classes.subpage_pages(class)
    }

    /// How many elements a subpage of a small class has.
    pub fn element_count(&self, class: u32) -> u32
        requires { is_small self.now class ≡ true }
        ensures count { result ≡ element_count self.now class }
        ensures within { (0 < result) × (result ≤ 2 ^ 16) }
    {
        self.page * self.subpage_pages(class) / self.classes.size_of(class)
    }

    /// The least class that holds so many bytes.
    pub fn class_of(&self, bytes: u32) -> Option<u32>
        ensures { result ≡ class_of self.now bytes }
    {
        self.classes.class_of(bytes)
    }

    /// How many classes there are.
    pub fn count(&self) -> u32
        ensures { result ≡ class_count self.now }
    {
        self.classes.count()
    }

    /// Whether regions of a class are elements of a subpage.
    pub fn is_small(&self, class: u32) -> bool
        ensures small { result ≡ is_small self.now class }
        ensures few { IsTrue result → class < 47 }
    {
        class < self.classes.small_count()
    }

    /// The pages of a class that is not small, or so many that no chunk has either.
    pub fn pages_of(&self, class: u32) -> u32
        ensures capped { IsCapped (pages_of self.now class) result }
        ensures some { 0 < result }
    {
        if class < SIZED_CLASSES {
            let page = u64::from(self.page);
            ((size_of(class) + (page - 1)) / page) as u32
        } else {
            MORE_PAGES
        }
    }

    /// The pages of the greatest page class that a run of so many pages holds.
    pub fn class_under(&self, pages: u32) -> u32
        ensures { result ≡ page_class_under self.now pages }
    {
        greatest_at_most(pages, &self.pages)
    }
}

/// The bytes of a class, of those that are numbers of 64 bits.
pub fn size_of(class: u32) -> u64
    requires { class < 112 }
    ensures value { result ≡ size_at class }
    ensures within { result ≤ 2 ^ 33 }
{
    if class < 4 {
        return 16 * (u64::from(class) + 1);
    }
    let doubling = (class - 4) / 4;
    let step = u64::from((class - 4) % 4);
    2u64.pow(6 + doubling) + (step + 1) * 2u64.pow(4 + doubling)
}

/// Whether a length is that of a class.
pub fn has_size(class: u32, len: u32) -> bool
    ensures { result ≡ (len == size_at class) }
{
    class < SIZED_CLASSES && u64::from(len) == size_of(class)
}

// The sizes of all classes.
fn all_sizes(alloc: Global, classes: &SizeClasses) -> Result<Vec<u32>, AllocError>
    ensures { IfOk result (λ sizes. sizes.items ≡ first_sizes (class_count classes.now)) }
{
    let mut sizes = Vec::new(alloc);
    for class in 0..classes.count() {
        sizes.push(classes.size_of(class))?;
    }
    Ok(sizes)
}

// Those of the sizes that are whole pages, in pages.
fn whole_pages(alloc: Global, page: u32, sizes: &[u32]) -> Result<Vec<u32>, AllocError>
    requires { 0 < page }
    ensures { IfOk result (λ pages. pages.items ≡ whole_pages page sizes.now) }
{
    sizes
        .iter()
        .filter(|size| **size % page == 0)
        .map(|size| *size / page)
        .collect(alloc)
}

// The greatest of these that is at most so many, and 0 where there is none.
fn greatest_at_most(pages: u32, classes: &[u32]) -> u32
    ensures { result ≡ greatest_at_most pages classes.now }
{
    let mut greatest = 0;
    for class in classes {
        if *class <= pages {
            greatest = greatest.max(*class);
        }
    }
    greatest
}
