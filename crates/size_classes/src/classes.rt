//! The size classes of a chunk.

ghost use Rattle.std.specs.Prelude.{◌≡◌, ℕ, ◌+◌, ◌*◌, ◌/◌, ◌%◌, ◌^◌, ◌<◌, ◌≤◌, ◌↔◌, length, IfOk, IfSome, IsSome, IsNone, Some, slice_index, true, false};
ghost use Rattle.std.specs.Int.{div_ceil};
ghost use Rattle.size_classes.specs.Sizes.{Geometry, IsGeometry, first_sizes, of_pages, page_of, page_shift, chunk_pages, chunk_bytes, size_at, class_count, class_of, is_small, small_count, pages_of, IsPageClass, page_class_up, page_classes_up_to, subpage_pages};
ghost use Rattle.size_classes.specs.PageCounts.{IsFirstAtLeast};
ghost use Rattle.size_classes.specs.Subpages.{reckoned_pages};

use crate::counts::{first_at_least, last_at_most};
use std::alloc::{AllocError, Global};
use std::marker::Model;

// The sizes of all classes are multiples of it.
const UNIT: u32 = 16;

// The greatest request whose class is in the table.
const TABLED: u32 = 4096;

/// The sizes in which a chunk of `2^order` pages is handed out.
/// Classes are numbered from 0 by size; the page classes, from 0 too, are those of whole pages.
/// The sizes are those of Netty's `SizeClasses`.
#[derive(Drop)]
pub struct SizeClasses {
    order: u32,
    page: u32,
    // The page is so many doublings of 1.
    shift: u32,
    sizes: Vec<u32>,
    // The class of a request of so many units.
    requests: Vec<u8>,
}

impl Model for SizeClasses {
    ghost use Rattle.size_classes.specs.Sizes.{Geometry};

    ghost Value = { Geometry };

    ghost use Rattle.size_classes.specs.Tables.{geometry_in, AreTables};

    ghost view = { geometry_in };

    ghost invariant = { AreTables };
}

// The bytes of a class: 16, 32, 48, 64, and from there four sizes in each doubling.
fn size_at(class: u32) -> u32
    requires { class < 76 }
    ensures { result ≡ size_at class }
{
    if class < 4 {
        return 16 * (class + 1);
    }
    let doubling = (class - 4) / 4;
    let step = (class - 4) % 4;
    2u32.pow(6 + doubling) + (step + 1) * 2u32.pow(4 + doubling)
}

// The sizes of the first classes.
fn size_table(alloc: Global, count: u32) -> Result<Vec<u32>, AllocError>
    requires { count ≤ 76 }
    ensures { IfOk result (λ v. v.items ≡ first_sizes count) }
{
    let mut sizes = Vec::new(alloc);
    for class in 0..count {
        sizes.push(size_at(class))?;
    }
    Ok(sizes)
}

// The class of each request of at most 256 units.
fn request_table(alloc: Global) -> Result<Vec<u8>, AllocError>
    ensures count { IfOk result (λ v. length v.items ≡ 257) }
    ensures classes { IfOk result (λ v. (units : ℕ) → units ≤ 256
        → IsFirstAtLeast units (slice_index v.items units)) }
{
    let mut requests = Vec::new(alloc);
    for units in 0..TABLED / UNIT + 1 {
        requests.push(first_at_least(units) as u8)?;
    }
    Ok(requests)
}

// The least number of pages of `2^shift` bytes whose bytes are a multiple of a size: the size
// without the powers of two that the page has.
fn whole_pages(size: u32, shift: u32) -> u32
    requires { shift < 32 }
    ensures { result ≡ reckoned_pages size shift }
{
    size >> size.trailing_zeros().min(shift)
}

impl SizeClasses {
    /// The classes of a chunk of `2^order` pages of so many bytes. `Err` is want of memory.
    pub fn new(alloc: Global, order: u32, page: u32) -> Result<SizeClasses, AllocError>
        requires { IsGeometry (of_pages order page) }
        ensures { IfOk result (λ c. c ≡ of_pages order page) }
    {
        let shift = page.trailing_zeros();
        let sizes = size_table(alloc, 4 * (order + shift - 13) + 32)?;
        let requests = request_table(alloc)?;
        Ok(SizeClasses {
            order,
            page,
            shift,
            sizes,
            requests,
        })
    }

    /// How many classes there are.
    pub fn count(&self) -> u32
        ensures { result ≡ class_count self.now }
    {
        self.sizes.len() as u32
    }

    // The least class that holds `n` bytes, among the classes of any chunk.
    fn least_class(&self, n: u32) -> u32
        ensures first { IsFirstAtLeast (div_ceil n 16) result }
        ensures few { result < 256 }
    {
        let units = n.div_ceil(UNIT);
        if n <= TABLED {
            u32::from(self.requests[units as usize])
        } else {
            first_at_least(units)
        }
    }

    /// The least class that holds `n` bytes, or `None` for more bytes than a chunk has.
    ///
    /// It takes constant time: a table knows the classes of requests of up to 4,096 bytes, and
    /// those of the others are reckoned.
    pub fn class_of(&self, n: u32) -> Option<u32>
        ensures class { result ≡ class_of self.now n }
        ensures none { IsNone result ↔ (chunk_bytes self.now < n) }
        ensures within { IfSome result (λ class. class < class_count self.now) }
    {
        let class = self.least_class(n);
        if (class as usize) < self.sizes.len() {
            Some(class)
        } else {
            None
        }
    }

    /// The bytes of a class.
    pub fn size_of(&self, class: u32) -> u32
        requires { class < class_count self.now }
        ensures value { result ≡ size_at class }
        ensures within { (0 < result) × (result ≤ 2 ^ 24) }
    {
        self.sizes[class as usize]
    }

    /// Whether regions of a class are elements of a subpage: it is below four pages.
    /// The other classes are normal, and their regions are runs of pages.
    pub fn is_small(&self, class: u32) -> bool
        requires { class < class_count self.now }
        ensures { result ≡ is_small self.now class }
    {
        self.size_of(class) < 4 * self.page
    }

    /// How many classes are small: those below it.
    pub fn small_count(&self) -> u32
        ensures count { result ≡ small_count self.now }
        ensures within { result < class_count self.now }
    {
        4 * self.shift - 13
    }

    /// The pages of a normal class, which fills them.
    pub fn pages_of(&self, class: u32) -> u32
        requires normal { (class < class_count self.now) × (is_small self.now class ≡ false) }
        ensures pages { result ≡ pages_of self.now class }
        ensures whole { result * page_of self.now ≡ size_at class }
        ensures page_class { IsPageClass self.now result }
    {
        self.size_of(class) >> self.shift
    }

    /// The least page class of at least `pages` pages.
    pub fn page_class_up(&self, pages: u32) -> u32
        requires { (1 ≤ pages) × (pages ≤ chunk_pages self.now) }
        ensures { page_class_up self.now pages ≡ Some result }
    {
        prove!(pages <= 2u32.pow(self.order));
        first_at_least(pages)
    }

    /// The greatest page class of at most `pages` pages.
    pub fn page_class_down(&self, pages: u32) -> u32
        requires { (1 ≤ pages) × (pages ≤ chunk_pages self.now) }
        // The page classes up to it are all those of at most so many pages.
        ensures { result + 1 ≡ page_classes_up_to self.now pages }
    {
        prove!(pages <= 2u32.pow(self.order));
        last_at_most(pages)
    }

    /// The least number of pages whose bytes are a multiple of a small class's size:
    /// a subpage of the class lies in so many.
    pub fn subpage_pages(&self, class: u32) -> u32
        requires small { (class < class_count self.now) × (is_small self.now class ≡ true) }
        ensures pages { result ≡ subpage_pages self.now class }
        ensures within { (1 ≤ result) × (result ≤ 7) }
        ensures page_class { IsPageClass self.now result }
    {
        whole_pages(self.size_of(class), self.shift)
    }
}
