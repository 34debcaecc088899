//! A composite and its calls. Contracts see the list of its parts.

ghost use Rattle.std.specs.Prelude.{◌≡◌, ℕ, ◌+◌, ◌-◌, ◌^◌, ◌<◌, ◌≤◌, List, [], ◌∷◌, ◌++◌, length, take, min, nat_lt, if◌then◌else◌, All, IfOk, IsSomeAnd, slice_get, vec_len, vec_capacity};
ghost use Rattle.pool_law.specs.Composites.{size_of, most_bytes, cut, filled, ranges};
ghost use Rattle.composite_buf.specs.Maps.{Fits, byte_of, byte_at};
ghost use Rattle.composite_buf.specs.Ends.{IsIn};

use pool_law::{Items, Part};
use std::alloc::{AllocError, Global};
use std::marker::Model;

/// The parts of a composite, one behind the other.
pub type PartList = Items<Part>;

/// Where the bytes of a range lie: parts of components in order, none of them empty.
pub type RangeList = Items<Part>;

/// How many parts a composite has room for.
const ROOM: usize = 25;

/// Parts of roots, one behind the other (Netty: `CompositeByteBuf`).
///
/// All memory is taken when it is made.
#[derive(Drop)]
pub struct Composite {
    parts: Vec<Part>,
    ends: Vec<u32>,
}

impl Model for Composite {
    ghost use Rattle.std.specs.Prelude.{List};
    ghost use Rattle.pool_law.specs.declared.id.Part.{Part};

    ghost Value = { List Part };

    ghost view = { λ c. c.parts.items };

    ghost use Rattle.composite_buf.specs.Kept.{IsComposite};

    ghost invariant = { IsComposite };
}

impl Composite {
    /// A composite of these parts.
    pub fn new(alloc: Global, parts: &PartList) -> Result<Composite, AllocError>
        requires count { (1 ≤ length parts.now) × (length parts.now ≤ 24) }
        requires size { size_of parts.now ≤ most_bytes }
        requires fits { All Fits parts.now }
        ensures { IfOk result (λ c. c ≡ parts.now) }
    {
        let mut composite = Composite::empty(alloc)?;
        for part in parts.items() {
            composite.add(*part);
        }
        Ok(composite)
    }

    // A composite of no parts, with room for all that it may have.
    fn empty(alloc: Global) -> Result<Composite, AllocError>
        ensures { IfOk result (λ c. c ≡ []) }
    {
        let parts = Vec::with_capacity(alloc, ROOM)?;
        let ends = Vec::with_capacity(alloc, ROOM)?;
        Ok(Composite { parts, ends })
    }

    /// Puts one more part behind the others. Takes no memory.
    pub fn add(&mut self, part: Part)
        requires count { length self.old < 25 }
        requires size { size_of self.old + part.len ≤ most_bytes }
        requires fits { Fits part }
        ensures parts { self.new ≡ self.old ++ part ∷ [] }

        // So the bytes before it stay where they were.
        ensures bytes { (i : ℕ) → byte_at self.new i ≡ (if nat_lt i (size_of self.old)
            then byte_at self.old i else byte_of part (i - size_of self.old)) }
    {
        let end = self.len() + part.len;
        self.ends.push_reserved(end);
        self.parts.push_reserved(part);
    }

    /// How many bytes the parts have together.
    pub fn len(&self) -> u32
        ensures size { result ≡ size_of self.now }
        ensures bound { result ≤ most_bytes }
    {
        self.ends.last().copied().unwrap_or(0)
    }

    /// How many parts there are.
    pub fn parts(&self) -> u32
        ensures count { result ≡ length self.now }
        ensures bound { result ≤ 25 }
    {
        self.parts.len() as u32
    }

    /// The part of this number. The first has number 0.
    pub fn part(&self, k: u32) -> Part
        requires { k < length self.now }
        ensures part { slice_get self.now k ≡ Some result }
        ensures fits { Fits result }
    {
        self.parts[k as usize]
    }

    /// The number of the part that has the byte of an index, and the offset in it.
    pub fn locate(&self, i: u32) -> (u32, u32)
        requires { i < size_of self.now }
        ensures before { size_of (take result.0 self.now) + result.1 ≡ i }
        ensures inside { IsSomeAnd (slice_get self.now result.0) (λ p. result.1 < p.len) }
        ensures byte { IsSomeAnd (slice_get self.now result.0)
            (λ p. byte_at self.now i ≡ byte_of p result.1) }
    {
        let k = self.part_at(i);
        (k, i - self.start_of(k))
    }

    // The number of the part that an index is in: the first that ends above it.
    fn part_at(&self, i: u32) -> u32
        requires { i < size_of self.now }
        ensures { IsIn self.now i result }
    {
        self.ends.partition_point(|end| *end <= i) as u32
    }

    // Where a part starts.
    fn start_of(&self, k: u32) -> u32
        requires { k ≤ length self.now }
        ensures { result ≡ size_of (take k self.now) }
    {
        if k == 0 { 0 } else { self.ends[k as usize - 1] }
    }

    /// Where the bytes from an index on lie, so many.
    pub fn ranges(&self, alloc: Global, start: u32, len: u32) -> Result<RangeList, AllocError>
        requires { start + len ≤ size_of self.now }
        ensures law { IfOk result (λ r. r ≡ ranges self.now start len) }

        // So they are just these bytes, in order.
        ensures bytes { IfOk result (λ r. (j : ℕ) → j < len →
            byte_at r j ≡ byte_at self.now (start + j)) }
        ensures size { IfOk result (λ r. size_of r ≡ len) }
        ensures filled { IfOk result (All (λ p. 0 < p.len)) }
        ensures fits { IfOk result (All Fits) }
    {
        let mut found = Vec::with_capacity(alloc, self.parts.len())?;
        let mut skip = start;
        let mut left = len;
        for part in &self.parts {
            let range = cut(part, skip, left);
            push_filled(&mut found, range);
            skip = skip.saturating_sub(part.len);
            left -= range.len;
        }
        Ok(Items::of(found))
    }

    /// Puts the one part in the place of all, after its bytes were copied there. Takes no memory.
    pub fn consolidated(&mut self, whole: Part)
        requires size { whole.len ≡ size_of self.old }
        requires fits { Fits whole }
        ensures { self.new ≡ whole ∷ [] }
    {
        self.parts.clear();
        self.ends.clear();
        self.ends.push_reserved(whole.len);
        self.parts.push_reserved(whole);
    }
}

// What a part has of so many bytes from an index on.
fn cut(part: &Part, skip: u32, left: u32) -> Part
    requires { Fits part.now }
    ensures { result ≡ cut part.now (min skip part.now.len)
        (min left (part.now.len - min skip part.now.len)) }
{
    let skipped = skip.min(part.len);
    Part {
        root: part.root,
        offset: part.offset + skipped,
        len: left.min(part.len - skipped),
    }
}

// Puts a part behind the others, where it is not empty.
fn push_filled(parts: &mut Vec<Part>, part: Part)
    requires { vec_len parts.old < vec_capacity parts.old }
    ensures items { parts.new.items ≡ parts.old.items ++ filled (part ∷ []) }
    ensures room { vec_capacity parts.new ≡ vec_capacity parts.old }
    ensures len { vec_len parts.new ≤ vec_len parts.old + 1 }
{
    if part.len > 0 {
        parts.push_reserved(part);
    }
}
