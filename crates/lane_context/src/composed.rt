//! A composite of a lane: its parts, with a count, a reader and a writer of its own.

ghost use Rattle.std.specs.Prelude.{◌≡◌, ◌≤◌, ◌<◌, length, All, IfOk, vec_capacity};
ghost use Rattle.pool_law.specs.Composites.{Composite, most_bytes, size_of, moved_to};
ghost use Rattle.composite_buf.specs.Maps.{Fits};
ghost use Rattle.lane_context.specs.Composing.{set_marks};

use composite_buf::Composite;
use pool_law::{Part, RootId};
use std::alloc::{AllocError, Global};
use std::marker::Model;

/// A composite that a name is bound to. Once its count is 0, it has ended.
#[derive(Drop)]
pub struct Composed {
    parts: Composite,
    count: u32,
    reader: u32,
    writer: u32,
}

/// Where the reader and the writer of a composite are.
#[derive(Clone, Copy, Drop)]
pub struct Marks {
    /// The index of the next byte to be read, no greater than the writer.
    pub reader: u32,
    /// The index of the next byte to be written.
    pub writer: u32,
}

impl Model for Composed {
    ghost use Rattle.pool_law.specs.Composites.{Composite};

    ghost Value = { Composite };

    ghost view = { λ c. record {
      parts = c.parts;
      count = c.count;
      reader = c.reader;
      writer = c.writer;
    } };
}

impl Composed {
    /// A composite of these parts.
    pub fn new(parts: Composite, count: u32, marks: Marks) -> Composed
        ensures { result ≡ record {
          parts = parts;
          count = count;
          reader = marks.reader;
          writer = marks.writer;
        } }
    {
        Composed {
            parts,
            count,
            reader: marks.reader,
            writer: marks.writer,
        }
    }

    /// Its own count.
    pub fn count(&self) -> u32
        ensures { result ≡ self.now.count }
    {
        self.count
    }

    /// Where its reader and its writer are.
    pub fn marks(&self) -> Marks
        ensures reader { result.reader ≡ self.now.reader }
        ensures writer { result.writer ≡ self.now.writer }
    {
        Marks {
            reader: self.reader,
            writer: self.writer,
        }
    }

    /// How many bytes its parts have together.
    pub fn len(&self) -> u32
        ensures size { result ≡ size_of self.now.parts }
        ensures most { result ≤ most_bytes }
    {
        self.parts.len()
    }

    /// Its parts.
    pub fn parts(&self) -> &Composite
        ensures { result.now ≡ self.now.parts }
    {
        &self.parts
    }

    /// Its parts, in a list of their own that has room for one more.
    pub fn part_list(&self, alloc: Global) -> Result<Vec<Part>, AllocError>
        ensures items { IfOk result (λ parts. parts.items ≡ self.now.parts) }
        ensures fits { IfOk result (λ parts. All Fits parts.items) }
        ensures room { IfOk result (λ parts. length parts.items < vec_capacity parts) }
    {
        let count = self.parts.parts();
        let mut parts = Vec::with_capacity(alloc, count as usize + 1)?;
        for k in 0..count {
            parts.push_reserved(self.parts.part(k));
        }
        Ok(parts)
    }

    /// Gives it another count.
    pub(crate) fn recount(&mut self, count: u32)
        ensures { self.new ≡ record self.old { count = count } }
    {
        self.count = count;
    }

    /// Moves its reader and its writer.
    pub(crate) fn mark(&mut self, marks: Marks)
        ensures { self.new ≡ set_marks marks self.old }
    {
        self.reader = marks.reader;
        self.writer = marks.writer;
    }

    /// Puts a root in the place of all its parts, once their bytes are copied there.
    pub(crate) fn move_to(&mut self, root: RootId)
        requires { root.capacity ≡ size_of self.old.parts }
        ensures { self.new ≡ moved_to root self.old }
    {
        self.parts.consolidated(Part {
            root,
            offset: 0,
            len: root.capacity,
        });
    }
}
