//! A view and its calls. Ranges are answered as the offset in the root and the length.

ghost use Rattle.std.specs.Prelude.{◌≡◌, ◌≤◌, ◌↔◌, IsTrue, IsOk, IfOk, OnOk, OnErr};
ghost use Rattle.pool_law.specs.Views.{view_of, slice_of, root_index, in_range, can_read, can_write, after_read, after_write, reaching, most_capacity, LiesIn, IsView};

use pool_law::{RootId, ViewData};

/// Why a range is refused: it passes a bound of the view.
#[derive(Clone, Copy, PartialEq, Eq, Debug, Drop)]
pub enum RangeNo {
    Range = 1,
}

/// A window on the bytes of a root, with a reader and a writer in it (Netty: `AbstractByteBuf`).
///
/// It lies where a root may have bytes, in its first 16,777,216, and its reader, its writer and its
/// length are in this order. Whether its root has so many bytes, its owner knows.
#[derive(Debug, Drop)]
pub struct View {
    pub at: ViewData,
    ghost is_view: { IsView at },
}

impl View {
    /// All of a new root of at most 16,777,216 bytes: nothing of it is written yet.
    pub fn of_root(root: RootId) -> View
        requires { root.capacity ≤ most_capacity }
        ensures { result.at ≡ view_of root }
    {
        View {
            at: ViewData {
                root,
                offset: 0,
                len: root.capacity,
                reader: 0,
                writer: 0,
            },
        }
    }

    /// A view on `n` bytes of this view from `i` on, all readable. It shares the root's count.
    pub fn slice(&self, i: u32, n: u32) -> Result<View, RangeNo>
        ensures succeeds { IsOk result ↔ IsTrue (in_range self.now.at i n) }
        ensures ok { IfOk result (λ view. view.at ≡ slice_of self.now.at i n) }
    {
        let (offset, len) = self.range(i, n)?;
        Ok(View {
            at: ViewData {
                root: self.at.root,
                offset,
                len,
                reader: 0,
                writer: len,
            },
        })
    }

    /// Another view on the same bytes, with its reader and its writer where this view's are.
    pub fn duplicate(&self) -> View
        ensures { result.at ≡ self.now.at }
    {
        View { at: self.at }
    }

    /// Where `n` bytes of this view from `i` on lie in the root.
    pub fn range(&self, i: u32, n: u32) -> Result<(u32, u32), RangeNo>
        ensures succeeds { IsOk result ↔ IsTrue (in_range self.now.at i n) }
        ensures ok { IfOk result (λ range. range ≡ (root_index self.now.at i, n)) }
    {
        if i > self.at.len || n > self.at.len - i {
            return Err(RangeNo::Range);
        }
        Ok((self.at.offset + i, n))
    }

    /// Where the next `n` bytes to read lie in the root. The reader moves past them.
    pub fn read_range(&mut self, n: u32) -> Result<(u32, u32), RangeNo>
        ensures succeeds { IsOk result ↔ IsTrue (can_read self.old.at n) }
        ensures ok { IfOk result (λ range. range ≡ (root_index self.old.at self.old.at.reader, n)) }
        ensures moved { OnOk result (self.new.at ≡ after_read self.old.at n) }
        ensures err { OnErr result (self.new ≡ self.old) }
    {
        if n > self.at.writer - self.at.reader {
            return Err(RangeNo::Range);
        }
        let start = self.at.offset + self.at.reader;
        self.at.reader += n;
        Ok((start, n))
    }

    /// Where the next `n` bytes to write lie in the root. The writer moves past them.
    /// The view keeps its length: `reach` makes it longer.
    pub fn write_range(&mut self, n: u32) -> Result<(u32, u32), RangeNo>
        ensures succeeds { IsOk result ↔ IsTrue (can_write self.old.at n) }
        ensures ok { IfOk result (λ range. range ≡ (root_index self.old.at self.old.at.writer, n)) }
        ensures moved { OnOk result (self.new.at ≡ after_write self.old.at n) }
        ensures err { OnErr result (self.new ≡ self.old) }
    {
        if n > self.at.len - self.at.writer {
            return Err(RangeNo::Range);
        }
        let start = self.at.offset + self.at.writer;
        self.at.writer += n;
        Ok((start, n))
    }

    /// Lengthens the view up to the end of its root, which has `capacity` bytes now. The reader
    /// and the writer stay. No view grows shorter: `capacity` is at least where the view ends.
    pub fn reach(&mut self, capacity: u32)
        requires covers { LiesIn capacity self.old.at }
        requires most { capacity ≤ most_capacity }
        ensures { self.new.at ≡ reaching capacity self.old.at }
    {
        self.at.len = capacity - self.at.offset;
    }
}
