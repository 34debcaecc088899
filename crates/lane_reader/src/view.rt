//! A view as a lane keeps it, and a range of a root.

ghost use Rattle.std.specs.Prelude.{◌≡◌, ◌+◌, ◌≤◌, ◌^◌, min, ◌-◌, nat_le, IsTrue};
ghost use Rattle.pool_law.specs.Same.{same_view};
ghost use Rattle.pool_law.specs.Views.{view_of, root_index, in_range, can_read, can_write};
ghost use Rattle.pool_law.specs.Views.{slice_of, after_read, after_write, reaching};

use pool_law::{RootId, ViewData};

/// So many bytes of a root, from an offset on. The offset has 64 bits, as that of a view.
#[derive(Clone, Copy, Drop)]
pub(crate) struct Range {
    pub(crate) root: RootId,
    pub(crate) offset: u64,
    pub(crate) len: u32,
    ghost within: { offset + len ≤ 2 ^ 34 },
}

/// A window on the bytes of a root. Its offset has 64 bits, since a note may name any view.
#[derive(Clone, Copy, Drop)]
pub(crate) struct View {
    pub(crate) root: RootId,
    pub(crate) offset: u64,
    pub(crate) len: u32,
    pub(crate) reader: u32,
    pub(crate) writer: u32,
    ghost within: { offset + len ≤ 2 ^ 33 },
}

// Whether so many bytes from an offset on lie within a length.
fn lie_within(offset: usize, len: usize, all: usize) -> bool
    ensures { result ≡ nat_le (offset + len) all }
{
    len <= all && offset <= all - len
}

impl Range {
    ghost use Rattle.pool_law.specs.Composites.{cut};
    ghost use Rattle.lane_reader.specs.Viewing.{part_of};

    /// What it has of so many bytes from an index on.
    pub(crate) fn cut(&self, index: u64, len: usize) -> Range
        ensures { let skipped = min index self.now.len in
            part_of result ≡ cut (part_of self.now) skipped (min len (self.now.len - skipped)) }
    {
        let skipped = index.min(u64::from(self.len)) as u32;
        Range {
            root: self.root,
            offset: self.offset + u64::from(skipped),
            len: len.min((self.len - skipped) as usize) as u32,
        }
    }
}

impl View {
    ghost use Rattle.pool_law.specs.Composites.{readable};
    ghost use Rattle.lane_reader.specs.Viewing.{data_of, part_of};

    /// The view that a note names.
    pub(crate) fn of(view: ViewData) -> View
        ensures { data_of result ≡ view }
    {
        View {
            root: view.root,
            offset: u64::from(view.offset),
            len: view.len,
            reader: view.reader,
            writer: view.writer,
        }
    }

    /// The whole of a new root.
    pub(crate) fn whole(root: RootId) -> View
        ensures { data_of result ≡ view_of root }
    {
        View {
            root,
            offset: 0,
            len: root.capacity,
            reader: 0,
            writer: 0,
        }
    }

    /// Whether it is the view that a note names.
    pub(crate) fn is(&self, other: &ViewData) -> bool
        ensures { result ≡ same_view (data_of self.now) other.now }
    {
        self.root == other.root
            && (self.offset == u64::from(other.offset)
                && (self.len == other.len
                    && (self.reader == other.reader && self.writer == other.writer)))
    }

    /// The byte of the root that an index means.
    pub(crate) fn root_index(&self, index: u32) -> u64
        ensures { result ≡ root_index (data_of self.now) index }
    {
        self.offset + u64::from(index)
    }

    /// Whether a range lies in the view.
    pub(crate) fn in_range(&self, index: u32, len: usize) -> bool
        ensures { result ≡ in_range (data_of self.now) index len }
    {
        lie_within(index as usize, len, self.len as usize)
    }

    /// Whether so much can be read.
    pub(crate) fn can_read(&self, len: u32) -> bool
        ensures { result ≡ can_read (data_of self.now) len }
    {
        len <= self.writer.saturating_sub(self.reader)
    }

    /// Whether so much can be written.
    pub(crate) fn can_write(&self, len: usize) -> bool
        ensures { result ≡ can_write (data_of self.now) len }
    {
        lie_within(self.writer as usize, len, self.len as usize)
    }

    /// Its readable bytes.
    pub(crate) fn readable(&self) -> Range
        ensures { part_of result ≡ readable (data_of self.now) }
    {
        Range {
            root: self.root,
            offset: self.offset + u64::from(self.reader),
            len: self.writer.saturating_sub(self.reader),
        }
    }

    /// A part of the view.
    pub(crate) fn slice(&self, index: u32, len: u32) -> View
        requires { IsTrue (in_range (data_of self.now) index len) }
        ensures { data_of result ≡ slice_of (data_of self.now) index len }
    {
        View {
            root: self.root,
            offset: self.offset + u64::from(index),
            len,
            reader: 0,
            writer: len,
        }
    }

    /// The view up to the end of its root's capacity.
    pub(crate) fn reaching(&self, capacity: u32) -> View
        ensures { data_of result ≡ reaching capacity (data_of self.now) }
    {
        View {
            root: self.root,
            offset: self.offset,
            len: u64::from(capacity).saturating_sub(self.offset) as u32,
            reader: self.reader,
            writer: self.writer,
        }
    }

    /// The view after so much was read.
    pub(crate) fn after_read(&self, len: u32) -> View
        requires { IsTrue (can_read (data_of self.now) len) }
        ensures { data_of result ≡ after_read (data_of self.now) len }
    {
        View {
            root: self.root,
            offset: self.offset,
            len: self.len,
            reader: self.reader + len,
            writer: self.writer,
        }
    }

    /// The view after so much was written.
    pub(crate) fn after_write(&self, len: usize) -> View
        requires { IsTrue (can_write (data_of self.now) len) }
        ensures { data_of result ≡ after_write (data_of self.now) len }
    {
        View {
            root: self.root,
            offset: self.offset,
            len: self.len,
            reader: self.reader,
            writer: self.writer + len as u32,
        }
    }
}
