//! What a name of a lane is bound to.

ghost use Rattle.std.specs.Prelude.{◌≡◌, ℕ, List, length, map};
ghost use Rattle.pool_law.specs.Names.{parts_at};
ghost use Rattle.pool_law.specs.Lanes.{set_parts, get_parts};
ghost use Rattle.pool_law.specs.Readers.{ToldNotes};
ghost use Rattle.lane_reader.specs.Reading.{log_from, passes};
ghost use Rattle.lane_reader.specs.Viewing.{bound_of, updated};
ghost use Rattle.lane_reader.specs.Parting.{where_same};
ghost use Rattle.pool_law.specs.Names.{has_range, has_to_read, has_room, reader_of, writer_of};

use crate::composite::{Composite, hold};
use crate::log::{At, Log};
use crate::view::View;
use object_steps::same_bytes;

/// What a name of a lane is bound to.
#[derive(Drop)]
pub(crate) enum Bound {
    /// A view.
    Plain(View),
    /// A composite.
    Composed(Composite),
}

/// What a command changes of what is bound.
#[derive(Clone, Copy, Drop)]
pub(crate) enum Update {
    /// Where it is read next.
    Reader(u32),
    /// Where it is written next.
    Writer(u32),
    /// The composite's own count.
    Count(u64),
}

/// What becomes of the names of a lane.
#[derive(Drop)]
pub(crate) enum Change {
    /// They stay.
    Same,
    /// A name is bound.
    Bind { name: u32, bound: Bound },
    /// A name is unbound.
    Unbind { name: u32 },
    /// What a name is bound to changes.
    Update { name: u32, update: Update },
}

impl Bound {
    /// What it is after a change.
    pub(crate) fn updated(self, update: Update) -> Bound
        ensures { bound_of result ≡ updated update (bound_of self) }
    {
        match (self, update) {
            (Bound::Plain(mut view), Update::Reader(reader)) => {
                view.reader = reader;
                Bound::Plain(view)
            }
            (Bound::Plain(mut view), Update::Writer(writer)) => {
                view.writer = writer;
                Bound::Plain(view)
            }
            (Bound::Plain(view), Update::Count(_)) => Bound::Plain(view),
            (Bound::Composed(mut composite), Update::Reader(reader)) => {
                composite.reader = reader;
                Bound::Composed(composite)
            }
            (Bound::Composed(mut composite), Update::Writer(writer)) => {
                composite.writer = writer;
                Bound::Composed(composite)
            }
            (Bound::Composed(mut composite), Update::Count(count)) => {
                composite.count = count;
                Bound::Composed(composite)
            }
        }
    }

    /// Whether so many bytes from an index on lie in it.
    pub(crate) fn has_range(&self, index: u32, len: usize) -> bool
        ensures { result ≡ has_range index len (bound_of self.now) }
    {
        match self {
            Bound::Plain(view) => view.in_range(index, len),
            Bound::Composed(composite) => hold(&composite.parts, index, len),
        }
    }

    /// Whether so many bytes can be read.
    pub(crate) fn has_to_read(&self, len: u32) -> bool
        ensures { result ≡ has_to_read len (bound_of self.now) }
    {
        match self {
            Bound::Plain(view) => view.can_read(len),
            Bound::Composed(composite) => {
                len <= composite.writer.saturating_sub(composite.reader)
            }
        }
    }

    /// Whether so many bytes can be written.
    pub(crate) fn has_room(&self, len: usize) -> bool
        ensures { result ≡ has_room len (bound_of self.now) }
    {
        match self {
            Bound::Plain(view) => view.can_write(len),
            Bound::Composed(composite) => hold(&composite.parts, composite.writer, len),
        }
    }
}

impl Log<'_> {
    /// The bytes are set at an index of what is bound.
    pub(crate) fn set_at(&self, at: At, bound: &Bound, index: u32, bytes: &[u8]) -> Option<At>
        ensures { (before : ToldNotes) → set_parts
            (parts_at (bound_of bound.now) index (length bytes.now)) bytes.now
            (log_from before self.now at) ≡ passes before self.now result }
    {
        match bound {
            Bound::Plain(view) => self.set(at, &view.root, view.root_index(index), bytes),
            Bound::Composed(composite) => {
                self.set_parts(at, &composite.parts, u64::from(index), bytes)
            }
        }
    }

    /// So many bytes are got at an index of what is bound, and are these.
    pub(crate) fn get_at(
        &self,
        at: At,
        bound: &Bound,
        index: u32,
        len: u32,
        these: &[u8],
    ) -> Option<At>
        ensures { (before : ToldNotes) → where_same these.now (get_parts
            (parts_at (bound_of bound.now) index len) (log_from before self.now at))
            ≡ passes before self.now result }
    {
        match bound {
            Bound::Plain(view) => {
                let (got, behind) = self.get(at, &view.root, view.root_index(index), len)?;
                same_bytes(got, these).then_some(behind)
            }
            Bound::Composed(composite) => {
                self.get_parts(at, &composite.parts, u64::from(index), len, these)
            }
        }
    }
}
