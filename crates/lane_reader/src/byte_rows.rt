//! Bytes that are set and got by a name.

ghost use Rattle.std.specs.Prelude.{◌≡◌, ℕ, ◌+◌, ◌-◌, ◌<◌, ◌^◌, nat_le, if◌then◌else◌, true, false};
ghost use Rattle.std.specs.Prelude.{Some, None, IfSome};
ghost use Rattle.pool_law.specs.declared.command.Command.{Command};
ghost use Rattle.pool_law.specs.Lanes.{get_parts};
ghost use Rattle.pool_law.specs.Names.{has_to_read, has_room, parts_at, reader_of, writer_of};
ghost use Rattle.pool_law.specs.Readers.{ToldNotes};
ghost use Rattle.lane_reader.specs.declared.setting.Setting.{Setting};
ghost use Rattle.lane_reader.specs.Bounding.{IsBounded, AreBounded, ChangeIsBounded};
ghost use Rattle.lane_reader.specs.Reading.{log_from, passes};
ghost use Rattle.lane_reader.specs.Replying.{where_got};
ghost use Rattle.lane_reader.specs.Turning.{Carries};
ghost use Rattle.lane_reader.specs.Viewing.{bound_of};

use crate::bound::{Bound, Change, Update};
use crate::composite::size_of;
use crate::lane::Lane;
use crate::log::{At, Log};
use crate::replies::{Said, says};
use pool_law::{Bytes, Object, Reply};

// An index so much further, if there is so much between it and the end.
fn further(index: u32, len: u32, end: u32) -> Option<u32>
    ensures { result ≡ (if nat_le len (end - index) then Some (index + len) else None) }
{
    if len <= end.saturating_sub(index) {
        Some(index + len)
    } else {
        None
    }
}

// An index so much further, if it is then at most the size.
fn further_within(index: u32, len: usize, size: u64) -> Option<u32>
    requires { size < 2 ^ 32 }
    ensures { result ≡ (if nat_le (index + len) size then Some (index + len) else None) }
{
    let index = index as usize;
    let size = size as usize;
    if len <= size && index <= size - len {
        Some((index + len) as u32)
    } else {
        None
    }
}

impl Bound {
    // Where it is read next.
    fn reader(&self) -> u32
        ensures { result ≡ reader_of (bound_of self.now) }
    {
        match self {
            Bound::Plain(view) => view.reader,
            Bound::Composed(composite) => composite.reader,
        }
    }

    // Where it is written next.
    fn writer(&self) -> u32
        ensures { result ≡ writer_of (bound_of self.now) }
    {
        match self {
            Bound::Plain(view) => view.writer,
            Bound::Composed(composite) => composite.writer,
        }
    }

    // Where it is read next once so much was read, if so much can be read.
    fn reader_after(&self, len: u32) -> Option<u32>
        ensures { let bound = bound_of self.now in result
            ≡ (if has_to_read len bound then Some (reader_of bound + len) else None) }
    {
        match self {
            Bound::Plain(view) => further(view.reader, len, view.writer),
            Bound::Composed(composite) => further(composite.reader, len, composite.writer),
        }
    }

    // Where it is written next once so much was written, if so much can be written.
    fn writer_after(&self, len: usize) -> Option<u32>
        requires { IsBounded (2 ^ 32) self.now }
        ensures { let bound = bound_of self.now in result
            ≡ (if has_room len bound then Some (writer_of bound + len) else None) }
    {
        match self {
            Bound::Plain(view) => further_within(view.writer, len, u64::from(view.len)),
            Bound::Composed(composite) => {
                further_within(composite.writer, len, size_of(&composite.parts))
            }
        }
    }
}

impl Log<'_> {
    /// Bytes are set at an index.
    pub(crate) fn set_row(
        &self,
        at: At,
        lane: &Lane,
        name: u32,
        index: u32,
        bytes: &Bytes,
        reply: &Reply,
    ) -> Option<(Change, At)>
        ensures row { (setting : Setting) → Carries setting lane.now
            (Command.Set name index bytes.now false) reply.now self.now at result }
        ensures bounded { (most : ℕ) → IfSome result (λ p. ChangeIsBounded most p.0) }
    {
        let bound = lane.named(name)?;
        let behind = self.set_at(at, bound, index, bytes.items())?;
        says(reply, Said::Ok).then_some((Change::Same, behind))
    }

    /// Bytes are set at an index, unless another lane is at the root.
    pub(crate) fn try_set_row(
        &self,
        at: At,
        lane: &Lane,
        name: u32,
        index: u32,
        bytes: &Bytes,
        reply: &Reply,
    ) -> Option<(Change, At)>
        ensures row { (setting : Setting) → Carries setting lane.now
            (Command.Set name index bytes.now true) reply.now self.now at result }
        ensures bounded { (most : ℕ) → IfSome result (λ p. ChangeIsBounded most p.0) }
    {
        let view = lane.view_named(name)?;
        if let Some((number, behind)) = self.busy(at, &Object::Root(view.root.place)) {
            return says(reply, Said::Busy(number)).then_some((Change::Same, behind));
        }
        let behind = self.set_at(at, &Bound::Plain(view), index, bytes.items())?;
        says(reply, Said::Ok).then_some((Change::Same, behind))
    }

    // So many bytes are got at an index of what is bound, and are answered.
    fn got(&self, at: At, bound: &Bound, index: u32, len: u32, reply: &Reply) -> Option<At>
        ensures { (before : ToldNotes) → where_got reply.now (get_parts
            (parts_at (bound_of bound.now) index len) (log_from before self.now at))
            ≡ passes before self.now result }
    {
        let Reply::OkBytes(these) = reply else {
            return None;
        };
        self.get_at(at, bound, index, len, these.items())
    }

    /// Bytes are got at an index.
    pub(crate) fn get_row(
        &self,
        at: At,
        lane: &Lane,
        name: u32,
        index: u32,
        len: u32,
        reply: &Reply,
    ) -> Option<(Change, At)>
        ensures row { (setting : Setting) → Carries setting lane.now
            (Command.Get name index len false) reply.now self.now at result }
        ensures bounded { (most : ℕ) → IfSome result (λ p. ChangeIsBounded most p.0) }
    {
        let bound = lane.named(name)?;
        let behind = self.got(at, bound, index, len, reply)?;
        Some((Change::Same, behind))
    }

    /// Bytes are got at an index, unless another lane is at the root.
    pub(crate) fn try_get_row(
        &self,
        at: At,
        lane: &Lane,
        name: u32,
        index: u32,
        len: u32,
        reply: &Reply,
    ) -> Option<(Change, At)>
        ensures row { (setting : Setting) → Carries setting lane.now
            (Command.Get name index len true) reply.now self.now at result }
        ensures bounded { (most : ℕ) → IfSome result (λ p. ChangeIsBounded most p.0) }
    {
        let view = lane.view_named(name)?;
        if let Some((number, behind)) = self.busy(at, &Object::Root(view.root.place)) {
            return says(reply, Said::Busy(number)).then_some((Change::Same, behind));
        }
        let behind = self.got(at, &Bound::Plain(view), index, len, reply)?;
        Some((Change::Same, behind))
    }

    /// Bytes are written behind those that are written.
    pub(crate) fn write_row(
        &self,
        at: At,
        lane: &Lane,
        name: u32,
        bytes: &Bytes,
        reply: &Reply,
    ) -> Option<(Change, At)>
        requires { AreBounded (2 ^ 32) lane.now }
        ensures row { (setting : Setting) → Carries setting lane.now
            (Command.Write name bytes.now) reply.now self.now at result }
        ensures bounded { (most : ℕ) → IfSome result (λ p. ChangeIsBounded most p.0) }
    {
        let bytes = bytes.items();
        let bound = lane.named(name)?;
        let writer = bound.writer_after(bytes.len())?;
        let behind = self.set_at(at, bound, bound.writer(), bytes)?;
        let update = Update::Writer(writer);
        says(reply, Said::Ok).then_some((Change::Update { name, update }, behind))
    }

    /// The next bytes are read.
    pub(crate) fn read_row(
        &self,
        at: At,
        lane: &Lane,
        name: u32,
        len: u32,
        reply: &Reply,
    ) -> Option<(Change, At)>
        ensures row { (setting : Setting) → Carries setting lane.now
            (Command.Read name len) reply.now self.now at result }
        ensures bounded { (most : ℕ) → IfSome result (λ p. ChangeIsBounded most p.0) }
    {
        let bound = lane.named(name)?;
        let reader = bound.reader_after(len)?;
        let behind = self.got(at, bound, bound.reader(), len, reply)?;
        let update = Update::Reader(reader);
        Some((Change::Update { name, update }, behind))
    }
}
