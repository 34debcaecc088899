#![tactic(auto, using(crate::proofs::ReadingLemmas::access_says))]
//! Bytes of parts of roots, read from a log.

ghost use Rattle.std.specs.Prelude.{◌≡◌, ◌+◌, ◌≤◌, ◌^◌, length, map, take};
ghost use Rattle.pool_law.specs.Dids as says;
ghost use Rattle.pool_law.specs.Composites.{ranges, filled};
ghost use Rattle.pool_law.specs.Readers.{ToldNotes, access};
ghost use Rattle.pool_law.specs.Lanes.{set_parts, get_parts, copy_parts};
ghost use Rattle.lane_reader.specs.Reading.{log_from, passes};
ghost use Rattle.lane_reader.specs.Viewing.{part_of};
ghost use Rattle.lane_reader.specs.Parting.{reads_bytes, where_same, set_filled, get_filled};
ghost use Rattle.lane_reader.specs.Parting.{copy_filled};

use crate::log::{At, Log};
use crate::view::Range;
use object_steps::same_bytes;
use pool_law::{Did, RootId};

impl<'a> Log<'a> {
    /// These bytes are set at the offset of the root.
    pub(crate) fn set(&self, at: At, root: &RootId, offset: u64, bytes: &[u8]) -> Option<At>
        ensures { (before : ToldNotes) → access root.now (says.set offset bytes.now)
            (log_from before self.now at) ≡ passes before self.now result }
    {
        match self.access(at, root)? {
            (
                Did::Set {
                    offset: there,
                    bytes: with,
                },
                behind,
            ) => (u64::from(*there) == offset && same_bytes(with.items(), bytes)).then_some(behind),
            _ => None,
        }
    }

    /// The bytes that are got at the offset of the root, which are so many.
    pub(crate) fn get(&self, at: At, root: &RootId, offset: u64, len: u32) -> Option<(&'a [u8], At)>
        ensures { (before : ToldNotes) → access root.now (says.get offset len)
            (log_from before self.now at) ≡ reads_bytes before self.now result }
    {
        match self.access(at, root)? {
            (
                Did::Get {
                    offset: there,
                    bytes,
                },
                behind,
            ) => {
                let got = bytes.items();
                (u64::from(*there) == offset && got.len() == len as usize).then_some((got, behind))
            }
            _ => None,
        }
    }

    /// The root is touched.
    pub(crate) fn touch(&self, at: At, root: &RootId) -> Option<At>
        ensures { (before : ToldNotes) → access root.now says.touch (log_from before self.now at)
            ≡ passes before self.now result }
    {
        match self.access(at, root)? {
            (Did::Touch, behind) => Some(behind),
            _ => None,
        }
    }

    // The first bytes are set in the part, where it is not empty.
    fn set_filled(&self, at: At, part: &Range, bytes: &[u8]) -> Option<At>
        requires { part.now.len ≤ length bytes.now }
        ensures { (before : ToldNotes) → set_filled (part_of part.now) bytes.now
            (log_from before self.now at) ≡ passes before self.now result }
    {
        if part.len == 0 {
            return Some(at);
        }
        self.set(at, &part.root, part.offset, &bytes[..part.len as usize])
    }

    // The part's bytes are got, where it is not empty, and are these.
    fn get_filled(&self, at: At, part: &Range, these: &[u8]) -> Option<At>
        ensures { (before : ToldNotes) → where_same these.now (get_filled (part_of part.now)
            (log_from before self.now at)) ≡ passes before self.now result }
    {
        if part.len == 0 {
            return these.is_empty().then_some(at);
        }
        let (got, behind) = self.get(at, &part.root, part.offset, part.len)?;
        same_bytes(got, these).then_some(behind)
    }

    // The part's bytes are copied to the root at an index, where it is not empty.
    fn copy_filled(&self, at: At, root: &RootId, index: u64, part: &Range) -> Option<At>
        ensures { (before : ToldNotes) → copy_filled root.now index (part_of part.now)
            (log_from before self.now at) ≡ passes before self.now result }
    {
        if part.len == 0 {
            return Some(at);
        }
        let (got, behind) = self.get(at, &part.root, part.offset, part.len)?;
        self.set(behind, root, index, got)
    }

    /// The bytes are set from an index of the parts on.
    pub(crate) fn set_parts(&self, at: At, parts: &[Range], index: u64, bytes: &[u8]) -> Option<At>
        ensures { (before : ToldNotes) → set_parts
            (ranges (map part_of parts.now) index (length bytes.now)) bytes.now
            (log_from before self.now at) ≡ passes before self.now result }
    {
        let mut here = at;
        let mut skip = index;
        let mut rest = bytes;
        for part in parts {
            let cut = part.cut(skip, rest.len());
            here = self.set_filled(here, &cut, rest)?;
            skip = skip.saturating_sub(u64::from(part.len));
            let (_, others) = rest.split_at(cut.len as usize);
            rest = others;
        }
        Some(here)
    }

    /// So many bytes are got from an index of the parts on, and are these.
    pub(crate) fn get_parts(
        &self,
        at: At,
        parts: &[Range],
        index: u64,
        len: u32,
        these: &[u8],
    ) -> Option<At>
        ensures { (before : ToldNotes) → where_same these.now (get_parts
            (ranges (map part_of parts.now) index len) (log_from before self.now at))
            ≡ passes before self.now result }
    {
        let mut here = at;
        let mut skip = index;
        let mut left = len;
        let mut rest = these;
        for part in parts {
            let cut = part.cut(skip, left as usize);
            let (first, others) = rest.split_at(rest.len().min(cut.len as usize));
            here = self.get_filled(here, &cut, first)?;
            skip = skip.saturating_sub(u64::from(part.len));
            left -= cut.len;
            rest = others;
        }
        rest.is_empty().then_some(here)
    }

    /// The bytes of the parts are copied to the root.
    pub(crate) fn copy_parts(&self, at: At, root: &RootId, parts: &[Range]) -> Option<At>
        requires { length parts.now ≤ 32 }
        ensures { (before : ToldNotes) → copy_parts root.now 0 (filled (map part_of parts.now))
            (log_from before self.now at) ≡ passes before self.now result }
    {
        let mut here = at;
        let mut index = 0;
        for part in parts {
            here = self.copy_filled(here, root, index, part)?;
            index += u64::from(part.len);
        }
        Some(here)
    }
}
