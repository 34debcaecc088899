//! A composite as a lane keeps it.

ghost use Rattle.std.specs.Prelude.{◌≡◌, ◌+◌, ◌-◌, ◌≤◌, ◌<◌, ◌^◌, nat_le, length, map, vec_len};
ghost use Rattle.std.specs.Prelude.{IfSome};
ghost use Rattle.pool_law.specs.Limits.{geometry_of};
ghost use Rattle.pool_law.specs.LaneLaw.{sweep_period};
ghost use Rattle.pool_law.specs.Composites.{size_of, most_bytes};
ghost use Rattle.pool_law.specs.Lanes.{release_part, release_parts, consolidate};
ghost use Rattle.pool_law.specs.Readers.{ToldNotes};
ghost use Rattle.lane_reader.specs.Reading.{log_from, passes};
ghost use Rattle.lane_reader.specs.Viewing.{part_of, composite_in};
ghost use Rattle.lane_reader.specs.Counting.{AreCounts, AreWithin};
ghost use Rattle.lane_reader.specs.Parting.{moved_parts};
ghost use Rattle.lane_reader.specs.Consolidating.{reads_made, IsShort};

use crate::counts::Counts;
use crate::log::{At, Log};
use crate::patterns::Allotted;
use crate::view::Range;
use pool_law::{RootId, Shape};
use size_classes::SizeClasses;

/// The most bytes of a composite.
pub(crate) const MOST_BYTES: u64 = 65536;

/// The most parts of a composite that stays as it is.
pub(crate) const MOST_PARTS: usize = 16;

/// Parts of roots, one behind the other.
#[derive(Drop)]
pub(crate) struct Composite {
    pub(crate) parts: Vec<Range>,
    /// Its own count; once it is 0, the composite has ended.
    pub(crate) count: u64,
    pub(crate) reader: u32,
    pub(crate) writer: u32,
}

/// How many bytes parts have together.
pub(crate) fn size_of(parts: &[Range]) -> u64
    requires { length parts.now ≤ 32 }
    ensures { result ≡ size_of (map part_of parts.now) }
{
    let mut size = 0;
    for part in parts {
        size += u64::from(part.len);
    }
    size
}

/// Whether so many bytes from an index on lie in the parts.
pub(crate) fn hold(parts: &[Range], index: u32, len: usize) -> bool
    ensures { result ≡ nat_le (index + len) (size_of (map part_of parts.now)) }
{
    let mut skip = index;
    let mut left = len;
    for part in parts {
        left = left.saturating_sub(part.len.saturating_sub(skip) as usize);
        skip = skip.saturating_sub(part.len);
    }
    skip == 0 && left == 0
}

/// What a composite comes to as it is bound.
#[derive(Clone, Copy, Drop)]
pub(crate) enum Made {
    /// It stays as it is.
    AsItIs,
    /// Its bytes are copied to a new root.
    Moved(RootId),
    /// No handle was left.
    Handles,
    /// The arena was full.
    Full,
}

impl Log<'_> {
    // The part's root is released, if the lane then counts it.
    fn release_part(&self, at: At, shape: &Shape, counts: &Counts, part: &Range) -> Option<At>
        requires handles { 1 ≤ shape.now.handles }
        requires room { AreWithin counts.now (2 ^ 64 - 1 - length self.now.notes.now) }
        ensures { (before : ToldNotes) → AreCounts counts.now before → release_part shape.now
            (part_of part.now) (log_from before self.now at) ≡ passes before self.now result }
    {
        let first = counts.of(&part.root);
        if self.count(at, &part.root, first) == 0 {
            return Some(at);
        }
        let (_, behind) = self.release(at, shape, &part.root)?;
        Some(behind)
    }

    /// The parts are released, in order.
    pub(crate) fn release_parts(
        &self,
        at: At,
        shape: &Shape,
        counts: &Counts,
        parts: &[Range],
    ) -> Option<At>
        requires handles { 1 ≤ shape.now.handles }
        requires room { AreWithin counts.now (2 ^ 64 - 1 - length self.now.notes.now) }
        ensures { (before : ToldNotes) → AreCounts counts.now before → release_parts shape.now
            (map part_of parts.now) (log_from before self.now at)
            ≡ passes before self.now result }
    {
        let mut here = at;
        for part in parts {
            here = self.release_part(here, shape, counts, part)?;
        }
        Some(here)
    }

    // A crowded composite is copied to a new root.
    fn move_to(
        &self,
        at: At,
        shape: &Shape,
        counts: &Counts,
        root: &RootId,
        parts: &[Range],
    ) -> Option<At>
        requires handles { 1 ≤ shape.now.handles }
        requires room { AreWithin counts.now (2 ^ 64 - 1 - length self.now.notes.now) }
        requires parts { length parts.now ≤ 32 }
        ensures { (before : ToldNotes) → AreCounts counts.now before →
            moved_parts shape.now root.now
            (map part_of parts.now) (log_from before self.now at)
            ≡ passes before self.now result }
    {
        let behind = self.copy_parts(at, root, parts)?;
        self.release_parts(behind, shape, counts, parts)
    }

    /// A composite as it is bound: consolidated where it is crowded.
    pub(crate) fn consolidate(
        &self,
        at: At,
        shape: &Shape,
        classes: &SizeClasses,
        lane: u32,
        counts: &Counts,
        composite: &Composite,
    ) -> Option<(Made, At)>
        requires arenas { 1 ≤ shape.now.arenas }
        requires handles { 1 ≤ shape.now.handles }
        requires asked { at.asked < sweep_period }
        requires classes { classes.now ≡ geometry_of shape.now }
        requires room { AreWithin counts.now (2 ^ 64 - 1 - length self.now.notes.now) }
        requires parts { vec_len composite.now.parts ≤ 32 }
        requires size { size_of (map part_of composite.now.parts.items) ≤ most_bytes }
        ensures reads { (before : ToldNotes) → AreCounts counts.now before → consolidate shape.now
            lane (composite_in composite.now) (log_from before self.now at)
            ≡ reads_made (composite_in composite.now) before self.now result }
        ensures short { IfSome result (λ p. IsShort (vec_len composite.now.parts) p.0) }
    {
        if composite.parts.len() <= MOST_PARTS {
            return Some((Made::AsItIs, at));
        }
        let size = size_of(&composite.parts) as u32;
        match self.allot(at, shape, classes, lane, size)? {
            (Allotted::Handles, behind) => Some((Made::Handles, behind)),
            (Allotted::Full, behind) => Some((Made::Full, behind)),
            (Allotted::New { root, region: _ }, behind) => {
                let behind = self.move_to(behind, shape, counts, &root, &composite.parts)?;
                Some((Made::Moved(root), behind))
            }
        }
    }
}
