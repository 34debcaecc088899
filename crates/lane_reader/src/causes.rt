//! The causes of a refusal that comes before all notes: what a name is bound to, and what its bytes are.

ghost use Rattle.std.specs.Prelude.{◌≡◌, Option, IfSome, map};
ghost use Rattle.pool_law.specs.Composites;
ghost use Rattle.pool_law.specs.LaneStates.{LaneState};
ghost use Rattle.pool_law.specs.Refusals.{unbound, taken, composite, plain};
ghost use Rattle.pool_law.specs.Refusals.{illegal, uncounted, range, read_range, write_range};
ghost use Rattle.pool_law.specs.Refusals.{is_too_long};
ghost use Rattle.lane_reader.specs.Candidates.{IsCandidate};
ghost use Rattle.lane_reader.specs.Refusing.{some_comes, IsRead};
ghost use Rattle.lane_reader.specs.Standing.{IsLane};

use crate::bound::Bound;
use crate::candidate::Candidate;
use crate::composite::MOST_PARTS;
use crate::lane::Lane;
use crate::setting::Setting;

impl Setting<'_> {
    // The composite is too long, or no chunk holds it where it is consolidated.
    pub(crate) fn is_too_long(&self, candidate: &Candidate) -> bool
        ensures { (o : Option Composites.Composite) → IfSome o IsRead
            → IsCandidate o candidate.now → result ≡ is_too_long self.now.shape.now o }
    {
        match candidate {
            Candidate::Missing => false,
            Candidate::TooLong => true,
            Candidate::Made(composite) => {
                composite.parts.len() > MOST_PARTS
                    && self.classes.class_of(composite.writer).is_none()
            }
        }
    }
}

impl Lane {
    // The name isn't bound.
    pub(crate) fn unbound(&self, name: u32) -> bool
        ensures { (s : LaneState) → IsLane self.now s → result ≡ (unbound s name).comes }
    {
        self.named(name).is_none()
    }

    // The new name is bound.
    pub(crate) fn taken(&self, fresh: u32) -> bool
        ensures { (s : LaneState) → IsLane self.now s → result ≡ (taken s fresh).comes }
    {
        self.named(fresh).is_some()
    }

    // The name is bound to a composite.
    pub(crate) fn composite(&self, name: u32) -> bool
        ensures { (s : LaneState) → IsLane self.now s → result ≡ (composite s name).comes }
    {
        matches!(self.named(name), Some(Bound::Composed(_)))
    }

    // The name is bound to a view.
    pub(crate) fn plain(&self, name: u32) -> bool
        ensures { (s : LaneState) → IsLane self.now s → result ≡ (plain s name).comes }
    {
        matches!(self.named(name), Some(Bound::Plain(_)))
    }

    // The composite has ended, or the lane has no count of a root that the name's bytes lie in.
    pub(crate) fn illegal(&self, name: u32) -> bool
        ensures { (s : LaneState) → IsLane self.now s → result ≡ (illegal s name).comes }
    {
        match self.named(name) {
            Some(bound) => !self.is_usable(bound),
            None => false,
        }
    }

    // The lane has no count of the name's root, or the composite has ended.
    pub(crate) fn uncounted(&self, name: u32) -> bool
        ensures { (s : LaneState) → IsLane self.now s → result ≡ (uncounted s name).comes }
    {
        match self.named(name) {
            Some(bound) => !self.is_counted(bound),
            None => false,
        }
    }

    // The range leaves what the name is bound to.
    pub(crate) fn range(&self, name: u32, index: u32, len: usize) -> bool
        ensures { (s : LaneState) → IsLane self.now s → result ≡ (range s name index len).comes }
    {
        match self.named(name) {
            Some(bound) => !bound.has_range(index, len),
            None => false,
        }
    }

    // So much can't be read.
    pub(crate) fn read_range(&self, name: u32, len: u32) -> bool
        ensures { (s : LaneState) → IsLane self.now s → result ≡ (read_range s name len).comes }
    {
        match self.named(name) {
            Some(bound) => !bound.has_to_read(len),
            None => false,
        }
    }

    // So much can't be written.
    pub(crate) fn write_range(&self, name: u32, len: usize) -> bool
        ensures { (s : LaneState) → IsLane self.now s → result ≡ (write_range s name len).comes }
    {
        match self.named(name) {
            Some(bound) => !bound.has_room(len),
            None => false,
        }
    }

    // One of the names isn't bound.
    pub(crate) fn some_unbound(&self, names: &[u32]) -> bool
        ensures { (s : LaneState) → IsLane self.now s
            → result ≡ some_comes (map (unbound s) names.now) }
    {
        for name in names {
            if self.unbound(*name) {
                return true;
            }
        }
        false
    }

    // One of the names is bound to a composite.
    pub(crate) fn some_composite(&self, names: &[u32]) -> bool
        ensures { (s : LaneState) → IsLane self.now s
            → result ≡ some_comes (map (composite s) names.now) }
    {
        for name in names {
            if self.composite(*name) {
                return true;
            }
        }
        false
    }

    // One of the names can't be used.
    pub(crate) fn some_illegal(&self, names: &[u32]) -> bool
        ensures { (s : LaneState) → IsLane self.now s
            → result ≡ some_comes (map (illegal s) names.now) }
    {
        for name in names {
            if self.illegal(*name) {
                return true;
            }
        }
        false
    }
}
