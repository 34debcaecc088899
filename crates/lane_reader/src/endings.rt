#![tactic(auto, using(crate::proofs::ReadingLemmas::note_says))]
//! The notes of a region that is put away, and of the end of a root.

ghost use Rattle.std.specs.Prelude.{◌≡◌, ◌≤◌};
ghost use Rattle.pool_law.specs.Patterns.{give_back, not_kept, offer, put_away};
ghost use Rattle.pool_law.specs.Patterns.{end_of, release};
ghost use Rattle.pool_law.specs.Readers.{ToldNotes};
ghost use Rattle.lane_reader.specs.Reading.{log_from, passes};
ghost use Rattle.lane_reader.specs.Allotting.{reads_release};

use crate::log::{At, Log};
use crate::patterns::{CACHED, Released};
use pool_law::{Object, RegionId, RootId, Shape};

impl Log<'_> {
    /// The region goes back to its arena.
    pub(crate) fn give_back(&self, at: At, region: &RegionId) -> Option<At>
        ensures { (before : ToldNotes) → give_back region.now (log_from before self.now at)
            ≡ passes before self.now result }
    {
        self.given(at, &Object::Arena(region.place.arena), region)
    }

    /// The cache of the region's owner does not keep it, or another lane is in it.
    pub(crate) fn not_kept(&self, at: At, region: &RegionId) -> Option<At>
        ensures { (before : ToldNotes) → not_kept region.now (log_from before self.now at)
            ≡ passes before self.now result }
    {
        let cache = cache_of(region);
        if let Some(behind) = self.back(at, &cache, region) {
            return Some(behind);
        }
        let (_, behind) = self.busy(at, &cache)?;
        Some(behind)
    }

    /// The region goes to its owner's cache, and to its arena where that does not keep it.
    pub(crate) fn offer(&self, at: At, region: &RegionId) -> Option<At>
        ensures { (before : ToldNotes) → offer region.now (log_from before self.now at)
            ≡ passes before self.now result }
    {
        if let Some(behind) = self.kept(at, &cache_of(region), region) {
            return Some(behind);
        }
        let behind = self.not_kept(at, region)?;
        self.give_back(behind, region)
    }

    /// The region goes to its owner's cache, if its class has one, or else to its arena.
    pub(crate) fn put_away(&self, at: At, region: &RegionId) -> Option<At>
        ensures { (before : ToldNotes) → put_away region.now (log_from before self.now at)
            ≡ passes before self.now result }
    {
        if region.class >= CACHED {
            return self.give_back(at, region);
        }
        self.offer(at, region)
    }

    /// The end of a root: its region is put away, and its handle goes home.
    pub(crate) fn end_of(&self, at: At, shape: &Shape, root: &RootId) -> Option<At>
        requires { 1 ≤ shape.now.handles }
        ensures { (before : ToldNotes) → end_of shape.now root.now (log_from before self.now at)
            ≡ passes before self.now result }
    {
        let at = self.ended(at, root)?;
        let (region, at) = self.ending(at, root)?;
        let at = self.vacated(at, root)?;
        let at = self.put_away(at, &region)?;
        self.home(at, &Object::Bin(root.place / shape.handles), root.place)
    }

    /// One release of a root.
    pub(crate) fn release(&self, at: At, shape: &Shape, root: &RootId) -> Option<(Released, At)>
        requires { 1 ≤ shape.now.handles }
        ensures { (before : ToldNotes) → release shape.now root.now (log_from before self.now at)
            ≡ reads_release before self.now result }
    {
        if let Some(behind) = self.count_kept(at, root) {
            return Some((Released::Kept, behind));
        }
        let behind = self.end_of(at, shape, root)?;
        Some((Released::Freed, behind))
    }
}

// The cache of a region's owner.
fn cache_of(region: &RegionId) -> Object
    ensures { result ≡ Object.Cache region.now.owner region.now.class }
{
    Object::Cache {
        lane: region.owner,
        class: region.class,
    }
}
