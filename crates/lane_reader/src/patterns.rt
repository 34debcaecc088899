#![tactic(auto, using(crate::proofs::ReadingLemmas::note_says))]
//! The notes of an allocation.

ghost use Rattle.std.specs.Prelude.{◌≡◌, ◌<◌, ◌≤◌, ◌==◌, ◌&&◌, IsTrue, IfSome};
ghost use Rattle.pool_law.specs.Same.{same_region};
ghost use Rattle.pool_law.specs.Dids as says;
ghost use Rattle.pool_law.specs.Limits.{geometry_of};
ghost use Rattle.pool_law.specs.LaneLaw.{sweep_period};
ghost use Rattle.pool_law.specs.Patterns.{ask_cache, ask_arena, obtain, one_more, bear};
ghost use Rattle.pool_law.specs.Patterns.{with_handle, allot};
ghost use Rattle.pool_law.specs.Readers.{ToldNotes, note};
ghost use Rattle.lane_reader.specs.Reading.{log_from, reads};
ghost use Rattle.lane_reader.specs.Allotting.{reads_birth, reads_new};

use crate::log::{At, Log};
use pool_law::{Did, Object, RegionId, RootId, Shape};
use size_classes::SizeClasses;

/// The classes that have a cache are those below this.
pub(crate) const CACHED: u32 = 40;

/// What an allocation comes to.
#[derive(Clone, Copy, Drop)]
pub(crate) enum Allotted {
    /// A root is born with a region.
    New { root: RootId, region: RegionId },
    /// No handle was left.
    Handles,
    /// The arena was full.
    Full,
}

/// What a release comes to.
#[derive(Clone, Copy, Drop)]
pub(crate) enum Released {
    /// Others count the root.
    Kept,
    /// The root has ended.
    Freed,
}

/// Whether a region is another with one more use.
#[tactic(auto, using(crate::proofs::RegionLemmas::one_more_is))]
pub(crate) fn is_one_more(with: &RegionId, region: &RegionId) -> bool
    ensures same { result ≡ same_region with.now (one_more region.now) }
    ensures is { IsTrue result → with.now ≡ one_more region.now }
{
    let before = RegionId {
        uses: region.uses,
        ..*with
    };
    with.uses > 0 && with.uses - 1 == region.uses && before == *region
}

// Whether a birth is of so many bytes at the place, with one more use of the region.
fn is_birth(root: &RootId, with: &RegionId, place: u32, size: u32, region: &RegionId) -> bool
    ensures same { result ≡ ((root.now.place == place)
        && ((root.now.capacity == size) && same_region with.now (one_more region.now))) }
    ensures is { IsTrue result → with.now ≡ one_more region.now }
{
    root.place == place && (root.capacity == size && is_one_more(with, region))
}

impl Log<'_> {
    /// The lane's cache gives a region, or none where it is empty or another lane is in it.
    pub(crate) fn ask_cache(&self, at: At, lane: u32, class: u32) -> Option<(Option<RegionId>, At)>
        requires { at.asked < sweep_period }
        ensures { (before : ToldNotes) → ask_cache lane class (log_from before self.now at)
            ≡ reads before self.now result }
    {
        let cache = Object::Cache { lane, class };
        let asking = At {
            place: at.place,
            asked: at.asked + 1,
        };
        if let Some((region, behind)) = self.hit(asking, &cache) {
            return Some((Some(region), behind));
        }
        if let Some(behind) = self.miss(asking, &cache) {
            return Some((None, behind));
        }
        let (_, behind) = self.busy(asking, &cache)?;
        Some((None, behind))
    }

    /// The lane's arena gives a region, or none where it is full.
    pub(crate) fn ask_arena(
        &self,
        at: At,
        shape: &Shape,
        lane: u32,
        class: u32,
    ) -> Option<(Option<RegionId>, At)>
        requires { 1 ≤ shape.now.arenas }
        ensures { (before : ToldNotes) →
            ask_arena shape.now lane class (log_from before self.now at)
            ≡ reads before self.now result }
    {
        let arena = Object::Arena(lane % shape.arenas);
        if let Some((region, behind)) = self.take(at, &arena, class) {
            return Some((Some(region), behind));
        }
        let behind = self.full(at, &arena, class)?;
        Some((None, behind))
    }

    /// A region of the class, from the cache or else from the arena; none where that is full.
    pub(crate) fn obtain(
        &self,
        at: At,
        shape: &Shape,
        lane: u32,
        class: u32,
    ) -> Option<(Option<RegionId>, At)>
        requires arenas { 1 ≤ shape.now.arenas }
        requires asked { at.asked < sweep_period }
        ensures { (before : ToldNotes) → obtain shape.now lane class (log_from before self.now at)
            ≡ reads before self.now result }
    {
        if class >= CACHED {
            return self.ask_arena(at, shape, lane, class);
        }
        match self.ask_cache(at, lane, class)? {
            (Some(region), behind) => Some((Some(region), behind)),
            (None, behind) => self.ask_arena(behind, shape, lane, class),
        }
    }

    /// A root of so many bytes is born at the place, with one more use of the region.
    pub(crate) fn birth(
        &self,
        at: At,
        place: u32,
        size: u32,
        region: &RegionId,
    ) -> Option<(RootId, RegionId, At)>
        ensures reads { (before : ToldNotes) → note (Object.Root place)
            (says.birth place size (one_more region.now)) (log_from before self.now at)
            ≡ reads_birth before self.now result }
        ensures used { IfSome result (λ p. p.1 ≡ one_more region.now) }
    {
        match self.note(at, &Object::Root(place))? {
            (Did::Birth { root, region: with }, behind) => {
                is_birth(root, with, place, size, region).then_some((*root, *with, behind))
            }
            _ => None,
        }
    }

    /// A root is born with the region, or its handle goes home where there is none.
    pub(crate) fn bear(
        &self,
        at: At,
        lane: u32,
        place: u32,
        size: u32,
        region: Option<RegionId>,
    ) -> Option<(Allotted, At)>
        ensures { (before : ToldNotes) → bear lane place size region (log_from before self.now at)
            ≡ reads_new before self.now result }
    {
        match region {
            None => {
                let behind = self.home(at, &Object::Bin(lane), place)?;
                Some((Allotted::Full, behind))
            }
            Some(region) => {
                let (root, region, behind) = self.birth(at, place, size, &region)?;
                let behind = self.born(behind, &root)?;
                Some((Allotted::New { root, region }, behind))
            }
        }
    }

    /// A root of so many bytes, once its handle is there.
    pub(crate) fn with_handle(
        &self,
        at: At,
        shape: &Shape,
        classes: &SizeClasses,
        lane: u32,
        size: u32,
        place: u32,
    ) -> Option<(Allotted, At)>
        requires arenas { 1 ≤ shape.now.arenas }
        requires asked { at.asked < sweep_period }
        requires classes { classes.now ≡ geometry_of shape.now }
        ensures { (before : ToldNotes) → with_handle shape.now lane size place
            (log_from before self.now at) ≡ reads_new before self.now result }
    {
        let class = classes.class_of(size)?;
        let (region, behind) = self.obtain(at, shape, lane, class)?;
        self.bear(behind, lane, place, size, region)
    }

    /// A root of so many bytes, or the refusal that the notes say.
    pub(crate) fn allot(
        &self,
        at: At,
        shape: &Shape,
        classes: &SizeClasses,
        lane: u32,
        size: u32,
    ) -> Option<(Allotted, At)>
        requires arenas { 1 ≤ shape.now.arenas }
        requires asked { at.asked < sweep_period }
        requires classes { classes.now ≡ geometry_of shape.now }
        ensures { (before : ToldNotes) → allot shape.now lane size (log_from before self.now at)
            ≡ reads_new before self.now result }
    {
        let bin = Object::Bin(lane);
        if let Some(behind) = self.no_handle(at, &bin) {
            return Some((Allotted::Handles, behind));
        }
        let (place, behind) = self.handle(at, &bin)?;
        self.with_handle(behind, shape, classes, lane, size, place)
    }
}
