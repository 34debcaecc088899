//! Roots that are asked for capacity, and grow.

ghost use Rattle.std.specs.Prelude.{◌≡◌, ◌<◌, ◌≤◌, ℕ, IfSome};
ghost use Rattle.pool_law.specs.declared.command.Command.{Command};
ghost use Rattle.pool_law.specs.Dids as says;
ghost use Rattle.pool_law.specs.LaneLaw.{sweep_period};
ghost use Rattle.pool_law.specs.Limits.{geometry_of};
ghost use Rattle.pool_law.specs.Options.{check};
ghost use Rattle.pool_law.specs.Patterns.{one_more, found_room, grown, grow_with, regrow};
ghost use Rattle.pool_law.specs.Readers.{ToldNotes, access, growth};
ghost use Rattle.lane_reader.specs.Bounding.{ChangeIsBounded};
ghost use Rattle.lane_reader.specs.Growing.{reads_grown, reads_regrown};
ghost use Rattle.lane_reader.specs.Reading.{log_from, reads, passes};
ghost use Rattle.lane_reader.specs.Turning.{Carries};

use crate::bound::{Bound, Change};
use crate::lane::Lane;
use crate::log::{At, Log, done_at, root_is};
use crate::patterns::is_one_more;
use crate::replies::{Said, says};
use crate::setting::Setting;
use pool_law::{Did, Object, RegionId, Reply, RootId, Shape};
use size_classes::SizeClasses;

/// What an ask for capacity comes to.
#[derive(Clone, Copy, Drop)]
pub(crate) enum Regrown {
    /// The root has so much.
    Has(u32),
    /// The arena was full.
    Full,
}

// Whether a root grows to so much, with one more use of the region.
#[tactic(auto, using(crate::proofs::RegionLemmas::same_region_swapped))]
fn is_growth(did: &Did, size: u32, region: &RegionId) -> bool
    ensures { says.grow size (one_more region.now) did.now ≡ check result }
{
    match did {
        Did::Grow {
            capacity,
            region: with,
        } => size == *capacity && is_one_more(with, region),
        _ => false,
    }
}

impl Log<'_> {
    // The capacity that is found where so much is asked.
    #[tactic(auto, using(crate::proofs::ReadingLemmas::access_says))]
    fn room(&self, at: At, root: &RootId, size: u32) -> Option<(u32, At)>
        ensures { (before : ToldNotes) → access root.now (says.room size)
            (log_from before self.now at) ≡ reads before self.now result }
    {
        match self.access(at, root)? {
            (Did::Room { asked, capacity }, behind) => {
                (size == *asked).then_some((*capacity, behind))
            }
            _ => None,
        }
    }

    // The root is extended to so much in its region.
    #[tactic(auto, using(crate::proofs::ReadingLemmas::access_says))]
    fn extend(&self, at: At, root: &RootId, size: u32) -> Option<At>
        ensures { (before : ToldNotes) → access root.now (says.extend size)
            (log_from before self.now at) ≡ passes before self.now result }
    {
        match self.access(at, root)? {
            (Did::Extend(other), behind) => (size == *other).then_some(behind),
            _ => None,
        }
    }

    // The capacity of a root once so much was asked: what is found, or what its region lets it have.
    fn found_room(&self, at: At, root: &RootId, size: u32) -> Option<(u32, At)>
        ensures { (before : ToldNotes) → found_room root.now size (log_from before self.now at)
            ≡ reads before self.now result }
    {
        if let Some(behind) = self.extend(at, root, size) {
            return Some((size, behind));
        }
        self.room(at, root, size)
    }

    // The region that a root leaves as it grows to so much, with one more use of this one.
    fn growth(&self, at: At, root: &RootId, size: u32, region: &RegionId) -> Option<(RegionId, At)>
        ensures { (before : ToldNotes) → growth root.now size (one_more region.now)
            (log_from before self.now at) ≡ reads before self.now result }
    {
        let next = self.next(at)?;
        if !root_is(root, next.told.root) {
            return None;
        }
        let did = done_at(&Object::Root(root.place), next.note)?;
        if !is_growth(did, size, region) {
            return None;
        }
        let left = next.told.region?;
        Some((left, next.behind))
    }

    // The capacity of a root that leaves its region for this one, or meanwhile has so much without
    // it; and the region that is left over.
    fn grown(
        &self,
        at: At,
        root: &RootId,
        size: u32,
        region: &RegionId,
    ) -> Option<(u32, RegionId, At)>
        ensures { (before : ToldNotes) → grown root.now size region.now
            (log_from before self.now at) ≡ reads_grown before self.now result }
    {
        if let Some((left, behind)) = self.growth(at, root, size, region) {
            return Some((size, left, behind));
        }
        let (capacity, behind) = self.found_room(at, root, size)?;
        Some((capacity, *region, behind))
    }

    // A root that its region doesn't hold has so much at last, and a region is put away.
    fn grow_with(
        &self,
        at: At,
        root: &RootId,
        size: u32,
        region: Option<RegionId>,
    ) -> Option<(Regrown, At)>
        ensures { (before : ToldNotes) → grow_with root.now size region
            (log_from before self.now at) ≡ reads_regrown before self.now result }
    {
        let Some(region) = region else {
            return Some((Regrown::Full, at));
        };
        let (capacity, spare, behind) = self.grown(at, root, size, &region)?;
        if capacity < size {
            return None;
        }
        let behind = self.put_away(behind, &spare)?;
        Some((Regrown::Has(capacity), behind))
    }

    // A root has a capacity of so much at least, or the arena was full.
    fn regrow(
        &self,
        at: At,
        shape: &Shape,
        classes: &SizeClasses,
        lane: u32,
        root: &RootId,
        size: u32,
    ) -> Option<(Regrown, At)>
        requires arenas { 1 ≤ shape.now.arenas }
        requires asked { at.asked < sweep_period }
        requires classes { classes.now ≡ geometry_of shape.now }
        ensures { (before : ToldNotes) → regrow shape.now lane root.now size
            (log_from before self.now at) ≡ reads_regrown before self.now result }
    {
        let (capacity, behind) = self.found_room(at, root, size)?;
        let class = classes.class_of(size)?;
        if size <= capacity {
            return Some((Regrown::Has(capacity), behind));
        }
        let (region, behind) = self.obtain(behind, shape, lane, class)?;
        self.grow_with(behind, root, size, region)
    }

    /// A root has a capacity of so much at least, and the view of it that asks ends where that does.
    pub(crate) fn capacity_row(
        &self,
        at: At,
        setting: &Setting,
        lane: &Lane,
        name: u32,
        size: u32,
        reply: &Reply,
    ) -> Option<(Change, At)>
        requires { at.asked < sweep_period }
        ensures row { Carries setting.now lane.now (Command.Capacity name size) reply.now self.now
            at result }
        ensures bounded { (most : ℕ) → IfSome result (λ p. ChangeIsBounded most p.0) }
    {
        let view = lane.view_named(name)?;
        match self.regrow(
            at,
            setting.shape,
            setting.classes,
            setting.lane,
            &view.root,
            size,
        )? {
            (Regrown::Full, behind) => says(reply, Said::Full).then_some((Change::Same, behind)),
            (Regrown::Has(capacity), behind) => {
                let bound = Bound::Plain(view.reaching(capacity));
                let change = Change::Bind { name, bound };
                says(reply, Said::OkNumber(u64::from(capacity))).then_some((change, behind))
            }
        }
    }
}
