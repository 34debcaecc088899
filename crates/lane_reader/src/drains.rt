//! Caches that are swept, and closed.

ghost use Rattle.std.specs.Prelude.{◌≡◌, ◌<◌, List, ℕ, IfSome};
ghost use Rattle.size_classes.specs.Sizes.{below};
ghost use Rattle.pool_law.specs.LaneLaw.{sweep_period};
ghost use Rattle.pool_law.specs.Patterns.{sheds, drain, sweep_if_due, closing};
ghost use Rattle.pool_law.specs.Readers.{ToldNotes, note};
ghost use Rattle.lane_reader.specs.Reading.{log_from, reads, passes};
ghost use Rattle.lane_reader.specs.Draining.{quota_of, shed_one, drain_one};

use crate::log::{At, Log};
use crate::patterns::CACHED;
use pool_law::Object;

/// A lane sweeps its caches once so many allocations asked one.
pub(crate) const SWEEP_PERIOD: u32 = 8192;

/// What drains caches.
#[derive(Clone, Copy, Drop)]
pub(crate) enum Drain {
    /// A sweep trims each.
    Sweep,
    /// The end of the lane closes each.
    Close,
}

impl Log<'_> {
    // The quota that a cache notes.
    fn quota(&self, at: At, cache: &Object, kind: Drain) -> Option<(u32, At)>
        ensures { (before : ToldNotes) →
            note cache.now (quota_of kind) (log_from before self.now at)
            ≡ reads before self.now result }
    {
        match kind {
            Drain::Sweep => self.trim(at, cache),
            Drain::Close => self.close(at, cache),
        }
    }

    // One region leaves the cache, for its arena.
    fn shed_one(&self, at: At, lane: u32, class: u32) -> Option<At>
        ensures { (before : ToldNotes) → shed_one lane class (log_from before self.now at)
            ≡ passes before self.now result }
    {
        let (region, behind) = self.shed(at, &Object::Cache { lane, class })?;
        self.give_back(behind, &region)
    }

    // So many regions leave the cache.
    fn sheds(&self, at: At, lane: u32, class: u32, count: u32) -> Option<At>
        ensures { (before : ToldNotes) → sheds lane class count (log_from before self.now at)
            ≡ passes before self.now result }
    {
        let mut here = at;
        for _region in 0..count {
            here = self.shed_one(here, lane, class)?;
        }
        Some(here)
    }

    // The cache notes a quota, and so many regions leave it.
    fn drain_one(&self, at: At, lane: u32, class: u32, kind: Drain) -> Option<At>
        ensures { (before : ToldNotes) → drain_one lane (quota_of kind) class
            (log_from before self.now at) ≡ passes before self.now result }
    {
        let (quota, behind) = self.quota(at, &Object::Cache { lane, class }, kind)?;
        self.sheds(behind, lane, class, quota)
    }

    // Each cache notes a quota, and so many regions leave it.
    fn drain(&self, at: At, lane: u32, kind: Drain) -> Option<At>
        ensures { (before : ToldNotes) (classes : List ℕ) → classes ≡ below 40
            → drain lane (quota_of kind) classes (log_from before self.now at)
            ≡ passes before self.now result }
    {
        let mut here = at;
        for class in 0..CACHED {
            here = self.drain_one(here, lane, class, kind)?;
        }
        Some(here)
    }

    /// The sweep that is due once so many allocations asked a cache.
    pub(crate) fn sweep_if_due(&self, at: At, lane: u32) -> Option<At>
        ensures reads { (before : ToldNotes) → sweep_if_due sweep_period lane
            (log_from before self.now at) ≡ passes before self.now result }
        ensures few { IfSome result (λ behind. behind.asked < sweep_period) }
    {
        if at.asked < SWEEP_PERIOD {
            return Some(at);
        }
        let anew = At {
            place: at.place,
            asked: 0,
        };
        self.drain(anew, lane, Drain::Sweep)
    }

    /// The last notes of a lane: each cache is closed.
    pub(crate) fn closing(&self, at: At, lane: u32) -> Option<At>
        ensures { (before : ToldNotes) → closing lane (log_from before self.now at)
            ≡ passes before self.now result }
    {
        self.drain(at, lane, Drain::Close)
    }
}
