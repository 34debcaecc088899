//! The regions that lines name.

ghost use Rattle.std.specs.Prelude.{◌≡◌, ◌<◌, ℕ, List, Ok, Some};
ghost use Rattle.pool_law.specs.declared.id.RegionId.{RegionId};
ghost use Rattle.pool_law.specs.declared.note.Did.TheVariants.{Take};
ghost use Rattle.run_text.specs.Told.{shown_region, use_told};
ghost use Rattle.run_text.specs.Lines.{IsDidTold, Line, in_hand, key_at, region_with, taking_key, uses_after};
ghost use Rattle.run_text.specs.Knowing.{IsAt};

use super::{Filler, known_or};
use crate::LineNo;
use crate::known::{TakingKey, taking_key};
use pool_law::{Object, RegionId};

impl Filler {
    /// A region that is taken.
    pub fn taken(
        &self,
        lane: u32,
        object: &Object,
        class: u32,
        told: &RegionId,
    ) -> Result<RegionId, LineNo>
        ensures { (arenas : ℕ) (all before : List Line) (region : RegionId)
            → IsAt arenas all before self.now → told.now ≡ shown_region region
            → IsDidTold arenas all before lane object.now (Take class region)
            → result ≡ Ok region }
    {
        let (arena, _) = self.taking_at(object, told);
        known_or(
            self.known.region_taken(lane, arena, class, told),
            LineNo::Region,
        )
    }

    /// A region that comes of a cache: it is used as often as the notes tell that were passed.
    pub fn hit(&self, object: &Object, told: &RegionId) -> Result<RegionId, LineNo>
        ensures { (arenas : ℕ) (all before : List Line) (region : RegionId)
            → IsAt arenas all before self.now → told.now.taking ≡ region.taking
            → region_with all (key_at arenas object.now region)
            (uses_after before (key_at arenas object.now region)) ≡ Some region
            → result ≡ Ok region }
    {
        let taking = self.taking_at(object, told);
        known_or(
            self.known.region(taking, self.passed_uses(taking)),
            LineNo::Region,
        )
    }

    /// A region that is sent back of a cache: it is used no more.
    pub fn shed(&self, object: &Object, told: &RegionId) -> Result<RegionId, LineNo>
        ensures { (arenas : ℕ) (all before : List Line) (region : RegionId)
            → IsAt arenas all before self.now → told.now.taking ≡ region.taking
            → region_with all (key_at arenas object.now region)
            (uses_after all (key_at arenas object.now region)) ≡ Some region
            → result ≡ Ok region }
    {
        let taking = self.taking_at(object, told);
        known_or(
            self.known.region(taking, self.known.uses_of(taking)),
            LineNo::Region,
        )
    }

    /// A region that is kept: that in hand, or another after the uses that were passed so far.
    pub fn kept(&self, object: &Object, told: &RegionId) -> Result<RegionId, LineNo>
        ensures { (arenas : ℕ) (all before : List Line) (region : RegionId)
            → IsAt arenas all before self.now → told.now.taking ≡ region.taking
            → in_hand all before ≡ Some region → result ≡ Ok region }
    {
        let taking = self.taking_at(object, told);
        self.held(taking, self.passed_uses(taking))
    }

    /// A region that is put away for the last time: that in hand, or another after its last use.
    pub fn put(&self, object: &Object, told: &RegionId) -> Result<RegionId, LineNo>
        ensures { (arenas : ℕ) (all before : List Line) (region : RegionId)
            → IsAt arenas all before self.now → told.now.taking ≡ region.taking
            → in_hand all before ≡ Some region → result ≡ Ok region }
    {
        let taking = self.taking_at(object, told);
        self.held(taking, self.known.uses_of(taking))
    }

    /// A region that a root begins to use.
    pub fn used(&self, told: &RegionId) -> Result<RegionId, LineNo>
        ensures { (arenas : ℕ) (all before : List Line) (region : RegionId)
            → IsAt arenas all before self.now → told.now ≡ use_told region
            → region_with all (taking_key region) region.uses ≡ Some region
            → result ≡ Ok region }
    {
        known_or(
            self.known.region(taking_key(told), told.uses),
            LineNo::Region,
        )
    }

    // The region in hand, where it is of this taking; or another, used so often.
    fn held(&self, taking: TakingKey, uses: u64) -> Result<RegionId, LineNo>
        ensures { (region : RegionId) → self.now.hand ≡ Some region → taking.1 ≡ region.taking
            → result ≡ Ok region }
    {
        if let Some(region) = self.hand {
            if region.taking == taking.1 {
                return Ok(region);
            }
        }
        known_or(self.known.region(taking, uses), LineNo::Region)
    }

    // The uses that the last birth or growth tells of a taking, of the notes that were passed.
    fn passed_uses(&self, taking: TakingKey) -> u64
        ensures { (arenas : ℕ) (all before : List Line) → IsAt arenas all before self.now
            → result ≡ uses_after before taking }
    {
        self.passed.get(&taking).copied().unwrap_or(0)
    }

    // The taking of a region at an object.
    fn taking_at(&self, object: &Object, told: &RegionId) -> TakingKey
        ensures { 0 < self.now.arenas → result ≡ key_at self.now.arenas object.now told.now }
    {
        let arena = match object {
            Object::Arena(arena) => *arena,
            // A lane's cache has regions of the arena that the lane takes from.
            Object::Cache { lane, .. } => lane.checked_rem(self.arenas).unwrap_or(0),
            Object::Bin(_) | Object::Mail { .. } | Object::Root(_) => 0,
        };
        (arena, told.taking)
    }
}
