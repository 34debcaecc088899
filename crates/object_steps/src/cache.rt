//! A cache: the regions of one class that a lane keeps for itself.

ghost use Rattle.std.specs.Prelude.{◌≡◌, ℕ, IfOk};
ghost use Rattle.pool_law.specs.Limits.{cache_capacity};
ghost use Rattle.pool_law.specs.Caches.{cache_step, lane_cache_step, is_own, new_cache, refusal_is, trim_quota};

use pool_law::{CacheNo, Did, RegionId};
use size_classes::{CACHED_CLASSES, NORMAL_CACHE_CAPACITY, SMALL_CACHE_CAPACITY};
use std::alloc::{AllocError, Global};
use std::collections::VecDeque;
use std::marker::Model;

/// The regions of a cache, first in, first out, and what its notes count.
#[derive(Drop)]
pub struct Cache {
    regions: VecDeque<RegionId>,
    served: u32,
    quota: u32,
    closed: bool,
}

impl Model for Cache {
    ghost use Rattle.pool_law.specs.Caches.{Cache};

    ghost Value = { Cache };

    ghost view = { λ c. record {
      regions = c.regions.items;
      served = c.served;
      quota = c.quota;
      closed = c.closed;
    } };
}

impl Cache {
    /// A cache at first.
    pub fn new(alloc: Global) -> Cache
        ensures { result ≡ new_cache }
    {
        Cache {
            regions: VecDeque::new(alloc),
            served: 0,
            quota: 0,
            closed: false,
        }
    }

    /// The cache of a lane and class after a note, and none where the note may not stand.
    pub fn step(self, lane: u32, class: u32, did: &Did) -> Result<Option<Cache>, AllocError>
        ensures { IfOk result (λ next. next ≡ lane_cache_step lane class self did.now) }
    {
        if is_own(lane, class, did) {
            self.step_within(capacity_of(class), did)
        } else {
            Ok(None)
        }
    }

    // The cache of this capacity after a note.
    fn step_within(self, capacity: u32, did: &Did) -> Result<Option<Cache>, AllocError>
        ensures { IfOk result (λ next. next ≡ cache_step capacity self did.now) }
    {
        match did {
            Did::Hit(region) => Ok(self.hit(capacity, region)),
            Did::Miss => Ok(self.missed()),
            Did::Kept(region) => self.kept(capacity, region),
            Did::Back { region: _, no } => {
                if self.refuses(capacity, *no) {
                    Ok(Some(self))
                } else {
                    Ok(None)
                }
            }
            Did::Trim(quota) => Ok(self.trimmed(capacity, *quota)),
            Did::Close(quota) => Ok(self.after_close(*quota)),
            Did::Shed(region) => Ok(self.shed(region)),
            _ => Ok(None),
        }
    }

    // After a hit.
    fn hit(mut self, capacity: u32, region: &RegionId) -> Option<Cache>
        ensures { result ≡ cache_step capacity self (Did.Hit region.now) }
    {
        if self.quota != 0 {
            return None;
        }
        match self.regions.pop_front() {
            Some(front) => {
                if *region == front {
                    self.served = if self.served < capacity {
                        self.served + 1
                    } else {
                        capacity
                    };
                    Some(self)
                } else {
                    None
                }
            }
            None => None,
        }
    }

    // After a miss.
    fn missed(self) -> Option<Cache>
        ensures { (capacity : ℕ) → result ≡ cache_step capacity self Did.Miss }
    {
        if self.quota == 0 && self.regions.is_empty() {
            Some(self)
        } else {
            None
        }
    }

    // After a region was kept.
    fn kept(mut self, capacity: u32, region: &RegionId) -> Result<Option<Cache>, AllocError>
        ensures { IfOk result (λ next. next ≡ cache_step capacity self (Did.Kept region.now)) }
    {
        if !self.closed && self.regions.len() < capacity as usize {
            self.regions.push_back(*region)?;
            Ok(Some(self))
        } else {
            Ok(None)
        }
    }

    // Whether it may answer this to a region that is put.
    fn refuses(&self, capacity: u32, no: CacheNo) -> bool
        ensures { result ≡ refusal_is self.now capacity no }
    {
        match no {
            CacheNo::Closed => self.closed,
            CacheNo::Full => !self.closed && capacity as usize <= self.regions.len(),
        }
    }

    // After a trim.
    fn trimmed(mut self, capacity: u32, quota: u32) -> Option<Cache>
        ensures { result ≡ cache_step capacity self (Did.Trim quota) }
    {
        let unserved = capacity.saturating_sub(self.served) as usize;
        if self.quota == 0 && quota as usize == self.regions.len().min(unserved) {
            self.quota = quota;
            self.served = 0;
            Some(self)
        } else {
            None
        }
    }

    // After it was closed.
    fn after_close(mut self, quota: u32) -> Option<Cache>
        ensures { (capacity : ℕ) → result ≡ cache_step capacity self (Did.Close quota) }
    {
        if self.quota == 0 && (!self.closed && quota as usize == self.regions.len()) {
            self.quota = quota;
            self.closed = true;
            Some(self)
        } else {
            None
        }
    }

    // After a region was shed.
    fn shed(mut self, region: &RegionId) -> Option<Cache>
        ensures { (capacity : ℕ) → result ≡ cache_step capacity self (Did.Shed region.now) }
    {
        if self.quota == 0 {
            return None;
        }
        match self.regions.pop_front() {
            Some(front) => {
                if *region == front {
                    self.quota -= 1;
                    Some(self)
                } else {
                    None
                }
            }
            None => None,
        }
    }
}

// Whether a region that is put is of this lane and class.
fn is_own(lane: u32, class: u32, did: &Did) -> bool
    ensures { result ≡ is_own lane class did.now }
{
    match did {
        Did::Kept(region) => region.owner == lane && region.class == class,
        Did::Back { region, no: _ } => region.owner == lane && region.class == class,
        _ => true,
    }
}

// How many regions a cache of this class holds.
fn capacity_of(class: u32) -> u32
    ensures { result ≡ cache_capacity class }
{
    if class < CACHED_CLASSES - 1 {
        SMALL_CACHE_CAPACITY
    } else {
        NORMAL_CACHE_CAPACITY
    }
}
