//! A cache and its calls. Contracts see the regions in it from the front to the back.

ghost use Rattle.std.specs.Prelude.{◌≡◌, ◌-◌, ◌<◌, [], ◌∷◌, ◌++◌, true, false, OnOk, OnErr, IfOk, IfErr, IfSome, IfNone};

use circular_buffer::HeapCircularBuffer;
use pool_law::{CacheNo, Region};
use std::alloc::{AllocError, Global};
use std::marker::Model;

/// Regions that wait for their next use, first in, first out.
/// (Netty: `PoolThreadCache.MemoryRegionCache`.)
///
/// It must be spent. Each call but `new`, `take_out` and `leave` is one note of its history.
pub struct Cache {
    regions: HeapCircularBuffer<Region>,
    served: u32,
    quota: u32,
    closed: bool,
}

impl Model for Cache {
    ghost use Rattle.region_cache.specs.Queues.{Queue};

    ghost Value = { Queue };

    ghost use Rattle.region_cache.specs.Kept.{queue_in, IsCache};

    ghost view = { queue_in };

    ghost invariant = { IsCache };
}

impl Cache {
    ghost use Rattle.pool_law.specs.declared.note.Did.TheVariants.{Hit, Miss, Kept, Back, Trim, Close, Shed};
    ghost use Rattle.region_cache.specs.Queues.{Makes, new_queue};

    /// An empty cache that holds at most `capacity` regions. All memory is taken here.
    pub fn new(alloc: Global, capacity: u32) -> Result<Cache, AllocError>
        ensures ok { IfOk result (λ cache. cache ≡ new_queue capacity) }
    {
        let regions = HeapCircularBuffer::with_capacity(alloc, capacity as usize)?;
        Ok(Cache {
            regions,
            served: 0,
            quota: 0,
            closed: false,
        })
    }

    /// Puts a region at the back, or hands it back and says why.
    pub fn put(&mut self, region: Region) -> Result<(), (Region, CacheNo)>
        ensures ok { OnOk result (self.new.regions ≡ self.old.regions ++ region ∷ []) }
        ensures kept { OnOk result (Makes self.old (Kept region.id) self.new) }
        ensures rest { self.new ≡ record self.old { regions = self.new.regions } }
        ensures err { OnErr result (self.new ≡ self.old) }
        ensures handed_back { IfErr result (λ e. e.0 ≡ region) }
        ensures back { IfErr result (λ e. Makes self.old (Back region.id e.1) self.new) }
    {
        if self.closed {
            return Err((region, CacheNo::Closed));
        }
        match self.regions.try_push_back(region) {
            Ok(()) => Ok(()),
            Err(region) => Err((region, CacheNo::Full)),
        }
    }

    /// Takes the front region, and counts it as served. None comes exactly where there is none.
    pub fn pop(&mut self) -> Option<Region>
        requires { self.old.quota ≡ 0 }
        ensures some { IfSome result (λ r. self.old.regions ≡ r ∷ self.new.regions) }
        ensures hit { IfSome result (λ r. Makes self.old (Hit r.id) self.new) }
        ensures rest { self.new ≡
            record self.old { regions = self.new.regions; served = self.new.served } }
        ensures none { IfNone result (self.new ≡ self.old) }
        ensures miss { IfNone result (Makes self.old Miss self.new) }
    {
        let front = self.regions.pop_front()?;
        if (self.served as usize) < self.regions.capacity() {
            self.served += 1;
        }
        Some(front)
    }

    /// Answers how many regions are to be shed: what the hits since the last trim left of the
    /// capacity, but no more than are in it. Hits are counted anew from here on.
    pub fn trim(&mut self) -> u32
        requires { self.old.quota ≡ 0 }
        ensures trim { Makes self.old (Trim result) self.new }
        ensures rest { self.new ≡ record self.old { quota = result; served = 0 } }
    {
        let unserved = self.regions.capacity() - self.served as usize;
        self.quota = self.regions.len().min(unserved) as u32;
        self.served = 0;
        self.quota
    }

    /// Closes the cache, and answers how many regions are to be shed: all that are in it.
    pub fn close(&mut self) -> u32
        requires no_quota { self.old.quota ≡ 0 }
        requires not_closed { self.old.closed ≡ false }
        ensures close { Makes self.old (Close result) self.new }
        ensures rest { self.new ≡ record self.old { quota = result; closed = true } }
    {
        self.quota = self.regions.len() as u32;
        self.closed = true;
        self.quota
    }

    /// Takes the front region, as one of the quota.
    pub fn shed(&mut self) -> Region
        requires { 0 < self.old.quota }
        ensures front { self.old.regions ≡ result ∷ self.new.regions }
        ensures shed { Makes self.old (Shed result.id) self.new }
        ensures rest { self.new ≡
            record self.old { regions = self.new.regions; quota = self.old.quota - 1 } }
    {
        let Some(front) = self.regions.pop_front() else {
            unreachable!()
        };
        self.quota -= 1;
        front
    }

    /// Takes the front region out of a cache in any state, whose history is over: it makes no note.
    /// None comes exactly where there is none.
    pub fn take_out(&mut self) -> Option<Region>
        ensures some { IfSome result (λ r. self.old.regions ≡ r ∷ self.new.regions) }
        ensures none { IfNone result (self.old.regions ≡ []) }
    {
        self.quota = 0;
        self.regions.pop_front()
    }

    /// Ends a cache in any state. The memory of regions that are still in it stays taken.
    pub fn leave(self) {
        let Cache {
            mut regions,
            served: _,
            quota: _,
            closed: _,
        } = self;
        while let Some(region) = regions.pop_front() {
            let (_id, piece) = region.into_parts();
            piece.leave();
        }
        regions.destroy_empty();
    }
}
