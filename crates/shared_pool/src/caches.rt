//! The caches of the lanes: regions that wait for their next use.

ghost use Rattle.std.specs.Prelude.{◌≡◌, ◌+◌, ◌<◌, ◌≤◌, true, false, IfSome};
ghost use Rattle.pool_law.specs.declared.note.Did.{Did};
ghost use Rattle.pool_law.specs.declared.note.Object.TheVariants.{Cache};
ghost use Rattle.pool_law.specs.Limits.{cached_classes};
ghost use Rattle.shared_pool.specs.SeatViews.{view_of, SameSeat};
ghost use Rattle.pool_table.specs.Learned.{in_own, takes_of, gives_of};
ghost use Rattle.shared_pool.specs.Answers.{IfDid, IfHeld};
ghost use Rattle.shared_pool.specs.CacheAnswers.{was_put, IfBack};
ghost use Rattle.shared_pool.specs.Holding.{HoldsRegion};
ghost use Rattle.shared_pool.specs.Notes.{plain, hit};
ghost use Rattle.shared_pool.specs.Quotas.{quota_left, has_closed};
ghost use Rattle.shared_pool.specs.SeatLanes.{lane_of};
ghost use Rattle.shared_pool.specs.Seats.{IsPoolSeat, IsNoted, FoundBusy};

use crate::cache_sections::{answered, close, pop, popped, put, shed, trim};
use crate::noting::{lane_of, note, noted};
use crate::pool::SharedPool;
use crate::seat::PoolSeat;
use crate::went::{Put, Went};
use pool_law::{Did, Object, Region};
use std::marker::Brand;

impl SharedPool {
    /// Takes the front region of the cache of a class in the seat's lane, or none exactly where it
    /// is empty. Where another seat was there, the seat keeps a mark of it.
    #[inline(always)]
    pub fn pop_cached(&self, seat: &mut PoolSeat, class: u32) -> Went<Option<Region>, ()>
        requires seat { IsPoolSeat self.now seat.old }
        requires turn { 0 < (view_of seat.old).turns }
        requires class { class < cached_classes }
        requires no_quota { quota_left (lane_of seat.old) class (view_of seat.old).own.notes ≡ 0 }
        ensures same { SameSeat seat.old seat.new }
        ensures seat { IsPoolSeat self.now seat.new }
        ensures did { IfDid result (λ number region.
            IsNoted self.now seat.old seat.new (Cache (lane_of seat.old) class) number
            (plain (hit region))) }
        ensures region { IfDid result (λ number region. IfSome region (λ r.
            HoldsRegion self.now seat.new r
            × (r.id.owner ≡ lane_of seat.old) × (r.id.class ≡ class))) }
        ensures held { IfHeld result (λ held back.
            FoundBusy self.now (Cache (lane_of seat.old) class) true seat.old seat.new held) }
    {
        let object = Object::Cache {
            lane: lane_of(seat),
            class,
        };
        let mut section = match self.table.claim(&mut seat.seat, object, true) {
            Ok(section) => section,
            Err(held) => return Went::Held(held, ()),
        };
        let region = pop(&mut section);
        let noted = noted(popped(&region));
        let number = note::<Brand>(&self.table, &mut seat.seat, section, &noted);
        Went::Did(number, region)
    }

    /// Puts a region into the cache of its class in the lane that took it from its arena, or gets
    /// it back from a cache that is closed or full. Where another seat was there, the region comes
    /// back, and the seat keeps a mark.
    #[inline(always)]
    pub fn put_cached(&self, seat: &mut PoolSeat, region: Region) -> Went<Put, Region>
        requires seat { IsPoolSeat self.now seat.old }
        requires turn { 0 < (view_of seat.old).turns }
        requires region { HoldsRegion self.now seat.old region }
        requires class { region.id.class < cached_classes }
        ensures same { SameSeat seat.old seat.new }
        ensures seat { IsPoolSeat self.now seat.new }
        ensures did { IfDid result (λ number put.
            IsNoted self.now seat.old seat.new (Cache region.id.owner region.id.class) number
            (plain (was_put region.id put))) }
        ensures back { IfDid result (λ number put. IfBack put (λ r. r ≡ region)) }
        ensures held { IfHeld result (λ held back. (back ≡ region)
            × FoundBusy self.now (Cache region.id.owner region.id.class) true
            seat.old seat.new held) }
    {
        let id = region.id;
        let home = Object::Cache {
            lane: id.owner,
            class: id.class,
        };
        let mut section = match self.table.claim(&mut seat.seat, home, true) {
            Ok(section) => section,
            Err(held) => return Went::Held(held, region),
        };
        let put = put(&mut section, region);
        let noted = noted(answered(id, &put));
        let number = note::<Brand>(&self.table, &mut seat.seat, section, &noted);
        Went::Did(number, put)
    }

    /// Trims the cache of a class in the seat's lane, and answers how many regions are to be shed:
    /// those that the hits since the last trim didn't need. They are of takings that the seat made
    /// and hasn't given back.
    pub fn trim_cached(&self, seat: &mut PoolSeat, class: u32) -> Went<u32, ()>
        requires seat { IsPoolSeat self.now seat.old }
        requires turn { 0 < (view_of seat.old).turns }
        requires class { class < cached_classes }
        requires no_quota { quota_left (lane_of seat.old) class (view_of seat.old).own.notes ≡ 0 }
        ensures same { SameSeat seat.old seat.new }
        ensures seat { IsPoolSeat self.now seat.new }
        ensures did { IfDid result (λ number quota.
            IsNoted self.now seat.old seat.new (Cache (lane_of seat.old) class) number
            (plain (Did.Trim quota))) }
        ensures bound { IfDid result (λ number quota. let v = view_of seat.old in
            quota + in_own (gives_of (lane_of seat.old) class) v ≤ in_own (takes_of class) v) }
        ensures held { IfHeld result (λ held back.
            FoundBusy self.now (Cache (lane_of seat.old) class) false seat.old seat.new held) }
    {
        let object = Object::Cache {
            lane: lane_of(seat),
            class,
        };
        let mut section = match self.table.claim(&mut seat.seat, object, false) {
            Ok(section) => section,
            Err(held) => return Went::Held(held, ()),
        };
        let quota = trim(&mut section);
        let noted = noted(Did::Trim(quota));
        let number = note::<Brand>(&self.table, &mut seat.seat, section, &noted);
        Went::Did(number, quota)
    }

    /// Closes the cache of a class in the seat's lane, and answers how many regions are to be shed:
    /// all that are in it. They are of takings that the seat made and hasn't given back.
    pub fn close_cached(&self, seat: &mut PoolSeat, class: u32) -> Went<u32, ()>
        requires seat { IsPoolSeat self.now seat.old }
        requires turn { 0 < (view_of seat.old).turns }
        requires class { class < cached_classes }
        requires no_quota { quota_left (lane_of seat.old) class (view_of seat.old).own.notes ≡ 0 }
        requires not_closed { has_closed (lane_of seat.old) class
            (view_of seat.old).own.notes ≡ false }
        ensures same { SameSeat seat.old seat.new }
        ensures seat { IsPoolSeat self.now seat.new }
        ensures did { IfDid result (λ number quota.
            IsNoted self.now seat.old seat.new (Cache (lane_of seat.old) class) number
            (plain (Did.Close quota))) }
        ensures bound { IfDid result (λ number quota. let v = view_of seat.old in
            quota + in_own (gives_of (lane_of seat.old) class) v ≤ in_own (takes_of class) v) }
        ensures held { IfHeld result (λ held back.
            FoundBusy self.now (Cache (lane_of seat.old) class) false seat.old seat.new held) }
    {
        let object = Object::Cache {
            lane: lane_of(seat),
            class,
        };
        let mut section = match self.table.claim(&mut seat.seat, object, false) {
            Ok(section) => section,
            Err(held) => return Went::Held(held, ()),
        };
        let quota = close(&mut section);
        let noted = noted(Did::Close(quota));
        let number = note::<Brand>(&self.table, &mut seat.seat, section, &noted);
        Went::Did(number, quota)
    }

    /// Takes one region of the quota that the seat's last trim or close of the class left.
    pub fn shed(&self, seat: &mut PoolSeat, class: u32) -> Went<Region, ()>
        requires seat { IsPoolSeat self.now seat.old }
        requires turn { 0 < (view_of seat.old).turns }
        requires class { class < cached_classes }
        requires quota { 0 < quota_left (lane_of seat.old) class (view_of seat.old).own.notes }
        ensures same { SameSeat seat.old seat.new }
        ensures seat { IsPoolSeat self.now seat.new }
        ensures did { IfDid result (λ number region.
            IsNoted self.now seat.old seat.new (Cache (lane_of seat.old) class) number
            (plain (Did.Shed region.id))) }
        ensures region { IfDid result (λ number r.
            HoldsRegion self.now seat.new r
            × (r.id.owner ≡ lane_of seat.old) × (r.id.class ≡ class)) }
        ensures held { IfHeld result (λ held back.
            FoundBusy self.now (Cache (lane_of seat.old) class) false seat.old seat.new held) }
    {
        let cache = Object::Cache {
            lane: lane_of(seat),
            class,
        };
        let mut section = match self.table.claim(&mut seat.seat, cache, false) {
            Ok(section) => section,
            Err(held) => return Went::Held(held, ()),
        };
        let region = shed(&mut section);
        let noted = noted(Did::Shed(region.id));
        let number = note::<Brand>(&self.table, &mut seat.seat, section, &noted);
        Went::Did(number, region)
    }
}
