//! How often a lane counts each root.

ghost use Rattle.std.specs.Prelude.{◌≡◌, ◌+◌, ◌-◌, ◌<◌, ◌^◌, length, IfOk};
ghost use Rattle.pool_law.specs.declared.id.RootId.{RootId};
ghost use Rattle.seat_work.specs.Changes.{one_for};
ghost use Rattle.lane_stages.specs.Counting.{counted};

use pool_law::RootId;
use std::alloc::{AllocError, Global};
use std::marker::Model;

// The root of a place that the lane counted last, and how often it counts it.
#[derive(Drop)]
struct Counted {
    root: RootId,
    count: u32,
}

/// A lane's own counts: it counts at most one root of each place.
#[derive(Drop)]
pub struct OwnCounts {
    by_place: Vec<Counted>,
}

impl Model for OwnCounts {
    ghost use Rattle.std.specs.Prelude.{List};
    ghost use Rattle.lane_stages.specs.declared.counts.Counted.{Counted};

    ghost Value = { List Counted };

    ghost view = { λ counts. counts.by_place.items };
}

impl OwnCounts {
    /// No counts at so many root places.
    pub fn new(alloc: Global, places: u32) -> Result<OwnCounts, AllocError>
        ensures none { IfOk result (λ counts. (root : RootId) → counted counts root ≡ 0) }
        ensures places { IfOk result (λ counts. length counts ≡ places) }
    {
        let mut by_place = Vec::with_capacity(alloc, places as usize)?;
        for place in 0..places {
            let root = RootId {
                place,
                generation: 0,
                capacity: 0,
            };
            by_place.push(Counted { root, count: 0 })?;
        }
        Ok(OwnCounts { by_place })
    }

    /// How often the lane counts a root.
    pub fn of(&self, root: RootId) -> u32
        ensures { result ≡ counted self.now root }
    {
        let Some(at_place) = self.by_place.get(root.place as usize) else {
            return 0;
        };
        if at_place.root == root {
            at_place.count
        } else {
            0
        }
    }

    /// Counts a root once more. Of its place no other root is counted.
    pub fn add(&mut self, root: RootId)
        requires place { root.place < length self.old }
        requires alone { (other : RootId) → other.place ≡ root.place →
            0 < counted self.old other → other ≡ root }
        requires few { counted self.old root < 2 ^ 32 - 1 }
        ensures counts { (other : RootId) →
            counted self.new other ≡ counted self.old other + one_for root other }
        ensures places { length self.new ≡ length self.old }
    {
        let at_place = &mut self.by_place[root.place as usize];
        if at_place.root == root {
            at_place.count += 1;
        } else {
            *at_place = Counted { root, count: 1 };
        }
    }

    /// Counts a root once less.
    pub fn take(&mut self, root: RootId)
        requires { 0 < counted self.old root }
        ensures counts { (other : RootId) →
            counted self.new other + one_for root other ≡ counted self.old other }
        ensures places { length self.new ≡ length self.old }
    {
        self.by_place[root.place as usize].count -= 1;
    }
}
