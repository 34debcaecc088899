//! How often a thread counts each root.

ghost use Rattle.std.specs.Prelude.{◌≡◌, ◌+◌, ◌-◌, ◌<◌, ◌≤◌, ◌^◌, ◌⊎◌, ◌&&◌, nat_le, nat_lt, false, max, if◌then◌else◌, length, IfOk, IsTrue};
ghost use Rattle.pool_law.specs.declared.id.RootId.{RootId};
ghost use Rattle.pool_law.specs.Same.{same_root};
ghost use Rattle.pool_member.specs.Counting.{counted, is_alone, known, told};
ghost use Rattle.seat_work.specs.Changes.{one_for};

use pool_law::RootId;
use std::alloc::{AllocError, Global};
use std::marker::Model;

// The root of a place that the thread counted last, how often it counts it, the most capacity that
// it was told of it since its birth, and whether it alone has it for certain.
#[derive(Drop)]
struct Counted {
    root: RootId,
    count: u64,
    told: u32,
    alone: bool,
}

/// A thread's own counts: it counts at most one root of each place.
#[derive(Drop)]
pub struct OwnCounts {
    by_place: Vec<Counted>,
}

impl Model for OwnCounts {
    ghost use Rattle.std.specs.Prelude.{List};
    ghost use Rattle.pool_member.specs.declared.counts.Counted.{Counted};
    ghost use Rattle.pool_member.specs.Counting.{StandInPlace};

    ghost Value = { List Counted };

    ghost view = { λ counts. counts.by_place.items };

    ghost invariant = { λ counts. StandInPlace counts.by_place.items };
}

impl OwnCounts {
    /// No counts at so many root places.
    pub(crate) fn new(alloc: Global, places: u32) -> Result<OwnCounts, AllocError>
        ensures none { IfOk result (λ counts. (root : RootId) → counted counts root ≡ 0) }
        ensures untold { IfOk result (λ counts. (root : RootId) → told counts root ≡ 0) }
        ensures alone { IfOk result (λ counts. (root : RootId) → is_alone counts root ≡ false) }
        ensures places { IfOk result (λ counts. length counts ≡ places) }
    {
        let mut by_place = Vec::with_capacity(alloc, places as usize)?;
        for place in 0..places {
            let root = RootId {
                place,
                generation: 0,
                capacity: 0,
            };
            by_place.push(Counted {
                root,
                count: 0,
                told: 0,
                alone: false,
            })?;
        }
        Ok(OwnCounts { by_place })
    }

    /// How often the thread counts a root, and the most capacity that it was told of it.
    pub fn of(&self, root: RootId) -> (u64, u32)
        ensures { result ≡ (counted self.now root, told self.now root) }
    {
        let Some(at_place) = self.by_place.get(root.place as usize) else {
            return (0, 0);
        };
        if at_place.root == root {
            (at_place.count, at_place.told)
        } else {
            (0, 0)
        }
    }

    /// Whether the thread counts a root, and knows of so much of its capacity.
    #[inline(always)]
    pub fn reaches(&self, root: RootId, end: u32) -> bool
        ensures { result
            ≡ (nat_lt 0 (counted self.now root) && nat_le end (known self.now root)) }
    {
        (root.place as usize) < self.by_place.len() && self.reaches_at(&root, end)
    }

    /// The same of a root whose place is known to be one of these.
    #[inline(always)]
    pub fn reaches_at(&self, root: &RootId, end: u32) -> bool
        requires place { root.now.place < length self.now }
        ensures { result
            ≡ (nat_lt 0 (counted self.now root.now) && nat_le end (known self.now root.now)) }
    {
        let at_place = &self.by_place[root.place as usize];
        // What is kept there is of that place. One test after the other, as each mostly is met.
        if at_place.root.generation != root.generation {
            return false;
        }
        if at_place.root.capacity != root.capacity {
            return false;
        }
        if at_place.count == 0 {
            return false;
        }
        if end <= root.capacity {
            return true;
        }
        end <= at_place.told
    }

    /// Counts a root once more. Of its place no other root is counted, and what was told of another
    /// one is forgotten.
    pub(crate) fn add(&mut self, root: RootId)
        requires place { root.place < length self.old }
        requires alone { (other : RootId) → other.place ≡ root.place →
            0 < counted self.old other → other ≡ root }
        requires few { counted self.old root < 2 ^ 64 - 1 }
        ensures counts { (other : RootId) →
            counted self.new other ≡ counted self.old other + one_for root other }
        ensures tells { (other : RootId) → told self.new other ≤ told self.old other }
        ensures keeps { (other : RootId) → 0 < counted self.new other →
            known self.old other ≤ known self.new other }
        ensures alone { (other : RootId) →
            IsTrue (is_alone self.new other) → IsTrue (is_alone self.old other) }
        ensures owns { (other : RootId) → 0 < counted self.old other →
            IsTrue (is_alone self.old other) → IsTrue (is_alone self.new other) }
        ensures places { length self.new ≡ length self.old }
    {
        let at_place = &mut self.by_place[root.place as usize];
        if at_place.root == root {
            at_place.count += 1;
        } else {
            *at_place = Counted {
                root,
                count: 1,
                told: 0,
                alone: false,
            };
        }
    }

    /// Counts a root once that was just born: at its place nothing is counted, and no more was told
    /// of its capacity than its name says.
    #[inline(always)]
    pub(crate) fn add_born(&mut self, root: &RootId)
        requires place { root.now.place < length self.old }
        requires fresh { (other : RootId) → other.place ≡ root.now.place →
            counted self.old other ≡ 0 }
        requires untold { told self.old root.now ≤ root.now.capacity }
        ensures counts { (other : RootId) →
            counted self.new other ≡ counted self.old other + one_for root.now other }
        ensures tells { (other : RootId) → told self.new other ≤ told self.old other }
        ensures keeps { (other : RootId) → 0 < counted self.new other →
            known self.old other ≤ known self.new other }
        ensures alone { (other : RootId) →
            IsTrue (is_alone self.new other) → IsTrue (is_alone self.old other) }
        ensures owns { (other : RootId) → 0 < counted self.old other →
            IsTrue (is_alone self.old other) → IsTrue (is_alone self.new other) }
        ensures places { length self.new ≡ length self.old }
    {
        self.by_place[root.place as usize] = Counted {
            root: in_parts(root),
            count: 1,
            told: 0,
            alone: false,
        };
    }

    /// Counts a root once less.
    pub(crate) fn take(&mut self, root: &RootId)
        requires { 0 < counted self.old root.now }
        ensures counts { (other : RootId) →
            counted self.new other + one_for root.now other ≡ counted self.old other }
        ensures tells { (other : RootId) → told self.new other ≡ told self.old other }
        ensures alone { (other : RootId) → is_alone self.new other ≡ is_alone self.old other }
        ensures places { length self.new ≡ length self.old }
    {
        self.by_place[root.place as usize].count -= 1;
    }

    /// The same of a root that the thread parts with, which it does not have alone then.
    pub(crate) fn part(&mut self, root: RootId)
        requires { 0 < counted self.old root }
        ensures counts { (other : RootId) →
            counted self.new other + one_for root other ≡ counted self.old other }
        ensures tells { (other : RootId) → told self.new other ≡ told self.old other }
        ensures alone { (other : RootId) →
            IsTrue (is_alone self.new other) → IsTrue (is_alone self.old other) }
        ensures owns { (other : RootId) → same_root root other ≡ false →
            IsTrue (is_alone self.old other) → IsTrue (is_alone self.new other) }
        ensures gone { is_alone self.new root ≡ false }
        ensures places { length self.new ≡ length self.old }
    {
        let at_place = &mut self.by_place[root.place as usize];
        at_place.count -= 1;
        at_place.alone = false;
    }

    /// Whether it is kept that the thread alone has a root.
    pub fn is_alone(&self, root: RootId) -> bool
        ensures { result ≡ is_alone self.now root }
    {
        match self.by_place.get(root.place as usize) {
            Some(at_place) => at_place.root == root && at_place.alone,
            None => false,
        }
    }

    /// Keeps that the thread alone has a root that is counted.
    pub fn own(&mut self, root: RootId)
        requires { 0 < counted self.old root }
        ensures counts { (other : RootId) → counted self.new other ≡ counted self.old other }
        ensures tells { (other : RootId) → told self.new other ≡ told self.old other }
        ensures alone { (other : RootId) → IsTrue (is_alone self.new other) →
            (other ≡ root) ⊎ IsTrue (is_alone self.old other) }
        ensures owns { (other : RootId) →
            IsTrue (is_alone self.old other) → IsTrue (is_alone self.new other) }
        ensures own { IsTrue (is_alone self.new root) }
        ensures places { length self.new ≡ length self.old }
    {
        self.by_place[root.place as usize].alone = true;
    }

    /// Keeps that a root that is counted has so much capacity.
    pub(crate) fn tell(&mut self, root: RootId, capacity: u32)
        requires { 0 < counted self.old root }
        ensures counts { (other : RootId) → counted self.new other ≡ counted self.old other }
        ensures tells { (other : RootId) → told self.new other
            ≡ max (told self.old other) (if same_root root other then capacity else 0) }
        ensures alone { (other : RootId) → is_alone self.new other ≡ is_alone self.old other }
        ensures places { length self.new ≡ length self.old }
    {
        let at_place = &mut self.by_place[root.place as usize];
        at_place.told = at_place.told.max(capacity);
    }
}

/// The same root, by its parts, so that it stays in registers.
#[inline(always)]
pub fn in_parts(root: &RootId) -> RootId
    ensures { result ≡ root.now }
{
    RootId {
        place: root.place,
        generation: root.generation,
        capacity: root.capacity,
    }
}
