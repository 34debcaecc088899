//! The sampled roots that are live as a pool closes.

ghost use Rattle.std.specs.Prelude.{◌≡◌, ◌+◌, ◌*◌, ◌/◌, ◌%◌, ◌^◌, ◌≤◌, [], ◌++◌, length, All, vec_capacity};
ghost use Rattle.size_classes.specs.Sizes.{below};
ghost use Rattle.pool_law.specs.Arenas.{listed};
ghost use Rattle.pool_law.specs.Homes.{objects_of};
ghost use Rattle.pool_law.specs.Limits.{IsShape};
ghost use Rattle.shared_pool.specs.Ends.{IsPlaceHere, ArePlaces, told_in, told_here, told_from, first_place, count_in, KeepsFew, told_of};
ghost use Rattle.shared_pool.specs.PlaceViews.{root_seen};
ghost use Rattle.shared_pool.specs.Rooms.{IsSpare};

use crate::home::Home;
use crate::root_place::{Held, Root, RootPlace};
use crate::spares::{KEPT, add};
use leak_records::{LiveRoot, Tracker};
use pool_law::{Access, Items, Shape};
use size_classes::CACHED_CLASSES;

// The watched roots that are present, by root place, in a vector that has room. Each gets one of
// the spare vectors for its records.
pub(crate) fn live_roots(
    homes: &mut [Option<Home>],
    words: &[u64],
    shape: &Shape,
    mut spare: Vec<Vec<Access>>,
    mut live: Vec<LiveRoot>,
) -> Vec<LiveRoot>
    requires shape { IsShape shape.now }
    requires places { ArePlaces shape.now homes.old }
    requires homes { length homes.old ≡ objects_of shape.now }
    requires words { length words.now ≡ objects_of shape.now + shape.now.lanes * shape.now.handles }
    requires spare { All IsSpare spare.items
        × (length spare.items ≡ shape.now.lanes * shape.now.handles) }
    requires room { (live.items ≡ [])
        × (shape.now.lanes * shape.now.handles ≤ vec_capacity live) }
    ensures same { homes.new ≡ homes.old }
    ensures live { let places = shape.now.lanes * shape.now.handles in
        result.items ≡ told_from shape.now homes.old words.now (below places) }
{
    let first = first_place(shape);
    let objects = homes.len();
    for place in 0..shape.lanes * shape.handles {
        let Some(records) = spare.pop() else {
            unreachable!()
        };
        let count = count_in(words[objects + place as usize]);
        let told = told_at(&mut homes[first + place as usize], count, records);
        add(told, &mut live);
    }
    live
}

// Where the first root place stands among the home values.
fn first_place(shape: &Shape) -> usize
    requires { IsShape shape.now }
    ensures { result ≡ first_place shape.now }
{
    let lanes = shape.lanes as usize;
    shape.arenas as usize + lanes * (CACHED_CLASSES as usize + 1)
}

// The count in the word of a root's count.
fn count_in(word: u64) -> u32
    ensures { result ≡ count_in word }
{
    (word % 4294967296 / 2) as u32
}

// What is told of the root at a place, if one is present and watched.
fn told_at(home: &mut Option<Home>, count: u32, records: Vec<Access>) -> Option<LiveRoot>
    requires place { IsPlaceHere home.old }
    requires records { IsSpare records }
    ensures same { home.new ≡ home.old }
    ensures told { listed result (λ x. x) ≡ told_here home.old count }
{
    let Some(Home::Root(place)) = home else {
        unreachable!()
    };
    place.told(count, records)
}

impl RootPlace {
    // What is told of the root, if one is present and watched.
    fn told(&mut self, count: u32, records: Vec<Access>) -> Option<LiveRoot>
        requires few { KeepsFew self.old }
        requires records { IsSpare records }
        ensures same { self.new ≡ self.old }
        ensures told { listed result (λ x. x) ≡ told_in self.old count }
    {
        let Some(held) = &mut self.present else {
            return None;
        };
        self.last.told(held, count, records)
    }
}

impl Root {
    // What is told of it, if it is watched.
    fn told(&self, held: &mut Held, count: u32, records: Vec<Access>) -> Option<LiveRoot>
        requires few { length held.old.handle.tracker.kept ≤ 4 }
        requires records { IsSpare records }
        ensures same { held.new ≡ held.old }
        ensures told { listed result (λ x. x) ≡ told_of count (root_seen self.now held.old) }
    {
        let capacity = self.capacity;
        let tracker = held.handle.tracker();
        let Some(watch) = tracker.watch() else {
            return None;
        };
        let dropped = tracker.dropped();
        let records = kept(tracker, records);
        Some(LiveRoot {
            capacity,
            count,
            watch,
            records: Items::of(records),
            dropped,
        })
    }
}

// The accesses that a tracker keeps, in a vector that has room.
fn kept(tracker: &Tracker, mut records: Vec<Access>) -> Vec<Access>
    requires few { length tracker.now.kept ≤ 4 }
    requires records { IsSpare records }
    ensures { result.items ≡ tracker.now.kept }
{
    for i in 0..KEPT {
        let Some(access) = tracker.kept(i) else {
            return records;
        };
        let Ok(()) = records.push(access) else {
            unreachable!()
        };
    }
    records
}
