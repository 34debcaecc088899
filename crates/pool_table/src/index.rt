//! Where an object's word and slot are.
ghost use Rattle.std.specs.Prelude.{◌≡◌, ◌≤◌, ◌<◌, ◌*◌};
ghost use Rattle.pool_law.specs.Homes.{home_of, objects_of, IsObjectOf};
ghost use Rattle.pool_law.specs.declared.note.Object.TheVariants.{Root};
ghost use Rattle.pool_table.specs.Firsts.{AreFirsts};
ghost use Rattle.pool_table.specs.Sound.{IsTableShape};
ghost use Rattle.pool_table.specs.Words.{listed_of, single_of, word_at, word_of, words_of, count_word_of};
ghost use Rattle.pool_table.specs.Slots.{gap_of, slot_at, slot_of, slots_of};

use crate::firsts::Firsts;
use crate::table::HomeSlot;
use pool_law::{Object, Shape};
use size_classes::CACHED_CLASSES;

// How many homes a lane has for its caches.
const CACHES: usize = CACHED_CLASSES as usize;

// How many it has for its caches and its bin.
const LANE_HOMES: usize = CACHES + 1;

/// How far the slots of arenas, caches and bins lie apart, which no two lanes use at once then.
pub(crate) const SLOTS_APART: usize = 8;

// How many slots are empty between two of them.
const SLOT_GAP: usize = SLOTS_APART - 1;

/// How far the words of arenas, caches and bins lie apart, and those of two lanes' root places.
pub(crate) const WORDS_APART: usize = 16;

#[inline(always)]
pub(crate) fn home_index(shape: &Shape, object: Object) -> usize
    requires shape { IsTableShape shape.now }
    requires object { IsObjectOf shape.now object }
    ensures { result ≡ home_of shape.now object }
{
    let lanes = shape.lanes as usize;
    let arenas = shape.arenas as usize;
    match object {
        Object::Arena(a) => a as usize,
        Object::Cache { lane, class } => arenas + lane as usize * CACHES + class as usize,
        Object::Bin(lane) => arenas + lanes * CACHES + lane as usize,
        Object::Mail { from: _, to: _ } => unreachable!(),
        Object::Root(place) => arenas + lanes * LANE_HOMES + place as usize,
    }
}

#[inline(always)]
pub(crate) fn object_count(shape: &Shape) -> usize
    requires { IsTableShape shape.now }
    ensures { result ≡ objects_of shape.now }
{
    let lanes = shape.lanes as usize;
    shape.arenas as usize + lanes * LANE_HOMES + lanes * shape.handles as usize
}

pub(crate) fn listed_count(shape: &Shape) -> usize
    requires { IsTableShape shape.now }
    ensures { result ≡ listed_of shape.now }
{
    object_count(shape) + shape.lanes as usize * shape.handles as usize
}

pub(crate) fn word_count(shape: &Shape) -> usize
    requires { IsTableShape shape.now }
    ensures { result ≡ words_of shape.now }
{
    let lanes = shape.lanes as usize;
    let handles = shape.handles as usize;
    let single = shape.arenas as usize + lanes * LANE_HOMES;
    single * WORDS_APART
        + 2 * lanes * (handles + (WORDS_APART - handles % WORDS_APART) % WORDS_APART)
}

/// Where a word of the list lies. With as many handles a lane as words fill whole lines it divides nothing.
#[inline(always)]
pub(crate) fn word_index(shape: &Shape, listed: usize) -> usize
    requires shape { IsTableShape shape.now }
    requires listed { listed < listed_of shape.now }
    ensures { result ≡ word_at shape.now listed }
{
    let lanes = shape.lanes as usize;
    let single = shape.arenas as usize + lanes * LANE_HOMES;
    if listed < single {
        return listed * WORDS_APART;
    }
    let handles = shape.handles as usize;
    let padding = (WORDS_APART - handles % WORDS_APART) % WORDS_APART;
    let packed = listed - single;
    if padding == 0 {
        return single * WORDS_APART + packed;
    }
    single * WORDS_APART + (packed + packed / handles * padding)
}

/// Where the word of a root's count lies. No root is at a place that the shape doesn't have, and no
/// step is made there; for such a place the answer is the first word.
#[inline(always)]
pub(crate) fn root_index(shape: &Shape, firsts: &Firsts, place: u32) -> usize
    requires shape { IsTableShape shape.now }
    requires firsts { AreFirsts shape.now firsts.now }
    ensures within { result < words_of shape.now }
    ensures there { place < shape.now.lanes * shape.now.handles →
        result ≡ count_word_of shape.now place }
{
    if place < firsts.packed {
        firsts.count + place as usize
    } else {
        padded_root_index(shape, place)
    }
}

// The same, of a place that isn't packed.
fn padded_root_index(shape: &Shape, place: u32) -> usize
    requires shape { IsTableShape shape.now }
    ensures within { result < words_of shape.now }
    ensures there { place < shape.now.lanes * shape.now.handles →
        result ≡ count_word_of shape.now place }
{
    if place < shape.lanes * shape.handles {
        count_index(shape, place)
    } else {
        0
    }
}

#[inline(always)]
pub(crate) fn single_count(shape: &Shape) -> usize
    requires { IsTableShape shape.now }
    ensures { result ≡ single_of shape.now }
{
    let lanes = shape.lanes as usize;
    shape.arenas as usize + lanes * LANE_HOMES
}

/// Where the slot of a number lies, and where the last one ends.
#[inline(always)]
pub(crate) fn slot_index(shape: &Shape, number: usize) -> usize
    requires shape { IsTableShape shape.now }
    requires number { number ≤ objects_of shape.now }
    ensures { result ≡ slot_at shape.now number }
{
    let single = single_count(shape);
    if number < single {
        number * SLOTS_APART
    } else {
        single * SLOT_GAP + number
    }
}

pub(crate) fn slot_count(shape: &Shape) -> usize
    requires { IsTableShape shape.now }
    ensures { result ≡ slots_of shape.now }
{
    slot_index(shape, object_count(shape))
}

/// How many slots are empty behind the slot of a number.
pub(crate) fn gap_count(shape: &Shape, number: usize) -> usize
    requires { IsTableShape shape.now }
    ensures { result ≡ gap_of shape.now number }
{
    if number < single_count(shape) {
        SLOT_GAP
    } else {
        0
    }
}

/// Where an object's home value and its word lie.
#[inline(always)]
pub(crate) fn object_slot(shape: &Shape, object: Object) -> HomeSlot
    requires shape { IsTableShape shape.now }
    requires object { IsObjectOf shape.now object }
    ensures home { result.home ≡ slot_of shape.now object }
    ensures word { result.word ≡ word_of shape.now object }
{
    let number = home_index(shape, object);
    if let Object::Root(_) = object {
        HomeSlot {
            home: slot_index(shape, number),
            word: word_index(shape, number),
        }
    } else {
        HomeSlot {
            home: number * SLOTS_APART,
            word: number * WORDS_APART,
        }
    }
}

/// Where the home value of a root place and its word lie. No place is claimed that the shape
/// doesn't have; for such a place the answer is the first slot and the first word.
#[inline(always)]
pub(crate) fn place_slot(shape: &Shape, firsts: &Firsts, place: u32) -> HomeSlot
    requires shape { IsTableShape shape.now }
    requires firsts { AreFirsts shape.now firsts.now }
    ensures within { result.word < words_of shape.now }
    ensures home { place < shape.now.lanes * shape.now.handles →
        result.home ≡ slot_of shape.now (Root place) }
    ensures word { place < shape.now.lanes * shape.now.handles →
        result.word ≡ word_of shape.now (Root place) }
{
    if place < firsts.packed {
        HomeSlot {
            home: firsts.slot + place as usize,
            word: firsts.word + place as usize,
        }
    } else {
        padded_place_slot(shape, place)
    }
}

// The same, of a place that isn't packed.
fn padded_place_slot(shape: &Shape, place: u32) -> HomeSlot
    requires shape { IsTableShape shape.now }
    ensures within { result.word < words_of shape.now }
    ensures home { place < shape.now.lanes * shape.now.handles →
        result.home ≡ slot_of shape.now (Root place) }
    ensures word { place < shape.now.lanes * shape.now.handles →
        result.word ≡ word_of shape.now (Root place) }
{
    if place < shape.lanes * shape.handles {
        object_slot(shape, Object::Root(place))
    } else {
        HomeSlot { home: 0, word: 0 }
    }
}

/// Where the word of a root place's count lies.
#[inline(always)]
pub(crate) fn count_index(shape: &Shape, place: u32) -> usize
    requires shape { IsTableShape shape.now }
    requires place { place < shape.now.lanes * shape.now.handles }
    ensures { result ≡ count_word_of shape.now place }
{
    word_index(shape, object_count(shape) + place as usize)
}
