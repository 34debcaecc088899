//! The close: home values and words come out of the table.

ghost use Rattle.std.specs.Prelude.{◌≡◌, ℕ, ◌+◌, ◌<◌, ◌≤◌, [], length, true, false, Some, None, vec_capacity, slice_index, slice_index_or};
ghost use mathlib.Core.Option.{some};
ghost use lib.ListN.{get_elem?};
ghost use Rattle.std.specs.Mem.Slots.{slots_items, slots_filled, slots_len, IsFull};
ghost use Rattle.pool_law.specs.Homes.{objects_of};
ghost use Rattle.pool_table.specs.Words.{listed_of, word_at, words_of};
ghost use Rattle.pool_table.specs.Slots.{slot_at, slots_of, IsEmptyBetween};
ghost use Rattle.pool_table.specs.Sound.{IsTableShape};
ghost use Rattle.pool_table.specs.Seats.{view_of, IsSeatOf, IsOutside};
ghost use Rattle.pool_table.specs.Closed.{HasAllLanes, IsClosed};

use crate::bare_slot::BareSlot;
use crate::index::{listed_count, object_count, slot_index, word_index};
use crate::table::{PoolSeat, PoolTable};
use atomic_table::Closed;
use pool_law::{Noted, Shape};
use std::alloc::Global;
use step_law::Told;

impl<H: Told<Note = Noted>> PoolTable<H> {
    /// The home values in the order of the objects, each there, and the words: those of the objects
    /// in the same order, then those of the counts by root place. The seat has the parts of all
    /// lanes, so no section is open.
    pub fn close_with(self, seat: PoolSeat<H>) -> (Vec<Option<H>>, Vec<u64>)
        requires own { IsSeatOf self seat }
        requires outside { IsOutside seat }
        requires all { HasAllLanes self.layout (view_of seat) }
        ensures { IsClosed H.stands self.layout (view_of seat) result.0.items result.1.items }
    {
        let PoolTable {
            table,
            layout,
            alloc: _,
            firsts: _,
            spare_homes,
            spare_words,
        } = self;
        let (seat, _letter) = seat.into_parts();
        let mut closed = table.close_with(seat);
        let words = take_words(&closed, &layout.shape, spare_words);
        let homes = take_homes(&mut closed, &layout.shape, spare_homes);
        closed.free();
        (homes, words)
    }
}

// The words of a closed table in the order of the list, into a Vec that has room.
fn take_words<S>(closed: &Closed<S, Global>, shape: &Shape, mut words: Vec<u64>) -> Vec<u64>
    requires shape { IsTableShape shape.now }
    requires full { IsFull closed.now.words × (slots_len closed.now.words ≡ words_of shape.now) }
    requires room { (words.items ≡ []) × (listed_of shape.now ≤ vec_capacity words) }
    ensures many { length result.items ≡ listed_of shape.now }
    ensures laid { (k : ℕ) → k < listed_of shape.now →
        slice_index result.items k
        ≡ slice_index (slots_items closed.now.words) (word_at shape.now k) }
{
    let count = listed_count(shape);
    for i in 0..count {
        let word = closed.word(word_index(shape, i));
        let Ok(()) = words.push(word) else {
            unreachable!()
        };
    }
    words
}

// The home values of a closed table in the order of the objects, into a Vec that has room.
fn take_homes<H>(
    closed: &mut Closed<BareSlot<H>, Global>,
    shape: &Shape,
    mut homes: Vec<Option<H>>,
) -> Vec<Option<H>>
    requires shape { IsTableShape shape.now }
    requires full { IsFull closed.old.slots × (slots_len closed.old.slots ≡ slots_of shape.now) }
    requires there { (k : ℕ) → k < objects_of shape.now → (home : H)
        × (get_elem? (slots_items closed.old.slots) (slot_at shape.now k) ≡ some (Some home)) }
    requires between { IsEmptyBetween shape.now (slots_items closed.old.slots) }
    requires room { (homes.items ≡ []) × (objects_of shape.now ≤ vec_capacity homes) }
    ensures many { length result.items ≡ objects_of shape.now }
    ensures laid { (k : ℕ) → k < objects_of shape.now →
        get_elem? result.items k
        ≡ get_elem? (slots_items closed.old.slots) (slot_at shape.now k) }
    ensures empty { (k : ℕ) → k < slots_len closed.new.slots →
        slice_index_or (slots_filled closed.new.slots) k false ≡ false }
{
    let count = object_count(shape);
    for i in 0..count {
        let slot = slot_index(shape, i);
        let mut bare = closed.take(slot);
        let pushed = homes.push(Some(bare.take()));
        let Ok(()) = pushed else { unreachable!() };
        bare.leave();
        pass_empty(closed, slot, slot_index(shape, i + 1));
    }
    homes
}

// Goes over the empty slots behind one.
fn pass_empty<H>(closed: &mut Closed<BareSlot<H>, Global>, slot: usize, end: usize)
    requires within { (slot < end) × (end ≤ slots_len closed.old.slots) }
    requires full { (k : ℕ) → slot < k → k < end →
        slice_index_or (slots_filled closed.old.slots) k false ≡ true }
    requires nothing { (k : ℕ) → slot < k → k < end →
        get_elem? (slots_items closed.old.slots) k ≡ some None }
    ensures same { (slots_items closed.new.slots ≡ slots_items closed.old.slots)
        × (slots_len closed.new.slots ≡ slots_len closed.old.slots) }
    ensures empty { (k : ℕ) → slot < k → k < end →
        slice_index_or (slots_filled closed.new.slots) k false ≡ false }
    ensures before { (k : ℕ) → k ≤ slot →
        slice_index_or (slots_filled closed.new.slots) k false
        ≡ slice_index_or (slots_filled closed.old.slots) k false }
    ensures behind { (k : ℕ) → end ≤ k →
        slice_index_or (slots_filled closed.new.slots) k false
        ≡ slice_index_or (slots_filled closed.old.slots) k false }
{
    for k in slot + 1..end {
        closed.take(k).leave();
    }
}
