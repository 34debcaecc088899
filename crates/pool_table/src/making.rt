//! What `new` lays out before the table is made.
ghost use Rattle.std.specs.Prelude.{◌≡◌, ◌≤◌, ◌+◌, ◌++◌, List, [], length, replicate, Option, None, IfOk, filter_map, vec_len, vec_capacity};
ghost use Rattle.pool_law.specs.Homes.{objects_of};
ghost use Rattle.pool_table.specs.Sound.{IsTableShape};
ghost use Rattle.pool_table.specs.Words.{IsOpening};
ghost use Rattle.pool_table.specs.Slots.{laid_out, slots_of};

use crate::bare_slot::BareSlot;
use crate::index::{count_index, gap_count, object_count, word_count};
use pool_law::Shape;
use std::alloc::{AllocError, Global};

// The words of a table in which nothing was noted yet.
pub(crate) fn opening_words(alloc: Global, shape: &Shape) -> Result<Vec<u64>, AllocError>
    requires { IsTableShape shape.now }
    ensures { IfOk result (λ v. IsOpening shape.now v.items) }
{
    let mut words = Vec::from_elem(alloc, 0u64, word_count(shape))?;
    for place in 0..shape.lanes * shape.handles {
        let word = count_index(shape, place);
        words[word] = 1;
    }
    Ok(words)
}

// Each home in its slot, in the same order, and the slots between them empty. The Vec that held
// them keeps its room.
pub(crate) fn wrapped<H>(
    shape: &Shape,
    homes: &mut Vec<H>,
    mut slots: Vec<BareSlot<H>>,
) -> Vec<BareSlot<H>>
    requires shape { IsTableShape shape.now }
    requires homes { vec_len homes.old ≡ objects_of shape.now }
    requires slots { (slots.items ≡ []) × (slots_of shape.now ≤ vec_capacity slots) }
    ensures slots { result.items ≡ laid_out shape.now 0 homes.old.items }
    ensures homes { (homes.new.items ≡ []) × (vec_len homes.old ≤ vec_capacity homes.new) }
{
    while let Some(home) = homes.pop() {
        let home = leave_empty(&mut slots, gap_count(shape, homes.len()), home);
        let pushed = slots.push(BareSlot::of(home));
        let Ok(()) = pushed else { unreachable!() };
    }
    slots.as_mut_slice().reverse();
    slots
}

// So many empty slots more. Each is one that the home value was in, which comes out again.
fn leave_empty<H>(slots: &mut Vec<BareSlot<H>>, count: usize, home: H) -> H
    requires { vec_len slots.old + count ≤ vec_capacity slots.old }
    ensures same { result ≡ home }
    ensures items { slots.new.items ≡ slots.old.items ++ replicate count None }
    ensures many { vec_len slots.new ≡ vec_len slots.old + count }
    ensures room { vec_capacity slots.old ≤ vec_capacity slots.new }
{
    let mut home = home;
    for _made in 0..count {
        let mut bare = BareSlot::of(home);
        home = bare.take();
        let pushed = slots.push(bare);
        let Ok(()) = pushed else { unreachable!() };
    }
    home
}

// The homes out of their slots again, which are laid out.
pub(crate) fn unwrapped<H>(shape: &Shape, mut slots: Vec<BareSlot<H>>, mut homes: Vec<H>) -> Vec<H>
    requires shape { IsTableShape shape.now }
    requires laid { slots.items ≡ laid_out shape.now 0 (filter_map (λ x. x) slots.items) }
    requires many { length (filter_map (λ x. x) slots.items) ≡ objects_of shape.now }
    requires empty { homes.items ≡ [] }
    requires room { objects_of shape.now ≤ vec_capacity homes }
    ensures { result.items ≡ filter_map (λ x. x) slots.items }
{
    let mut left = object_count(shape);
    while left > 0 {
        left -= 1;
        drop_empty(&mut slots, gap_count(shape, left));
        let Some(mut bare) = slots.pop() else {
            unreachable!()
        };
        let pushed = homes.push(bare.take());
        let Ok(()) = pushed else { unreachable!() };
        bare.leave();
    }
    slots.destroy_empty();
    homes.as_mut_slice().reverse();
    homes
}

// So many empty slots less, behind those before them.
fn drop_empty<H>(slots: &mut Vec<BareSlot<H>>, count: usize)
    ghost before: { List (Option H) }
    requires gap { slots.old.items ≡ before ++ replicate count None }
    ensures { slots.new.items ≡ before }
{
    for _dropped in 0..count {
        let Some(bare) = slots.pop() else {
            unreachable!()
        };
        bare.leave();
    }
}
