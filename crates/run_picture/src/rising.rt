//! Moments of notes that rise from one to the next.

ghost use Rattle.std.specs.Prelude.{◌≡◌, IsTrue, IfOk, length};
ghost use Rattle.run_picture.specs.Rising.{Rise};

use std::alloc::{AllocError, Global};

// Whether each number is less than the next.
fn rises(numbers: &[u64]) -> bool
    ensures { IsTrue result → Rise numbers.now }
{
    for at in 1..numbers.len() {
        if numbers[at - 1] >= numbers[at] {
            return false;
        }
    }
    true
}

// The numbers from 0 on, so many.
fn counted(alloc: Global, count: usize) -> Result<Vec<u64>, AllocError>
    ensures rise { IfOk result (λ numbers. Rise numbers.items) }
    ensures count { IfOk result (λ numbers. length numbers.items ≡ count) }
{
    let mut numbers = Vec::new(alloc);
    for number in 0..count {
        numbers.push(number as u64)?;
    }
    Ok(numbers)
}

/// These moments, where they rise and are so many; else the numbers from 0 on. Those of an order rise.
pub fn rising(alloc: Global, moments: Vec<u64>, count: usize) -> Result<Vec<u64>, AllocError>
    ensures rise { IfOk result (λ numbers. Rise numbers.items) }
    ensures count { IfOk result (λ numbers. length numbers.items ≡ count) }
{
    if moments.len() == count && rises(&moments) {
        return Ok(moments);
    }
    counted(alloc, count)
}
