//! The chunks of all arenas at the end.

ghost use Rattle.std.specs.Prelude.{◌≡◌, ◌++◌, ◌≤◌, ◌^◌, ◌↔◌, IsTrue, IfOk, OnOk, MatchOption};
ghost use Rattle.size_classes.specs.Sizes.{below};
ghost use Rattle.pool_law.specs.Limits.{geometry_of};
ghost use Rattle.pool_law.specs.Logs.{Logs};
ghost use Rattle.pool_law.specs.Legal.{arena_ends, ends_from};
ghost use Rattle.run_check.specs.Placing.{DifferAt};
ghost use Rattle.run_check.specs.Storing.{AreHistories};

use crate::histories::{Histories, dids_of};
use object_steps::{Sizes, arena_after};
use pool_law::{ChunkEnd, Object, Shape};
use std::alloc::{AllocError, Global};

// Puts the chunks of an arena behind others.
fn push_arena(
    alloc: Global,
    shape: &Shape,
    sizes: &Sizes,
    histories: &Histories,
    number: u32,
    ends: &mut Vec<ChunkEnd>,
) -> Result<(), AllocError>
    requires sizes { sizes.now ≡ geometry_of shape.now }
    requires chunks { shape.now.chunks ≤ 2 ^ 16 }
    ensures { (logs : Logs) → AreHistories shape.now logs histories.now
        → OnOk result (ends.new.items ≡ ends.old.items ++ arena_ends shape.now logs number) }
{
    let dids = dids_of(alloc, histories.of(&Object::Arena(number)))?;
    match arena_after(alloc, shape, sizes, number, &dids)? {
        Some(arena) => arena.push_ends(sizes, number, ends),
        None => Ok(()),
    }
}

/// The chunks of all arenas.
pub fn ends_of(
    alloc: Global,
    shape: &Shape,
    sizes: &Sizes,
    histories: &Histories,
) -> Result<Vec<ChunkEnd>, AllocError>
    requires sizes { sizes.now ≡ geometry_of shape.now }
    requires chunks { shape.now.chunks ≤ 2 ^ 16 }
    ensures { (logs : Logs) → AreHistories shape.now logs histories.now
        → IfOk result (λ ends. ends.items ≡ ends_from shape.now logs (below shape.now.arenas)) }
{
    let mut ends = Vec::new(alloc);
    for number in 0..shape.arenas {
        push_arena(alloc, shape, sizes, histories, number, &mut ends)?;
    }
    Ok(ends)
}

// Whether two chunks are the same.
fn same_end(a: &ChunkEnd, b: &ChunkEnd) -> bool
    ensures { IsTrue result ↔ (a.now ≡ b.now) }
{
    a == b
}

/// The first place where two lists of chunks differ, if there is one.
pub fn first_unlike(a: &[ChunkEnd], b: &[ChunkEnd]) -> Option<usize>
    ensures { MatchOption result (a.now ≡ b.now) (DifferAt a.now b.now) }
{
    let both = a.len().min(b.len());
    for at in 0..both {
        if !same_end(&a[at], &b[at]) {
            return Some(at);
        }
    }
    if a.len() != b.len() {
        return Some(both);
    }
    None
}
