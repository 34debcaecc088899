//! The memory that the close of a pool takes, all of it before anything changes.

ghost use Rattle.std.specs.Prelude.{◌≡◌, ◌*◌, ◌<◌, ◌≤◌, [], ◌++◌, length, All, IfOk, vec_capacity};
ghost use Rattle.pool_law.specs.Arenas.{listed};
ghost use Rattle.pool_law.specs.Limits.{IsShape};
ghost use Rattle.shared_pool.specs.Rooms.{IsSpare, AreSparesFor};

use leak_records::LiveRoot;
use pool_law::{Access, ChunkEnd, Shape};
use std::alloc::{AllocError, Global};

/// How many accesses to a root are kept.
pub(crate) const KEPT: u32 = 4;

/// Room for each chunk, and for each root place a live root with its records: for the largest pool
/// of 65,536 root places some ten million bytes.
#[derive(Drop)]
pub(crate) struct Spares {
    pub(crate) chunks: Vec<ChunkEnd>,
    pub(crate) live: Vec<LiveRoot>,
    pub(crate) records: Vec<Vec<Access>>,
}

impl Spares {
    /// Takes it.
    pub(crate) fn reserve(alloc: Global, shape: &Shape) -> Result<Spares, AllocError>
        requires { IsShape shape.now }
        ensures { IfOk result (λ room. AreSparesFor room shape.now) }
    {
        let places = shape.lanes * shape.handles;
        let chunks = Vec::with_capacity(alloc, (shape.arenas * shape.chunks) as usize)?;
        let live = Vec::with_capacity(alloc, places as usize)?;
        let records = spare_records(alloc, places)?;
        Ok(Spares {
            chunks,
            live,
            records,
        })
    }
}

// So many empty vectors, each with room for the accesses that are kept of one root.
fn spare_records(alloc: Global, count: u32) -> Result<Vec<Vec<Access>>, AllocError>
    ensures spare { IfOk result (λ r. All IsSpare r.items) }
    ensures many { IfOk result (λ r. length r.items ≡ count) }
{
    let mut records = Vec::with_capacity(alloc, count as usize)?;
    for _ in 0..count {
        records.push(Vec::with_capacity(alloc, KEPT as usize)?)?;
    }
    Ok(records)
}

// Adds an item, if there is one, to a vector that has room.
pub(crate) fn add<T: Drop>(item: Option<T>, items: &mut Vec<T>)
    requires { length items.old.items < vec_capacity items.old }
    ensures added { items.new.items ≡ items.old.items ++ listed item (λ x. x) }
    ensures capacity { vec_capacity items.old ≤ vec_capacity items.new }
{
    if let Some(item) = item {
        let Ok(()) = items.push(item) else {
            unreachable!()
        };
    }
}
