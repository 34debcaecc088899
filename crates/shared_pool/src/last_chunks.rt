//! The chunks that are in a list as a pool closes.

ghost use Rattle.std.specs.Prelude.{◌≡◌, ◌*◌, ◌+◌, ◌≤◌, [], ◌++◌, length, vec_capacity, Some};
ghost use Rattle.size_classes.specs.Sizes.{below};
ghost use Rattle.pool_law.specs.Limits.{IsShape};
ghost use Rattle.shared_pool.specs.Ends.{IsArenaOf, AreArenas, arena_chunks, chunks_in, chunks_from};

use crate::home::Home;
use crate::spares::add;
use pool_arena::Arena;
use pool_law::{ChunkEnd, Shape};

// The chunks that are in a list, by arena and chunk, in a vector that has room.
pub(crate) fn chunk_ends(
    homes: &[Option<Home>],
    shape: &Shape,
    mut ends: Vec<ChunkEnd>,
) -> Vec<ChunkEnd>
    requires shape { IsShape shape.now }
    requires arenas { AreArenas shape.now homes.now }
    requires room { (ends.items ≡ []) × (shape.now.arenas * shape.now.chunks ≤ vec_capacity ends) }
    ensures { result.items ≡ chunks_from homes.now (below shape.now.arenas) }
{
    for number in 0..shape.arenas {
        add_ends(&homes[number as usize], shape.chunks, &mut ends);
    }
    ends
}

// Adds those of the arena that stands there, in a vector that has room.
fn add_ends(home: &Option<Home>, chunks: u32, ends: &mut Vec<ChunkEnd>)
    requires arena { IsArenaOf chunks (Some home.now) }
    requires room { length ends.old.items + chunks ≤ vec_capacity ends.old }
    ensures ends { ends.new.items ≡ ends.old.items ++ chunks_in (Some home.now) }
    ensures most { length ends.new.items ≤ length ends.old.items + chunks }
    ensures capacity { vec_capacity ends.old ≤ vec_capacity ends.new }
{
    let Some(Home::Arena(arena)) = home else {
        unreachable!()
    };
    add_arena(arena, chunks, ends);
}

// Adds those of an arena.
fn add_arena(arena: &Arena, chunks: u32, ends: &mut Vec<ChunkEnd>)
    requires chunks { chunks ≡ length arena.now.chunks }
    requires room { length ends.old.items + chunks ≤ vec_capacity ends.old }
    ensures ends { ends.new.items ≡ ends.old.items ++ arena_chunks arena.now }
    ensures most { length ends.new.items ≤ length ends.old.items + chunks }
    ensures capacity { vec_capacity ends.old ≤ vec_capacity ends.new }
{
    for chunk in 0..chunks {
        add(arena.chunk_now(chunk), ends);
    }
}
