#![tactic(auto)]
//! A chunk: pages of a ground that are handed out as runs, and as elements of runs that are shared.
//! Stands on `run_map` for the free runs, on `subpage_bits` for the elements of a run, and on
//! `pool_law`, whose list of runs is what contracts see of a chunk. The arena above keeps its
//! chunks in lists, and names each place by a word of 64 bits.

mod chunk;
mod place;
mod slot;

pub use chunk::{Chunk, Freed};
pub use place::{place_pack, place_unpack};
