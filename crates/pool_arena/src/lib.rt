#![tactic(auto)]
//! An arena: chunks that are handed out as regions, runs of pages or elements of subpages.
//! Stands on `pool_chunk` for what is in a chunk, and on `chunk_list` for the order in which chunks
//! are asked. What it gives and takes back is exactly what `pool_law` says of an arena.

mod arena;
mod place;
mod stock;
mod subpage_list;
mod told;

pub use arena::Arena;
