#![tactic(auto)]
//! The six lists of an arena's chunks, by usage.
//!
//! They tell in which list a chunk is, and in which order chunks are asked for a run.

mod list;
mod lists;
mod settle;

pub use lists::{ChunkLists, Settled};
