#![tactic(auto)]
//! The objects of a pool as plain data, each with the steps that the law gives it.
//!
//! An arena with its chunks and lists, a cache, a bin and a root place: each has its first state and one
//! step for each note, and says none where a note may not stand. It stands on `pool_law`,
//! `size_classes` and `ground` alone. Of this a checker of runs takes whether an object accepts a history
//! (`accepts`), what an arena comes to (`arena_after`), how many bytes a root has at last
//! (`capacity_after`), what a root place tells of its notes (`told_of_each`), whether two lists of bytes
//! are the same (`same_bytes`), and the size classes.

mod arena;
mod bin;
mod cache;
mod chunk;
mod elements;
mod lists;
mod objects;
mod page_runs;
mod place;
mod run;
mod same;
mod sizes;
mod subpage_list;
mod takings;
mod telling;
mod told;

pub use arena::Arena;
pub use cache::Cache;
pub use objects::{accepts, arena_after, capacity_after};
pub use place::RootPlace;
pub use same::same_bytes;
pub use sizes::Sizes;
pub use telling::told_of_each;
pub use told::PlaceTold;
