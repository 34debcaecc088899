#![tactic(auto)]
//! The free runs of the pages of a chunk: which run a request takes, and how runs are split and
//! merged. Stands on `ground`, whose pieces are the memory of the runs, on `size_classes`, whose
//! words say which run is chosen, and on `bit_words`, which find it: no take and no give walks over
//! runs or pages. The chunk above asks it for runs and gives them back.

mod map;
mod marks;
mod runs;
mod store;

pub use map::RunMap;
