//! What stands at each object of a pool.

use crate::root_place::RootPlace;
use handle_bin::Bin;
use pool_arena::Arena;
use region_cache::Cache;

/// The home value of an object. Each is behind a box that `new` made, so that it is small to move
/// into a section and back.
pub enum Home {
    Arena(Box<Arena>),
    Cache(Box<Cache>),
    Bin(Box<Bin>),
    Root(Box<RootPlace>),
}
