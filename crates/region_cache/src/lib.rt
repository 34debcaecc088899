#![tactic(auto)]
//! A bounded queue of regions, first in, first out: one lane's cache of one class.

mod cache;
mod told;

pub use cache::Cache;
pub use pool_law::CacheNo;
