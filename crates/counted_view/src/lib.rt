#![tactic(auto)]
//! Derived views with a count of their own (Netty: `retainedSlice`), over one root of a pool.
//!
//! A view that was made from another holds one count of it, until it lives no more. It stands on
//! `byte_view` for ranges, and on `shared_pool` for the root's count: a seat counts the root as
//! often as the root is held and live views were made from it.

mod calls;
mod in_pool;
mod nest;
mod rows;
mod view_tree;

pub use calls::{NestCall, NestEnd, NestNo};
pub use nest::Nest;
