#![tactic(auto)]
//! Which births of a lane are sampled, the last accesses to a sampled root, and what is leaked.

mod live;
mod sampler;
mod tracker;

pub use live::{LiveList, LiveRoot, report};
pub use sampler::Sampler;
pub use tracker::Tracker;
