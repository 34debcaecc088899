#![tactic(auto)]
//! A lane whose sweep meets another one in a cache, which is up to the threads.
//!
//! A crate with tests is proved twice, once with them; these stand over the crates as they are built,
//! so that they aren't proved again for them.

#[cfg(test)]
mod sweeps;
