#![tactic(auto)]
//! What no program shows of the pool and of what lies round it: moves that seats share, and a nest that is full.
//!
//! A crate with tests is proved twice, once with them; these stand over the crates as they are built,
//! so that they aren't proved again for them.

#[cfg(test)]
mod nests;
#[cfg(test)]
mod shares;
