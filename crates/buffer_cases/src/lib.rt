#![tactic(auto)]
//! Buffers of a pool as a server uses them.
//!
//! A crate with tests is proved twice, once with them; these stand over the crates as they are built,
//! so that they aren't proved again for them.

#[cfg(test)]
mod grows;
#[cfg(test)]
mod lones;
#[cfg(test)]
mod measures;
#[cfg(test)]
mod rounds;
#[cfg(test)]
mod spends;
#[cfg(test)]
mod tries;
