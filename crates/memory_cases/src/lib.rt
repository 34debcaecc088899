#![tactic(auto)]
//! Ground, runs, elements, lists of chunks and tables of sizes as their callers use them.
//!
//! A crate with tests is proved twice, once with them; these stand over the crates as they are built,
//! so that they aren't proved again for them.

#[cfg(test)]
mod classes;
#[cfg(test)]
mod elements;
#[cfg(test)]
mod grounds;
#[cfg(test)]
mod lists;
#[cfg(test)]
mod runs;
#[cfg(test)]
mod words;
