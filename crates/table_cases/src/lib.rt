#![tactic(auto)]
//! Machines of which each waits for another, stepped by one thread and by several.
//!
//! A crate with tests is proved twice, once with them; these stand over the crate as it is built, so
//! that it isn't proved again for them.

mod ring;
#[cfg(test)]
mod rings;
