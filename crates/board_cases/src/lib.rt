#![tactic(auto)]
//! Shared composites as threads use them: a board from its opening to its close, with a composite
//! that ends once, whichever of two threads lets it go last, and a read that finds another seat at a
//! component.
//!
//! A crate with tests is proved twice, once with them; these stand over the crates as they are built,
//! so that they aren't proved again for them.

#[cfg(test)]
mod cores;
#[cfg(test)]
mod lives;
#[cfg(test)]
mod meeting;
#[cfg(test)]
mod races;
#[cfg(test)]
mod seats;
