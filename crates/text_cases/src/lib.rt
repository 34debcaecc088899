#![tactic(auto)]
//! Traces that are read and made, and the texts of runs.
//!
//! A crate with tests is proved twice, once with them; these stand over the crates as they are built,
//! so that they aren't proved again for them.

#[cfg(test)]
mod making;
#[cfg(test)]
mod reports;
#[cfg(test)]
mod rows;
#[cfg(test)]
mod traces;
