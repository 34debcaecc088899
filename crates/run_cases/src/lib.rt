#![tactic(auto)]
//! Runs that no text tells, and what the checker of runs says of each. Those that a text tells are judged by
//! `run_judge`, in the examples.
//!
//! A crate with tests is proved twice, once with them; these stand over `run_check` as it is built, so that it
//! isn't proved again for them.

#[cfg(test)]
mod tests;
