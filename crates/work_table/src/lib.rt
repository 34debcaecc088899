#![tactic(auto)]
//! Machines that several workers step together. A table holds them, each at its place: a worker takes
//! one out, steps it until it cannot go on, and brings it back, and a worker that finds none sleeps
//! until another one has moved. Stands on nothing.

mod event_count;
mod idler;
mod machine;
mod own;
mod pace;
mod shares;
mod steps;
mod table;
mod worker;
mod workers;

pub use machine::{Machine, Stepped};
pub use workers::{step_beside, step_together};
