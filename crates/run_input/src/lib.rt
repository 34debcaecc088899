#![tactic(auto)]
//! From the input of a program to the run that it tells of: a JSON object of the words and the trace that the
//! pool was given, and of the text that was printed, with its history.

mod asked;
mod fault;
mod input;

pub use asked::Asked;
pub use fault::{Fault, InputNo};
pub use input::run_from;
