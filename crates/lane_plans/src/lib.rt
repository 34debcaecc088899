#![tactic(auto)]
//! What a command of a lane is to do, and all memory for it, before its first note.

mod composing;
mod crossings;
mod planning;
mod preparing;
mod refusing;

pub use planning::plan;
pub use preparing::prepare;
