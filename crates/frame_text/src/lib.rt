#![tactic(auto)]
//! What the frame cutter writes: a line for each frame with its number, its length and the SHA-256
//! digest of its bytes, and a line with their number; and why a stream was refused.

mod lines;
mod refusals;

pub use lines::{write_end, write_frame};
pub use refusals::refusal_line;
