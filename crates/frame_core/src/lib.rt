#![tactic(auto)]
//! The frames of a stream that comes in pieces, however it is cut. A frame is four bytes of length,
//! the highest first, and that many bytes. A cutter finds where each frame lies without looking at
//! its bytes one by one, and takes no memory. Stands on nothing.

mod cutter;
mod frame;
mod limits;

pub use cutter::Cutter;
pub use frame::{Cut, FrameNo};
pub use limits::{MAX_FRAMES, MAX_LENGTH, MAX_STREAM};
