#![tactic(auto)]
//! The frames of a stream that comes in blocks: which bytes of a block belong to the frame that is
//! under way, and where a frame ends. Nothing is copied and no memory is taken. Stands on the cutter
//! of streams.

mod slicer;

pub use slicer::{Found, Slicer};
