#![tactic(auto)]
//! The cutter of a stream. It reads a block of the stream into a root of a pool, and cuts it into
//! slices of frames where it lies: a slice is a view of the root, which it counts once more. No byte
//! of a frame is copied between the read and its worker.
//! A frame that ends goes to a worker, its slices as parcels and its number as a job. It is a
//! machine that is stepped beside those workers.

mod cutter;
mod cutting;
mod ending;
mod filling;
mod handing;
mod loading;
mod slicing;
mod stage;

pub use cutter::Cutter;
pub use cutting::Cutting;
pub use stage::{MOST_SLICES, Stage, Verdict};
