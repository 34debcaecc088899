#![tactic(auto)]
//! Workers that hash frames where they lie. A worker has a seat of a pool and the end of a queue: it
//! gets the numbers of frames and of their slices through the queue, and the slices themselves as
//! parcels to its lane. It hashes each slice inside the pool, lets it go, and tells of each frame its
//! number, its length and its SHA-256 digest.

mod hashes;
mod hashing;
mod shared;
mod turns;
mod worker;

pub use hashes::{FrameHash, HashOf};
pub use shared::Shared;
pub use turns::RELEASE_TURNS;
pub use worker::{Hashing, Work, Worker};
