#![tactic(auto)]
//! What a seat of a pool does with buffers where it never waits. Each step is tried once; where
//! another seat is in the way, what was begun is answered with what was found, to go on with later.

mod allocation;
mod begun;
mod ending;

pub use allocation::{AllocNo, allocate};
pub use begun::{Begun, finish};
pub use ending::release;
