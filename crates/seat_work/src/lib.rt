#![tactic(auto)]
//! What a seat of a pool does with buffers: it allocates, bears, counts, grows, accesses, ends and
//! hands over. Each call has one condition, what the seat has in hand and left, and says it again of the
//! seat that it leaves. Where another seat is in the way, a step is made again.

mod access;
mod allocation;
mod birth;
mod counts;
mod ending;
mod hand_over;
mod popping;
mod regions;
mod regrowth;

pub use access::{get, set, with_bytes, with_bytes_mut};
pub use allocation::{AllocNo, allocate};
pub use counts::{release, retain};
pub use hand_over::{fetch, post};
pub use regrowth::{GrowNo, grow};
