#![tactic(auto)]
//! A lane: one of Netty's threads as a machine with its own commands, names, counts and log, which
//! any worker may step over a pool.

mod gate;
mod lane;
mod played;
mod prepared;
mod room;
mod spare;
mod spending;

pub use gate::{Gate, Pass};
pub use lane::Lane;
pub use lane_stages::Stepped;
pub use played::{Played, finish};
