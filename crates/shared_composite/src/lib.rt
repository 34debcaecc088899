#![tactic(auto)]
//! Composites that many threads share, each seat by counts of its own.

mod board;
mod busy;
mod calls;
mod closing;
mod cores;
mod crossing;
mod ending;
mod home;
mod opening;
mod reading;

pub use board::{Board, BoardSeat};
pub use board_table::{EndMark, Let};
pub use busy::Busy;
pub use cores::Core;
