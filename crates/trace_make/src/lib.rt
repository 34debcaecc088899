//! Generated traces: lanes in a ring, whose commands are made from a start number and two counts.
//! They stand on the plain data of `pool_law`; a run plays them as it plays a trace that was read.
#![tactic(auto)]

mod block;
mod draws;
mod trace;

pub use trace::make;
