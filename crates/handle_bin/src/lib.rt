#![tactic(auto)]
//! The handles of a lane's root places, and the bin that recycles them.

mod bin;
mod handle;
mod lending;
mod told;

pub use bin::Bin;
pub use handle::Handle;
