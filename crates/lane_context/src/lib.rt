#![tactic(auto)]
//! What a lane works with as it carries out its commands: its seat, its names, its counts and its
//! log. A turn does the next thing of a command; what is then to be done is a value, with all that
//! is in hand.

mod access;
mod accessing;
mod allocating;
mod bound;
mod composed;
mod consolidating;
mod context;
mod counting;
mod names;
mod passing;
mod regrowing;
mod sweeping;
mod turns;
mod work;
mod working;

pub use access::{Access, Reach, Refusal, counted};
pub use bound::Bound;
pub use composed::{Composed, Marks};
pub use context::{Context, SWEEP_PERIOD, Stage, Turn};
pub use names::Names;
pub use work::{Consolidation, Work};
