#![tactic(auto)]
//! What a lane does in stages, a section of the pool at a time: how it allots a root, grows one,
//! ends one, reaches and copies the bytes of a composite and releases its parts, and drains its
//! caches. Between two steps the stage is a value, with all that is in hand.

mod allotment;
mod copying;
mod counts;
mod crossing;
mod draining;
mod growing;
mod leftover;
mod lists;
mod notes;
mod releasing;
mod retirement;
mod stage_step;
mod stepped;

pub use allotment::{Allotted, Allotting, allot};
pub use copying::{Copying, Transfer, copy};
pub use counts::OwnCounts;
pub use crossing::{Crossed, Crossing, Stretch, cross};
pub use draining::{DrainKind, Draining, Drains, drain};
pub use growing::{Growing, Regrown, grow};
pub use lists::next_of;
pub use notes::{lane_of, note_at, note_to, write_note};
pub use releasing::{Releasing, release, unfinished};
pub use retirement::{Ending, end};
pub use stage_step::StageStep;
pub use stepped::Stepped;
