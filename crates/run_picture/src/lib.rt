#![tactic(auto)]
//! A picture of a run, as one SVG: what each chunk of each arena had out at each moment, what the lanes
//! did then, and what was done to single roots.

mod acts;
mod axis;
mod blocks;
mod chart;
mod finding;
mod frame;
mod history;
mod lanes;
mod laws;
mod layout;
mod marks;
mod order;
mod pen;
mod picture;
mod placing;
mod plots;
mod returns;
mod rising;
mod roots;
mod standing;
mod strips;
mod surroundings;
mod svg;
mod thinning;
mod tracks;
mod uses;
mod writer;

pub use blocks::{Block, BlockList, Return, blocks_at};
pub use laws::blocks_never_meet;
pub use picture::picture_of;
pub use roots::RootName;
