#![tactic(auto)]
//! The table of words through which threads share a pool: sections on its objects, the counts of
//! its roots, and letters between its lanes.
//!
//! Each step is one atomic step on one word. Between any two steps the table is sound
//! (`specs/Sound.antt`).

mod bare_slot;
mod closing;
mod firsts;
mod index;
pub mod laws;
mod letters;
mod making;
mod opening;
mod root_rule;
mod root_sections;
mod root_words;
mod roots;
mod rule;
mod seats;
mod section;
mod sections;
mod table;
mod tokens;
mod views;

pub use roots::{Dropped, EndToken};
pub use rule::{
    BlankStep, ClaimStep, Claiming, DoneStep, IdleStep, JoinStep, MarkStep, Opening, Rule,
};
pub use table::{PoolSeat, PoolTable, Section};
pub use views::{Entry, Fixed, Inside, Layout, Letter, Part, SeatView};
