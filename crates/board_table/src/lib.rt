#![tactic(auto)]
//! The table of words through which threads share composites: of each a section, in which one seat
//! works on it, and a count of the holds that all seats have of it.
//!
//! Each step is one atomic step on one word. Between any two steps the table is sound
//! (`specs/Sound.antt`).

mod closing;
mod counts;
mod naming;
mod opening;
mod rule;
mod seats;
mod section;
mod sections;
mod table;
mod views;

pub use counts::{EndMark, Let};
pub use naming::{Name, Naming};
pub use rule::{
    ClaimStep, DoneStep, HandStep, Homed, JoinStep, ReleaseStep, RetainStep, Rule, TakeStep,
};
pub use table::{BoardSeat, BoardTable, Section};
pub use views::{BoardView, Inside, Opening, Stake};
