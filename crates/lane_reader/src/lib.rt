#![tactic(auto)]
//! A lane's log, read by the law.
//!
//! Each function reads some of a log's notes from a place on, as the reading of the law that has its
//! name: it gives what they say and the place behind them, or nothing where the notes are others. A
//! checker of whole runs counts the roots of a lane by `Counts` too; a reader of printed runs, whose text
//! does not tell where the notes of a command end, finds that by `cut`.

mod alloc_row;
mod bound;
mod byte_rows;
mod candidate;
mod carrying;
mod causes;
mod composite;
mod composite_rows;
mod count_notes;
mod count_rows;
mod counts;
mod cuts;
mod drains;
mod endings;
mod growing;
mod lane;
mod log;
mod mail_rows;
mod notes;
mod parts;
mod patterns;
mod pieces;
mod refusing;
mod replies;
mod runs;
mod setting;
mod stopped;
mod turns;
mod view;
mod view_rows;
mod whole;

pub use counts::Counts;
pub use cuts::cut;
pub use log::Log;
pub use whole::first_unlike;
