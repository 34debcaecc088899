#![tactic(auto)]
//! The text of a run: its replies, its notes if they are wanted, its chunks, leaks, and the end.
//! And the summary of a run of a generated trace.

mod ends;
mod notes;
mod replies;
mod roots;
mod summary;
mod text;
mod told;
mod words;
mod writer;

pub use summary::{summary_in, summary_of};
pub use text::text_of;
pub use writer::Writer;
