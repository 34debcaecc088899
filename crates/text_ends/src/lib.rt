//! The ends of a program: where its text is read from, and where its text is written to.
//!
//! It stands on no pool: each program takes a source and a sink, reads the whole of the one, and
//! writes its text, once that is made, to the other.
#![tactic(auto)]

mod ends;
mod input;
mod output;
mod sinks;
mod sources;
mod standard;

pub use ends::{Failed, Sink, Source};
pub use input::{Input, read_all};
pub use output::{Output, write_all};
pub use sinks::{ListSink, SafeSink};
pub use sources::{ListSource, SafeSource};
pub use standard::{StdSink, StdSource};
