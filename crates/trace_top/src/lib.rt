//! The top call: a trace in, the text of its run out.
#![tactic(auto)]

mod answer;
mod environment;
mod gates;
mod lanes;
mod line;
mod needs;
mod play;
mod top;
mod workers;
mod written;

pub use answer::{Outcome, Status};
pub use gates::OpenGate;
pub use lane_core::{Gate, Pass};
pub use line::line_of;
pub use text_ends::{
    Failed, ListSink, ListSource, SafeSink, SafeSource, Sink, Source, StdSink, StdSource,
};
pub use top::run;
