#![tactic(auto)]
//! What the words of the command line ask of the frame cutter. Stands on words as options.

mod asked;
mod settings;
mod words;

pub use words::{CutOptions, read_words};
