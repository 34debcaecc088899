#![tactic(auto)]
//! What is asked of a run: by the words of the command line, and by the options of a trace.

mod asked;
mod laws;
mod pools;
mod reading;
mod settings;
mod words;

pub use laws::words_have_their_form;
pub use pools::shape;
pub use reading::read_for;
pub use words::{Generation, Origin, RunOptions, read_words};
