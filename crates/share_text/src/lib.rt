//! What readers ask of shared composites, read from a JSON text, and the text of what they saw.
//!
//! A text asks for composites, each of some parts, and for readers, each of which reads some of the
//! composites whole, in order. What the readers see and how many parts are released is written
//! line by line. The text of an input is a function of the input alone.
#![tactic(auto)]

mod inputs;
mod lines;
mod reading;
mod seeing;

pub use inputs::{
    BYTE_LIMIT, COMPOSITE_LIMIT, Composites, Input, InputNo, PART_LIMIT, Parts, READ_LIMIT,
    READER_LIMIT, Readers, Reads,
};
pub use lines::{Seen, SeenList, text_with, write_end_lines, write_read_line};
pub use reading::read_input;
pub use seeing::{seen_in, text_of};
