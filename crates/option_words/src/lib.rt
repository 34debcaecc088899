#![tactic(auto)]
//! The words of a command line, read as options in any order: an option is one word, a name and a
//! value in one word, `name=value`, or a name and a value in two. A program says by its form which
//! words are options without a value, and what a name and a value give. It stands on nothing.

mod form;
mod numerals;

pub use form::{Form, first_given};
pub use numerals::numeral;
