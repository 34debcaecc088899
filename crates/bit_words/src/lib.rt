#![tactic(auto)]
//! Bits in words of 64, numbered through all words. Stands on nothing; the map of free runs and the
//! subpages keep their sets in them.

mod words;

pub use words::{WIDTH, clear, lowest_clear, lowest_set, set};
