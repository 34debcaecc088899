#![tactic(auto)]
//! Streams that come in pieces, jobs that go through a queue, and words that have a form.
//!
//! A crate with tests is proved twice, once with them; these stand over the crates as they are built,
//! so that they aren't proved again for them.

#[cfg(test)]
mod jobs;
#[cfg(test)]
mod streams;
#[cfg(test)]
mod words;
