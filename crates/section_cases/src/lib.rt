#![tactic(auto)]
//! The table of a pool as its caller uses it: sections, and letters.
//!
//! A crate with tests is proved twice, once with them; these stand over the crate as it is built, so
//! that it isn't proved again for them.

#[cfg(test)]
mod diary;
#[cfg(test)]
mod letters;
#[cfg(test)]
mod sections;
