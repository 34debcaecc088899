//! Runs of the top call that no program makes: under gates that stop a lane, or hold two lanes up until both
//! are at work, and between ends that give and take little, or fail at any of their calls.
//!
//! A crate with tests is proved twice, once with them; these stand over `trace_top` as it is built, so
//! that it isn't proved again for them.
#![tactic(auto)]

#[cfg(test)]
mod tests;
