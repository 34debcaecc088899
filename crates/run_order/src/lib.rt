#![tactic(auto)]
//! One order of all steps of a run: all notes of all lanes in one list, in which each fits what was
//! done before it, whichever lane did it. So a run is what one thread would do that made these
//! steps one after another.

pub mod forged;
pub mod mails;
