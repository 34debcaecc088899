//! The work of a thread on its pool, by its seat and its account.

pub mod access;
pub mod allocation;
pub mod attempted;
pub mod counting;
pub mod growth;
pub mod in_place;
pub mod passing;
pub mod settling;
pub mod trimming;
pub mod turns;
