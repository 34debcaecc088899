#![tactic(auto)]
//! Worked rows of the definitions: what the check computes of each, as the contract of a function
//! that does nothing.

pub mod answers;
pub mod arenas;
pub mod bounds;
pub mod caches;
pub mod chunks;
pub mod closings;
pub mod composite_runs;
pub mod composites;
pub mod counts;
pub mod elements;
pub mod growth;
pub mod growth_runs;
pub mod homes;
pub mod lane_runs;
pub mod leaks;
pub mod lists;
pub mod lives;
pub mod logs;
pub mod mails;
pub mod marks;
pub mod odd_runs;
pub mod orders;
pub mod pages;
pub mod places;
pub mod refusals;
pub mod roots;
pub mod runs;
pub mod shapes;
pub mod sizes;
pub mod stops;
pub mod stuck;
pub mod sweeps;
pub mod texts;
pub mod views;
