#![tactic(auto)]
//! Composites: buffers made of parts of several roots, one behind the other.
//!
//! A composite has no bytes: it tells in which part an index is, and where in the roots a range
//! lies.

mod composite;

pub use composite::{Composite, PartList, RangeList};
pub use pool_law::Part;
