#![tactic(auto)]
//! Windows on the bytes of a root, each with a reader and a writer of its own.
//!
//! A view has no bytes: it tells where in its root a range lies, or that the range leaves the view.

mod view;

pub use view::{RangeNo, View};
