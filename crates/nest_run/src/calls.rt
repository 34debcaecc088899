//! What is asked of a nest: the capacity of its root, and calls on its views.

use pool_law::{Bytes, Items};

/// A call. Views are named by their numbers; view 0 is the root.
#[derive(Drop)]
pub enum Call {
    /// A view is made of so many bytes of another, from a place in it on.
    Slice { of: u32, at: u32, len: u32 },
    /// A view is held once more.
    Retain(u32),
    /// A view is held once less.
    Release(u32),
    /// Bytes are laid over those of a view, from a place in it on.
    Set { of: u32, at: u32, bytes: Bytes },
    /// So many bytes of a view are read, from a place in it on.
    Get { of: u32, at: u32, len: u32 },
}

/// Calls in order.
pub type CallList = Items<Call>;

/// What a text asks for.
#[derive(Drop)]
pub struct Input {
    /// The bytes of the root.
    pub capacity: u32,
    /// The calls.
    pub calls: CallList,
}
