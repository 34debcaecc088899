//! How many turns of its seat a step of a worker takes, at most.

/// A root is let go, and ends where that was its last count.
pub const RELEASE_TURNS: u64 = 4;

/// A slice is read, and its root let go.
pub const HASH_TURNS: u64 = RELEASE_TURNS + 1;
