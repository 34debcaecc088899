//! What a text asks for: composites, and readers of them.

use pool_law::{Bytes, Items};

/// The most composites. There is at least one.
pub const COMPOSITE_LIMIT: usize = 16;

/// The most parts of a composite. There is at least one.
pub const PART_LIMIT: usize = 24;

/// The most bytes of a part. There may be none.
pub const BYTE_LIMIT: usize = 2048;

/// The most readers. There is at least one.
pub const READER_LIMIT: usize = 16;

/// The most reads of all readers together. A reader may have none.
pub const READ_LIMIT: usize = 4096;

/// The parts of a composite, in order.
pub type Parts = Items<Bytes>;

/// Composites by number, from 0.
pub type Composites = Items<Parts>;

/// The numbers of the composites that a reader reads, in order.
pub type Reads = Items<u32>;

/// The reads of each reader by number, from 0.
pub type Readers = Items<Reads>;

/// What a text asks for.
#[derive(Drop)]
pub struct Input {
    /// The composites.
    pub composites: Composites,
    /// What each reader reads of them.
    pub readers: Readers,
}

/// Why there is no input.
#[derive(Clone, Copy, Debug, PartialEq, Eq)]
pub enum InputNo {
    /// The text asks for nothing: it is too long, no JSON, or not of the form.
    Refused,
    /// There was no memory for it.
    Memory,
}
