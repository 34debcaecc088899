//! Where the notes and bytes of an arena are drawn.

use pool_law::Items;

/// Where the first moment is drawn, in tenths of a pixel from the left.
pub const LEFT: u32 = 1500;

/// How wide all moments are together.
pub const WIDTH: u32 = 11_000;

/// Numbers in order.
pub type Numbers = Items<u64>;

/// A byte of a chunk at which something begins or ends, and where it is drawn.
#[derive(Clone, Copy, Drop)]
pub struct Cut {
    /// Bytes from the start of the chunk.
    pub offset: u32,
    /// Tenths of a pixel from above.
    pub y: u32,
    /// Whether the bytes from here to the next cut were ever taken.
    pub taken: bool,
}

/// Cuts, from the start of a chunk to its end.
pub type Cuts = Items<Cut>;

/// A chunk place as it is drawn.
#[derive(Drop)]
pub struct Strip {
    /// Its cuts.
    pub cuts: Cuts,
}

/// The chunk places of an arena.
pub type Strips = Items<Strip>;

/// Where the notes and bytes of an arena are drawn.
#[derive(Drop)]
pub struct Chart {
    /// The number of the arena.
    pub arena: u32,
    /// How many moments the picture has.
    pub last: u64,
    /// The moment of each note of the arena.
    pub moments: Numbers,
    /// Its chunk places.
    pub strips: Strips,
}
