//! What a picture is made of: marks in layers.

use pool_law::{Bytes, Items};

/// How a mark looks: the class that the picture's style sheet names.
#[derive(Clone, Copy, Drop)]
pub enum Style {
    /// A taking, over what it was used for.
    Block,
    /// A taking while a lane has it in hand.
    InHand,
    /// A taking while a root lives on it.
    Rooted,
    /// A taking while it waits in a cache.
    Cached,
    /// A subpage.
    Subpage,
    /// A chunk that is there.
    Open,
    /// A place for a chunk.
    Absent,
    /// A command that allocates.
    Allocates,
    /// A command that reads or writes.
    Accesses,
    /// A command that counts.
    Counts,
    /// A command that hands over or receives.
    HandsOver,
    /// A command that binds or unbinds names alone.
    Names,
    /// A command that is refused.
    Refused,
    /// The notes behind the last command: the closing of the caches.
    Closing,
    /// A busy mark.
    Busy,
    /// The life of a root.
    Life,
    /// Bytes of a root that are written.
    Writes,
    /// Bytes of a root that are read.
    Reads,
    /// A count of a root.
    Count,
    /// A line of an axis.
    Axis,
    /// A line of the grid.
    Grid,
    /// The heading.
    Heading,
    /// A name beside a track.
    Label,
    /// Small words.
    Small,
    /// Small words that end where they are put.
    Number,
    /// Small words about the point where they are put.
    Middle,
    /// Small words in a mark.
    Within,
    /// Small words that stay behind.
    Faint,
    /// What must not be overlooked.
    Warning,
}

/// A rectangle, in tenths of a pixel from the upper left corner.
#[derive(Clone, Copy, Drop)]
pub struct Area {
    pub x: u32,
    pub y: u32,
    pub width: u32,
    pub height: u32,
}

/// One mark.
#[derive(Drop)]
pub enum Mark {
    /// A rectangle, with a title that a browser shows where it is pointed at.
    Rect {
        style: Style,
        area: Area,
        title: Bytes,
    },
    /// Words, from a point on their base line.
    Words {
        style: Style,
        x: u32,
        y: u32,
        words: Bytes,
    },
}

/// Marks, the lowest first.
pub type Marks = Items<Mark>;

/// A picture: its size in tenths of a pixel, and its layers, the lowest first.
#[derive(Drop)]
pub struct Drawing {
    pub width: u32,
    pub height: u32,
    /// The lines of the grid.
    pub grid: Marks,
    /// Chunks, subpages, and what takings were used for.
    pub ground: Marks,
    /// The takings.
    pub blocks: Marks,
    /// The tracks, the axes and the legend.
    pub frame: Marks,
}
