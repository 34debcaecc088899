//! Where a frame lies, and why a stream isn't frames alone.

/// Why a stream isn't frames alone. Frames are numbered from 0.
#[derive(Clone, Copy, PartialEq, Eq, Debug, Drop)]
pub enum FrameNo {
    /// The length of this frame is above `MAX_LENGTH`.
    Length(u32),
    /// A byte comes after `MAX_FRAMES` frames.
    Frames,
    /// A byte comes after the first `MAX_STREAM`.
    Stream,
    /// The stream ends inside this frame.
    Inside(u32),
}

/// Where the bytes of a frame lie in the stream.
#[derive(Clone, Copy, PartialEq, Eq, Debug, Drop)]
pub struct Cut {
    /// The place of its first byte, directly after the four bytes of its length, from 0.
    pub start: u32,
    /// How many bytes it has.
    pub len: u32,
}
