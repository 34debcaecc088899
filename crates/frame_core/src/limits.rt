//! How long a frame, a list of frames and a stream may be.

/// The greatest length of a frame, in bytes.
pub const MAX_LENGTH: u32 = 1_048_576;

/// The greatest number of frames of a stream.
pub const MAX_FRAMES: u32 = 65_536;

/// The greatest number of bytes of a stream.
pub const MAX_STREAM: u32 = 67_108_864;
