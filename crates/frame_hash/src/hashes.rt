//! What is told of a frame.

/// The length of a frame and its SHA-256 digest.
#[derive(Clone, Copy, Debug)]
pub struct FrameHash {
    pub len: u64,
    pub digest: [u8; 32],
}

/// A frame's number, and what is told of it.
#[derive(Clone, Copy, Debug)]
pub struct HashOf {
    pub number: u32,
    pub hash: FrameHash,
}
