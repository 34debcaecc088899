//! What a cutter does, and what it came to.

use frame_core::FrameNo;
use pool_law::RootId;

/// The most slices of a stream. A slice ends its block or its frame, and a stream has at most
/// 65,536 blocks of 1,024 bytes and 65,536 frames.
pub const MOST_SLICES: u32 = 131_072;

/// What a cutter does next.
#[derive(Clone, Copy, PartialEq, Eq, Debug, Drop)]
pub enum Stage {
    /// It reads its next block into a new root.
    Filling,
    /// It cuts its block, which is in this root, by what was found there: so many finds are used.
    Cutting {
        root: RootId,
        used: usize,
    },
    /// A frame ended with the last of them. Its slices go to its worker, of which so many went, and
    /// then its job.
    Handing {
        root: RootId,
        used: usize,
        posted: usize,
    },
    /// It lets go of the slices of a frame that doesn't end.
    LettingGo,
    /// It tells each worker from this one on that nothing more comes.
    Ending {
        next: u32,
    },
    /// Nothing is left to do.
    Over,
}

/// What a stream came to.
#[derive(Clone, Copy, PartialEq, Eq, Debug, Drop)]
pub enum Verdict {
    /// It is frames alone.
    Whole,
    /// It isn't, for this reason.
    Refused(FrameNo),
    /// A read failed.
    Fault,
}
