//! A slicer and its calls.

ghost use Rattle.std.specs.Prelude.{◌≡◌, ℕ, ◌<◌, ◌≤◌, false, List, [], ◌++◌, length, drop, slice_range, IfOk, IfErr};
ghost use Rattle.frame_core.specs.Frames.{count_or, failure_of, frames_of};
ghost use Rattle.frame_core.specs.Feeding.{IsRefused};
ghost use Rattle.frame_slices.specs.Slices.{HasCut, Takes};

use frame_core::{Cutter, FrameNo};

/// The bytes that give a frame's length.
const HEAD: usize = 4;

/// Goes through the blocks of a stream, one behind the other. It stands for the bytes that it has
/// gone through and those of them that belong to the frame under way, behind its length.
#[derive(Debug, Drop)]
pub struct Slicer {
    pub cutter: Cutter,
    /// The bytes of the present frame's length that are still to come.
    pub head: usize,
}

/// How far a slicer went in a block, and what it found there.
#[derive(Clone, Copy, PartialEq, Eq, Debug, Drop)]
pub struct Found {
    /// Where the bytes of the present frame begin in the block, behind those of its length.
    pub start: usize,
    /// Where they end: as far as it went.
    pub used: usize,
    /// Whether the frame ends there.
    pub ended: bool,
}

impl Slicer {
    /// A slicer at the beginning of a stream.
    pub fn new() -> Slicer
        ensures cut { HasCut result [] [] }
        ensures none { frames_of [] ≡ [] }
    {
        Slicer {
            cutter: Cutter::new(),
            head: HEAD,
        }
    }

    /// Goes on in a block from `used` on, up to the end of the present frame or of the block. After
    /// a refusal there is nothing more to ask of it.
    pub fn go_on(&mut self, block: &[u8], used: usize) -> Result<Found, FrameNo>
        requires { used ≤ length block.now }
        ensures place { IfOk result (λ f.
            (used ≤ f.start) × (f.start ≤ f.used) × (f.used ≤ length block.now)) }
        ensures moves { IfOk result (λ f. (bytes own : List ℕ) → HasCut self.old bytes own
            → used < length block.now → used < f.used) }
        ensures takes { IfOk result (λ f. (bytes own : List ℕ) → HasCut self.old bytes own
            → Takes bytes (bytes ++ slice_range block.now used f.used) own
            (slice_range block.now f.start f.used) f.ended self.new) }
        ensures whole { IfOk result (λ f. f.ended ≡ false → f.used ≡ length block.now) }
        ensures refused { IfErr result (λ why. (bytes own : List ℕ) → HasCut self.old bytes own
            → IsRefused bytes (bytes ++ drop used block.now) why) }
    {
        let (place, cut) = self.cutter.feed(block, used)?;
        let skipped = self.head.min(place - used);
        let ended = cut.is_some();
        self.head = if ended { HEAD } else { self.head - skipped };
        Ok(Found {
            start: used + skipped,
            used: place,
            ended,
        })
    }

    /// Ends the stream: the number of its frames, or why it isn't frames alone.
    pub fn finish(&self) -> Result<u32, FrameNo>
        ensures { (bytes own : List ℕ) → HasCut self.now bytes own
            → result ≡ count_or (frames_of bytes) (failure_of bytes) }
    {
        self.cutter.finish()
    }
}
