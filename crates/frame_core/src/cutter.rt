//! A cutter and its calls.

ghost use Rattle.std.specs.Prelude.{◌≡◌, ℕ, ◌+◌, ◌-◌, ◌<◌, ◌≤◌, List, [], ◌++◌, length, drop, take, min, slice_range, Some, IfOk, IfErr, IfSome, IfNone};
ghost use Rattle.frame_core.specs.Frames.{frames_of, failure_of, refusal, count_or};
ghost use Rattle.frame_core.specs.Standing.{HasRead, IsAt, Advances, MeetsLimit};
ghost use Rattle.frame_core.specs.Feeding.{EndsFrame, GoesOn, IsRefused};

use crate::frame::{Cut, FrameNo};
use crate::limits::{MAX_FRAMES, MAX_LENGTH, MAX_STREAM};
use std::marker::Model;

/// The bytes that give a frame's length.
const HEAD: u32 = 4;

/// Cuts a stream into its frames as its bytes come. It stands for the bytes that it has gone
/// through since it was made, and keeps a few numbers of them.
#[derive(Debug, Drop)]
pub struct Cutter {
    // The bytes gone through, and the frames that have ended.
    place: u32,
    frames: u32,
    // The bytes of the present frame, those of its length with them, and these.
    within: u32,
    head: [u8; 4],
    refusal: Option<FrameNo>,
}

impl Model for Cutter {
    ghost use Rattle.std.specs.Prelude.{◌≤◌, ◌<◌, take};
    ghost use Rattle.frame_core.specs.declared.limits.TheConstants.{MAX_FRAMES, MAX_STREAM};
    ghost use Rattle.frame_core.specs.Standing.{Standing};

    ghost Value = { Standing };

    ghost view = { λ c. record {
      place = c.place;
      frames = c.frames;
      within = c.within;
      head = take c.within c.head;
      refusal = c.refusal;
    } };

    ghost invariant = { λ c. (c.place ≤ MAX_STREAM) × (c.within ≤ c.place)
        × (c.frames ≤ MAX_FRAMES) × (0 < c.within → c.frames < MAX_FRAMES) };
}

impl Cutter {
    /// A cutter at the beginning of a stream.
    pub fn new() -> Cutter
        ensures read { HasRead result [] }
        ensures none { frames_of [] ≡ [] }
    {
        Cutter {
            place: 0,
            frames: 0,
            within: 0,
            head: [0; 4],
            refusal: None,
        }
    }

    /// Goes through a piece from `used` on, up to the end of the present frame or of the piece.
    /// Answers the place in the piece where it stands now and, where a frame ended there, its cut.
    /// After a refusal it answers the same refusal, whatever comes.
    pub fn feed(&mut self, piece: &[u8], used: usize) -> Result<(usize, Option<Cut>), FrameNo>
        requires { used ≤ length piece.now }
        ensures place { IfOk result (λ r. (used ≤ r.0) × (r.0 ≤ length piece.now)) }
        ensures moves { IfOk result (λ r. (bytes : List ℕ) → HasRead self.old bytes
            → used < length piece.now → used < r.0) }
        ensures read { IfOk result (λ r. (bytes : List ℕ) → HasRead self.old bytes
            → HasRead self.new (bytes ++ slice_range piece.now used r.0)) }
        ensures cut { IfOk result (λ r. IfSome r.1 (λ cut. (bytes : List ℕ) → HasRead self.old bytes
            → EndsFrame bytes (bytes ++ slice_range piece.now used r.0) cut)) }
        ensures no_cut { IfOk result (λ r. IfNone r.1 ((r.0 ≡ length piece.now)
            × ((bytes : List ℕ) → HasRead self.old bytes
            → GoesOn bytes (bytes ++ drop used piece.now)))) }
        ensures refused { IfErr result (λ why. (bytes : List ℕ) → HasRead self.old bytes
            → IsRefused bytes (bytes ++ drop used piece.now) why
            × HasRead self.new (bytes ++ drop used piece.now)) }
        ensures again { (bytes : List ℕ) (why : FrameNo) → HasRead self.old bytes
            → refusal (failure_of bytes) ≡ Some why → (result ≡ Err why) × (self.new ≡ self.old) }
    {
        if let Some(why) = self.refusal {
            return Err(why);
        }
        match self.go_through(&piece[used..]) {
            Ok((gone, cut)) => Ok((used + gone, cut)),
            Err(why) => {
                self.refusal = Some(why);
                Err(why)
            }
        }
    }

    /// Ends the stream: the number of its frames, or why it isn't frames alone.
    pub fn finish(&self) -> Result<u32, FrameNo>
        ensures { (bytes : List ℕ) → HasRead self.now bytes
            → result ≡ count_or (frames_of bytes) (failure_of bytes) }
    {
        match self.refusal {
            Some(why) => Err(why),
            None if self.within > 0 => Err(FrameNo::Inside(self.frames)),
            None => Ok(self.frames),
        }
    }

    // The same where no refusal came before.
    fn go_through(&mut self, rest: &[u8]) -> Result<(usize, Option<Cut>), FrameNo>
        requires { self.old.refusal ≡ None }
        ensures place { IfOk result (λ r. r.0 ≤ length rest.now) }
        ensures sound { IfOk result (λ r. self.new.refusal ≡ None) }
        ensures read { IfOk result (λ r. (bytes : List ℕ) → IsAt self.old bytes
            → IsAt self.new (bytes ++ take r.0 rest.now)) }
        ensures cut { IfOk result (λ r. IfSome r.1 (λ cut. (bytes : List ℕ) → IsAt self.old bytes
            → EndsFrame bytes (bytes ++ take r.0 rest.now) cut)) }
        ensures no_cut { IfOk result (λ r. IfNone r.1 ((r.0 ≡ length rest.now)
            × ((bytes : List ℕ) → IsAt self.old bytes → GoesOn bytes (bytes ++ rest.now)))) }
        ensures refused { IfErr result (λ why. (bytes : List ℕ) → IsAt self.old bytes
            → IsRefused bytes (bytes ++ rest.now) why) }
    {
        let head = self.go_on(rest, HEAD)?;
        if self.within < HEAD {
            return Ok((head, None));
        }
        let len = u32::from_be_bytes(self.head);
        if len > MAX_LENGTH {
            return Err(FrameNo::Length(self.frames));
        }
        let body = self.go_on(&rest[head..], HEAD + len)?;
        let gone = head + body;
        if self.within < HEAD + len {
            return Ok((gone, None));
        }
        self.within = 0;
        self.frames += 1;
        let start = self.place - len;
        Ok((gone, Some(Cut { start, len })))
    }

    // Goes through what has come of the first `end` bytes of the present frame, and says how many
    // bytes that was.
    fn go_on(&mut self, rest: &[u8], end: u32) -> Result<usize, FrameNo>
        requires { self.old.within < 4 → end ≤ 4 }
        ensures gone { IfOk result (λ n. n ≡ min (end - self.old.within) (length rest.now)) }
        ensures ok { IfOk result (λ n. Advances self.old (take n rest.now) self.new) }
        ensures fits { IfOk result (λ _. self.new.place ≤ MAX_STREAM) }
        ensures number { IfOk result (λ _. 0 < self.new.within → self.new.frames < MAX_FRAMES) }
        ensures err { IfErr result
            (λ why. MeetsLimit self.old (min (end - self.old.within) (length rest.now)) why) }
    {
        let gone = (end.saturating_sub(self.within) as usize).min(rest.len());
        if gone == 0 {
            return Ok(0);
        }
        if self.place == MAX_STREAM {
            return Err(FrameNo::Stream);
        }
        if self.within == 0 && self.frames == MAX_FRAMES {
            return Err(FrameNo::Frames);
        }
        if gone > (MAX_STREAM - self.place) as usize {
            return Err(FrameNo::Stream);
        }
        if self.within < HEAD {
            keep(&mut self.head, self.within as usize, &rest[..gone]);
        }
        self.within += gone as u32;
        self.place += gone as u32;
        Ok(gone)
    }
}

// Keeps further bytes of a frame's length behind those that came before.
fn keep(head: &mut [u8], known: usize, bytes: &[u8])
    requires { known + length bytes.now ≤ length head.old }
    ensures { take (known + length bytes.now) head.new ≡ take known head.old ++ bytes.now }
{
    head[known..known + bytes.len()].copy_from_slice(bytes);
}
