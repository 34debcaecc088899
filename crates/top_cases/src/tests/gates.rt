//! A gate that stops a lane, and looks in which order it is asked.

ghost use Rattle.std.specs.Prelude.{◌==◌, ◌&&◌};

use std::sync::atomic::{AtomicU64, Ordering};
use std::thread;
use trace_top::{Gate, Pass};

/// A lane and a line.
pub type LanePlace = (u32, u32);

/// A spot that no trace has.
pub const NOWHERE: LanePlace = (99, 0);

/// How often it looks whether the other of two lanes was asked.
const TURNS: u32 = 1_000_000;

/// A gate that stops one lane at one line.
#[derive(Drop)]
pub struct Barrier {
    lane: u32,
    line: u32,
    /// Whether it answers each of two lanes only after it was asked for the other.
    meets: bool,
    /// How often it was asked for each of two lanes.
    first: AtomicU64,
    second: AtomicU64,
    /// How often it was asked for another line than the next of a lane, or for one lane and never for the other.
    strayed: AtomicU64,
}

impl Barrier {
    /// A gate that stops at this spot.
    pub fn new(stop: LanePlace, meets: bool) -> Barrier {
        let (lane, line) = stop;
        Barrier {
            lane,
            line,
            meets,
            first: AtomicU64::new(0),
            second: AtomicU64::new(0),
            strayed: AtomicU64::new(0),
        }
    }

    /// Whether it was asked for so many lines of each lane, in order, each once.
    pub fn was_asked(&self, times: (u64, u64)) -> bool {
        self.strayed.load(Ordering::SeqCst) == 0
            && self.asked(0).load(Ordering::SeqCst) == times.0
            && self.asked(1).load(Ordering::SeqCst) == times.1
    }

    // How often it was asked for a lane.
    fn asked(&self, lane: u32) -> &AtomicU64 {
        if lane == 0 { &self.first } else { &self.second }
    }

    // Counts a question, and sees that it is for the next line of the lane.
    fn count(&self, lane: u32, line: u32) {
        if self.asked(lane).fetch_add(1, Ordering::SeqCst) != line as u64 {
            self.strayed.fetch_add(1, Ordering::SeqCst);
        }
    }

    // Waits until it was asked for the other lane, but not for ever.
    fn meet(&self, lane: u32) {
        let other = if lane == 0 { 1 } else { 0 };
        for _ in 0..TURNS {
            if self.asked(other).load(Ordering::SeqCst) != 0 {
                return;
            }
            thread::yield_now();
        }
        self.strayed.fetch_add(1, Ordering::SeqCst);
    }
}

impl Gate for Barrier {
    ghost stops = { λ g lane line. (lane == g.lane) && (line == g.line) };

    fn pass(&self, lane: u32, line: u32) -> Pass {
        self.count(lane, line);
        if self.meets {
            self.meet(lane);
        }
        if lane == self.lane && line == self.line {
            Pass::Stop
        } else {
            Pass::Go
        }
    }
}
