//! What a cutter has beside its source, and its steps.

ghost use Rattle.std.specs.Prelude.{◌≡◌, ℕ, ◌+◌, ◌≤◌, true, false, List, ◌++◌, take, drop, vec_len, Ok};
ghost use Rattle.frame_hash.specs.declared.shared.Shared.{Shared};
ghost use Rattle.frame_core.specs.Frames.{failure_of};
ghost use Rattle.frame_slices.specs.Slices.{HasCut};
ghost use Rattle.frame_cutter.specs.Standing.{CutterStands, SameCutter, is_fault, verdict_of};

use crate::stage::{Stage, Verdict};
use frame_hash::Shared;
use frame_slices::{Found, Slicer};
use job_queue::JobEnd;
use pool_law::ViewData;
use shared_pool::PoolSeat;
use std::alloc::{AllocError, Global};
use std::sync::Wait;
use work_table::Stepped;

/// A cutter without its source.
pub struct Cutter {
    pub alloc: Global,
    pub seat: PoolSeat,
    /// How many workers there are. Their lanes are those below this number, which is its own lane.
    pub workers: u32,
    /// The ends of their queues, by number.
    pub ends: Vec<JobEnd>,
    /// It has gone through all that was read.
    pub slicer: Slicer,
    /// How many bytes a block has room for.
    pub block: u32,
    /// What the slicer found in the present block.
    pub finds: Vec<Found>,
    /// Nothing comes behind the present block.
    pub last: bool,
    /// The size class of a block.
    pub class: u32,
    /// The turns that its seat has left, or fewer.
    pub turns: u64,
    /// The slices that it may still make: its seat has a move for each.
    pub moves: u32,
    /// By worker, the slices that may still go to it: its mail has room for each.
    pub rooms: Vec<u32>,
    /// The frames that went to their workers.
    pub frames: u32,
    /// The slices of the present frame, in order.
    pub slices: Vec<ViewData>,
    pub stage: Stage,
    pub verdict: Verdict,
}

impl Cutter {
    /// The next thing that the cutter does.
    pub fn go_on<W: Wait>(&mut self, rt: &W, shared: &Shared) -> Result<Stepped, AllocError>
        requires stands { (read : List ℕ) × CutterStands shared.now self.old read }
        ensures stands { (read : List ℕ) → CutterStands shared.now self.old read →
            CutterStands shared.now self.new read }
        ensures same { SameCutter self.old self.new }
        ensures finished { result ≡ Ok Stepped.Finished → self.new.stage ≡ Stage.Over }
    {
        match self.stage {
            Stage::Filling => Ok(Stepped::Waiting),
            Stage::Cutting { root, used } => self.cut(rt, shared, root, used),
            Stage::Handing { root, used, posted } => Ok(self.hand(rt, shared, root, used, posted)),
            Stage::LettingGo => Ok(self.let_go(rt, shared)),
            Stage::Ending { next } => Ok(self.tell(rt, shared, next)),
            Stage::Over => Ok(Stepped::Finished),
        }
    }

    /// The stream ends here.
    pub(crate) fn finish(&mut self)
        ensures cutter { self.new
            ≡ record self.old { stage = Stage.LettingGo; verdict = self.new.verdict } }
        ensures verdict { (bytes own : List ℕ) → HasCut self.old.slicer bytes own →
            self.new.verdict ≡ verdict_of (failure_of bytes) }
        ensures fault { is_fault self.new.verdict ≡ false }
    {
        self.verdict = match self.slicer.finish() {
            Ok(_frames) => Verdict::Whole,
            Err(why) => Verdict::Refused(why),
        };
        self.stage = Stage::LettingGo;
    }
}
