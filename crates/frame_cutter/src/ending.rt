//! How a cutter ends.

ghost use Rattle.std.specs.Prelude.{◌≡◌, ◌≢◌, ℕ, List};
ghost use Rattle.frame_cutter.specs.Standing.{CutterStands, SameCutter};

use crate::cutter::Cutter;
use crate::stage::Stage;
use frame_hash::{RELEASE_TURNS, Shared};
use job_queue::{Job, push};
use std::sync::Wait;
use work_table::Stepped;

impl Cutter {
    /// Lets go of the last slice that is left, if there is one.
    pub(crate) fn let_go<W: Wait>(&mut self, rt: &W, shared: &Shared) -> Stepped
        requires stands { (read : List ℕ) × CutterStands shared.now self.old read }
        requires stage { self.old.stage ≡ Stage.LettingGo }
        ensures stands { (read : List ℕ) → CutterStands shared.now self.old read →
            CutterStands shared.now self.new read }
        ensures same { SameCutter self.old self.new }
        ensures more { result ≢ Stepped.Finished }
    {
        if self.turns < RELEASE_TURNS {
            return Stepped::Waiting;
        }
        match self.slices.pop() {
            Some(slice) => self.drop_root(rt, shared.pool, slice.root),
            None => self.stage = Stage::Ending { next: 0 },
        }
        Stepped::Went
    }

    /// Tells the next worker that nothing more comes.
    pub(crate) fn tell<W: Wait>(&mut self, rt: &W, shared: &Shared, next: u32) -> Stepped
        requires stands { (read : List ℕ) × CutterStands shared.now self.old read }
        requires stage { self.old.stage ≡ Stage.Ending next }
        ensures stands { (read : List ℕ) → CutterStands shared.now self.old read →
            CutterStands shared.now self.new read }
        ensures same { SameCutter self.old self.new }
        ensures more { result ≢ Stepped.Finished }
    {
        if next == self.workers {
            self.stage = Stage::Over;
            return Stepped::Went;
        }
        let queue = &shared.queues[next as usize];
        if !push(rt, queue, &mut self.ends[next as usize], Job::End) {
            return Stepped::Waiting;
        }
        self.stage = Stage::Ending { next: next + 1 };
        Stepped::Went
    }
}
