//! How a frame goes to its worker.

ghost use Rattle.std.specs.Prelude.{◌≡◌, ◌≢◌, ℕ, ◌-◌, ◌<◌, true, false, List, slice_index, slice_set, vec_len};
ghost use Rattle.frame_cutter.specs.Standing.{CutterStands, SameCutter};

use crate::cutter::Cutter;
use crate::stage::Stage;
use frame_hash::Shared;
use job_queue::{Job, push};
use pool_law::{Parcel, RootId};
use seat_work::post;
use std::sync::Wait;
use work_table::Stepped;

impl Cutter {
    /// Sends the next slice of the frame that ended, or the frame's job behind them. Where the
    /// worker's queue is full it is tried again later. Its mail has room for all of a stream.
    pub(crate) fn hand<W: Wait>(
        &mut self,
        rt: &W,
        shared: &Shared,
        root: RootId,
        used: usize,
        posted: usize,
    ) -> Stepped
        requires stands { (read : List ℕ) × CutterStands shared.now self.old read }
        requires stage { self.old.stage ≡ Stage.Handing root used posted }
        ensures stands { (read : List ℕ) → CutterStands shared.now self.old read →
            CutterStands shared.now self.new read }
        ensures same { SameCutter self.old self.new }
        ensures more { result ≢ Stepped.Finished }
    {
        let worker = self.frames % self.workers;
        if posted < self.slices.len() {
            if !take_room(&mut self.rooms, worker) {
                return Stepped::Waiting;
            }
            let parcel = Parcel {
                view: Some(self.slices[posted]),
            };
            post(rt, shared.pool, &mut self.seat, worker, parcel);
            let posted = posted + 1;
            self.stage = Stage::Handing { root, used, posted };
            return Stepped::Went;
        }
        let job = Job::Frame {
            number: self.frames,
            slices: self.slices.len() as u32,
        };
        let queue = &shared.queues[worker as usize];
        if !push(rt, queue, &mut self.ends[worker as usize], job) {
            return Stepped::Waiting;
        }
        self.frames += 1;
        self.slices.clear();
        self.stage = Stage::Cutting { root, used };
        Stepped::Went
    }
}

// Takes room for one slice in the mail of a worker, where it has some left.
fn take_room(rooms: &mut Vec<u32>, worker: u32) -> bool
    requires { worker < vec_len rooms.old }
    ensures some { result ≡ true → 0 < slice_index rooms.old.items worker }
    ensures taken { result ≡ true → rooms.new.items
        ≡ slice_set rooms.old.items worker (slice_index rooms.old.items worker - 1) }
    ensures none { result ≡ false → rooms.new ≡ rooms.old }
{
    let at = worker as usize;
    if rooms[at] == 0 {
        return false;
    }
    rooms[at] -= 1;
    true
}
