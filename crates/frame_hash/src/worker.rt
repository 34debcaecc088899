//! A worker: it hashes the frames that it is handed, slice by slice.
ghost use Rattle.std.specs.Prelude.{◌≡◌, ◌≢◌, ◌<◌, Ok};
ghost use Rattle.frame_hash.specs.declared.shared.Shared.{Shared};
ghost use Rattle.frame_hash.specs.Standing.{IsBegun, SameWorker, WorkerCame, WorkerStands, at_work};

use crate::hashes::{FrameHash, HashOf};
use crate::hashing::hash_parcel;
use crate::shared::Shared;
use crate::turns::HASH_TURNS;
use job_queue::{Job, JobEnd, pop};
use sha2::{Digest, Sha256};
use shared_pool::{Fetched, PoolSeat};
use std::alloc::AllocError;
use std::mem::replace;
use std::sync::Wait;
use work_table::{Machine, Stepped};

/// A frame that is being hashed.
#[derive(Drop)]
pub struct Hashing {
    pub hasher: Sha256,
    pub number: u32,
    /// The bytes that were hashed.
    pub len: u64,
    /// The slices that are still to come.
    pub left: u32,
}

impl Hashing {
    // A frame of which no slice is hashed yet.
    fn new(number: u32, slices: u32) -> Hashing
        ensures { IsBegun result number slices }
    {
        Hashing {
            hasher: Sha256::new(),
            number,
            len: 0,
            left: slices,
        }
    }
}

/// What a worker does.
#[derive(Drop)]
pub enum Work {
    /// It waits for a frame.
    Idle,
    /// It hashes one.
    Frame(Hashing),
    /// Nothing more comes.
    Done,
}

/// A worker with its lane's seat.
pub struct Worker {
    pub seat: PoolSeat,
    /// Its number, which is its lane.
    pub number: u32,
    /// The cutter's lane.
    pub cutter: u32,
    pub jobs: JobEnd,
    /// The turns that its seat has left, or fewer.
    pub turns: u64,
    pub hashes: Vec<HashOf>,
    pub work: Work,
}

impl<'a> Machine<Shared<'a>> for Worker {
    ghost use Rattle.frame_hash.specs.declared.worker.Work.{Work};

    ghost comes = { WorkerCame };

    ghost finished = { λ worker. worker.work ≡ Work.Done };

    fn step<R: Wait>(&mut self, rt: &R, shared: &Shared<'a>) -> Result<Stepped, AllocError> {
        self.go_on(rt, shared)
    }
}

impl Worker {
    /// The next thing that it has to do.
    pub fn go_on<W: Wait>(&mut self, rt: &W, shared: &Shared) -> Result<Stepped, AllocError>
        requires { WorkerStands shared.now self.old }
        ensures stands { WorkerStands shared.now self.new }
        ensures same { SameWorker self.old self.new }
        ensures finished { result ≡ Ok Stepped.Finished → self.new.work ≡ Work.Done }
    {
        match replace(&mut self.work, Work::Idle) {
            Work::Idle => Ok(self.take_job(rt, shared)),
            Work::Frame(frame) => self.go_on_with(rt, shared, frame),
            Work::Done => {
                self.work = Work::Done;
                Ok(Stepped::Finished)
            }
        }
    }

    // Begins with the next frame, if one came.
    fn take_job<W: Wait>(&mut self, rt: &W, shared: &Shared) -> Stepped
        requires stands { WorkerStands shared.now self.old }
        requires idle { self.old.work ≡ Work.Idle }
        ensures stands { WorkerStands shared.now self.new }
        ensures same { SameWorker self.old self.new }
        ensures more { result ≢ Stepped.Finished }
    {
        let queue = &shared.queues[self.number as usize];
        match pop(rt, queue, &mut self.jobs) {
            None => Stepped::Waiting,
            Some(Job::End) => {
                self.work = Work::Done;
                Stepped::Went
            }
            Some(Job::Frame { number, slices }) => {
                self.work = Work::Frame(Hashing::new(number, slices));
                Stepped::Went
            }
        }
    }

    // Goes on with a frame.
    fn go_on_with<W: Wait>(
        &mut self,
        rt: &W,
        shared: &Shared,
        frame: Hashing,
    ) -> Result<Stepped, AllocError>
        requires stands { WorkerStands shared.now (at_work self.old (Work.Frame frame)) }
        requires idle { self.old.work ≡ Work.Idle }
        ensures stands { WorkerStands shared.now self.new }
        ensures same { SameWorker self.old self.new }
        ensures more { result ≢ Ok Stepped.Finished }
    {
        if frame.left == 0 {
            self.finish(frame)?;
            return Ok(Stepped::Went);
        }
        self.hash_next(rt, shared, frame)
    }

    // Hashes the next slice of a frame, if it came, and tells of the frame behind the last.
    fn hash_next<W: Wait>(
        &mut self,
        rt: &W,
        shared: &Shared,
        frame: Hashing,
    ) -> Result<Stepped, AllocError>
        requires stands { WorkerStands shared.now (at_work self.old (Work.Frame frame)) }
        requires idle { self.old.work ≡ Work.Idle }
        requires left { 0 < frame.left }
        ensures stands { WorkerStands shared.now self.new }
        ensures same { SameWorker self.old self.new }
        ensures more { result ≢ Ok Stepped.Finished }
    {
        if self.turns < HASH_TURNS {
            self.work = Work::Frame(frame);
            return Ok(Stepped::Waiting);
        }
        let parcel = match shared.pool.fetch(rt, &mut self.seat, self.cutter) {
            Fetched::Got(_number, parcel) => parcel,
            Fetched::Empty => {
                self.work = Work::Frame(frame);
                return Ok(Stepped::Waiting);
            }
        };
        let Hashing {
            hasher,
            number,
            len,
            left,
        } = frame;
        let (hasher, more) = hash_parcel(rt, shared.pool, &mut self.seat, parcel, hasher);
        self.turns -= HASH_TURNS;
        let frame = Hashing {
            hasher,
            number,
            len: len + u64::from(more),
            left: left - 1,
        };
        if frame.left > 0 {
            self.work = Work::Frame(frame);
            return Ok(Stepped::Went);
        }
        self.finish(frame)?;
        Ok(Stepped::Went)
    }

    // Tells of a frame that is hashed.
    fn finish(&mut self, frame: Hashing) -> Result<(), AllocError>
        requires whole { frame.left ≡ 0 }
        requires idle { self.old.work ≡ Work.Idle }
        ensures stands { (shared : Shared)
            → WorkerStands shared (at_work self.old (Work.Frame frame))
            → WorkerStands shared self.new }
        ensures same { SameWorker self.old self.new }
    {
        if self.hashes.reserve(1).is_err() {
            self.work = Work::Frame(frame);
            return Err(AllocError);
        }
        let Hashing {
            hasher,
            number,
            len,
            left: _,
        } = frame;
        let digest = hasher.finalize();
        let hash = FrameHash { len, digest };
        self.hashes.push_reserved(HashOf { number, hash });
        Ok(())
    }
}
