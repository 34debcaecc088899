//! The queue of a worker: the frames that the cutter hands to it, in order. Only the cutter's end
//! pushes, and only the worker's pops.
ghost use Rattle.std.specs.Prelude.{◌≡◌, ◌++◌, [], List, IfOk, false};
ghost use Rattle.std.specs.Option.{option_to_list};
ghost use Rattle.crossbeam_queue.specs.Fifo.{Held};
ghost use Rattle.crossbeam_queue.specs.Passes.{view};
ghost use Rattle.job_queue.specs.declared.jobs.Job.{Job};
ghost use Rattle.job_queue.specs.declared.jobs.TheConstants.{ROOM};
ghost use Rattle.job_queue.specs.Jobs.{HoldsLast, IsReceiver, IsSender, sent_after};

use crossbeam_queue::protocol::{Join, Lesson, Outcome, Protocol, Split};
use crossbeam_queue::{Pass, RuledArrayQueue};
use std::alloc::{AllocError, Global};
use std::collections::LinkedList;
use std::sync::Wait;

/// How many jobs a queue holds.
pub const ROOM: usize = 64;

/// What a worker is to do.
#[derive(Clone, Copy, PartialEq, Eq, Debug, Drop)]
pub enum Job {
    /// It hashes the frame of this number, which comes in so many slices.
    Frame { number: u32, slices: u32 },
    /// Nothing more comes.
    End,
}

/// What an end of a queue may do, push or pop, and what it has pushed and popped. No value of it is
/// made.
pub struct JobLog {
    pub pushes: bool,
    pub pops: bool,
    pub sent: LinkedList<Job>,
    pub got: LinkedList<Job>,
}

/// The rule of each queue: its jobs come out in the order in which they went in.
pub struct InOrder;

impl Protocol<Job, JobLog> for InOrder {
    ghost use Rattle.std.specs.Prelude.{true, []};
    ghost use Rattle.job_queue.specs.Jobs.{Relays, ends};

    ghost holds = { Relays };

    ghost first = { ends true true [] [] };
}

/// The queue of a worker.
pub type JobQueue = RuledArrayQueue<Job, JobLog, InOrder>;

/// An end of a queue, the cutter's or the worker's.
pub type JobEnd = Pass<Job, JobLog>;

// Cuts the first pass into the two ends, and joins them again.
struct TwoEnds;

impl Split<JobLog> for TwoEnds {
    ghost use Rattle.std.specs.Prelude.{true, false, []};
    ghost use Rattle.job_queue.specs.Jobs.{ends};

    ghost left = { λ v. ends true false v.sent [] };

    ghost right = { λ v. ends false true [] v.got };
}

impl Join<JobLog> for TwoEnds {
    ghost use Rattle.std.specs.Prelude.{true, false, []};
    ghost use Rattle.job_queue.specs.Jobs.{ends};

    ghost both = { λ v w. ends true true v.sent w.got };

    ghost spent = { ends false false [] [] };
}

// A job is sent.
struct Sends;

impl Outcome<Job, JobLog> for Sends {
    ghost use Rattle.std.specs.Prelude.{◌≡◌, ◌++◌, ◌∷◌, []};
    ghost use Rattle.job_queue.specs.Jobs.{ends};

    ghost then = { λ v x w. w ≡ ends v.pushes v.pops (v.sent ++ x ∷ []) v.got };
}

impl Lesson<Job, JobLog> for Sends {
    ghost use Rattle.job_queue.specs.Jobs.{HoldsLast};

    ghost fact = { λ v items. HoldsLast v.sent items };
}

// A job is got.
struct Gets;

impl Outcome<Job, JobLog> for Gets {
    ghost use Rattle.std.specs.Prelude.{◌≡◌, ◌++◌, ◌∷◌, []};
    ghost use Rattle.job_queue.specs.Jobs.{ends};

    ghost then = { λ v x w. w ≡ ends v.pushes v.pops v.sent (v.got ++ x ∷ []) };
}

impl Lesson<Job, JobLog> for Gets {
    ghost use Rattle.std.specs.Prelude.{⊤};

    ghost fact = { λ v items. ⊤ };
}

// What was sent is what was got, and what lies in the queue.
struct Totals;

impl Lesson<Job, JobLog> for Totals {
    ghost use Rattle.std.specs.Prelude.{◌≡◌, ◌++◌};

    ghost fact = { λ v items. v.sent ≡ v.got ++ items };
}

/// An empty queue, with the cutter's end and the worker's.
pub fn new_queue(alloc: Global) -> Result<(JobQueue, JobEnd, JobEnd), AllocError>
    ensures sender { IfOk result (λ q. IsSender q.0 q.1 × ((view q.1).sent ≡ [])) }
    ensures receiver { IfOk result (λ q. IsReceiver q.0 q.2 × ((view q.2).got ≡ [])) }
{
    let (queue, mut sender) = JobQueue::ruled(alloc, ROOM)?;
    let receiver = queue.another::<TwoEnds>(&mut sender);
    Ok((queue, sender, receiver))
}

/// Pushes a job. False only where the queue was full at one moment of the call; then nothing is sent.
pub fn push<W: Wait>(rt: &W, queue: &JobQueue, end: &mut JobEnd, job: Job) -> bool
    requires { IsSender queue.now end.old }
    ensures sender { IsSender queue.now end.new }
    ensures sent { (view end.new).sent ≡ sent_after result (view end.old).sent job }
    ensures full { result ≡ false → Held ROOM (HoldsLast (view end.old).sent) }
{
    queue.push_as::<Sends, W>(rt, end, job).is_ok()
}

/// Pops the next job. None where the queue was empty.
pub fn pop<W: Wait>(rt: &W, queue: &JobQueue, end: &mut JobEnd) -> Option<Job>
    requires { IsReceiver queue.now end.old }
    ensures receiver { IsReceiver queue.now end.new }
    ensures got { (view end.new).got ≡ (view end.old).got ++ option_to_list result }
{
    queue.pop_as::<Gets, W>(rt, end)
}

/// The worker's end is spent, and the cutter's tells what was sent: all that was got, in this order,
/// and what lies in the queue.
pub fn reunite(queue: &JobQueue, sender: &mut JobEnd, receiver: JobEnd)
    requires ends { IsSender queue.now sender.old × IsReceiver queue.now receiver }
    ensures { (left : List Job) × ((view sender.old).sent ≡ (view receiver).got ++ left) }
{
    queue.absorb::<TwoEnds>(sender, receiver);
    queue.learn_as::<Totals>(sender);
}
