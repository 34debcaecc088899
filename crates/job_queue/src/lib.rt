#![tactic(auto)]
//! A queue of jobs for one worker: what its other end pushes comes out in this order. The ends know
//! what they pushed and popped, and once they are joined again what was popped is a front of what was
//! pushed. Stands on the queue of `crossbeam_queue`, under a rule.

mod jobs;

pub use jobs::{InOrder, Job, JobEnd, JobLog, JobQueue, ROOM, new_queue, pop, push, reunite};
