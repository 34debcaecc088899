//! What the cutter and the workers share.

use job_queue::JobQueue;
use shared_pool::SharedPool;

/// The pool, and the queues of the workers, by number.
#[derive(Clone, Copy)]
pub struct Shared<'a> {
    pub pool: &'a SharedPool,
    pub queues: &'a [JobQueue],
}
