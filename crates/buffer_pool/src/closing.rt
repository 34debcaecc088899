//! How a pool ends: closed, with what stands then, or abandoned.

ghost use Rattle.std.specs.Prelude.{◌≡◌, IfErr, IfOk};
ghost use Rattle.size_classes.specs.Sizes.{below};
ghost use Rattle.pool_law.specs.Legal.{ends_from};
ghost use Rattle.shared_pool.specs.Closing.{logs_in};
ghost use Rattle.shared_pool.specs.Live.{AreLiveRoots};
ghost use Rattle.pool_member.specs.Closing.{AreAll, MayRefuse, parts_of};

use crate::name::PoolName;
use crate::pool::Pool;
use crate::thread::PoolThread;
use crate::threads::{members_of, threads_of};
use pool_member::{CloseMemory, CloseNo, Closed, close_all};
use std::alloc::Global;
use std::mem::ManuallyDrop;

/// A pool that was not closed, and its threads.
pub struct NotClosed<B: PoolName> {
    /// Why.
    pub why: CloseNo,
    /// The pool as it was.
    pub pool: Pool<B>,
    /// The threads as they were.
    pub threads: Vec<PoolThread<B>>,
}

impl<B: PoolName> NotClosed<B> {
    /// Leaves all as it is.
    pub fn leave(self) {
        let NotClosed {
            why: _,
            pool,
            threads,
        } = self;
        pool.abandon(threads);
    }
}

impl<B: PoolName> Pool<B> {
    /// Closes the pool with all its threads, in the order of their numbers, and tells what stands:
    /// the chunks in use, and the leaks. A leak is a watched buffer, some count of which was never
    /// released. A refusal hands all back as it was.
    pub fn close(self, alloc: Global, threads: Vec<PoolThread<B>>) -> Result<Closed, NotClosed<B>>
        ensures all { IfOk result (λ closed. AreAll self threads.items) }
        ensures chunks { IfOk result (λ closed. let shape = self.table.layout.shape in
            let logs = logs_in (parts_of threads.items) in
            closed.chunks ≡ ends_from shape logs (below shape.arenas)) }
        ensures leaks { IfOk result (λ closed. AreLiveRoots (parts_of threads.items) closed.leaks) }
        ensures cause { IfErr result (λ back. MayRefuse self threads.items back.why) }
        ensures back { IfErr result (λ back.
            (back.pool ≡ self) × (back.threads.items ≡ threads.items)) }
    {
        let Ok(room) = CloseMemory::take(alloc, threads.len()) else {
            let why = CloseNo::Memory;
            return Err(NotClosed {
                why,
                pool: self,
                threads,
            });
        };
        let Pool {
            shared,
            sizes,
            threads: lanes,
            of,
        } = self;
        let CloseMemory {
            members,
            seats,
            records,
        } = room;
        let (members, threads) = members_of::<B>(&shared, threads, members);
        match close_all(alloc, lanes, shared, members, seats, records) {
            Ok(closed) => {
                threads.destroy_empty();
                Ok(closed)
            }
            Err((why, shared, members)) => {
                let threads = threads_of::<B>(&shared, members, threads);
                let pool = Pool {
                    shared,
                    sizes,
                    threads: lanes,
                    of,
                };
                Err(NotClosed { why, pool, threads })
            }
        }
    }

    /// Leaves the pool and its threads as they are. Their memory stays taken until the program ends.
    pub fn abandon(self, threads: Vec<PoolThread<B>>) {
        let _pool = unsafe { ManuallyDrop::new_unchecked(self) };
        let _threads = unsafe { ManuallyDrop::new_unchecked(threads) };
    }
}
