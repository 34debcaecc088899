//! How buffers come and end for who never waits. Each call makes one try. What it began and could
//! not end, since another thread was in the way, the thread keeps: its next call that allocates,
//! releases or asks for capacity goes on with that first, and so does `settle`.

ghost use Rattle.std.specs.Prelude.{◌≡◌, ◌<◌, ◌↔◌, Err, IfOk, IfErr, IsTrue, MatchResult, None};
ghost use Rattle.size_classes.specs.Sizes.{chunk_bytes};
ghost use Rattle.pool_law.specs.Limits.{geometry_of};
ghost use Rattle.pool_law.specs.Views as views;
ghost use Rattle.seat_work.specs.Changes.{once_less, once_more};
ghost use Rattle.seat_work.specs.Works.{HasBorn};
ghost use Rattle.pool_member.specs.Allotting.{IsAllotted, IsTryRefused};
ghost use Rattle.pool_member.specs.Attempts.{as_try, HasTryCause, LeavesCounted, try_told, try_turns};
ghost use Rattle.pool_member.specs.Refusals.{call_no, is_here};
ghost use Rattle.pool_member.specs.Threads.{HasChanged, moves_after};
ghost use Rattle.pool_member.specs.Tries.{IsTried};
ghost use Rattle.pool_member.specs.Watching.{with_next};

use crate::answers::TryBack;
use crate::buffer::Buffer;
use crate::name::PoolName;
use crate::pool::Pool;
use crate::thread::PoolThread;
use crate::thread::buffers::{ALLOC_TURNS, RELEASE_TURNS};
use byte_view::View;
use pool_member::work::allocation::try_allocate;
use pool_member::work::counting;
use pool_member::{AllocNo, TryAllocNo, TryNo};
use std::marker::PhantomData;

impl<B: PoolName> PoolThread<B> {
    /// Tries to allocate a new buffer of so many bytes, all 0, of which none is written yet. The
    /// thread counts it once. It is busy where another thread is at this one's handles or at its
    /// arena, or in the way of what is still to be put away. A busy try and a refusal leave the
    /// counts as they were, and which of the thread's next buffers are watched; for want of turns,
    /// and where the buffer is too large, nothing has changed.
    pub fn try_alloc(&mut self, pool: &Pool<B>, size: u32) -> Result<Buffer<B>, TryAllocNo>
        ensures buffer { IfOk result (λ b.
            (b.at ≡ views.view_of b.at.root) × (b.at.root.capacity ≡ size)
            × (b.thread ≡ self.old.account.lane)) }
        ensures here { IfOk result (λ b. IsTrue (is_here self.new.account b)) }
        ensures changed { IfOk result (λ b.
            HasChanged 6 (once_more b.at.root) None self.old self.new) }
        ensures born { IfOk result (λ b.
            HasBorn pool.now b.at.root self.old.seat self.new.seat) }
        ensures moves { self.new.account.moves ≡ self.old.account.moves }
        ensures watcher { MatchResult result
            (λ _. self.new.watcher ≡ with_next self.old.watcher)
            (λ _. self.new.watcher ≡ self.old.watcher) }
        ensures too_large { (result ≡ Err (TryAllocNo.Refused AllocNo.TooLarge))
            ↔ (chunk_bytes (geometry_of pool.now.table.layout.shape) < size) }
        ensures refused { IfErr result (λ no.
            HasChanged (try_turns no) (try_told no) None self.old self.new) }
        ensures cause { IfErr result (HasTryCause pool.now self.old self.new) }
        ensures allotted { IfOk result (λ b.
            IsAllotted pool.now size b.at.root self.old self.new) }
        ensures told { IfErr result (λ no. IsTryRefused pool.now size no self.old self.new) }
    {
        let Some(class) = pool.sizes.class_of(size) else {
            return Err(TryAllocNo::Refused(AllocNo::TooLarge));
        };
        if self.member.account.turns < ALLOC_TURNS {
            return Err(TryAllocNo::Refused(AllocNo::Spent));
        }
        match try_allocate(&pool.shared, &mut self.member, size, class) {
            Ok(root) => Ok(Buffer {
                view: View::of_root(root),
                thread: self.member.account.lane,
                of: PhantomData,
            }),
            Err(no) => Err(try_no(no)),
        }
    }

    /// Tries to give a count back. True exactly where it was the last one of all threads and
    /// parcels: the memory goes back to the pool then, at once, or as this thread settles, where
    /// another one is in the way. It is busy only where another thread is in the way of what was
    /// to be put away before. Then, as where it is refused, the count was not given back, and the
    /// buffer comes back.
    pub fn try_release(&mut self, pool: &Pool<B>, buffer: Buffer<B>) -> Result<bool, TryBack<B>>
        ensures answers { let no = call_no self.old.account buffer 4 in
            MatchResult result (λ _. no ≡ None) (λ back. IsTried no back.why) }
        ensures changed { IfOk result (λ last.
            HasChanged 4 (once_less buffer.at.root last) None self.old self.new) }
        ensures moves { IfOk result (λ last.
            self.new.account.moves ≡ moves_after last self.old.account.moves) }
        ensures back { IfErr result (λ back. back.buffer ≡ buffer) }
        ensures left { IfErr result (λ back. LeavesCounted pool.now self.old self.new back.why) }
    {
        let root = buffer.view.at.root;
        if let Err(why) = buffer.may(&self.member.account, RELEASE_TURNS) {
            let why = TryNo::Refused(why);
            return Err(TryBack { why, buffer });
        }
        match counting::try_release(&pool.shared, &mut self.member, root) {
            Some(last) => {
                buffer.leave();
                Ok(last)
            }
            None => {
                let why = TryNo::Busy;
                Err(TryBack { why, buffer })
            }
        }
    }
}

// The same answer of this crate.
fn try_no(no: seat_tries::AllocNo) -> TryAllocNo
    ensures { result ≡ as_try no }
{
    match no {
        seat_tries::AllocNo::Busy => TryAllocNo::Busy,
        seat_tries::AllocNo::NoHandle => TryAllocNo::Refused(AllocNo::NoHandle),
        seat_tries::AllocNo::Full => TryAllocNo::Refused(AllocNo::Full),
        seat_tries::AllocNo::Worn => TryAllocNo::Refused(AllocNo::Worn),
    }
}
