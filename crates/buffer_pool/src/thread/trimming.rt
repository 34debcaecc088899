//! How an idle thread gives back what its caches keep.

ghost use Rattle.std.specs.Prelude.{◌≡◌, ◌-◌, ◌<◌, IfErr, None, OnErr, OnOk};
ghost use Rattle.pool_law.specs.Limits.{cached_classes};
ghost use Rattle.seat_work.specs.Changes.{no_change};
ghost use Rattle.seat_tries.specs.Taking.{taken};
ghost use Rattle.pool_member.specs.Threads.{HasChanged, IsSettled};
ghost use Rattle.pool_member.specs.Trims.{AreEmpty, HasPaid, MayStop};

use crate::name::PoolName;
use crate::pool::Pool;
use crate::thread::PoolThread;
use pool_member::work::trimming;
use pool_member::{TrimNo, TryTrimNo};
use std::sync::Wait;

impl<B: PoolName> PoolThread<B> {
    /// Gives the memory that this thread's caches keep for its next buffers back to the arenas,
    /// where other threads may have it, and takes none from them. Each cache was found empty by a
    /// step of this call, with nothing in the thread's hands. It takes at most 2 turns for each
    /// region that goes back, 2 for each of the 40 caches, and 2 for each time that another thread
    /// is in one of them: then that step is made again. All buffers, counts and moves stay as they
    /// are. For want of turns some of it may have gone back. (Netty:
    /// `PooledByteBufAllocator.trimCurrentThreadCache`)
    pub fn trim<W: Wait>(&mut self, rt: &W, pool: &Pool<B>) -> Result<(), TrimNo>
        ensures emptied { OnOk result
            (AreEmpty pool.now cached_classes self.old.seat self.new.seat) }
        ensures settled { OnOk result (IsSettled self.new) }
        ensures changed { HasChanged (self.old.account.turns - self.new.account.turns) no_change
            None self.old self.new }
        ensures moves { self.new.account.moves ≡ self.old.account.moves }
        ensures took { taken self.new.seat ≡ taken self.old.seat }
        ensures paid { HasPaid cached_classes self.old self.new }
        ensures spent { OnErr result (self.new.account.turns < 2) }
    {
        trimming::trim(rt, &pool.shared, &mut self.member)
    }

    /// The same with one try of each step. It is busy where another thread is at a cache of this one
    /// or at an arena; what has gone back by then stays there, and another call begins anew with the
    /// first cache, and takes its turns.
    pub fn try_trim(&mut self, pool: &Pool<B>) -> Result<(), TryTrimNo>
        ensures emptied { OnOk result
            (AreEmpty pool.now cached_classes self.old.seat self.new.seat) }
        ensures settled { OnOk result (IsSettled self.new) }
        ensures changed { HasChanged (self.old.account.turns - self.new.account.turns) no_change
            None self.old self.new }
        ensures moves { self.new.account.moves ≡ self.old.account.moves }
        ensures took { taken self.new.seat ≡ taken self.old.seat }
        ensures paid { HasPaid cached_classes self.old self.new }
        ensures cause { IfErr result (MayStop pool.now self.old self.new) }
    {
        trimming::try_trim(&pool.shared, &mut self.member)
    }
}
