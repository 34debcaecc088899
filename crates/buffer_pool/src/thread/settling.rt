//! How a thread puts away what calls that never wait began.

ghost use Rattle.std.specs.Prelude.{◌≡◌, ◌↔◌, false, IsTrue, None};
ghost use Rattle.seat_work.specs.Changes.{no_change};
ghost use Rattle.seat_tries.specs.Leaving.{MeetsOther};
ghost use Rattle.pool_member.specs.Threads.{HasChanged, IsSettled};

use crate::name::PoolName;
use crate::pool::Pool;
use crate::thread::PoolThread;
use pool_member::work::settling;
use std::sync::Wait;

impl<B: PoolName> PoolThread<B> {
    /// Whether nothing is left to put away of what calls that never wait began. `close` asks for
    /// that of each thread.
    pub fn is_settled(&self) -> bool
        ensures { IsTrue result ↔ IsSettled self.now }
    {
        settling::is_nothing(&self.member.pending)
    }

    /// Makes one try to put away what earlier calls began and could not end. True where nothing of
    /// it is left. The thread's buffers, counts, turns and moves stay as they are.
    pub fn try_settle(&mut self, pool: &Pool<B>) -> bool
        ensures settled { IsTrue result ↔ IsSettled self.new }
        ensures changed { HasChanged 0 no_change None self.old self.new }
        ensures account { self.new.account ≡ self.old.account }
        ensures cause { result ≡ false → MeetsOther pool.now self.old.seat self.new.seat }
    {
        settling::try_settle(&pool.shared, &mut self.member)
    }

    /// Puts away what earlier calls began and could not end. The thread's buffers, counts, turns
    /// and moves stay as they are.
    pub fn settle<W: Wait>(&mut self, rt: &W, pool: &Pool<B>)
        ensures settled { IsSettled self.new }
        ensures changed { HasChanged 0 no_change None self.old self.new }
        ensures account { self.new.account ≡ self.old.account }
    {
        settling::settle(rt, &pool.shared, &mut self.member);
    }
}
