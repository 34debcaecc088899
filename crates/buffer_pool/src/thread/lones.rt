//! How buffers come that their thread alone has.

ghost use Rattle.std.specs.Prelude.{◌≡◌, ◌<◌, ◌↔◌, replicate, Err, IfErr, IfOk, IsTrue, MatchResult, None};
ghost use Rattle.size_classes.specs.Sizes.{chunk_bytes};
ghost use Rattle.pool_law.specs.Limits.{geometry_of};
ghost use Rattle.pool_law.specs.Views as views;
ghost use Rattle.seat_work.specs.Changes.{once_more};
ghost use Rattle.seat_work.specs.Works.{HasBorn};
ghost use Rattle.pool_member.specs.Allotting.{IsAllotted, IsRefused};
ghost use Rattle.pool_member.specs.Answers.{alloc_told, alloc_turns, HasCause};
ghost use Rattle.pool_member.specs.Counting.{is_alone};
ghost use Rattle.buffer_pool.specs.Lones.{bytes_of};
ghost use Rattle.pool_member.specs.Refusals.{is_here};
ghost use Rattle.pool_member.specs.Threads.{HasChanged, IsSettled};
ghost use Rattle.pool_member.specs.Watching.{with_next};

use crate::lone::Lone;
use crate::name::PoolName;
use crate::pool::Pool;
use crate::thread::PoolThread;
use pool_member::AllocNo;
use std::sync::Wait;

impl<B: PoolName> PoolThread<B> {
    /// A new buffer as by `alloc`, which the thread alone has.
    pub fn alloc_lone<W: Wait>(
        &mut self,
        rt: &W,
        pool: &Pool<B>,
        size: u32,
    ) -> Result<Lone<B>, AllocNo>
        ensures buffer { IfOk result (λ b.
            (b.at ≡ views.view_of b.at.root) × (b.at.root.capacity ≡ size)
            × (b.thread ≡ self.old.account.lane)) }
        ensures here { IfOk result (λ b. IsTrue (is_here self.new.account b)
            × IsTrue (is_alone self.new.account.counts b.at.root)) }
        ensures bytes { IfOk result (λ b. bytes_of self.new b ≡ replicate size 0) }
        ensures changed { IfOk result (λ b.
            HasChanged 6 (once_more b.at.root) None self.old self.new) }
        ensures born { IfOk result (λ b.
            HasBorn pool.now b.at.root self.old.seat self.new.seat) }
        ensures moves { self.new.account.moves ≡ self.old.account.moves }
        ensures watcher { MatchResult result
            (λ _. self.new.watcher ≡ with_next self.old.watcher)
            (λ _. self.new.watcher ≡ self.old.watcher) }
        ensures settled { MatchResult result (λ _. IsSettled self.new)
            (λ no. alloc_turns no ≡ 6 → IsSettled self.new) }
        ensures stays { IsSettled self.old → IsSettled self.new }
        ensures too_large { (result ≡ Err AllocNo.TooLarge)
            ↔ (chunk_bytes (geometry_of pool.now.table.layout.shape) < size) }
        ensures refused { IfErr result (λ no.
            HasChanged (alloc_turns no) (alloc_told no) None self.old self.new) }
        ensures cause { IfErr result (HasCause pool.now self.old self.new) }
        ensures allotted { IfOk result (λ b.
            IsAllotted pool.now size b.at.root self.old self.new) }
        ensures told { IfErr result (λ no. IsRefused pool.now size no self.old self.new) }
    {
        match self.alloc(rt, pool, size) {
            Ok(buffer) => {
                self.member.account.counts.own(buffer.view.at.root);
                Ok(Lone { buffer })
            }
            Err(no) => Err(no),
        }
    }
}
