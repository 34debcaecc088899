//! How a thread allocates.

ghost use Rattle.std.specs.Prelude.{◌≡◌, ◌+◌, ◌-◌, ◌<◌, ◌≤◌, ◌^◌, true, length, IsTrue, None, Some, IfOk, IfErr, MatchResult};
ghost use Rattle.size_classes.specs.Sizes.{class_of};
ghost use Rattle.pool_law.specs.Limits.{geometry_of};
ghost use Rattle.seat_work.specs.Answers.{allocated};
ghost use Rattle.pool_law.specs.declared.id.RootId.{RootId};
ghost use Rattle.seat_work.specs.Changes.{one_for};
ghost use Rattle.seat_work.specs.Works.{HasBorn};
ghost use Rattle.pool_member.specs.Counting.{counted, is_alone, known, told};
ghost use Rattle.seat_tries.specs.Allocations as tries;
ghost use Rattle.pool_member.specs.Allotting.{BearsOf, IsAllotted, IsRefused, IsTryRefused, TriesOf};
ghost use Rattle.pool_member.specs.Answers.{as_alloc, HasCause};
ghost use Rattle.pool_member.specs.Attempts.{as_try, HasTryCause};
ghost use Rattle.pool_member.specs.Threads.{Does, IsSettled, IsThread};
ghost use Rattle.pool_member.specs.Watching.{watch_next, with_next};

use crate::member::Member;
use crate::pending::Pending;
use crate::work::settling::{is_nothing, keep, settle, try_settle};
use pool_law::RootId;
use seat_work::AllocNo;
use shared_pool::SharedPool;
use std::sync::Wait;

/// Whether the thread's next allocation may go the quick way: nothing is to be put away, and it is
/// known at once that its birth is not watched.
#[inline(always)]
pub fn is_quick(member: &Member) -> bool
    ensures settled { result ≡ true → IsSettled member.now }
    ensures next { result ≡ true → watch_next member.now.watcher ≡ None }
    ensures births { result ≡ true → member.now.watcher.births < 2 ^ 32 - 1 }
{
    if !is_nothing(&member.pending) {
        return false;
    }
    member.watcher.is_quiet()
}

/// Counts a root that was born the quick way: at its place nothing is counted, and no more was told
/// of its capacity than its name says.
#[inline(always)]
pub fn count_born(member: &mut Member, root: &RootId)
    requires place { root.now.place < length member.old.account.counts }
    requires fresh { (other : RootId) → other.place ≡ root.now.place →
        counted member.old.account.counts other ≡ 0 }
    requires untold { told member.old.account.counts root.now ≤ root.now.capacity }
    requires births { member.old.watcher.births < 2 ^ 32 - 1 }
    ensures rest { member.new ≡ record member.old {
      account = record member.old.account { counts = member.new.account.counts };
      watcher = with_next member.old.watcher;
    } }
    ensures counts { (other : RootId) → counted member.new.account.counts other
        ≡ counted member.old.account.counts other + one_for root.now other }
    ensures tells { (other : RootId) →
        told member.new.account.counts other ≤ told member.old.account.counts other }
    ensures keeps { (other : RootId) → 0 < counted member.new.account.counts other →
        known member.old.account.counts other ≤ known member.new.account.counts other }
    ensures alone { (other : RootId) → IsTrue (is_alone member.new.account.counts other) →
        IsTrue (is_alone member.old.account.counts other) }
    ensures owns { (other : RootId) → 0 < counted member.old.account.counts other →
        IsTrue (is_alone member.old.account.counts other) →
        IsTrue (is_alone member.new.account.counts other) }
    ensures places { length member.new.account.counts ≡ length member.old.account.counts }
{
    member.account.counts.add_born(root);
    member.watcher.count_quiet();
}

/// A new root of `size` bytes, all 0, which the thread then counts once. `class` is that of the
/// size. It is watched where the thread's next birth is sampled, and only a root that is born is
/// counted for that. Nothing is left to put away. The quick way is its caller's, so it stands apart.
#[inline(never)]
pub fn allocate<W: Wait>(
    rt: &W,
    pool: &SharedPool,
    member: &mut Member,
    size: u32,
    class: u32,
) -> Result<RootId, AllocNo>
    requires thread { IsThread pool.now member.old }
    requires turns { 6 ≤ member.old.account.turns }
    requires class { class_of (geometry_of pool.now.table.layout.shape) size ≡ Some class }
    ensures root { IfOk result (λ root. root.capacity ≡ size) }
    ensures counts { IfOk result (λ root. 0 < counted member.new.account.counts root) }
    ensures does { Does pool.now 6 (allocated result) None member.old member.new }
    ensures moves { member.new.account.moves ≡ member.old.account.moves }
    ensures watcher { MatchResult result
        (λ _. member.new.watcher ≡ with_next member.old.watcher)
        (λ _. member.new.watcher ≡ member.old.watcher) }
    ensures settled { IsSettled member.new }
    ensures born { IfOk result (λ root. HasBorn pool.now root member.old.seat member.new.seat) }
    ensures cause { IfErr result (λ no.
        HasCause pool.now member.old member.new (as_alloc no)) }
    ensures notes { MatchResult result
        (λ root. IsAllotted pool.now size root member.old member.new)
        (λ no. IsRefused pool.now size (as_alloc no) member.old member.new) }
{
    settle(rt, pool, member);
    member.account.turns -= 6;
    let watch = member.watcher.watch();
    match seat_work::allocate(rt, pool, &mut member.seat, size, class, watch) {
        Ok(root) => {
            member.account.counts.add(root);
            member.watcher.count();
            Ok(root)
        }
        Err(no) => Err(no),
    }
}

/// The same in one try. What was begun of it, and what could not be put away before it, is kept.
pub fn try_allocate(
    pool: &SharedPool,
    member: &mut Member,
    size: u32,
    class: u32,
) -> Result<RootId, seat_tries::AllocNo>
    requires thread { IsThread pool.now member.old }
    requires turns { 6 ≤ member.old.account.turns }
    requires class { class_of (geometry_of pool.now.table.layout.shape) size ≡ Some class }
    ensures root { IfOk result (λ root. root.capacity ≡ size) }
    ensures counts { IfOk result (λ root. 0 < counted member.new.account.counts root) }
    ensures does { Does pool.now 6 (tries.allocated result) None member.old member.new }
    ensures moves { member.new.account.moves ≡ member.old.account.moves }
    ensures watcher { MatchResult result
        (λ _. member.new.watcher ≡ with_next member.old.watcher)
        (λ _. member.new.watcher ≡ member.old.watcher) }
    ensures born { IfOk result (λ root. HasBorn pool.now root member.old.seat member.new.seat) }
    ensures cause { IfErr result (λ no.
        HasTryCause pool.now member.old member.new (as_try no)) }
    ensures notes { MatchResult result
        (λ root. IsAllotted pool.now size root member.old member.new)
        (λ no. IsTryRefused pool.now size (as_try no) member.old member.new) }
{
    if try_settle(pool, member) {
        return try_allocate_settled(pool, member, size, class);
    }
    member.account.turns -= 6;
    Err(seat_tries::AllocNo::Busy)
}

// The same of a thread that has nothing to put away.
fn try_allocate_settled(
    pool: &SharedPool,
    member: &mut Member,
    size: u32,
    class: u32,
) -> Result<RootId, seat_tries::AllocNo>
    requires thread { IsThread pool.now member.old }
    requires settled { IsSettled member.old }
    requires turns { 6 ≤ member.old.account.turns }
    requires class { class_of (geometry_of pool.now.table.layout.shape) size ≡ Some class }
    ensures root { IfOk result (λ root. root.capacity ≡ size) }
    ensures counts { IfOk result (λ root. 0 < counted member.new.account.counts root) }
    ensures does { Does pool.now 6 (tries.allocated result) None member.old member.new }
    ensures moves { member.new.account.moves ≡ member.old.account.moves }
    ensures watcher { MatchResult result
        (λ _. member.new.watcher ≡ with_next member.old.watcher)
        (λ _. member.new.watcher ≡ member.old.watcher) }
    ensures born { IfOk result (λ root. HasBorn pool.now root member.old.seat member.new.seat) }
    ensures cause { IfErr result (tries.HasCause pool.now member.old.seat member.new.seat) }
    ensures notes { MatchResult result
        (λ root. let watch = watch_next member.old.watcher in
        BearsOf pool.now size watch root member.old.seat member.new.seat)
        (λ no. TriesOf pool.now size no member.old.seat member.new) }
{
    member.account.turns -= 6;
    let watch = member.watcher.watch();
    let (answer, left) = seat_tries::allocate(pool, &mut member.seat, size, class, watch);
    keep(&mut member.pending, Pending::Tried(left));
    match answer {
        Ok(root) => {
            member.account.counts.add(root);
            member.watcher.count();
            Ok(root)
        }
        Err(no) => Err(no),
    }
}
