//! How a thread asks a root for capacity.

ghost use Rattle.std.specs.Prelude.{◌≡◌, ◌<◌, ◌≤◌, Some, IfErr, IfOk};
ghost use Rattle.size_classes.specs.Sizes.{class_of};
ghost use Rattle.pool_law.specs.Limits.{geometry_of};
ghost use Rattle.pool_law.specs.Views.{most_capacity};
ghost use Rattle.seat_work.specs.Regrowths.{grown, reply_of, IsTold};
ghost use Rattle.pool_member.specs.Alone.{GrowsAlone};
ghost use Rattle.pool_member.specs.Counting.{counted, known};
ghost use Rattle.pool_member.specs.Growing.{AsksOf, GrowsOf, IsAsked, IsGrown};
ghost use Rattle.pool_member.specs.Growths.{asked, MayRefuseAsked};
ghost use Rattle.pool_member.specs.Threads.{Does, IsSettled, IsThread};

use crate::member::Member;
use crate::work::attempted::{self, AskNo};
use crate::work::settling::{keep, settle, try_settle};
use pool_law::RootId;
use seat_work::GrowNo;
use shared_pool::SharedPool;
use std::sync::Wait;

/// The root has a capacity of at least `size` from now on, and the thread knows of what is answered.
/// `class` is that of the size. Nothing is left to put away.
pub fn grow<W: Wait>(
    rt: &W,
    pool: &SharedPool,
    member: &mut Member,
    root: RootId,
    size: u32,
    class: u32,
) -> Result<u32, GrowNo>
    requires thread { IsThread pool.now member.old }
    requires counts { 0 < counted member.old.account.counts root }
    requires turns { 6 ≤ member.old.account.turns }
    requires class { class_of (geometry_of pool.now.table.layout.shape) size ≡ Some class }
    ensures does { Does pool.now 6 (grown result) (Some root) member.old member.new }
    ensures settled { IsSettled member.new }
    ensures alone { GrowsAlone root member.old member.new }
    ensures moves { member.new.account.moves ≡ member.old.account.moves }
    ensures counts { 0 < counted member.new.account.counts root }
    ensures enough { IfOk result (λ capacity. (size ≤ capacity) × (capacity ≤ most_capacity)) }
    ensures knows { IfOk result (λ capacity. (known member.old.account.counts root ≤ capacity)
        × (capacity ≤ known member.new.account.counts root)) }
    ensures told { IfOk result (λ capacity.
        IsTold pool.now root capacity member.old.seat member.new.seat) }
    ensures notes { IsGrown pool.now root size (reply_of result) member.old member.new }
{
    settle(rt, pool, member);
    grow_settled(rt, pool, member, root, size, class)
}

// The same of a thread that has nothing to put away.
fn grow_settled<W: Wait>(
    rt: &W,
    pool: &SharedPool,
    member: &mut Member,
    root: RootId,
    size: u32,
    class: u32,
) -> Result<u32, GrowNo>
    requires thread { IsThread pool.now member.old }
    requires settled { IsSettled member.old }
    requires counts { 0 < counted member.old.account.counts root }
    requires turns { 6 ≤ member.old.account.turns }
    requires class { class_of (geometry_of pool.now.table.layout.shape) size ≡ Some class }
    ensures does { Does pool.now 6 (grown result) (Some root) member.old member.new }
    ensures settled { IsSettled member.new }
    ensures alone { GrowsAlone root member.old member.new }
    ensures moves { member.new.account.moves ≡ member.old.account.moves }
    ensures counts { 0 < counted member.new.account.counts root }
    ensures enough { IfOk result (λ capacity. (size ≤ capacity) × (capacity ≤ most_capacity)) }
    ensures knows { IfOk result (λ capacity. (known member.old.account.counts root ≤ capacity)
        × (capacity ≤ known member.new.account.counts root)) }
    ensures told { IfOk result (λ capacity.
        IsTold pool.now root capacity member.old.seat member.new.seat) }
    ensures notes { GrowsOf pool.now root size (reply_of result) member.old.seat member.new }
{
    member.account.turns -= 6;
    match seat_work::grow(rt, pool, &mut member.seat, root, size, class) {
        Ok(capacity) => {
            member.account.counts.tell(root, capacity);
            Ok(capacity)
        }
        Err(no) => Err(no),
    }
}

/// The same in one try. What was begun of it, and what could not be put away before it, is kept.
pub fn try_grow(
    pool: &SharedPool,
    member: &mut Member,
    root: RootId,
    size: u32,
    class: u32,
) -> Result<u32, AskNo>
    requires thread { IsThread pool.now member.old }
    requires counts { 0 < counted member.old.account.counts root }
    requires turns { 6 ≤ member.old.account.turns }
    requires class { class_of (geometry_of pool.now.table.layout.shape) size ≡ Some class }
    ensures does { Does pool.now 6 (asked result) (Some root) member.old member.new }
    ensures alone { GrowsAlone root member.old member.new }
    ensures moves { member.new.account.moves ≡ member.old.account.moves }
    ensures counts { 0 < counted member.new.account.counts root }
    ensures enough { IfOk result (λ capacity. (size ≤ capacity) × (capacity ≤ most_capacity)) }
    ensures knows { IfOk result (λ capacity. (known member.old.account.counts root ≤ capacity)
        × (capacity ≤ known member.new.account.counts root)) }
    ensures told { IfOk result (λ capacity.
        IsTold pool.now root capacity member.old.seat member.new.seat) }
    ensures notes { IsAsked pool.now root size result member.old member.new }
    ensures cause { IfErr result (MayRefuseAsked pool.now root member.old.seat member.new.seat) }
{
    if try_settle(pool, member) {
        return try_grow_settled(pool, member, root, size, class);
    }
    member.account.turns -= 6;
    Err(AskNo::Busy)
}

// The same of a thread that has nothing to put away.
fn try_grow_settled(
    pool: &SharedPool,
    member: &mut Member,
    root: RootId,
    size: u32,
    class: u32,
) -> Result<u32, AskNo>
    requires thread { IsThread pool.now member.old }
    requires settled { IsSettled member.old }
    requires counts { 0 < counted member.old.account.counts root }
    requires turns { 6 ≤ member.old.account.turns }
    requires class { class_of (geometry_of pool.now.table.layout.shape) size ≡ Some class }
    ensures does { Does pool.now 6 (asked result) (Some root) member.old member.new }
    ensures alone { GrowsAlone root member.old member.new }
    ensures moves { member.new.account.moves ≡ member.old.account.moves }
    ensures counts { 0 < counted member.new.account.counts root }
    ensures enough { IfOk result (λ capacity. (size ≤ capacity) × (capacity ≤ most_capacity)) }
    ensures knows { IfOk result (λ capacity. (known member.old.account.counts root ≤ capacity)
        × (capacity ≤ known member.new.account.counts root)) }
    ensures told { IfOk result (λ capacity.
        IsTold pool.now root capacity member.old.seat member.new.seat) }
    ensures notes { AsksOf pool.now root size result member.old.seat member.new }
    ensures cause { IfErr result (MayRefuseAsked pool.now root member.old.seat member.new.seat) }
{
    member.account.turns -= 6;
    let (answer, left) = attempted::ask(pool, &mut member.seat, root, size, class);
    keep(&mut member.pending, left);
    match answer {
        Ok(capacity) => {
            member.account.counts.tell(root, capacity);
            Ok(capacity)
        }
        Err(no) => Err(no),
    }
}
