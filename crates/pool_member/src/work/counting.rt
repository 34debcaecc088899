//! How a thread counts a root once more and once less, and how often all threads count it.

ghost use Rattle.std.specs.Prelude.{◌≡◌, ◌+◌, ◌<◌, ◌≤◌, length, IfSome, IfNone, None};
ghost use Rattle.pool_law.specs.declared.id.RootId.{RootId};
ghost use Rattle.pool_law.specs.declared.note.RefDid.TheVariants.{Look};
ghost use Rattle.pool_table.specs.Counts.{with_ref};
ghost use Rattle.shared_pool.specs.SeatViews.{HasView, view_of};
ghost use Rattle.seat_work.specs.Changes.{no_change, once_less, once_more, one_for};
ghost use Rattle.seat_tries.specs.Leaving.{MeetsOther};
ghost use Rattle.pool_member.specs.Counting.{counted, is_alone, told};
ghost use Rattle.pool_member.specs.Threads.{Does, IsSettled, IsThread, moves_after, Settles};

use crate::member::Member;
use crate::pending::Pending;
use crate::work::settling::{keep, try_settle};
use pool_law::RootId;
use shared_pool::SharedPool;

/// The moves of all threads of a pool together are below this.
const MOST_MOVES: u32 = 1_073_741_824;

/// The thread counts the root once more, for one of its moves.
pub fn retain(pool: &SharedPool, member: &mut Member, root: RootId)
    requires thread { IsThread pool.now member.old }
    requires counts { 0 < counted member.old.account.counts root }
    requires turns { 1 ≤ member.old.account.turns }
    requires moves { 1 ≤ member.old.account.moves }
    ensures does { Does pool.now 1 (once_more root) None member.old member.new }
    ensures moves { member.new.account.moves + 1 ≡ member.old.account.moves }
{
    member.account.turns -= 1;
    member.account.moves -= 1;
    pool.retain(&mut member.seat, root);
    member.account.counts.add(root);
}

/// The thread counts a root once less that its seat released: what follows the step. The move comes
/// back where that wasn't the last count.
#[inline(always)]
pub fn count_less(member: &mut Member, root: &RootId, last: bool)
    requires { 0 < counted member.old.account.counts root.now }
    ensures rest { member.new ≡ record member.old {
      account = record member.old.account {
        moves = moves_after last member.old.account.moves;
        counts = member.new.account.counts;
      };
    } }
    ensures counts { (other : RootId) → counted member.new.account.counts other
        + one_for root.now other ≡ counted member.old.account.counts other }
    ensures tells { (other : RootId) →
        told member.new.account.counts other ≡ told member.old.account.counts other }
    ensures alone { (other : RootId) →
        is_alone member.new.account.counts other ≡ is_alone member.old.account.counts other }
    ensures places { length member.new.account.counts ≡ length member.old.account.counts }
{
    member.account.counts.take(root);
    regain(&mut member.account.moves, last);
}

/// The thread counts the root once less, in one try. True exactly where that was the last count of all
/// threads and parcels. None where the thread has something to put away that it could not; where
/// the root ended, something may be left.
pub fn try_release(pool: &SharedPool, member: &mut Member, root: RootId) -> Option<bool>
    requires thread { IsThread pool.now member.old }
    requires counts { 0 < counted member.old.account.counts root }
    requires turns { 4 ≤ member.old.account.turns }
    ensures does { IfSome result (λ last.
        Does pool.now 4 (once_less root last) None member.old member.new) }
    ensures moves { IfSome result (λ last.
        member.new.account.moves ≡ moves_after last member.old.account.moves) }
    ensures settles { IfNone result (Settles pool.now member.old member.new) }
    ensures cause { IfNone result (MeetsOther pool.now member.old.seat member.new.seat) }
{
    if try_settle(pool, member) {
        Some(try_release_settled(pool, member, root))
    } else {
        None
    }
}

// The thread, which has nothing to put away, counts the root once less.
fn try_release_settled(pool: &SharedPool, member: &mut Member, root: RootId) -> bool
    requires thread { IsThread pool.now member.old }
    requires settled { IsSettled member.old }
    requires counts { 0 < counted member.old.account.counts root }
    requires turns { 4 ≤ member.old.account.turns }
    ensures does { Does pool.now 4 (once_less root result) None member.old member.new }
    ensures moves { member.new.account.moves ≡ moves_after result member.old.account.moves }
{
    member.account.turns -= 4;
    let (last, left) = seat_tries::release(pool, &mut member.seat, root);
    member.account.counts.take(&root);
    regain(&mut member.account.moves, last);
    keep(&mut member.pending, Pending::Tried(left));
    last
}

// The move that a release gives back, where it wasn't the last one.
#[inline(always)]
fn regain(moves: &mut u32, last: bool)
    ensures { moves.new ≡ moves_after last moves.old }
{
    if !last && *moves < MOST_MOVES {
        *moves += 1;
    }
}

/// The count of the root over all threads and parcels, as this one step found it.
pub fn look(pool: &SharedPool, member: &mut Member, root: RootId) -> u32
    requires thread { IsThread pool.now member.old }
    requires counts { 0 < counted member.old.account.counts root }
    ensures does { Does pool.now 0 no_change None member.old member.new }
    ensures account { member.new.account ≡ member.old.account }
    ensures looked { let v = view_of member.old.seat in
        HasView member.new.seat (with_ref v root (Look result) v.moves) }
{
    pool.look(&mut member.seat, root)
}
