//! How a thread changes the bytes of a root in place. Each change is one note at the root's place: a
//! set of all the bytes that were lent, over those that a get would have got.

ghost use Rattle.std.specs.Prelude.{◌≡◌, ℕ, ◌+◌, ◌<◌, ◌≤◌, List, length, IfErr, IfOk, Some};
ghost use Rattle.std.specs.Fn.{FnOnceReturnsAtMut};
ghost use Rattle.shared_pool.specs.RootNotes.{IsSetOver};
ghost use Rattle.seat_work.specs.Changes.{no_change};
ghost use Rattle.pool_member.specs.Alone.{LaysOver};
ghost use Rattle.pool_member.specs.Counting.{counted, known};
ghost use Rattle.pool_member.specs.Threads.{Does, IsThread};
ghost use Rattle.pool_member.specs.Tries.{HasSetOver, StaysOut};

use crate::member::Member;
use pool_law::RootId;
use shared_pool::{SharedPool, Went};
use std::sync::Wait;

/// `f` is called once with bytes of the root in place, from an offset on, or it comes back. It is
/// noted as a set of all of them, to what `f` left.
#[inline(always)]
pub fn try_with_bytes_mut<R, F: FnOnce(&mut [u8]) -> R>(
    pool: &SharedPool,
    member: &mut Member,
    root: RootId,
    offset: u32,
    len: u32,
    f: F,
) -> Result<R, F>
    requires thread { IsThread pool.now member.old }
    requires counts { 0 < counted member.old.account.counts root }
    requires turns { 1 ≤ member.old.account.turns }
    requires range { offset + len ≤ known member.old.account.counts root }
    requires callable { F.IsAlwaysCallable f }
    ensures set { IfOk result (λ answer. (before : List ℕ) × (bytes : List ℕ)
        × (length before ≡ len) × (length bytes ≡ len)
        × FnOnceReturnsAtMut F.FnOnce f before answer bytes
        × HasSetOver pool.now root offset before bytes member.old member.new) }
    ensures back { IfErr result (λ back. (back ≡ f)
        × StaysOut pool.now root member.old member.new) }
{
    match pool.with_bytes_mut(&mut member.seat, root, offset, len, f) {
        Went::Did(_number, answer) => {
            member.account.turns -= 1;
            Ok(answer)
        }
        Went::Held(_held, back) => Err(back),
    }
}

/// The same, as often as another seat is in the way.
pub fn with_bytes_mut<W: Wait, R, F: FnOnce(&mut [u8]) -> R>(
    rt: &W,
    pool: &SharedPool,
    member: &mut Member,
    root: RootId,
    offset: u32,
    len: u32,
    f: F,
) -> R
    requires thread { IsThread pool.now member.old }
    requires counts { 0 < counted member.old.account.counts root }
    requires turns { 1 ≤ member.old.account.turns }
    requires range { offset + len ≤ known member.old.account.counts root }
    requires callable { F.IsAlwaysCallable f }
    ensures does { Does pool.now 1 no_change (Some root) member.old member.new }
    ensures moves { member.new.account.moves ≡ member.old.account.moves }
    ensures set { (before : List ℕ) × (bytes : List ℕ) × (number : ℕ)
        × (length before ≡ len) × (length bytes ≡ len)
        × FnOnceReturnsAtMut F.FnOnce f before result bytes
        × IsSetOver pool.now member.old.seat member.new.seat root number offset before bytes
        × LaysOver root offset bytes member.old member.new }
{
    let mut f = f;
    for _ in rt.forever() {
        match try_with_bytes_mut(pool, member, root, offset, len, f) {
            Ok(answer) => return answer,
            Err(back) => f = back,
        }
    }
    unreachable!()
}
