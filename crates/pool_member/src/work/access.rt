//! How a thread accesses the bytes of a root. Each access is one note at the root's place. A try
//! makes one step, and did nothing where another thread was there; the others make it until it is
//! done.

ghost use Rattle.std.specs.Prelude.{◌≡◌, ℕ, ◌+◌, ◌<◌, ◌≤◌, List, length, IfErr, IfOk, MatchBool, None, Some};
ghost use Rattle.std.specs.Fn.{FnOnceReturnsAt};
ghost use Rattle.pool_law.specs.declared.note.Did.{Did};
ghost use Rattle.pool_law.specs.declared.note.Object.TheVariants.{Root};
ghost use Rattle.pool_law.specs.Roots.{bytes_at};
ghost use Rattle.shared_pool.specs.RootNotes.{access};
ghost use Rattle.shared_pool.specs.Seats.{IsNoted};
ghost use Rattle.seat_work.specs.Changes.{no_change};
ghost use Rattle.pool_member.specs.Alone.{laid_in, AreLaid, IsAlone, LaysOver};
ghost use Rattle.pool_member.specs.Counting.{counted, known};
ghost use Rattle.pool_member.specs.Threads.{Does, IsThread};
ghost use Rattle.pool_member.specs.Tries.{HasAccessed, StaysOut};

use crate::counts::in_parts;
use crate::member::Member;
use pool_law::RootId;
use shared_pool::{SharedPool, Went};
use std::sync::Wait;

/// Bytes are laid over those of the root, from an offset on, or it is false.
#[inline(always)]
pub fn try_set(
    pool: &SharedPool,
    member: &mut Member,
    root: &RootId,
    offset: u32,
    bytes: &[u8],
) -> bool
    requires thread { IsThread pool.now member.old }
    requires counts { 0 < counted member.old.account.counts root.now }
    requires turns { 1 ≤ member.old.account.turns }
    requires range { offset + length bytes.now ≤ known member.old.account.counts root.now }
    ensures { MatchBool result
        (let did = Did.Set offset bytes.now in
        HasAccessed pool.now root.now did (Some root.now) member.old member.new
        × LaysOver root.now offset bytes.now member.old member.new)
        (StaysOut pool.now root.now member.old member.new) }
{
    match pool.write(&mut member.seat, in_parts(root), offset, bytes, false) {
        Went::Did(_number, ()) => {
            member.account.turns -= 1;
            true
        }
        Went::Held(_held, ()) => false,
    }
}

/// The same, as often as another seat is in the way. Here the copy of the root is made that goes to
/// the call, and not at the head of each access.
#[inline(always)]
pub fn wait_to_set<W: Wait>(
    rt: &W,
    pool: &SharedPool,
    member: &mut Member,
    root: &RootId,
    offset: u32,
    bytes: &[u8],
)
    requires thread { IsThread pool.now member.old }
    requires counts { 0 < counted member.old.account.counts root.now }
    requires turns { 1 ≤ member.old.account.turns }
    requires range { offset + length bytes.now ≤ known member.old.account.counts root.now }
    ensures does { Does pool.now 1 no_change (Some root.now) member.old member.new }
    ensures laid { LaysOver root.now offset bytes.now member.old member.new }
    ensures moves { member.new.account.moves ≡ member.old.account.moves }
    ensures noted { (number : ℕ) × IsNoted pool.now member.old.seat member.new.seat
        (Root root.now.place) number (access root.now (Did.Set offset bytes.now)) }
{
    set_apart(rt, pool, member, in_parts(root), offset, bytes);
}

// The same: seldom, so apart.
#[inline(never)]
fn set_apart<W: Wait>(
    rt: &W,
    pool: &SharedPool,
    member: &mut Member,
    root: RootId,
    offset: u32,
    bytes: &[u8],
)
    requires thread { IsThread pool.now member.old }
    requires counts { 0 < counted member.old.account.counts root }
    requires turns { 1 ≤ member.old.account.turns }
    requires range { offset + length bytes.now ≤ known member.old.account.counts root }
    ensures does { Does pool.now 1 no_change (Some root) member.old member.new }
    ensures laid { LaysOver root offset bytes.now member.old member.new }
    ensures moves { member.new.account.moves ≡ member.old.account.moves }
    ensures noted { (number : ℕ) × IsNoted pool.now member.old.seat member.new.seat
        (Root root.place) number (access root (Did.Set offset bytes.now)) }
{
    for _ in rt.forever() {
        if try_set(pool, member, &root, offset, bytes) {
            return;
        }
    }
    unreachable!()
}

/// Bytes of the root are copied out, from an offset on, or it is false.
#[inline(always)]
pub fn try_get(
    pool: &SharedPool,
    member: &mut Member,
    root: &RootId,
    offset: u32,
    out: &mut [u8],
) -> bool
    requires thread { IsThread pool.now member.old }
    requires counts { 0 < counted member.old.account.counts root.now }
    requires turns { 1 ≤ member.old.account.turns }
    requires range { offset + length out.old ≤ known member.old.account.counts root.now }
    ensures tried { MatchBool result
        (HasAccessed pool.now root.now (Did.Get offset out.new) None member.old member.new
        × AreLaid member.old root.now offset out.new)
        (StaysOut pool.now root.now member.old member.new × (out.new ≡ out.old)) }
    ensures len { length out.new ≡ length out.old }
{
    match pool.read(&mut member.seat, in_parts(root), offset, out, false) {
        Went::Did(_number, ()) => {
            member.account.turns -= 1;
            true
        }
        Went::Held(_held, ()) => false,
    }
}

/// The same, as often as another seat is in the way. Here the copy of the root is made that goes to
/// the call, and not at the head of each access.
#[inline(always)]
pub fn wait_to_get<W: Wait>(
    rt: &W,
    pool: &SharedPool,
    member: &mut Member,
    root: &RootId,
    offset: u32,
    out: &mut [u8],
)
    requires thread { IsThread pool.now member.old }
    requires counts { 0 < counted member.old.account.counts root.now }
    requires turns { 1 ≤ member.old.account.turns }
    requires range { offset + length out.old ≤ known member.old.account.counts root.now }
    ensures does { Does pool.now 1 no_change None member.old member.new }
    ensures own { AreLaid member.old root.now offset out.new }
    ensures moves { member.new.account.moves ≡ member.old.account.moves }
    ensures len { length out.new ≡ length out.old }
    ensures noted { (number : ℕ) × IsNoted pool.now member.old.seat member.new.seat
        (Root root.now.place) number (access root.now (Did.Get offset out.new)) }
{
    get_apart(rt, pool, member, in_parts(root), offset, out);
}

// The same: seldom, so apart.
#[inline(never)]
fn get_apart<W: Wait>(
    rt: &W,
    pool: &SharedPool,
    member: &mut Member,
    root: RootId,
    offset: u32,
    out: &mut [u8],
)
    requires thread { IsThread pool.now member.old }
    requires counts { 0 < counted member.old.account.counts root }
    requires turns { 1 ≤ member.old.account.turns }
    requires range { offset + length out.old ≤ known member.old.account.counts root }
    ensures does { Does pool.now 1 no_change None member.old member.new }
    ensures own { AreLaid member.old root offset out.new }
    ensures moves { member.new.account.moves ≡ member.old.account.moves }
    ensures len { length out.new ≡ length out.old }
    ensures noted { (number : ℕ) × IsNoted pool.now member.old.seat member.new.seat
        (Root root.place) number (access root (Did.Get offset out.new)) }
{
    for _ in rt.forever() {
        if try_get(pool, member, &root, offset, out) {
            return;
        }
    }
    unreachable!()
}

/// `f` is called once with bytes of the root, from an offset on, and none are copied, or it comes
/// back. It is noted as a get of all of them.
#[inline(always)]
pub fn try_with_bytes<R, F: FnOnce(&[u8]) -> R>(
    pool: &SharedPool,
    member: &mut Member,
    root: RootId,
    offset: u32,
    len: u32,
    f: F,
) -> Result<R, F>
    requires thread { IsThread pool.now member.old }
    requires counts { 0 < counted member.old.account.counts root }
    requires turns { 1 ≤ member.old.account.turns }
    requires range { offset + len ≤ known member.old.account.counts root }
    requires callable { F.IsAlwaysCallable f }
    ensures shown { IfOk result (λ answer. (bytes : List ℕ) × (length bytes ≡ len)
        × FnOnceReturnsAt F.FnOnce f bytes answer
        × HasAccessed pool.now root (Did.Get offset bytes) None member.old member.new) }
    ensures own { IfOk result (λ answer. IsAlone member.old root →
        FnOnceReturnsAt F.FnOnce f (bytes_at (laid_in member.old root) offset len) answer) }
    ensures back { IfErr result (λ back. (back ≡ f)
        × StaysOut pool.now root member.old member.new) }
{
    match pool.with_bytes(&mut member.seat, root, offset, len, f) {
        Went::Did(_number, answer) => {
            member.account.turns -= 1;
            Ok(answer)
        }
        Went::Held(_held, back) => Err(back),
    }
}

/// `f` is called once with bytes of the root, from an offset on, and none are copied. It is noted
/// as a get of all of them.
pub fn with_bytes<W: Wait, R, F: FnOnce(&[u8]) -> R>(
    rt: &W,
    pool: &SharedPool,
    member: &mut Member,
    root: RootId,
    offset: u32,
    len: u32,
    f: F,
) -> R
    requires thread { IsThread pool.now member.old }
    requires counts { 0 < counted member.old.account.counts root }
    requires turns { 1 ≤ member.old.account.turns }
    requires range { offset + len ≤ known member.old.account.counts root }
    requires callable { F.IsAlwaysCallable f }
    ensures does { Does pool.now 1 no_change None member.old member.new }
    ensures own { IsAlone member.old root →
        FnOnceReturnsAt F.FnOnce f (bytes_at (laid_in member.old root) offset len) result }
    ensures moves { member.new.account.moves ≡ member.old.account.moves }
    ensures shown { (bytes : List ℕ) × (number : ℕ) × (length bytes ≡ len)
        × FnOnceReturnsAt F.FnOnce f bytes result
        × IsNoted pool.now member.old.seat member.new.seat (Root root.place) number
        (access root (Did.Get offset bytes)) }
{
    let mut f = f;
    for _ in rt.forever() {
        match try_with_bytes(pool, member, root, offset, len, f) {
            Ok(answer) => return answer,
            Err(back) => f = back,
        }
    }
    unreachable!()
}

/// It is noted that the root was touched, or it is false.
pub fn try_touch(pool: &SharedPool, member: &mut Member, root: RootId) -> bool
    requires thread { IsThread pool.now member.old }
    requires counts { 0 < counted member.old.account.counts root }
    requires turns { 1 ≤ member.old.account.turns }
    ensures { MatchBool result
        (HasAccessed pool.now root Did.Touch None member.old member.new)
        (StaysOut pool.now root member.old member.new) }
{
    match pool.touch(&mut member.seat, root) {
        Went::Did(_number, ()) => {
            member.account.turns -= 1;
            true
        }
        Went::Held(_held, ()) => false,
    }
}

/// It is noted that the root was touched.
pub fn touch<W: Wait>(rt: &W, pool: &SharedPool, member: &mut Member, root: RootId)
    requires thread { IsThread pool.now member.old }
    requires counts { 0 < counted member.old.account.counts root }
    requires turns { 1 ≤ member.old.account.turns }
    ensures does { Does pool.now 1 no_change None member.old member.new }
    ensures moves { member.new.account.moves ≡ member.old.account.moves }
    ensures noted { (number : ℕ) × IsNoted pool.now member.old.seat member.new.seat
        (Root root.place) number (access root Did.Touch) }
{
    for _ in rt.forever() {
        if try_touch(pool, member, root) {
            return;
        }
    }
    unreachable!()
}
