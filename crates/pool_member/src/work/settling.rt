//! How a thread goes on with what it has still to put away.

ghost use Rattle.std.specs.Prelude.{◌≡◌, ◌+◌, ◌<◌, ◌≤◌, ◌^◌, ◌↔◌, false, IsTrue, None, Some};
ghost use Rattle.pool_law.specs.Patterns.{give_back};
ghost use Rattle.shared_pool.specs.SeatViews.{view_of};
ghost use Rattle.seat_work.specs.Answers.{hand_with};
ghost use Rattle.seat_work.specs.Hands.{IsRegion};
ghost use Rattle.seat_work.specs.Readings.{NotesOn};
ghost use Rattle.seat_work.specs.Works.{Works};
ghost use Rattle.seat_tries.specs.Leaving.{MeetsOther};
ghost use Rattle.seat_tries.specs.Taking.{taken};
ghost use Rattle.pool_member.specs.Pendings.{hand_of, left_of, nothing, owed, IsPending, PutsAway};
ghost use Rattle.pool_member.specs.Returns.{given, given_with};
ghost use Rattle.pool_member.specs.Threads.{IsSettled, IsThread, Settles, with_turns};

use crate::member::Member;
use crate::pending::{Pending, Unsettled};
use crate::work::turns::give_back;
use pool_law::Region;
use seat_tries::{Begun, finish};
use shared_pool::{PoolSeat, SharedPool, Went};
use std::mem::replace;
use std::sync::Wait;

/// Nothing is to be put away.
pub(crate) const fn nothing() -> Pending
    ensures { result ≡ nothing }
{
    Pending::Tried(Begun::Nothing)
}

/// Whether nothing is to be put away.
#[inline(always)]
pub fn is_nothing(pending: &Unsettled) -> bool
    ensures { IsTrue result ↔ (pending.now ≡ nothing) }
{
    pending.is_nothing()
}

/// What is left takes the place of nothing.
pub(crate) fn keep(pending: &mut Unsettled, left: Pending)
    requires { pending.old ≡ nothing }
    ensures { pending.new ≡ left }
{
    spend(replace(pending, Unsettled::new(left)).into_pending());
}

/// Lets nothing go.
pub(crate) fn spend(pending: Pending)
    requires { pending ≡ nothing }
{
    match pending {
        Pending::Tried(Begun::Nothing) => (),
        Pending::Tried(Begun::Place(_handle)) => unreachable!(),
        Pending::Tried(Begun::Both(_handle, _region)) => unreachable!(),
        Pending::Piece(_region) => unreachable!(),
    }
}

// The seat tries to put this away, and answers what is left of it.
fn put_away(pool: &SharedPool, seat: &mut PoolSeat, pending: Pending) -> Pending
    requires works { Works pool.now (hand_of pending) (owed pending) 0 seat.old }
    requires pending { IsPending pool.now seat.old pending }
    ensures away { PutsAway pool.now (owed pending) seat.old seat.new result }
    ensures returned { given_with seat.old pending ≤ given_with seat.new result }
    ensures took { taken seat.new ≡ taken seat.old }
{
    match pending {
        Pending::Tried(begun) => Pending::Tried(finish(pool, seat, begun)),
        Pending::Piece(region) => give(pool, seat, region),
    }
}

/// The region goes back to its arena, or is left.
pub(crate) fn give(pool: &SharedPool, seat: &mut PoolSeat, own: Region) -> Pending
    requires works { Works pool.now (hand_with None (Some own)) 1 0 seat.old }
    requires region { IsRegion pool.now seat.old own }
    ensures away { PutsAway pool.now 1 seat.old seat.new result }
    ensures returned { given seat.old + 1 ≤ given_with seat.new result }
    ensures took { taken seat.new ≡ taken seat.old }
    ensures reads { NotesOn (give_back own.id) (left_of result)
        (view_of seat.old) (view_of seat.new) }
{
    match pool.give(seat, own) {
        Went::Did(_number, ()) => nothing(),
        Went::Held(_held, region) => Pending::Piece(region),
    }
}

/// Tries to put away what the thread has to. True where nothing of it is left.
pub fn try_settle(pool: &SharedPool, member: &mut Member) -> bool
    requires thread { IsThread pool.now member.old }
    ensures settles { Settles pool.now member.old member.new }
    ensures settled { IsTrue result ↔ IsSettled member.new }
    ensures cause { result ≡ false → MeetsOther pool.now member.old.seat member.new.seat }
{
    if is_nothing(&member.pending) {
        return true;
    }
    let pending = replace(&mut member.pending, Unsettled::nothing()).into_pending();
    let left = put_away(pool, &mut member.seat, pending);
    let settled = left.is_nothing();
    keep(&mut member.pending, left);
    settled
}

/// Puts away what the thread has to.
#[inline(always)]
pub fn settle<W: Wait>(rt: &W, pool: &SharedPool, member: &mut Member)
    requires thread { IsThread pool.now member.old }
    ensures settles { Settles pool.now member.old member.new }
    ensures settled { IsSettled member.new }
{
    if !is_nothing(&member.pending) {
        wait_to_settle(rt, pool, member);
    }
}

/// The same of a thread that has something to put away, and has taken so many turns of the call that
/// goes on behind. Seldom, so apart.
#[inline(never)]
pub fn settle_between<W: Wait>(rt: &W, pool: &SharedPool, member: &mut Member, turns: u64)
    requires thread { IsThread pool.now (with_turns turns member.old) }
    requires turns { member.old.account.turns + turns < 2 ^ 64 }
    ensures settles { Settles pool.now (with_turns turns member.old) (with_turns turns member.new) }
    ensures settled { IsSettled member.new }
{
    give_back(member, turns);
    wait_to_settle(rt, pool, member);
    member.account.turns -= turns;
}

// The same of a thread that has something to put away.
#[inline(never)]
fn wait_to_settle<W: Wait>(rt: &W, pool: &SharedPool, member: &mut Member)
    requires thread { IsThread pool.now member.old }
    ensures settles { Settles pool.now member.old member.new }
    ensures settled { IsSettled member.new }
{
    for _ in rt.forever() {
        if try_settle(pool, member) {
            return;
        }
    }
    unreachable!()
}
