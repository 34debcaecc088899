//! How a thread gives what its caches keep back to the arenas.

ghost use Rattle.std.specs.Prelude.{◌≡◌, ◌<◌, false, if◌then◌else◌, IfErr, MatchResult, Ok, OnErr, OnOk};
ghost use Rattle.pool_law.specs.Limits.{cached_classes};
ghost use Rattle.seat_work.specs.Hands.{empty_hand};
ghost use Rattle.seat_work.specs.Works.{Works};
ghost use Rattle.seat_tries.specs.Taking.{taken};
ghost use Rattle.pool_member.specs.Threads.{IsSettled, IsThread};
ghost use Rattle.pool_member.specs.Trims.{AreEmpty, FindsEmpty, HasPaid, HasShed, HasTrimmed, MayStop};

use crate::answers::{TrimNo, TryTrimNo};
use crate::member::Member;
use crate::pending::Pending;
use crate::work::settling::{give, keep, settle, try_settle};
use shared_pool::{PoolSeat, SharedPool, Went};
use size_classes::CACHED_CLASSES;
use std::sync::Wait;

/// How many turns it takes to give a region back, to find a cache empty, or to mark that another
/// seat is in it.
const SHED_TURNS: u64 = 2;

/// What a step at a cache found.
pub enum Shed {
    /// A region, which goes to its arena, or is left on the way.
    One(Pending),
    /// Nothing.
    Empty,
    /// Another seat.
    Busy,
}

// The seat gives one region of its lane's cache of a class back.
fn shed_one(pool: &SharedPool, seat: &mut PoolSeat, class: u32) -> Shed
    requires works { Works pool.now empty_hand 2 0 seat.old }
    requires class { class < cached_classes }
    ensures shed { HasShed pool.now class seat.old seat.new result }
    ensures took { taken seat.new ≡ taken seat.old }
{
    match pool.pop_cached(seat, class) {
        Went::Did(_number, Some(region)) => Shed::One(give(pool, seat, region)),
        Went::Did(_number, None) => Shed::Empty,
        Went::Held(_held, ()) => Shed::Busy,
    }
}

// The thread gives one region of its cache of a class back. False where the cache was empty.
fn give_one(pool: &SharedPool, member: &mut Member, class: u32) -> Result<bool, TryTrimNo>
    requires thread { IsThread pool.now member.old }
    requires settled { IsSettled member.old }
    requires class { class < cached_classes }
    ensures trimmed { HasTrimmed pool.now member.old member.new }
    ensures took { OnOk result (member.new.account.turns < member.old.account.turns) }
    ensures settled { OnOk result (IsSettled member.new) }
    ensures empty { result ≡ Ok false → FindsEmpty pool.now class member.old.seat member.new.seat }
    ensures paid { MatchResult result
        (λ gave. HasPaid (if gave then 0 else 1) member.old member.new)
        (λ _. HasPaid 0 member.old member.new) }
    ensures cause { IfErr result (MayStop pool.now member.old member.new) }
{
    if member.account.turns < SHED_TURNS {
        return Err(TryTrimNo::Spent);
    }
    member.account.turns -= SHED_TURNS;
    match shed_one(pool, &mut member.seat, class) {
        Shed::One(left) => {
            let ended = left.is_nothing();
            keep(&mut member.pending, left);
            if ended {
                Ok(true)
            } else {
                Err(TryTrimNo::Busy)
            }
        }
        Shed::Empty => Ok(false),
        Shed::Busy => Err(TryTrimNo::Busy),
    }
}

// The thread gives all that its cache of a class keeps back.
fn try_empty(pool: &SharedPool, member: &mut Member, class: u32) -> Result<(), TryTrimNo>
    requires thread { IsThread pool.now member.old }
    requires settled { IsSettled member.old }
    requires class { class < cached_classes }
    ensures trimmed { HasTrimmed pool.now member.old member.new }
    ensures settled { OnOk result (IsSettled member.new) }
    ensures empty { OnOk result (FindsEmpty pool.now class member.old.seat member.new.seat) }
    ensures paid { MatchResult result
        (λ _. HasPaid 1 member.old member.new)
        (λ _. HasPaid 0 member.old member.new) }
    ensures cause { IfErr result (MayStop pool.now member.old member.new) }
{
    for _step in 0..member.account.turns {
        match give_one(pool, member, class) {
            Ok(gave) => {
                if !gave {
                    return Ok(());
                }
            }
            Err(no) => return Err(no),
        }
    }
    Err(TryTrimNo::Spent)
}

/// The thread gives all that its caches keep back, by one try of each step.
pub fn try_trim(pool: &SharedPool, member: &mut Member) -> Result<(), TryTrimNo>
    requires thread { IsThread pool.now member.old }
    ensures trimmed { HasTrimmed pool.now member.old member.new }
    ensures settled { OnOk result (IsSettled member.new) }
    ensures empty { OnOk result
        (AreEmpty pool.now cached_classes member.old.seat member.new.seat) }
    ensures paid { HasPaid cached_classes member.old member.new }
    ensures cause { IfErr result (MayStop pool.now member.old member.new) }
{
    if !try_settle(pool, member) {
        return Err(TryTrimNo::Busy);
    }
    for class in 0..CACHED_CLASSES {
        match try_empty(pool, member, class) {
            Ok(()) => (),
            Err(no) => return Err(no),
        }
    }
    Ok(())
}

/// The thread gives all that its caches keep back. Where another one is in its way, it makes that
/// step again, and goes on from there.
pub fn trim<W: Wait>(rt: &W, pool: &SharedPool, member: &mut Member) -> Result<(), TrimNo>
    requires thread { IsThread pool.now member.old }
    ensures trimmed { HasTrimmed pool.now member.old member.new }
    ensures settled { OnOk result (IsSettled member.new) }
    ensures empty { OnOk result
        (AreEmpty pool.now cached_classes member.old.seat member.new.seat) }
    ensures paid { HasPaid cached_classes member.old member.new }
    ensures cause { OnErr result (member.new.account.turns < 2) }
{
    settle(rt, pool, member);
    for class in 0..CACHED_CLASSES {
        match wait_to_empty(rt, pool, member, class) {
            Ok(()) => (),
            Err(no) => return Err(no),
        }
    }
    Ok(())
}

// The thread gives all that its cache of a class keeps back, as often as another one is in its way.
fn wait_to_empty<W: Wait>(
    rt: &W,
    pool: &SharedPool,
    member: &mut Member,
    class: u32,
) -> Result<(), TrimNo>
    requires thread { IsThread pool.now member.old }
    requires settled { IsSettled member.old }
    requires class { class < cached_classes }
    ensures trimmed { HasTrimmed pool.now member.old member.new }
    ensures settled { OnOk result (IsSettled member.new) }
    ensures empty { OnOk result (FindsEmpty pool.now class member.old.seat member.new.seat) }
    ensures paid { MatchResult result
        (λ _. HasPaid 1 member.old member.new)
        (λ _. HasPaid 0 member.old member.new) }
    ensures cause { OnErr result (member.new.account.turns < 2) }
{
    for _ in rt.forever() {
        match try_empty(pool, member, class) {
            Ok(()) => return Ok(()),
            Err(TryTrimNo::Spent) => return Err(TrimNo::Spent),
            Err(TryTrimNo::Busy) => settle(rt, pool, member),
        }
    }
    unreachable!()
}
