//! The workers, each of which takes machines out of the table, steps them and brings them back.
ghost use Rattle.std.specs.Prelude.{◌≡◌, ◌+◌, ◌^◌, ◌<◌, Some, Option};
ghost use Rattle.work_table.specs.Places.{BelongsAt, IsSameRelation};

use crate::event_count::EventCount;
use crate::machine::{Machine, Stepped};
use crate::pace::Pace;
use crate::table::{Playing, Status, Table};
use std::alloc::AllocError;
use std::hint::spin_loop;
use std::mem::ManuallyDrop;
use std::sync::ledger::{Ledger, Share};
use std::sync::{Mutex, Wait};
use std::thread;

/// A worker that finds no machine looks again so often before it sleeps.
const LOOKS: u32 = 16;

/// A worker, whose share stands for the machine that it holds. Between its turns it holds none.
#[derive(Drop)]
pub struct Worker<T: Ledger> {
    pub share: Share<T>,
    pub pace: Pace,
    ghost one_part: { share.parts ≡ 1 },
    ghost none_out: { share.amount ≡ 0 },
}

/// What a turn of a worker did.
#[derive(Clone, Copy, PartialEq, Eq, Debug)]
pub enum Turn {
    /// It stepped the machine at the place before this one.
    Stepped(usize),
    /// No machine could go on, when so many changes had been counted.
    Idle(u64),
    /// All machines have finished, or one found no memory.
    Over,
}

/// Steps the machines of the table until all have finished or one finds no memory.
pub fn work<E, M: Machine<E>, T: Playing<M>, R: Wait>(
    rt: &R,
    shared: &E,
    table: &Mutex<ManuallyDrop<Table<M, T>>>,
    changes: &EventCount,
    worker: &mut Worker<T>,
)
    requires { IsSameRelation T.comes (M.comes shared.now) }
{
    let pace = worker.pace;
    let mut from = 0;
    let mut idle = 0u32;
    for _ in rt.forever() {
        match take_turn(rt, shared, table, changes, pace, from, &mut worker.share) {
            Turn::Stepped(next) => {
                from = next;
                idle = 0;
            }
            Turn::Idle(seen) => idle = rest(rt, changes, idle, seen),
            Turn::Over => return,
        }
    }
}

/// Whether all machines stand in the table finished, or one found no memory.
pub fn is_over<M, T: Playing<M>, R: Wait>(
    rt: &R,
    table: &Mutex<ManuallyDrop<Table<M, T>>>,
) -> bool {
    table.lock(rt).is_over()
}

/// A worker that found nothing to do, so often before this, when so many changes had been counted.
/// Answers how often it has then.
pub fn rest<R: Wait>(rt: &R, changes: &EventCount, idle: u32, seen: u64) -> u32 {
    if idle < LOOKS {
        thread::yield_now();
        return idle + 1;
    }
    changes.wait(rt, seen);
    idle
}

/// Takes a machine out, steps it and brings it back. The places are tried from `from` on.
pub fn take_turn<E, M: Machine<E>, T: Playing<M>, R: Wait>(
    rt: &R,
    shared: &E,
    table: &Mutex<ManuallyDrop<Table<M, T>>>,
    changes: &EventCount,
    pace: Pace,
    from: usize,
    share: &mut Share<T>,
) -> Turn
    requires relation { IsSameRelation T.comes (M.comes shared.now) }
    requires share { (share.old.parts ≡ 1) × (share.old.amount ≡ 0) }
    ensures { (share.new.parts ≡ 1) × (share.new.amount ≡ 0) }
{
    let seen = changes.read();
    let mut guard = table.lock(rt);
    let open = &mut **guard;
    if open.is_over() {
        return Turn::Over;
    }
    let Some((at, mut machine)) = open.take(from, seen, share) else {
        return Turn::Idle(seen);
    };
    drop(guard);
    let status = go_on(rt, shared, changes, pace, &mut machine);
    bring_back(rt, table, at, machine, status, share);
    match status {
        Status::Finished | Status::Failed => {
            changes.advance();
        }
        // That need not move a machine, so this one is tried again without a change.
        Status::Ready => thread::yield_now(),
        Status::Since(_) => {}
    }
    Turn::Stepped(at + 1)
}

/// Steps a machine until it cannot go on, and looks so often whether it can again.
pub fn go_on<E, M: Machine<E>, R: Wait>(
    rt: &R,
    shared: &E,
    changes: &EventCount,
    pace: Pace,
    machine: &mut M,
) -> Status
    requires { (first : M) × M.comes shared.now first machine.old }
    ensures { (first : M) →
        M.comes shared.now first machine.old → M.comes shared.now first machine.new }
{
    let mut moves = 0;
    let mut looks = pace.looks;
    for _ in rt.forever() {
        let seen = changes.read();
        let status = match machine.step(rt, shared) {
            Ok(Stepped::Went) => {
                moves = one_more(changes, pace, moves);
                looks = pace.looks;
                continue;
            }
            Ok(Stepped::Pending) => {
                counted(changes, seen, moves > 0);
                Status::Ready
            }
            Ok(Stepped::Waiting) => Status::Since(counted(changes, seen, moves > 0)),
            Ok(Stepped::Finished) => return Status::Finished,
            Err(AllocError) => return Status::Failed,
        };
        if looks == 0 {
            return status;
        }
        moves = 0;
        looks -= 1;
        spin_loop();
    }
    unreachable!()
}

// Counts one move more of a machine, and so many together as a change, for the machines that wait for
// it. Answers how many of them are not counted as one.
fn one_more(changes: &EventCount, pace: Pace, moves: u32) -> u32 {
    let moves = moves.saturating_add(1);
    if moves < pace.moves {
        return moves;
    }
    changes.advance();
    0
}

// Counts the moves of a machine as a change. Answers the count up to which it knows of no move of
// another.
fn counted(changes: &EventCount, seen: u64, moved: bool) -> u64 {
    if moved && changes.advance() == seen {
        seen.wrapping_add(1)
    } else {
        seen
    }
}

// Brings a machine back to its place. No other machine stands there, so this tries once; the table
// does not know that, so it tries until the place is empty.
fn bring_back<M, T: Playing<M>, R: Wait>(
    rt: &R,
    table: &Mutex<ManuallyDrop<Table<M, T>>>,
    at: usize,
    machine: M,
    status: Status,
    share: &mut Share<T>,
)
    requires machine { BelongsAt T.comes T.firsts at machine }
    requires share { (share.old.parts ≡ 1) × (share.old.amount ≡ 1) }
    ensures { (share.new.parts ≡ 1) × (share.new.amount ≡ 0) }
{
    let mut machine = machine;
    for _ in rt.forever() {
        match table.lock(rt).put(at, machine, status, share) {
            None => return,
            Some(back) => machine = back,
        }
    }
    unreachable!()
}
